// Several languages from pairs of trainings: each pair votes for one of its two, and the most votes win.
#![tactic(auto)]

ghost use Rattle.std.specs.Prelude.{cond, ◌≡◌, ℕ, ◌+◌, ◌*◌, ◌≤◌, ◌<◌, min, ltb, length, get_or};
ghost use Rattle.judge.specs.Judge.{first};
ghost use Rattle.votes.specs.Votes.{pairs_of, sides_after, panel, pair_start, pair_sum_to, chosen_by, votes_for, winner_to};
ghost use Rattle.votes.specs.Refusals.{votes_number, votes_index};
ghost use Rattle.votes.specs.Entry.{languages_good, counts_good, votes_judged, Sized, votes_laid, Voted, voted, voted_on, election_told};

// The two languages of a pair, counted from 0.
#[derive(Clone, Copy)]
pub struct Sides {
    pub first: usize,
    pub second: usize,
}

// Why there is no winner: how many languages there are, a length, or the first pair whose two counts differ.
#[derive(Clone, Copy, Debug, PartialEq, Eq)]
pub enum Refusal {
    Languages,
    Length,
    Counts(usize),
}

impl Refusal {
    // The number that C gets.
    pub fn number(self) -> u64
        ensures { result ≡ votes_number self }
    {
        match self {
            Refusal::Languages => 1,
            Refusal::Length | Refusal::Counts(_) => 2,
        }
    }

    // 0 where there is none.
    pub fn index(self) -> usize
        ensures { result ≡ votes_index self }
    {
        match self {
            Refusal::Counts(pair) => pair,
            _ => 0,
        }
    }
}

fn are_languages(k: usize) -> bool
    ensures { result ≡ languages_good k }
{
    (2 <= k) & (k <= 12)
}

#[tactic(auto, using(crate::proofs::Pairs::pairs_few))]
fn pairs_of(k: usize) -> usize
    requires { (2 ≤ k) × (k ≤ 12) }
    ensures { result ≡ pairs_of k }
{
    k * (k - 1) / 2
}

#[tactic(auto, unfolding(crate::specs::Votes::sides_after))]
fn sides_after(k: usize, s: Sides) -> Sides
    requires { (s.first < 12) × (s.second < 12) }
    ensures { result ≡ sides_after k s }
{
    if s.second + 1 < k {
        Sides {
            first: s.first,
            second: s.second + 1,
        }
    } else {
        Sides {
            first: s.first + 1,
            second: s.first + 2,
        }
    }
}

// The sum over n coefficients from place `from` on.
#[tactic(auto, unfolding(crate::specs::Votes::pair_sum_to))]
fn pair_sum(c: &[u8], v: &[u8], from: usize, n: usize) -> f64
    requires { (8 * (from + n) ≤ length c.now) × (8 * (from + n) ≤ length v.now) }
    ensures { result ≡ pair_sum_to c.now v.now from n }
{
    let mut sum = 0.0;
    for i in 0..n {
        let at = 8 * (from + i);
        sum = sum + wire::float_at(c, at) * wire::float_at(v, at);
    }
    sum
}

// Whom a pair votes for.
#[tactic(auto, unfolding(crate::specs::Votes::chosen_by))]
fn side_chosen(s: Sides, sum: f64, rho: f64) -> usize
    ensures { result ≡ chosen_by s sum rho }
{
    if sum - rho >= 0.0 { s.first } else { s.second }
}

// The votes of each language, in twelve places.
fn tally(k: usize, c: &[u8], v: &[u8], held: &[u8], valued: &[u8], rhos: &[u8]) -> [u64; 12]
    requires { Sized k (panel c.now v.now held.now valued.now rhos.now) }
    ensures { (12 ≡ length result) × ((x : ℕ) → x < 12 → get_or result x 0 ≡ votes_for k (panel c.now v.now held.now valued.now rhos.now) x) }
{
    let n = pairs_of(k);
    let mut t = [0u64; 12];
    let mut s = Sides {
        first: 0,
        second: 1,
    };
    let mut start = 0;
    for p in 0..n {
        let count = wire::word_at(held, 8 * p) as usize;
        let sum = pair_sum(c, v, start, count);
        let x = side_chosen(s, sum, wire::float_at(rhos, 8 * p));
        t[x] = t[x] + 1;
        s = sides_after(k, s);
        start = start + count;
    }
    t
}

// The first of n pairs whose two counts differ.
#[tactic(auto, using(judge::proofs::First::on, judge::proofs::First::stop, judge::proofs::First::done), unfolding(crate::specs::Entry::counts_good))]
fn counts_judged(held: &[u8], valued: &[u8], n: usize) -> Result<(), Refusal>
    requires { (n ≤ 66) × (8 * n ≤ length held.now) × (8 * n ≤ length valued.now) }
    ensures { result ≡ first Refusal.Counts (counts_good held.now valued.now) n 0 }
{
    for pair in 0..n {
        if wire::word_at(held, 8 * pair) != wire::word_at(valued, 8 * pair) {
            return Err(Refusal::Counts(pair));
        }
    }
    Ok(())
}

// all + more, or most + 1 where that is less.
fn capped(all: usize, more: u64, most: usize) -> usize
    requires { (all ≤ most + 1) × (most < 0x2000000000000000) }
    ensures { result ≡ min (all + more) (most + 1) }
{
    if more < (most + 1 - all) as u64 {
        all + more as usize
    } else {
        most + 1
    }
}

// The first n counts together, or most + 1 where that is less: no sum wraps.
#[tactic(auto, unfolding(crate::specs::Votes::pair_start))]
fn total(held: &[u8], n: usize, most: usize) -> usize
    requires { (n ≤ 66) × (8 * n ≤ length held.now) × (most < 0x2000000000000000) }
    ensures { result ≡ min (pair_start held.now n) (most + 1) }
{
    let mut all = 0;
    for i in 0..n {
        all = capped(all, wire::word_at(held, 8 * i), most);
    }
    all
}

#[tactic(auto, using(crate::proofs::Refusals::languages_within, crate::proofs::Pairs::pairs_few, crate::proofs::Refusals::capped_same), unfolding(crate::specs::Entry::votes_judged, judge::specs::Judge::and_then))]
fn judged(
    k: usize,
    c: &[u8],
    v: &[u8],
    held: &[u8],
    valued: &[u8],
    rhos: &[u8],
    votes: &[u8],
) -> Result<(), Refusal>
    ensures { result ≡ votes_judged k (panel c.now v.now held.now valued.now rhos.now) votes.now }
{
    judge::need(are_languages(k), Refusal::Languages)?;
    let n = pairs_of(k);
    judge::need(
        (held.len() == 8 * n) & (valued.len() == 8 * n),
        Refusal::Length,
    )?;
    counts_judged(held, valued, n)?;
    let all = 8 * total(held, n, c.len() / 8);
    let whole = (c.len() == all)
        & (v.len() == all)
        & (rhos.len() == 8 * n)
        & (votes.len() == 8 * k);
    judge::need(whole, Refusal::Length)
}

// The votes t of the first k languages, to their bytes.
#[tactic(auto, unfolding(crate::specs::Entry::votes_laid))]
fn lay(votes: &mut [u8], t: [u64; 12], k: usize)
    requires { (k ≤ 12) × (8 * k ≤ length votes.old) }
    ensures { votes.new ≡ votes_laid (λ x. get_or t x 0) votes.old k }
{
    for x in 0..k {
        wire::put_word(votes, 8 * x, t[x]);
    }
}

// x in w's place, where it has more.
fn better(w: usize, most: u64, x: usize, y: u64) -> usize
    ensures { result ≡ cond (ltb most y) x w }
{
    if most < y { x } else { w }
}

// Who has the most of the votes t of the first k languages.
fn winner(t: [u64; 12], k: usize) -> usize
    requires { k ≤ 12 }
    ensures { result ≡ winner_to (λ x. get_or t x 0) k }
{
    let mut w = 0;
    for x in 0..k {
        w = better(w, t[w], x, t[x]);
    }
    w
}

// The entry: the winner's number, from 1 on. What is refused leaves the votes as they were.
#[tactic(auto, using(crate::proofs::Refusals::judged_fine, crate::proofs::Laws::winner_below, crate::proofs::Steps::laid_same, crate::proofs::Steps::winner_same), unfolding(crate::specs::Entry::voted_on, crate::specs::Entry::voted_by))]
pub fn vote(
    k: usize,
    c: &[u8],
    v: &[u8],
    held: &[u8],
    valued: &[u8],
    rhos: &[u8],
    votes: &mut [u8],
) -> Result<usize, Refusal>
    ensures { ◌≡◌ {A = Voted} (voted result votes.new)
        (voted_on k (panel c.now v.now held.now valued.now rhos.now) votes.old) }
{
    judged(k, c, v, held, valued, rhos, votes)?;
    let t = tally(k, c, v, held, valued, rhos);
    lay(votes, t, k);
    Ok(winner(t, k) + 1)
}

// What is refused where there is no room for an answer.
pub fn short_answer(k: usize) -> Refusal
    ensures { result ≡ cond (languages_good k) Refusal.Length Refusal.Languages }
{
    if are_languages(k) {
        Refusal::Length
    } else {
        Refusal::Languages
    }
}

// The answer's three words.
#[tactic(auto, unfolding(crate::specs::Entry::election_told))]
pub fn tell(out: &mut [u8], e: Result<usize, Refusal>)
    requires { 24 ≤ length out.old }
    ensures { out.new ≡ election_told e out.old }
{
    let (number, index, winner) = match e {
        Ok(winner) => (0, 0, winner),
        Err(refusal) => (refusal.number(), refusal.index(), 0),
    };
    wire::put_word(out, 0, number);
    wire::put_word(out, 8, index as u64);
    wire::put_word(out, 16, winner as u64);
}
