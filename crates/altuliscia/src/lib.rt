// The C functions: each entry over the host's bytes, with its own working room.
#![tactic(auto)]

ghost use Rattle.std.specs.Prelude.{◌≡◌, ℕ};
ghost use Rattle.hosted.specs.Hosted.{Handed, handed};
ghost use Rattle.votes.specs.Votes.{panel};
ghost use Rattle.wide.specs.Wide.{general_tuned_host, c_tuned_host, nu_tuned_host, one_class_tuned_host};
ghost use Rattle.altuliscia.specs.Functions.{general_host, retired_host, c_host, nu_host, one_class_host, PairHanded, pair_handed, pair_host, VotesHanded, votes_handed, votes_host, version};

use tuning::Settings;

// Labels l, ceilings c, start alphas a and linear term p.
#[tactic(auto, using(hosted::proofs::Serves::serves, hosted::proofs::Serves::inputs_right, hosted::proofs::Serves::lists_long), unfolding(crate::specs::Functions::general_host_by, hosted::specs::Hosted::hosted_by))]
pub fn altuliscia_general(
    n: usize,
    m: &[u8],
    l: &[u8],
    c: &[u8],
    a: &[u8],
    p: &[u8],
    nurule: u8,
    eps: u64,
    shrinking: u8,
    budget: u64,
    cr: &mut [u8],
    h: &mut [u8],
    answer: &mut [u8],
) -> u64
    ensures { ◌≡◌ {A = Handed} (handed result cr.new h.new answer.new)
        (general_host n m.now l.now c.now a.now p.now nurule eps shrinking budget cr.old h.old answer.old) }
{
    let floats = (l.len() == n)
        & hosted::are_floats(n, c.len())
        & hosted::are_floats(n, a.len())
        & hosted::are_floats(n, p.len());
    if let Err(refusal) = hosted::sized(n, floats, m.len(), cr.len(), h.len(), answer.len()) {
        return hosted::turn_away(answer, refusal);
    }
    let t = tuning::plain();
    let eps64 = wire::float_of(eps);
    let settings = Settings {
        eps: eps64,
        shrinking: shrinking != 0,
        budget,
    };
    served::general(n, m, l, c, a, p, nurule != 0, settings, t, cr, h, answer)
}

// The general one, over the samples that aren't retired: a byte of r for each sample, and a tuning t of eight-byte words.
#[tactic(auto, using(hosted::proofs::Serves::serves, hosted::proofs::Serves::inputs_right, hosted::proofs::Serves::lists_long, judge::proofs::Lengths::long_enough), unfolding(crate::specs::Functions::retired_host, hosted::specs::Hosted::hosted_by))]
pub fn altuliscia_retired(
    n: usize,
    m: &[u8],
    l: &[u8],
    c: &[u8],
    a: &[u8],
    p: &[u8],
    r: &[u8],
    nurule: u8,
    eps: u64,
    shrinking: u8,
    budget: u64,
    t: &[u8],
    cr: &mut [u8],
    h: &mut [u8],
    answer: &mut [u8],
) -> u64
    ensures { ◌≡◌ {A = Handed} (handed result cr.new h.new answer.new)
        (retired_host n m.now l.now c.now a.now p.now r.now nurule eps shrinking budget t.now cr.old h.old answer.old) }
{
    let lists = (l.len() == n)
        & hosted::are_floats(n, c.len())
        & hosted::are_floats(n, a.len())
        & hosted::are_floats(n, p.len())
        & (r.len() == n)
        & hosted::is_floor(t);
    if let Err(refusal) = hosted::sized(n, lists, m.len(), cr.len(), h.len(), answer.len()) {
        return hosted::turn_away(answer, refusal);
    }
    let tune = hosted::tuning_of(t);
    let nu = nurule != 0;
    let shrunk = shrinking != 0;
    let eps64 = wire::float_of(eps);
    let settings = Settings {
        eps: eps64,
        shrinking: shrunk,
        budget,
    };
    served::retired(n, m, l, c, a, p, r, nu, settings, tune, cr, h, answer)
}

// A ceiling for each label.
#[tactic(auto, using(hosted::proofs::Serves::serves, hosted::proofs::Serves::inputs_right, judge::proofs::Lengths::long_enough), unfolding(crate::specs::Functions::c_host_by, hosted::specs::Hosted::hosted_by))]
pub fn altuliscia_c(
    n: usize,
    m: &[u8],
    l: &[u8],
    cpos: u64,
    cneg: u64,
    eps: u64,
    shrinking: u8,
    budget: u64,
    cr: &mut [u8],
    h: &mut [u8],
    answer: &mut [u8],
) -> u64
    ensures { ◌≡◌ {A = Handed} (handed result cr.new h.new answer.new)
        (c_host n m.now l.now cpos cneg eps shrinking budget cr.old h.old answer.old) }
{
    if let Err(refusal) = hosted::sized(n, l.len() == n, m.len(), cr.len(), h.len(), answer.len()) {
        return hosted::turn_away(answer, refusal);
    }
    let t = tuning::plain();
    let cpos64 = wire::float_of(cpos);
    let cneg64 = wire::float_of(cneg);
    let eps64 = wire::float_of(eps);
    let settings = Settings {
        eps: eps64,
        shrinking: shrinking != 0,
        budget,
    };
    served::c(n, m, l, cpos64, cneg64, settings, t, cr, h, answer)
}

// The nu rule.
#[tactic(auto, using(hosted::proofs::Serves::serves, hosted::proofs::Serves::inputs_right, judge::proofs::Lengths::long_enough), unfolding(crate::specs::Functions::nu_host_by, hosted::specs::Hosted::hosted_by))]
pub fn altuliscia_nu(
    n: usize,
    m: &[u8],
    l: &[u8],
    nu: u64,
    eps: u64,
    shrinking: u8,
    budget: u64,
    cr: &mut [u8],
    h: &mut [u8],
    answer: &mut [u8],
) -> u64
    ensures { ◌≡◌ {A = Handed} (handed result cr.new h.new answer.new)
        (nu_host n m.now l.now nu eps shrinking budget cr.old h.old answer.old) }
{
    if let Err(refusal) = hosted::sized(n, l.len() == n, m.len(), cr.len(), h.len(), answer.len()) {
        return hosted::turn_away(answer, refusal);
    }
    let t = tuning::plain();
    let nu64 = wire::float_of(nu);
    let eps64 = wire::float_of(eps);
    let settings = Settings {
        eps: eps64,
        shrinking: shrinking != 0,
        budget,
    };
    served::nu(n, m, l, nu64, settings, t, cr, h, answer)
}

// No labels.
#[tactic(auto, using(hosted::proofs::Serves::serves, hosted::proofs::Serves::inputs_right), unfolding(crate::specs::Functions::one_class_host_by, hosted::specs::Hosted::hosted_by))]
pub fn altuliscia_one_class(
    n: usize,
    m: &[u8],
    nu: u64,
    eps: u64,
    shrinking: u8,
    budget: u64,
    cr: &mut [u8],
    h: &mut [u8],
    answer: &mut [u8],
) -> u64
    ensures { ◌≡◌ {A = Handed} (handed result cr.new h.new answer.new)
        (one_class_host n m.now nu eps shrinking budget cr.old h.old answer.old) }
{
    if let Err(refusal) = hosted::sized(n, true, m.len(), cr.len(), h.len(), answer.len()) {
        return hosted::turn_away(answer, refusal);
    }
    let t = tuning::plain();
    let nu64 = wire::float_of(nu);
    let eps64 = wire::float_of(eps);
    let settings = Settings {
        eps: eps64,
        shrinking: shrinking != 0,
        budget,
    };
    served::one_class(n, m, nu64, settings, t, cr, h, answer)
}

// The same four under a tuning t of eight-byte words, with an answer of 128 bytes.
pub fn altuliscia_general_tuned(
    n: usize,
    m: &[u8],
    l: &[u8],
    c: &[u8],
    a: &[u8],
    p: &[u8],
    nurule: u8,
    eps: u64,
    shrinking: u8,
    budget: u64,
    t: &[u8],
    cr: &mut [u8],
    h: &mut [u8],
    answer: &mut [u8],
) -> u64
    ensures { ◌≡◌ {A = Handed} (handed result cr.new h.new answer.new)
        (general_tuned_host n m.now l.now c.now a.now p.now nurule eps shrinking budget t.now cr.old h.old answer.old) }
{
    wide::general(
        n, m, l, c, a, p, nurule, eps, shrinking, budget, t, cr, h, answer,
    )
}

pub fn altuliscia_c_tuned(
    n: usize,
    m: &[u8],
    l: &[u8],
    cpos: u64,
    cneg: u64,
    eps: u64,
    shrinking: u8,
    budget: u64,
    t: &[u8],
    cr: &mut [u8],
    h: &mut [u8],
    answer: &mut [u8],
) -> u64
    ensures { ◌≡◌ {A = Handed} (handed result cr.new h.new answer.new)
        (c_tuned_host n m.now l.now cpos cneg eps shrinking budget t.now cr.old h.old answer.old) }
{
    wide::c(
        n, m, l, cpos, cneg, eps, shrinking, budget, t, cr, h, answer,
    )
}

pub fn altuliscia_nu_tuned(
    n: usize,
    m: &[u8],
    l: &[u8],
    nu: u64,
    eps: u64,
    shrinking: u8,
    budget: u64,
    t: &[u8],
    cr: &mut [u8],
    h: &mut [u8],
    answer: &mut [u8],
) -> u64
    ensures { ◌≡◌ {A = Handed} (handed result cr.new h.new answer.new)
        (nu_tuned_host n m.now l.now nu eps shrinking budget t.now cr.old h.old answer.old) }
{
    wide::nu(n, m, l, nu, eps, shrinking, budget, t, cr, h, answer)
}

pub fn altuliscia_one_class_tuned(
    n: usize,
    m: &[u8],
    nu: u64,
    eps: u64,
    shrinking: u8,
    budget: u64,
    t: &[u8],
    cr: &mut [u8],
    h: &mut [u8],
    answer: &mut [u8],
) -> u64
    ensures { ◌≡◌ {A = Handed} (handed result cr.new h.new answer.new)
        (one_class_tuned_host n m.now nu eps shrinking budget t.now cr.old h.old answer.old) }
{
    wide::one_class(n, m, nu, eps, shrinking, budget, t, cr, h, answer)
}

// One step's pair: weight and ceiling of i and of j, gradients, diagonals, the entry of row i at j.
#[tactic(auto, unfolding(crate::specs::Functions::pair_host))]
pub fn altuliscia_pair(
    ai: u64,
    bi: u64,
    aj: u64,
    bj: u64,
    gi: u64,
    gj: u64,
    di: u64,
    dj: u64,
    r: u64,
    agree: u8,
    pair: &mut [u8],
) -> u64
    ensures { ◌≡◌ {A = PairHanded} (pair_handed result pair.new) (pair_host ai bi aj bj gi gj di dj r agree pair.old) }
{
    if pair.len() < 16 {
        return 2;
    }
    let p = finder::find_pair(
        finder::record_of(ai, bi),
        finder::record_of(aj, bj),
        wire::float_of(gi),
        wire::float_of(gj),
        wire::float_of(di),
        wire::float_of(dj),
        wire::float_of(r),
        agree != 0,
    );
    finder::put_pair(pair, p);
    0
}

// Languages from pairs of trainings: coefficients c and kernel values u of all pairs, how many of each a pair has, rhos.
#[tactic(auto, unfolding(crate::specs::Functions::votes_host))]
pub fn altuliscia_votes(
    k: usize,
    c: &[u8],
    u: &[u8],
    held: &[u8],
    valued: &[u8],
    rhos: &[u8],
    v: &mut [u8],
    answer: &mut [u8],
) -> u64
    ensures { ◌≡◌ {A = VotesHanded} (votes_handed result v.new answer.new)
        (votes_host k (panel c.now u.now held.now valued.now rhos.now) v.old answer.old) }
{
    if answer.len() < 24 {
        return votes::short_answer(k).number();
    }
    let e = votes::vote(k, c, u, held, valued, rhos, v);
    votes::tell(answer, e);
    match e {
        Ok(_) => 0,
        Err(refusal) => refusal.number(),
    }
}

// Which version this is.
pub fn altuliscia_version() -> u64
    ensures { ◌≡◌ {A = ℕ} result version }
{
    10600
}
