// Lists and answers as the host's bytes.
#![tactic(auto)]

ghost use Rattle.std.specs.Prelude.{◌≡◌, Bool, ℕ, ◌+◌, ◌*◌, ◌≤◌, ◌<◌, length};
ghost use Rattle.answer.specs.Answer.{ratio_there, ratio_bits, reason_number};
ghost use Rattle.judge.specs.Refusals.{number, index_of};
ghost use Rattle.hosted.specs.Hosted.{decoded_to, stored_to, words_to, words_by, eights, zeroed_to, padded, tuning_known, floor_known, floor_of, word_on, mode_of, tuning_of, host_sizes, Handed, handed, delivered_with, turned_away_by, turned_wide_by, fresh_places, fresh_floats, fresh_numbers, fresh_bytes, fresh_sheet};

use alpha::Alpha;
use answer::{Answer, ExitReason};
use judge::Refusal;
use modes::Mode;
use tuning::Tuning;

// What C is told of a refusal: a number, any at all, and an index.
pub trait Refuses: Copy {
    ghost numbered: { Self → ℕ };

    ghost indexed: { Self → ℕ };

    fn number_of(self) -> u64
        ensures { result ≡ numbered self };

    fn index_of(self) -> usize
        ensures { result ≡ indexed self };
}

impl Refuses for Refusal {
    ghost numbered = { number };

    ghost indexed = { index_of };

    fn number_of(self) -> u64 {
        self.number()
    }

    fn index_of(self) -> usize {
        self.index()
    }
}

// A bare number has index 0.
impl Refuses for u64 {
    ghost numbered = { λ q. q };

    ghost indexed = { λ q. 0 };

    fn number_of(self) -> u64 {
        self
    }

    fn index_of(self) -> usize {
        0
    }
}

impl Refuses for (u64, usize) {
    ghost numbered = { λ told. told.0 };

    ghost indexed = { λ told. told.1 };

    fn number_of(self) -> u64 {
        self.0
    }

    fn index_of(self) -> usize {
        self.1
    }
}

#[tactic(auto, unfolding(crate::specs::Hosted::decoded_to))]
pub fn decode(d: &mut [f64], b: &[u8], n: usize)
    requires { (n ≤ 512) × (n ≤ length d.old) × (8 * n ≤ length b.now) }
    ensures { d.new ≡ decoded_to b.now d.old n }
{
    for k in 0..n {
        d[k] = wire::float_at(b, 8 * k);
    }
}

#[tactic(auto, unfolding(crate::specs::Hosted::stored_to))]
fn store(b: &mut [u8], d: &[f64], n: usize)
    requires { (n ≤ 512) × (n ≤ length d.now) × (8 * n ≤ length b.old) }
    ensures { b.new ≡ stored_to d.now b.old n }
{
    for k in 0..n {
        wire::put_float(b, 8 * k, d[k]);
    }
}

#[tactic(auto, unfolding(answer::specs::Answer::ratio_there))]
fn ratio_there(r: Option<f64>) -> u64
    ensures { result ≡ ratio_there r }
{
    r.is_some() as u64
}

#[tactic(auto, unfolding(answer::specs::Answer::ratio_bits))]
fn ratio_bits(r: Option<f64>) -> u64
    ensures { result ≡ ratio_bits r }
{
    match r {
        None => 0,
        Some(x) => wire::pattern_of(x),
    }
}

#[tactic(auto, unfolding(answer::specs::Answer::reason_number))]
fn reason_number(r: ExitReason) -> u64
    ensures { result ≡ reason_number r }
{
    match r {
        ExitReason::ReachedThreshold => 0,
        ExitReason::ReachedIterations => 1,
    }
}

#[tactic(auto, unfolding(answer::specs::Answer::words_of))]
pub fn words_of<R: Refuses>(o: Result<Answer, R>) -> [u64; 9]
    ensures { (result ≡ words_by R.numbered R.indexed o) × (9 ≡ length result) }
{
    match o {
        Err(refusal) => {
            let number = refusal.number_of();
            let index = refusal.index_of();
            [number, index as u64, 0, 0, 0, 0, 0, 0, 0]
        }
        Ok(a) => [
            0,
            0,
            wire::pattern_of(a.rho),
            ratio_there(a.r),
            ratio_bits(a.r),
            wire::pattern_of(a.obj),
            a.iterations as u64,
            reason_number(a.exit_reason),
            a.support as u64,
        ],
    }
}

#[tactic(auto, unfolding(crate::specs::Hosted::words_to))]
fn put_words(out: &mut [u8], w: [u64; 9])
    requires { 72 ≤ length out.old }
    ensures { out.new ≡ words_to w out.old 9 }
{
    for k in 0..9 {
        wire::put_word(out, 8 * k, w[k]);
    }
}

fn put_answer<R: Refuses>(out: &mut [u8], o: Result<Answer, R>)
    requires { 72 ≤ length out.old }
    ensures { out.new ≡ words_to (words_by R.numbered R.indexed o) out.old 9 }
{
    put_words(out, words_of(o));
}

// The words behind the answer's nine, where it has 128 bytes.
#[tactic(auto, unfolding(crate::specs::Hosted::zeroed_to))]
pub fn pad(out: &mut [u8])
    requires { 128 ≤ length out.old }
    ensures { out.new ≡ padded out.old }
{
    for k in 0..7 {
        wire::put_word(out, 72 + 8 * k, 0);
    }
}

// Whether this build knows all words of a tuning.
pub fn is_tuning(t: &[u8]) -> bool
    ensures { result ≡ tuning_known t.now }
{
    (t.len() % 8 == 0) & (t.len() / 8 <= 2)
}

// .. where samples may be retired: with the number of words as a parameter it would be no shorter.
pub fn is_floor(t: &[u8]) -> bool
    ensures { result ≡ floor_known t.now }
{
    (t.len() % 8 == 0) & (t.len() / 8 <= 1)
}

#[tactic(auto, unfolding(crate::specs::Hosted::floor_of))]
fn floor_of(t: &[u8]) -> f64
    ensures { result ≡ floor_of t.now }
{
    if 8 <= t.len() {
        return wire::float_at(t, 0);
    }
    Alpha::curvature_floor()
}

// Whether the word that begins at byte `at` is there, and isn't 0.
#[tactic(auto, unfolding(crate::specs::Hosted::word_on))]
fn word_on(t: &[u8], at: usize) -> bool
    requires { at ≤ 8 }
    ensures { result ≡ word_on t.now at }
{
    if at + 8 <= t.len() {
        return wire::word_at(t, at) != 0;
    }
    false
}

#[tactic(auto, unfolding(crate::specs::Hosted::mode_of))]
fn mode_of(t: &[u8]) -> Mode
    ensures { result ≡ mode_of t.now }
{
    if word_on(t, 8) {
        return Mode::Travelling;
    }
    Mode::Crate
}

// A word that isn't there is its default.
pub fn tuning_of(t: &[u8]) -> Tuning
    ensures { result ≡ tuning_of t.now }
{
    let floor = floor_of(t);
    let mode = mode_of(t);
    Tuning { floor, mode }
}

// Whether k bytes are n floats.
pub fn are_floats(n: usize, k: usize) -> bool
    ensures { result ≡ eights n k }
{
    (k / 8 == n) & (k % 8 == 0)
}

// Refusals 1 and 2.
#[tactic(auto, unfolding(crate::specs::Hosted::host_sizes))]
pub fn sized(
    n: usize,
    inputs: bool,
    m: usize,
    cr: usize,
    h: usize,
    answer: usize,
) -> Result<(), Refusal>
    ensures { result ≡ host_sizes n inputs m cr h answer }
{
    judge::sized(
        n,
        inputs & (72 <= answer),
        m,
        cr / 8,
        h / 8,
        3584,
        1024,
        512,
    )
}

// What C gets of refusals 1 and 2. An answer that is too short stays as it is.
#[tactic(auto, unfolding(crate::specs::Hosted::turned_away_by))]
pub fn turn_away<R: Refuses>(answer: &mut [u8], refusal: R) -> u64
    ensures { (result ≡ R.numbered refusal)
        × (answer.new ≡ turned_away_by (R.numbered refusal) (R.indexed refusal) answer.old) }
{
    if 72 <= answer.len() {
        put_answer(answer, Err(refusal));
    }
    refusal.number_of()
}

// The same, of an answer of 128 bytes.
#[tactic(auto, unfolding(crate::specs::Hosted::turned_wide_by))]
pub fn turn_away_wide<R: Refuses>(answer: &mut [u8], refusal: R) -> u64
    ensures { (result ≡ R.numbered refusal)
        × (answer.new ≡ turned_wide_by (R.numbered refusal) (R.indexed refusal) answer.old) }
{
    if 128 <= answer.len() {
        put_answer(answer, Err(refusal));
        pad(answer);
    }
    refusal.number_of()
}

// The host's lists: the readings c and r go out only where the run is accepted.
// The answer is written last: who sees it there finds the lists whole.
#[tactic(auto, unfolding(crate::specs::Hosted::delivered_with))]
pub fn deliver<R: Refuses>(
    cr: &mut [u8],
    h: &mut [u8],
    answer: &mut [u8],
    c: &[f64],
    r: &[f64],
    n: usize,
    o: Result<Answer, R>,
) -> u64
    requires { (n ≤ 512) × (n ≤ length c.now) × (n ≤ length r.now) × (8 * n ≤ length cr.old) × (8 * n ≤ length h.old) × (72 ≤ length answer.old) }
    ensures { ◌≡◌ {A = Handed} (handed result cr.new h.new answer.new)
        (delivered_with R.numbered R.indexed n o c.now r.now cr.old h.old answer.old) }
{
    match o {
        Ok(_) => {
            store(cr, c, n);
            store(h, r, n);
            put_answer(answer, o);
            0
        }
        Err(refusal) => {
            put_answer(answer, Err(refusal));
            refusal.number_of()
        }
    }
}

// Working room. No proof unfolds the zeros of a list that a function hands out. Five functions, since five shut definitions stand in `room` and in
// the promises about a call (crates/hosted/specs, `fresh_places` and its fellows), each opened by its name.
#[tactic(auto, unfolding(crate::specs::Hosted::fresh_places))]
pub fn places() -> [f64; 512]
    ensures { (result ≡ fresh_places) × (512 ≡ length result) }
{
    [0.0; 512]
}

#[tactic(auto, unfolding(crate::specs::Hosted::fresh_floats))]
pub fn floats() -> [f64; 3584]
    ensures { (result ≡ fresh_floats) × (3584 ≡ length result) }
{
    [0.0; 3584]
}

#[tactic(auto, unfolding(crate::specs::Hosted::fresh_numbers))]
pub fn numbers() -> [u64; 1024]
    ensures { (result ≡ fresh_numbers) × (1024 ≡ length result) }
{
    [0; 1024]
}

#[tactic(auto, unfolding(crate::specs::Hosted::fresh_bytes))]
pub fn bytes() -> [u8; 512]
    ensures { (result ≡ fresh_bytes) × (512 ≡ length result) }
{
    [0; 512]
}

// For a training without an order table: five floats to a sample.
#[tactic(auto, unfolding(crate::specs::Hosted::fresh_sheet))]
pub fn sheet() -> [f64; 2560]
    ensures { (result ≡ fresh_sheet) × (2560 ≡ length result) }
{
    [0.0; 2560]
}
