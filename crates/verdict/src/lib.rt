// Refusal 3, the scan of the matrix, and each entry's verdict: the first number that applies.
#![tactic(auto)]

ghost use Rattle.std.specs.Prelude.{true, ◌≡◌, ℕ, ◌+◌, ◌*◌, ◌≤◌, ◌<◌, length};
ghost use Rattle.wire.specs.Wire.{digits};
ghost use Rattle.judge.specs.Judge.{first, in_limit, entry_good, general_judged, retired_judged, c_judged, nu_judged, one_class_judged};

use alpha::Alpha;
use judge::Refusal;

// The number in the four bytes from at on. It compiles to one four-byte load.
fn half_at(m: &[u8], at: usize) -> u32
    requires { at + 4 ≤ length m.now }
    ensures { result ≡ digits m.now at 4 }
{
    u32::from(m[at])
        + u32::from(m[at + 1]) * 0x100
        + u32::from(m[at + 2]) * 0x1_0000
        + u32::from(m[at + 3]) * 0x100_0000
}

// Whether the upper half of an entry already shows it to be small: its exponent lies below that of 2^1000. With the lowest bit of the
// limit set the compiler asks the whole half, and four entries at a time.
fn surely_small(m: &[u8], k: usize) -> bool
    requires { (8 * (k + 1) ≤ length m.now) × (k ≤ 262144) }
    ensures { result ≡ true → entry_good m.now k ≡ true }
{
    half_at(m, 8 * k + 4) % 0x8000_0000 < 0x7dff_ffff
}

// The first e entries, without a branch.
fn all_small(m: &[u8], e: usize) -> bool
    requires { (8 * e ≤ length m.now) × (e ≤ 262144) }
    ensures { result ≡ true → (j : ℕ) → j < e → entry_good m.now j ≡ true }
{
    let mut small = true;
    for k in 0..e {
        small = small & surely_small(m, k);
    }
    small
}

fn in_limit(x: f64) -> bool
    ensures { result ≡ in_limit x }
{
    (-Alpha::kernel_limit() <= x) & (x <= Alpha::kernel_limit())
}

// The exact look, entry by entry.
#[tactic(auto, using(judge::proofs::First::on, judge::proofs::First::stop, judge::proofs::First::done), unfolding(judge::specs::Judge::entry_good))]
fn entries_judged(m: &[u8], e: usize) -> Result<(), Refusal>
    requires { (8 * e ≤ length m.now) × (e ≤ 262144) }
    ensures { result ≡ first Refusal.Kernel (entry_good m.now) e 0 }
{
    for i in 0..e {
        if !in_limit(wire::float_at(m, 8 * i)) {
            return Err(Refusal::Kernel(i));
        }
    }
    Ok(())
}

// Refusal 3. The exact look is taken only where the upper halves leave a doubt.
fn matrix_judged(m: &[u8], n: usize) -> Result<(), Refusal>
    requires { (n ≤ 512) × (8 * (n * n) ≤ length m.now) }
    ensures { result ≡ first Refusal.Kernel (entry_good m.now) (n * n) 0 }
{
    if all_small(m, n * n) {
        return Ok(());
    }
    entries_judged(m, n * n)
}

#[tactic(auto, unfolding(judge::specs::Judge::general_judged, judge::specs::Judge::and_then))]
pub fn general_judged(
    n: usize,
    m: &[u8],
    l: &[u8],
    c: &[f64],
    a: &[f64],
    p: &[f64],
    eps: f64,
    budget: u64,
) -> Result<(), Refusal>
    requires { (n ≤ 512) × (8 * (n * n) ≤ length m.now) × (n ≤ length l.now) × (n ≤ length c.now) × (n ≤ length a.now) × (n ≤ length p.now) }
    ensures { result ≡ general_judged n m.now l.now c.now a.now p.now eps budget }
{
    matrix_judged(m, n)?;
    judge::labels_judged(l, n)?;
    judge::ceilings_judged(c, n)?;
    judge::alphas_judged(a, c, n)?;
    judge::linear_judged(p, n)?;
    judge::eps_judged(eps)?;
    judge::budget_judged(budget)
}

#[tactic(auto, unfolding(judge::specs::Judge::retired_judged, judge::specs::Judge::and_then))]
pub fn retired_judged(
    n: usize,
    m: &[u8],
    l: &[u8],
    c: &[f64],
    a: &[f64],
    p: &[f64],
    r: &[u8],
    eps: f64,
    shrinking: bool,
    budget: u64,
    floor: f64,
) -> Result<(), Refusal>
    requires { (n ≤ 512) × (8 * (n * n) ≤ length m.now) × (n ≤ length l.now) × (n ≤ length c.now) × (n ≤ length a.now) × (n ≤ length p.now) × (n ≤ length r.now) }
    ensures { result ≡ retired_judged floor n m.now l.now c.now a.now p.now r.now eps shrinking budget }
{
    general_judged(n, m, l, c, a, p, eps, budget)?;
    judge::floor_judged(floor)?;
    judge::retired_judged(r, n)?;
    judge::shrinking_judged(shrinking)
}

#[tactic(auto, unfolding(judge::specs::Judge::c_judged, judge::specs::Judge::and_then))]
pub fn c_judged(
    n: usize,
    m: &[u8],
    l: &[u8],
    cpos: f64,
    cneg: f64,
    eps: f64,
    budget: u64,
) -> Result<(), Refusal>
    requires { (n ≤ 512) × (8 * (n * n) ≤ length m.now) × (n ≤ length l.now) }
    ensures { result ≡ c_judged n m.now l.now cpos cneg eps budget }
{
    matrix_judged(m, n)?;
    judge::labels_judged(l, n)?;
    judge::costs_judged(cpos, cneg)?;
    judge::eps_judged(eps)?;
    judge::budget_judged(budget)
}

#[tactic(auto, unfolding(judge::specs::Judge::nu_judged, judge::specs::Judge::and_then))]
pub fn nu_judged(
    n: usize,
    m: &[u8],
    l: &[u8],
    nu: f64,
    eps: f64,
    budget: u64,
) -> Result<(), Refusal>
    requires { (n ≤ 512) × (8 * (n * n) ≤ length m.now) × (n ≤ length l.now) }
    ensures { result ≡ nu_judged n m.now l.now nu eps budget }
{
    matrix_judged(m, n)?;
    judge::labels_judged(l, n)?;
    judge::eps_judged(eps)?;
    judge::nu_of_judged(nu)?;
    judge::budget_judged(budget)
}

#[tactic(auto, unfolding(judge::specs::Judge::one_class_judged, judge::specs::Judge::and_then))]
pub fn one_class_judged(n: usize, m: &[u8], nu: f64, eps: f64, budget: u64) -> Result<(), Refusal>
    requires { (n ≤ 512) × (8 * (n * n) ≤ length m.now) }
    ensures { result ≡ one_class_judged n m.now nu eps budget }
{
    matrix_judged(m, n)?;
    judge::eps_judged(eps)?;
    judge::nu_of_judged(nu)?;
    judge::budget_judged(budget)
}
