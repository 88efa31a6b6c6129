// Refusals 1 and 2, 4 to 10 and 12 to 14, each by itself: what is lent and given is judged before anything is written.
#![tactic(auto)]

ghost use Rattle.std.specs.Prelude.{not, ◌≡◌, ℕ, ◌*◌, ◌≤◌, length};
ghost use Rattle.judge.specs.Sizes.{room_good, sizes};
ghost use Rattle.judge.specs.Refusals.{number, index_of};
ghost use Rattle.judge.specs.Judge.{first, need, is_ceiling, label_good, ceiling_good, cost_good, is_start, alpha_good, linear_good, eps_good, nu_good, budget_good, floor_good, bytes_good};

use alpha::Alpha;

// Why an input is refused, with the first offending index where there is one. They stand by number; in which order they are looked for, `verdict` says.
#[derive(Clone, Copy, Debug, PartialEq, Eq)]
pub enum Refusal {
    Samples,
    Length,
    Kernel(usize),
    Label(usize),
    Ceiling(usize),
    Alpha(usize),
    Linear(usize),
    Eps,
    Nu,
    Budget,
    ShrunkAway,
    Retired,
    RetiredShrinking,
    Floor,
}

impl Refusal {
    // The number that C gets.
    pub fn number(self) -> u64
        ensures { result ≡ number self }
    {
        match self {
            Refusal::Samples => 1,
            Refusal::Length => 2,
            Refusal::Kernel(_) => 3,
            Refusal::Label(_) => 4,
            Refusal::Ceiling(_) => 5,
            Refusal::Alpha(_) => 6,
            Refusal::Linear(_) => 7,
            Refusal::Eps => 8,
            Refusal::Nu => 9,
            Refusal::Budget => 10,
            Refusal::ShrunkAway => 11,
            Refusal::Retired => 12,
            Refusal::RetiredShrinking => 13,
            Refusal::Floor => 14,
        }
    }

    // 0 where there is none.
    pub fn index(self) -> usize
        ensures { result ≡ index_of self }
    {
        match self {
            Refusal::Kernel(index)
            | Refusal::Label(index)
            | Refusal::Ceiling(index)
            | Refusal::Alpha(index)
            | Refusal::Linear(index) => index,
            _ => 0,
        }
    }
}

// What isn't good is refused.
pub fn need<E: Copy>(good: bool, refusal: E) -> Result<(), E>
    ensures { result ≡ need refusal good }
{
    if good { Ok(()) } else { Err(refusal) }
}

#[tactic(auto, using(crate::proofs::Lengths::square))]
fn roomy(n: usize, m: usize, rc: usize, rh: usize, f: usize, u: usize, y: usize) -> bool
    requires { n ≤ 512 }
    ensures { result ≡ room_good n m rc rh f u y }
{
    (m == 8 * (n * n)) & (n <= rc) & (n <= rh) & (7 * n <= f) & (2 * n <= u) & (n <= y)
}

// Refusals 1 and 2. n may be any number at all.
#[tactic(auto, unfolding(crate::specs::Sizes::sizes))]
pub fn sized(
    n: usize,
    inputs: bool,
    m: usize,
    rc: usize,
    rh: usize,
    f: usize,
    u: usize,
    y: usize,
) -> Result<(), Refusal>
    ensures { result ≡ sizes n inputs m rc rh f u y }
{
    need((0 < n) & (n <= 512), Refusal::Samples)?;
    need(inputs & roomy(n, m, rc, rh, f, u, y), Refusal::Length)
}

// Refusal 4.
#[tactic(auto, using(crate::proofs::First::on, crate::proofs::First::stop, crate::proofs::First::done), unfolding(crate::specs::Judge::label_good))]
pub fn labels_judged(l: &[u8], n: usize) -> Result<(), Refusal>
    requires { n ≤ length l.now }
    ensures { result ≡ first Refusal.Label (label_good l.now) n 0 }
{
    for i in 0..n {
        if l[i] > 1 {
            return Err(Refusal::Label(i));
        }
    }
    Ok(())
}

fn is_ceiling(c: f64) -> bool
    ensures { result ≡ is_ceiling c }
{
    (0.0 < c) & (c <= Alpha::kernel_limit())
}

// Refusal 5, the general entry's.
#[tactic(auto, using(crate::proofs::First::on, crate::proofs::First::stop, crate::proofs::First::done), unfolding(crate::specs::Judge::ceiling_good))]
pub fn ceilings_judged(c: &[f64], n: usize) -> Result<(), Refusal>
    requires { n ≤ length c.now }
    ensures { result ≡ first Refusal.Ceiling (ceiling_good c.now) n 0 }
{
    for i in 0..n {
        if !is_ceiling(c[i]) {
            return Err(Refusal::Ceiling(i));
        }
    }
    Ok(())
}

// Refusal 5, the C entry's.
#[tactic(auto, unfolding(crate::specs::Judge::first, crate::specs::Judge::cost_good))]
pub fn costs_judged(cpos: f64, cneg: f64) -> Result<(), Refusal>
    ensures { result ≡ first Refusal.Ceiling (cost_good cpos cneg) 2 0 }
{
    need(is_ceiling(cpos), Refusal::Ceiling(0))?;
    need(is_ceiling(cneg), Refusal::Ceiling(1))
}

// Refusal 6.
#[tactic(auto, using(crate::proofs::First::on, crate::proofs::First::stop, crate::proofs::First::done), unfolding(crate::specs::Judge::alpha_good))]
pub fn alphas_judged(a: &[f64], c: &[f64], n: usize) -> Result<(), Refusal>
    requires { (n ≤ length a.now) × (n ≤ length c.now) }
    ensures { result ≡ first Refusal.Alpha (alpha_good a.now c.now) n 0 }
{
    for i in 0..n {
        if !((0.0 <= a[i]) & (a[i] <= c[i])) {
            return Err(Refusal::Alpha(i));
        }
    }
    Ok(())
}

// Refusal 7.
#[tactic(auto, using(crate::proofs::First::on, crate::proofs::First::stop, crate::proofs::First::done), unfolding(crate::specs::Judge::linear_good))]
pub fn linear_judged(p: &[f64], n: usize) -> Result<(), Refusal>
    requires { n ≤ length p.now }
    ensures { result ≡ first Refusal.Linear (linear_good p.now) n 0 }
{
    for i in 0..n {
        if !((-1.0 / 0.0 < p[i]) & (p[i] < 1.0 / 0.0)) {
            return Err(Refusal::Linear(i));
        }
    }
    Ok(())
}

// Refusal 8: the patterns below the infinity's are those of finite numbers with a clear sign bit.
#[tactic(auto, using(crate::proofs::Bits::eps_pattern))]
pub fn eps_judged(eps: f64) -> Result<(), Refusal>
    ensures { result ≡ need Refusal.Eps (eps_good eps) }
{
    need(wire::pattern_of(eps) < 0x7ff0_0000_0000_0000, Refusal::Eps)
}

// Refusal 9.
#[tactic(auto, unfolding(crate::specs::Judge::nu_good))]
pub fn nu_of_judged(nu: f64) -> Result<(), Refusal>
    ensures { result ≡ need Refusal.Nu (nu_good nu) }
{
    need((0.0 < nu) & (nu <= 1.0), Refusal::Nu)
}

// Refusal 10.
#[tactic(auto, unfolding(crate::specs::Judge::budget_good))]
pub fn budget_judged(budget: u64) -> Result<(), Refusal>
    ensures { result ≡ need Refusal.Budget (budget_good budget) }
{
    need((0 < budget) & (budget <= 10000000), Refusal::Budget)
}

// Refusal 14.
#[tactic(auto, unfolding(crate::specs::Judge::floor_good))]
pub fn floor_judged(x: f64) -> Result<(), Refusal>
    ensures { result ≡ need Refusal.Floor (floor_good x) }
{
    need((0.0 < x) & (x <= 1.0), Refusal::Floor)
}

#[tactic(auto, unfolding(crate::specs::Judge::bytes_good))]
fn bytes_good(r: &[u8], n: usize) -> bool
    requires { n ≤ length r.now }
    ensures { result ≡ bytes_good r.now n }
{
    let mut good = true;
    for k in 0..n {
        good = good & (r[k] <= 1);
    }
    good
}

// Refusal 12.
pub fn retired_judged(r: &[u8], n: usize) -> Result<(), Refusal>
    requires { n ≤ length r.now }
    ensures { result ≡ need Refusal.Retired (bytes_good r.now n) }
{
    need(bytes_good(r, n), Refusal::Retired)
}

// Refusal 13.
pub fn shrinking_judged(shrinking: bool) -> Result<(), Refusal>
    ensures { result ≡ need Refusal.RetiredShrinking (not shrinking) }
{
    need(!shrinking, Refusal::RetiredShrinking)
}
