// The answer of a run and both readings, and the scratch cleared.
#![tactic(auto)]

ghost use Rattle.std.specs.Prelude.{◌≡◌, Bool, true, false, ℕ, ◌+◌, ◌*◌, ◌≤◌, ◌<◌, length};
ghost use Rattle.readings.specs.Order.{NamesSamples, crate_reading, home_reading, weight_in};
ghost use Rattle.solver.specs.Run.{Full, full};
ghost use Rattle.state.specs.Lists.{State, state};
ghost use Rattle.modes.specs.Modes.{repaired};
ghost use Rattle.rho.specs.Rho.{level_by};
ghost use Rattle.answer.specs.Answer.{signed_by, coefficient_of, finished_to, counted_by, support_of, rho_of, obj_of, ratio_of, reason_of};
ghost use Rattle.answer.specs.Lent.{cleared};
ghost use Rattle.answer.specs.Solved.{stuck, Read, read, answer_of, crate_of, home_of, level_at, settled_of};

use judge::Refusal;
use rho::Level;
use solver::{Given, Run, Status};

#[derive(Clone, Copy, Debug, PartialEq, Eq)]
pub enum ExitReason {
    ReachedThreshold,
    ReachedIterations,
}

#[derive(Clone, Copy)]
pub struct Answer {
    pub rho: f64,
    // With the nu rule.
    pub r: Option<f64>,
    pub obj: f64,
    pub iterations: usize,
    pub exit_reason: ExitReason,
    pub support: usize,
}

// How a fit gives its coefficients: as they are, signed by label, or signed and divided by r.
#[derive(Clone, Copy, Debug, PartialEq, Eq)]
pub enum Finish {
    Plain,
    Signed,
    Scaled,
}

fn sign(label: u8, x: f64) -> f64
    ensures { result ≡ signed_by label x }
{
    if label == 1 { x } else { -x }
}

#[tactic(auto, unfolding(crate::specs::Answer::coefficient_of))]
fn coefficient(how: Finish, label: u8, r: f64, x: f64) -> f64
    ensures { result ≡ coefficient_of how label r x }
{
    match how {
        Finish::Plain => x,
        Finish::Signed => sign(label, x),
        Finish::Scaled => sign(label, x) / r,
    }
}

// Each of the first n places of a reading by its sample's label.
#[tactic(auto, unfolding(crate::specs::Answer::finished_to))]
pub fn finish_reading(d: &mut [f64], l: &[u8], n: usize, how: Finish, r: f64)
    requires { (n ≤ length d.old) × (n ≤ length l.now) }
    ensures { d.new ≡ finished_to how l.now r d.old n }
{
    for k in 0..n {
        d[k] = coefficient(how, l[k], r, d[k]);
    }
}

// 100·2^-52: a weight is counted above it.
const SUPPORT_LIMIT: f64 = 2.220446049250313e-14;

fn count(x: f64, t: usize) -> usize
    requires { t < 512 }
    ensures { (result ≡ counted_by x t) × (result ≤ t + 1) }
{
    if floats::abs(x) > SUPPORT_LIMIT {
        t + 1
    } else {
        t
    }
}

#[tactic(auto, unfolding(crate::specs::Answer::support_of))]
pub fn support(h: &[f64], n: usize) -> usize
    requires { (n ≤ 512) × (n ≤ length h.now) }
    ensures { result ≡ support_of h.now n }
{
    let mut t: usize = 0;
    for k in 0..n {
        t = count(h[k], t);
    }
    t
}

#[tactic(auto, unfolding(crate::specs::Answer::rho_of))]
pub fn rho_of(how: Finish, v: Level) -> f64
    ensures { result ≡ rho_of how v }
{
    match how {
        Finish::Plain | Finish::Signed => v.rho,
        Finish::Scaled => v.rho / v.r,
    }
}

#[tactic(auto, unfolding(crate::specs::Answer::obj_of))]
pub fn obj_of(how: Finish, v: Level, obj: f64) -> f64
    ensures { result ≡ obj_of how v obj }
{
    match how {
        Finish::Plain | Finish::Signed => obj,
        Finish::Scaled => obj / (v.r * v.r),
    }
}

#[tactic(auto, unfolding(crate::specs::Answer::ratio_of))]
pub fn ratio_of(nu: bool, v: Level) -> Option<f64>
    ensures { result ≡ ratio_of nu v }
{
    nu.then_some(v.r)
}

#[tactic(auto, unfolding(crate::specs::Answer::reason_of))]
pub fn reason(iterations: usize, budget: usize) -> ExitReason
    ensures { result ≡ reason_of iterations budget }
{
    if iterations == budget {
        ExitReason::ReachedIterations
    } else {
        ExitReason::ReachedThreshold
    }
}

#[tactic(auto, unfolding(crate::specs::Solved::stuck))]
fn is_stuck(r: Run) -> bool
    ensures { result ≡ stuck r.status }
{
    matches!(r.status, Status::Refused)
}

// The two readings, each finished.
fn read_both(
    cr: &mut [f64],
    h: &mut [f64],
    f: &[f64],
    u: &[u64],
    l: &[u8],
    n: usize,
    how: Finish,
    r: f64,
)
    requires { (n ≤ 512) × (n ≤ length cr.old) × (n ≤ length h.old) × (7 * n ≤ length f.now) × (NamesSamples n u.now) × (n ≤ length l.now) }
    ensures { (cr.new ≡ finished_to how l.now r (crate_reading n u.now (weight_in n f.now) cr.old) n)
        × (h.new ≡ finished_to how l.now r (home_reading n u.now (weight_in n f.now) h.old) n) }
{
    readings::read_crate(cr, f, u, n);
    readings::read_home(h, f, u, n);
    finish_reading(cr, l, n, how, r);
    finish_reading(h, l, n, how, r);
}

// rho, and with the nu rule r, over the active positions.
#[tactic(auto, unfolding(crate::specs::Solved::level_at))]
fn level_at(f: &[f64], y: &[u8], g: Given, active: usize) -> Level
    requires { (active ≤ g.n) × (g.n ≤ 512) × (7 * g.n ≤ length f.now) × (g.n ≤ length y.now) }
    ensures { result ≡ level_by g.nu (repaired g.mode) g.n f.now y.now active }
{
    let x = solver::is_repaired(g);
    rho::level_by(f, y, g.n, active, g.nu, x)
}

// The answer of a run that left r, and both result lists.
pub fn settle(
    cr: &mut [f64],
    h: &mut [f64],
    f: &[f64],
    u: &[u64],
    y: &[u8],
    l: &[u8],
    g: Given,
    how: Finish,
    budget: usize,
    r: Run,
) -> Result<Answer, Refusal>
    requires { (g.n ≤ 512) × (r.active ≤ g.n) × (g.n ≤ length cr.old) × (g.n ≤ length h.old) × (7 * g.n ≤ length f.now) × (NamesSamples g.n u.now)
        × (g.n ≤ length y.now) × (g.n ≤ length l.now) }
    ensures { ◌≡◌ {A = Read} (read result cr.new h.new)
        (settled_of g how l.now budget (full r f.now u.now y.now) cr.old h.old) }
{
    if is_stuck(r) {
        return Err(Refusal::ShrunkAway);
    }
    let n = g.n;
    let active = r.active;
    let v = level_at(f, y, g, active);
    read_both(cr, h, f, u, l, n, how, v.r);
    let answer = Answer {
        rho: rho_of(how, v),
        r: ratio_of(g.nu, v),
        obj: obj_of(how, v, solver::objective(f, n)),
        iterations: r.iterations,
        exit_reason: reason(r.iterations, budget),
        support: support(h, n),
    };
    Ok(answer)
}

// The used scratch is all +0.
pub fn clear(f: &mut [f64], u: &mut [u64], y: &mut [u8], n: usize)
    requires { (n ≤ 512) × (7 * n ≤ length f.old) × (2 * n ≤ length u.old) × (n ≤ length y.old) }
    ensures { ◌≡◌ {A = State} (state f.new u.new y.new) (cleared n (state f.old u.old y.old)) }
{
    lists::fill(f, 0.0, 7 * n);
    lists::fill(u, 0, 2 * n);
    lists::fill(y, 0, n);
}
