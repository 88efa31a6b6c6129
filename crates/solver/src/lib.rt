// The run: passes of pair choice and update, with shrinking, until there is no pair or the budget is spent.
#![tactic(auto)]

ghost use Rattle.std.specs.Prelude.{cond, ◌≡◌, ◌+◌, ◌-◌, ◌*◌, ◌≤◌, ◌<◌, length};
ghost use Rattle.std.specs.Option.{unwrap_or, is_none};
ghost use Rattle.modes.specs.Modes.{repaired};
ghost use Rattle.state.specs.Lists.{given, state, Ready};
ghost use Rattle.solver.specs.End.{closed, sum_to, objective_of, trained};
ghost use Rattle.solver.specs.Run.{ready_of, problem_of, Full, full, counter_at, active_at, reopened, advanced, ended, after_walk, period, Sound};
ghost use Rattle.solver.specs.Pass.{chosen, rebuilt, refreshed, level_nu, tops_c, tops_nu, tops_of, restored, shrunk, counted_down, stepped, looked_again, worked, passed, runs};

use choose_c::Extremes;
use kernel::{Kind, Problem};
use modes::Mode;
use shrink::Limits;
use update::Ceilings;

// What doesn't change in a run, besides the lent lists.
#[derive(Clone, Copy)]
pub struct Given {
    pub n: usize,
    pub side: usize,
    pub kind: Kind,
    pub mode: Mode,
    pub floor: f64,
    pub eps: f64,
    pub shrinking: bool,
    pub nu: bool,
}

impl Given {
    // What a run over the matrix m is given.
    fn problem<'a>(self, m: &'a [u8]) -> Problem<'a>
        ensures { given result ≡ problem_of self m.now }
    {
        Problem {
            n: self.n,
            side: self.side,
            kind: self.kind,
            matrix: m,
        }
    }
}

#[derive(Clone, Copy, Debug, PartialEq, Eq)]
pub enum Status {
    Going,
    Done,
    Refused,
}

#[derive(Clone, Copy, Debug, PartialEq, Eq)]
pub struct Run {
    pub active: usize,
    pub counter: usize,
    pub iterations: usize,
    pub unshrink: bool,
    pub status: Status,
}

// What shrinking asks of the extremes.
#[derive(Clone, Copy, Debug, PartialEq)]
pub struct Tops {
    pub limits: Limits,
    pub level: f64,
}

fn with_counter(r: Run, c: usize) -> Run
    ensures { result ≡ counter_at r c }
{
    Run { counter: c, ..r }
}

fn with_active(r: Run, a: usize) -> Run
    ensures { result ≡ active_at r a }
{
    Run { active: a, ..r }
}

fn reopen(r: Run, n: usize) -> Run
    ensures { result ≡ reopened r n }
{
    Run {
        active: n,
        unshrink: true,
        ..r
    }
}

fn advance(r: Run) -> Run
    requires { r.iterations < 10000000 }
    ensures { result ≡ advanced r }
{
    Run {
        iterations: r.iterations + 1,
        ..r
    }
}

fn end(r: Run) -> Run
    ensures { result ≡ ended r }
{
    Run {
        status: Status::Done,
        ..r
    }
}

fn after_walk(r: Run, w: Option<usize>) -> Run
    ensures { result ≡ after_walk r (unwrap_or w 0) (is_none w) }
{
    match w {
        Some(active) => Run { active, ..r },
        None => Run {
            active: 0,
            status: Status::Refused,
            ..r
        },
    }
}

#[tactic(auto, unfolding(crate::specs::Run::period))]
fn period_of(n: usize) -> usize
    requires { 1 ≤ n }
    ensures { (result ≡ period n) × (1 ≤ result) × (result ≤ 1000) }
{
    n.min(1000)
}

pub fn is_repaired(g: Given) -> bool
    ensures { result ≡ repaired g.mode }
{
    modes::repaired(g.mode)
}

// The pair, by the rule that holds.
#[tactic(auto, unfolding(crate::specs::Pass::chosen))]
fn select(f: &[f64], u: &[u64], y: &[u8], m: &[u8], g: Given, r: Run) -> Option<(usize, usize)>
    requires { (Ready (problem_of g m.now) (state f.now u.now y.now)) × (r.active ≤ g.n) }
    ensures { result ≡ chosen g m.now (full r f.now u.now y.now) }
{
    let p = g.problem(m);
    if g.nu {
        choose_nu::select_working_set_nu(f, u, y, p, g.floor, g.eps, r.active)
    } else {
        choose_c::select_working_set(f, u, y, p, g.floor, g.eps, r.active)
    }
}

fn tops_c(x: bool, e: Extremes) -> Tops
    ensures { result ≡ tops_c x e }
{
    let a = e.gmax1.value;
    let b = e.gmax2.value;
    Tops {
        limits: Limits::c(x, a, b),
        level: a + b,
    }
}

#[tactic(auto, unfolding(crate::specs::Pass::level_nu))]
fn level_nu(x: bool, a: f64, b: f64, c: f64, d: f64) -> f64
    ensures { result ≡ level_nu x a b c d }
{
    if x {
        floats::max(a + c, b + d)
    } else {
        floats::max(a + b, c + d)
    }
}

fn tops_nu(x: bool, e: choose_nu::Extremes) -> Tops
    ensures { result ≡ tops_nu x e }
{
    let a = e.gmaxp1.value;
    let b = e.gmaxn1.value;
    let c = e.gmaxp2.value;
    let d = e.gmaxn2.value;
    Tops {
        limits: Limits::nu(x, a, b, c, d),
        level: level_nu(x, a, b, c, d),
    }
}

#[tactic(auto, unfolding(crate::specs::Pass::tops_of))]
fn tops_of(f: &[f64], u: &[u64], y: &[u8], m: &[u8], g: Given, r: Run) -> Tops
    requires { (Ready (problem_of g m.now) (state f.now u.now y.now)) × (r.active ≤ g.n) }
    ensures { result ≡ tops_of g m.now (full r f.now u.now y.now) }
{
    let p = g.problem(m);
    let x = is_repaired(g);
    if g.nu {
        tops_nu(x, partner::max_violating_pair(f, u, y, p, r.active))
    } else {
        tops_c(x, partner::max_violating_pair(f, u, y, p, r.active))
    }
}

// The gradients of the inactive positions, computed anew.
#[tactic(auto, unfolding(crate::specs::Pass::rebuilt))]
fn rebuild(f: &mut [f64], u: &[u64], y: &[u8], m: &[u8], g: Given, r: Run)
    requires { (Ready (problem_of g m.now) (state f.old u.now y.now)) × (r.active ≤ g.n) }
    ensures { ◌≡◌ {A = Full} (full r f.new u.now y.now)
        (rebuilt g m.now (full r f.old u.now y.now)) }
{
    let p = g.problem(m);
    let x = is_repaired(g);
    reconstruct::reconstruct_gradient(f, u, y, p, x, r.active);
}

fn refreshed_run(g: Given, r: Run) -> Run
    requires { Sound g.n r }
    ensures { (result ≡ cond (repaired g.mode) (active_at r g.n) r) × (Sound g.n result) × (result.iterations ≡ r.iterations) }
{
    if is_repaired(g) {
        return with_active(r, g.n);
    }
    r
}

// Before the second look; repaired, all positions are active again.
fn refresh(f: &mut [f64], u: &[u64], y: &[u8], m: &[u8], g: Given, r: Run) -> Run
    requires { (Ready (problem_of g m.now) (state f.old u.now y.now)) × (Sound g.n r) }
    ensures { (◌≡◌ {A = Full} (full result f.new u.now y.now)
        (refreshed g m.now (full r f.old u.now y.now))) × (Sound g.n result) × (result.iterations ≡ r.iterations) }
{
    rebuild(f, u, y, m, g, r);
    refreshed_run(g, r)
}

// Where the level is low for the first time, all positions are active again.
fn restore(f: &mut [f64], u: &[u64], y: &[u8], m: &[u8], g: Given, level: f64, r: Run) -> Run
    requires { (Ready (problem_of g m.now) (state f.old u.now y.now)) × (Sound g.n r) }
    ensures { (◌≡◌ {A = Full} (full result f.new u.now y.now)
        (restored g m.now level (full r f.old u.now y.now))) × (Sound g.n result) }
{
    if r.unshrink {
        return r;
    }
    if level <= g.eps * 10.0 {
        rebuild(f, u, y, m, g, r);
        return reopen(r, g.n);
    }
    r
}

fn shrink_down(f: &mut [f64], u: &mut [u64], y: &mut [u8], m: &[u8], g: Given, r: Run) -> Run
    requires { (Ready (problem_of g m.now) (state f.old u.old y.old)) × (Sound g.n r) }
    ensures { (◌≡◌ {A = Full} (full result f.new u.new y.new)
        (shrunk g m.now (full r f.old u.old y.old)))
        × (Sound g.n result) × (Ready (problem_of g m.now) (state f.new u.new y.new)) }
{
    let t = tops_of(f, u, y, m, g, r);
    let q = restore(f, u, y, m, g, t.level, r);
    let n = g.n;
    let l = t.limits;
    let active = q.active;
    let w = shrink::walk_over(f, u, y, n, l, active);
    after_walk(q, w)
}

// The counter falls; at 0 it begins again, and the run shrinks.
fn count_down(f: &mut [f64], u: &mut [u64], y: &mut [u8], m: &[u8], g: Given, r: Run) -> Run
    requires { (Ready (problem_of g m.now) (state f.old u.old y.old)) × (Sound g.n r) × (1 ≤ g.n) }
    ensures { (◌≡◌ {A = Full} (full result f.new u.new y.new)
        (counted_down g m.now (full r f.old u.old y.old)))
        × (Sound g.n result) × (Ready (problem_of g m.now) (state f.new u.new y.new)) }
{
    let c = r.counter - 1;
    if 0 < c {
        return with_counter(r, c);
    }
    let q = with_counter(r, period_of(g.n));
    if g.shrinking {
        return shrink_down(f, u, y, m, g, q);
    }
    q
}

// One iteration.
#[tactic(auto, unfolding(crate::specs::Pass::stepped))]
fn step(
    f: &mut [f64],
    u: &[u64],
    y: &[u8],
    m: &[u8],
    b: &[f64],
    g: Given,
    r: Run,
    i: usize,
    j: usize,
) -> Run
    requires { (Ready (problem_of g m.now) (state f.old u.now y.now)) × (g.n ≤ length b.now) × (Sound g.n r)
        × (r.iterations < 10000000) × (i < g.n) × (j < g.n) }
    ensures { (◌≡◌ {A = Full} (full result f.new u.now y.now)
        (stepped g m.now b.now (full r f.old u.now y.now) i j))
        × (Sound g.n result) × (result.iterations ≤ r.iterations + 1) }
{
    let ceilings = Ceilings {
        places: b,
        mode: g.mode,
    };
    update::update(f, u, y, g.problem(m), &ceilings, r.active, i, j, g.floor);
    advance(r)
}

// The second look, after a reconstruction.
fn look(f: &mut [f64], u: &[u64], y: &[u8], m: &[u8], b: &[f64], g: Given, r: Run) -> Run
    requires { (Ready (problem_of g m.now) (state f.old u.now y.now)) × (g.n ≤ length b.now) × (Sound g.n r)
        × (r.iterations < 10000000) }
    ensures { (◌≡◌ {A = Full} (full result f.new u.now y.now)
        (looked_again g m.now b.now (full r f.old u.now y.now)))
        × (Sound g.n result) × (result.iterations ≤ r.iterations + 1) }
{
    match select(f, u, y, m, g, r) {
        Some((i, j)) => step(f, u, y, m, b, g, with_counter(r, 1), i, j),
        None => end(r),
    }
}

// What a pass does after shrinking.
fn work(f: &mut [f64], u: &[u64], y: &[u8], m: &[u8], b: &[f64], g: Given, r: Run) -> Run
    requires { (Ready (problem_of g m.now) (state f.old u.now y.now)) × (g.n ≤ length b.now) × (Sound g.n r)
        × (r.iterations < 10000000) }
    ensures { (◌≡◌ {A = Full} (full result f.new u.now y.now)
        (worked g m.now b.now (full r f.old u.now y.now)))
        × (Sound g.n result) × (result.iterations ≤ r.iterations + 1) }
{
    match select(f, u, y, m, g, r) {
        Some((i, j)) => step(f, u, y, m, b, g, r, i, j),
        None => {
            let q = refresh(f, u, y, m, g, r);
            look(f, u, y, m, b, g, q)
        }
    }
}

fn pass(f: &mut [f64], u: &mut [u64], y: &mut [u8], m: &[u8], b: &[f64], g: Given, r: Run) -> Run
    requires { (Ready (problem_of g m.now) (state f.old u.old y.old)) × (g.n ≤ length b.now) × (Sound g.n r)
        × (r.iterations < 10000000) × (1 ≤ g.n) }
    ensures { (◌≡◌ {A = Full} (full result f.new u.new y.new)
        (passed g m.now b.now (full r f.old u.old y.old)))
        × (Sound g.n result) × (result.iterations ≤ r.iterations + 1)
        × (Ready (problem_of g m.now) (state f.new u.new y.new)) }
{
    let q = count_down(f, u, y, m, g, r);
    if q.status == Status::Going {
        return work(f, u, y, m, b, g, q);
    }
    q
}

// At most budget passes.
pub fn solve(
    f: &mut [f64],
    u: &mut [u64],
    y: &mut [u8],
    m: &[u8],
    b: &[f64],
    g: Given,
    budget: usize,
    start: Run,
) -> Run
    requires { (Ready (problem_of g m.now) (state f.old u.old y.old)) × (g.n ≤ length b.now) × (Sound g.n start)
        × (start.iterations ≡ 0) × (budget ≤ 10000000) × (1 ≤ g.n) }
    ensures { (◌≡◌ {A = Full} (full result f.new u.new y.new)
        (runs g m.now b.now (full start f.old u.old y.old) budget))
        × (Sound g.n result) × (Ready (problem_of g m.now) (state f.new u.new y.new)) }
{
    let mut r = start;
    for _ in 0..budget {
        if r.status != Status::Going {
            return r;
        }
        r = pass(f, u, y, m, b, g, r);
    }
    r
}

// Where the budget ran out with inactive positions left, all are active again.
pub fn close(f: &mut [f64], u: &[u64], y: &[u8], m: &[u8], g: Given, budget: usize, r: Run) -> Run
    requires { (Ready (problem_of g m.now) (state f.old u.now y.now)) × (Sound g.n r) }
    ensures { (◌≡◌ {A = Full} (full result f.new u.now y.now)
        (closed g m.now budget (full r f.old u.now y.now))) × (Sound g.n result) }
{
    if (r.iterations == budget) & (r.active < g.n) {
        rebuild(f, u, y, m, g, r);
        return with_active(r, g.n);
    }
    r
}

// Half the sum of weight·(gradient + linear term), over all positions in order.
pub fn objective(f: &[f64], n: usize) -> f64
    requires { (n ≤ 512) × (7 * n ≤ length f.now) }
    ensures { result ≡ objective_of n f.now }
{
    let mut v = 0.0;
    // By k: three fields of one list are read at it.
    for k in 0..n {
        v = v + f[2 * n + k] * (f[k] + f[4 * n + k]);
    }
    v / 2.0
}

// Before the first pass.
pub fn ready(n: usize) -> Run
    requires { (1 ≤ n) × (n ≤ 512) }
    ensures { (result ≡ ready_of n) × (Sound n result) }
{
    Run {
        active: n,
        counter: period_of(n) + 1,
        iterations: 0,
        unshrink: false,
        status: Status::Going,
    }
}

// Start, at most budget passes, end.
pub fn train(
    f: &mut [f64],
    u: &mut [u64],
    y: &mut [u8],
    m: &[u8],
    b: &[f64],
    g: Given,
    budget: usize,
) -> Run
    requires { (Ready (problem_of g m.now) (state f.old u.old y.old)) × (g.n ≤ length b.now) × (budget ≤ 10000000) × (1 ≤ g.n) }
    ensures { (◌≡◌ {A = Full} (full result f.new u.new y.new)
        (trained g m.now b.now budget (state f.old u.old y.old)))
        × (Sound g.n result) × (Ready (problem_of g m.now) (state f.new u.new y.new)) }
{
    start::start(f, u, y, g.problem(m), b);
    let r = solve(f, u, y, m, b, g, budget, ready(g.n));
    close(f, u, y, m, g, budget, r)
}
