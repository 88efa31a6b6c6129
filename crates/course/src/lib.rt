// A training without an order table: start, passes until there is no pair or the budget is spent, and what it answers.
// The parameters f and y are the lent floats and labels, p the linear term: orderless/specs/Sheet.antt.
#![tactic(auto)]

ghost use Rattle.std.specs.Prelude.{true, cond, ◌≡◌, ◌+◌, ◌*◌, ◌≤◌, ◌<◌, T, eqb, length, get_or};
ghost use Rattle.std.specs.Float.{binary64, nan};
ghost use Rattle.std.specs.Float.Ieee.{fits, mul, eq};
ghost use Rattle.alpha.specs.Weight as Weight;
ghost use Rattle.course.specs.Filled.{diagonal_in, joined_in};
ghost use Rattle.kernel.specs.Matrix.{Matrix, entry_at};
ghost use Rattle.kernel.specs.Row.{signed_of};
ghost use Rattle.orderless.specs.Choice.{choice_in};
ghost use Rattle.orderless.specs.End.{share_c_of, share_nu_of, level_in, objective_in};
ghost use Rattle.orderless.specs.Run.{spread, raised_to, opened_to, Course, course, passes, goes_on, orderless};
ghost use Rattle.orderless.specs.Sheet.{read_in, ceilings_of, alpha_of};
ghost use Rattle.orderless.specs.Step.{slope as slope_in};
ghost use Rattle.sheet.specs.Ready.{SheetReady, Diagonal, Fitting};

use rho::{Level, Share};
use sheet::Costs;
use solver::Given;

// How many steps a run has taken, and whether there may be more. No Result: the steps count whichever way it ends.
#[derive(Clone, Copy, Debug, PartialEq, Eq)]
pub struct Went {
    pub steps: usize,
    pub going: bool,
}

// The diagonal of the matrix into its field.
fn diagonals(f: &mut [f64], m: &[u8], g: Given)
    requires { (Matrix g.side m.now) × (g.side ≡ g.n) × (5 * g.n ≤ length f.old) }
    ensures { f.new ≡ diagonal_in g m.now f.old g.n }
{
    let n = g.n;
    // Here and below by k, the sample: several lists, or several fields of one, are read or written at it.
    for k in 0..n {
        f[2 * n + k] = kernel::entry(m, g.side, k, k);
    }
}

// F of each sample is its signed linear term.
fn begin(f: &mut [f64], y: &[u8], n: usize, p: f64)
    requires { (n ≤ 512) × (5 * n ≤ length f.old) × (n ≤ length y.now) }
    ensures { f.new ≡ spread (λ k. signed_of (eqb (get_or y.now k 0) 1) p) f.old n }
{
    for k in 0..n {
        f[k] = kernel::signed(y[k] == 1, p);
    }
}

// x times the row of sample i, added to F of each.
fn bring(f: &mut [f64], m: &[u8], side: usize, n: usize, i: usize, x: f64)
    requires { (Matrix side m.now) × (n ≤ side) × (i < n) × (5 * n ≤ length f.old) }
    ensures { f.new ≡ raised_to (λ k. mul binary64 x (entry_at side m.now i k)) f.old n }
{
    for k in 0..n {
        f[k] += x * kernel::entry(m, side, i, k);
    }
}

// What sample i brings to F of each: nothing where its weight is 0.
fn join(f: &mut [f64], y: &[u8], m: &[u8], g: Given, i: usize)
    requires { (SheetReady g m.now y.now f.old) × (i < g.n) }
    ensures { f.new ≡ cond (eq (get_or f.old (g.n + i) nan) Weight.zero) f.old
        (raised_to (λ k. mul binary64 (signed_of (eqb (get_or y.now i 0) 1) (get_or f.old (g.n + i) nan)) (entry_at g.side m.now i k)) f.old g.n) }
{
    let n = g.n;
    let v = f[n + i];
    if v == 0.0 {
        return;
    }
    bring(f, m, g.side, n, i, kernel::signed(y[i] == 1, v));
}

// What all samples bring to F of each.
fn gather(f: &mut [f64], y: &[u8], m: &[u8], g: Given)
    requires { SheetReady g m.now y.now f.old }
    ensures { f.new ≡ joined_in g m.now y.now f.old g.n }
{
    let n = g.n;
    for i in 0..n {
        join(f, y, m, g, i);
    }
}

// The copies of each sample, from F.
fn open(f: &mut [f64], y: &[u8], m: &[u8], g: Given, costs: Costs)
    requires { SheetReady g m.now y.now f.old }
    ensures { f.new ≡ opened_to g m.now y.now (ceilings_of costs.pos costs.neg) f.old g.n }
{
    let n = g.n;
    for k in 0..n {
        let x = f[n + k];
        let v = f[k];
        sheet::place(f, y, g.nu, n, k, x, v, costs);
    }
}

// One pass: the pair and its step, or the end.
fn pass(f: &mut [f64], y: &[u8], m: &[u8], g: Given, costs: Costs, w: Went) -> Went
    requires { (SheetReady g m.now y.now f.old) × (Diagonal g m.now f.old) × (Fitting g f.old) × (1 ≤ g.n) × (w.steps < 10000000) }
    ensures { (◌≡◌ {A = Course} (course f.new result.steps result.going) (passes g m.now y.now (ceilings_of costs.pos costs.neg)
        (course f.old w.steps w.going) (choice_in g m.now y.now (read_in g.nu g.n f.old))))
        × (result.steps ≤ w.steps + 1) × (SheetReady g m.now y.now f.new) × (Diagonal g m.now f.new)
        × (Fitting g f.new) }
{
    let Some((i, j)) = picks::choice(f, y, m, g) else {
        return Went {
            steps: w.steps,
            going: false,
        };
    };
    sheet::step(f, y, m, g, i, j, costs);
    Went {
        steps: w.steps + 1,
        going: true,
    }
}

// At most budget passes.
fn go_on(f: &mut [f64], y: &[u8], m: &[u8], g: Given, costs: Costs, budget: usize) -> Went
    requires { (SheetReady g m.now y.now f.old) × (Diagonal g m.now f.old) × (Fitting g f.old) × (1 ≤ g.n) × (budget ≤ 10000000) }
    ensures { ◌≡◌ {A = Course} (course f.new result.steps result.going)
        (goes_on g m.now y.now (ceilings_of costs.pos costs.neg) (course f.old 0 true) budget) }
{
    let mut w = Went {
        steps: 0,
        going: true,
    };
    for _ in 0..budget {
        if !w.going {
            return w;
        }
        w = pass(f, y, m, g, costs, w);
    }
    w
}

// Start and passes, from the weights in their field.
pub fn train(
    f: &mut [f64],
    y: &[u8],
    m: &[u8],
    g: Given,
    p: f64,
    costs: Costs,
    budget: usize,
) -> Went
    requires { (SheetReady g m.now y.now f.old) × (1 ≤ g.n) × (budget ≤ 10000000) × (T (fits binary64 p)) }
    ensures { ◌≡◌ {A = Course} (course f.new result.steps result.going)
        (orderless g m.now y.now (ceilings_of costs.pos costs.neg) (λ k. p) (diagonal_in g m.now f.old g.n) budget) }
{
    diagonals(f, m, g);
    begin(f, y, g.n, p);
    gather(f, y, m, g);
    open(f, y, m, g, costs);
    go_on(f, y, m, g, costs, budget)
}

fn share_c(f: &[f64], y: &[u8], m: &[u8], g: Given, costs: Costs) -> Share
    requires { SheetReady g m.now y.now f.now }
    ensures { (result ≡ share_c_of y.now (alpha_of y.now (ceilings_of costs.pos costs.neg) (read_in g.nu g.n f.now))
        (slope_in g m.now y.now (ceilings_of costs.pos costs.neg) (read_in g.nu g.n f.now)) g.n) × (result.free ≤ 512) }
{
    let n = g.n;
    let mut s = Share::none();
    for k in 0..n {
        let pos = y[k] == 1;
        let w = sheet::alpha_in(f, y, g.nu, n, k, costs);
        s = rho::weigh(s, pos, w, rho::sign(pos, sheet::slope(f, y, g, k, costs)));
    }
    s
}

// x says whether the ub is lowered. A loop of its own beside share_c, as the definitions have it: it passes samples over, and takes
// the gradient without its sign.
fn share_nu(f: &[f64], y: &[u8], m: &[u8], g: Given, costs: Costs, label: u8, x: bool) -> Share
    requires { SheetReady g m.now y.now f.now }
    ensures { (result ≡ share_nu_of y.now (alpha_of y.now (ceilings_of costs.pos costs.neg) (read_in g.nu g.n f.now))
        (slope_in g m.now y.now (ceilings_of costs.pos costs.neg) (read_in g.nu g.n f.now)) x label g.n) × (result.free ≤ 512) }
{
    let n = g.n;
    let mut s = Share::none();
    for k in 0..n {
        let w = sheet::alpha_in(f, y, g.nu, n, k, costs);
        s = rho::join(x, s, y[k] == label, w, sheet::slope(f, y, g, k, costs));
    }
    s
}

// rho, and with the nu rule its companion r.
pub fn level(f: &[f64], y: &[u8], m: &[u8], g: Given, costs: Costs) -> Level
    requires { SheetReady g m.now y.now f.now }
    ensures { result ≡ level_in g m.now y.now (ceilings_of costs.pos costs.neg) (read_in g.nu g.n f.now) }
{
    if g.nu {
        let x = solver::is_repaired(g);
        let a = rho::settle(share_nu(f, y, m, g, costs, 1, x));
        let b = rho::settle(share_nu(f, y, m, g, costs, 0, x));
        return Level {
            rho: (a - b) / 2.0,
            r: (a + b) / 2.0,
        };
    }
    Level {
        rho: rho::settle(share_c(f, y, m, g, costs)),
        r: 0.0,
    }
}

// Half the sum of weight·(gradient + linear term), over all samples in order.
pub fn objective(f: &[f64], y: &[u8], m: &[u8], g: Given, p: f64, costs: Costs) -> f64
    requires { SheetReady g m.now y.now f.now }
    ensures { result ≡ objective_in g m.now y.now (ceilings_of costs.pos costs.neg) (read_in g.nu g.n f.now) (λ k. p) }
{
    let n = g.n;
    let mut v = 0.0;
    for k in 0..n {
        v = v + f[n + k] * (sheet::slope(f, y, g, k, costs) + p);
    }
    v / 2.0
}
