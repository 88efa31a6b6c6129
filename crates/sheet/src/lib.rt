// The leaves of a training without an order table: one sample's copies, all copies shifted, and one step.
// The parameters f and y are the lent floats and labels: orderless/specs/Sheet.antt.
#![tactic(auto)]

ghost use Rattle.std.specs.Prelude.{◌≡◌, ◌+◌, ◌*◌, ◌≤◌, ◌<◌, eqb, length, get_or};
ghost use Rattle.std.specs.Float.{binary64, nan};
ghost use Rattle.std.specs.Float.Ieee.{add, sub, mul};
ghost use Rattle.alpha.specs.Weight.{weight};
ghost use Rattle.kernel.specs.Matrix.{Matrix, entry_at};
ghost use Rattle.kernel.specs.Row.{signed_of};
ghost use Rattle.orderless.specs.Plain.{plain};
ghost use Rattle.orderless.specs.Sheet.{read_in, up_field, ceilings_of, alpha_of, own as own_of};
ghost use Rattle.orderless.specs.Step.{up_put, down_put, put_in, raised_in, shift_in, pair_for, steps};
ghost use Rattle.sheet.specs.Ready.{SheetReady};

use alpha::Alpha;
use solver::Given;
use update::Pair;

// A zero loses its sign.
pub fn plain_of(x: f64) -> f64
    ensures { result ≡ plain x }
{
    if x == 0.0 { 0.0 } else { x }
}

// The two ceilings, by label.
#[derive(Clone, Copy, Debug, PartialEq)]
pub struct Costs {
    pub pos: f64,
    pub neg: f64,
}

impl Costs {
    fn of(self, pos: bool) -> f64
        ensures { result ≡ ceilings_of self.pos self.neg pos }
    {
        if pos { self.pos } else { self.neg }
    }
}

// What the copy for seconds of label t holds of a sample of label pos with the weight w, where F is v.
fn up_put(nu: bool, t: bool, pos: bool, w: Alpha, v: f64) -> f64
    ensures { result ≡ up_put nu t pos w v }
{
    let rises = partner::may_rise(pos, w);
    let sought = !nu | (t == pos);
    if sought & rises { v } else { 1.0 / 0.0 }
}

fn down_put(pos: bool, w: Alpha, v: f64) -> f64
    ensures { result ≡ down_put pos w v }
{
    let falls = partner::may_fall(pos, w);
    if falls { v } else { -1.0 / 0.0 }
}

// Sample k, of label pos, takes the weight w; its F is v.
pub fn put(f: &mut [f64], nu: bool, n: usize, k: usize, pos: bool, w: Alpha, v: f64)
    requires { (k < n) × (n ≤ 512) × (5 * n ≤ length f.old) }
    ensures { f.new ≡ put_in nu n f.old k pos w v }
{
    let a = up_put(nu, true, pos, w, v);
    let b = up_put(nu, false, pos, w, v);
    let d = down_put(pos, w, v);
    f[n + k] = w.value;
    f[3 * n + k] = d;
    f[k] = a;
    if nu {
        f[4 * n + k] = b;
    }
}

// x is added in each copy of sample k.
fn raise(f: &mut [f64], nu: bool, n: usize, k: usize, x: f64)
    requires { (k < n) × (n ≤ 512) × (5 * n ≤ length f.old) }
    ensures { f.new ≡ raised_in nu n f.old k x }
{
    f[k] += x;
    f[3 * n + k] += x;
    if nu {
        f[4 * n + k] += x;
    }
}

// All copies, where the signed weights of i and j changed by x and z.
fn shift(
    f: &mut [f64],
    m: &[u8],
    side: usize,
    nu: bool,
    n: usize,
    i: usize,
    j: usize,
    x: f64,
    z: f64,
)
    requires { (Matrix side m.now) × (n ≤ side) × (i < n) × (j < n) × (5 * n ≤ length f.old) }
    ensures { f.new ≡ shift_in nu n (λ k. add binary64 (mul binary64 (entry_at side m.now i k) x)
        (mul binary64 (entry_at side m.now j k) z)) f.old n }
{
    // By k: it is the sample.
    for k in 0..n {
        let a = kernel::entry(m, side, i, k);
        let b = kernel::entry(m, side, j, k);
        raise(f, nu, n, k, a * x + b * z);
    }
}

// The weight of sample k under the ceiling of its label.
pub fn alpha_in(f: &[f64], y: &[u8], nu: bool, n: usize, k: usize, costs: Costs) -> Alpha
    requires { (k < n) × (n ≤ 512) × (5 * n ≤ length f.now) × (n ≤ length y.now) }
    ensures { result ≡ alpha_of y.now (ceilings_of costs.pos costs.neg) (read_in nu n f.now) k }
{
    Alpha::from(f[n + k], costs.of(y[k] == 1))
}

// Where the copy for seconds of label t begins.
pub fn up_field(nu: bool, n: usize, t: bool) -> usize
    requires { n ≤ 512 }
    ensures { (result ≡ up_field nu n t) × (result ≤ 4 * n) }
{
    if nu & !t { 4 * n } else { 0 }
}

// F of sample k, from a copy that is open.
pub fn own(f: &[f64], y: &[u8], nu: bool, n: usize, k: usize, costs: Costs) -> f64
    requires { (k < n) × (n ≤ 512) × (5 * n ≤ length f.now) × (n ≤ length y.now) }
    ensures { result ≡ own_of y.now (ceilings_of costs.pos costs.neg) (read_in nu n f.now) k }
{
    let pos = y[k] == 1;
    let w = alpha_in(f, y, nu, n, k, costs);
    if partner::may_rise(pos, w) {
        return f[up_field(nu, n, pos) + k];
    }
    f[3 * n + k]
}

// The gradient of sample k.
pub fn slope(f: &[f64], y: &[u8], g: Given, k: usize, costs: Costs) -> f64
    requires { (k < g.n) × (g.n ≤ 512) × (5 * g.n ≤ length f.now) × (g.n ≤ length y.now) }
    ensures { result ≡ plain (signed_of (eqb (get_or y.now k 0) 1) (own_of y.now (ceilings_of costs.pos costs.neg) (read_in g.nu g.n f.now) k)) }
{
    let v = own(f, y, g.nu, g.n, k, costs);
    plain_of(kernel::signed(y[k] == 1, v))
}

// The two new weights of a step on samples i and j.
fn pair_for(f: &[f64], y: &[u8], m: &[u8], g: Given, i: usize, j: usize, costs: Costs) -> Pair
    requires { (SheetReady g m.now y.now f.now) × (i < g.n) × (j < g.n) }
    ensures { result ≡ pair_for g m.now y.now (ceilings_of costs.pos costs.neg) (read_in g.nu g.n f.now) i j }
{
    let side = g.side;
    let wi = alpha_in(f, y, g.nu, g.n, i, costs);
    let wj = alpha_in(f, y, g.nu, g.n, j, costs);
    let gi = slope(f, y, g, i, costs);
    let gj = slope(f, y, g, j, costs);
    let di = kernel::entry(m, side, i, i);
    let dj = kernel::entry(m, side, j, j);
    let agree = (y[i] == 1) == (y[j] == 1);
    let r = kernel::signed(agree, kernel::entry(m, side, i, j));
    update::clipped_pair(wi, wj, gi, gj, di, dj, r, agree, g.floor)
}

// The signed change of sample k's weight where it becomes x.
fn change_of(f: &[f64], y: &[u8], n: usize, k: usize, x: f64) -> f64
    requires { (k < n) × (n ≤ 512) × (2 * n ≤ length f.now) × (n ≤ length y.now) }
    ensures { result ≡ signed_of (eqb (get_or y.now k 0) 1) (sub binary64 x (get_or f.now (n + k) nan)) }
{
    kernel::signed(y[k] == 1, x - f[n + k])
}

// Sample k takes the value x; its F is v.
pub fn place(f: &mut [f64], y: &[u8], nu: bool, n: usize, k: usize, x: f64, v: f64, costs: Costs)
    requires { (k < n) × (n ≤ 512) × (5 * n ≤ length f.old) × (n ≤ length y.now) }
    ensures { f.new ≡ put_in nu n f.old k (eqb (get_or y.now k 0) 1)
        (weight x (ceilings_of costs.pos costs.neg (eqb (get_or y.now k 0) 1))) v }
{
    let pos = y[k] == 1;
    put(f, nu, n, k, pos, Alpha::from(x, costs.of(pos)), v);
}

// One step on samples i and j.
pub fn step(f: &mut [f64], y: &[u8], m: &[u8], g: Given, i: usize, j: usize, costs: Costs)
    requires { (SheetReady g m.now y.now f.old) × (i < g.n) × (j < g.n) }
    ensures { f.new ≡ steps g m.now y.now (ceilings_of costs.pos costs.neg) f.old i j }
{
    let nu = g.nu;
    let n = g.n;
    let q = pair_for(f, y, m, g, i, j, costs);
    let x = change_of(f, y, n, i, q.i.value);
    let z = change_of(f, y, n, j, q.j.value);
    let vi = own(f, y, nu, n, i, costs);
    let vj = own(f, y, nu, n, j, costs);
    place(f, y, nu, n, i, q.i.value, vi, costs);
    place(f, y, nu, n, j, q.j.value, vj, costs);
    shift(f, m, g.side, nu, n, i, j, x, z);
}
