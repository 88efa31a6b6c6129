// The pair choice of a training without an order table: the least by lanes, and the second behind a bar.
// The parameters f and y are the lent floats and labels: orderless/specs/Sheet.antt.
#![tactic(auto)]

ghost use Rattle.std.specs.Prelude.{true, false, not, cond, ◌≡◌, ◌+◌, ◌-◌, ◌*◌, ◌≤◌, ◌<◌, length, get_or};
ghost use Rattle.std.specs.Float.{binary64, inf, nan};
ghost use Rattle.std.specs.Float.Ieee.{sub, lt};
ghost use Rattle.alpha.specs.Weight as Weight;
ghost use Rattle.extreme.specs.Best.{at_least, above, at_most, best};
ghost use Rattle.extreme.specs.Racing.{below, found_in, race_of};
ghost use Rattle.floats.specs.Helpers.{max_of};
ghost use Rattle.orderless.specs.Choice as Sheets;
ghost use Rattle.orderless.specs.Sheet.{read_in, sought};
ghost use Rattle.partner.specs.Second.{place_of, paired as paired_of};
ghost use Rattle.kernel.specs.Matrix.{Matrix};
ghost use Rattle.picks.specs.Follow.{deepest, first_of, by_label, raced_by, raced_from, bar_of, reaches_of, stirred_to};
ghost use Rattle.sheet.specs.Ready.{SheetReady, Diagonal, Fitting};

use extreme::Race;
use solver::Given;

// No closure in its place: the contract speaks of nu.
fn more(nu: bool, b: f64, v: f64) -> bool
    ensures { result ≡ cond nu above at_least b v }
{
    if nu { v > b } else { v >= b }
}

// Whether a sample of label pos is sought where label t is asked.
fn seeks(nu: bool, t: bool, pos: bool) -> bool
    ensures { result ≡ sought nu t pos }
{
    if nu { t == pos } else { true }
}

// The greatest F that may fall, of what is sought for label t.
fn highest(f: &[f64], y: &[u8], n: usize, nu: bool, t: bool) -> f64
    requires { (n ≤ 512) × (4 * n ≤ length f.now) × (n ≤ length y.now) }
    ensures { result ≡ deepest nu n y.now f.now t }
{
    let mut b = -1.0 / 0.0;
    // By k: two lists are read at it.
    for k in 0..n {
        let v = f[3 * n + k];
        let pos = y[k] == 1;
        b = extreme::either(seeks(nu, t, pos) & more(nu, b, v), v, b);
    }
    b
}

// The greatest of the other label, which without the nu rule is the same.
fn highest_other(f: &[f64], y: &[u8], n: usize, nu: bool, h: f64) -> f64
    requires { (n ≤ 512) × (4 * n ≤ length f.now) × (n ≤ length y.now) × (h ≡ deepest nu n y.now f.now true) }
    ensures { result ≡ deepest nu n y.now f.now false }
{
    if nu {
        return highest(f, y, n, nu, false);
    }
    h
}

// Whether no label's copies lie eps apart; p and q are the least of the two labels.
fn stop(f: &[f64], y: &[u8], n: usize, nu: bool, eps: f64, p: f64, q: f64) -> bool
    requires { (n ≤ 512) × (4 * n ≤ length f.now) × (n ≤ length y.now) }
    ensures { result ≡ lt (max_of (sub binary64 (deepest nu n y.now f.now true) p)
        (sub binary64 (deepest nu n y.now f.now false) q)) eps }
{
    let a = highest(f, y, n, nu, true);
    let b = highest_other(f, y, n, nu, a);
    floats::max(a - p, b - q) < eps
}

// What the loop over the second asks of a first.
#[derive(Clone, Copy)]
struct First {
    value: f64,
    at: usize,
    diagonal: f64,
}

// A place of n stands for nobody, and sample 0 for it.
fn sample(n: usize, at: usize) -> usize
    requires { 1 ≤ n }
    ensures { (result ≡ place_of (found_in n at)) × (result < n) }
{
    if at < n { at } else { 0 }
}

fn first_of(f: &[f64], n: usize, r: Race) -> First
    requires { (1 ≤ n) × (n ≤ 512) × (4 * n ≤ length f.now) }
    ensures { (result ≡ record { value = r.value; at = place_of (found_in n r.at); diagonal = get_or f.now (2 * n + place_of (found_in n r.at)) nan }) × (result.at < n) }
{
    let at = sample(n, r.at);
    First {
        value: r.value,
        at,
        diagonal: f[2 * n + at],
    }
}

// Sample j raced after the first l.
fn raced(f: &[f64], m: &[u8], g: Given, l: First, j: usize, r: Race) -> Race
    requires { (Matrix g.side m.now) × (g.side ≡ g.n) × (5 * g.n ≤ length f.now) × (Diagonal g m.now f.now) × (j < g.n) × (l.at < g.n) }
    ensures { result ≡ raced_by g m.now l (get_or f.now (3 * g.n + j) nan) j r }
{
    let n = g.n;
    let d = f[3 * n + j] - l.value;
    if d > 0.0 {
        let e = kernel::entry(m, g.side, l.at, j);
        let v = partner::gain_of(
            d,
            partner::curvature_of(g.floor, l.diagonal, f[2 * n + j], e, true),
        );
        extreme::taken(r, v <= r.value, j, v)
    } else {
        r
    }
}

// The samples from t up to e, each raced after the first of its label.
fn raced_to(
    f: &[f64],
    y: &[u8],
    m: &[u8],
    g: Given,
    p: First,
    q: First,
    t: usize,
    e: usize,
    was: Race,
) -> Race
    requires { (SheetReady g m.now y.now f.now) × (Diagonal g m.now f.now) × (t ≤ e) × (e ≤ g.n) × (p.at < g.n) × (q.at < g.n) }
    ensures { result ≡ raced_from g m.now f.now (by_label y.now p q) was t (e - t) }
{
    let mut r = was;
    // By j: it is the sample.
    for j in t..e {
        r = raced(f, m, g, extreme::either(y[j] == 1, p, q), j, r);
    }
    r
}

// Eight of them after one first.
fn raced_eight(f: &[f64], m: &[u8], g: Given, l: First, t: usize, was: Race) -> Race
    requires { (Matrix g.side m.now) × (g.side ≡ g.n) × (5 * g.n ≤ length f.now) × (Diagonal g m.now f.now) × (t + 8 ≤ g.n) × (l.at < g.n) }
    ensures { result ≡ raced_from g m.now f.now (λ j. l) was t 8 }
{
    let mut r = was;
    // By k: t + k is the sample.
    for k in 0..8 {
        r = raced(f, m, g, l, t + k, r);
    }
    r
}

// Below what the second so far gains, or 0: who stays below the bar isn't taken.
fn bar_of(gain: f64) -> f64
    ensures { result ≡ bar_of gain }
{
    let x = gain * -0.999_999_999;
    if (x > 0.0) & (x < -gain) { x } else { 0.0 }
}

// Whether a sample may reach the bar: its copy is x, its diagonal b, and e its entry with the first, of value v and diagonal a.
fn reaches(x: f64, v: f64, a: f64, b: f64, e: f64, bar: f64) -> bool
    ensures { result ≡ reaches_of x v a b e bar }
{
    let d = x - v;
    let q = kernel::quad_coef(true, a, b, e);
    (d > 0.0) & !(q * bar > d * d)
}

// Whether one of eight may, after the first l. The compiler packs these.
fn stirs(f: &[f64], m: &[u8], g: Given, l: First, t: usize, bar: f64) -> bool
    requires { (Matrix g.side m.now) × (g.side ≡ g.n) × (5 * g.n ≤ length f.now) × (Diagonal g m.now f.now) × (t + 8 ≤ g.n) × (l.at < g.n) }
    ensures { result ≡ stirred_to g m.now f.now (λ j. l) bar t 8 }
{
    let n = g.n;
    let mut any = false;
    // No `any`: it would stop at the first, and eight couldn't be packed.
    for k in 0..8 {
        let j = t + k;
        let e = kernel::entry(m, g.side, l.at, j);
        any = any | reaches(f[3 * n + j], l.value, l.diagonal, f[2 * n + j], e, bar);
    }
    any
}

// .. each after the first of its label: both are asked, and the label says which counts.
fn stirs_by_label(
    f: &[f64],
    y: &[u8],
    m: &[u8],
    g: Given,
    p: First,
    q: First,
    t: usize,
    bar: f64,
) -> bool
    requires { (SheetReady g m.now y.now f.now) × (Diagonal g m.now f.now) × (t + 8 ≤ g.n) × (p.at < g.n) × (q.at < g.n) }
    ensures { result ≡ stirred_to g m.now f.now (by_label y.now p q) bar t 8 }
{
    let n = g.n;
    let mut any = false;
    // As above.
    for k in 0..8 {
        let j = t + k;
        let x = f[3 * n + j];
        let b = f[2 * n + j];
        let e = kernel::entry(m, g.side, p.at, j);
        let c = kernel::entry(m, g.side, q.at, j);
        let u = reaches(x, p.value, p.diagonal, b, e, bar);
        let w = reaches(x, q.value, q.diagonal, b, c, bar);
        any = any | extreme::either(y[j] == 1, u, w);
    }
    any
}

// By the rule that holds: without the nu rule both labels have the first p.
fn stirred(f: &[f64], y: &[u8], m: &[u8], g: Given, p: First, q: First, t: usize, bar: f64) -> bool
    requires { (SheetReady g m.now y.now f.now) × (Diagonal g m.now f.now) × (t + 8 ≤ g.n) × (p.at < g.n) × (q.at < g.n) × (g.nu ≡ false → p ≡ q) }
    ensures { result ≡ stirred_to g m.now f.now (by_label y.now p q) bar t 8 }
{
    if g.nu {
        return stirs_by_label(f, y, m, g, p, q, t, bar);
    }
    stirs(f, m, g, p, t, bar)
}

fn eight(f: &[f64], y: &[u8], m: &[u8], g: Given, p: First, q: First, t: usize, r: Race) -> Race
    requires { (SheetReady g m.now y.now f.now) × (Diagonal g m.now f.now) × (t + 8 ≤ g.n) × (p.at < g.n) × (q.at < g.n) × (g.nu ≡ false → p ≡ q) }
    ensures { result ≡ raced_from g m.now f.now (by_label y.now p q) r t 8 }
{
    if g.nu {
        return raced_to(f, y, m, g, p, q, t, t + 8, r);
    }
    raced_eight(f, m, g, p, t, r)
}

// The second, as a place: n stands for nobody. p and q are the firsts of the two labels.
fn partner(f: &[f64], y: &[u8], m: &[u8], g: Given, p: First, q: First) -> usize
    requires { (SheetReady g m.now y.now f.now) × (Diagonal g m.now f.now) × (p.at < g.n) × (q.at < g.n)
        × (p ≡ first_of g m.now (Sheets.lowest g m.now y.now (read_in g.nu g.n f.now) true))
        × (q ≡ first_of g m.now (Sheets.lowest g m.now y.now (read_in g.nu g.n f.now) false)) }
    ensures { result ≡ (race_of g.n (Sheets.partner g m.now y.now (read_in g.nu g.n f.now))).at }
{
    let n = g.n;
    let mut r = Race {
        value: 1.0 / 0.0,
        at: n,
    };
    let mut bar = bar_of(r.value);
    for block in 0..n / 8 {
        let t = 8 * block;
        if stirred(f, y, m, g, p, q, t, bar) {
            r = eight(f, y, m, g, p, q, t, r);
            bar = bar_of(r.value);
        }
    }
    raced_to(f, y, m, g, p, q, 8 * (n / 8), n, r).at
}

// The pair of i and j, where i is a sample.
fn paired(n: usize, i: usize, j: usize) -> Option<(usize, usize)>
    ensures { result ≡ paired_of (found_in n i) j }
{
    if i < n {
        return Some((i, j));
    }
    None
}

// The least of the other label, which without the nu rule is the same.
fn other(f: &[f64], n: usize, nu: bool, p: Race) -> Race
    requires { (n ≤ 512) × (5 * n ≤ length f.now)
        × (p ≡ race_of n (best (cond nu below at_most) (inf false) (λ k. true) ((read_in nu n f.now).up true) n)) }
    ensures { result ≡ race_of n (best (cond nu below at_most) (inf false) (λ k. true) ((read_in nu n f.now).up false) n) }
{
    if nu {
        return lanes::lowest(f, 4 * n, n, nu);
    }
    p
}

// Whether the rule goes on, where j is the second: a gap that reaches eps says so by itself. p and q are the least of the two labels.
fn goes(f: &[f64], y: &[u8], m: &[u8], g: Given, p: f64, q: f64, j: usize) -> bool
    requires { (SheetReady g m.now y.now f.now) × (Fitting g f.now) × (j < g.n)
        × (p ≡ (Sheets.lowest g m.now y.now (read_in g.nu g.n f.now) true).value)
        × (q ≡ (Sheets.lowest g m.now y.now (read_in g.nu g.n f.now) false).value)
        × (lt Weight.zero (Sheets.rising g m.now y.now (read_in g.nu g.n f.now) j) ≡ true) }
    ensures { result ≡ not (Sheets.stops g m.now y.now (read_in g.nu g.n f.now)) }
{
    let n = g.n;
    let v = extreme::either(y[j] == 1, p, q);
    if f[3 * n + j] - v >= g.eps {
        return true;
    }
    !stop(f, y, n, g.nu, g.eps, p, q)
}

// The pair to work on, or that there is none.
pub fn choice(f: &[f64], y: &[u8], m: &[u8], g: Given) -> Option<(usize, usize)>
    requires { (SheetReady g m.now y.now f.now) × (Diagonal g m.now f.now) × (Fitting g f.now) × (1 ≤ g.n) }
    ensures { result ≡ Sheets.choice_in g m.now y.now (read_in g.nu g.n f.now) }
{
    let n = g.n;
    let p = lanes::lowest(f, 0, n, g.nu);
    let q = other(f, n, g.nu, p);
    let j = partner(f, y, m, g, first_of(f, n, p), first_of(f, n, q));
    if j < n {
        if goes(f, y, m, g, p.value, q.value, j) {
            return paired(n, extreme::either(y[j] == 1, p.at, q.at), j);
        }
    }
    None
}
