// The least of a list of floats by eight lanes: which sixteen have it first, the place after. Only faster than one loop over the list.
#![tactic(auto)]

ghost use Rattle.std.specs.Prelude.{true, false, cond, ◌≡◌, ◌+◌, ◌-◌, ◌≤◌, length, get_or};
ghost use Rattle.std.specs.Float.{inf, nan};
ghost use Rattle.extreme.specs.Best.{at_most, best};
ghost use Rattle.extreme.specs.Racing.{below, race_of};
ghost use Rattle.lanes.specs.Lanes.{lower_of, least_of, least_from, least_to, sixteen_of, last_in, first_in, seat_in, end_of};

use extreme::Race;

// No closure in its place: the contracts of five functions speak of nu.
fn less(nu: bool, b: f64, v: f64) -> bool
    ensures { result ≡ cond nu below at_most b v }
{
    if nu { v < b } else { v <= b }
}

// x where it is below m; a NaN in x is passed over.
fn lower(x: f64, m: f64) -> f64
    ensures { result ≡ lower_of x m }
{
    if x < m { x } else { m }
}

fn least_of(t: [f64; 8]) -> f64
    ensures { result ≡ least_of (λ k. get_or t k nan) }
{
    let a = lower(t[0], t[4]);
    let b = lower(t[1], t[5]);
    let c = lower(t[2], t[6]);
    let d = lower(t[3], t[7]);
    lower(lower(a, c), lower(b, d))
}

// The least of the sixteen from t on. Each lane begins at infinity, so that none holds a NaN.
fn least_from(f: &[f64], t: usize) -> f64
    requires { (t ≤ 2560) × (t + 16 ≤ length f.now) }
    ensures { result ≡ least_from f.now t }
{
    let mut z = [0.0f64; 8];
    // By k: each lane has two places of the sixteen.
    for k in 0..8 {
        z[k] = lower(f[t + 8 + k], lower(f[t + k], 1.0 / 0.0));
    }
    least_of(z)
}

// What is left over behind the last sixteen.
fn least_to(f: &[f64], t: usize, e: usize) -> f64
    requires { (t ≤ e) × (e ≤ length f.now) }
    ensures { result ≡ least_to f.now t (e - t) }
{
    let mut w = 1.0 / 0.0;
    for &x in &f[t..e] {
        w = lower(x, w);
    }
    w
}

// The least value, and where the sixteen (or the rest) that have it begin: the first of equals with the nu rule, the last without.
fn least(f: &[f64], o: usize, n: usize, nu: bool) -> Race
    requires { (n ≤ 512) × (o ≤ 2048) × (o + n ≤ length f.now) }
    ensures { (result ≡ sixteen_of nu f.now o n) × (result.at ≤ n) }
{
    let mut v = 1.0 / 0.0;
    let mut h: usize = 0;
    for sixteen in 0..n / 16 {
        let t = 16 * sixteen;
        let w = least_from(f, o + t);
        if less(nu, v, w) {
            v = w;
            h = t;
        }
    }
    let t = 16 * (n / 16);
    let w = least_to(f, o + t, o + n);
    if less(nu, v, w) {
        v = w;
        h = t;
    }
    Race { value: v, at: h }
}

// The last of t..e that equals v. By k, and not by `rposition`: no branch on what is found, and t where nothing is.
fn last_in(f: &[f64], t: usize, e: usize, v: f64) -> usize
    requires { (t ≤ e) × (e ≤ length f.now) }
    ensures { result ≡ last_in f.now v t (e - t) }
{
    let mut i = t;
    for k in t..e {
        i = if f[k] == v { k } else { i };
    }
    i
}

// The first.
fn first_in(f: &[f64], t: usize, e: usize, v: f64) -> usize
    requires { (t ≤ e) × (e ≤ length f.now) }
    ensures { result ≡ first_in f.now v t t (e - t) }
{
    let mut i = t;
    for k in (t..e).rev() {
        i = if f[k] == v { k } else { i };
    }
    i
}

fn seat_in(f: &[f64], t: usize, e: usize, v: f64, nu: bool) -> usize
    requires { (t ≤ e) × (e ≤ length f.now) }
    ensures { result ≡ seat_in nu f.now v t (e - t) }
{
    if nu {
        return first_in(f, t, e, v);
    }
    last_in(f, t, e, v)
}

// Where the sixteen from h on end, of n.
fn end_of(h: usize, n: usize) -> usize
    requires { (h ≤ n) × (n ≤ 512) }
    ensures { (result ≡ end_of h n) × (h ≤ result) × (result ≤ n) }
{
    if h + 16 <= n { h + 16 } else { n }
}

// The same as `lowest` by one loop: where nothing is below infinity.
fn plainly(f: &[f64], o: usize, n: usize, nu: bool) -> Race
    requires { (n ≤ 512) × (o ≤ 2048) × (o + n ≤ length f.now) }
    ensures { result ≡ race_of n (best (cond nu below at_most) (inf false) (λ k. true) (λ k. get_or f.now (o + k) nan) n) }
{
    let mut r = Race {
        value: 1.0 / 0.0,
        at: n,
    };
    for (k, &v) in f[o..o + n].iter().enumerate() {
        r = extreme::taken(r, less(nu, r.value, v), k, v);
    }
    r
}

// The least of the n places from o on: the first of equals with the nu rule, the last without.
pub fn lowest(f: &[f64], o: usize, n: usize, nu: bool) -> Race
    requires { (n ≤ 512) × (o ≤ 2048) × (o + n ≤ length f.now) }
    ensures { result ≡ race_of n (best (cond nu below at_most) (inf false) (λ k. true) (λ k. get_or f.now (o + k) nan) n) }
{
    let r = least(f, o, n, nu);
    if r.value < 1.0 / 0.0 {
        let h = r.at;
        let e = end_of(h, n);
        let i = seat_in(f, o + h, o + e, r.value, nu);
        let x = f[i];
        let at = i - o;
        return Race { value: x, at };
    }
    plainly(f, o, n, nu)
}
