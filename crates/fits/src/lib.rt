// What each fit starts from, and the lent scratch loaded with it.
#![tactic(auto)]

ghost use Rattle.std.specs.Prelude.{◌≡◌, Bool, ℕ, ◌+◌, ◌*◌, ◌≤◌, ◌<◌, eqb, length};
ghost use Rattle.floats.specs.Helpers.{whole_product};
ghost use Rattle.state.specs.Lists.{State, state};
ghost use Rattle.fits.specs.Load.{loaded_floats, loaded_numbers, loaded_labels, loaded};
ghost use Rattle.fits.specs.Starts.{cost_of, costs_to, given_from, rest_after, half, rest_to, shared_to, one_class_at, one_class_to};

// What is left to give to each label.
#[derive(Clone, Copy)]
pub struct Rest {
    pub pos: f64,
    pub neg: f64,
}

fn load_floats(f: &mut [f64], c: &[f64], a: &[f64], p: &[f64], n: usize)
    requires { (n ≤ 512) × (7 * n ≤ length f.old) × (n ≤ length c.now) × (n ≤ length a.now) × (n ≤ length p.now) }
    ensures { f.new ≡ loaded_floats n c.now a.now p.now f.old n }
{
    for k in 0..n {
        f[2 * n + k] = a[k];
        f[3 * n + k] = c[k];
        f[4 * n + k] = p[k];
    }
}

pub fn load_numbers(u: &mut [u64], n: usize)
    requires { (n ≤ 512) × (2 * n ≤ length u.old) }
    ensures { u.new ≡ loaded_numbers n u.old n }
{
    for k in 0..n {
        u[k] = k as u64;
        u[n + k] = k as u64;
    }
}

pub fn load_labels(y: &mut [u8], l: &[u8], n: usize)
    requires { (n ≤ length y.old) × (n ≤ length l.now) }
    ensures { y.new ≡ loaded_labels l.now y.old n }
{
    for k in 0..n {
        y[k] = l[k];
    }
}

// Labels l, ceilings c, start weights a and linear terms p; every sample at its own place.
pub fn load(
    f: &mut [f64],
    u: &mut [u64],
    y: &mut [u8],
    l: &[u8],
    c: &[f64],
    a: &[f64],
    p: &[f64],
    n: usize,
)
    requires { (n ≤ 512) × (7 * n ≤ length f.old) × (2 * n ≤ length u.old) × (n ≤ length y.old) × (n ≤ length l.now) × (n ≤ length c.now) × (n ≤ length a.now) × (n ≤ length p.now) }
    ensures { ◌≡◌ {A = State} (state f.new u.new y.new)
        (loaded n l.now c.now a.now p.now (state f.old u.old y.old)) }
{
    load_floats(f, c, a, p, n);
    load_numbers(u, n);
    load_labels(y, l, n);
}

fn cost(cpos: f64, cneg: f64, label: u8) -> f64
    ensures { result ≡ cost_of cpos cneg label }
{
    if label == 1 { cpos } else { cneg }
}

pub fn ceilings_c(d: &mut [f64], l: &[u8], cpos: f64, cneg: f64, n: usize)
    requires { (n ≤ length d.old) × (n ≤ length l.now) }
    ensures { d.new ≡ costs_to cpos cneg l.now d.old n }
{
    for k in 0..n {
        d[k] = cost(cpos, cneg, l[k]);
    }
}

fn give(r: Rest, positive: bool) -> f64
    ensures { result ≡ given_from r positive }
{
    if positive {
        floats::min(1.0, r.pos)
    } else {
        floats::min(1.0, r.neg)
    }
}

fn leave(r: Rest, positive: bool) -> Rest
    ensures { result ≡ rest_after r positive }
{
    let v = give(r, positive);
    if positive {
        return Rest {
            pos: r.pos - v,
            neg: r.neg,
        };
    }
    Rest {
        pos: r.pos,
        neg: r.neg - v,
    }
}

pub fn alphas_nu(d: &mut [f64], l: &[u8], nu: f64, n: usize)
    requires { (n ≤ 512) × (n ≤ length d.old) × (n ≤ length l.now) }
    ensures { d.new ≡ shared_to (half nu n) l.now d.old n }
{
    let sum = nu * floats::whole_as_float(n) / 2.0;
    let mut r = Rest { pos: sum, neg: sum };
    for k in 0..n {
        let positive = l[k] == 1;
        d[k] = give(r, positive);
        r = leave(r, positive);
    }
}

fn one_class_alpha(nu: f64, n: usize, k: usize) -> f64
    requires { (n ≤ 512) × (k ≤ 512) }
    ensures { result ≡ one_class_at nu n k }
{
    let whole = floats::whole_product(nu, n);
    let place = k as u64;
    if place < whole {
        return 1.0;
    }
    if place == whole {
        return nu * floats::whole_as_float(n) - floats::whole_as_float(k);
    }
    0.0
}

pub fn alphas_one_class(d: &mut [f64], nu: f64, n: usize)
    requires { (n ≤ 512) × (n ≤ length d.old) }
    ensures { d.new ≡ one_class_to nu n d.old n }
{
    for k in 0..n {
        d[k] = one_class_alpha(nu, n, k);
    }
}
