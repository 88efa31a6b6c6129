// The gradients of inactive positions, computed anew.
#![tactic(auto)]

ghost use Rattle.std.specs.Prelude.{◌≡◌, ◌+◌, ◌-◌, ◌*◌, ◌≤◌, ◌<◌, length};
ghost use Rattle.state.specs.Lists.{given, state, Ready};
ghost use Rattle.reconstruct.specs.Reconstruct.{fresh_to, free_to, brought, gets, weighted_to, outer_at, outer_to, inner_at, inner_to, branched, reconstructed};

use alpha::Alpha;
use kernel::Problem;

// Fixed gradient + linear term, from position a on.
#[tactic(auto, using(crate::proofs::Next::fresh_next), unfolding(crate::specs::Reconstruct::fresh_to))]
fn freshen(f: &mut [f64], n: usize, a: usize)
    requires { (a ≤ n) × (n ≤ 512) × (7 * n ≤ length f.old) }
    ensures { f.new ≡ fresh_to n a f.old (n - a) }
{
    for k in a..n {
        f[k] = f[n + k] + f[4 * n + k];
    }
}

// How many active positions are free.
#[tactic(auto, unfolding(crate::specs::Reconstruct::free_to, crate::specs::Reconstruct::counted))]
fn nfree(f: &[f64], n: usize, active: usize) -> usize
    requires { (active ≤ n) × (n ≤ 512) × (7 * n ≤ length f.now) }
    ensures { (result ≡ free_to n f.now active) × (result ≤ active) }
{
    let mut free = 0;
    for k in 0..active {
        if state::alpha_at(f, n, k).free_floating() {
            free += 1;
        }
    }
    free
}

// One weight w, times r; where the inner one is asked, only if it is free.
#[tactic(auto, unfolding(crate::specs::Reconstruct::brought))]
fn bring(inner: bool, w: Alpha, g: f64, r: f64) -> f64
    ensures { result ≡ brought inner w g r }
{
    if inner & !w.free_floating() {
        g
    } else {
        g + w.value * r
    }
}

// Whether an inactive position with the weight w gets the active ones.
#[tactic(auto, unfolding(crate::specs::Reconstruct::gets))]
fn asked(inner: bool, w: Alpha) -> bool
    ensures { result ≡ gets inner w }
{
    inner | w.free_floating()
}

// g with all active weights, each times row i at its position, added in order.
#[tactic(auto, unfolding(crate::specs::Reconstruct::weighted_to, kernel::specs::Row::row_at))]
fn weighted(
    f: &[f64],
    u: &[u64],
    y: &[u8],
    p: Problem<'_>,
    inner: bool,
    active: usize,
    i: usize,
    start: f64,
) -> f64
    requires { (Ready (given p) (state f.now u.now y.now)) × (active ≤ p.n) × (i < p.n) }
    ensures { result ≡ weighted_to (given p.entry) inner (state f.now u.now y.now) i start active }
{
    let c = p.index_at(u, i);
    let a = y[i];
    let mut g = start;
    for j in 0..active {
        let r = p.reach(u, y, c, a, j);
        g = bring(inner, state::alpha_at(f, p.n, j), g, r);
    }
    g
}

// First branch, one inactive position.
#[tactic(auto, unfolding(crate::specs::Reconstruct::outer_by))]
fn outer(f: &mut [f64], u: &[u64], y: &[u8], p: Problem<'_>, inner: bool, active: usize, i: usize)
    requires { (Ready (given p) (state f.old u.now y.now)) × (active ≤ p.n) × (i < p.n) }
    ensures { f.new ≡ outer_at (given p.entry) inner (state f.old u.now y.now) active i }
{
    let w = state::alpha_at(f, p.n, i);
    if asked(inner, w) {
        f[i] = weighted(f, u, y, p, inner, active, i, f[i]);
    }
}

// Second branch, one active position.
#[tactic(auto, unfolding(crate::specs::Reconstruct::inner_by))]
fn inner(f: &mut [f64], u: &[u64], y: &[u8], p: Problem<'_>, active: usize, i: usize)
    requires { (Ready (given p) (state f.old u.now y.now)) × (active ≤ p.n) × (i < p.n) }
    ensures { f.new ≡ inner_at (given p.entry) (state f.old u.now y.now) active i }
{
    let w = state::alpha_at(f, p.n, i);
    if w.free_floating() {
        rows::add_row(f, u, y, p, 0, w.value, i, active, p.n - active);
    }
}

#[tactic(auto, using(crate::proofs::Next::outer_next), unfolding(crate::specs::Reconstruct::outer_to))]
fn all_outer(f: &mut [f64], u: &[u64], y: &[u8], p: Problem<'_>, inner: bool, active: usize)
    requires { (Ready (given p) (state f.old u.now y.now)) × (active ≤ p.n) }
    ensures { f.new ≡ outer_to (given p.entry) inner active (state f.old u.now y.now) (p.entry.n - active) }
{
    for i in active..p.n {
        outer(f, u, y, p, inner, active, i);
    }
}

#[tactic(auto, unfolding(crate::specs::Reconstruct::inner_to))]
fn all_inner(f: &mut [f64], u: &[u64], y: &[u8], p: Problem<'_>, active: usize)
    requires { (Ready (given p) (state f.old u.now y.now)) × (active ≤ p.n) }
    ensures { f.new ≡ inner_to (given p.entry) active (state f.old u.now y.now) active }
{
    for i in 0..active {
        inner(f, u, y, p, active, i);
    }
}

#[tactic(auto, unfolding(crate::specs::Reconstruct::branched))]
fn branch(f: &mut [f64], u: &[u64], y: &[u8], p: Problem<'_>, inner: bool, active: usize)
    requires { (Ready (given p) (state f.old u.now y.now)) × (active ≤ p.n) }
    ensures { f.new ≡ branched (given p.entry) inner active (state f.old u.now y.now) }
{
    let free = nfree(f, p.n, active);
    if free * p.n > 2 * active * (p.n - active) {
        all_outer(f, u, y, p, inner, active);
    } else {
        all_inner(f, u, y, p, active);
    }
}

// Nothing where all positions are active.
#[tactic(auto, unfolding(crate::specs::Reconstruct::reconstructed))]
pub fn reconstruct_gradient(
    f: &mut [f64],
    u: &[u64],
    y: &[u8],
    p: Problem<'_>,
    inner: bool,
    active: usize,
)
    requires { (Ready (given p) (state f.old u.now y.now)) × (active ≤ p.n) }
    ensures { f.new ≡ reconstructed (given p.entry) inner active (state f.old u.now y.now) }
{
    if active < p.n {
        freshen(f, p.n, active);
        branch(f, u, y, p, inner, active);
    }
}
