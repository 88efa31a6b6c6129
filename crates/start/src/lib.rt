// The gradients before the first pass.
#![tactic(auto)]

ghost use Rattle.std.specs.Prelude.{◌≡◌, ◌+◌, ◌*◌, ◌≤◌, ◌<◌, length};
ghost use Rattle.kernel.specs.Matrix.{Matrix};
ghost use Rattle.state.specs.Lists.{given, state, Ready};
ghost use Rattle.start.specs.Start.{laid_to, diagonal_to, joined, gathered_to, started};

use kernel::Problem;

// Each gradient is the linear term, and each fixed gradient +0.
#[tactic(auto, unfolding(crate::specs::Start::laid_to))]
fn laid(f: &mut [f64], n: usize)
    requires { (n ≤ 512) × (7 * n ≤ length f.old) }
    ensures { f.new ≡ laid_to n f.old n }
{
    for k in 0..n {
        f[k] = f[4 * n + k];
        f[n + k] = 0.0;
    }
}

// The diagonal of the matrix into its field.
#[tactic(auto, unfolding(crate::specs::Start::diagonal_to))]
fn diagonals(f: &mut [f64], p: Problem<'_>)
    requires { (Matrix p.side p.matrix.now) × (p.side ≤ p.n) × (p.n ≤ 512) × (7 * p.n ≤ length f.old) }
    ensures { f.new ≡ diagonal_to p.entry.n p.entry.side p.entry.matrix.now f.old p.entry.side }
{
    for c in 0..p.side {
        f[5 * p.n + c] = p.entry(c, c);
    }
}

// What position i brings to the gradients.
#[tactic(auto, unfolding(crate::specs::Start::joined_by))]
fn join(f: &mut [f64], u: &[u64], y: &[u8], p: Problem<'_>, b: &[f64], i: usize)
    requires { (Ready (given p) (state f.old u.now y.now)) × (p.n ≤ length b.now) × (i < p.n) }
    ensures { f.new ≡ joined (given p.entry) b.now (state f.old u.now y.now) i }
{
    let w = state::alpha_at(f, p.n, i);
    if w.reached_lower() {
        return;
    }
    if w.reached_upper() {
        rows::add_row_to_both(f, u, y, p, w.value, b[i], i);
        return;
    }
    rows::add_row(f, u, y, p, 0, w.value, i, 0, p.n);
}

#[tactic(auto, unfolding(crate::specs::Start::gathered_to))]
fn gather(f: &mut [f64], u: &[u64], y: &[u8], p: Problem<'_>, b: &[f64])
    requires { (Ready (given p) (state f.old u.now y.now)) × (p.n ≤ length b.now) }
    ensures { f.new ≡ gathered_to (given p.entry) b.now (state f.old u.now y.now) p.entry.n }
{
    for i in 0..p.n {
        join(f, u, y, p, b, i);
    }
}

// From weights, ceilings, linear terms, kernel indices and labels to the gradients; b has the ceilings by place.
#[tactic(auto, unfolding(crate::specs::Start::started))]
pub fn start(f: &mut [f64], u: &[u64], y: &[u8], p: Problem<'_>, b: &[f64])
    requires { (Ready (given p) (state f.old u.now y.now)) × (p.n ≤ length b.now) }
    ensures { f.new ≡ started (given p.entry) b.now (state f.old u.now y.now) }
{
    laid(f, p.n);
    diagonals(f, p);
    gather(f, u, y, p, b);
}
