// A multiple of a row, added to part of a field.
#![tactic(auto)]

ghost use Rattle.std.specs.Prelude.{◌≡◌, ◌+◌, ◌*◌, ◌≤◌, ◌<◌, length};
ghost use Rattle.state.specs.Lists.{given, state, Ready};
ghost use Rattle.rows.specs.Added.{row_added};

use kernel::Problem;

// x times row i, added at count positions from lo on of the field that begins at base.
#[tactic(auto, unfolding(crate::specs::Added::row_added, kernel::specs::Row::row_at))]
pub fn add_row(
    f: &mut [f64],
    u: &[u64],
    y: &[u8],
    p: Problem<'_>,
    base: usize,
    x: f64,
    i: usize,
    lo: usize,
    count: usize,
)
    requires { (Ready (given p) (state f.old u.now y.now)) × (i < p.n) × (lo + count ≤ p.n) × (base ≤ 4 * p.n) }
    ensures { f.new ≡ row_added (given p.entry) (state f.old u.now y.now) base x i lo count }
{
    let c = p.index_at(u, i);
    let a = y[i];
    for k in 0..count {
        let at = base + (lo + k);
        f[at] += x * p.reach(u, y, c, a, lo + k);
    }
}

// x times row i, added to the gradient, then z times row i, added to the fixed gradient: each entry is read once for both.
#[tactic(auto, unfolding(crate::specs::Added::row_added))]
pub fn add_row_to_both(f: &mut [f64], u: &[u64], y: &[u8], p: Problem<'_>, x: f64, z: f64, i: usize)
    requires { (Ready (given p) (state f.old u.now y.now)) × (i < p.n) }
    ensures { f.new ≡ row_added (given p.entry)
        (state (row_added (given p.entry) (state f.old u.now y.now) 0 x i 0 p.entry.n) u.now y.now) p.entry.n z i 0 p.entry.n }
{
    let c = p.index_at(u, i);
    let a = y[i];
    for k in 0..p.n {
        let r = p.reach(u, y, c, a, k);
        f[k] += x * r;
        f[p.n + k] += z * r;
    }
}
