// The three lent lists: what stands at a position, and moving.
#![tactic(auto)]

ghost use Rattle.std.specs.Prelude.{◌≡◌, ◌+◌, ◌*◌, ◌≤◌, ◌<◌, length};
ghost use Rattle.state.specs.Fields.{alpha_in};
ghost use Rattle.state.specs.Lists.{State, state};
ghost use Rattle.state.specs.Moving.{swapped_fields, moved};

use alpha::Alpha;

// The weight of position k with its ceiling.
pub fn alpha_at(f: &[f64], n: usize, k: usize) -> Alpha
    requires { (k < n) × (n ≤ 512) × (7 * n ≤ length f.now) }
    ensures { result ≡ alpha_in n f.now k }
{
    Alpha::from(f[2 * n + k], f[3 * n + k])
}

// Positions i and j in each of the first count fields; d is what the definition reads past the end.
fn swap_fields<T>(xs: &mut [T], n: usize, i: usize, j: usize, count: usize)
    requires { (i < n) × (j < n) × (n ≤ 512) × (count ≤ 7) × (count * n ≤ length xs.old) }
    ensures { (d : T) → xs.new ≡ swapped_fields d n xs.old i j count }
{
    for field in 0..count {
        xs.swap(field * n + i, field * n + j);
    }
}

// Positions i and j exchange all that travels.
pub fn swap(f: &mut [f64], u: &mut [u64], y: &mut [u8], n: usize, i: usize, j: usize)
    requires { (i < n) × (j < n) × (n ≤ 512) × (7 * n ≤ length f.old) × (2 * n ≤ length u.old) × (n ≤ length y.old) }
    ensures { ◌≡◌ {A = State} (state f.new u.new y.new)
        (moved n (state f.old u.old y.old) i j) }
{
    swap_fields(f, n, i, j, 5);
    swap_fields(u, n, i, j, 2);
    y.swap(i, j);
}
