// The pair finder: what a step leaves of two weights, for who replays a single one.
#![tactic(auto)]

ghost use Rattle.std.specs.Prelude.{◌≡◌, ◌≤◌, length};
ghost use Rattle.std.specs.Float.{binary64};
ghost use Rattle.std.specs.Float.Ieee.{of_bits};
ghost use Rattle.alpha.specs.Weight.{weight};
ghost use Rattle.finder.specs.Found.{found_pair, with_pair};

use alpha::Alpha;
use update::Pair;

// di and dj are the diagonals, r is the entry of row i at j. It clips by the ceilings of the records and refuses nothing.
pub fn find_pair(
    wi: Alpha,
    wj: Alpha,
    gi: f64,
    gj: f64,
    di: f64,
    dj: f64,
    r: f64,
    agree: bool,
) -> Pair
    ensures { result ≡ found_pair wi wj gi gj di dj r agree }
{
    update::clipped_pair(wi, wj, gi, gj, di, dj, r, agree, Alpha::curvature_floor())
}

// A weight and its ceiling, each from its eight bytes.
pub fn record_of(value: u64, upper: u64) -> Alpha
    ensures { result ≡ weight (of_bits binary64 value) (of_bits binary64 upper) }
{
    Alpha::from(wire::float_of(value), wire::float_of(upper))
}

// The two weights, in sixteen bytes.
pub fn put_pair(out: &mut [u8], p: Pair)
    requires { 16 ≤ length out.old }
    ensures { out.new ≡ with_pair out.old p }
{
    wire::put_float(out, 0, p.i.value);
    wire::put_float(out, 8, p.j.value);
}
