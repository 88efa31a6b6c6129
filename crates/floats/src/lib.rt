// The helpers that the Rust takes from its float type.
#![tactic(auto)]

ghost use Rattle.std.specs.Prelude.{◌≡◌, ◌≤◌};
ghost use Rattle.floats.specs.Helpers.{max_of, min_of, abs_of, whole_as_float, whole_part, whole_product};

// Of equals the first: the library's max and min leave open which of two zeros they give.
pub fn max(x: f64, y: f64) -> f64
    ensures { result ≡ max_of x y }
{
    if x != x {
        y
    } else if x < y {
        y
    } else {
        x
    }
}

pub fn min(x: f64, y: f64) -> f64
    ensures { result ≡ min_of x y }
{
    if x != x {
        y
    } else if x > y {
        y
    } else {
        x
    }
}

#[tactic(auto, using(crate::proofs::Magnitude::cleared, crate::proofs::Magnitude::zero_is))]
pub fn abs(x: f64) -> f64
    ensures { result ≡ abs_of x }
{
    x.abs()
}

// n as a float, exactly.
pub fn whole_as_float(n: usize) -> f64
    requires { n ≤ 512 }
    ensures { result ≡ whole_as_float n }
{
    n as f64
}

pub fn whole_part(x: f64) -> u64
    ensures { result ≡ whole_part x }
{
    std::num::saturating_f64_to_u64(x)
}

// The largest whole number not above nu·n.
pub fn whole_product(nu: f64, n: usize) -> u64
    requires { n ≤ 512 }
    ensures { result ≡ whole_product nu n }
{
    whole_part(nu * whole_as_float(n))
}
