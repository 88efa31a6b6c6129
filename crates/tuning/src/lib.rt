// What a caller may set beside a problem: the floor of the curvature, and the mode of the run.
#![tactic(auto)]

ghost use Rattle.std.specs.Prelude.{◌≡◌};
ghost use Rattle.tuning.specs.Tuning.{plain_tuning};

use alpha::Alpha;
use modes::Mode;

// The floor is what stands for a curvature that isn't above 0.
#[derive(Clone, Copy, Debug, PartialEq)]
pub struct Tuning {
    pub floor: f64,
    pub mode: Mode,
}

// Every entry is told these: when a pair is good enough, whether to shrink, and how many passes at most.
#[derive(Clone, Copy, Debug, PartialEq)]
pub struct Settings {
    pub eps: f64,
    pub shrinking: bool,
    pub budget: u64,
}

// The run of the published Rust.
pub fn plain() -> Tuning
    ensures { result ≡ plain_tuning }
{
    Tuning {
        floor: Alpha::curvature_floor(),
        mode: Mode::Crate,
    }
}
