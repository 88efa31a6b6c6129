// One weight and its ceiling.
#![tactic(auto)]

ghost use Rattle.std.specs.Prelude.{◌≡◌};
ghost use Rattle.alpha.specs.Weight.{floor, limit, weight, at_upper, at_lower, is_free, clip};

#[derive(Clone, Copy, Debug, PartialEq)]
pub struct Alpha {
    pub value: f64,
    pub upper: f64,
}

impl Alpha {
    // What stands for a curvature that isn't above 0.
    pub const CURVATURE_FLOOR: f64 = 1e-10;

    // 2^1000: no kernel entry is larger in magnitude, and no ceiling.
    pub const KERNEL_LIMIT: f64 = 1.0715086071862673e301;

    pub fn from(value: f64, upper: f64) -> Self
        ensures { result ≡ weight value upper }
    {
        Self { value, upper }
    }

    pub fn reached_upper(self) -> bool
        ensures { result ≡ at_upper self }
    {
        self.value >= self.upper
    }

    pub fn reached_lower(self) -> bool
        ensures { result ≡ at_lower self }
    {
        self.value == 0.0
    }

    pub fn free_floating(self) -> bool
        ensures { result ≡ is_free self }
    {
        self.value < self.upper && self.value > 0.0
    }

    // The record with its value brought into 0..ceiling.
    pub fn clipped(self) -> Self
        ensures { result ≡ clip self }
    {
        if self.value > self.upper {
            Self::from(self.upper, self.upper)
        } else if self.value < 0.0 {
            Self::from(0.0, self.upper)
        } else {
            self
        }
    }

    pub fn curvature_floor() -> f64
        ensures { result ≡ floor }
    {
        Self::CURVATURE_FLOOR
    }

    pub fn kernel_limit() -> f64
        ensures { result ≡ limit }
    {
        Self::KERNEL_LIMIT
    }
}
