// The pair choice of the C rule.
// The parameters f, u, y are the lent lists: state/specs/Lists.antt.
#![tactic(auto)]

ghost use Rattle.std.specs.Prelude.{◌≡◌, ◌≤◌};
ghost use Rattle.state.specs.Lists.{given, state, Ready};
ghost use Rattle.choose_c.specs.Choice.{extremes_c, weighed_c, choice_c};
ghost use Rattle.choose_c.specs.Stirred.{stirred_c, laws_c};

use alpha::Alpha;
use extreme::Extreme;
use kernel::Problem;
use partner::Weighing;

#[derive(Clone, Copy)]
pub struct Extremes {
    pub gmax1: Extreme,
    pub gmax2: Extreme,
}

impl Weighing for Extremes {
    ghost among = { extremes_c };

    ghost weigh = { weighed_c };

    ghost stirred_by = { stirred_c };

    ghost laws = { laws_c };

    fn none() -> Extremes {
        let none = extreme::nobody(f64::NEG_INFINITY);
        Extremes {
            gmax1: none,
            gmax2: none,
        }
    }

    fn weighed(self, k: usize, pos: bool, g: f64, w: Alpha) -> Extremes {
        let up = partner::may_rise(pos, w);
        let down = partner::may_fall(pos, w);
        Extremes {
            gmax1: extreme::raised(self.gmax1, up, k, partner::rise_of(pos, g)),
            gmax2: extreme::raised(self.gmax2, down, k, partner::fall_of(pos, g)),
        }
    }

    fn stirs(self, pos: bool, g: f64, w: Alpha) -> bool {
        if pos {
            partner::stirs(g, w, self.gmax1.value, self.gmax2.value)
        } else {
            partner::stirs(g, w, self.gmax2.value, self.gmax1.value)
        }
    }
}

// The pair to work on, or that there is none.
pub fn select_working_set(
    f: &[f64],
    u: &[u64],
    y: &[u8],
    p: Problem<'_>,
    floor: f64,
    eps: f64,
    active: usize,
) -> Option<(usize, usize)>
    requires { (Ready (given p) (state f.now u.now y.now)) × (active ≤ p.n) }
    ensures { result ≡ choice_c (given p.entry)
        (state f.now u.now y.now) floor eps active }
{
    let e: Extremes = partner::max_violating_pair(f, u, y, p, active);
    let stop = e.gmax1.value + e.gmax2.value < eps;
    partner::chosen(f, u, y, p, floor, e.gmax1, e.gmax1, stop, active)
}
