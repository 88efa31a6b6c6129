// The pair choice of the nu rule.
// The parameters f, u, y are the lent lists: state/specs/Lists.antt.
#![tactic(auto)]

ghost use Rattle.std.specs.Prelude.{◌≡◌, ◌≤◌};
ghost use Rattle.state.specs.Lists.{given, state, Ready};
ghost use Rattle.choose_nu.specs.Choice.{extremes_nu, weighed_nu, choice_nu};
ghost use Rattle.choose_nu.specs.Stirred.{stirred_nu, laws_nu};

use alpha::Alpha;
use extreme::Extreme;
use kernel::Problem;
use partner::Weighing;

// The largest rise of the positives and of the negatives, and their largest falls.
#[derive(Clone, Copy)]
pub struct Extremes {
    pub gmaxp1: Extreme,
    pub gmaxn1: Extreme,
    pub gmaxp2: Extreme,
    pub gmaxn2: Extreme,
}

impl Weighing for Extremes {
    ghost among = { extremes_nu };

    ghost weigh = { weighed_nu };

    ghost stirred_by = { stirred_nu };

    ghost laws = { laws_nu };

    fn none() -> Extremes {
        let none = extreme::nobody(f64::NEG_INFINITY);
        Extremes {
            gmaxp1: none,
            gmaxn1: none,
            gmaxp2: none,
            gmaxn2: none,
        }
    }

    fn weighed(self, k: usize, pos: bool, g: f64, w: Alpha) -> Extremes {
        let up = partner::may_rise(pos, w);
        let down = partner::may_fall(pos, w);
        let rise = partner::rise_of(pos, g);
        let fall = partner::fall_of(pos, g);
        // the two of its label alone: with all four a call in which every position stirs took up to a third more time
        if pos {
            Extremes {
                gmaxp1: extreme::lifted(self.gmaxp1, up, k, rise),
                gmaxp2: extreme::lifted(self.gmaxp2, down, k, fall),
                ..self
            }
        } else {
            Extremes {
                gmaxn1: extreme::lifted(self.gmaxn1, up, k, rise),
                gmaxn2: extreme::lifted(self.gmaxn2, down, k, fall),
                ..self
            }
        }
    }

    fn stirs(self, pos: bool, g: f64, w: Alpha) -> bool {
        if pos {
            partner::stirs(g, w, self.gmaxp1.value, self.gmaxp2.value)
        } else {
            partner::stirs(g, w, self.gmaxn2.value, self.gmaxn1.value)
        }
    }
}

// The pair to work on, or that there is none.
pub fn select_working_set_nu(
    f: &[f64],
    u: &[u64],
    y: &[u8],
    p: Problem<'_>,
    floor: f64,
    eps: f64,
    active: usize,
) -> Option<(usize, usize)>
    requires { (Ready (given p) (state f.now u.now y.now)) × (active ≤ p.n) }
    ensures { result ≡ choice_nu (given p.entry)
        (state f.now u.now y.now) floor eps active }
{
    let e: Extremes = partner::max_violating_pair(f, u, y, p, active);
    let positive = e.gmaxp1.value + e.gmaxp2.value;
    let negative = e.gmaxn1.value + e.gmaxn2.value;
    let stop = floats::max(positive, negative) < eps;
    partner::chosen(f, u, y, p, floor, e.gmaxp1, e.gmaxn1, stop, active)
}
