// Shrinking: which positions are to be dropped, and the walk that drops them.
#![tactic(auto)]

ghost use Rattle.std.specs.Prelude.{false, ◌≡◌, IfSome, ◌+◌, ◌*◌, ◌≤◌, ◌<◌, length};
ghost use Rattle.state.specs.Lists.{State, state};
ghost use Rattle.state.specs.Moving.{moved};
ghost use Rattle.shrink.specs.Walk.{Walking, walking, walking_by, count_fallen, exchanged, visited};
ghost use Rattle.shrink.specs.Drops.{limits_c, limits_nu, upper_drops, lower_drops, drops_by, drops_at, walked_over};

use alpha::Alpha;

// What a gradient must exceed: at upper and at lower, positive and negative. At lower a negative one is asked for −G
// where it is mirrored. And whether the walk ends at the current count.
#[derive(Clone, Copy, Debug, PartialEq)]
pub struct Limits {
    pub upos: f64,
    pub uneg: f64,
    pub lpos: f64,
    pub lneg: f64,
    pub mirrored: bool,
    pub ends: bool,
}

impl Limits {
    pub fn c(repaired: bool, gmax1: f64, gmax2: f64) -> Self
        ensures { result ≡ limits_c repaired gmax1 gmax2 }
    {
        Self {
            upos: gmax1,
            uneg: gmax2,
            lpos: gmax2,
            lneg: gmax1,
            mirrored: !repaired,
            ends: repaired,
        }
    }

    #[tactic(auto, unfolding(crate::specs::Drops::limits_nu))]
    pub fn nu(repaired: bool, gmax1: f64, gmax2: f64, gmax3: f64, gmax4: f64) -> Self
        ensures { result ≡ limits_nu repaired gmax1 gmax2 gmax3 gmax4 }
    {
        let (lpos, lneg) = if repaired {
            (gmax3, gmax2)
        } else {
            (gmax2, gmax3)
        };
        Self {
            upos: gmax1,
            uneg: gmax4,
            lpos,
            lneg,
            mirrored: false,
            ends: repaired,
        }
    }
}

fn at_upper(l: Limits, positive: bool, g: f64) -> bool
    ensures { result ≡ upper_drops l positive g }
{
    if positive { -g > l.upos } else { -g > l.uneg }
}

fn at_lower(l: Limits, positive: bool, g: f64) -> bool
    ensures { result ≡ lower_drops l positive g }
{
    if positive {
        return g > l.lpos;
    }
    if l.mirrored { -g > l.lneg } else { g > l.lneg }
}

#[tactic(auto, unfolding(crate::specs::Drops::drops_by))]
fn should_shrunk(l: Limits, w: Alpha, positive: bool, g: f64) -> bool
    ensures { result ≡ drops_by l w positive g }
{
    if w.reached_upper() {
        at_upper(l, positive, g)
    } else if w.reached_lower() {
        at_lower(l, positive, g)
    } else {
        false
    }
}

// Whether position k is to be dropped.
#[tactic(auto, unfolding(crate::specs::Drops::drops_at))]
fn drops(f: &[f64], u: &[u64], y: &[u8], n: usize, l: Limits, k: usize) -> bool
    requires { (k < n) × (n ≤ 512) × (7 * n ≤ length f.now) × (n ≤ length y.now) }
    ensures { result ≡ drops_at n l (state f.now u.now y.now) k }
{
    should_shrunk(l, state::alpha_at(f, n, k), y[k] == 1, f[k])
}

// The count falls from start while it is above i and what stands at it is to be dropped.
fn fall(f: &[f64], u: &[u64], y: &[u8], n: usize, l: Limits, i: usize, start: usize) -> usize
    requires { (start < n) × (n ≤ 512) × (7 * n ≤ length f.now) × (n ≤ length y.now) }
    ensures { (result ≡ count_fallen (drops_at n l) (state f.now u.now y.now) i start) × (result ≤ start) }
{
    let mut a = start;
    // No `for`: where nothing holds it, what is left is the lower of start and i.
    while i < a {
        if !drops(f, u, y, n, l, a) {
            return a;
        }
        a -= 1;
    }
    a
}

fn exchange(f: &mut [f64], u: &mut [u64], y: &mut [u8], n: usize, i: usize, a: usize)
    requires { (i < n) × (a < n) × (n ≤ 512) × (7 * n ≤ length f.old) × (2 * n ≤ length u.old) × (n ≤ length y.old) }
    ensures { ◌≡◌ {A = Walking State} (walking a false (state f.new u.new y.new))
        (exchanged (moved n) (state f.old u.old y.old) i a) }
{
    if i < a {
        state::swap(f, u, y, n, i, a);
    }
}

// Position i: the count afterwards, or none where it was to fall below 0.
fn visit(
    f: &mut [f64],
    u: &mut [u64],
    y: &mut [u8],
    n: usize,
    l: Limits,
    i: usize,
    active: usize,
) -> Option<usize>
    requires { (i < n) × (active ≤ n) × (n ≤ 512) × (7 * n ≤ length f.old) × (2 * n ≤ length u.old) × (n ≤ length y.old) }
    ensures { (◌≡◌ {A = Walking State} (walking_by result (state f.new u.new y.new))
        (visited l.ends (drops_at n l) (moved n) i (walking active false (state f.old u.old y.old)))) × (IfSome result (λ a. a ≤ active)) }
{
    if l.ends & (active <= i) {
        return Some(active);
    }
    if !drops(f, u, y, n, l, i) {
        return Some(active);
    }
    if active == 0 {
        return None;
    }
    let a = fall(f, u, y, n, l, i, active - 1);
    exchange(f, u, y, n, i, a);
    Some(a)
}

// The walk from the count start: the count that is left, or none where it was to fall below 0. The range of i is fixed
// when it starts, and past the current count a walk that ends there changes nothing.
pub fn walk_over(
    f: &mut [f64],
    u: &mut [u64],
    y: &mut [u8],
    n: usize,
    l: Limits,
    start: usize,
) -> Option<usize>
    requires { (start ≤ n) × (n ≤ 512) × (7 * n ≤ length f.old) × (2 * n ≤ length u.old) × (n ≤ length y.old) }
    ensures { (◌≡◌ {A = Walking State} (walking_by result (state f.new u.new y.new))
        (walked_over n l start (state f.old u.old y.old))) × (IfSome result (λ a. a ≤ start)) }
{
    let mut active = start;
    // No `fold`: it writes all three lists.
    for i in 0..start {
        active = visit(f, u, y, n, l, i, active)?;
    }
    Some(active)
}
