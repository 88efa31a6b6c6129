// The threshold rho, and with the nu rule its companion r.
#![tactic(auto)]

ghost use Rattle.std.specs.Prelude.{◌≡◌, ◌+◌, ◌*◌, ◌≤◌, ◌<◌, length};
ghost use Rattle.rho.specs.Rho as Rho;
ghost use Rattle.rho.specs.Rho.{no_share, signed, share_with_c, ub_moved, share_with_nu, joined_nu, share_c, share_nu, middle, rho_c, rho_nu, level_by};

use alpha::Alpha;

// What the positions so far say: how many are free and the sum of their gradients, and the two bounds.
#[derive(Clone, Copy, Debug, PartialEq)]
pub struct Share {
    pub free: usize,
    pub sum: f64,
    pub ub: f64,
    pub lb: f64,
}

#[derive(Clone, Copy, Debug, PartialEq)]
pub struct Level {
    pub rho: f64,
    pub r: f64,
}

impl Share {
    // Before the first position.
    pub fn none() -> Self
        ensures { result ≡ no_share }
    {
        Self {
            free: 0,
            sum: 0.0,
            ub: f64::INFINITY,
            lb: f64::NEG_INFINITY,
        }
    }
}

pub fn sign(positive: bool, g: f64) -> f64
    ensures { result ≡ signed positive g }
{
    if positive { 1.0 * g } else { -1.0 * g }
}

fn freed(s: Share, g: f64) -> Share
    requires { s.free < 512 }
    ensures { result ≡ Rho.freed s g }
{
    Share {
        free: s.free + 1,
        sum: s.sum + g,
        ..s
    }
}

fn lb_raised(s: Share, g: f64) -> Share
    ensures { result ≡ Rho.lb_raised s g }
{
    Share {
        lb: floats::max(s.lb, g),
        ..s
    }
}

fn ub_lowered(s: Share, g: f64) -> Share
    ensures { result ≡ Rho.ub_lowered s g }
{
    Share {
        ub: floats::min(s.ub, g),
        ..s
    }
}

fn ub_raised(s: Share, g: f64) -> Share
    ensures { result ≡ Rho.ub_raised s g }
{
    Share {
        ub: floats::max(s.ub, g),
        ..s
    }
}

// C rule, one position.
#[tactic(auto, unfolding(crate::specs::Rho::share_with_c))]
pub fn weigh(s: Share, positive: bool, w: Alpha, g: f64) -> Share
    requires { s.free < 512 }
    ensures { (result ≡ share_with_c positive w g s) × (result.free ≤ s.free + 1) }
{
    if w.reached_upper() {
        if positive {
            lb_raised(s, g)
        } else {
            ub_lowered(s, g)
        }
    } else if w.reached_lower() {
        if positive {
            ub_lowered(s, g)
        } else {
            lb_raised(s, g)
        }
    } else {
        freed(s, g)
    }
}

// Raised, though it starts at infinity; repaired, lowered.
#[tactic(auto, unfolding(crate::specs::Rho::ub_moved))]
fn ub_moved(repaired: bool, s: Share, g: f64) -> Share
    ensures { result ≡ ub_moved repaired s g }
{
    if repaired {
        ub_lowered(s, g)
    } else {
        ub_raised(s, g)
    }
}

// nu rule, one position of the label.
#[tactic(auto, unfolding(crate::specs::Rho::share_with_nu, crate::specs::Rho::ub_moved))]
fn weigh_nu(repaired: bool, s: Share, w: Alpha, g: f64) -> Share
    requires { s.free < 512 }
    ensures { (result ≡ share_with_nu repaired w g s) × (result.free ≤ s.free + 1) }
{
    if w.reached_upper() {
        lb_raised(s, g)
    } else if w.reached_lower() {
        ub_moved(repaired, s, g)
    } else {
        freed(s, g)
    }
}

#[tactic(auto, unfolding(crate::specs::Rho::share_c))]
fn share_c(f: &[f64], y: &[u8], n: usize, active: usize) -> Share
    requires { (active ≤ n) × (n ≤ 512) × (7 * n ≤ length f.now) × (n ≤ length y.now) }
    ensures { (result ≡ share_c n f.now y.now active) × (result.free ≤ active) }
{
    let mut s = Share::none();
    // By k: four fields of two lists are read at it.
    for k in 0..active {
        let positive = y[k] == 1;
        s = weigh(s, positive, state::alpha_at(f, n, k), sign(positive, f[k]));
    }
    s
}

// A position counts only where it has the label.
#[tactic(auto, unfolding(crate::specs::Rho::joined_nu))]
pub fn join(repaired: bool, s: Share, counts: bool, w: Alpha, g: f64) -> Share
    requires { s.free < 512 }
    ensures { (result ≡ joined_nu repaired counts w g s) × (result.free ≤ s.free + 1) }
{
    if counts {
        weigh_nu(repaired, s, w, g)
    } else {
        s
    }
}

// A loop of its own beside share_c, as the definitions have it: it passes positions over, and takes the gradient without its sign.
#[tactic(auto, unfolding(crate::specs::Rho::share_nu))]
fn share_nu(f: &[f64], y: &[u8], n: usize, active: usize, label: u8, repaired: bool) -> Share
    requires { (active ≤ n) × (n ≤ 512) × (7 * n ≤ length f.now) × (n ≤ length y.now) }
    ensures { (result ≡ share_nu repaired n f.now y.now label active) × (result.free ≤ active) }
{
    let mut s = Share::none();
    // By k, as above.
    for k in 0..active {
        s = join(repaired, s, y[k] == label, state::alpha_at(f, n, k), f[k]);
    }
    s
}

// The mean of the free ones, or the middle of the bounds.
#[tactic(auto, unfolding(crate::specs::Rho::middle))]
pub fn settle(s: Share) -> f64
    requires { s.free ≤ 512 }
    ensures { result ≡ middle s }
{
    let free = s.free;
    if free > 0 {
        s.sum / floats::whole_as_float(free)
    } else {
        (s.ub + s.lb) / 2.0
    }
}

pub fn calculate_rho(f: &[f64], y: &[u8], n: usize, active: usize) -> f64
    requires { (active ≤ n) × (n ≤ 512) × (7 * n ≤ length f.now) × (n ≤ length y.now) }
    ensures { result ≡ rho_c n f.now y.now active }
{
    settle(share_c(f, y, n, active))
}

pub fn calculate_rho_nu(f: &[f64], y: &[u8], n: usize, active: usize, repaired: bool) -> Level
    requires { (active ≤ n) × (n ≤ 512) × (7 * n ≤ length f.now) × (n ≤ length y.now) }
    ensures { result ≡ rho_nu repaired n f.now y.now active }
{
    let a = settle(share_nu(f, y, n, active, 1, repaired));
    let b = settle(share_nu(f, y, n, active, 0, repaired));
    Level {
        rho: (a - b) / 2.0,
        r: (a + b) / 2.0,
    }
}

// By the rule that holds; r is +0 without the nu rule.
#[tactic(auto, unfolding(crate::specs::Rho::level_by))]
pub fn level_by(f: &[f64], y: &[u8], n: usize, active: usize, nu: bool, repaired: bool) -> Level
    requires { (active ≤ n) × (n ≤ 512) × (7 * n ≤ length f.now) × (n ≤ length y.now) }
    ensures { result ≡ level_by nu repaired n f.now y.now active }
{
    if nu {
        calculate_rho_nu(f, y, n, active, repaired)
    } else {
        Level {
            rho: calculate_rho(f, y, n, active),
            r: 0.0,
        }
    }
}
