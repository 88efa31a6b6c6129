// The extremes, the second of the pair, and the choice, for both rules.
// The parameters f, u, y are the lent lists: state/specs/Lists.antt.
#![tactic(auto)]

ghost use Rattle.std.specs.Prelude.{ℕ, Bool, Float, IfSome, IfNone, cond, ◌≡◌, ◌+◌, ◌*◌, ◌≤◌, ◌<◌, eqb, length, get_or};
ghost use Rattle.extreme.specs.Best.{Below};
ghost use Rattle.kernel.specs.Row.{Indexed};
ghost use Rattle.alpha.specs.declared.Alpha.{Alpha};
ghost use Rattle.state.specs.Lists.{Problem as Task, State, given, state, Ready};
ghost use Rattle.partner.specs.Sides.{rises_of, falls_of, rise_of, fall_of};
ghost use Rattle.partner.specs.Stirred.{stirred, ExtremesLaws};
ghost use Rattle.partner.specs.Curvature.{curvature, gap_of, gain};
ghost use Rattle.partner.specs.Second.{leads, second, choice};
ghost use Rattle.partner.specs.Lead.{lead_at, curve_of, gain_after, raced_after, raced_to};

use alpha::Alpha;
use extreme::{Extreme, Race};
use kernel::Problem;

pub fn may_rise(pos: bool, w: Alpha) -> bool
    ensures { result ≡ rises_of pos w }
{
    !extreme::either(pos, w.reached_upper(), w.reached_lower())
}

pub fn may_fall(pos: bool, w: Alpha) -> bool
    ensures { result ≡ falls_of pos w }
{
    !extreme::either(pos, w.reached_lower(), w.reached_upper())
}

pub fn rise_of(pos: bool, g: f64) -> f64
    ensures { result ≡ rise_of pos g }
{
    if pos { -g } else { g }
}

pub fn fall_of(pos: bool, g: f64) -> f64
    ensures { result ≡ fall_of pos g }
{
    if pos { g } else { -g }
}

// Whether gradient g stirs an extreme: where the weight may grow, -g is to reach up, and where it may shrink, g is to reach low.
// A weight at lower isn't asked whether it is at upper too.
#[tactic(auto, unfolding(crate::specs::Stirred::stirred))]
pub fn stirs(g: f64, w: Alpha, up: f64, low: f64) -> bool
    ensures { result ≡ stirred g w up low }
{
    if w.reached_lower() {
        return -g >= up;
    }
    (g >= low) | ((-g >= up) & !w.reached_upper())
}

// The extremes that a rule keeps of the positions so far.
pub trait Weighing: Copy {
    // of the first positions
    ghost among: { Task → State → ℕ → Self };

    // with one more position: its place, label, gradient and weight
    ghost weigh: { Self → ℕ → Bool → Float → Alpha → Self };

    // whether a position may change one of them
    ghost stirred_by: { Self → Bool → Float → Alpha → Bool };

    ghost laws: { ExtremesLaws among weigh stirred_by };

    fn none() -> Self
        ensures { (p : Task) (s : State) → result ≡ among p s 0 };

    fn weighed(self, k: usize, pos: bool, g: f64, w: Alpha) -> Self
        ensures { result ≡ weigh self k pos g w };

    fn stirs(self, pos: bool, g: f64, w: Alpha) -> bool
        ensures { result ≡ stirred_by self pos g w };
}

// The first position from here on that stirs: nobody before it changes an extreme.
fn next_stir<E: Weighing>(
    f: &[f64],
    u: &[u64],
    y: &[u8],
    p: Problem<'_>,
    from: usize,
    active: usize,
    e: E,
) -> Option<usize>
    requires { (Ready (given p) (state f.now u.now y.now)) × (active ≤ p.n) × (from ≤ active)
        × (e ≡ E.among (given p) (state f.now u.now y.now) from) }
    ensures some { IfSome result (λ k. (from ≤ k) × (k < active) × (e ≡ E.among (given p.entry)
        (state f.now u.now y.now) k)) }
    ensures none { IfNone result (e ≡ E.among (given p.entry) (state f.now u.now y.now) active) }
{
    for k in from..active {
        if e.stirs(y[k] == 1, f[k], state::alpha_at(f, p.n, k)) {
            return Some(k);
        }
    }
    None
}

// The extremes of the active positions. Of most positions nothing more is asked than whether they stir.
pub fn max_violating_pair<E: Weighing>(
    f: &[f64],
    u: &[u64],
    y: &[u8],
    p: Problem<'_>,
    active: usize,
) -> E
    requires { (Ready (given p) (state f.now u.now y.now)) × (active ≤ p.n) }
    ensures { result ≡ E.among (given p.entry)
        (state f.now u.now y.now) active }
{
    let mut e = E::none();
    let mut from = 0;
    while let Some(k) = next_stir(f, u, y, p, from, active, e) {
        e = e.weighed(k, y[k] == 1, f[k], state::alpha_at(f, p.n, k));
        from = k + 1;
    }
    e
}

#[tactic(auto, unfolding(crate::specs::Curvature::curvature))]
pub fn curvature_of(floor: f64, a: f64, b: f64, r: f64, agree: bool) -> f64
    ensures { result ≡ curvature floor a b r agree }
{
    let q = kernel::quad_coef(agree, a, b, r);
    if q > 0.0 { q } else { floor }
}

fn gap_of(pos: bool, top: f64, g: f64) -> f64
    ensures { result ≡ gap_of pos top g }
{
    if pos { top + g } else { top - g }
}

pub fn gain_of(d: f64, q: f64) -> f64
    ensures { result ≡ gain d q }
{
    -(d * d) / q
}

// What the loop over the second asks of a lead. A lead that nobody holds has its top at minus infinity, so that nobody follows it,
// and whether there is a holder isn't asked at each position (docs/DECISIONS.md, 25).
#[derive(Clone, Copy)]
struct Lead {
    top: f64,
    index: usize,
    label: u8,
    diagonal: f64,
}

fn lead_of(f: &[f64], u: &[u64], y: &[u8], p: Problem<'_>, e: Extreme) -> Lead
    requires { (Indexed p.side p.n u.now) × (p.side ≤ p.n) × (7 * p.n ≤ length f.now) × (p.n ≤ length y.now)
        × (Below p.n e.holder) }
    ensures { result ≡ lead_at p.entry.n (state f.now u.now y.now) e.value e.holder }
{
    let Some(i) = e.holder else {
        return Lead {
            top: f64::NEG_INFINITY,
            index: 0,
            label: 0,
            diagonal: 0.0,
        };
    };
    let c = p.index_at(u, i);
    Lead {
        top: e.value,
        index: c,
        label: y[i],
        diagonal: f[5 * p.n + c],
    }
}

// The curvature of the lead l and position j. The entry is not negated where the labels differ: what is added is subtracted.
#[tactic(auto, using(kernel::proofs::Laws::curved_signed), unfolding(crate::specs::Curvature::curvature))]
fn curve_at(f: &[f64], u: &[u64], y: &[u8], p: Problem<'_>, floor: f64, l: Lead, j: usize) -> f64
    requires { (Ready (given p) (state f.now u.now y.now)) × (j < p.n) × (l.index < p.side) }
    ensures { result ≡ curve_of (given p.entry)
        (state f.now u.now y.now) floor l j }
{
    let c = p.index_at(u, j);
    let x = p.entry(l.index, c);
    let agree = (l.label == 1) == (y[j] == 1);
    let alike = p.kind.alike(l.label, y[j]);
    curvature_of(floor, l.diagonal, f[5 * p.n + c], x, agree == alike)
}

// Position j raced after its lead l.
#[tactic(auto, unfolding(crate::specs::Lead::raced_after))]
fn raced_after(
    f: &[f64],
    u: &[u64],
    y: &[u8],
    p: Problem<'_>,
    floor: f64,
    l: Lead,
    j: usize,
    e: Race,
) -> Race
    requires { (Ready (given p) (state f.now u.now y.now)) × (j < p.n) × (l.index < p.side) }
    ensures { result ≡ raced_after (given p.entry)
        (state f.now u.now y.now) floor l j e }
{
    let pos = y[j] == 1;
    if !may_fall(pos, state::alpha_at(f, p.n, j)) {
        return e;
    }
    let d = gap_of(pos, l.top, f[j]);
    if d > 0.0 {
        let q = curve_at(f, u, y, p, floor, l, j);
        extreme::behind(e, j, gain_of(d, q))
    } else {
        e
    }
}

// Position j raced after the lead of its label: lp of the positives, lq of the negatives. A branch chooses, as it was timed (docs/DECISIONS.md, 23).
fn raced_by_label(
    f: &[f64],
    u: &[u64],
    y: &[u8],
    p: Problem<'_>,
    floor: f64,
    lp: Lead,
    lq: Lead,
    j: usize,
    e: Race,
) -> Race
    requires { (Ready (given p) (state f.now u.now y.now)) × (j < p.n) × (lp.index < p.side) × (lq.index < p.side) }
    ensures { result ≡ raced_after (given p.entry)
        (state f.now u.now y.now) floor (cond (eqb (get_or y.now j 0) 1) lp lq) j e }
{
    if y[j] == 1 {
        raced_after(f, u, y, p, floor, lp, j, e)
    } else {
        raced_after(f, u, y, p, floor, lq, j, e)
    }
}

// What the pair of position j and the lead of its label would gain.
fn gain_by_label(
    f: &[f64],
    u: &[u64],
    y: &[u8],
    p: Problem<'_>,
    floor: f64,
    lp: Lead,
    lq: Lead,
    j: usize,
) -> f64
    requires { (Ready (given p) (state f.now u.now y.now)) × (j < p.n) × (lp.index < p.side) × (lq.index < p.side) }
    ensures { result ≡ gain_after (given p.entry)
        (state f.now u.now y.now) floor (cond (eqb (get_or y.now j 0) 1) lp lq) j }
{
    let l = extreme::either(y[j] == 1, lp, lq);
    let d = gap_of(y[j] == 1, l.top, f[j]);
    gain_of(d, curve_at(f, u, y, p, floor, l, j))
}

#[tactic(auto, unfolding(crate::specs::Lead::raced_to))]
fn race(
    f: &[f64],
    u: &[u64],
    y: &[u8],
    p: Problem<'_>,
    floor: f64,
    lp: Lead,
    lq: Lead,
    active: usize,
) -> usize
    requires { (Ready (given p) (state f.now u.now y.now)) × (active ≤ p.n) × (lp.index < p.side) × (lq.index < p.side) }
    ensures { result ≡ (raced_to (given p.entry)
        (state f.now u.now y.now) floor active lp lq active).at }
{
    let mut e = Race {
        value: f64::INFINITY,
        at: active,
    };
    for j in 0..active {
        e = raced_by_label(f, u, y, p, floor, lp, lq, j, e);
    }
    e.at
}

// The least gain after the leads of the positives and of the negatives.
pub fn partner(
    f: &[f64],
    u: &[u64],
    y: &[u8],
    p: Problem<'_>,
    floor: f64,
    positives: Extreme,
    negatives: Extreme,
    active: usize,
) -> Extreme
    requires { (Ready (given p) (state f.now u.now y.now)) × (active ≤ p.n)
        × (Below p.n positives.holder) × (Below p.n negatives.holder) }
    ensures { result ≡ second (given p.entry)
        (state f.now u.now y.now) floor (leads positives negatives) active }
{
    if active == 0 {
        return extreme::nobody(f64::INFINITY);
    }
    let lp = lead_of(f, u, y, p, positives);
    let lq = lead_of(f, u, y, p, negatives);
    let at = race(f, u, y, p, floor, lp, lq, active);
    if at < active {
        let v = gain_by_label(f, u, y, p, floor, lp, lq, at);
        return Extreme {
            value: v,
            holder: Some(at),
        };
    }
    extreme::nobody(f64::INFINITY)
}

// The pair that the leads give, unless the rule stops.
#[tactic(auto, unfolding(crate::specs::Second::choice))]
pub fn chosen(
    f: &[f64],
    u: &[u64],
    y: &[u8],
    p: Problem<'_>,
    floor: f64,
    positives: Extreme,
    negatives: Extreme,
    stop: bool,
    active: usize,
) -> Option<(usize, usize)>
    requires { (Ready (given p) (state f.now u.now y.now)) × (active ≤ p.n)
        × (Below p.n positives.holder) × (Below p.n negatives.holder) }
    ensures { result ≡ choice (given p.entry)
        (state f.now u.now y.now) floor (leads positives negatives) stop active }
{
    if stop {
        return None;
    }
    let j = partner(f, u, y, p, floor, positives, negatives, active).holder?;
    let i = extreme::either(y[j] == 1, positives, negatives).holder?;
    Some((i, j))
}
