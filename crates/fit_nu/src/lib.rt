// The nu entry: refusals 1 to 10 and 14 first, then the run. Under a tuning, and under the plain one.
#![tactic(auto)]

ghost use Rattle.std.specs.Prelude.{◌≡◌, Bool, true, ℕ, ◌*◌, ◌≤◌, length};
ghost use Rattle.alpha.specs.Weight.{one};
ghost use Rattle.answer.specs.Lent.{lent, Whole, whole};
ghost use Rattle.classification.specs.Entries.{given_by, fitted, fit_nu_tuned_sized, fit_nu_tuned, fit_nu_of};
ghost use Rattle.fits.specs.Starts.{nothing, evenly, half, shared_to};
ghost use Rattle.judge.specs.Sizes.{Room};
ghost use Rattle.kernel.specs.Matrix.{Matrix};

use answer::{Answer, Finish};
use classification::Terms;
use judge::Refusal;
use kernel::Kind;
use tuning::{Settings, Tuning};

fn started(
    n: usize,
    m: &[u8],
    l: &[u8],
    nu: f64,
    settings: Settings,
    t: Tuning,
    cr: &mut [f64],
    h: &mut [f64],
    f: &mut [f64],
    u: &mut [u64],
    y: &mut [u8],
) -> Result<Answer, Refusal>
    requires { (Room n (length m.now) (length cr.old) (length h.old) (length f.old) (length u.old) (length y.old)) × (Matrix n m.now) × (settings.budget ≤ 10000000) × (n ≤ length l.now) }
    ensures { ◌≡◌ {A = Whole} (whole result cr.new h.new f.new u.new y.new)
        (fitted (given_by t n Kind.TwoClass settings.eps settings.shrinking true) Finish.Scaled m.now l.now (evenly one n) (shared_to (half nu n) l.now nothing n) nothing settings.budget (lent cr.old h.old f.old u.old y.old)) }
{
    let Settings {
        eps,
        shrinking,
        budget,
    } = settings;
    let mut c = [0.0f64; 512];
    let mut a = [0.0f64; 512];
    let p = [0.0f64; 512];
    lists::fill(&mut c, 1.0, n);
    fits::alphas_nu(&mut a, l, nu, n);
    let g = classification::given(t, n, Kind::TwoClass, eps, shrinking, true);
    let terms = Terms {
        ceilings: &c,
        alphas: &a,
        linear: &p,
    };
    classification::fit(cr, h, f, u, y, m, l, terms, g, Finish::Scaled, budget)
}

// After refusals 1 and 2.
#[tactic(auto, using(classification::proofs::Laws::usable_nu, judge::proofs::Accepted::floor_fine), unfolding(classification::specs::Entries::fit_nu_tuned_sized, classification::specs::Entries::decided, judge::specs::Judge::and_then))]
pub fn sized(
    n: usize,
    m: &[u8],
    l: &[u8],
    nu: f64,
    settings: Settings,
    t: Tuning,
    cr: &mut [f64],
    h: &mut [f64],
    f: &mut [f64],
    u: &mut [u64],
    y: &mut [u8],
) -> Result<Answer, Refusal>
    requires { (Room n (length m.now) (length cr.old) (length h.old) (length f.old) (length u.old) (length y.old)) × (n ≤ length l.now) }
    ensures { ◌≡◌ {A = Whole} (whole result cr.new h.new f.new u.new y.new)
        (fit_nu_tuned_sized t n m.now l.now nu settings.eps settings.shrinking settings.budget (lent cr.old h.old f.old u.old y.old)) }
{
    verdict::nu_judged(n, m, l, nu, settings.eps, settings.budget)?;
    judge::floor_judged(t.floor)?;
    started(n, m, l, nu, settings, t, cr, h, f, u, y)
}

// The nu rule, with ceilings 1.
#[tactic(auto, using(judge::proofs::Lengths::inputs_of, judge::proofs::Lengths::room_of, judge::proofs::Lengths::long_enough), unfolding(classification::specs::Entries::fit_nu_tuned, classification::specs::Entries::decided))]
pub fn fit_nu_tuned(
    n: usize,
    m: &[u8],
    l: &[u8],
    nu: f64,
    settings: Settings,
    t: Tuning,
    cr: &mut [f64],
    h: &mut [f64],
    f: &mut [f64],
    u: &mut [u64],
    y: &mut [u8],
) -> Result<Answer, Refusal>
    ensures { ◌≡◌ {A = Whole} (whole result cr.new h.new f.new u.new y.new)
        (fit_nu_tuned t n m.now l.now nu settings.eps settings.shrinking settings.budget (lent cr.old h.old f.old u.old y.old)) }
{
    let inputs = l.len() == n;
    judge::sized(
        n,
        inputs,
        m.len(),
        cr.len(),
        h.len(),
        f.len(),
        u.len(),
        y.len(),
    )?;
    sized(n, m, l, nu, settings, t, cr, h, f, u, y)
}

// The same with the floor of the published Rust.
pub fn fit_nu(
    n: usize,
    m: &[u8],
    l: &[u8],
    nu: f64,
    settings: Settings,
    cr: &mut [f64],
    h: &mut [f64],
    f: &mut [f64],
    u: &mut [u64],
    y: &mut [u8],
) -> Result<Answer, Refusal>
    ensures { ◌≡◌ {A = Whole} (whole result cr.new h.new f.new u.new y.new)
        (fit_nu_of n m.now l.now nu settings.eps settings.shrinking settings.budget (lent cr.old h.old f.old u.old y.old)) }
{
    let t = tuning::plain();
    fit_nu_tuned(n, m, l, nu, settings, t, cr, h, f, u, y)
}
