// The nu entry without an order table: refusals 1 to 4, 8 to 10, 14 and 13 first, then the fit. Under a tuning.
#![tactic(auto)]

ghost use Rattle.std.specs.Prelude.{Ok, ◌≡◌, false, true, ◌≤◌, length};
ghost use Rattle.classification.specs.Entries.{given_by};
ghost use Rattle.judge.specs.Judge.{nu_judged};
ghost use Rattle.still.specs.Entries.{still_lent, StillWhole, still_whole, still_left, StillRoom, still_nu_tuned_sized, still_nu_tuned};
ghost use Rattle.still.specs.Fits.{still_nu};

use answer::{Answer, Finish};
use judge::Refusal;
use kernel::Kind;
use tuning::{Settings, Tuning};

// Shrinking was refused before, if it was asked for: the run is with it off.
fn started(
    n: usize,
    m: &[u8],
    l: &[u8],
    nu: f64,
    settings: Settings,
    t: Tuning,
    h: &mut [f64],
    f: &mut [f64],
    y: &mut [u8],
) -> Result<Answer, Refusal>
    requires { (StillRoom n (length m.now) (length h.old) (length f.old) (length y.old)) × (n ≤ length l.now) × (nu_judged n m.now l.now nu settings.eps settings.budget ≡ Ok tt) }
    ensures { ◌≡◌ {A = StillWhole} (still_whole result h.new f.new y.new)
        (still_left n (still_nu (given_by t n Kind.TwoClass settings.eps false true) m.now l.now nu settings.budget f.old h.old) (still_lent h.old f.old y.old)) }
{
    let Settings { eps, budget, .. } = settings;
    let mut a = [0.0f64; 512];
    fits::alphas_nu(&mut a, l, nu, n);
    let g = classification::given(t, n, Kind::TwoClass, eps, false, true);
    reply::fit_cleared(h, f, y, l, m, g, Finish::Scaled, &a, 0.0, 1.0, 1.0, budget)
}

// After refusals 1 and 2.
#[tactic(auto, using(judge::proofs::Accepted::floor_fine), unfolding(still::specs::Entries::still_nu_tuned_sized, still::specs::Entries::still_decided, judge::specs::Judge::and_then))]
pub fn sized(
    n: usize,
    m: &[u8],
    l: &[u8],
    nu: f64,
    settings: Settings,
    t: Tuning,
    h: &mut [f64],
    f: &mut [f64],
    y: &mut [u8],
) -> Result<Answer, Refusal>
    requires { (StillRoom n (length m.now) (length h.old) (length f.old) (length y.old)) × (n ≤ length l.now) }
    ensures { ◌≡◌ {A = StillWhole} (still_whole result h.new f.new y.new)
        (still_nu_tuned_sized t n m.now l.now nu settings.eps settings.shrinking settings.budget (still_lent h.old f.old y.old)) }
{
    verdict::nu_judged(n, m, l, nu, settings.eps, settings.budget)?;
    judge::floor_judged(t.floor)?;
    judge::shrinking_judged(settings.shrinking)?;
    started(n, m, l, nu, settings, t, h, f, y)
}

#[tactic(auto, using(still::proofs::Sizes::inputs_still, still::proofs::Sizes::room_still, judge::proofs::Lengths::long_enough), unfolding(still::specs::Entries::still_nu_tuned, still::specs::Entries::still_decided))]
pub fn still_nu_tuned(
    n: usize,
    m: &[u8],
    l: &[u8],
    nu: f64,
    settings: Settings,
    t: Tuning,
    h: &mut [f64],
    f: &mut [f64],
    y: &mut [u8],
) -> Result<Answer, Refusal>
    ensures { ◌≡◌ {A = StillWhole} (still_whole result h.new f.new y.new)
        (still_nu_tuned t n m.now l.now nu settings.eps settings.shrinking settings.budget (still_lent h.old f.old y.old)) }
{
    let inputs = l.len() == n;
    reply::sized(n, inputs, m.len(), h.len(), f.len(), y.len())?;
    sized(n, m, l, nu, settings, t, h, f, y)
}
