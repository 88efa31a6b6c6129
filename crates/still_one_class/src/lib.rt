// The one-class entry without an order table: refusals 1 to 3, 8 to 10, 14 and 13 first, then the fit. Under a tuning.
#![tactic(auto)]

ghost use Rattle.std.specs.Prelude.{Ok, ◌≡◌, false, length};
ghost use Rattle.classification.specs.Entries.{given_by};
ghost use Rattle.judge.specs.Judge.{one_class_judged};
ghost use Rattle.still.specs.Entries.{still_lent, StillWhole, still_whole, still_left, StillRoom, still_one_class_tuned_sized, still_one_class_tuned};
ghost use Rattle.still.specs.Fits.{still_one_class};

use answer::{Answer, Finish};
use judge::Refusal;
use kernel::Kind;
use tuning::{Settings, Tuning};

// Shrinking was refused before, if it was asked for: the run is with it off.
fn started(
    n: usize,
    m: &[u8],
    nu: f64,
    settings: Settings,
    t: Tuning,
    h: &mut [f64],
    f: &mut [f64],
    y: &mut [u8],
) -> Result<Answer, Refusal>
    requires { (StillRoom n (length m.now) (length h.old) (length f.old) (length y.old)) × (one_class_judged n m.now nu settings.eps settings.budget ≡ Ok tt) }
    ensures { ◌≡◌ {A = StillWhole} (still_whole result h.new f.new y.new)
        (still_left n (still_one_class (given_by t n Kind.OneClass settings.eps false false) m.now nu settings.budget f.old h.old) (still_lent h.old f.old y.old)) }
{
    let Settings { eps, budget, .. } = settings;
    let mut l = [0u8; 512];
    let mut a = [0.0f64; 512];
    lists::fill(&mut l, 1, n);
    fits::alphas_one_class(&mut a, nu, n);
    let g = classification::given(t, n, Kind::OneClass, eps, false, false);
    reply::fit_cleared(h, f, y, &l, m, g, Finish::Plain, &a, 0.0, 1.0, 1.0, budget)
}

// After refusals 1 and 2.
#[tactic(auto, using(judge::proofs::Accepted::floor_fine), unfolding(still::specs::Entries::still_one_class_tuned_sized, still::specs::Entries::still_decided, judge::specs::Judge::and_then))]
pub fn sized(
    n: usize,
    m: &[u8],
    nu: f64,
    settings: Settings,
    t: Tuning,
    h: &mut [f64],
    f: &mut [f64],
    y: &mut [u8],
) -> Result<Answer, Refusal>
    requires { StillRoom n (length m.now) (length h.old) (length f.old) (length y.old) }
    ensures { ◌≡◌ {A = StillWhole} (still_whole result h.new f.new y.new)
        (still_one_class_tuned_sized t n m.now nu settings.eps settings.shrinking settings.budget (still_lent h.old f.old y.old)) }
{
    verdict::one_class_judged(n, m, nu, settings.eps, settings.budget)?;
    judge::floor_judged(t.floor)?;
    judge::shrinking_judged(settings.shrinking)?;
    started(n, m, nu, settings, t, h, f, y)
}

#[tactic(auto, using(still::proofs::Sizes::inputs_still, still::proofs::Sizes::room_still, judge::proofs::Lengths::long_enough), unfolding(still::specs::Entries::still_one_class_tuned, still::specs::Entries::still_decided))]
pub fn still_one_class_tuned(
    n: usize,
    m: &[u8],
    nu: f64,
    settings: Settings,
    t: Tuning,
    h: &mut [f64],
    f: &mut [f64],
    y: &mut [u8],
) -> Result<Answer, Refusal>
    ensures { ◌≡◌ {A = StillWhole} (still_whole result h.new f.new y.new)
        (still_one_class_tuned t n m.now nu settings.eps settings.shrinking settings.budget (still_lent h.old f.old y.old)) }
{
    reply::sized(n, true, m.len(), h.len(), f.len(), y.len())?;
    sized(n, m, nu, settings, t, h, f, y)
}
