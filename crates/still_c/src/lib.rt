// The C entry without an order table: refusals 1 to 5, 8, 10, 14 and 13 first, then the fit. Under a tuning.
#![tactic(auto)]

ghost use Rattle.std.specs.Prelude.{Ok, ◌≡◌, false, ◌≤◌, length};
ghost use Rattle.classification.specs.Entries.{given_by};
ghost use Rattle.judge.specs.Judge.{c_judged};
ghost use Rattle.still.specs.Entries.{still_lent, StillWhole, still_whole, still_left, StillRoom, still_c_tuned_sized, still_c_tuned};
ghost use Rattle.still.specs.Fits.{still_c};

use answer::{Answer, Finish};
use judge::Refusal;
use kernel::Kind;
use tuning::{Settings, Tuning};

// Shrinking was refused before, if it was asked for: the run is with it off.
fn started(
    n: usize,
    m: &[u8],
    l: &[u8],
    cpos: f64,
    cneg: f64,
    settings: Settings,
    t: Tuning,
    h: &mut [f64],
    f: &mut [f64],
    y: &mut [u8],
) -> Result<Answer, Refusal>
    requires { (StillRoom n (length m.now) (length h.old) (length f.old) (length y.old)) × (n ≤ length l.now) × (c_judged n m.now l.now cpos cneg settings.eps settings.budget ≡ Ok tt) }
    ensures { ◌≡◌ {A = StillWhole} (still_whole result h.new f.new y.new)
        (still_left n (still_c (given_by t n Kind.TwoClass settings.eps false false) m.now l.now cpos cneg settings.budget f.old h.old) (still_lent h.old f.old y.old)) }
{
    let Settings { eps, budget, .. } = settings;
    let a = [0.0f64; 512];
    let g = classification::given(t, n, Kind::TwoClass, eps, false, false);
    reply::fit_cleared(
        h,
        f,
        y,
        l,
        m,
        g,
        Finish::Signed,
        &a,
        -1.0,
        cpos,
        cneg,
        budget,
    )
}

// After refusals 1 and 2.
#[tactic(auto, using(judge::proofs::Accepted::floor_fine), unfolding(still::specs::Entries::still_c_tuned_sized, still::specs::Entries::still_decided, judge::specs::Judge::and_then))]
pub fn sized(
    n: usize,
    m: &[u8],
    l: &[u8],
    cpos: f64,
    cneg: f64,
    settings: Settings,
    t: Tuning,
    h: &mut [f64],
    f: &mut [f64],
    y: &mut [u8],
) -> Result<Answer, Refusal>
    requires { (StillRoom n (length m.now) (length h.old) (length f.old) (length y.old)) × (n ≤ length l.now) }
    ensures { ◌≡◌ {A = StillWhole} (still_whole result h.new f.new y.new)
        (still_c_tuned_sized t n m.now l.now cpos cneg settings.eps settings.shrinking settings.budget (still_lent h.old f.old y.old)) }
{
    verdict::c_judged(n, m, l, cpos, cneg, settings.eps, settings.budget)?;
    judge::floor_judged(t.floor)?;
    judge::shrinking_judged(settings.shrinking)?;
    started(n, m, l, cpos, cneg, settings, t, h, f, y)
}

// A ceiling for each label.
#[tactic(auto, using(still::proofs::Sizes::inputs_still, still::proofs::Sizes::room_still, judge::proofs::Lengths::long_enough), unfolding(still::specs::Entries::still_c_tuned, still::specs::Entries::still_decided))]
pub fn still_c_tuned(
    n: usize,
    m: &[u8],
    l: &[u8],
    cpos: f64,
    cneg: f64,
    settings: Settings,
    t: Tuning,
    h: &mut [f64],
    f: &mut [f64],
    y: &mut [u8],
) -> Result<Answer, Refusal>
    ensures { ◌≡◌ {A = StillWhole} (still_whole result h.new f.new y.new)
        (still_c_tuned t n m.now l.now cpos cneg settings.eps settings.shrinking settings.budget (still_lent h.old f.old y.old)) }
{
    let inputs = l.len() == n;
    reply::sized(n, inputs, m.len(), h.len(), f.len(), y.len())?;
    sized(n, m, l, cpos, cneg, settings, t, h, f, y)
}
