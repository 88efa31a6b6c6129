// The general entry: refusals 1 to 10 and 14 first, then the run. Under a tuning, and under the plain one.
#![tactic(auto)]

ghost use Rattle.std.specs.Prelude.{◌≡◌, Bool, ℕ, ◌*◌, ◌≤◌, length};
ghost use Rattle.answer.specs.Lent.{lent, Whole, whole};
ghost use Rattle.classification.specs.Entries.{general_tuned_sized, general_tuned, general_of};
ghost use Rattle.judge.specs.Sizes.{Room};

use answer::{Answer, Finish};
use classification::Terms;
use judge::Refusal;
use kernel::Kind;
use tuning::{Settings, Tuning};

// After refusals 1 and 2.
#[tactic(auto, using(classification::proofs::Laws::usable_general, judge::proofs::Accepted::floor_fine), unfolding(classification::specs::Entries::general_tuned_sized, classification::specs::Entries::decided, judge::specs::Judge::and_then))]
pub fn sized(
    n: usize,
    m: &[u8],
    l: &[u8],
    terms: Terms<'_>,
    nurule: bool,
    settings: Settings,
    t: Tuning,
    cr: &mut [f64],
    h: &mut [f64],
    f: &mut [f64],
    u: &mut [u64],
    y: &mut [u8],
) -> Result<Answer, Refusal>
    requires { (Room n (length m.now) (length cr.old) (length h.old) (length f.old) (length u.old) (length y.old)) × (n ≤ length l.now) × (n ≤ length terms.ceilings.now) × (n ≤ length terms.alphas.now) × (n ≤ length terms.linear.now) }
    ensures { ◌≡◌ {A = Whole} (whole result cr.new h.new f.new u.new y.new)
        (general_tuned_sized t n m.now l.now terms.entry.ceilings.now terms.entry.alphas.now terms.entry.linear.now nurule settings.eps settings.shrinking settings.budget (lent cr.old h.old f.old u.old y.old)) }
{
    let Settings {
        eps,
        shrinking,
        budget,
    } = settings;
    let Terms {
        ceilings,
        alphas,
        linear,
    } = terms;
    verdict::general_judged(n, m, l, ceilings, alphas, linear, eps, budget)?;
    judge::floor_judged(t.floor)?;
    let g = classification::given(t, n, Kind::TwoClass, eps, shrinking, nurule);
    classification::fit(cr, h, f, u, y, m, l, terms, g, Finish::Plain, budget)
}

// Labels and terms as lent.
#[tactic(auto, using(judge::proofs::Lengths::inputs_of, judge::proofs::Lengths::room_of, classification::proofs::Laws::four_long), unfolding(classification::specs::Entries::general_tuned, classification::specs::Entries::decided))]
pub fn general_tuned(
    n: usize,
    m: &[u8],
    l: &[u8],
    terms: Terms<'_>,
    nurule: bool,
    settings: Settings,
    t: Tuning,
    cr: &mut [f64],
    h: &mut [f64],
    f: &mut [f64],
    u: &mut [u64],
    y: &mut [u8],
) -> Result<Answer, Refusal>
    ensures { ◌≡◌ {A = Whole} (whole result cr.new h.new f.new u.new y.new)
        (general_tuned t n m.now l.now terms.entry.ceilings.now terms.entry.alphas.now terms.entry.linear.now nurule settings.eps settings.shrinking settings.budget (lent cr.old h.old f.old u.old y.old)) }
{
    let inputs = (l.len() == n)
        & (terms.ceilings.len() == n)
        & (terms.alphas.len() == n)
        & (terms.linear.len() == n);
    judge::sized(
        n,
        inputs,
        m.len(),
        cr.len(),
        h.len(),
        f.len(),
        u.len(),
        y.len(),
    )?;
    sized(n, m, l, terms, nurule, settings, t, cr, h, f, u, y)
}

// The same with the floor of the published Rust.
pub fn general(
    n: usize,
    m: &[u8],
    l: &[u8],
    terms: Terms<'_>,
    nurule: bool,
    settings: Settings,
    cr: &mut [f64],
    h: &mut [f64],
    f: &mut [f64],
    u: &mut [u64],
    y: &mut [u8],
) -> Result<Answer, Refusal>
    ensures { ◌≡◌ {A = Whole} (whole result cr.new h.new f.new u.new y.new)
        (general_of n m.now l.now terms.entry.ceilings.now terms.entry.alphas.now terms.entry.linear.now nurule settings.eps settings.shrinking settings.budget (lent cr.old h.old f.old u.old y.old)) }
{
    let t = tuning::plain();
    general_tuned(n, m, l, terms, nurule, settings, t, cr, h, f, u, y)
}
