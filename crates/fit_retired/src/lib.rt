// The entry with retired samples: the general run, over linear terms that are NaN where a sample is retired. Its gradient is NaN then from start to
// end, and no comparison of pair choice or rho takes it; the obj sum asks who stands.
#![tactic(auto)]

ghost use Rattle.std.specs.Prelude.{◌≡◌, cond, false as off, ◌*◌, ◌≤◌, length};
ghost use Rattle.answer.specs.Lent.{lent, Whole, whole};
ghost use Rattle.classification.specs.Entries.{given_by};
ghost use Rattle.fits.specs.Load.{loaded_floats, loaded};
ghost use Rattle.kernel.specs.Matrix.{Matrix};
ghost use Rattle.judge.specs.Sizes.{Room};
ghost use Rattle.standing.specs.End.{objective_over};
ghost use Rattle.solver.specs.Run.{problem_of};
ghost use Rattle.state.specs.Lists.{State, state, Ready};
ghost use Rattle.travel.specs.Travel.{Paired};
ghost use Rattle.retired.specs.Entry.{stands_in, kept, fitted_over, retired_tuned_sized, retired_tuned, retired_of};
ghost use Rattle.retired.specs.Coded.{with_obj, solved_silent};
ghost use Rattle.retired.specs.Silenced.{silenced};

use answer::{Answer, Finish};
use classification::Terms;
use judge::Refusal;
use kernel::Kind;
use solver::Given;
use tuning::{Settings, Tuning};

// Weight, ceiling and linear term of each sample at its own place: 0 and NaN for the weight and the linear term of what is retired.
fn load_floats(f: &mut [f64], c: &[f64], a: &[f64], p: &[f64], r: &[u8], n: usize)
    requires { (n ≤ 512) × (7 * n ≤ length f.old) × (n ≤ length c.now) × (n ≤ length a.now) × (n ≤ length p.now) × (n ≤ length r.now) }
    ensures { f.new ≡ loaded_floats n c.now (kept r.now a.now n) (silenced r.now p.now n) f.old n }
{
    let none = 0.0 / 0.0;
    for k in 0..n {
        let ceiling = c[k];
        let alpha = a[k];
        let linear = p[k];
        let stands = r[k] == 0;
        let weight = extreme::either(stands, alpha, 0.0);
        let term = extreme::either(stands, linear, none);
        f[2 * n + k] = weight;
        f[3 * n + k] = ceiling;
        f[4 * n + k] = term;
    }
}

fn load(f: &mut [f64], u: &mut [u64], y: &mut [u8], l: &[u8], terms: Terms<'_>, r: &[u8], n: usize)
    requires { (n ≤ 512) × (7 * n ≤ length f.old) × (2 * n ≤ length u.old) × (n ≤ length y.old) × (n ≤ length l.now) × (n ≤ length terms.ceilings.now) × (n ≤ length terms.alphas.now) × (n ≤ length terms.linear.now) × (n ≤ length r.now) }
    ensures { ◌≡◌ {A = State} (state f.new u.new y.new)
        (loaded n l.now terms.entry.ceilings.now (kept r.now terms.entry.alphas.now n) (silenced r.now terms.entry.linear.now n) (state f.old u.old y.old)) }
{
    load_floats(f, terms.ceilings, terms.alphas, terms.linear, r, n);
    fits::load_numbers(u, n);
    fits::load_labels(y, l, n);
}

// Half the sum of weight·(gradient + linear term) over what stands, in order.
#[tactic(auto, unfolding(standing::specs::End::sum_over, standing::specs::End::objective_over))]
fn objective_over(f: &[f64], r: &[u8], n: usize) -> f64
    requires { (n ≤ 512) × (7 * n ≤ length f.now) × (n ≤ length r.now) }
    ensures { result ≡ objective_over (stands_in r.now) n f.now }
{
    let mut v = 0.0;
    for k in 0..n {
        v = extreme::either(r[k] == 0, v + f[2 * n + k] * (f[k] + f[4 * n + k]), v);
    }
    v / 2.0
}

fn with_obj(out: Result<Answer, Refusal>, x: f64) -> Result<Answer, Refusal>
    ensures { result ≡ with_obj out x }
{
    out.map(|answer| Answer { obj: x, ..answer })
}

// A run over loaded lists.
fn solve(
    cr: &mut [f64],
    h: &mut [f64],
    f: &mut [f64],
    u: &mut [u64],
    y: &mut [u8],
    m: &[u8],
    l: &[u8],
    b: &[f64],
    r: &[u8],
    g: Given,
    budget: usize,
) -> Result<Answer, Refusal>
    requires { (Ready (problem_of g m.now) (state f.old u.old y.old)) × (Paired g.n u.old) × (g.side ≡ g.n) × (1 ≤ g.n) × (budget ≤ 10000000)
        × (g.n ≤ length b.now) × (g.n ≤ length l.now) × (g.n ≤ length cr.old) × (g.n ≤ length h.old) × (g.n ≤ length r.now) }
    ensures { ◌≡◌ {A = Whole} (whole result cr.new h.new f.new u.new y.new)
        (solved_silent g m.now l.now b.now r.now budget (lent cr.old h.old f.old u.old y.old)) }
{
    let run = solver::train(f, u, y, m, b, g, budget);
    let out = answer::settle(cr, h, f, u, y, l, g, Finish::Plain, budget, run);
    let obj = objective_over(f, r, g.n);
    answer::clear(f, u, y, g.n);
    with_obj(out, obj)
}

// Loaded, then solved. Shrinking was refused before, if it was asked for: the run is with it off.
fn fit(
    cr: &mut [f64],
    h: &mut [f64],
    f: &mut [f64],
    u: &mut [u64],
    y: &mut [u8],
    m: &[u8],
    l: &[u8],
    terms: Terms<'_>,
    r: &[u8],
    n: usize,
    settings: Settings,
    nu: bool,
    t: Tuning,
) -> Result<Answer, Refusal>
    requires { (Room n (length m.now) (length cr.old) (length h.old) (length f.old) (length u.old) (length y.old)) × (Matrix n m.now) × (settings.budget ≤ 10000000) × (n ≤ length l.now) × (n ≤ length terms.ceilings.now) × (n ≤ length terms.alphas.now) × (n ≤ length terms.linear.now) × (n ≤ length r.now) }
    ensures { ◌≡◌ {A = Whole} (whole result cr.new h.new f.new u.new y.new)
        (fitted_over (stands_in r.now) (given_by t n Kind.TwoClass settings.eps off nu) m.now l.now terms.entry.ceilings.now (kept r.now terms.entry.alphas.now n) (kept r.now terms.entry.linear.now n) settings.budget (lent cr.old h.old f.old u.old y.old)) }
{
    let Settings { eps, budget, .. } = settings;
    load(f, u, y, l, terms, r, n);
    let g = classification::given(t, n, Kind::TwoClass, eps, false, nu);
    solve(cr, h, f, u, y, m, l, terms.ceilings, r, g, budget as usize)
}

// After refusals 1 and 2.
#[tactic(auto, using(retired::proofs::Laws::usable_retired), unfolding(retired::specs::Entry::retired_tuned_sized, classification::specs::Entries::decided))]
pub fn sized(
    n: usize,
    m: &[u8],
    l: &[u8],
    terms: Terms<'_>,
    r: &[u8],
    nurule: bool,
    settings: Settings,
    t: Tuning,
    cr: &mut [f64],
    h: &mut [f64],
    f: &mut [f64],
    u: &mut [u64],
    y: &mut [u8],
) -> Result<Answer, Refusal>
    requires { (Room n (length m.now) (length cr.old) (length h.old) (length f.old) (length u.old) (length y.old)) × (n ≤ length l.now) × (n ≤ length terms.ceilings.now) × (n ≤ length terms.alphas.now) × (n ≤ length terms.linear.now) × (n ≤ length r.now) }
    ensures { ◌≡◌ {A = Whole} (whole result cr.new h.new f.new u.new y.new)
        (retired_tuned_sized t n m.now l.now terms.entry.ceilings.now terms.entry.alphas.now terms.entry.linear.now r.now nurule settings.eps settings.shrinking settings.budget (lent cr.old h.old f.old u.old y.old)) }
{
    let Settings {
        eps,
        shrinking,
        budget,
    } = settings;
    let Terms {
        ceilings,
        alphas,
        linear,
    } = terms;
    verdict::retired_judged(
        n, m, l, ceilings, alphas, linear, r, eps, shrinking, budget, t.floor,
    )?;
    fit(cr, h, f, u, y, m, l, terms, r, n, settings, nurule, t)
}

// The general entry, with a byte for each sample that says whether it is retired.
#[tactic(auto, using(judge::proofs::Lengths::inputs_of, judge::proofs::Lengths::room_of, retired::proofs::Laws::five_long), unfolding(retired::specs::Entry::retired_tuned, classification::specs::Entries::decided))]
pub fn fit_retired_tuned(
    n: usize,
    m: &[u8],
    l: &[u8],
    terms: Terms<'_>,
    r: &[u8],
    nurule: bool,
    settings: Settings,
    t: Tuning,
    cr: &mut [f64],
    h: &mut [f64],
    f: &mut [f64],
    u: &mut [u64],
    y: &mut [u8],
) -> Result<Answer, Refusal>
    ensures { ◌≡◌ {A = Whole} (whole result cr.new h.new f.new u.new y.new)
        (retired_tuned t n m.now l.now terms.entry.ceilings.now terms.entry.alphas.now terms.entry.linear.now r.now nurule settings.eps settings.shrinking settings.budget (lent cr.old h.old f.old u.old y.old)) }
{
    let inputs = (l.len() == n)
        & (terms.ceilings.len() == n)
        & (terms.alphas.len() == n)
        & (terms.linear.len() == n)
        & (r.len() == n);
    judge::sized(
        n,
        inputs,
        m.len(),
        cr.len(),
        h.len(),
        f.len(),
        u.len(),
        y.len(),
    )?;
    sized(n, m, l, terms, r, nurule, settings, t, cr, h, f, u, y)
}

// The same with the floor of the published Rust.
pub fn fit_retired(
    n: usize,
    m: &[u8],
    l: &[u8],
    terms: Terms<'_>,
    r: &[u8],
    nurule: bool,
    settings: Settings,
    cr: &mut [f64],
    h: &mut [f64],
    f: &mut [f64],
    u: &mut [u64],
    y: &mut [u8],
) -> Result<Answer, Refusal>
    ensures { ◌≡◌ {A = Whole} (whole result cr.new h.new f.new u.new y.new)
        (retired_of n m.now l.now terms.entry.ceilings.now terms.entry.alphas.now terms.entry.linear.now r.now nurule settings.eps settings.shrinking settings.budget (lent cr.old h.old f.old u.old y.old)) }
{
    let t = tuning::plain();
    fit_retired_tuned(n, m, l, terms, r, nurule, settings, t, cr, h, f, u, y)
}
