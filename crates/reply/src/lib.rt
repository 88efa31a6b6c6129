// A fit without an order table: the start weights into their field, the run, what it answers, and the used scratch cleared.
// The parameters f and l are the lent floats and labels, p the linear term: orderless/specs/Sheet.antt.
#![tactic(auto)]

ghost use Rattle.std.specs.Prelude.{◌≡◌, ◌+◌, ◌*◌, ◌≤◌, ◌<◌, T, length, get_or, take};
ghost use Rattle.std.specs.Float.{binary64, nan};
ghost use Rattle.std.specs.Float.Ieee.{fits};
ghost use Rattle.answer.specs.Answer.{support_of, rho_of, obj_of, ratio_of, reason_of};
ghost use Rattle.course.specs.Filled.{diagonal_in};
ghost use Rattle.orderless.specs.Run.{spread, course, orderless};
ghost use Rattle.orderless.specs.Sheet.{ceilings_of};
ghost use Rattle.reply.specs.Replied.{replied};
ghost use Rattle.sheet.specs.Ready.{SheetReady};
ghost use Rattle.still.specs.Answered.{Reply, weights_to, reply_of};
ghost use Rattle.still.specs.Entries.{still_lent, StillWhole, still_whole, still_left, still_room_good, still_sizes_by};

use answer::{Answer, Finish};
use course::Went;
use judge::Refusal;
use rho::Level;
use sheet::Costs;
use solver::Given;

// The start weights into their field.
fn load(f: &mut [f64], a: &[f64], n: usize)
    requires { (n ≤ 512) × (5 * n ≤ length f.old) × (n ≤ length a.now) }
    ensures { f.new ≡ weights_to n a.now f.old n }
{
    for k in 0..n {
        f[n + k] = a[k];
    }
}

// The weights into the result list.
fn give(h: &mut [f64], f: &[f64], n: usize)
    requires { (n ≤ 512) × (5 * n ≤ length f.now) × (n ≤ length h.old) }
    ensures { h.new ≡ spread (λ k. get_or f.now (n + k) nan) h.old n }
{
    for k in 0..n {
        h[k] = f[n + k];
    }
}

fn answered(
    h: &[f64],
    g: Given,
    how: Finish,
    v: Level,
    obj: f64,
    steps: usize,
    budget: usize,
) -> Answer
    requires { (g.n ≤ 512) × (g.n ≤ length h.now) }
    ensures { result ≡ record { rho = rho_of how v; r = ratio_of g.nu v; obj = obj_of how v obj; iterations = steps; exit_reason = reason_of steps budget; support = support_of h.now g.n } }
{
    Answer {
        rho: answer::rho_of(how, v),
        r: answer::ratio_of(g.nu, v),
        obj: answer::obj_of(how, v, obj),
        iterations: steps,
        exit_reason: answer::reason(steps, budget),
        support: answer::support(h, g.n),
    }
}

// The answer of a run that left w, and its result list.
fn reply(
    h: &mut [f64],
    f: &[f64],
    l: &[u8],
    m: &[u8],
    g: Given,
    how: Finish,
    p: f64,
    costs: Costs,
    budget: usize,
    w: Went,
) -> Result<Answer, Refusal>
    requires { (SheetReady g m.now l.now f.now) × (g.n ≤ length h.old) }
    ensures { ◌≡◌ {A = Reply} (replied result h.new)
        (reply_of g how m.now l.now (ceilings_of costs.pos costs.neg) (λ k. p) budget (course f.now w.steps w.going) h.old) }
{
    let n = g.n;
    let v = course::level(f, l, m, g, costs);
    let obj = course::objective(f, l, m, g, p, costs);
    give(h, f, n);
    answer::finish_reading(h, l, n, how, v.r);
    Ok(answered(h, g, how, v, obj, w.steps, budget))
}

// From the start weights a to the answer.
fn fit(
    h: &mut [f64],
    f: &mut [f64],
    l: &[u8],
    m: &[u8],
    g: Given,
    how: Finish,
    a: &[f64],
    p: f64,
    costs: Costs,
    budget: usize,
) -> Result<Answer, Refusal>
    requires { (SheetReady g m.now l.now f.old) × (1 ≤ g.n) × (budget ≤ 10000000) × (g.n ≤ length a.now) × (g.n ≤ length h.old) × (T (fits binary64 p)) }
    ensures { ◌≡◌ {A = Reply} (replied result h.new)
        (reply_of g how m.now l.now (ceilings_of costs.pos costs.neg) (λ k. p) budget
        (orderless g m.now l.now (ceilings_of costs.pos costs.neg) (λ k. p)
        (diagonal_in g m.now (weights_to g.n a.now f.old g.n) g.n) budget) h.old) }
{
    load(f, a, g.n);
    let w = course::train(f, l, m, g, p, costs, budget);
    reply(h, f, l, m, g, how, p, costs, budget, w)
}

// The same in the first 5n of the lent floats, with the used scratch cleared: every entry ends here.
pub fn fit_cleared(
    h: &mut [f64],
    f: &mut [f64],
    y: &mut [u8],
    l: &[u8],
    m: &[u8],
    g: Given,
    how: Finish,
    a: &[f64],
    p: f64,
    cpos: f64,
    cneg: f64,
    budget: u64,
) -> Result<Answer, Refusal>
    requires { (SheetReady g m.now l.now f.old) × (1 ≤ g.n) × (budget ≤ 10000000) × (g.n ≤ length a.now) × (g.n ≤ length h.old) × (g.n ≤ length y.old) × (T (fits binary64 p)) }
    ensures { ◌≡◌ {A = StillWhole} (still_whole result h.new f.new y.new)
        (still_left g.n (reply_of g how m.now l.now (ceilings_of cpos cneg) (λ k. p) budget
        (orderless g m.now l.now (ceilings_of cpos cneg) (λ k. p)
        (diagonal_in g m.now (weights_to g.n a.now (take (5 * g.n) f.old) g.n) g.n) budget) h.old)
        (still_lent h.old f.old y.old)) }
{
    let n = g.n;
    let o = fit(
        h,
        &mut f[..5 * n],
        l,
        m,
        g,
        how,
        a,
        p,
        Costs {
            pos: cpos,
            neg: cneg,
        },
        budget as usize,
    );
    lists::fill(f, 0.0, 5 * n);
    lists::fill(y, 0, n);
    o
}

#[tactic(auto, using(judge::proofs::Lengths::square))]
fn roomy(n: usize, m: usize, h: usize, f: usize, y: usize) -> bool
    requires { n ≤ 512 }
    ensures { result ≡ still_room_good n m h f y }
{
    (m == 8 * (n * n)) & (n <= h) & (5 * n <= f) & (n <= y)
}

// Refusals 1 and 2. n may be any number at all.
#[tactic(auto, unfolding(still::specs::Entries::still_sizes_by))]
pub fn sized(n: usize, inputs: bool, m: usize, h: usize, f: usize, y: usize) -> Result<(), Refusal>
    ensures { result ≡ still_sizes_by n inputs m h f y }
{
    judge::need((0 < n) & (n <= 512), Refusal::Samples)?;
    judge::need(inputs & roomy(n, m, h, f, y), Refusal::Length)
}
