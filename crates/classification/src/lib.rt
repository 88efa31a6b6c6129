// What the four entries share: their definitions, and from what was judged to the answer.
#![tactic(auto)]

ghost use Rattle.std.specs.Prelude.{◌≡◌, ℕ, ◌*◌, ◌≤◌, length};
ghost use Rattle.answer.specs.Lent.{lent, Whole, whole};
ghost use Rattle.answer.specs.Solved.{solved};
ghost use Rattle.judge.specs.Sizes.{Room};
ghost use Rattle.kernel.specs.Matrix.{Matrix};
ghost use Rattle.solver.specs.Run.{problem_of};
ghost use Rattle.state.specs.Lists.{state, Ready};
ghost use Rattle.travel.specs.Travel.{Paired};
ghost use Rattle.classification.specs.Entries.{given_by, fitted};

use answer::{Answer, Finish};
use judge::Refusal;
use kernel::Kind;
use solver::Given;
use tuning::Tuning;

// What a problem has of each sample beside its label.
#[derive(Clone, Copy)]
pub struct Terms<'a> {
    pub ceilings: &'a [f64],
    pub alphas: &'a [f64],
    pub linear: &'a [f64],
}

pub fn given(t: Tuning, n: usize, kind: Kind, eps: f64, shrinking: bool, nu: bool) -> Given
    ensures { result ≡ given_by t n kind eps shrinking nu }
{
    let mode = t.mode;
    Given {
        n,
        side: n,
        kind,
        mode,
        floor: t.floor,
        eps,
        shrinking,
        nu,
    }
}

// A run over loaded lists: every entry ends here.
fn solve(
    cr: &mut [f64],
    h: &mut [f64],
    f: &mut [f64],
    u: &mut [u64],
    y: &mut [u8],
    m: &[u8],
    l: &[u8],
    b: &[f64],
    g: Given,
    how: Finish,
    budget: usize,
) -> Result<Answer, Refusal>
    requires { (Ready (problem_of g m.now) (state f.old u.old y.old)) × (Paired g.n u.old) × (g.side ≡ g.n) × (1 ≤ g.n) × (budget ≤ 10000000)
        × (g.n ≤ length b.now) × (g.n ≤ length l.now) × (g.n ≤ length cr.old) × (g.n ≤ length h.old) }
    ensures { ◌≡◌ {A = Whole} (whole result cr.new h.new f.new u.new y.new)
        (solved g how m.now l.now b.now budget (lent cr.old h.old f.old u.old y.old)) }
{
    let r = solver::train(f, u, y, m, b, g, budget);
    let out = answer::settle(cr, h, f, u, y, l, g, how, budget, r);
    answer::clear(f, u, y, g.n);
    out
}

// Labels and terms: loaded, then solved. The five lists that are written stay single, here and in each entry: of a struct of `&mut` a clause says
// what is left only through nested pairs of `.exit`, which is no plainer.
pub fn fit(
    cr: &mut [f64],
    h: &mut [f64],
    f: &mut [f64],
    u: &mut [u64],
    y: &mut [u8],
    m: &[u8],
    l: &[u8],
    terms: Terms<'_>,
    g: Given,
    how: Finish,
    budget: u64,
) -> Result<Answer, Refusal>
    requires { (g.side ≡ g.n) × (Room g.n (length m.now) (length cr.old) (length h.old) (length f.old) (length u.old) (length y.old)) × (Matrix g.n m.now) × (budget ≤ 10000000)
        × (g.n ≤ length l.now) × (g.n ≤ length terms.ceilings.now) × (g.n ≤ length terms.alphas.now) × (g.n ≤ length terms.linear.now) }
    ensures { ◌≡◌ {A = Whole} (whole result cr.new h.new f.new u.new y.new)
        (fitted g how m.now l.now terms.entry.ceilings.now terms.entry.alphas.now terms.entry.linear.now budget (lent cr.old h.old f.old u.old y.old)) }
{
    let Terms {
        ceilings,
        alphas,
        linear,
    } = terms;
    fits::load(f, u, y, l, ceilings, alphas, linear, g.n);
    solve(cr, h, f, u, y, m, l, ceilings, g, how, budget as usize)
}
