// What the comparison with the oracle calls: a run over lists that the caller has loaded. It is no entry: what it requires, the
// caller has to see to.
#![tactic(auto)]

ghost use Rattle.std.specs.Prelude.{Bool, not, ◌≡◌, ℕ, ◌+◌, ◌*◌, ◌≤◌, eqb, length};
ghost use Rattle.solver.specs.End.{trained};
ghost use Rattle.solver.specs.Run.{problem_of};
ghost use Rattle.state.specs.Lists.{State, state, Ready};
ghost use Rattle.trial.specs.Trial.{code_of, trial_given, coded_of, put_of, out_of};

use alpha::Alpha;
use kernel::Kind;
use modes::Mode;
use rho::Level;
use solver::{Given, Run, Status};

// No From: Status is the solver's, and the numbers are the trial's.
fn code(s: Status) -> u64
    ensures { (result ≡ code_of s) × (result ≤ 2) }
{
    match s {
        Status::Going => 0,
        Status::Done => 1,
        Status::Refused => 2,
    }
}

// 4·iterations, and 1 where the run ended by itself or 2 where it was refused.
#[tactic(auto, unfolding(crate::specs::Trial::coded_of))]
fn coded(r: Run) -> u64
    ensures { result ≡ coded_of r }
{
    if r.iterations > 10000000 {
        return 3;
    }
    4 * (r.iterations as u64) + code(r.status)
}

fn put(out: &mut [f64], l: Level, obj: f64)
    requires { 3 ≤ length out.old }
    ensures { out.new ≡ put_of out.old l obj }
{
    out[0] = l.rho;
    out[1] = l.r;
    out[2] = obj;
}

// Into out go rho, r and obj.
pub fn trial_run(
    f: &mut [f64],
    u: &mut [u64],
    y: &mut [u8],
    m: &[u8],
    b: &[f64],
    out: &mut [f64],
    n: usize,
    nu: u8,
    shrinking: u8,
    eps: f64,
    budget: usize,
) -> u64
    requires { (Ready (problem_of (trial_given n nu shrinking eps) m.now) (state f.old u.old y.old)) × (n ≤ length b.now) × (budget ≤ 10000000) × (1 ≤ n)
        × (3 ≤ length out.old) }
    ensures lists { ◌≡◌ {A = State} (state f.new u.new y.new)
        (trained (trial_given n nu shrinking eps) m.now b.now budget (state f.old u.old y.old)).state }
    ensures coded { result ≡ coded_of (trained (trial_given n nu shrinking eps) m.now b.now budget (state f.old u.old y.old)).run }
    ensures out { out.new ≡ out_of (not (eqb nu 0)) n out.old
        (trained (trial_given n nu shrinking eps) m.now b.now budget (state f.old u.old y.old)) }
{
    let g = Given {
        n,
        side: n,
        kind: Kind::TwoClass,
        mode: Mode::Crate,
        floor: Alpha::CURVATURE_FLOOR,
        eps,
        shrinking: shrinking != 0,
        nu: nu != 0,
    };
    let r = solver::train(f, u, y, m, b, g, budget);
    let l = rho::level_by(f, y, n, r.active, nu != 0, false);
    put(out, l, solver::objective(f, n));
    coded(r)
}
