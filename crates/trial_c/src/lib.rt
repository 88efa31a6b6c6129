// The archive that the comparison with the oracle links: `trial`, for C.
#![tactic(auto)]

ghost use Rattle.std.specs.Prelude.{Bool, not, ◌≡◌, ℕ, ◌+◌, ◌*◌, ◌≤◌, eqb, length};
ghost use Rattle.solver.specs.End.{trained};
ghost use Rattle.solver.specs.Run.{problem_of};
ghost use Rattle.state.specs.Lists.{State, state, Ready};
ghost use Rattle.trial.specs.Trial.{code_of, trial_given, coded_of, put_of, out_of};

// Into out go rho, r and obj.
#[unsafe(no_mangle)]
pub extern "C" fn trial_run(
    f: &mut [f64],
    u: &mut [u64],
    y: &mut [u8],
    m: &[u8],
    b: &[f64],
    out: &mut [f64],
    n: usize,
    nu: u8,
    shrinking: u8,
    eps: f64,
    budget: usize,
) -> u64
    requires { (Ready (problem_of (trial_given n nu shrinking eps) m.now) (state f.old u.old y.old)) × (n ≤ length b.now) × (budget ≤ 10000000) × (1 ≤ n)
        × (3 ≤ length out.old) }
    ensures lists { ◌≡◌ {A = State} (state f.new u.new y.new)
        (trained (trial_given n nu shrinking eps) m.now b.now budget (state f.old u.old y.old)).state }
    ensures coded { result ≡ coded_of (trained (trial_given n nu shrinking eps) m.now b.now budget (state f.old u.old y.old)).run }
    ensures out { out.new ≡ out_of (not (eqb nu 0)) n out.old
        (trained (trial_given n nu shrinking eps) m.now b.now budget (state f.old u.old y.old)) }
{
    trial::trial_run(f, u, y, m, b, out, n, nu, shrinking, eps, budget)
}
