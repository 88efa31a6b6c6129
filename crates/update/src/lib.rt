// One step: the clipped pair, and carrying it into the gradients.
#![tactic(auto)]

ghost use Rattle.std.specs.Prelude.{◌≡◌, ◌+◌, ◌*◌, ◌≤◌, ◌<◌, length, get_or};
ghost use Rattle.std.specs.Float.{nan};
ghost use Rattle.alpha.specs.Weight.{weight};
ghost use Rattle.kernel.specs.Row.{kernel_index, Indexed};
ghost use Rattle.state.specs.Lists.{given, state, Ready};
ghost use Rattle.update.specs.Pair.{holding, floored, step_of, i_capped, j_capped, i_raised, j_raised};
ghost use Rattle.update.specs.Pair.{differ_low, differ_high, differed, agree_first, agree_second, agreed, pair_of};
ghost use Rattle.update.specs.Update.{ceiling_in, counted_upper, j_reach, pair_at, shifted_to, settled, carried, updated};

use alpha::Alpha;
use kernel::Problem;
use modes::Mode;

#[derive(Clone, Copy)]
pub struct Pair {
    pub i: Alpha,
    pub j: Alpha,
}

impl Pair {
    // The values x and y under the pair's ceilings.
    fn held(self, x: f64, y: f64) -> Self
        ensures { result ≡ holding self x y }
    {
        Self {
            i: Alpha { value: x, ..self.i },
            j: Alpha { value: y, ..self.j },
        }
    }

    #[tactic(auto, unfolding(crate::specs::Pair::i_capped))]
    fn cap_i(self, y: f64) -> Self
        ensures { result ≡ i_capped self y }
    {
        if self.i.value > self.i.upper {
            Self {
                i: self.i.clipped(),
                j: Alpha { value: y, ..self.j },
            }
        } else {
            self
        }
    }

    #[tactic(auto, unfolding(crate::specs::Pair::j_capped))]
    fn cap_j(self, x: f64) -> Self
        ensures { result ≡ j_capped self x }
    {
        if self.j.value > self.j.upper {
            Self {
                i: Alpha { value: x, ..self.i },
                j: self.j.clipped(),
            }
        } else {
            self
        }
    }

    #[tactic(auto, unfolding(crate::specs::Pair::i_raised))]
    fn raise_i(self, y: f64) -> Self
        ensures { result ≡ i_raised self y }
    {
        if self.i.value < 0.0 {
            self.held(0.0, y)
        } else {
            self
        }
    }

    #[tactic(auto, unfolding(crate::specs::Pair::j_raised))]
    fn raise_j(self, x: f64) -> Self
        ensures { result ≡ j_raised self x }
    {
        if self.j.value < 0.0 {
            self.held(x, 0.0)
        } else {
            self
        }
    }

    #[tactic(auto, unfolding(crate::specs::Pair::differ_low))]
    fn differ_low(self, diff: f64) -> Self
        ensures { result ≡ differ_low self diff }
    {
        if diff > 0.0 {
            self.raise_j(diff)
        } else {
            self.raise_i(-diff)
        }
    }

    #[tactic(auto, unfolding(crate::specs::Pair::differ_high))]
    fn differ_high(self, diff: f64) -> Self
        ensures { result ≡ differ_high self diff }
    {
        if diff > self.i.upper - self.j.upper {
            self.cap_i(self.i.upper - diff)
        } else {
            self.cap_j(self.j.upper + diff)
        }
    }

    // The labels differ.
    #[tactic(auto, unfolding(crate::specs::Pair::differed))]
    fn differ(self, delta: f64) -> Self
        ensures { result ≡ differed self delta }
    {
        let diff = self.i.value - self.j.value;
        self.held(self.i.value + delta, self.j.value + delta)
            .differ_low(diff)
            .differ_high(diff)
    }

    #[tactic(auto, unfolding(crate::specs::Pair::agree_first))]
    fn agree_first(self, sum: f64) -> Self
        ensures { result ≡ agree_first self sum }
    {
        if sum > self.i.upper {
            self.cap_i(sum - self.i.upper)
        } else {
            self.raise_j(sum)
        }
    }

    #[tactic(auto, unfolding(crate::specs::Pair::agree_second))]
    fn agree_second(self, sum: f64) -> Self
        ensures { result ≡ agree_second self sum }
    {
        if sum > self.j.upper {
            self.cap_j(sum - self.j.upper)
        } else {
            self.raise_i(sum)
        }
    }

    // The labels agree.
    #[tactic(auto, unfolding(crate::specs::Pair::agreed))]
    fn concur(self, delta: f64) -> Self
        ensures { result ≡ agreed self delta }
    {
        let sum = self.i.value + self.j.value;
        self.held(self.i.value - delta, self.j.value + delta)
            .agree_first(sum)
            .agree_second(sum)
    }
}

// Only what is at most 0 becomes the floor: a NaN stays.
#[tactic(auto, unfolding(crate::specs::Pair::floored))]
fn divisor(floor: f64, q: f64) -> f64
    ensures { result ≡ floored floor q }
{
    if q <= 0.0 { floor } else { q }
}

#[tactic(auto, unfolding(crate::specs::Pair::step_of))]
fn step(agree: bool, gi: f64, gj: f64, q: f64) -> f64
    ensures { result ≡ step_of agree gi gj q }
{
    if agree { (gi - gj) / q } else { -(gi + gj) / q }
}

// What a step leaves of two weights: di and dj are the diagonals, r is the entry of row i at j.
#[tactic(auto, unfolding(crate::specs::Pair::pair_of, crate::specs::Pair::clipped_step))]
pub fn clipped_pair(
    wi: Alpha,
    wj: Alpha,
    gi: f64,
    gj: f64,
    di: f64,
    dj: f64,
    r: f64,
    agree: bool,
    floor: f64,
) -> Pair
    ensures { result ≡ pair_of wi wj gi gj di dj r agree floor }
{
    let pair = Pair { i: wi, j: wj };
    let q = divisor(floor, kernel::quad_coef(agree, di, dj, r));
    let delta = step(agree, gi, gj, q);
    if agree {
        pair.concur(delta)
    } else {
        pair.differ(delta)
    }
}

// The ceilings by place, and the mode, which says whether they hold or each position's own.
#[derive(Clone, Copy)]
pub struct Ceilings<'a> {
    pub places: &'a [f64],
    pub mode: Mode,
}

impl Ceilings<'_> {
    // The ceiling of position k in a step: that of its place, or where ceilings travel its own.
    #[tactic(auto, unfolding(crate::specs::Update::ceiling_in))]
    fn ceiling_at(&self, f: &[f64], n: usize, k: usize) -> f64
        requires { (k < n) × (n ≤ 512) × (7 * n ≤ length f.now) × (n ≤ length self.now.places.now) }
        ensures { result ≡ ceiling_in n self.now.mode self.now.places.now f.now k }
    {
        if modes::travels(self.mode) {
            f[3 * n + k]
        } else {
            self.places[k]
        }
    }

    // The weight of position k under its ceiling in a step.
    fn placed(&self, f: &[f64], n: usize, k: usize) -> Alpha
        requires { (k < n) × (n ≤ 512) × (7 * n ≤ length f.now) × (n ≤ length self.now.places.now) }
        ensures { result ≡ weight (get_or f.now (2 * n + k) nan) (ceiling_in n self.now.mode self.now.places.now f.now k) }
    {
        Alpha::from(f[2 * n + k], self.ceiling_at(f, n, k))
    }
}

// Whether a position with the record w, which takes the value x, counted as at upper.
#[tactic(auto, unfolding(crate::specs::Update::counted_upper))]
fn counted_upper(mode: Mode, w: Alpha, x: f64) -> bool
    ensures { result ≡ counted_upper mode w x }
{
    if modes::repaired(mode) {
        w.reached_upper()
    } else {
        Alpha { value: x, ..w }.reached_upper()
    }
}

// How many fixed gradients a turn of j reaches.
#[tactic(auto, unfolding(crate::specs::Update::j_reach))]
fn reach(mode: Mode, n: usize, active: usize) -> usize
    requires { active ≤ n }
    ensures { (result ≡ j_reach mode n active) × (result ≤ n) }
{
    if modes::repaired(mode) { n } else { active }
}

fn diagonal_at(f: &[f64], u: &[u64], p: Problem<'_>, k: usize) -> f64
    requires { (Indexed p.side p.n u.now) × (p.side ≤ p.n) × (7 * p.n ≤ length f.now) × (k < p.n) }
    ensures { result ≡ get_or f.now (5 * p.entry.n + kernel_index p.entry.n u.now k) nan }
{
    f[5 * p.n + p.index_at(u, k)]
}

// The clipped pair of positions i and j.
#[tactic(auto, unfolding(crate::specs::Update::pair_at))]
fn pair_at(
    f: &[f64],
    u: &[u64],
    y: &[u8],
    p: Problem<'_>,
    b: &Ceilings<'_>,
    i: usize,
    j: usize,
    floor: f64,
) -> Pair
    requires { (Ready (given p) (state f.now u.now y.now)) × (p.n ≤ length b.now.places.now) × (i < p.n) × (j < p.n) }
    ensures { result ≡ pair_at (given p.entry) b.now.places.now b.now.mode floor (state f.now u.now y.now) i j }
{
    let wi = b.placed(f, p.n, i);
    let wj = b.placed(f, p.n, j);
    let di = diagonal_at(f, u, p, i);
    let dj = diagonal_at(f, u, p, j);
    let r = p.distance(u, y, i, j);
    clipped_pair(wi, wj, f[i], f[j], di, dj, r, y[i] == y[j], floor)
}

// The first gradients, where the weights of i and j changed by xi and xj.
#[tactic(auto, unfolding(crate::specs::Update::shifted_to))]
fn shift(
    f: &mut [f64],
    u: &[u64],
    y: &[u8],
    p: Problem<'_>,
    i: usize,
    j: usize,
    xi: f64,
    xj: f64,
    active: usize,
)
    requires { (Ready (given p) (state f.old u.now y.now)) × (active ≤ p.n) × (i < p.n) × (j < p.n) }
    ensures { f.new ≡ shifted_to (given p.entry) (state f.old u.now y.now) i j xi xj active }
{
    let ci = p.index_at(u, i);
    let cj = p.index_at(u, j);
    let li = y[i];
    let lj = y[j];
    for k in 0..active {
        let di = p.pull(u, y, ci, li, k, xi);
        let dj = p.pull(u, y, cj, lj, k, xj);
        f[k] += di + dj;
    }
}

// Position k takes the value x and its ceiling. Where that turns whether it is at upper, the fixed gradient is told.
#[tactic(auto, unfolding(crate::specs::Update::settled, crate::specs::Update::stored, crate::specs::Update::turned_by))]
fn settle(
    f: &mut [f64],
    u: &[u64],
    y: &[u8],
    p: Problem<'_>,
    b: &Ceilings<'_>,
    k: usize,
    x: f64,
    count: usize,
)
    requires { (Ready (given p) (state f.old u.now y.now)) × (p.n ≤ length b.now.places.now) × (k < p.n) × (count ≤ p.n) }
    ensures { f.new ≡ settled (given p.entry) b.now.places.now b.now.mode (state f.old u.now y.now) k x count }
{
    let was = counted_upper(b.mode, state::alpha_at(f, p.n, k), x);
    let w = Alpha::from(x, b.ceiling_at(f, p.n, k));
    f[2 * p.n + k] = w.value;
    f[3 * p.n + k] = w.upper;
    if was == w.reached_upper() {
        return;
    }
    let by = kernel::signed(!was, w.upper);
    rows::add_row(f, u, y, p, p.n, by, k, 0, count);
}

#[tactic(auto, unfolding(crate::specs::Update::carried))]
fn carry(
    f: &mut [f64],
    u: &[u64],
    y: &[u8],
    p: Problem<'_>,
    b: &Ceilings<'_>,
    active: usize,
    i: usize,
    j: usize,
    q: Pair,
)
    requires { (Ready (given p) (state f.old u.now y.now)) × (p.n ≤ length b.now.places.now) × (active ≤ p.n) × (i < p.n) × (j < p.n) }
    ensures { f.new ≡ carried (given p.entry) b.now.places.now b.now.mode (state f.old u.now y.now) i j q active }
{
    let xi = q.i.value - f[2 * p.n + i];
    let xj = q.j.value - f[2 * p.n + j];
    shift(f, u, y, p, i, j, xi, xj, active);
    settle(f, u, y, p, b, i, q.i.value, p.n);
    settle(f, u, y, p, b, j, q.j.value, reach(b.mode, p.n, active));
}

// One step on positions i and j, with the first active positions' gradients.
#[tactic(auto, unfolding(crate::specs::Update::updated))]
pub fn update(
    f: &mut [f64],
    u: &[u64],
    y: &[u8],
    p: Problem<'_>,
    b: &Ceilings<'_>,
    active: usize,
    i: usize,
    j: usize,
    floor: f64,
)
    requires { (Ready (given p) (state f.old u.now y.now)) × (p.n ≤ length b.now.places.now) × (active ≤ p.n) × (i < p.n) × (j < p.n) }
    ensures { f.new ≡ updated (given p.entry) b.now.places.now b.now.mode floor (state f.old u.now y.now) i j active }
{
    let q = pair_at(f, u, y, p, b, i, j, floor);
    carry(f, u, y, p, b, active, i, j, q);
}
