// The lent kernel matrix, and what a run is given with it.
#![tactic(auto)]

ghost use Rattle.std.specs.Prelude.{Bool, cond, ◌≡◌, ◌≤◌, ◌<◌, length};
ghost use Rattle.std.specs.Float.{binary64};
ghost use Rattle.std.specs.Float.Ieee.{neg, mul};
ghost use Rattle.alpha.specs.Weight.{two};
ghost use Rattle.kernel.specs.Curvature.{curved};
ghost use Rattle.kernel.specs.Matrix.{entry_at, Matrix};
ghost use Rattle.kernel.specs.Row.{kernel_index, Indexed, Readable, alike_of, signed_of, reach_of, row_at};

// Whose kernel it is: with two classes an entry between different labels is negated.
#[derive(Clone, Copy)]
pub enum Kind {
    TwoClass,
    OneClass,
}

impl Kind {
    // Whether an entry between labels a and b keeps its sign.
    pub fn alike(self, a: u8, b: u8) -> bool
        ensures { result ≡ alike_of self a b }
    {
        match self {
            Kind::TwoClass => a == b,
            Kind::OneClass => true,
        }
    }
}

// The entry of column c, row r, of a matrix of side·side entries.
pub fn entry(m: &[u8], side: usize, c: usize, r: usize) -> f64
    requires { (Matrix side m.now) × (c < side) × (r < side) }
    ensures { result ≡ entry_at side m.now c r }
{
    f64::from_bits(wire::word_at(m, 8 * (c * side + r)))
}

pub fn signed(alike: bool, x: f64) -> f64
    ensures { result ≡ signed_of alike x }
{
    if alike { x } else { -x }
}

// What a run is given: n positions over a matrix of side·side entries.
#[derive(Clone, Copy)]
pub struct Problem<'a> {
    pub n: usize,
    pub side: usize,
    pub kind: Kind,
    pub matrix: &'a [u8],
}

impl Problem<'_> {
    // The entry of column c, row r.
    pub fn entry(&self, c: usize, r: usize) -> f64
        requires { (Matrix self.now.side self.now.matrix.now) × (c < self.now.side) × (r < self.now.side) }
        ensures { result ≡ entry_at self.now.side self.now.matrix.now c r }
    {
        entry(self.matrix, self.side, c, r)
    }

    // The kernel index of position k; u are the lent numbers.
    pub fn index_at(&self, u: &[u64], k: usize) -> usize
        requires { (Indexed self.now.side self.now.n u.now) × (k < self.now.n) }
        ensures { (result ≡ kernel_index self.now.n u.now k) × (result < self.now.side) }
    {
        u[self.n + k] as usize
    }

    // An entry of the row of kernel index c and label a, at position k; y are the labels. A loop over k asks for c and a once.
    pub fn reach(&self, u: &[u64], y: &[u8], c: usize, a: u8, k: usize) -> f64
        requires { (Readable self.now u.now y.now) × (c < self.now.side) × (k < self.now.n) }
        ensures { result ≡ reach_of self.now.kind self.now.side self.now.matrix.now c a self.now.n u.now y.now k }
    {
        let r = self.index_at(u, k);
        signed(self.kind.alike(a, y[k]), self.entry(c, r))
    }

    // x times an entry of such a row. The sign goes to x, which is the same all along the loop.
    #[tactic(auto, using(crate::proofs::Laws::sign_moves))]
    pub fn pull(&self, u: &[u64], y: &[u8], c: usize, a: u8, k: usize, x: f64) -> f64
        requires { (Readable self.now u.now y.now) × (c < self.now.side) × (k < self.now.n) }
        ensures { result ≡ mul binary64 (reach_of self.now.kind self.now.side self.now.matrix.now c a self.now.n u.now y.now k) x }
    {
        let r = self.index_at(u, k);
        self.entry(c, r) * signed(self.kind.alike(a, y[k]), x)
    }

    // Row i at position k.
    #[tactic(auto, unfolding(crate::specs::Row::row_at))]
    pub fn distance(&self, u: &[u64], y: &[u8], i: usize, k: usize) -> f64
        requires { (Readable self.now u.now y.now) × (i < self.now.n) × (k < self.now.n) }
        ensures { result ≡ row_at self.now.kind self.now.side self.now.matrix.now self.now.n u.now y.now i k }
    {
        self.reach(u, y, self.index_at(u, i), y[i], k)
    }
}

fn twice(agree: bool) -> f64
    ensures { result ≡ cond agree (neg two) two }
{
    if agree { -2.0 } else { 2.0 }
}

// The curvature of a pair before the floor: di and dj are the diagonals, r is the entry of row i at j.
#[tactic(auto, using(crate::proofs::Laws::curved_once))]
pub fn quad_coef(agree: bool, di: f64, dj: f64, r: f64) -> f64
    ensures { result ≡ curved agree di dj r }
{
    di + dj + twice(agree) * r
}
