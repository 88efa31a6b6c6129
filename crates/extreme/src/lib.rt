// A running extreme: the best value so far, and who holds it. Each function weighs one more candidate.
#![tactic(auto)]

ghost use Rattle.std.specs.Prelude.{cond, ◌≡◌};
ghost use Rattle.extreme.specs.Best.{nobody, held, weighed, at_least, above, at_most};
ghost use Rattle.extreme.specs.Racing.{below, racing, raced};

#[derive(Clone, Copy)]
pub struct Extreme {
    pub value: f64,
    pub holder: Option<usize>,
}

// The same without an Option: which place stands for nobody, its owner says. An enum of Option's shape cost the loop over the second
// a dozen instructions for each position (docs/DECISIONS.md, 23).
#[derive(Clone, Copy)]
pub struct Race {
    pub value: f64,
    pub at: usize,
}

// Nobody holds it yet.
pub fn nobody(start: f64) -> Extreme
    ensures { result ≡ nobody start }
{
    Extreme {
        value: start,
        holder: None,
    }
}

fn held(v: f64, k: usize) -> Extreme
    ensures { result ≡ held v k }
{
    Extreme {
        value: v,
        holder: Some(k),
    }
}

// The greatest, the last of equals.
pub fn raised(b: Extreme, may: bool, k: usize, v: f64) -> Extreme
    ensures { result ≡ weighed at_least may k v b }
{
    either(may & (v >= b.value), held(v, k), b)
}

// The greatest, the first of equals.
pub fn lifted(b: Extreme, may: bool, k: usize, v: f64) -> Extreme
    ensures { result ≡ weighed above may k v b }
{
    either(may & (v > b.value), held(v, k), b)
}

// One of two. A contract knows it after the call, where an `if` in its place would leave two cases.
pub fn either<T: Copy>(first: bool, a: T, b: T) -> T
    ensures { result ≡ cond first a b }
{
    if first { a } else { b }
}

// The least, the last of equals, in two selections.
#[tactic(auto, unfolding(crate::specs::Racing::raced))]
pub fn behind(r: Race, k: usize, v: f64) -> Race
    ensures { result ≡ raced below at_most k v r }
{
    Race {
        value: either(v < r.value, v, r.value),
        at: either(v <= r.value, k, r.at),
    }
}

// Place and value go to candidate k where it takes them.
pub fn taken(r: Race, takes: bool, k: usize, v: f64) -> Race
    ensures { result ≡ racing (cond takes v r.value) (cond takes k r.at) }
{
    Race {
        value: either(takes, v, r.value),
        at: either(takes, k, r.at),
    }
}
