// The two readings of a trained run's weights.
#![tactic(auto)]

ghost use Rattle.std.specs.Prelude.{◌≡◌, ◌+◌, ◌*◌, ◌≤◌, ◌<◌, length, take};
ghost use Rattle.readings.specs.Order.{NamesSamples, crate_reading, home_reading, weight_in};
ghost use Rattle.readings.specs.Shown.{shown_of};

// The crate's reading, or the home reading.
#[derive(Clone, Copy, Debug, PartialEq, Eq)]
pub enum Reading {
    Crate,
    Home,
}

// The first n places of s, and all of it where it is shorter.
fn prefix<'a>(s: &'a [f64], n: usize) -> &'a [f64]
    ensures { result.now ≡ take n s.now }
{
    if n < s.len() { &s[..n] } else { s }
}

// The first n places of one of the two lent lists, as a part of it.
pub fn shown<'a>(reading: &'a [f64], home: &'a [f64], which: Reading, n: usize) -> &'a [f64]
    ensures { result.now ≡ shown_of which n reading.now home.now }
{
    match which {
        Reading::Crate => prefix(reading, n),
        Reading::Home => prefix(home, n),
    }
}

// The crate's reading: place i of the result gets the weight at position u[i].
#[tactic(auto, unfolding(crate::specs::Order::gathered))]
pub fn read_crate(res: &mut [f64], f: &[f64], u: &[u64], n: usize)
    requires { (n ≤ 512) × (n ≤ length res.old) × (7 * n ≤ length f.now) × (NamesSamples n u.now) }
    ensures { res.new ≡ crate_reading n u.now (weight_in n f.now) res.old }
{
    for (i, &at) in u[..n].iter().enumerate() {
        res[i] = f[2 * n + at as usize];
    }
}

// The home reading: place u[k] of the result gets the weight at position k.
pub fn read_home(res: &mut [f64], f: &[f64], u: &[u64], n: usize)
    requires { (n ≤ 512) × (n ≤ length res.old) × (7 * n ≤ length f.now) × (NamesSamples n u.now) }
    ensures { res.new ≡ home_reading n u.now (weight_in n f.now) res.old }
{
    for (k, &home) in u[..n].iter().enumerate() {
        res[home as usize] = f[2 * n + k];
    }
}
