// The rule's worked runs.
ghost use Rattle.std.specs.Prelude.{◌≤◌};

use answer::Answer;
use classification::Terms;
use judge::Refusal;
use std::fmt;
use std::fmt::Write;
use telling::room;
use telling::stdout::Stdout;
use telling::told::Told;
use tuning::Settings;

// ---- one call of an entry

// What a run writes to.
#[derive(Drop)]
struct Lent {
    crate_reading: [f64; 513],
    home: [f64; 513],
    floats: [f64; 3591],
    numbers: [u64; 1026],
    bytes: [u8; 513],
}

impl Lent {
    fn new() -> Lent {
        Lent {
            crate_reading: room::zeros(),
            home: room::zeros(),
            floats: room::zeros(),
            numbers: room::zeros(),
            bytes: room::zeros(),
        }
    }

    fn told(&self, outcome: Result<Answer, Refusal>, n: usize) -> Told<'_> {
        Told {
            outcome,
            crate_reading: &self.crate_reading,
            home: &self.home,
            n,
        }
    }
}

fn c(
    out: &mut Stdout,
    n: usize,
    m: &[u8],
    l: &[u8],
    cost: f64,
    shrinking: bool,
    budget: u64,
) -> fmt::Result {
    let mut to = Lent::new();
    let o = fit_c::fit_c(
        n,
        m,
        l,
        cost,
        cost,
        Settings {
            eps: 0.001,
            shrinking,
            budget,
        },
        &mut to.crate_reading,
        &mut to.home,
        &mut to.floats,
        &mut to.numbers,
        &mut to.bytes,
    );
    write!(out, "{}", to.told(o, n))
}

fn nu(out: &mut Stdout, m: &[u8], l: &[u8], nu: f64) -> fmt::Result {
    let mut to = Lent::new();
    let o = fit_nu::fit_nu(
        2,
        m,
        l,
        nu,
        Settings {
            eps: 0.001,
            shrinking: false,
            budget: 2,
        },
        &mut to.crate_reading,
        &mut to.home,
        &mut to.floats,
        &mut to.numbers,
        &mut to.bytes,
    );
    write!(out, "{}", to.told(o, 2))
}

fn one_class(out: &mut Stdout, m: &[u8], nu: f64) -> fmt::Result {
    let mut to = Lent::new();
    let o = fit_one_class::fit_one_class(
        2,
        m,
        nu,
        Settings {
            eps: 0.001,
            shrinking: false,
            budget: 2,
        },
        &mut to.crate_reading,
        &mut to.home,
        &mut to.floats,
        &mut to.numbers,
        &mut to.bytes,
    );
    write!(out, "{}", to.told(o, 2))
}

// No nu rule, eps 0, shrinking, budget 100, ceilings 100.
fn general(out: &mut Stdout, n: usize, m: &[u8], l: &[u8], terms: Terms<'_>) -> fmt::Result {
    let mut to = Lent::new();
    let o = general::general(
        n,
        m,
        l,
        terms,
        false,
        Settings {
            eps: 0.0,
            shrinking: true,
            budget: 100,
        },
        &mut to.crate_reading,
        &mut to.home,
        &mut to.floats,
        &mut to.numbers,
        &mut to.bytes,
    );
    write!(out, "{}", to.told(o, n))
}

// ---- identity matrix, two samples

// The identity matrix of n samples, where N is 8·n·n.
fn identity<const N: usize>(n: usize) -> [u8; N]
    requires { (n ≤ 513) × (N ≤ 2105352) }
{
    let mut m = room::zeros();
    room::identity(&mut m, n);
    m
}

fn pair(out: &mut Stdout, l: &[u8], cost: f64, shrinking: bool, budget: u64) -> fmt::Result {
    c(out, 2, &identity::<32>(2), l, cost, shrinking, budget)
}

fn each_pair(out: &mut Stdout, shrinking: bool) -> fmt::Result {
    writeln!(out, "identity matrix, n 2, labels 1 0, C 1 and 1, budget 2")?;
    pair(out, &[1, 0], 1.0, shrinking, 2)?;
    writeln!(out, "identity matrix, n 2, labels 1 0, C 1 and 1, budget 1")?;
    pair(out, &[1, 0], 1.0, shrinking, 1)?;
    writeln!(
        out,
        "identity matrix, n 2, labels 1 0, C 0.5 and 0.5, budget 2"
    )?;
    pair(out, &[1, 0], 0.5, shrinking, 2)?;
    writeln!(
        out,
        "identity matrix, n 2, all labels 1, C 1 and 1, budget 2"
    )?;
    pair(out, &[1, 1], 1.0, shrinking, 2)
}

pub fn pairs(out: &mut Stdout) -> fmt::Result {
    writeln!(out, "-- shrinking off")?;
    each_pair(out, false)?;
    writeln!(out, "-- shrinking on")?;
    each_pair(out, true)
}

// ---- three free weights and a tail at the ceiling

fn tail_of_five(out: &mut Stdout) -> fmt::Result {
    writeln!(out, "general, n 8, a tail of five at the ceiling")?;
    general(
        out,
        8,
        &identity::<512>(8),
        &[1; 8],
        Terms {
            ceilings: &[100.0; 8],
            alphas: &[50.0, 50.0, 50.0, 100.0, 100.0, 100.0, 100.0, 100.0],
            linear: &[0.0, 1.0, 3.0, -1000.0, -1000.0, -1000.0, -1000.0, -1000.0],
        },
    )
}

fn tail_of_four(out: &mut Stdout) -> fmt::Result {
    writeln!(out, "general, n 7, a tail of four at the ceiling")?;
    general(
        out,
        7,
        &identity::<392>(7),
        &[1; 7],
        Terms {
            ceilings: &[100.0; 7],
            alphas: &[50.0, 50.0, 50.0, 100.0, 100.0, 100.0, 100.0],
            linear: &[0.0, 1.0, 3.0, -1000.0, -1000.0, -1000.0, -1000.0],
        },
    )
}

pub fn tails(out: &mut Stdout) -> fmt::Result {
    writeln!(out, "-- the active count")?;
    tail_of_five(out)?;
    tail_of_four(out)
}

// ---- the ends of what is accepted

// n samples with labels 1 0 1 0 .., where M is 8·n·n.
fn size<const N: usize, const M: usize>(out: &mut Stdout) -> fmt::Result
    requires { (N ≤ 513) × (M ≤ 2105352) }
{
    writeln!(out, "identity matrix, n {N}, labels 1 0 1 0 ..")?;
    let mut l = [0u8; N];
    room::alternate(&mut l);
    // filled where it is lent: handed on by `identity`, its two megabytes would stand on the stack twice
    let mut m: [u8; M] = room::zeros();
    room::identity(&mut m, N);
    c(out, N, &m, &l, 1.0, false, 1000)
}

pub fn sizes(out: &mut Stdout) -> fmt::Result {
    writeln!(out, "-- the number of samples")?;
    size::<512, 2097152>(out)?;
    size::<513, 2105352>(out)
}

// The last entry of a matrix of two samples has the pattern w.
fn entry(out: &mut Stdout, w: u64) -> fmt::Result {
    let mut m = identity::<32>(2);
    room::place(&mut m, 24, w);
    c(out, 2, &m, &[1, 0], 1.0, false, 2)
}

pub fn entries(out: &mut Stdout) -> fmt::Result {
    writeln!(out, "-- a kernel entry\n2^1000")?;
    entry(out, 0x7e70_0000_0000_0000)?;
    writeln!(out, "-2^1000")?;
    entry(out, 0xfe70_0000_0000_0000)?;
    writeln!(out, "the next f64 above 2^1000")?;
    entry(out, 0x7e70_0000_0000_0001)?;
    writeln!(out, "the next f64 below -2^1000")?;
    entry(out, 0xfe70_0000_0000_0001)
}

pub fn shares(out: &mut Stdout) -> fmt::Result {
    let m = identity::<32>(2);
    let above = wire::float_of(0x3ff0_0000_0000_0001);
    writeln!(out, "-- nu\nnu entry, nu 1")?;
    nu(out, &m, &[1, 0], 1.0)?;
    writeln!(out, "nu entry, the next f64 above 1")?;
    nu(out, &m, &[1, 0], above)?;
    writeln!(out, "one-class entry, nu 1")?;
    one_class(out, &m, 1.0)?;
    writeln!(out, "one-class entry, the next f64 above 1")?;
    one_class(out, &m, above)
}
