// A record's call, made with lists of the recorded lengths that are marked before it.
use crate::compared::{Differences, Lent};
use answer::Answer;
use classification::Terms;
use judge::Refusal;
use recorded::entry::Entry;
use recorded::layout;
use tuning::Settings;

fn labels<'a>(b: &'a [u8]) -> &'a [u8] {
    layout::part(b, layout::labels_at(b), layout::count(b, 10, 1024))
}

fn retired<'a>(b: &'a [u8]) -> &'a [u8] {
    let at = layout::retired_at(b);
    layout::part(b, at + 1, layout::count(b, at, 1024))
}

fn nu_rule(b: &[u8]) -> bool {
    layout::word(b, 3) % 2 == 1
}

fn shrinking(b: &[u8]) -> bool {
    layout::word(b, 3) / 2 % 2 == 1
}

// What a call may write to, at the recorded lengths.
struct Room<'a> {
    crate_reading: &'a mut [f64],
    home: &'a mut [f64],
    floats: &'a mut [f64],
    numbers: &'a mut [u64],
    bytes: &'a mut [u8],
}

// Calls the entry that record b names.
fn called(b: &[u8], m: &[u8], terms: Terms<'_>, room: Room<'_>) -> Result<Answer, Refusal> {
    let Room {
        crate_reading: cr,
        home: h,
        floats: f,
        numbers: u,
        bytes: y,
    } = room;
    let n = layout::word(b, 2) as usize;
    let settings = Settings {
        eps: layout::float(b, 5),
        shrinking: shrinking(b),
        budget: layout::word(b, 4),
    };
    let nu = layout::float(b, 8);
    let l = labels(b);
    let rule = nu_rule(b);
    match layout::entry(b) {
        Ok(Entry::General) => general::general(n, m, l, terms, rule, settings, cr, h, f, u, y),
        Ok(Entry::C) => {
            let cpos = layout::float(b, 6);
            let cneg = layout::float(b, 7);
            fit_c::fit_c(n, m, l, cpos, cneg, settings, cr, h, f, u, y)
        }
        Ok(Entry::Nu) => fit_nu::fit_nu(n, m, l, nu, settings, cr, h, f, u, y),
        Ok(Entry::OneClass) => fit_one_class::fit_one_class(n, m, nu, settings, cr, h, f, u, y),
        Ok(Entry::Retired) | Err(_) => {
            let r = retired(b);
            fit_retired::fit_retired(n, m, l, terms, r, rule, settings, cr, h, f, u, y)
        }
    }
}

fn tried_with(k: u64, b: &[u8], m: &[u8], terms: Terms<'_>) -> Differences {
    let mut lent = Lent::marked();
    let o = called(
        b,
        m,
        terms,
        Room {
            crate_reading: &mut lent.crate_reading[..layout::count(b, 14, 1024)],
            home: &mut lent.home[..layout::count(b, 15, 1024)],
            floats: &mut lent.floats[..layout::count(b, 16, 4096)],
            numbers: &mut lent.numbers[..layout::count(b, 17, 2048)],
            bytes: &mut lent.bytes[..layout::count(b, 18, 1024)],
        },
    );
    Differences::between(k, b, o, &lent)
}

// Calls as record b says, the k-th, and answers what differs.
pub fn tried(k: u64, b: &[u8], m: &[u8]) -> Differences {
    let lc = layout::count(b, 11, 1024);
    let la = layout::count(b, 12, 1024);
    let lp = layout::count(b, 13, 1024);
    let c = layout::floats(b, layout::ceilings_at(b), lc);
    let a = layout::floats(b, layout::alphas_at(b), la);
    let p = layout::floats(b, layout::linear_at(b), lp);
    let terms = Terms {
        ceilings: layout::first(&c, lc),
        alphas: layout::first(&a, la),
        linear: layout::first(&p, lp),
    };
    tried_with(k, b, m, terms)
}
