// Each entry for a host that lends no scratch: after refusals 1 and 2, with working room of its own.
#![tactic(auto)]

ghost use Rattle.std.specs.Prelude.{◌≡◌, ◌*◌, ◌≤◌, length};
ghost use Rattle.classification.specs.Entries.{general_tuned_sized, fit_c_tuned_sized, fit_nu_tuned_sized, fit_one_class_tuned_sized};
ghost use Rattle.hosted.specs.Hosted.{floats_of, room, Handed, handed, delivered};
ghost use Rattle.judge.specs.Sizes.{Room};
ghost use Rattle.retired.specs.Entry.{retired_tuned_sized};

use classification::Terms;
use tuning::{Settings, Tuning};

fn general_roomed(
    n: usize,
    m: &[u8],
    l: &[u8],
    terms: Terms<'_>,
    nurule: bool,
    settings: Settings,
    t: Tuning,
    cr: &mut [u8],
    h: &mut [u8],
    answer: &mut [u8],
) -> u64
    requires { (Room n (length m.now) 512 512 3584 1024 512) × (n ≤ length l.now) × (n ≤ length terms.ceilings.now) × (n ≤ length terms.alphas.now) × (n ≤ length terms.linear.now) × (8 * n ≤ length cr.old) × (8 * n ≤ length h.old) × (72 ≤ length answer.old) }
    ensures { ◌≡◌ {A = Handed} (handed result cr.new h.new answer.new)
        (delivered n (general_tuned_sized t n m.now l.now terms.entry.ceilings.now terms.entry.alphas.now terms.entry.linear.now nurule settings.eps settings.shrinking settings.budget room) cr.old h.old answer.old) }
{
    let mut c2 = hosted::places();
    let mut h2 = hosted::places();
    let mut f = hosted::floats();
    let mut u = hosted::numbers();
    let mut y = hosted::bytes();
    let o = general::sized(
        n, m, l, terms, nurule, settings, t, &mut c2, &mut h2, &mut f, &mut u, &mut y,
    );
    hosted::deliver(cr, h, answer, &c2, &h2, n, o)
}

// Ceilings, alphas and linear terms are read from their bytes.
pub fn general(
    n: usize,
    m: &[u8],
    l: &[u8],
    c: &[u8],
    a: &[u8],
    p: &[u8],
    nurule: bool,
    settings: Settings,
    t: Tuning,
    cr: &mut [u8],
    h: &mut [u8],
    answer: &mut [u8],
) -> u64
    requires { (Room n (length m.now) 512 512 3584 1024 512) × (n ≤ length l.now) × (8 * n ≤ length c.now) × (8 * n ≤ length a.now) × (8 * n ≤ length p.now) × (8 * n ≤ length cr.old) × (8 * n ≤ length h.old) × (72 ≤ length answer.old) }
    ensures { ◌≡◌ {A = Handed} (handed result cr.new h.new answer.new)
        (delivered n (general_tuned_sized t n m.now l.now (floats_of c.now n) (floats_of a.now n) (floats_of p.now n) nurule settings.eps settings.shrinking settings.budget room) cr.old h.old answer.old) }
{
    let mut dc = hosted::places();
    let mut da = hosted::places();
    let mut dp = hosted::places();
    hosted::decode(&mut dc, c, n);
    hosted::decode(&mut da, a, n);
    hosted::decode(&mut dp, p, n);
    let terms = Terms {
        ceilings: &dc,
        alphas: &da,
        linear: &dp,
    };
    general_roomed(n, m, l, terms, nurule, settings, t, cr, h, answer)
}

fn retired_roomed(
    n: usize,
    m: &[u8],
    l: &[u8],
    terms: Terms<'_>,
    r: &[u8],
    nurule: bool,
    settings: Settings,
    t: Tuning,
    cr: &mut [u8],
    h: &mut [u8],
    answer: &mut [u8],
) -> u64
    requires { (Room n (length m.now) 512 512 3584 1024 512) × (n ≤ length l.now) × (n ≤ length terms.ceilings.now) × (n ≤ length terms.alphas.now) × (n ≤ length terms.linear.now) × (n ≤ length r.now) × (8 * n ≤ length cr.old) × (8 * n ≤ length h.old) × (72 ≤ length answer.old) }
    ensures { ◌≡◌ {A = Handed} (handed result cr.new h.new answer.new)
        (delivered n (retired_tuned_sized t n m.now l.now terms.entry.ceilings.now terms.entry.alphas.now terms.entry.linear.now r.now nurule settings.eps settings.shrinking settings.budget room) cr.old h.old answer.old) }
{
    let mut c2 = hosted::places();
    let mut h2 = hosted::places();
    let mut f = hosted::floats();
    let mut u = hosted::numbers();
    let mut y = hosted::bytes();
    let o = fit_retired::sized(
        n, m, l, terms, r, nurule, settings, t, &mut c2, &mut h2, &mut f, &mut u, &mut y,
    );
    hosted::deliver(cr, h, answer, &c2, &h2, n, o)
}

// The same with retired bytes r.
pub fn retired(
    n: usize,
    m: &[u8],
    l: &[u8],
    c: &[u8],
    a: &[u8],
    p: &[u8],
    r: &[u8],
    nurule: bool,
    settings: Settings,
    t: Tuning,
    cr: &mut [u8],
    h: &mut [u8],
    answer: &mut [u8],
) -> u64
    requires { (Room n (length m.now) 512 512 3584 1024 512) × (n ≤ length l.now) × (8 * n ≤ length c.now) × (8 * n ≤ length a.now) × (8 * n ≤ length p.now) × (n ≤ length r.now) × (8 * n ≤ length cr.old) × (8 * n ≤ length h.old) × (72 ≤ length answer.old) }
    ensures { ◌≡◌ {A = Handed} (handed result cr.new h.new answer.new)
        (delivered n (retired_tuned_sized t n m.now l.now (floats_of c.now n) (floats_of a.now n) (floats_of p.now n) r.now nurule settings.eps settings.shrinking settings.budget room) cr.old h.old answer.old) }
{
    let mut ceilings = hosted::places();
    let mut alphas = hosted::places();
    let mut linear = hosted::places();
    hosted::decode(&mut ceilings, c, n);
    hosted::decode(&mut alphas, a, n);
    hosted::decode(&mut linear, p, n);
    let terms = Terms {
        ceilings: &ceilings,
        alphas: &alphas,
        linear: &linear,
    };
    retired_roomed(n, m, l, terms, r, nurule, settings, t, cr, h, answer)
}

// With shrinking off no sample moves, and the training needs no order table.
pub fn c(
    n: usize,
    m: &[u8],
    l: &[u8],
    cpos: f64,
    cneg: f64,
    settings: Settings,
    t: Tuning,
    cr: &mut [u8],
    h: &mut [u8],
    answer: &mut [u8],
) -> u64
    requires { (Room n (length m.now) 512 512 3584 1024 512) × (n ≤ length l.now) × (8 * n ≤ length cr.old) × (8 * n ≤ length h.old) × (72 ≤ length answer.old) }
    ensures { ◌≡◌ {A = Handed} (handed result cr.new h.new answer.new)
        (delivered n (fit_c_tuned_sized t n m.now l.now cpos cneg settings.eps settings.shrinking settings.budget room) cr.old h.old answer.old) }
{
    if settings.shrinking {
        return served_ordered::c(n, m, l, cpos, cneg, settings, t, cr, h, answer);
    }
    served_still::c(n, m, l, cpos, cneg, settings, t, cr, h, answer)
}

pub fn nu(
    n: usize,
    m: &[u8],
    l: &[u8],
    nu: f64,
    settings: Settings,
    t: Tuning,
    cr: &mut [u8],
    h: &mut [u8],
    answer: &mut [u8],
) -> u64
    requires { (Room n (length m.now) 512 512 3584 1024 512) × (n ≤ length l.now) × (8 * n ≤ length cr.old) × (8 * n ≤ length h.old) × (72 ≤ length answer.old) }
    ensures { ◌≡◌ {A = Handed} (handed result cr.new h.new answer.new)
        (delivered n (fit_nu_tuned_sized t n m.now l.now nu settings.eps settings.shrinking settings.budget room) cr.old h.old answer.old) }
{
    if settings.shrinking {
        return served_ordered::nu(n, m, l, nu, settings, t, cr, h, answer);
    }
    served_still::nu(n, m, l, nu, settings, t, cr, h, answer)
}

pub fn one_class(
    n: usize,
    m: &[u8],
    nu: f64,
    settings: Settings,
    t: Tuning,
    cr: &mut [u8],
    h: &mut [u8],
    answer: &mut [u8],
) -> u64
    requires { (Room n (length m.now) 512 512 3584 1024 512) × (8 * n ≤ length cr.old) × (8 * n ≤ length h.old) × (72 ≤ length answer.old) }
    ensures { ◌≡◌ {A = Handed} (handed result cr.new h.new answer.new)
        (delivered n (fit_one_class_tuned_sized t n m.now nu settings.eps settings.shrinking settings.budget room) cr.old h.old answer.old) }
{
    if settings.shrinking {
        return served_ordered::one_class(n, m, nu, settings, t, cr, h, answer);
    }
    served_still::one_class(n, m, nu, settings, t, cr, h, answer)
}
