// The C, nu and one-class entries with shrinking on, whatever the settings say of it, for a host that lends no scratch: after refusals 1 and 2, with working room of their own.
#![tactic(auto)]

ghost use Rattle.std.specs.Prelude.{◌≡◌, true, ◌*◌, ◌≤◌, length};
ghost use Rattle.classification.specs.Entries.{fit_c_tuned_sized, fit_nu_tuned_sized, fit_one_class_tuned_sized};
ghost use Rattle.hosted.specs.Hosted.{room, Handed, handed, delivered};
ghost use Rattle.judge.specs.Sizes.{Room};

use tuning::{Settings, Tuning};

pub fn c(
    n: usize,
    m: &[u8],
    l: &[u8],
    cpos: f64,
    cneg: f64,
    settings: Settings,
    t: Tuning,
    cr: &mut [u8],
    h: &mut [u8],
    answer: &mut [u8],
) -> u64
    requires { (Room n (length m.now) 512 512 3584 1024 512) × (n ≤ length l.now) × (8 * n ≤ length cr.old) × (8 * n ≤ length h.old) × (72 ≤ length answer.old) }
    ensures { ◌≡◌ {A = Handed} (handed result cr.new h.new answer.new)
        (delivered n (fit_c_tuned_sized t n m.now l.now cpos cneg settings.eps true settings.budget room) cr.old h.old answer.old) }
{
    let mut c2 = hosted::places();
    let mut h2 = hosted::places();
    let mut f = hosted::floats();
    let mut u = hosted::numbers();
    let mut y = hosted::bytes();
    let settings = Settings {
        shrinking: true,
        ..settings
    };
    let o = fit_c::sized(
        n, m, l, cpos, cneg, settings, t, &mut c2, &mut h2, &mut f, &mut u, &mut y,
    );
    hosted::deliver(cr, h, answer, &c2, &h2, n, o)
}

pub fn nu(
    n: usize,
    m: &[u8],
    l: &[u8],
    nu: f64,
    settings: Settings,
    t: Tuning,
    cr: &mut [u8],
    h: &mut [u8],
    answer: &mut [u8],
) -> u64
    requires { (Room n (length m.now) 512 512 3584 1024 512) × (n ≤ length l.now) × (8 * n ≤ length cr.old) × (8 * n ≤ length h.old) × (72 ≤ length answer.old) }
    ensures { ◌≡◌ {A = Handed} (handed result cr.new h.new answer.new)
        (delivered n (fit_nu_tuned_sized t n m.now l.now nu settings.eps true settings.budget room) cr.old h.old answer.old) }
{
    let mut c2 = hosted::places();
    let mut h2 = hosted::places();
    let mut f = hosted::floats();
    let mut u = hosted::numbers();
    let mut y = hosted::bytes();
    let settings = Settings {
        shrinking: true,
        ..settings
    };
    let o = fit_nu::sized(
        n, m, l, nu, settings, t, &mut c2, &mut h2, &mut f, &mut u, &mut y,
    );
    hosted::deliver(cr, h, answer, &c2, &h2, n, o)
}

pub fn one_class(
    n: usize,
    m: &[u8],
    nu: f64,
    settings: Settings,
    t: Tuning,
    cr: &mut [u8],
    h: &mut [u8],
    answer: &mut [u8],
) -> u64
    requires { (Room n (length m.now) 512 512 3584 1024 512) × (8 * n ≤ length cr.old) × (8 * n ≤ length h.old) × (72 ≤ length answer.old) }
    ensures { ◌≡◌ {A = Handed} (handed result cr.new h.new answer.new)
        (delivered n (fit_one_class_tuned_sized t n m.now nu settings.eps true settings.budget room) cr.old h.old answer.old) }
{
    let mut c2 = hosted::places();
    let mut h2 = hosted::places();
    let mut f = hosted::floats();
    let mut u = hosted::numbers();
    let mut y = hosted::bytes();
    let settings = Settings {
        shrinking: true,
        ..settings
    };
    let o = fit_one_class::sized(
        n, m, nu, settings, t, &mut c2, &mut h2, &mut f, &mut u, &mut y,
    );
    hosted::deliver(cr, h, answer, &c2, &h2, n, o)
}
