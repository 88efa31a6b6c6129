// The C, nu and one-class entries with shrinking off, whatever the settings say of it, for a host that lends no scratch: after refusals 1 and 2, without an order table, with working room of their own.
#![tactic(auto)]

ghost use Rattle.std.specs.Prelude.{◌≡◌, false, ◌*◌, ◌≤◌, length};
ghost use Rattle.classification.specs.Entries.{fit_c_tuned_sized, fit_nu_tuned_sized, fit_one_class_tuned_sized};
ghost use Rattle.hosted.specs.Hosted.{room, Handed, handed, delivered};
ghost use Rattle.judge.specs.Sizes.{Room};

use tuning::{Settings, Tuning};

pub fn c(
    n: usize,
    m: &[u8],
    l: &[u8],
    cpos: f64,
    cneg: f64,
    settings: Settings,
    t: Tuning,
    cr: &mut [u8],
    h: &mut [u8],
    answer: &mut [u8],
) -> u64
    requires { (Room n (length m.now) 512 512 3584 1024 512) × (n ≤ length l.now) × (8 * n ≤ length cr.old) × (8 * n ≤ length h.old) × (72 ≤ length answer.old) }
    ensures { ◌≡◌ {A = Handed} (handed result cr.new h.new answer.new)
        (delivered n (fit_c_tuned_sized t n m.now l.now cpos cneg settings.eps false settings.budget room) cr.old h.old answer.old) }
{
    let mut r = hosted::places();
    let mut f = hosted::sheet();
    let mut y = hosted::bytes();
    let settings = Settings {
        shrinking: false,
        ..settings
    };
    let o = still_c::sized(n, m, l, cpos, cneg, settings, t, &mut r, &mut f, &mut y);
    hosted::deliver(cr, h, answer, &r, &r, n, o)
}

pub fn nu(
    n: usize,
    m: &[u8],
    l: &[u8],
    nu: f64,
    settings: Settings,
    t: Tuning,
    cr: &mut [u8],
    h: &mut [u8],
    answer: &mut [u8],
) -> u64
    requires { (Room n (length m.now) 512 512 3584 1024 512) × (n ≤ length l.now) × (8 * n ≤ length cr.old) × (8 * n ≤ length h.old) × (72 ≤ length answer.old) }
    ensures { ◌≡◌ {A = Handed} (handed result cr.new h.new answer.new)
        (delivered n (fit_nu_tuned_sized t n m.now l.now nu settings.eps false settings.budget room) cr.old h.old answer.old) }
{
    let mut r = hosted::places();
    let mut f = hosted::sheet();
    let mut y = hosted::bytes();
    let settings = Settings {
        shrinking: false,
        ..settings
    };
    let o = still_nu::sized(n, m, l, nu, settings, t, &mut r, &mut f, &mut y);
    hosted::deliver(cr, h, answer, &r, &r, n, o)
}

pub fn one_class(
    n: usize,
    m: &[u8],
    nu: f64,
    settings: Settings,
    t: Tuning,
    cr: &mut [u8],
    h: &mut [u8],
    answer: &mut [u8],
) -> u64
    requires { (Room n (length m.now) 512 512 3584 1024 512) × (8 * n ≤ length cr.old) × (8 * n ≤ length h.old) × (72 ≤ length answer.old) }
    ensures { ◌≡◌ {A = Handed} (handed result cr.new h.new answer.new)
        (delivered n (fit_one_class_tuned_sized t n m.now nu settings.eps false settings.budget room) cr.old h.old answer.old) }
{
    let mut r = hosted::places();
    let mut f = hosted::sheet();
    let mut y = hosted::bytes();
    let settings = Settings {
        shrinking: false,
        ..settings
    };
    let o = still_one_class::sized(n, m, nu, settings, t, &mut r, &mut f, &mut y);
    hosted::deliver(cr, h, answer, &r, &r, n, o)
}
