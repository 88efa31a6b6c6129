// The tuned C functions' bodies: an entry under a tuning t of eight-byte words, with an answer of 128 bytes.
#![tactic(auto)]

ghost use Rattle.std.specs.Prelude.{◌≡◌};
ghost use Rattle.hosted.specs.Hosted.{Handed, handed};
ghost use Rattle.wide.specs.Wide.{general_tuned_host, c_tuned_host, nu_tuned_host, one_class_tuned_host};

use tuning::Settings;

#[tactic(auto, using(hosted::proofs::Serves::serves, hosted::proofs::Serves::wide_right, hosted::proofs::Serves::widened_by, hosted::proofs::Serves::lists_long), unfolding(crate::specs::Wide::general_tuned_host, hosted::specs::Hosted::hosted_wide))]
pub fn general(
    n: usize,
    m: &[u8],
    l: &[u8],
    c: &[u8],
    a: &[u8],
    p: &[u8],
    nurule: u8,
    eps: u64,
    shrinking: u8,
    budget: u64,
    t: &[u8],
    cr: &mut [u8],
    h: &mut [u8],
    answer: &mut [u8],
) -> u64
    ensures { ◌≡◌ {A = Handed} (handed result cr.new h.new answer.new)
        (general_tuned_host n m.now l.now c.now a.now p.now nurule eps shrinking budget t.now cr.old h.old answer.old) }
{
    let lists = (l.len() == n)
        & hosted::are_floats(n, c.len())
        & hosted::are_floats(n, a.len())
        & hosted::are_floats(n, p.len())
        & hosted::is_tuning(t)
        & (128 <= answer.len());
    if let Err(refusal) = hosted::sized(n, lists, m.len(), cr.len(), h.len(), answer.len()) {
        return hosted::turn_away_wide(answer, refusal);
    }
    let tune = hosted::tuning_of(t);
    let eps64 = wire::float_of(eps);
    let settings = Settings {
        eps: eps64,
        shrinking: shrinking != 0,
        budget,
    };
    let k = served::general(n, m, l, c, a, p, nurule != 0, settings, tune, cr, h, answer);
    hosted::pad(answer);
    k
}

#[tactic(auto, using(hosted::proofs::Serves::serves, hosted::proofs::Serves::wide_right, hosted::proofs::Serves::widened_by, judge::proofs::Lengths::long_enough), unfolding(crate::specs::Wide::c_tuned_host, hosted::specs::Hosted::hosted_wide))]
pub fn c(
    n: usize,
    m: &[u8],
    l: &[u8],
    cpos: u64,
    cneg: u64,
    eps: u64,
    shrinking: u8,
    budget: u64,
    t: &[u8],
    cr: &mut [u8],
    h: &mut [u8],
    answer: &mut [u8],
) -> u64
    ensures { ◌≡◌ {A = Handed} (handed result cr.new h.new answer.new)
        (c_tuned_host n m.now l.now cpos cneg eps shrinking budget t.now cr.old h.old answer.old) }
{
    let lists = (l.len() == n) & hosted::is_tuning(t) & (128 <= answer.len());
    if let Err(refusal) = hosted::sized(n, lists, m.len(), cr.len(), h.len(), answer.len()) {
        return hosted::turn_away_wide(answer, refusal);
    }
    let tune = hosted::tuning_of(t);
    let cpos64 = wire::float_of(cpos);
    let cneg64 = wire::float_of(cneg);
    let eps64 = wire::float_of(eps);
    let settings = Settings {
        eps: eps64,
        shrinking: shrinking != 0,
        budget,
    };
    let k = served::c(n, m, l, cpos64, cneg64, settings, tune, cr, h, answer);
    hosted::pad(answer);
    k
}

#[tactic(auto, using(hosted::proofs::Serves::serves, hosted::proofs::Serves::wide_right, hosted::proofs::Serves::widened_by, judge::proofs::Lengths::long_enough), unfolding(crate::specs::Wide::nu_tuned_host, hosted::specs::Hosted::hosted_wide))]
pub fn nu(
    n: usize,
    m: &[u8],
    l: &[u8],
    nu: u64,
    eps: u64,
    shrinking: u8,
    budget: u64,
    t: &[u8],
    cr: &mut [u8],
    h: &mut [u8],
    answer: &mut [u8],
) -> u64
    ensures { ◌≡◌ {A = Handed} (handed result cr.new h.new answer.new)
        (nu_tuned_host n m.now l.now nu eps shrinking budget t.now cr.old h.old answer.old) }
{
    let lists = (l.len() == n) & hosted::is_tuning(t) & (128 <= answer.len());
    if let Err(refusal) = hosted::sized(n, lists, m.len(), cr.len(), h.len(), answer.len()) {
        return hosted::turn_away_wide(answer, refusal);
    }
    let tune = hosted::tuning_of(t);
    let nu64 = wire::float_of(nu);
    let eps64 = wire::float_of(eps);
    let settings = Settings {
        eps: eps64,
        shrinking: shrinking != 0,
        budget,
    };
    let k = served::nu(n, m, l, nu64, settings, tune, cr, h, answer);
    hosted::pad(answer);
    k
}

#[tactic(auto, using(hosted::proofs::Serves::serves, hosted::proofs::Serves::wide_right, hosted::proofs::Serves::widened_by), unfolding(crate::specs::Wide::one_class_tuned_host, hosted::specs::Hosted::hosted_wide))]
pub fn one_class(
    n: usize,
    m: &[u8],
    nu: u64,
    eps: u64,
    shrinking: u8,
    budget: u64,
    t: &[u8],
    cr: &mut [u8],
    h: &mut [u8],
    answer: &mut [u8],
) -> u64
    ensures { ◌≡◌ {A = Handed} (handed result cr.new h.new answer.new)
        (one_class_tuned_host n m.now nu eps shrinking budget t.now cr.old h.old answer.old) }
{
    let lists = hosted::is_tuning(t) & (128 <= answer.len());
    if let Err(refusal) = hosted::sized(n, lists, m.len(), cr.len(), h.len(), answer.len()) {
        return hosted::turn_away_wide(answer, refusal);
    }
    let tune = hosted::tuning_of(t);
    let nu64 = wire::float_of(nu);
    let eps64 = wire::float_of(eps);
    let settings = Settings {
        eps: eps64,
        shrinking: shrinking != 0,
        budget,
    };
    let k = served::one_class(n, m, nu64, settings, tune, cr, h, answer);
    hosted::pad(answer);
    k
}
