// The archive that C links: each C function over the one of `altuliscia`, with its clauses.
#![tactic(auto)]

ghost use Rattle.std.specs.Prelude.{◌≡◌, ℕ};
ghost use Rattle.hosted.specs.Hosted.{Handed, handed};
ghost use Rattle.votes.specs.Votes.{panel};
ghost use Rattle.wide.specs.Wide.{general_tuned_host, c_tuned_host, nu_tuned_host, one_class_tuned_host};
ghost use Rattle.altuliscia.specs.Functions.{general_host, retired_host, c_host, nu_host, one_class_host, PairHanded, pair_handed, pair_host, VotesHanded, votes_handed, votes_host, version};

// Labels l, ceilings c, start alphas a and linear term p.
#[unsafe(no_mangle)]
pub extern "C" fn altuliscia_general(
    n: usize,
    m: &[u8],
    l: &[u8],
    c: &[u8],
    a: &[u8],
    p: &[u8],
    nurule: u8,
    eps: u64,
    shrinking: u8,
    budget: u64,
    cr: &mut [u8],
    h: &mut [u8],
    answer: &mut [u8],
) -> u64
    ensures { ◌≡◌ {A = Handed} (handed result cr.new h.new answer.new)
        (general_host n m.now l.now c.now a.now p.now nurule eps shrinking budget cr.old h.old answer.old) }
{
    altuliscia::altuliscia_general(
        n, m, l, c, a, p, nurule, eps, shrinking, budget, cr, h, answer,
    )
}

// The general one, over the samples that aren't retired: a byte of r for each sample, and a tuning t of eight-byte words.
#[unsafe(no_mangle)]
pub extern "C" fn altuliscia_retired(
    n: usize,
    m: &[u8],
    l: &[u8],
    c: &[u8],
    a: &[u8],
    p: &[u8],
    r: &[u8],
    nurule: u8,
    eps: u64,
    shrinking: u8,
    budget: u64,
    t: &[u8],
    cr: &mut [u8],
    h: &mut [u8],
    answer: &mut [u8],
) -> u64
    ensures { ◌≡◌ {A = Handed} (handed result cr.new h.new answer.new)
        (retired_host n m.now l.now c.now a.now p.now r.now nurule eps shrinking budget t.now cr.old h.old answer.old) }
{
    altuliscia::altuliscia_retired(
        n, m, l, c, a, p, r, nurule, eps, shrinking, budget, t, cr, h, answer,
    )
}

// A ceiling for each label.
#[unsafe(no_mangle)]
pub extern "C" fn altuliscia_c(
    n: usize,
    m: &[u8],
    l: &[u8],
    cpos: u64,
    cneg: u64,
    eps: u64,
    shrinking: u8,
    budget: u64,
    cr: &mut [u8],
    h: &mut [u8],
    answer: &mut [u8],
) -> u64
    ensures { ◌≡◌ {A = Handed} (handed result cr.new h.new answer.new)
        (c_host n m.now l.now cpos cneg eps shrinking budget cr.old h.old answer.old) }
{
    altuliscia::altuliscia_c(n, m, l, cpos, cneg, eps, shrinking, budget, cr, h, answer)
}

// The nu rule.
#[unsafe(no_mangle)]
pub extern "C" fn altuliscia_nu(
    n: usize,
    m: &[u8],
    l: &[u8],
    nu: u64,
    eps: u64,
    shrinking: u8,
    budget: u64,
    cr: &mut [u8],
    h: &mut [u8],
    answer: &mut [u8],
) -> u64
    ensures { ◌≡◌ {A = Handed} (handed result cr.new h.new answer.new)
        (nu_host n m.now l.now nu eps shrinking budget cr.old h.old answer.old) }
{
    altuliscia::altuliscia_nu(n, m, l, nu, eps, shrinking, budget, cr, h, answer)
}

// No labels.
#[unsafe(no_mangle)]
pub extern "C" fn altuliscia_one_class(
    n: usize,
    m: &[u8],
    nu: u64,
    eps: u64,
    shrinking: u8,
    budget: u64,
    cr: &mut [u8],
    h: &mut [u8],
    answer: &mut [u8],
) -> u64
    ensures { ◌≡◌ {A = Handed} (handed result cr.new h.new answer.new)
        (one_class_host n m.now nu eps shrinking budget cr.old h.old answer.old) }
{
    altuliscia::altuliscia_one_class(n, m, nu, eps, shrinking, budget, cr, h, answer)
}

// The same four under a tuning t of eight-byte words, with an answer of 128 bytes.
#[unsafe(no_mangle)]
pub extern "C" fn altuliscia_general_tuned(
    n: usize,
    m: &[u8],
    l: &[u8],
    c: &[u8],
    a: &[u8],
    p: &[u8],
    nurule: u8,
    eps: u64,
    shrinking: u8,
    budget: u64,
    t: &[u8],
    cr: &mut [u8],
    h: &mut [u8],
    answer: &mut [u8],
) -> u64
    ensures { ◌≡◌ {A = Handed} (handed result cr.new h.new answer.new)
        (general_tuned_host n m.now l.now c.now a.now p.now nurule eps shrinking budget t.now cr.old h.old answer.old) }
{
    altuliscia::altuliscia_general_tuned(
        n, m, l, c, a, p, nurule, eps, shrinking, budget, t, cr, h, answer,
    )
}

#[unsafe(no_mangle)]
pub extern "C" fn altuliscia_c_tuned(
    n: usize,
    m: &[u8],
    l: &[u8],
    cpos: u64,
    cneg: u64,
    eps: u64,
    shrinking: u8,
    budget: u64,
    t: &[u8],
    cr: &mut [u8],
    h: &mut [u8],
    answer: &mut [u8],
) -> u64
    ensures { ◌≡◌ {A = Handed} (handed result cr.new h.new answer.new)
        (c_tuned_host n m.now l.now cpos cneg eps shrinking budget t.now cr.old h.old answer.old) }
{
    altuliscia::altuliscia_c_tuned(
        n, m, l, cpos, cneg, eps, shrinking, budget, t, cr, h, answer,
    )
}

#[unsafe(no_mangle)]
pub extern "C" fn altuliscia_nu_tuned(
    n: usize,
    m: &[u8],
    l: &[u8],
    nu: u64,
    eps: u64,
    shrinking: u8,
    budget: u64,
    t: &[u8],
    cr: &mut [u8],
    h: &mut [u8],
    answer: &mut [u8],
) -> u64
    ensures { ◌≡◌ {A = Handed} (handed result cr.new h.new answer.new)
        (nu_tuned_host n m.now l.now nu eps shrinking budget t.now cr.old h.old answer.old) }
{
    altuliscia::altuliscia_nu_tuned(n, m, l, nu, eps, shrinking, budget, t, cr, h, answer)
}

#[unsafe(no_mangle)]
pub extern "C" fn altuliscia_one_class_tuned(
    n: usize,
    m: &[u8],
    nu: u64,
    eps: u64,
    shrinking: u8,
    budget: u64,
    t: &[u8],
    cr: &mut [u8],
    h: &mut [u8],
    answer: &mut [u8],
) -> u64
    ensures { ◌≡◌ {A = Handed} (handed result cr.new h.new answer.new)
        (one_class_tuned_host n m.now nu eps shrinking budget t.now cr.old h.old answer.old) }
{
    altuliscia::altuliscia_one_class_tuned(n, m, nu, eps, shrinking, budget, t, cr, h, answer)
}

// One step's pair: weight and ceiling of i and of j, gradients, diagonals, the entry of row i at j.
#[unsafe(no_mangle)]
pub extern "C" fn altuliscia_pair(
    ai: u64,
    bi: u64,
    aj: u64,
    bj: u64,
    gi: u64,
    gj: u64,
    di: u64,
    dj: u64,
    r: u64,
    agree: u8,
    pair: &mut [u8],
) -> u64
    ensures { ◌≡◌ {A = PairHanded} (pair_handed result pair.new) (pair_host ai bi aj bj gi gj di dj r agree pair.old) }
{
    altuliscia::altuliscia_pair(ai, bi, aj, bj, gi, gj, di, dj, r, agree, pair)
}

// Languages from pairs of trainings: coefficients c and kernel values u of all pairs, how many of each a pair has, rhos.
#[unsafe(no_mangle)]
pub extern "C" fn altuliscia_votes(
    k: usize,
    c: &[u8],
    u: &[u8],
    held: &[u8],
    valued: &[u8],
    rhos: &[u8],
    v: &mut [u8],
    answer: &mut [u8],
) -> u64
    ensures { ◌≡◌ {A = VotesHanded} (votes_handed result v.new answer.new)
        (votes_host k (panel c.now u.now held.now valued.now rhos.now) v.old answer.old) }
{
    altuliscia::altuliscia_votes(k, c, u, held, valued, rhos, v, answer)
}

// Which version this is.
#[unsafe(no_mangle)]
pub extern "C" fn altuliscia_version() -> u64
    ensures { ◌≡◌ {A = ℕ} result version }
{
    altuliscia::altuliscia_version()
}
