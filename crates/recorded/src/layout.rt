// Where each thing stands in a record, in words of eight bytes. Every function takes any bytes at all.
ghost use Rattle.std.specs.Prelude.{◌≡◌, eqb, ◌+◌, ◌≤◌, ◌*◌, length, take};
ghost use Rattle.std.specs.Float.{binary64};
ghost use Rattle.std.specs.Float.Ieee.{of_bits};
ghost use Rattle.recorded.specs.Entry.{Names, form_of};
ghost use Rattle.recorded.specs.Record.{word_of, count_of, stored_of, labels_at, ceilings_at, alphas_at, linear_at, retired_at, answer_at, told_of, used_of, part_of, no_floats, floats_to, signed_byte, expanded_to};

use crate::entry::{Entry, Form, UnknownEntry};

#[tactic(auto, unfolding(crate::specs::Record::word_of))]
pub fn word(b: &[u8], k: usize) -> u64
    ensures { result ≡ word_of b.now k }
{
    if k < b.len() / 8 {
        return wire::word_at(b, 8 * k);
    }
    0
}

pub fn float(b: &[u8], k: usize) -> f64
    ensures { result ≡ of_bits binary64 (word_of b.now k) }
{
    wire::float_of(word(b, k))
}

pub fn entry(b: &[u8]) -> Result<Entry, UnknownEntry>
    ensures { Names (word_of b.now 1) result }
{
    Entry::try_from(word(b, 1))
}

// Whether the record has retired bytes, as that entry's records have.
pub fn retires(b: &[u8]) -> bool
    ensures { result ≡ eqb (word_of b.now 1) 4 }
{
    matches!(entry(b), Ok(Entry::Retired))
}

pub fn form(b: &[u8]) -> Form
    ensures { result ≡ form_of (word_of b.now 19) }
{
    Form::from(word(b, 19))
}

#[tactic(auto, unfolding(crate::specs::Record::count_of))]
pub fn count(b: &[u8], k: usize, most: usize) -> usize
    ensures { (result ≡ count_of b.now k most) × (result ≤ most) }
{
    let w = word(b, k) as usize;
    if w < most { w } else { most }
}

#[tactic(auto, unfolding(crate::specs::Record::stored_of))]
pub fn stored(b: &[u8]) -> usize
    ensures { (result ≡ stored_of b.now) × (result ≤ 2097152) }
{
    let m = count(b, 9, 2097152);
    match form(b) {
        Form::SignedBytes => m / 8,
        Form::Floats => m,
    }
}

#[tactic(auto, unfolding(crate::specs::Record::labels_at))]
pub fn labels_at(b: &[u8]) -> usize
    ensures { (result ≡ labels_at b.now) × (result ≤ 262200) }
{
    20 + (stored(b) + 7) / 8
}

#[tactic(auto, unfolding(crate::specs::Record::ceilings_at))]
pub fn ceilings_at(b: &[u8]) -> usize
    ensures { (result ≡ ceilings_at b.now) × (result ≤ 262400) }
{
    labels_at(b) + (count(b, 10, 1024) + 7) / 8
}

#[tactic(auto, unfolding(crate::specs::Record::alphas_at))]
pub fn alphas_at(b: &[u8]) -> usize
    ensures { (result ≡ alphas_at b.now) × (result ≤ 263424) }
{
    ceilings_at(b) + count(b, 11, 1024)
}

#[tactic(auto, unfolding(crate::specs::Record::linear_at))]
pub fn linear_at(b: &[u8]) -> usize
    ensures { (result ≡ linear_at b.now) × (result ≤ 264448) }
{
    alphas_at(b) + count(b, 12, 1024)
}

// The word that counts the retired bytes, which follow it. The entry with retired samples alone has them.
#[tactic(auto, unfolding(crate::specs::Record::retired_at))]
pub fn retired_at(b: &[u8]) -> usize
    ensures { (result ≡ retired_at b.now) × (result ≤ 265472) }
{
    linear_at(b) + count(b, 13, 1024)
}

#[tactic(auto, unfolding(crate::specs::Record::answer_at))]
pub fn answer_at(b: &[u8]) -> usize
    ensures { (result ≡ answer_at b.now) × (result ≤ 265601) }
{
    let at = retired_at(b);
    let n = count(b, at, 1024);
    if retires(b) { at + 1 + (n + 7) / 8 } else { at }
}

// How many places each reading has in the record.
#[tactic(auto, unfolding(crate::specs::Record::told_of))]
pub fn told(b: &[u8]) -> usize
    ensures { (result ≡ told_of b.now) × (result ≤ 512) }
{
    let n = count(b, 2, 512);
    // 0 is the record's own number of what is accepted: for one test an enum is no plainer
    if word(b, answer_at(b)) == 0 { n } else { 0 }
}

// The n of the scratch that the call was to use.
#[tactic(auto, unfolding(crate::specs::Record::used_of))]
pub fn used(b: &[u8]) -> usize
    ensures { (result ≡ used_of b.now) × (result ≤ 512) }
{
    let n = count(b, 2, 512);
    let t = told(b);
    // 11 is the record's own number of that refusal: for one test an enum is no plainer
    if word(b, answer_at(b)) == 11 { n } else { t }
}

// The n bytes from word at on, and none where the record ends before them.
#[tactic(auto, unfolding(crate::specs::Record::part_of))]
pub fn part<'a>(b: &'a [u8], at: usize, n: usize) -> &'a [u8]
    requires { (at ≤ 300000) × (n ≤ 2097152) }
    ensures { result.now ≡ part_of b.now at n }
{
    let s = 8 * at;
    let e = s + n;
    if e <= b.len() {
        return &b[s..e];
    }
    &b[..0]
}

// n words from word at on, as floats; what is left holds 0.
pub fn floats(b: &[u8], at: usize, n: usize) -> [f64; 1024]
    requires { (at ≤ 300000) × (n ≤ 1024) }
    ensures { (result ≡ floats_to b.now at no_floats n) × (1024 ≡ length result) }
{
    let mut d = [0.0f64; 1024];
    load(&mut d, b, at, n);
    d
}

pub fn first<'a>(d: &'a [f64], n: usize) -> &'a [f64]
    requires { n ≤ length d.now }
    ensures { result.now ≡ take n d.now }
{
    &d[..n]
}

#[tactic(auto, unfolding(crate::specs::Record::floats_to))]
fn load(d: &mut [f64], b: &[u8], at: usize, n: usize)
    requires { (at ≤ 300000) × (n ≤ length d.old) × (n ≤ 1024) }
    ensures { d.new ≡ floats_to b.now at d.old n }
{
    // by places: of what is written through `iter_mut().enumerate()` no proof knows the values
    for k in 0..n {
        d[k] = float(b, at + k);
    }
}

#[tactic(auto, unfolding(crate::specs::Record::signed_byte))]
fn signed(x: u8) -> f64
    ensures { result ≡ signed_byte x }
{
    let w = x as usize;
    if w < 128 {
        return floats::whole_as_float(w);
    }
    -floats::whole_as_float(256 - w)
}

// A matrix of form 1: eight bytes for each signed byte of s.
#[tactic(auto, unfolding(crate::specs::Record::expanded_to))]
pub fn expand(m: &mut [u8], s: &[u8], n: usize)
    requires { (8 * n ≤ length m.old) × (n ≤ length s.now) × (n ≤ 262144) }
    ensures { m.new ≡ expanded_to s.now m.old n }
{
    // by places, as in `load`: of what is written through `chunks_mut` no proof knows the values
    for k in 0..n {
        wire::put_float(m, 8 * k, signed(s[k]));
    }
}
