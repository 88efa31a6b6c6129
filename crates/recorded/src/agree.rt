// Lists are marked before a call and compared after it, place for place and bit for bit.
ghost use Rattle.std.specs.Prelude.{◌≡◌, ◌+◌, ◌≤◌, ◌<◌, ℕ, List, length};
ghost use Rattle.std.specs.Float.{binary64, nan};
ghost use Rattle.std.specs.Float.Ieee.{to_bits};
ghost use Rattle.recorded.specs.Agree.{same_below, pattern_in, number_in, pattern_by, word_from, loose_in, loose_from, mark_of, byte_mark_of, float_mark_of, marks_to, left_of, reading_of, loose_of};

use crate::layout::word;

#[tactic(auto, unfolding(crate::specs::Agree::mark_of))]
fn number_mark(k: usize) -> u64
    ensures { result ≡ mark_of k }
{
    0x4330_0000_0000_0000 + (k % 4096) as u64
}

#[tactic(auto, unfolding(crate::specs::Agree::byte_mark_of))]
fn byte_mark(k: usize) -> u8
    ensures { result ≡ byte_mark_of k }
{
    2 + (k % 251) as u8
}

// What a list is marked with: a value for each place, told from others by its pattern.
pub trait Mark: Copy {
    ghost mark_at: { ℕ → Self };

    ghost mark_pattern_at: { ℕ → ℕ };

    ghost pattern: { Self → ℕ };

    // what a list is read as past its end
    ghost beyond: { Self };

    fn mark(k: usize) -> Self
        ensures { result ≡ mark_at k };

    fn mark_pattern(k: usize) -> u64
        ensures { result ≡ mark_pattern_at k };

    fn pattern_of(self) -> u64
        ensures { result ≡ pattern self };
}

impl Mark for f64 {
    ghost mark_at = { float_mark_of };

    ghost mark_pattern_at = { mark_of };

    ghost pattern = { to_bits binary64 };

    ghost beyond = { nan };

    fn mark(k: usize) -> f64 {
        wire::float_of(number_mark(k))
    }

    fn mark_pattern(k: usize) -> u64 {
        number_mark(k)
    }

    fn pattern_of(self) -> u64 {
        wire::pattern_of(self)
    }
}

impl Mark for u64 {
    ghost mark_at = { mark_of };

    ghost mark_pattern_at = { mark_of };

    ghost pattern = { λ w. w };

    ghost beyond = { 0 };

    fn mark(k: usize) -> u64 {
        number_mark(k)
    }

    fn mark_pattern(k: usize) -> u64 {
        number_mark(k)
    }

    fn pattern_of(self) -> u64 {
        self
    }
}

impl Mark for u8 {
    ghost mark_at = { byte_mark_of };

    ghost mark_pattern_at = { byte_mark_of };

    ghost pattern = { λ w. w };

    ghost beyond = { 0 };

    fn mark(k: usize) -> u8 {
        byte_mark(k)
    }

    fn mark_pattern(k: usize) -> u64 {
        u64::from(byte_mark(k))
    }

    fn pattern_of(self) -> u64 {
        u64::from(self)
    }
}

#[tactic(auto, unfolding(crate::specs::Agree::marks_to))]
pub fn mark_all<T: Mark>(d: &mut [T])
    ensures { d.new ≡ marks_to T.mark_at d.old (length d.old) }
{
    // by places: of what is written through `iter_mut().enumerate()` no proof knows the values
    for k in 0..d.len() {
        d[k] = T::mark(k);
    }
}

#[tactic(auto, unfolding(crate::specs::Agree::left_of))]
fn left<T: Mark>(used: usize, k: usize) -> u64
    ensures { result ≡ left_of T.mark_pattern_at used k }
{
    if k < used { 0 } else { T::mark_pattern(k) }
}

fn pattern_at<T: Mark>(d: &[T], k: usize) -> u64
    requires { k < length d.now }
    ensures { result ≡ pattern_by T.pattern T.beyond d.now k }
{
    d[k].pattern_of()
}

// Whether the first used places hold 0, a float +0, and the others are as they were marked.
pub fn all_left<T: Mark>(d: &[T], used: usize) -> bool
    ensures { result ≡ same_below (pattern_by T.pattern T.beyond d.now) (left_of T.mark_pattern_at used) (length d.now) }
{
    (0..d.len()).all(|k| pattern_at(d, k) == left::<T>(used, k))
}

#[tactic(auto, unfolding(crate::specs::Agree::reading_of))]
fn reading(b: &[u8], at: usize, n: usize, k: usize) -> u64
    requires { (at ≤ 300000) × (n ≤ 512) }
    ensures { result ≡ reading_of b.now at n k }
{
    if k < n {
        return word(b, at + k);
    }
    number_mark(k)
}

// Whether a reading has the n words from word at on in its first places, and the others are as they were marked.
pub fn reading_told(d: &[f64], b: &[u8], at: usize, n: usize) -> bool
    requires { (at ≤ 300000) × (n ≤ 512) }
    ensures { result ≡ same_below (pattern_in d.now) (reading_of b.now at n) (length d.now) }
{
    (0..d.len()).all(|k| wire::pattern_of(d[k]) == reading(b, at, n, k))
}

// Whether the n words from word at on are those that follow them.
pub fn twice(b: &[u8], at: usize, n: usize) -> bool
    requires { (at ≤ 300000) × (n ≤ 512) }
    ensures { result ≡ same_below (word_from b.now at) (word_from b.now (at + n)) n }
{
    (0..n).all(|k| word(b, at + k) == word(b, at + n + k))
}

#[tactic(auto, unfolding(crate::specs::Agree::loose_of))]
pub fn loose(z: u64, i: usize, w: u64) -> u64
    ensures { result ≡ loose_of z i w }
{
    if (z == 1) & (i == 2) & (w == 0x8000_0000_0000_0000) {
        0
    } else {
        w
    }
}

// Whether the nine words of an answer are those from word at on. z says whether the run met zeros of different sign.
pub fn answer_told(a: &[u64], b: &[u8], at: usize, z: u64) -> bool
    requires { (at ≤ 300000) × (9 ≤ length a.now) }
    ensures { result ≡ same_below (loose_in z a.now) (loose_from z b.now at) 9 }
{
    (0..9).all(|k| loose(z, k, a[k]) == loose(z, k, word(b, at + k)))
}
