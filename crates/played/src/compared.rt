// What a call answered and left, held to its record.
ghost use Rattle.std.specs.Prelude.{◌≡◌, ◌+◌, ◌*◌, ◌≤◌, [], ◌∷◌, count_by, length, not};
ghost use Rattle.answer.specs.Answer.{words_of};
ghost use Rattle.recorded.specs.Agree.{same_below, pattern_in, number_in, reading_of, left_of, mark_of, byte_mark_of, loose_in, loose_from};
ghost use Rattle.recorded.specs.Record.{word_of, answer_at, told_of, used_of};

use answer::Answer;
use judge::Refusal;
use recorded::{agree, layout};
use std::fmt;

// The words that count what is lent, from the matrix on, and the most that there is room for.
const ROOM: [(usize, u64); 10] = [
    (9, 2097152),
    (10, 1024),
    (11, 1024),
    (12, 1024),
    (13, 1024),
    (14, 1024),
    (15, 1024),
    (16, 4096),
    (17, 2048),
    (18, 1024),
];

// Whether the record is as long as its counts say, and each list has room.
pub fn whole(b: &[u8]) -> bool {
    let words = layout::answer_at(b) + 10 + 4 * layout::told(b);
    let passes = layout::count(b, words, 16);
    8 * (words + 1 + 4 * passes) == b.len()
        && layout::entry(b).is_ok()
        && ROOM.iter().all(|(k, most)| layout::word(b, *k) <= *most)
        && (!layout::retires(b) || layout::word(b, layout::retired_at(b)) <= 1024)
}

// What a call may write to.
#[derive(Drop)]
pub(crate) struct Lent {
    pub(crate) crate_reading: [f64; 1024],
    pub(crate) home: [f64; 1024],
    pub(crate) floats: [f64; 4096],
    pub(crate) numbers: [u64; 2048],
    pub(crate) bytes: [u8; 1024],
}

impl Lent {
    // Marked where they stand: a list that a function hands out is copied again.
    pub(crate) fn marked() -> Lent {
        let mut lent = Lent {
            crate_reading: [0.0; 1024],
            home: [0.0; 1024],
            floats: [0.0; 4096],
            numbers: [0; 2048],
            bytes: [0; 1024],
        };
        agree::mark_all(&mut lent.crate_reading);
        agree::mark_all(&mut lent.home);
        agree::mark_all(&mut lent.floats);
        agree::mark_all(&mut lent.numbers);
        agree::mark_all(&mut lent.bytes);
        lent
    }
}

// The fields of an answer, in the order of its words.
const FIELDS: [&str; 9] = [
    "refusal number",
    "refusal index",
    "rho",
    "presence of r",
    "r",
    "obj",
    "iterations",
    "exit reason",
    "support count",
];

// What of a call isn't as its record says.
#[derive(Clone, Copy)]
pub struct Differences {
    record: u64,
    answer: bool,
    fields: [bool; 9],
    crate_reading: bool,
    home: bool,
    floats: bool,
    numbers: bool,
    bytes: bool,
}

// Which of the nine words of an answer differ from those from word `at` on.
fn fields(a: &[u64; 9], b: &[u8], at: usize, z: u64) -> [bool; 9]
    requires { at ≤ 300000 }
{
    std::array::from_fn(|i| {
        agree::loose(z, i, a[i]) != agree::loose(z, i, layout::word(b, at + i))
    })
}

impl Differences {
    // Holds outcome o of record b, the k-th, and what the call left to the record.
    #[tactic(auto, using(hosted::proofs::Words::words_told))]
    pub(crate) fn between(k: u64, b: &[u8], o: Result<Answer, Refusal>, lent: &Lent) -> Differences
        ensures answer { result.answer ≡ not (same_below (loose_in (word_of b.now (answer_at b.now + 9)) (words_of o)) (loose_from (word_of b.now (answer_at b.now + 9)) b.now (answer_at b.now)) 9) }
        ensures crate_reading { result.crate_reading ≡ not (same_below (pattern_in lent.now.crate_reading) (reading_of b.now (answer_at b.now + 10) (told_of b.now)) (length lent.now.crate_reading)) }
        ensures home { result.home ≡ not (same_below (pattern_in lent.now.home) (reading_of b.now (answer_at b.now + 10 + told_of b.now) (told_of b.now)) (length lent.now.home)) }
        ensures floats { result.floats ≡ not (same_below (pattern_in lent.now.floats) (left_of mark_of (7 * used_of b.now)) (length lent.now.floats)) }
        ensures numbers { result.numbers ≡ not (same_below (number_in lent.now.numbers) (left_of mark_of (2 * used_of b.now)) (length lent.now.numbers)) }
        ensures bytes { result.bytes ≡ not (same_below (number_in lent.now.bytes) (left_of byte_mark_of (used_of b.now)) (length lent.now.bytes)) }
    {
        let a = hosted::words_of(o);
        let at = layout::answer_at(b);
        let z = layout::word(b, at + 9);
        let n = layout::told(b);
        let used = layout::used(b);
        Differences {
            record: k,
            answer: !agree::answer_told(&a, b, at, z),
            fields: fields(&a, b, at, z),
            crate_reading: !agree::reading_told(&lent.crate_reading, b, at + 10, n),
            home: !agree::reading_told(&lent.home, b, at + 10 + n, n),
            floats: !agree::all_left(&lent.floats, 7 * used),
            numbers: !agree::all_left(&lent.numbers, 2 * used),
            bytes: !agree::all_left(&lent.bytes, used),
        }
    }

    // How many of answer, readings and scratch differ.
    pub fn count(&self) -> u64
        ensures { result ≡ count_by (λ differs. differs) (self.now.answer ∷ self.now.crate_reading ∷ self.now.home ∷ self.now.floats ∷ self.now.numbers ∷ self.now.bytes ∷ []) }
    {
        let all = [
            self.answer,
            self.crate_reading,
            self.home,
            self.floats,
            self.numbers,
            self.bytes,
        ];
        all.iter().filter(|differs| **differs).count() as u64
    }
}

impl fmt::Display for Differences {
    fn fmt<W: fmt::Write>(&self, f: &mut fmt::Formatter<W>) -> fmt::Result {
        let k = self.record;
        for (name, differs) in FIELDS.iter().zip(self.fields.iter()) {
            if *differs {
                writeln!(f, "record {k} differs: {name:16}")?;
            }
        }
        let lists = [
            (self.crate_reading, "the crate's reading"),
            (self.home, "home"),
            (self.floats, "scratch floats"),
            (self.numbers, "scratch numbers"),
            (self.bytes, "scratch bytes"),
        ];
        for (differs, name) in lists {
            if differs {
                writeln!(f, "record {k} differs: {name}")?;
            }
        }
        Ok(())
    }
}
