// What a record says in numbers: the entry that it calls, and how its matrix is written.
ghost use Rattle.std.specs.Prelude.{◌≡◌};
ghost use Rattle.recorded.specs.Entry.{Names, form_of};

use std::fmt;

// The entry of word 1.
#[derive(Clone, Copy, Debug, PartialEq, Eq)]
pub enum Entry {
    General,
    C,
    Nu,
    OneClass,
    Retired,
}

impl Entry {
    pub const ALL: [Entry; 5] = [
        Entry::General,
        Entry::C,
        Entry::Nu,
        Entry::OneClass,
        Entry::Retired,
    ];
}

// A number that no entry has.
#[derive(Clone, Copy, Debug, PartialEq, Eq)]
pub struct UnknownEntry(pub u64);

impl TryFrom<u64> for Entry {
    type Error = UnknownEntry;

    ghost try_from_gives = { Names };

    fn try_from(number: u64) -> Result<Entry, UnknownEntry> {
        match number {
            0 => Ok(Entry::General),
            1 => Ok(Entry::C),
            2 => Ok(Entry::Nu),
            3 => Ok(Entry::OneClass),
            4 => Ok(Entry::Retired),
            _ => Err(UnknownEntry(number)),
        }
    }
}

impl fmt::Display for Entry {
    fn fmt<W: fmt::Write>(&self, f: &mut fmt::Formatter<W>) -> fmt::Result {
        f.pad(match self {
            Entry::General => "general",
            Entry::C => "C",
            Entry::Nu => "nu",
            Entry::OneClass => "one-class",
            Entry::Retired => "retired",
        })
    }
}

impl fmt::Display for UnknownEntry {
    fn fmt<W: fmt::Write>(&self, f: &mut fmt::Formatter<W>) -> fmt::Result {
        write!(f, "no entry has the number {}", self.0)
    }
}

// How the matrix is written, word 19: form 1 has a signed byte for each entry of it.
#[derive(Clone, Copy, Debug, PartialEq, Eq)]
pub enum Form {
    Floats,
    SignedBytes,
}

impl From<u64> for Form {
    ghost from_gives = { λ number form. form ≡ form_of number };

    fn from(number: u64) -> Form {
        if number == 1 {
            Form::SignedBytes
        } else {
            Form::Floats
        }
    }
}
