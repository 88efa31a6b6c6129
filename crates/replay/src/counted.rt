// How many records there are of each kind.
ghost use Rattle.std.specs.Prelude.{◌+◌, ◌*◌, ◌≤◌, length};

use played::compared::Differences;
use recorded::entry::Entry;
use recorded::{agree, layout};
use std::fmt;

#[derive(Clone, Copy, Default)]
pub struct Counts {
    records: u64,
    entries: [u64; 5],
    shrinking: u64,
    accepted: u64,
    refused: [u64; 13],
    iterations: u64,
    unlike_readings: u64,
    unlike_zeros: u64,
    skipped: u64,
    not_read: u64,
    left_over: u64,
    differ: u64,
}

fn add(total: &mut u64, n: u64) {
    *total = total.wrapping_add(n);
}

impl Counts {
    // Records that couldn't be read, and whether anything follows the last.
    pub fn unread(&mut self, records: u64, left: u64) {
        add(&mut self.not_read, records);
        add(&mut self.left_over, left);
    }

    pub fn skip(&mut self) {
        add(&mut self.skipped, 1);
    }

    fn count_call(&mut self, b: &[u8]) {
        add(&mut self.records, 1);
        if let Ok(entry) = layout::entry(b) {
            add(&mut self.entries[entry as usize], 1);
        }
        add(&mut self.shrinking, layout::word(b, 3) / 2 % 2);
    }

    fn count_answer(&mut self, b: &[u8], at: usize)
        requires { at ≤ 265601 }
    {
        match layout::count(b, at, 13) {
            0 => add(&mut self.accepted, 1),
            refusal => add(&mut self.refused[refusal - 1], 1),
        }
        add(&mut self.iterations, layout::word(b, at + 6));
        add(&mut self.unlike_zeros, layout::word(b, at + 9));
    }

    // A record that was played, and what of it differs.
    pub fn count(&mut self, b: &[u8], differences: &Differences) {
        let at = layout::answer_at(b);
        self.count_call(b);
        self.count_answer(b, at);
        let alike = agree::twice(b, at + 10, layout::told(b));
        add(&mut self.unlike_readings, u64::from(!alike));
        add(&mut self.differ, u64::from(differences.count() > 0));
    }
}

impl fmt::Display for Counts {
    fn fmt<W: fmt::Write>(&self, f: &mut fmt::Formatter<W>) -> fmt::Result {
        writeln!(f, "records         {}", self.records)?;
        for (entry, n) in Entry::ALL.iter().zip(self.entries.iter()) {
            writeln!(f, "{entry:16}{n}")?;
        }
        writeln!(f, "shrinking       {}", self.shrinking)?;
        writeln!(f, "accepted        {}", self.accepted)?;
        for (number, n) in (1..14).zip(self.refused.iter()) {
            writeln!(f, "refused {number:<8}{n}")?;
        }
        writeln!(f, "iterations      {}", self.iterations)?;
        writeln!(f, "unlike readings {}", self.unlike_readings)?;
        writeln!(f, "unlike zeros    {}", self.unlike_zeros)?;
        writeln!(f, "skipped         {}", self.skipped)?;
        writeln!(f, "not read        {}", self.not_read)?;
        writeln!(f, "left over       {}", self.left_over)?;
        writeln!(f, "differ          {}", self.differ)
    }
}
