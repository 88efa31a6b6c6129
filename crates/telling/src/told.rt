// An outcome in words, with its floats as patterns.
ghost use Rattle.std.specs.Prelude.{◌≡◌};
ghost use Rattle.std.specs.Float.{binary64};
ghost use Rattle.std.specs.Float.Ieee.{to_bits};

use answer::{Answer, ExitReason};
use judge::Refusal;
use readings::Reading;
use std::fmt;

// A float's pattern, and the value in decimal too where it is one that the worked runs name.
#[derive(Clone, Copy)]
pub struct Pattern(pub u64);

impl Pattern {
    fn name(self) -> Option<&'static str> {
        match self.0 {
            0 => Some("0"),
            0x8000_0000_0000_0000 => Some("-0"),
            0x3ff0_0000_0000_0000 => Some("1"),
            0xbff0_0000_0000_0000 => Some("-1"),
            0x3fe0_0000_0000_0000 => Some("0.5"),
            0xbfe0_0000_0000_0000 => Some("-0.5"),
            0xbfe8_0000_0000_0000 => Some("-0.75"),
            0x7ff8_0000_0000_0000 => Some("NaN"),
            0xfff0_0000_0000_0000 => Some("-infinity"),
            0x7ff0_0000_0000_0000 => Some("infinity"),
            0x4059_0000_0000_0000 => Some("100"),
            0xc070_0000_0000_0000 => Some("-256"),
            _ => None,
        }
    }
}

impl From<f64> for Pattern {
    ghost from_gives = { λ x pattern. pattern.0 ≡ to_bits binary64 x };

    fn from(x: f64) -> Pattern {
        Pattern(wire::pattern_of(x))
    }
}

impl fmt::Display for Pattern {
    fn fmt<W: fmt::Write>(&self, f: &mut fmt::Formatter<W>) -> fmt::Result {
        write!(f, "{:016x}", self.0)?;
        match self.name() {
            Some(name) => write!(f, "  {name}"),
            None => Ok(()),
        }
    }
}

// The outcome of a run over n samples, and the two readings that it left.
#[derive(Clone, Copy)]
pub struct Told<'a> {
    pub outcome: Result<Answer, Refusal>,
    pub crate_reading: &'a [f64],
    pub home: &'a [f64],
    pub n: usize,
}

impl<'a> Told<'a> {
    // The coefficients where there are few.
    fn coefficients<W: fmt::Write>(
        &self,
        f: &mut fmt::Formatter<W>,
        name: &str,
        which: Reading,
    ) -> fmt::Result {
        let part = readings::shown(self.crate_reading, self.home, which, self.n);
        if part.len() > 8 {
            return Ok(());
        }
        for x in part {
            let coefficient = Pattern::from(*x);
            writeln!(f, "  {name:12}{coefficient}")?;
        }
        Ok(())
    }
}

fn reason_name(reason: ExitReason) -> &'static str {
    match reason {
        ExitReason::ReachedThreshold => "threshold",
        ExitReason::ReachedIterations => "iterations",
    }
}

impl<'a> Told<'a> {
    fn accepted<W: fmt::Write>(&self, f: &mut fmt::Formatter<W>, answer: Answer) -> fmt::Result {
        writeln!(f, "  accepted\n  rho         {}", Pattern::from(answer.rho))?;
        match answer.r {
            Some(r) => writeln!(f, "  r           {}", Pattern::from(r))?,
            None => writeln!(f, "  r           absent")?,
        }
        writeln!(f, "  obj         {}", Pattern::from(answer.obj))?;
        writeln!(f, "  iterations  {}", answer.iterations)?;
        writeln!(f, "  reason      {}", reason_name(answer.exit_reason))?;
        writeln!(f, "  support     {}", answer.support)?;
        self.coefficients(f, "crate", Reading::Crate)?;
        self.coefficients(f, "home", Reading::Home)
    }
}

impl<'a> fmt::Display for Told<'a> {
    fn fmt<W: fmt::Write>(&self, f: &mut fmt::Formatter<W>) -> fmt::Result {
        match self.outcome {
            Ok(answer) => self.accepted(f, answer),
            Err(refusal) => {
                writeln!(f, "  refusal     {}", refusal.number())?;
                writeln!(f, "  index       {}", refusal.index())
            }
        }
    }
}
