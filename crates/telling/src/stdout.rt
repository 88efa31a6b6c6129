// Standard output, to which the programs print.
ghost use Rattle.std.specs.Prelude.{IsOk};

use std::fmt;

// A piece that can't be written is passed over: no write is an error.
#[derive(Clone, Copy)]
pub struct Stdout;

impl fmt::Write for Stdout {
    fn write_str(&mut self, s: &str) -> fmt::Result
        ensures { IsOk result }
    {
        io::write_all(1, s.as_bytes());
        Ok(())
    }
}
