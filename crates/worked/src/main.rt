// Prints what the proved leaves answer on small inputs, then the rule's worked runs through the entries.
#![tactic(auto)]

mod leaves;
mod runs;

use std::fmt;
use telling::stdout::Stdout;

fn told(out: &mut Stdout) -> fmt::Result {
    leaves::told(out)?;
    runs::pairs(out)?;
    runs::tails(out)?;
    runs::sizes(out)?;
    runs::entries(out)?;
    runs::shares(out)
}

fn main() {
    // no write to Stdout is an error
    let _ = told(&mut Stdout);
}
