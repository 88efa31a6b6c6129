// What the worked runs lend, what they print of an outcome, and what the programs print to.
#![tactic(auto)]

pub mod room;
pub mod stdout;
pub mod told;
