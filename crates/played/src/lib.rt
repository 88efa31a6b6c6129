// A record of the oracle's answers, played through its entry and compared.
#![tactic(auto)]

pub mod calls;
pub mod compared;
