// The oracle's records: where each thing stands in one, and whether what a call left agrees with it.
#![tactic(auto)]

pub mod agree;
pub mod entry;
pub mod layout;
