// The definitions of the entry with retired samples, and the theorems about them: no code.
#![tactic(auto)]
