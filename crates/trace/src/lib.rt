// The steps of a run, pass for pass: definitions and theorems only.
#![tactic(auto)]
