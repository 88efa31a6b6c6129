// The box of one step, and that the step of a chosen pair is no NaN: definitions and theorems only.
#![tactic(auto)]
