// The box, and no NaN step, over a whole run: definitions and theorems only.
#![tactic(auto)]
