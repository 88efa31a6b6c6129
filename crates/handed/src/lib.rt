// What the C functions hand out, in the words of the promises: definitions and theorems, no code.
#![tactic(auto)]
