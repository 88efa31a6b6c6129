// What stays with a sample in a run: definitions and theorems only.
#![tactic(auto)]
