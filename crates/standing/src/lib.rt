// The run over the samples that stand: definitions and theorems, no code.
#![tactic(auto)]
