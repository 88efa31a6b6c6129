// The worked examples, as one table: definitions and one theorem.
#![tactic(auto)]
