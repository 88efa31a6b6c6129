// The training without an order table: definitions and theorems, no code.
#![tactic(auto)]
