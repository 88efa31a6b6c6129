// What the entries answer without an order table: definitions and theorems, no code.
#![tactic(auto)]
