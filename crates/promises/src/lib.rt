// The promises about the entries: theorems over their definitions, no code.
#![tactic(auto)]
