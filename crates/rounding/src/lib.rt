// Laws of floats: definitions and theorems only.
#![tactic(auto)]
