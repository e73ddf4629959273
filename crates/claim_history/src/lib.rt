// Demand 3: the one theorem over every list of calls. This crate has no code.
#![tactic(auto)]
