// What is owed, over facts: definitions for the crates above. This crate has no code.
#![tactic(auto)]
