// Where no event comes late, every call is answered as by document 01's question 11: laws alone. This crate has no code.
#![tactic(auto)]
