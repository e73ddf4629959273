// The laws of what is owed: limits, allotments, the yearly limit, the balance, independence. This crate has no code.
#![tactic(auto)]
