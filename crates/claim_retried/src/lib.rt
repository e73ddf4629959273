// A seller has had a retest of a zone and product exactly where one is among the accepted records: laws alone. This crate has no code.
#![tactic(auto)]
