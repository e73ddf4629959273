// Entries made from samples of telemetry settle as typed ones do: the claim and its proof. This crate has no code.
#![tactic(auto)]
