// The outcome of a call: definitions and laws, no code.
#![tactic(auto)]
