// Figures of Year A, computed over the definitions: no code.
#![tactic(auto)]
