// Figures of late events, computed over the definitions: no code.
#![tactic(auto)]
