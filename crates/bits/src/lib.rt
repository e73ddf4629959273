// Fields of bits in bytes: definitions and laws, no code.
#![tactic(auto)]
