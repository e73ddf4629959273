// Year A as bytes, and what computes its bill: no code.
#![tactic(auto)]
