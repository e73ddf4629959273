// What accepted records say: definitions and laws, in specs/.
#![tactic(auto)]
