// Turns, budgets and windows: the theory of crate runtime is in specs/ and proofs/ (proofs/Theorems.antt has the
// theorems); there is no code here.

#![tactic(auto)]
