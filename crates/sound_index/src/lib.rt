// Demand 2: the theory of the ready index on sound trees is in specs/ and proofs/ (proofs/Demand2.antt has the
// theorems); there is no code here.

#![tactic(auto)]
