// Demand 3 over the words that a board lends: specs/Claim.antt has the words of the claim, proofs/Words.antt the
// theorem; there is no code here.

#![tactic(auto)]
