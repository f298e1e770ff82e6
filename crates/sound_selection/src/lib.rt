// Selection on sound queues: the theory is in specs/ and proofs/ (specs/Claim.antt has the words of demand 3,
// proofs/Demand3.antt the theorem); there is no code here.

#![tactic(auto)]
