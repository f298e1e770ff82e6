// Sound queues: the theory of enqueue and remove is in specs/ and proofs/ (proofs/Calls.antt has the theorems); there
// is no code here.

#![tactic(auto)]
