// Sound lists: what push, push_front and remove do to a list that is in order. The theorems stand in specs/ and
// proofs/; there is no code here.

#![tactic(auto)]
