// What calls leave of the rows' words: the theory over crate rows' Frame is in specs/ (specs/Theorems.antt has the
// theorems); there is no code here.

#![tactic(auto)]
