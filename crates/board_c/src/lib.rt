// The C calls of the crate board: each is the call of its name there, and promises the same.
#![tactic(auto)]

mod queueing;
mod recording;
mod running;
mod selecting;
mod versions;
mod windows;
