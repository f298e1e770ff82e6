// What scheduler/state/runtime.rs decides by values alone: turns, the switch rule, and the current thread's own
// deadline. Crate runtime has the calls over the table.
#![tactic(auto)]

mod own;
mod switching;
mod taking;

ghost use Rattle.std.specs.Prelude.{◌≡◌};
ghost use Rattle.decisions.specs.Turns.{new_turns};

use arbitration::{Demand, DispatchMode};
use dispatch_keys::DispatchKey;
pub use own::{borrows, budget_expiry};
use refusal::Refusal;
pub use switching::{choose_ready, mode_of};
pub use taking::turn_for;

// The turn counters: the next turn at the back, and the last that was taken at the front. The source's statics
// BACK_TURN and FRONT_TURN.
#[derive(Clone, Copy)]
pub struct Turns {
    pub back: u64,
    pub front: u64,
}

impl Turns {
    // Both 2^63.
    pub fn new() -> Self
        ensures { result ≡ new_turns }
    {
        Self {
            back: 9_223_372_036_854_775_808,
            front: 9_223_372_036_854_775_808,
        }
    }
}

// A thread's turn, with the counters afterwards.
#[derive(Clone, Copy)]
pub struct Taken {
    pub turn: u64,
    pub turns: Turns,
}

// Whether to switch to the ready thread, and whether the current one then goes to the front.
#[derive(Clone, Copy)]
pub struct Choice {
    pub should_switch: bool,
    pub front: bool,
}

// What else there is on the processor: any queued thread, a queued budget thread, a ready thread, and the demand of
// all.
#[derive(Clone, Copy)]
pub struct Contention {
    pub competition: bool,
    pub budget_peer: bool,
    pub ready: bool,
    pub demand: Demand,
}
