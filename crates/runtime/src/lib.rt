// Preparing, accounting and the choice of deadline over the table. After scheduler/state/runtime.rs; publishing,
// generations and locks are left out.
#![tactic(auto)]

mod account;
mod deadlines;
mod judging;
mod prepare;

pub use account::{account_current, current_candidate, expired, finish_turn};
use algorithms::PolicyRuntime;
use arbitration::{Candidate, CpuWindow};
pub use deadlines::refresh_deadline;
use decisions::Turns;
pub use prepare::prepare_enqueue;
use refusal::Refusal;

// What preparing stores: the refreshed runtime and the turn; and the counters afterwards.
#[derive(Clone, Copy)]
pub struct Preparation {
    pub runtime: PolicyRuntime,
    pub turn: u64,
    pub turns: Turns,
}

// Whether a thread was prepared, and the counters as they are left.
#[derive(Clone, Copy)]
pub struct Prepared {
    pub answer: Result<(), Refusal>,
    pub turns: Turns,
}

// What accounting stores: the runtime; and the window afterwards.
#[derive(Clone, Copy)]
pub struct Accounting {
    pub runtime: PolicyRuntime,
    pub window: CpuWindow,
}

// A runtime refreshed to now, with the candidate that it makes.
#[derive(Clone, Copy)]
pub struct Refreshed {
    pub runtime: PolicyRuntime,
    pub candidate: Candidate,
}

// What refreshing a deadline stores: the runtime; the window afterwards, and the deadline.
#[derive(Clone, Copy)]
pub struct Due {
    pub runtime: PolicyRuntime,
    pub window: CpuWindow,
    pub deadline: Option<u64>,
}
