// Selection: the queued thread with the least dispatch key. After `CpuRunQueue::peek_next` of scheduler/queue.rs; the
// definitions are in specs/.
#![tactic(auto)]

mod choosing;
mod peeking;

use algorithms::Wide;
use arbitration::{CpuWindow, Demand};
use demands::Gathered;
use dispatch_keys::DispatchKey;
pub use peeking::peek_heads;
use policy::SchedulingPolicy;
use refusal::Refusal;
pub use renewal::{is_epoch, renew_roles};
use thread::ThreadId;

#[derive(Clone, Copy)]
pub struct ReadyThread {
    pub id: ThreadId,
    pub policy: SchedulingPolicy,
    pub key: DispatchKey,
}

#[derive(Clone, Copy)]
pub struct Selection {
    pub ready: Option<ReadyThread>,
    pub demand: Demand,
    pub fair_min_pass: Option<Wide>,
}

// What the heads ask for, and how many were found.
#[derive(Clone, Copy)]
struct Gathering {
    answer: Result<Gathered, Refusal>,
    count: usize,
}

// The answer, and the window as its heads leave it.
#[derive(Clone, Copy)]
pub struct WindowPeek {
    pub answer: Result<Selection, Refusal>,
    pub window: CpuWindow,
}
