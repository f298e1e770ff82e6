// What a call on the ready queue of one processor is to do: the judgement of the named thread and the plan of an
// enqueue or a removal. The calls themselves are crate lent_queue's. After `CpuRunQueue` of scheduler/queue.rs.
#![tactic(auto)]

mod judging;
mod planning;

pub use judging::{has_time_left, is_bad_row};
pub use planning::{insertion_plan, judge, partner, removal_plan};
use policy::SchedulingPolicy;
use refusal::Refusal;
use thread::{CpuIndex, QueueMembership};

pub const PRIORITIES: usize = 256;

pub const TREES: usize = 12;

// The first tree of a kind; that of FIFO is 0.
pub const FAIR: u64 = 3;

pub const BUDGET_READY: u64 = 6;

pub const BUDGET_EXHAUSTED: u64 = 9;

// The root of one tree. A queue has twelve.
#[derive(Clone, Copy)]
pub struct Root {
    pub root: Option<u64>,
}

// What the plans go by of a judged thread, and the number of the tree that it is filed in.
#[derive(Clone, Copy)]
pub struct Filed {
    pub policy: SchedulingPolicy,
    pub membership: QueueMembership,
    pub cpu: CpuIndex,
    pub index: u64,
}

// What a call is to do: the list by its membership, the tree by its number, and what the thread counts as.
#[derive(Clone, Copy)]
pub struct Plan {
    pub membership: QueueMembership,
    pub index: u64,
    pub fifo: bool,
    pub budgeted: bool,
}
