// A thread's record: its parts, links, memberships and the order of tree keys; its filing and the judgement of it are
// definitions (specs). After task/thread.rs, task/wait.rs and scheduler/queue.rs.
#![tactic(auto)]

ghost use Rattle.std.specs.Prelude.{◌≡◌};
ghost use Rattle.thread.specs.Membership.{empty_queue, points_to, is_unqueued, same_membership, ready_cpu};
ghost use Rattle.thread.specs.TreeKey.{compare_tree_keys};

use algorithms::{PolicyRuntime, Wide};
use policy::SchedulingParameters;
use std::cmp::Ordering;

// A thread's number: its record's place in the table.
#[derive(Clone, Copy)]
pub struct ThreadId(pub u64);

impl ThreadId {
    pub fn new(value: u64) -> Self
        ensures { result.0 ≡ value }
    {
        Self(value)
    }

    pub fn get(self) -> u64
        ensures { result ≡ self.0 }
    {
        self.0
    }
}

// A processor's number.
#[derive(Clone, Copy, PartialEq, Eq)]
pub struct CpuIndex(pub u8);

impl CpuIndex {
    pub fn new(value: u8) -> Self
        ensures { result.0 ≡ value }
    {
        Self(value)
    }

    pub fn get(self) -> u8
        ensures { result ≡ self.0 }
    {
        self.0
    }
}

// A record's links within its tree. After `ReadyTreeLinks`.
#[derive(Clone, Copy)]
pub struct Links {
    pub left: Option<u64>,
    pub right: Option<u64>,
    pub height: u8,
}

impl Links {
    // A tree of one.
    pub const EMPTY: Self = Self {
        left: None,
        right: None,
        height: 1,
    };
}

// The list that a record stands in.
#[derive(Clone, Copy, PartialEq, Eq)]
pub enum QueueMembership {
    None,
    ReadyRealTime { cpu: CpuIndex, priority: u8 },
    ReadyFair { cpu: CpuIndex },
    Waiting { queue: u64 },
    Terminated,
}

// A record's neighbours within its list, and which list that is.
#[derive(Clone, Copy)]
pub struct QueueLinks {
    pub previous: Option<u64>,
    pub next: Option<u64>,
    pub membership: QueueMembership,
}

impl QueueLinks {
    // In no list.
    pub const EMPTY: Self = Self {
        previous: None,
        next: None,
        membership: QueueMembership::None,
    };
}

// A list by its ends. After task/wait.rs.
#[derive(Clone, Copy)]
pub struct ThreadQueue {
    pub head: Option<u64>,
    pub tail: Option<u64>,
    pub len: u64,
}

impl ThreadQueue {
    pub fn new() -> Self
        ensures { result ≡ empty_queue }
    {
        Self {
            head: None,
            tail: None,
            len: 0,
        }
    }
}

// What the scheduler keeps of a thread. After `ThreadScheduleState`; `cpu` is the processor it is assigned to.
// (SPECIFICATION 5.1).
#[derive(Clone, Copy)]
pub struct ThreadRecord {
    pub parameters: SchedulingParameters,
    pub runtime: PolicyRuntime,
    pub ready_turn: u64,
    pub ready_tree: Links,
    pub queue_links: QueueLinks,
    pub cpu: CpuIndex,
}

// What a tree is ordered by, part by part as declared: a later part decides only where all before it are equal.
#[derive(Clone, Copy, PartialEq, Eq, PartialOrd, Ord)]
pub struct TreeKey {
    pub algorithm: Wide,
    pub band: u8,
    pub turn: u64,
    pub id: u64,
}

// Whether a link is `Some(id)`.
#[tactic(auto,
// The definitions that are opened.
unfolding(crate::specs::Membership::points_to, crate::specs::Membership::on_link, refusal::specs::Cases::if_equal,
// And what those rest on.
refusal::specs::Cases::choose))]
pub fn points_to(link: Option<u64>, id: u64) -> bool
    ensures { result ≡ points_to link id }
{
    link == Some(id)
}

impl QueueMembership {
    // In no list.
    #[tactic(auto, unfolding(crate::specs::Membership::is_unqueued, crate::specs::Membership::on_membership))]
    pub fn is_unqueued(self) -> bool
        ensures { result ≡ is_unqueued self }
    {
        matches!(self, QueueMembership::None)
    }
}

// Whether the two are equal.
#[tactic(auto,
// The definitions that are opened.
unfolding(crate::specs::Membership::same_membership, crate::specs::Membership::on_membership,
// And what those rest on.
crate::specs::Membership::is_unqueued, crate::specs::Membership::is_ready_real_time,
// And so on.
crate::specs::Membership::is_ready_fair, crate::specs::Membership::is_waiting,
// And so on.
crate::specs::Membership::is_terminated, refusal::specs::Cases::if_equal, refusal::specs::Cases::choose))]
pub fn same_membership(membership: QueueMembership, other: QueueMembership) -> bool
    ensures { result ≡ same_membership membership other }
{
    membership == other
}

// The processor of a ready membership, or none.
#[tactic(auto, unfolding(crate::specs::Membership::ready_cpu, crate::specs::Membership::on_membership))]
pub fn ready_cpu(membership: QueueMembership) -> Option<CpuIndex>
    ensures { result ≡ ready_cpu membership }
{
    match membership {
        QueueMembership::ReadyRealTime { cpu, .. } => Some(cpu),
        QueueMembership::ReadyFair { cpu } => Some(cpu),
        _ => None,
    }
}

// Algorithm, band, turn, number, as `TreeKey` declares them.
#[tactic(auto,
// The definitions that are opened.
unfolding(crate::specs::TreeKey::compare_tree_keys, crate::specs::TreeKey::parts, order::specs::Order::compare_parts,
// And what those rest on.
order::specs::Order::then_by, order::specs::Order::compare_numbers, refusal::specs::Cases::if_less,
// And so on.
refusal::specs::Cases::choose))]
pub fn compare_tree_keys(a: TreeKey, b: TreeKey) -> Ordering
    ensures { result ≡ compare_tree_keys a b }
{
    a.cmp(&b)
}
