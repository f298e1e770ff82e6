// The plan of a call: the judgement of the named record, and the list and the tree that the call touches.
ghost use Rattle.std.specs.Prelude.{◌≡◌};
ghost use Rattle.refusal.specs.Answer.{by_number};
ghost use Rattle.rows.specs.Table.{table};
ghost use Rattle.queue.specs.Queue as calls;
ghost use Rattle.queue.specs.Plan as plans;

use crate::judging::{filed_of_row, index_of_row, is_bad_row};
use crate::{Filed, Plan};
use codec::Row;
use policy::SchedulingPolicy;
use ready_index::contains_under;
use refusal::Refusal;
use rows::MAX_RECORDS;
use thread::{CpuIndex, QueueMembership};

// The named thread is judged: table, mark, number, record and policy, in this order.
pub fn judge(t: &[Row], halted: bool, id: u64) -> Result<Filed, Refusal>
    ensures { by_number result ≡ plans.judgement (table t.now) halted id }
{
    if MAX_RECORDS < t.len() {
        return Err(Refusal::BadTable);
    }
    if halted {
        return Err(Refusal::Halted);
    }
    let k = id as usize;
    if k < t.len() {
        let row = t[k];
        if is_bad_row(row) {
            return Err(Refusal::BadRecord);
        }
        let filing = index_of_row(row);
        return match filing {
            None => Err(Refusal::BadState),
            Some(index) => Ok(filed_of_row(row, index)),
        };
    }
    Err(Refusal::NoThread)
}

pub fn is_fifo(policy: SchedulingPolicy) -> bool
    ensures { result ≡ calls.is_fifo policy }
{
    match policy {
        SchedulingPolicy::Fifo { priority: _ } => true,
        SchedulingPolicy::Fair => false,
        SchedulingPolicy::Budget => false,
        SchedulingPolicy::Idle => false,
    }
}

pub fn is_budget(policy: SchedulingPolicy) -> bool
    ensures { result ≡ calls.is_budget policy }
{
    match policy {
        SchedulingPolicy::Fifo { priority: _ } => false,
        SchedulingPolicy::Fair => false,
        SchedulingPolicy::Budget => true,
        SchedulingPolicy::Idle => false,
    }
}

// The list in which a thread of a policy stands.
pub fn membership_for(policy: SchedulingPolicy, cpu: CpuIndex) -> QueueMembership
    ensures { result ≡ calls.membership_for policy cpu }
{
    match policy {
        SchedulingPolicy::Fifo { priority } => QueueMembership::ReadyRealTime {
            cpu,
            priority: priority.0,
        },
        SchedulingPolicy::Fair => QueueMembership::ReadyFair { cpu },
        SchedulingPolicy::Budget => QueueMembership::ReadyFair { cpu },
        SchedulingPolicy::Idle => QueueMembership::None,
    }
}

// A judged thread is in no list, and assigned to this processor.
pub fn plan_insertion(filed: Filed, cpu: CpuIndex) -> Result<Plan, Refusal>
    ensures { by_number result ≡ plans.plan_insertion filed cpu }
{
    let current = filed.membership;
    let assigned = filed.cpu;
    let policy = filed.policy;
    if !current.is_unqueued() {
        return Err(Refusal::Already);
    }
    if assigned.0 == cpu.0 {
        let membership = membership_for(policy, cpu);
        let fifo = is_fifo(policy);
        let budgeted = is_budget(policy);
        return Ok(Plan {
            membership,
            index: filed.index,
            fifo,
            budgeted,
        });
    }
    Err(Refusal::BadState)
}

// What an enqueue is to do.
pub fn insertion_plan(t: &[Row], halted: bool, id: u64, cpu: CpuIndex) -> Result<Plan, Refusal>
    ensures { by_number result ≡ plans.insertion_plan (table t.now) halted id cpu }
{
    let judgement = judge(t, halted, id);
    match judgement {
        Err(refusal) => Err(refusal),
        Ok(filed) => plan_insertion(filed, cpu),
    }
}

// The other budget tree of a role.
pub fn partner(index: u64) -> u64
    ensures { result ≡ calls.partner index }
{
    if index < 9 {
        return index + 3;
    }
    index - 3
}

// The tree that holds the thread: that of its filing, or of a budget the partner.
#[tactic(auto,
// The laws, and the definitions that are opened.
using(refusal::specs::Cases::cases, crate::specs::PlanLaws::plannings), unfolding(crate::specs::Plan::tree_found))]
pub fn tree_found(
    t: &[Row],
    root: Option<u64>,
    other: Option<u64>,
    id: u64,
    budgeted: bool,
    index: u64,
) -> Result<u64, Refusal>
    ensures { by_number result ≡ plans.tree_found (table t.now) root other id budgeted index }
{
    if contains_under(t, root, id)? {
        return Ok(index);
    }
    if budgeted && contains_under(t, other, id)? {
        return Ok(partner(index));
    }
    Err(Refusal::Damaged)
}

// A ready membership is of this processor.
pub fn plan_ready(
    fifo: bool,
    cpu: CpuIndex,
    ready_cpu: CpuIndex,
    budgeted: bool,
    index: u64,
    membership: QueueMembership,
) -> Result<Plan, Refusal>
    ensures { by_number result ≡ plans.plan_ready fifo cpu ready_cpu budgeted index membership }
{
    if ready_cpu.0 == cpu.0 {
        return Ok(Plan {
            membership,
            index,
            fifo,
            budgeted,
        });
    }
    Err(Refusal::Damaged)
}

// The thread's own membership names its list.
pub fn plan_removal(filed: Filed, index: u64, cpu: CpuIndex) -> Result<Plan, Refusal>
    ensures { by_number result ≡ plans.plan_removal filed index cpu }
{
    let policy = filed.policy;
    let budgeted = is_budget(policy);
    let membership = filed.membership;
    match membership {
        QueueMembership::None => Err(Refusal::Damaged),
        QueueMembership::ReadyRealTime {
            cpu: ready_cpu,
            priority,
        } => plan_ready(
            true,
            cpu,
            ready_cpu,
            budgeted,
            index,
            QueueMembership::ReadyRealTime {
                cpu: ready_cpu,
                priority,
            },
        ),
        QueueMembership::ReadyFair { cpu: ready_cpu } => plan_ready(
            false,
            cpu,
            ready_cpu,
            budgeted,
            index,
            QueueMembership::ReadyFair { cpu: ready_cpu },
        ),
        QueueMembership::Waiting { queue: _ } => Err(Refusal::Damaged),
        QueueMembership::Terminated => Err(Refusal::Damaged),
    }
}

// What a removal of a judged thread is to do, by the roots of the tree of its filing and of the partner.
pub fn removal_plan(
    t: &[Row],
    filed: Filed,
    root: Option<u64>,
    other: Option<u64>,
    id: u64,
    cpu: CpuIndex,
) -> Result<Plan, Refusal>
    ensures { by_number result ≡ plans.removal_plan (table t.now) filed root other id cpu }
{
    let policy = filed.policy;
    let budgeted = is_budget(policy);
    let found = tree_found(t, root, other, id, budgeted, filed.index);
    match found {
        Err(refusal) => Err(refusal),
        Ok(index) => plan_removal(filed, index, cpu),
    }
}
