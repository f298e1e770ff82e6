// The ready queue over words that a board lends: enqueue at either end and remove. Only the list, the root and the
// counts that a call touches are read and stored. After `CpuRunQueue` of scheduler/queue.rs.
#![tactic(auto)]

ghost use Rattle.std.specs.Prelude.{◌<◌, ◌≡◌, true, get_or, length, set};
ghost use Rattle.refusal.specs.Answer.{by_number};
ghost use Rattle.thread.specs.Membership.{empty_queue};
ghost use Rattle.codec.specs.Codec.{word};
ghost use Rattle.codec.specs.Frame.{option_encodes};
ghost use Rattle.rows.specs.Table.{table, out};
ghost use Rattle.rows.specs.Unmoved.{Spared};
ghost use Rattle.rows.specs.Frame.{Framed};
ghost use Rattle.queue_work.specs.Work.{work_of, Untouched};
ghost use Rattle.queue.specs.Queue as calls;
ghost use Rattle.queue.specs.Plan as plans;
ghost use Rattle.lent_queue.specs.LentQueue.{tree_count, marks_row, head_tag, head_word, tail_tag, tail_word};
ghost use Rattle.lent_queue.specs.LentQueue.{list_from};
ghost use Rattle.lent_queue.specs.LentQueue.{queue_of, with_realtime, with_fair, with_root, with_counts, with_marks};
ghost use Rattle.lent_queue.specs.Frame.{QueueFramed};

use codec::{Row, link_from, words_of_link};
use queue::{Filed, Plan, insertion_plan, judge, partner, removal_plan};
use queue_work::{Parts, Worked, insert_work, remove_work};
use ready_index::Path;
use refusal::Refusal;
use thread::{CpuIndex, QueueMembership, ThreadId, ThreadQueue};

// The rows of a queue: a list for each priority, the fair list, the roots of the trees, and one row of counts, epoch
// and mark.
pub const QUEUE_ROWS: usize = 270;

pub const QUEUE_ROW_WORDS: usize = 5;

pub const FAIR_ROW: usize = 256;

pub const ROOT_ROWS: usize = 257;

pub const MARKS_ROW: usize = 269;

// The words of a list's row, and of a root's, which has a head alone.
pub const HEAD_TAG: usize = 0;

pub const HEAD: usize = 1;

const TAIL_TAG: usize = 2;

const TAIL: usize = 3;

const LEN: usize = 4;

// The words of the row of counts, epoch and mark.
pub const REALTIME_LEN: usize = 0;

pub const BUDGET_THREADS: usize = 1;

pub const EPOCH_TAG: usize = 2;

pub const EPOCH: usize = 3;

pub const HALTED: usize = 4;

pub type QueueRow = [u64; QUEUE_ROW_WORDS];

pub type QueueRows = [QueueRow; QUEUE_ROWS];

pub fn list_from(w: QueueRow) -> ThreadQueue
    ensures { result ≡ list_from w }
{
    let head = link_from(w[HEAD_TAG], w[HEAD]);
    let tail = link_from(w[TAIL_TAG], w[TAIL]);
    ThreadQueue {
        head,
        tail,
        len: w[LEN],
    }
}

pub fn words_of_list(list: ThreadQueue) -> QueueRow
    ensures result_value { list_from result ≡ list }
    ensures head_word_value { option_encodes (word result head_tag) (word result head_word) ≡ true }
    ensures tail_word_value { option_encodes (word result tail_tag) (word result tail_word) ≡ true }
{
    let its_head = list.head;
    let its_tail = list.tail;
    let head = words_of_link(its_head);
    let tail = words_of_link(its_tail);
    [head[0], head[1], tail[0], tail[1], list.len]
}

// The root of one of the twelve trees.
fn root_at(q: &QueueRows, index: u64) -> Option<u64>
    requires { index < tree_count }
    ensures { result ≡ calls.root_of (queue_of q.now) index }
{
    let at = ROOT_ROWS + index as usize;
    let row = q[at];
    link_from(row[HEAD_TAG], row[HEAD])
}

fn real_time_at(q: &QueueRows, priority: u8) -> ThreadQueue
    ensures { result ≡ get_or (queue_of q.now).realtime priority empty_queue }
{
    let at = priority as usize;
    let row = q[at];
    list_from(row)
}

pub fn fair_list(q: &QueueRows) -> ThreadQueue
    ensures { result ≡ (queue_of q.now).fair }
{
    let row = q[FAIR_ROW];
    list_from(row)
}

fn set_real_time(q: &mut QueueRows, priority: u8, list: ThreadQueue)
    ensures q_after { queue_of q.new ≡ with_realtime (queue_of q.old) priority list }
    ensures queue_framed { QueueFramed q.old q.new }
{
    let at = priority as usize;
    let row = words_of_list(list);
    q[at] = row;
}

fn store_row(q: &mut [QueueRow], at: usize, row: QueueRow)
    requires { at < length q.old }
    ensures { q.new ≡ set q.old at row }
{
    q[at] = row;
}

pub fn set_fair(q: &mut QueueRows, list: ThreadQueue)
    ensures q_after { queue_of q.new ≡ with_fair (queue_of q.old) list }
    ensures queue_framed { QueueFramed q.old q.new }
{
    let row = words_of_list(list);
    store_row(q, FAIR_ROW, row);
}

fn set_root(q: &mut QueueRows, index: u64, root: Option<u64>)
    requires { index < tree_count }
    ensures q_after { queue_of q.new ≡ with_root (queue_of q.old) index root }
    ensures queue_framed { QueueFramed q.old q.new }
{
    let at = ROOT_ROWS + index as usize;
    let row = q[at];
    let words = words_of_link(root);
    q[at] = [words[0], words[1], row[2], row[3], row[4]];
}

// The row of counts, epoch and mark stored; that there is one is a matter of type.
pub fn store_marks(q: &mut QueueRows, row: QueueRow)
    ensures q_after { queue_of q.new ≡ with_marks (queue_of q.old) row }
    ensures q_after_2 { q.new ≡ set q.old marks_row row }
{
    store_row(q, MARKS_ROW, row);
}

fn set_counts(q: &mut QueueRows, realtime_len: u64, budget_threads: u64)
    ensures q_after { queue_of q.new ≡ with_counts (queue_of q.old) realtime_len budget_threads }
    ensures queue_framed { QueueFramed q.old q.new }
{
    let row = q[MARKS_ROW];
    store_marks(
        q,
        [
            realtime_len,
            budget_threads,
            row[EPOCH_TAG],
            row[EPOCH],
            row[HALTED],
        ],
    );
}

fn set_mark(q: &mut QueueRows)
    ensures q_after { queue_of q.new ≡ calls.marked (queue_of q.old) }
    ensures queue_framed { QueueFramed q.old q.new }
{
    let row = q[MARKS_ROW];
    store_marks(
        q,
        [
            row[REALTIME_LEN],
            row[BUDGET_THREADS],
            row[EPOCH_TAG],
            row[EPOCH],
            1,
        ],
    );
}

pub fn epoch_at(q: &QueueRows) -> Option<u64>
    ensures { result ≡ (queue_of q.now).budget_epoch }
{
    let row = q[MARKS_ROW];
    if row[EPOCH_TAG] == 0 {
        return None;
    }
    Some(row[EPOCH])
}

pub fn is_halted(q: &QueueRows) -> bool
    ensures { result ≡ (queue_of q.now).halted }
{
    let row = q[MARKS_ROW];
    if row[HALTED] == 0 {
        return false;
    }
    true
}

// The list that a ready membership names.
fn list_of(q: &QueueRows, membership: QueueMembership) -> ThreadQueue
    ensures { result ≡ calls.list_of (queue_of q.now) membership }
{
    match membership {
        QueueMembership::None => fair_list(q),
        QueueMembership::ReadyRealTime { cpu: _, priority } => real_time_at(q, priority),
        QueueMembership::ReadyFair { cpu: _ } => fair_list(q),
        QueueMembership::Waiting { queue: _ } => fair_list(q),
        QueueMembership::Terminated => fair_list(q),
    }
}

fn parts_of(q: &QueueRows, membership: QueueMembership, index: u64) -> Parts
    requires { index < tree_count }
    ensures { result ≡ calls.parts_of (queue_of q.now) membership index }
{
    let list = list_of(q, membership);
    let root = root_at(q, index);
    let row = q[MARKS_ROW];
    Parts {
        list,
        realtime_len: row[REALTIME_LEN],
        root,
        budget_threads: row[BUDGET_THREADS],
    }
}

fn store_real_time(q: &mut QueueRows, priority: u8, index: u64, parts: Parts)
    requires { index < tree_count }
    ensures q_after { queue_of q.new ≡ calls.stored (queue_of q.old) index parts
        (set (queue_of q.old).realtime priority parts.list) (queue_of q.old).fair }
    ensures queue_framed { QueueFramed q.old q.new }
{
    let list = parts.list;
    let root = parts.root;
    set_real_time(q, priority, list);
    set_root(q, index, root);
    set_counts(q, parts.realtime_len, parts.budget_threads);
}

fn store_fair(q: &mut QueueRows, index: u64, parts: Parts)
    requires { index < tree_count }
    ensures q_after { queue_of q.new ≡ calls.stored (queue_of q.old) index parts
        (queue_of q.old).realtime parts.list }
    ensures queue_framed { QueueFramed q.old q.new }
{
    let list = parts.list;
    let root = parts.root;
    set_fair(q, list);
    set_root(q, index, root);
    set_counts(q, parts.realtime_len, parts.budget_threads);
}

// The parts stored back.
fn store_parts(q: &mut QueueRows, membership: QueueMembership, index: u64, parts: Parts)
    requires { index < tree_count }
    ensures q_after { queue_of q.new ≡ calls.with_parts (queue_of q.old) membership index parts }
    ensures queue_framed { QueueFramed q.old q.new }
{
    match membership {
        QueueMembership::None => {}
        QueueMembership::ReadyRealTime { cpu: _, priority } => {
            store_real_time(q, priority, index, parts);
        }
        QueueMembership::ReadyFair { cpu: _ } => {
            store_fair(q, index, parts);
        }
        QueueMembership::Waiting { queue: _ } => {}
        QueueMembership::Terminated => {}
    }
}

// A call's work put back into the queue; where the source halts, with the mark.
fn settle(
    q: &mut QueueRows,
    membership: QueueMembership,
    index: u64,
    worked: Worked,
) -> Result<(), Refusal>
    requires { index < tree_count }
    ensures q_after { calls.step (by_number result) (queue_of q.new)
        ≡ plans.settled (queue_of q.old) membership index (work_of worked) }
    ensures untouched { Untouched (work_of worked) q.old q.new }
    ensures queue_framed { QueueFramed q.old q.new }
{
    match worked {
        Worked::Refused(refusal) => Err(refusal),
        Worked::Stored { parts, halted } => {
            store_parts(q, membership, index, parts);
            if halted {
                set_mark(q);
                return Err(Refusal::Halted);
            }
            Ok(())
        }
    }
}

fn insert_by(
    q: &mut QueueRows,
    t: &mut [Row],
    path: &mut Path,
    id: u64,
    plan: Plan,
    front: bool,
) -> Result<(), Refusal>
    requires { plan.index < tree_count }
    ensures t_after { out (calls.step (by_number result) (queue_of q.new)) (table t.new)
        ≡ plans.insert_by front (table t.old) (queue_of q.old) id plan }
    ensures spared { Spared (by_number result) q.old q.new }
    ensures spared_2 { Spared (by_number result) t.old t.new }
    ensures framed { Framed t.old t.new }
    ensures queue_framed { QueueFramed q.old q.new }
{
    let membership = plan.membership;
    let parts = parts_of(q, membership, plan.index);
    let worked = insert_work(
        t,
        path,
        parts,
        id,
        membership,
        front,
        plan.fifo,
        plan.budgeted,
    );
    settle(q, membership, plan.index, worked)
}

fn remove_by(
    q: &mut QueueRows,
    t: &mut [Row],
    path: &mut Path,
    id: u64,
    plan: Plan,
) -> Result<(), Refusal>
    requires { plan.index < tree_count }
    ensures t_after { out (calls.step (by_number result) (queue_of q.new)) (table t.new)
        ≡ plans.remove_by (table t.old) (queue_of q.old) id plan }
    ensures spared { Spared (by_number result) q.old q.new }
    ensures spared_2 { Spared (by_number result) t.old t.new }
    ensures framed { Framed t.old t.new }
    ensures queue_framed { QueueFramed q.old q.new }
{
    let membership = plan.membership;
    let parts = parts_of(q, membership, plan.index);
    let worked = remove_work(t, path, parts, id, membership, plan.fifo, plan.budgeted);
    settle(q, membership, plan.index, worked)
}

// Out of the tree and the list of a judged thread.
fn remove_filed(
    q: &mut QueueRows,
    t: &mut [Row],
    path: &mut Path,
    id: u64,
    cpu: CpuIndex,
    filed: Filed,
) -> Result<(), Refusal>
    requires { filed.index < tree_count }
    ensures t_after { out (calls.step (by_number result) (queue_of q.new)) (table t.new)
        ≡ plans.remove_filed (table t.old) (queue_of q.old) id cpu filed }
    ensures spared { Spared (by_number result) q.old q.new }
    ensures spared_2 { Spared (by_number result) t.old t.new }
    ensures framed { Framed t.old t.new }
    ensures queue_framed { QueueFramed q.old q.new }
{
    let root = root_at(q, filed.index);
    let beside = partner(filed.index);
    let other = root_at(q, beside);
    let planned = removal_plan(t, filed, root, other, id, cpu);
    match planned {
        Err(refusal) => Err(refusal),
        Ok(plan) => remove_by(q, t, path, id, plan),
    }
}

// A new queue.
pub fn new_lent(q: &mut QueueRows)
    ensures { queue_of q.new ≡ calls.new_queue }
{
    let row = [0; QUEUE_ROW_WORDS];
    *q = [row; QUEUE_ROWS];
}

pub fn real_time_len(q: &QueueRows) -> u64
    ensures { result ≡ calls.real_time_len (queue_of q.now) }
{
    let row = q[MARKS_ROW];
    row[REALTIME_LEN]
}

pub fn fair_len(q: &QueueRows) -> u64
    ensures { result ≡ calls.fair_len (queue_of q.now) }
{
    let list = fair_list(q);
    list.len
}

pub fn budget_len(q: &QueueRows) -> u64
    ensures { result ≡ calls.budget_len (queue_of q.now) }
{
    let row = q[MARKS_ROW];
    row[BUDGET_THREADS]
}

// `enqueue`, and with `front` `enqueue_front`.
pub fn enqueue_lent(
    q: &mut QueueRows,
    t: &mut [Row],
    path: &mut Path,
    id: ThreadId,
    cpu: CpuIndex,
    front: bool,
) -> Result<(), Refusal>
    ensures t_after { out (calls.step (by_number result) (queue_of q.new)) (table t.new)
        ≡ calls.enqueue_call front (table t.old) (queue_of q.old) id.0 cpu }
    ensures spared { Spared (by_number result) q.old q.new }
    ensures spared_2 { Spared (by_number result) t.old t.new }
    ensures q_unchanged { (queue_of q.old).halted ≡ true → q.new ≡ q.old }
    ensures t_unchanged { (queue_of q.old).halted ≡ true → t.new ≡ t.old }
    ensures framed { Framed t.old t.new }
    ensures queue_framed { QueueFramed q.old q.new }
{
    let halted = is_halted(q);
    let planned = insertion_plan(t, halted, id.0, cpu);
    match planned {
        Err(refusal) => Err(refusal),
        Ok(plan) => insert_by(q, t, path, id.0, plan, front),
    }
}

// `remove`.
pub fn remove_lent(
    q: &mut QueueRows,
    t: &mut [Row],
    path: &mut Path,
    id: ThreadId,
    cpu: CpuIndex,
) -> Result<(), Refusal>
    ensures t_after { out (calls.step (by_number result) (queue_of q.new)) (table t.new)
        ≡ calls.remove_call (table t.old) (queue_of q.old) id.0 cpu }
    ensures spared { Spared (by_number result) q.old q.new }
    ensures spared_2 { Spared (by_number result) t.old t.new }
    ensures q_unchanged { (queue_of q.old).halted ≡ true → q.new ≡ q.old }
    ensures t_unchanged { (queue_of q.old).halted ≡ true → t.new ≡ t.old }
    ensures framed { Framed t.old t.new }
    ensures queue_framed { QueueFramed q.old q.new }
{
    let halted = is_halted(q);
    let judgement = judge(t, halted, id.0);
    match judgement {
        Err(refusal) => Err(refusal),
        Ok(filed) => remove_filed(q, t, path, id.0, cpu, filed),
    }
}
