// The ready queue as a value: the source's struct, its constructor, its lengths and its calls. A call stores the
// value's parts to rows, makes the call on the rows (crates lent_queue and lent_selection) and reads the parts back.
// After `CpuRunQueue` of scheduler/queue.rs.
#![tactic(auto)]

mod priority_lists;
mod tree_roots;

ghost use Rattle.std.specs.Prelude.{true, false, ◌≡◌};
ghost use Rattle.rows.specs.Table.{table, out};
ghost use Rattle.rows.specs.Frame.{Framed};
ghost use Rattle.queue.specs.Queue as calls;
ghost use Rattle.lent_queue.specs.LentQueue.{halted_from, queue_of};
ghost use Rattle.selection.specs.Peek.{peek_next};
ghost use Rattle.run_queue.specs.Value.{value_of, step_of, selection_of, MarksAre};

use arbitration::{Candidate, CpuWindow};
use codec::{Row, words_of_epoch};
use lent_queue::{
    QUEUE_ROW_WORDS, QUEUE_ROWS, QueueRow, QueueRows, budget_len, enqueue_lent, epoch_at,
    fair_list, is_halted, real_time_len, remove_lent, set_fair, store_marks,
};
use lent_selection::peek_lent;
use priority_lists::{lists_of, store_lists};
use queue::{PRIORITIES, Root, TREES};
use ready_index::Path;
use refusal::Refusal;
use selection::Selection;
use thread::{CpuIndex, ThreadId, ThreadQueue};
use tree_roots::{roots_of, store_roots};

// 256 priority lists and their total, the fair list, twelve trees, the epoch of the last selection, the number of
// budget threads, and the mark of a queue that halted.
#[derive(Clone, Copy)]
pub struct CpuRunQueue {
    pub realtime: [ThreadQueue; PRIORITIES],
    pub realtime_len: u64,
    pub fair: ThreadQueue,
    pub indices: [Root; TREES],
    pub budget_epoch: Option<u64>,
    pub budget_threads: u64,
    pub halted: bool,
}

// The queue as a call leaves it.
#[derive(Clone, Copy)]
pub struct QueueStep {
    pub answer: Result<(), Refusal>,
    pub queue: CpuRunQueue,
}

// The answer, with window and queue as selection leaves them.
#[derive(Clone, Copy)]
pub struct SelectionStep {
    pub answer: Result<Selection, Refusal>,
    pub window: CpuWindow,
    pub queue: CpuRunQueue,
}

#[tactic(auto, using(crate::specs::ValueLaws::values))]
fn word_of_mark(halted: bool) -> u64
    ensures { halted_from result ≡ halted }
{
    u64::from(halted)
}

fn words_of_marks(
    realtime_len: u64,
    budget_threads: u64,
    epoch: Option<u64>,
    halted: bool,
) -> QueueRow
    ensures { MarksAre result realtime_len budget_threads epoch halted }
{
    let words = words_of_epoch(epoch);
    let mark = word_of_mark(halted);
    [realtime_len, budget_threads, words[0], words[1], mark]
}

// The value's parts stored to rows.
#[tactic(auto, using(crate::specs::ValueLaws::values))]
fn store(q: &mut QueueRows, queue: CpuRunQueue)
    ensures { queue_of q.new ≡ value_of queue }
{
    let realtime = queue.realtime;
    let fair = queue.fair;
    let indices = queue.indices;
    let epoch = queue.budget_epoch;
    let row = words_of_marks(
        queue.realtime_len,
        queue.budget_threads,
        epoch,
        queue.halted,
    );
    store_lists(q, realtime);
    set_fair(q, fair);
    store_roots(q, indices);
    store_marks(q, row);
}

// The value that rows stand for.
#[tactic(auto, using(crate::specs::ValueLaws::values))]
fn load(q: &QueueRows) -> CpuRunQueue
    ensures { value_of result ≡ queue_of q.now }
{
    let realtime = lists_of(q);
    let fair = fair_list(q);
    let indices = roots_of(q);
    let budget_epoch = epoch_at(q);
    CpuRunQueue {
        realtime,
        realtime_len: real_time_len(q),
        fair,
        indices,
        budget_epoch,
        budget_threads: budget_len(q),
        halted: is_halted(q),
    }
}

// At the back, or at the front.
#[tactic(auto, using(crate::specs::ValueLaws::calls))]
fn insert(
    queue: CpuRunQueue,
    t: &mut [Row],
    path: &mut Path,
    id: ThreadId,
    cpu: CpuIndex,
    front: bool,
) -> QueueStep
    ensures t_after { out (step_of result) (table t.new) ≡ calls.enqueue_call front (table t.old)
        (value_of queue) id.0 cpu }
    ensures framed { Framed t.old t.new }
{
    let mut q: QueueRows = [[0; QUEUE_ROW_WORDS]; QUEUE_ROWS];
    store(&mut q, queue);
    let answer = enqueue_lent(&mut q, t, path, id, cpu, front);
    let left = load(&q);
    QueueStep {
        answer,
        queue: left,
    }
}

impl CpuRunQueue {
    // Empty lists and trees, no epoch, not halted.
    #[tactic(auto, using(crate::specs::ValueLaws::values))]
    pub fn new() -> Self
        ensures { value_of result ≡ calls.new_queue }
    {
        let list = ThreadQueue::new();
        let root = Root { root: None };
        let realtime = [list; PRIORITIES];
        let indices = [root; TREES];
        Self {
            realtime,
            realtime_len: 0,
            fair: ThreadQueue::new(),
            indices,
            budget_epoch: None,
            budget_threads: 0,
            halted: false,
        }
    }

    pub fn real_time_len(self) -> u64
        ensures { result ≡ calls.real_time_len (value_of self) }
    {
        self.realtime_len
    }

    pub fn fair_len(self) -> u64
        ensures { result ≡ calls.fair_len (value_of self) }
    {
        let fair = self.fair;
        fair.len
    }

    pub fn budget_len(self) -> u64
        ensures { result ≡ calls.budget_len (value_of self) }
    {
        self.budget_threads
    }

    // The thread becomes the last of its list.
    pub fn enqueue(self, t: &mut [Row], path: &mut Path, id: ThreadId, cpu: CpuIndex) -> QueueStep
        ensures t_after { out (step_of result) (table t.new) ≡ calls.enqueue_call false (table t.old)
            (value_of self) id.0 cpu }
        ensures framed { Framed t.old t.new }
    {
        insert(self, t, path, id, cpu, false)
    }

    // The thread becomes the first of its list.
    pub fn enqueue_front(
        self,
        t: &mut [Row],
        path: &mut Path,
        id: ThreadId,
        cpu: CpuIndex,
    ) -> QueueStep
        ensures t_after { out (step_of result) (table t.new) ≡ calls.enqueue_call true (table t.old)
            (value_of self) id.0 cpu }
        ensures framed { Framed t.old t.new }
    {
        insert(self, t, path, id, cpu, true)
    }

    // The thread leaves its list and the tree that holds it.
    #[tactic(auto, using(crate::specs::ValueLaws::calls))]
    pub fn remove(self, t: &mut [Row], path: &mut Path, id: ThreadId, cpu: CpuIndex) -> QueueStep
        ensures t_after { out (step_of result) (table t.new) ≡ calls.remove_call (table t.old)
            (value_of self) id.0 cpu }
        ensures framed { Framed t.old t.new }
    {
        let mut q: QueueRows = [[0; QUEUE_ROW_WORDS]; QUEUE_ROWS];
        store(&mut q, self);
        let answer = remove_lent(&mut q, t, path, id, cpu);
        let left = load(&q);
        QueueStep {
            answer,
            queue: left,
        }
    }

    // The queued thread with the least dispatch key, or none; the demand; the lowest fair pass; window and queue as
    // they are left.
    #[tactic(auto, using(crate::specs::ValueLaws::calls))]
    pub fn peek_next(
        self,
        t: &mut [Row],
        path: &mut Path,
        cpu: CpuIndex,
        reading: u64,
        window: CpuWindow,
        current: Option<Candidate>,
    ) -> SelectionStep
        ensures t_after { out (selection_of result) (table t.new)
            ≡ peek_next (table t.old) (value_of self) cpu reading window current }
        ensures framed { Framed t.old t.new }
    {
        let mut q: QueueRows = [[0; QUEUE_ROW_WORDS]; QUEUE_ROWS];
        store(&mut q, self);
        let peeked = peek_lent(&mut q, t, path, cpu, reading, window, current);
        let answer = peeked.answer;
        let fresh = peeked.window;
        let left = load(&q);
        SelectionStep {
            answer,
            window: fresh,
            queue: left,
        }
    }
}
