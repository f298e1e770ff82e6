// Calls on the queue's words and the table's rows.
ghost use Rattle.std.specs.Prelude.{true, false, ◌≡◌};
ghost use Rattle.refusal.specs.Answer.{by_number};
ghost use Rattle.lent_queue.specs.LentQueue.{queue_of};
ghost use Rattle.lent_queue.specs.Frame.{QueueFramed};
ghost use Rattle.board.specs.Board.{left, numbered, Spares, Makes, Enqueues, Removes, lengths_of, lengths};
ghost use Rattle.rows.specs.Frame.{Framed};

use board_words::LengthWords;
use codec::Row;
use lent_queue::{QueueRows, enqueue_lent, new_lent, remove_lent};
use ready_index::Path;
use refusal::Refusal;
use thread::{CpuIndex, ThreadId};

fn number_of(verdict: Result<(), Refusal>) -> u64
    ensures { result ≡ numbered (by_number verdict) }
{
    match verdict {
        Ok(()) => 0,
        Err(refusal) => refusal.number(),
    }
}

// CpuRunQueue::new
#[unsafe(no_mangle)]
pub extern "C" fn board_new(q: &mut QueueRows) -> u64
    ensures { Makes result q.new }
{
    new_lent(q);
    0
}

// CpuRunQueue::enqueue, with a path that the caller lends.
#[unsafe(no_mangle)]
pub extern "C" fn board_enqueue(
    q: &mut QueueRows,
    t: &mut [Row],
    path: &mut Path,
    id: u64,
    cpu: u8,
) -> u64
    ensures enqueues { Enqueues false q.old t.old id cpu result q.new t.new }
    ensures spares { Spares result q.old q.new }
    ensures spares_2 { Spares result t.old t.new }
    ensures q_unchanged { (queue_of q.old).halted ≡ true → q.new ≡ q.old }
    ensures t_unchanged { (queue_of q.old).halted ≡ true → t.new ≡ t.old }
    ensures framed { Framed t.old t.new }
    ensures queue_framed { QueueFramed q.old q.new }
{
    number_of(enqueue_lent(q, t, path, ThreadId(id), CpuIndex(cpu), false))
}

// CpuRunQueue::enqueue_front, with a path that the caller lends.
#[unsafe(no_mangle)]
pub extern "C" fn board_enqueue_front(
    q: &mut QueueRows,
    t: &mut [Row],
    path: &mut Path,
    id: u64,
    cpu: u8,
) -> u64
    ensures enqueues { Enqueues true q.old t.old id cpu result q.new t.new }
    ensures spares { Spares result q.old q.new }
    ensures spares_2 { Spares result t.old t.new }
    ensures q_unchanged { (queue_of q.old).halted ≡ true → q.new ≡ q.old }
    ensures t_unchanged { (queue_of q.old).halted ≡ true → t.new ≡ t.old }
    ensures framed { Framed t.old t.new }
    ensures queue_framed { QueueFramed q.old q.new }
{
    number_of(enqueue_lent(q, t, path, ThreadId(id), CpuIndex(cpu), true))
}

// CpuRunQueue::remove, with a path that the caller lends.
#[unsafe(no_mangle)]
pub extern "C" fn board_remove(
    q: &mut QueueRows,
    t: &mut [Row],
    path: &mut Path,
    id: u64,
    cpu: u8,
) -> u64
    ensures removes { Removes q.old t.old id cpu result q.new t.new }
    ensures spares { Spares result q.old q.new }
    ensures spares_2 { Spares result t.old t.new }
    ensures q_unchanged { (queue_of q.old).halted ≡ true → q.new ≡ q.old }
    ensures t_unchanged { (queue_of q.old).halted ≡ true → t.new ≡ t.old }
    ensures framed { Framed t.old t.new }
    ensures queue_framed { QueueFramed q.old q.new }
{
    number_of(remove_lent(q, t, path, ThreadId(id), CpuIndex(cpu)))
}

// CpuRunQueue::real_time_len, fair_len and budget_len.
#[unsafe(no_mangle)]
pub extern "C" fn board_lengths(q: &QueueRows, answer: &mut LengthWords) -> u64
    ensures { left result (lengths_of answer.new) ≡ left 0 (lengths (queue_of q.now)) }
{
    let real_time = lent_queue::real_time_len(q);
    let fair = lent_queue::fair_len(q);
    let budget = lent_queue::budget_len(q);
    *answer = [real_time, fair, budget];
    0
}
