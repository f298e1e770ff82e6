// The C calls of board's queueing.rt.
ghost use Rattle.std.specs.Prelude.{true, false, ◌≡◌};
ghost use Rattle.lent_queue.specs.LentQueue.{queue_of};
ghost use Rattle.lent_queue.specs.Frame.{QueueFramed};
ghost use Rattle.board.specs.Board.{left, Spares, Makes, Enqueues, Removes, lengths_of, lengths};
ghost use Rattle.rows.specs.Frame.{Framed};

use board_words::LengthWords;
use codec::Row;
use lent_queue::QueueRows;
use ready_index::Path;

// CpuRunQueue::new
#[unsafe(no_mangle)]
pub extern "C" fn board_new(q: &mut QueueRows) -> u64
    ensures { Makes result q.new }
{
    board::board_new(q)
}

// CpuRunQueue::enqueue, with a path that the caller lends.
#[unsafe(no_mangle)]
pub extern "C" fn board_enqueue(
    q: &mut QueueRows,
    t: &mut [Row],
    path: &mut Path,
    id: u64,
    cpu: u8,
) -> u64
    ensures enqueues { Enqueues false q.old t.old id cpu result q.new t.new }
    ensures spares { Spares result q.old q.new }
    ensures spares_2 { Spares result t.old t.new }
    ensures q_unchanged { (queue_of q.old).halted ≡ true → q.new ≡ q.old }
    ensures t_unchanged { (queue_of q.old).halted ≡ true → t.new ≡ t.old }
    ensures framed { Framed t.old t.new }
    ensures queue_framed { QueueFramed q.old q.new }
{
    board::board_enqueue(q, t, path, id, cpu)
}

// CpuRunQueue::enqueue_front, with a path that the caller lends.
#[unsafe(no_mangle)]
pub extern "C" fn board_enqueue_front(
    q: &mut QueueRows,
    t: &mut [Row],
    path: &mut Path,
    id: u64,
    cpu: u8,
) -> u64
    ensures enqueues { Enqueues true q.old t.old id cpu result q.new t.new }
    ensures spares { Spares result q.old q.new }
    ensures spares_2 { Spares result t.old t.new }
    ensures q_unchanged { (queue_of q.old).halted ≡ true → q.new ≡ q.old }
    ensures t_unchanged { (queue_of q.old).halted ≡ true → t.new ≡ t.old }
    ensures framed { Framed t.old t.new }
    ensures queue_framed { QueueFramed q.old q.new }
{
    board::board_enqueue_front(q, t, path, id, cpu)
}

// CpuRunQueue::remove, with a path that the caller lends.
#[unsafe(no_mangle)]
pub extern "C" fn board_remove(
    q: &mut QueueRows,
    t: &mut [Row],
    path: &mut Path,
    id: u64,
    cpu: u8,
) -> u64
    ensures removes { Removes q.old t.old id cpu result q.new t.new }
    ensures spares { Spares result q.old q.new }
    ensures spares_2 { Spares result t.old t.new }
    ensures q_unchanged { (queue_of q.old).halted ≡ true → q.new ≡ q.old }
    ensures t_unchanged { (queue_of q.old).halted ≡ true → t.new ≡ t.old }
    ensures framed { Framed t.old t.new }
    ensures queue_framed { QueueFramed q.old q.new }
{
    board::board_remove(q, t, path, id, cpu)
}

// CpuRunQueue::real_time_len, fair_len and budget_len.
#[unsafe(no_mangle)]
pub extern "C" fn board_lengths(q: &QueueRows, answer: &mut LengthWords) -> u64
    ensures { left result (lengths_of answer.new) ≡ left 0 (lengths (queue_of q.now)) }
{
    board::board_lengths(q, answer)
}
