// Selection over a queue of lent words. The roots, the epoch and the mark are stored only at a change of period. After
// `CpuRunQueue::peek_next` of scheduler/queue.rs.
#![tactic(auto)]

ghost use Rattle.std.specs.Prelude.{◌≡◌, length};
ghost use Rattle.rows.specs.Table.{table, out};
ghost use Rattle.rows.specs.Frame.{Framed};
ghost use Rattle.refusal.specs.Answer.{number_of, by_number};
ghost use Rattle.lent_queue.specs.LentQueue.{queue_rows, queue_of};
ghost use Rattle.lent_queue.specs.Frame.{QueueFramed};
ghost use Rattle.renewal.specs.Leaves.{leaves};
ghost use Rattle.selection.specs.Peek as peek;
ghost use Rattle.selection.specs.Steps.{looked_at};
ghost use Rattle.selection.specs.Answers.{looked_of};
ghost use Rattle.lent_selection.specs.LentParts.{with_epoch, with_mark, renewed_roots, renewed_queue, running_queue};
ghost use Rattle.lent_selection.specs.Early.{Early};

use arbitration::{Candidate, CpuWindow};
use codec::Row;
use lent_queue::{
    BUDGET_THREADS, EPOCH, EPOCH_TAG, MARKS_ROW, QueueRow, QueueRows, REALTIME_LEN, ROOT_ROWS,
    epoch_at, is_halted, store_marks,
};
use ready_index::Path;
use refusal::{HALTED, Refusal};
use rows::MAX_RECORDS;
use selection::{WindowPeek, is_epoch, peek_heads, renew_roles};
use thread::CpuIndex;
use time::epoch_of;

// The epoch of a change of period that was made.
fn store_epoch(q: &mut QueueRows, epoch: u64)
    ensures q_after { queue_of q.new ≡ with_epoch (queue_of q.old) epoch }
    ensures queue_framed { QueueFramed q.old q.new }
{
    let row = q[MARKS_ROW];
    store_marks(
        q,
        [
            row[REALTIME_LEN],
            row[BUDGET_THREADS],
            1,
            epoch,
            row[lent_queue::HALTED],
        ],
    );
}

// The mark of a change of period that was refused: Halted leaves it.
fn store_mark(q: &mut QueueRows, refusal: Refusal)
    ensures q_after { queue_of q.new ≡ with_mark (queue_of q.old) (number_of refusal) }
    ensures queue_framed { QueueFramed q.old q.new }
{
    let row = q[MARKS_ROW];
    if refusal.number() == HALTED {
        store_marks(
            q,
            [
                row[REALTIME_LEN],
                row[BUDGET_THREADS],
                row[EPOCH_TAG],
                row[EPOCH],
                1,
            ],
        );
    }
}

// The roles' moves on the rows of the roots.
fn renew_roots(
    q: &mut [QueueRow],
    t: &mut [Row],
    path: &mut Path,
    reading: u64,
) -> Result<(), Refusal>
    requires { length q.old ≡ queue_rows }
    ensures t_after { out (leaves (by_number result) (queue_of q.new)) (table t.new)
        ≡ renewed_roots (table t.old) (queue_of q.old) reading }
    ensures framed { Framed t.old t.new }
    ensures queue_framed { QueueFramed q.old q.new }
{
    let start = ROOT_ROWS;
    let end = MARKS_ROW;
    let roots = &mut q[start..end];
    renew_roles(t, path, roots, reading)
}

// The change of period: at any change of epoch the roles' moves, then the epoch is stored; else nothing is.
fn renew_lent(
    q: &mut QueueRows,
    t: &mut [Row],
    path: &mut Path,
    reading: u64,
    epoch: u64,
) -> Result<(), Refusal>
    ensures t_after { out (leaves (by_number result) (queue_of q.new)) (table t.new)
        ≡ renewed_queue (table t.old) (queue_of q.old) reading epoch }
    ensures framed { Framed t.old t.new }
    ensures queue_framed { QueueFramed q.old q.new }
{
    let budget_epoch = epoch_at(q);
    if is_epoch(budget_epoch, epoch) {
        return Ok(());
    }
    match renew_roots(q, t, path, reading) {
        Ok(()) => {
            store_epoch(q, epoch);
            Ok(())
        }
        Err(refusal) => {
            store_mark(q, refusal);
            Err(refusal)
        }
    }
}

// The heads of the queue's trees, and the least key among them.
fn peek_roots(
    q: &[QueueRow],
    t: &mut [Row],
    cpu: CpuIndex,
    reading: u64,
    window: CpuWindow,
    current: Option<Candidate>,
) -> WindowPeek
    requires { length q.now ≡ queue_rows }
    ensures t_after { out (looked_of result) (table t.new)
        ≡ looked_at (table t.old) (queue_of q.now).indices cpu reading window current }
    ensures framed { Framed t.old t.new }
{
    let start = ROOT_ROWS;
    let end = MARKS_ROW;
    let roots = &q[start..end];
    peek_heads(t, roots, cpu, reading, window, current)
}

// With a window that is sound and a queue that runs: the change of period, then the heads.
fn peek_running(
    q: &mut QueueRows,
    t: &mut [Row],
    path: &mut Path,
    cpu: CpuIndex,
    reading: u64,
    window: CpuWindow,
    current: Option<Candidate>,
) -> WindowPeek
    ensures t_after { out (peek.peeked (by_number result.answer) result.window (queue_of q.new))
        (table t.new) ≡ running_queue (table t.old)
        (queue_of q.old) cpu reading window current }
    ensures framed { Framed t.old t.new }
    ensures queue_framed { QueueFramed q.old q.new }
{
    let config = window.config;
    let epoch = epoch_of(reading, config.period_ns);
    match renew_lent(q, t, path, reading, epoch) {
        Err(refusal) => WindowPeek {
            answer: Err(refusal),
            window,
        },
        Ok(()) => { peek_roots(q, t, cpu, reading, window, current) }
    }
}

// `peek_next`: the queued thread with the least dispatch key, or none; the demand; the lowest fair pass; and the window
// as it is left.
pub fn peek_lent(
    q: &mut QueueRows,
    t: &mut [Row],
    path: &mut Path,
    cpu: CpuIndex,
    reading: u64,
    window: CpuWindow,
    current: Option<Candidate>,
) -> WindowPeek
    ensures t_after { out (peek.peeked (by_number result.answer) result.window (queue_of q.new))
        (table t.new) ≡ peek.peek_next (table t.old)
        (queue_of q.old) cpu reading window current }
    ensures q_unchanged { Early t.old window (queue_of q.old) → q.new ≡ q.old }
    ensures t_unchanged { Early t.old window (queue_of q.old) → t.new ≡ t.old }
    ensures framed { Framed t.old t.new }
    ensures queue_framed { QueueFramed q.old q.new }
{
    let config = window.config;
    if MAX_RECORDS < t.len() {
        return WindowPeek {
            answer: Err(Refusal::BadTable),
            window,
        };
    }
    if !config.is_sound() {
        return WindowPeek {
            answer: Err(Refusal::BadConfig),
            window,
        };
    }
    if is_halted(q) {
        return WindowPeek {
            answer: Err(Refusal::Halted),
            window,
        };
    }
    peek_running(q, t, path, cpu, reading, window, current)
}
