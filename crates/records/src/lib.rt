// The calls over a lent slice of thread records: a thin layer that copies the records to rows, which the caller lends
// too, makes the core's call on the rows and copies the records back. The contracts have the core's definitions, over
// the caller's own records. Fewer rows than records is BadTable with nothing changed; more than 4,096 records are
// copied, and the core's call is BadTable.
#![tactic(auto)]

ghost use Rattle.std.specs.Prelude.{◌<◌, true, false, ◌≡◌, length, take, drop};
ghost use Rattle.refusal.specs.Answer.{refused, bad_table, by_number};
ghost use Rattle.arbitration.specs.Answers.{window_step};
ghost use Rattle.arbitration.specs.Calls.{with};
ghost use Rattle.rows.specs.Table.{table, out};
ghost use Rattle.rows.specs.Unmoved.{Spared};
ghost use Rattle.queue.specs.Queue.{step, enqueue_call, remove_call};
ghost use Rattle.lent_queue.specs.LentQueue.{queue_of};
ghost use Rattle.lent_queue.specs.Frame.{QueueFramed};
ghost use Rattle.lent_selection.specs.Early.{Early};
ghost use Rattle.selection.specs.Peek.{peeked, peek_next};
ghost use Rattle.runtime.specs.Prepare.{counted, prepare_enqueue};
ghost use Rattle.runtime.specs.Account.{account_current, finish_turn};
ghost use Rattle.runtime.specs.Answers.{prepared_answer};
ghost use Rattle.records.specs.Lent.{within, used};

use arbitration::{Candidate, CpuWindow, DispatchMode, WindowStep};
use codec::{Row, decode, encode};
use decisions::Turns;
use lent_queue::{QueueRows, enqueue_lent, remove_lent};
use lent_selection::peek_lent;
use ready_index::Path;
use refusal::Refusal;
use runtime::Prepared;
use selection::WindowPeek;
use thread::{CpuIndex, ThreadId, ThreadRecord};

// (By an index, here and below: what a loop over a `zip` with `iter_mut` leaves in a slice, std's contracts do not say,
// and no proof closes.)
fn to_rows(t: &[ThreadRecord], rows: &mut [Row])
    requires { length rows.old ≡ length t.now }
    ensures { table rows.new ≡ t.now }
{
    for (i, row) in rows.iter_mut().enumerate() {
        *row = encode(t[i]);
    }
}

fn from_rows(t: &mut [ThreadRecord], rows: &[Row])
    requires { length rows.now ≡ length t.old }
    ensures { t.new ≡ table rows.now }
{
    for (i, record) in t.iter_mut().enumerate() {
        *record = decode(rows[i]);
    }
}

// At the front or at the back.
fn insert(
    q: &mut QueueRows,
    t: &mut [ThreadRecord],
    rows: &mut [Row],
    path: &mut Path,
    id: ThreadId,
    cpu: CpuIndex,
    front: bool,
) -> Result<(), Refusal>
    ensures t_after { out (step (by_number result) (queue_of q.new)) t.new
        ≡ within rows.old t.old (step (refused bad_table) (queue_of q.old))
        (enqueue_call front t.old (queue_of q.old) id.0 cpu) }
    ensures rows_unchanged { drop (used rows.old t.old) rows.new
        ≡ drop (used rows.old t.old) rows.old }
    ensures rows_after { table (take (used rows.old t.old) rows.new)
        ≡ take (used rows.old t.old) t.new }
    ensures spared { Spared (by_number result) q.old q.new }
    ensures q_unchanged { (queue_of q.old).halted ≡ true → q.new ≡ q.old }
    ensures queue_framed { QueueFramed q.old q.new }
{
    let n = t.len();
    if rows.len() < n {
        return Err(Refusal::BadTable);
    }
    let part = &mut rows[0..n];
    to_rows(t, part);
    let answer = enqueue_lent(q, part, path, id, cpu, front);
    from_rows(t, part);
    answer
}

pub fn enqueue(
    q: &mut QueueRows,
    t: &mut [ThreadRecord],
    rows: &mut [Row],
    path: &mut Path,
    id: ThreadId,
    cpu: CpuIndex,
) -> Result<(), Refusal>
    ensures t_after { out (step (by_number result) (queue_of q.new)) t.new
        ≡ within rows.old t.old (step (refused bad_table) (queue_of q.old))
        (enqueue_call false t.old (queue_of q.old) id.0 cpu) }
    ensures rows_unchanged { drop (used rows.old t.old) rows.new
        ≡ drop (used rows.old t.old) rows.old }
    ensures rows_after { table (take (used rows.old t.old) rows.new)
        ≡ take (used rows.old t.old) t.new }
    ensures spared { Spared (by_number result) q.old q.new }
    ensures q_unchanged { (queue_of q.old).halted ≡ true → q.new ≡ q.old }
    ensures queue_framed { QueueFramed q.old q.new }
{
    insert(q, t, rows, path, id, cpu, false)
}

pub fn enqueue_front(
    q: &mut QueueRows,
    t: &mut [ThreadRecord],
    rows: &mut [Row],
    path: &mut Path,
    id: ThreadId,
    cpu: CpuIndex,
) -> Result<(), Refusal>
    ensures t_after { out (step (by_number result) (queue_of q.new)) t.new
        ≡ within rows.old t.old (step (refused bad_table) (queue_of q.old))
        (enqueue_call true t.old (queue_of q.old) id.0 cpu) }
    ensures rows_unchanged { drop (used rows.old t.old) rows.new
        ≡ drop (used rows.old t.old) rows.old }
    ensures rows_after { table (take (used rows.old t.old) rows.new)
        ≡ take (used rows.old t.old) t.new }
    ensures spared { Spared (by_number result) q.old q.new }
    ensures q_unchanged { (queue_of q.old).halted ≡ true → q.new ≡ q.old }
    ensures queue_framed { QueueFramed q.old q.new }
{
    insert(q, t, rows, path, id, cpu, true)
}

pub fn remove(
    q: &mut QueueRows,
    t: &mut [ThreadRecord],
    rows: &mut [Row],
    path: &mut Path,
    id: ThreadId,
    cpu: CpuIndex,
) -> Result<(), Refusal>
    ensures t_after { out (step (by_number result) (queue_of q.new)) t.new
        ≡ within rows.old t.old (step (refused bad_table) (queue_of q.old))
        (remove_call t.old (queue_of q.old) id.0 cpu) }
    ensures rows_unchanged { drop (used rows.old t.old) rows.new
        ≡ drop (used rows.old t.old) rows.old }
    ensures rows_after { table (take (used rows.old t.old) rows.new)
        ≡ take (used rows.old t.old) t.new }
    ensures spared { Spared (by_number result) q.old q.new }
    ensures q_unchanged { (queue_of q.old).halted ≡ true → q.new ≡ q.old }
    ensures queue_framed { QueueFramed q.old q.new }
{
    let n = t.len();
    if rows.len() < n {
        return Err(Refusal::BadTable);
    }
    let part = &mut rows[0..n];
    to_rows(t, part);
    let answer = remove_lent(q, part, path, id, cpu);
    from_rows(t, part);
    answer
}

// Selection.
pub fn peek_next(
    q: &mut QueueRows,
    t: &mut [ThreadRecord],
    rows: &mut [Row],
    path: &mut Path,
    cpu: CpuIndex,
    reading: u64,
    window: CpuWindow,
    current: Option<Candidate>,
) -> WindowPeek
    ensures t_after { out (peeked (by_number result.answer) result.window (queue_of q.new)) t.new
        ≡ within rows.old t.old (peeked (refused bad_table) window (queue_of q.old))
        (peek_next t.old (queue_of q.old) cpu reading window current) }
    ensures rows_unchanged { drop (used rows.old t.old) rows.new
        ≡ drop (used rows.old t.old) rows.old }
    ensures rows_after { table (take (used rows.old t.old) rows.new)
        ≡ take (used rows.old t.old) t.new }
    ensures q_unchanged { length rows.old < length t.old → q.new ≡ q.old }
    ensures q_unchanged_2 { Early t.old window (queue_of q.old) → q.new ≡ q.old }
    ensures queue_framed { QueueFramed q.old q.new }
{
    let n = t.len();
    if rows.len() < n {
        return WindowPeek {
            answer: Err(Refusal::BadTable),
            window,
        };
    }
    let part = &mut rows[0..n];
    to_rows(t, part);
    let answer = peek_lent(q, part, path, cpu, reading, window, current);
    from_rows(t, part);
    answer
}

pub fn prepare_enqueue(
    t: &mut [ThreadRecord],
    rows: &mut [Row],
    id: ThreadId,
    front: bool,
    reading: u64,
    turns: Turns,
) -> Prepared
    ensures t_after { out (prepared_answer result) t.new ≡ within rows.old t.old
        (counted (refused bad_table) turns) (prepare_enqueue t.old id.0 front reading turns) }
    ensures rows_unchanged { drop (used rows.old t.old) rows.new
        ≡ drop (used rows.old t.old) rows.old }
    ensures rows_after { table (take (used rows.old t.old) rows.new)
        ≡ take (used rows.old t.old) t.new }
{
    let n = t.len();
    if rows.len() < n {
        return Prepared {
            answer: Err(Refusal::BadTable),
            turns,
        };
    }
    let part = &mut rows[0..n];
    to_rows(t, part);
    let answer = runtime::prepare_enqueue(part, id, front, reading, turns);
    from_rows(t, part);
    answer
}

pub fn account_current(
    t: &mut [ThreadRecord],
    rows: &mut [Row],
    id: ThreadId,
    window: CpuWindow,
    mode: DispatchMode,
    start: u64,
    end: u64,
) -> WindowStep
    ensures t_after { out (window_step result) t.new ≡ within rows.old t.old
        (with (refused bad_table) window) (account_current t.old id.0 window mode start end) }
    ensures rows_unchanged { drop (used rows.old t.old) rows.new
        ≡ drop (used rows.old t.old) rows.old }
    ensures rows_after { table (take (used rows.old t.old) rows.new)
        ≡ take (used rows.old t.old) t.new }
{
    let n = t.len();
    if rows.len() < n {
        return WindowStep {
            answer: Err(Refusal::BadTable),
            window,
        };
    }
    let part = &mut rows[0..n];
    to_rows(t, part);
    let answer = runtime::account_current(part, id, window, mode, start, end);
    from_rows(t, part);
    answer
}

pub fn finish_turn(t: &mut [ThreadRecord], rows: &mut [Row], id: ThreadId) -> Result<(), Refusal>
    ensures t_after { out (by_number result) t.new ≡ within rows.old t.old (refused bad_table)
        (finish_turn t.old id.0) }
    ensures rows_unchanged { drop (used rows.old t.old) rows.new
        ≡ drop (used rows.old t.old) rows.old }
    ensures rows_after { table (take (used rows.old t.old) rows.new)
        ≡ take (used rows.old t.old) t.new }
{
    let n = t.len();
    if rows.len() < n {
        return Err(Refusal::BadTable);
    }
    let part = &mut rows[0..n];
    to_rows(t, part);
    let answer = runtime::finish_turn(part, id);
    from_rows(t, part);
    answer
}
