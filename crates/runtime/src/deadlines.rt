// The choice of deadline. After `refresh_deadline`: competition, budget peer, ready thread, demand and the current
// key's mode come as arguments.
ghost use Rattle.std.specs.Prelude.{◌≡◌, true, [], ◌<◌, length, get_or};
ghost use Rattle.refusal.specs.Answer.{by_number};
ghost use Rattle.window_config.specs.Config.{sound_config};
ghost use Rattle.rows.specs.Table.{table, out};
ghost use Rattle.arbitration.specs.Answers.{window_deadline};
ghost use Rattle.runtime.specs.Deadline.{refresh_deadline};
ghost use Rattle.runtime.specs.Rows.{slice_end, refreshed_end, budget_end, own_end, earlier_of, due_row, keyless_due};
ghost use Rattle.runtime.specs.Rows.{deadline_at};
ghost use Rattle.rows.specs.Unmoved.{Unmoved};
ghost use Rattle.rows.specs.Frame.{Framed};

use crate::judging::{budget_parameters, budget_runtime, is_bad_at};
use algorithms::PolicyRuntime;
use arbitration::{CpuWindow, DispatchMode, WindowDeadline};
use codec::{RUNTIME_TAG, RUNTIME_THIRD, Row};
use decisions::{Contention, borrows, budget_expiry};
use refusal::Refusal;
use rows::{MAX_RECORDS, set_runtime};
use thread::ThreadId;
use time::{checked_add, earliest};

// Of a record without a budget: the end of a fair slice, where a thread is ready to take it.
fn slice_end(row: Row, reading: u64, competition: bool, ready: bool) -> Option<u64>
    ensures { result ≡ slice_end row reading competition ready }
{
    if row[RUNTIME_TAG] == 1 {
        if !competition {
            return None;
        }
        if ready {
            return checked_add(reading, row[RUNTIME_THIRD]);
        }
        return None;
    }
    None
}

// A budget's own deadline, for which it is refreshed.
fn refreshed_end(t: &mut [Row], id: u64, row: Row, reading: u64, mode: DispatchMode) -> Option<u64>
    ensures t_after { out result (table t.new) ≡ refreshed_end (table t.old) id row reading mode }
    ensures framed { Framed t.old t.new }
{
    let runtime = budget_runtime(row);
    let parameters = budget_parameters(row);
    let borrow = borrows(mode);
    match runtime.deadline(reading, parameters, borrow) {
        Ok((fresh, end)) => {
            let _ = set_runtime(t, id, PolicyRuntime::Budget(fresh));
            end
        }
        Err(_) => None,
    }
}

// A budget's: by its time alone where no budget competes.
fn budget_end(
    t: &mut [Row],
    id: u64,
    row: Row,
    reading: u64,
    mode: DispatchMode,
    competition: bool,
    budget_peer: bool,
) -> Option<u64>
    ensures t_after { out result (table t.new)
        ≡ budget_end (table t.old) id row reading mode competition budget_peer }
    ensures framed { Framed t.old t.new }
{
    if !competition {
        return None;
    }
    if !budget_peer {
        let parameters = budget_parameters(row);
        return budget_expiry(reading, row[RUNTIME_THIRD], parameters);
    }
    refreshed_end(t, id, row, reading, mode)
}

// The thread's own deadline.
fn own_end(
    t: &mut [Row],
    id: u64,
    reading: u64,
    mode: DispatchMode,
    contention: Contention,
) -> Option<u64>
    requires { id < length t.old }
    ensures t_after { out result (table t.new)
        ≡ own_end (table t.old) id (get_or t.old id []) reading mode contention }
    ensures framed { Framed t.old t.new }
{
    let k = id as usize;
    if t[k][RUNTIME_TAG] == 2 {
        let row = t[k];
        return budget_end(
            t,
            id,
            row,
            reading,
            mode,
            contention.competition,
            contention.budget_peer,
        );
    }
    let row = t[k];
    slice_end(row, reading, contention.competition, contention.ready)
}

// The earlier of the window's deadline and the thread's own.
fn earlier_of(step: WindowDeadline, own: Option<u64>) -> WindowDeadline
    ensures { window_deadline result ≡ earlier_of (window_deadline step) own }
{
    let answer = step.answer;
    let window = step.window;
    match answer {
        Err(_) => step,
        Ok(end) => WindowDeadline {
            answer: Ok(earliest(own, end)),
            window,
        },
    }
}

// With a key of this mode.
fn due_with(
    t: &mut [Row],
    id: u64,
    reading: u64,
    mode: DispatchMode,
    window: CpuWindow,
    contention: Contention,
) -> WindowDeadline
    requires id_in_bounds { id < length t.old }
    requires config_value { sound_config window.config ≡ true }
    ensures t_after { out (window_deadline result) (table t.new)
        ≡ due_row (table t.old) id (get_or t.old id []) reading mode window contention }
    ensures unmoved { Unmoved (by_number result.answer) t.old t.new }
    ensures framed { Framed t.old t.new }
{
    let demand = contention.demand;
    let own = own_end(t, id, reading, mode, contention);
    let step = window.next_deadline(reading, mode, contention.competition, demand);
    earlier_of(step, own)
}

// Without a key: now where anybody competes.
fn due_without(reading: u64, window: CpuWindow, competition: bool) -> WindowDeadline
    ensures { window_deadline result ≡ keyless_due reading window competition }
{
    if competition {
        return WindowDeadline {
            answer: Ok(Some(reading)),
            window,
        };
    }
    WindowDeadline {
        answer: Ok(None),
        window,
    }
}

// NoThread, then BadRecord.
fn due_at(
    t: &mut [Row],
    id: u64,
    reading: u64,
    mode: Option<DispatchMode>,
    window: CpuWindow,
    contention: Contention,
) -> WindowDeadline
    requires { sound_config window.config ≡ true }
    ensures t_after { out (window_deadline result) (table t.new)
        ≡ deadline_at (table t.old) id reading mode window contention }
    ensures unmoved { Unmoved (by_number result.answer) t.old t.new }
    ensures framed { Framed t.old t.new }
{
    let k = id as usize;
    if k < t.len() {
        if is_bad_at(t, k) {
            return WindowDeadline {
                answer: Err(Refusal::BadRecord),
                window,
            };
        }
        match mode {
            None => {
                return due_without(reading, window, contention.competition);
            }
            Some(mode) => {
                return due_with(t, id, reading, mode, window, contention);
            }
        }
    }
    WindowDeadline {
        answer: Err(Refusal::NoThread),
        window,
    }
}

// The choice of deadline in `refresh_deadline`: order 10, 5, 4, 11. A refusal leaves record and window unchanged.
pub fn refresh_deadline(
    t: &mut [Row],
    id: ThreadId,
    reading: u64,
    mode: Option<DispatchMode>,
    window: CpuWindow,
    contention: Contention,
) -> WindowDeadline
    ensures t_after { out (window_deadline result) (table t.new) ≡ refresh_deadline (table t.old)
        id.0 reading mode window contention }
    ensures unmoved { Unmoved (by_number result.answer) t.old t.new }
    ensures framed { Framed t.old t.new }
{
    let config = window.config;
    if MAX_RECORDS < t.len() {
        return WindowDeadline {
            answer: Err(Refusal::BadTable),
            window,
        };
    }
    if !config.is_sound() {
        return WindowDeadline {
            answer: Err(Refusal::BadConfig),
            window,
        };
    }
    due_at(t, id.0, reading, mode, window, contention)
}
