// Accounting of one record and the window between two readings, the end of a turn, and the current thread as a
// candidate. The record is judged by its row's tags; a record without a budget stays as it is, so that nothing of it is
// stored.
ghost use Rattle.std.specs.Prelude.{◌≡◌, true, false, [], ◌<◌, length, get_or};
ghost use Rattle.refusal.specs.Answer.{by_number};
ghost use Rattle.window_config.specs.Config.{sound_config};
ghost use Rattle.algorithms.specs.declared.PolicyRuntime.TheVariants.{Budget};
ghost use Rattle.thread.specs.Judgement.{is_bad_record};
ghost use Rattle.thread.specs.Records.{with_runtime};
ghost use Rattle.policy_words.specs.PolicyWords.{word, runtime_tag};
ghost use Rattle.codec.specs.Codec.{decoded};
ghost use Rattle.codec.specs.Frame.{RowFramed};
ghost use Rattle.window_words.specs.WindowWords as words;
ghost use Rattle.rows.specs.Table.{table, out};
ghost use Rattle.arbitration.specs.Answers.{window_step};
ghost use Rattle.decisions.specs.Switch.{spent};
ghost use Rattle.runtime.specs.Account.{account_current, finish_turn, pass_of, candidate_stored, current_candidate};
ghost use Rattle.runtime.specs.Account.{expired};
ghost use Rattle.runtime.specs.Rows.{whole_burst, charged_row, accounted_row, account_at, finished_row, candidate_row};
ghost use Rattle.runtime.specs.Rows.{refreshed_row, candidate_at};
ghost use Rattle.rows.specs.Unmoved.{Unmoved};
ghost use Rattle.rows.specs.Frame.{Framed};

use crate::judging::{budget_parameters, budget_runtime, is_bad_at, store_budget};
use algorithms::{PolicyRuntime, Wide};
use arbitration::{CpuWindow, DispatchMode, WindowStep};
use codec::{RUNTIME_FIRST, RUNTIME_SECOND, RUNTIME_THIRD, Row, parameters_of};
use policy_words::{
    BACKEND_TAG, BAND, BUDGET_BURST, BUDGET_NS, BUDGET_PERIOD, BUDGET_TAG, FIFO_PRIORITY,
    POLICY_TAG, QUANTUM, ROLE_TAG, RUNTIME_FOURTH, RUNTIME_TAG, WEIGHT,
};
use refusal::Refusal;
use rows::{MAX_RECORDS, set_runtime};
use thread::ThreadId;
use window_words::{
    CANDIDATE_AVAILABLE, CANDIDATE_PASS_HIGH, CANDIDATE_PASS_LOW, CANDIDATE_TURN, word_of_flag,
};

// The interval is charged to a budget.
fn charge_at(t: &mut [Row], id: u64, start: u64, end: u64)
    requires { id < length t.old }
    ensures t_after { table t.new
        ≡ charged_row (table t.old) id (get_or t.old id []) start end }
    ensures t_unchanged { end < start → t.new ≡ t.old }
    ensures framed { Framed t.old t.new }
{
    let k = id as usize;
    if t[k][RUNTIME_TAG] == 2 {
        let row = t[k];
        let runtime = budget_runtime(row);
        let parameters = budget_parameters(row);
        let charged = runtime.account_interval(start, end, parameters);
        store_budget(t, id, charged);
    }
}

// Of a judged record: its budget, then the window. A window that is sound refuses what the budget refuses.
fn account_row(
    t: &mut [Row],
    id: u64,
    window: CpuWindow,
    mode: DispatchMode,
    start: u64,
    end: u64,
) -> WindowStep
    requires id_in_bounds { id < length t.old }
    requires config_value { sound_config window.config ≡ true }
    ensures t_after { out (window_step result) (table t.new) ≡ accounted_row (table t.old) id
        (get_or t.old id []) window mode start end }
    ensures unmoved { Unmoved (by_number result.answer) t.old t.new }
    ensures framed { Framed t.old t.new }
{
    let k = id as usize;
    let row = t[k];
    let parameters = parameters_of(row);
    charge_at(t, id, start, end);
    window.account_dispatch(start, end, parameters, mode)
}

// NoThread, then BadRecord.
fn account_at(
    t: &mut [Row],
    id: u64,
    window: CpuWindow,
    mode: DispatchMode,
    start: u64,
    end: u64,
) -> WindowStep
    requires { sound_config window.config ≡ true }
    ensures t_after { out (window_step result) (table t.new)
        ≡ account_at (table t.old) id window mode start end }
    ensures unmoved { Unmoved (by_number result.answer) t.old t.new }
    ensures framed { Framed t.old t.new }
{
    let k = id as usize;
    if k < t.len() {
        if is_bad_at(t, k) {
            return WindowStep {
                answer: Err(Refusal::BadRecord),
                window,
            };
        }
        return account_row(t, id, window, mode, start, end);
    }
    WindowStep {
        answer: Err(Refusal::NoThread),
        window,
    }
}

// `account_current` between two readings: order 10, 5, 4, 11, 7. A refusal leaves record and window unchanged.
pub fn account_current(
    t: &mut [Row],
    id: ThreadId,
    window: CpuWindow,
    mode: DispatchMode,
    start: u64,
    end: u64,
) -> WindowStep
    ensures t_after { out (window_step result) (table t.new) ≡ account_current (table t.old)
        id.0 window mode start end }
    ensures unmoved { Unmoved (by_number result.answer) t.old t.new }
    ensures framed { Framed t.old t.new }
{
    let config = window.config;
    if MAX_RECORDS < t.len() {
        return WindowStep {
            answer: Err(Refusal::BadTable),
            window,
        };
    }
    if !config.is_sound() {
        return WindowStep {
            answer: Err(Refusal::BadConfig),
            window,
        };
    }
    account_at(t, id.0, window, mode, start, end)
}

// A budget's row with its burst whole again: one word.
fn with_burst(w: Row) -> Row
    requires { word w runtime_tag ≡ 2 }
    ensures result_value { decoded result ≡ with_runtime (Budget (whole_burst w)) (decoded w) }
    ensures row_framed { RowFramed w result }
{
    let mut row = w;
    row[RUNTIME_FOURTH] = w[BUDGET_BURST];
    row
}

// Of a judged record: a budget's burst is whole again.
fn finish_at(t: &mut [Row], id: u64)
    requires id_in_bounds { id < length t.old }
    requires id_value { is_bad_record (decoded (get_or t.old id [])) ≡ false }
    ensures t_after { table t.new ≡ finished_row (table t.old) id (get_or t.old id []) }
    ensures framed { Framed t.old t.new }
{
    let k = id as usize;
    if t[k][RUNTIME_TAG] == 2 {
        let row = t[k];
        t[k] = with_burst(row);
    }
}

// The turn of an expired or yielding thread ends: order 10, 4, 11.
pub fn finish_turn(t: &mut [Row], id: ThreadId) -> Result<(), Refusal>
    ensures t_after { out (by_number result) (table t.new) ≡ finish_turn (table t.old) id.0 }
    ensures unmoved { Unmoved (by_number result) t.old t.new }
    ensures framed { Framed t.old t.new }
{
    let k = id.0 as usize;
    if MAX_RECORDS < t.len() {
        return Err(Refusal::BadTable);
    }
    if k < t.len() {
        if is_bad_at(t, k) {
            return Err(Refusal::BadRecord);
        }
        finish_at(t, id.0);
        return Ok(());
    }
    Err(Refusal::NoThread)
}

// A fair thread's pass, whatever its backend; else 0.
fn pass_of_row(w: Row) -> Wide
    ensures { result ≡ pass_of (decoded w).runtime }
{
    if w[RUNTIME_TAG] == 1 {
        return Wide {
            high: w[RUNTIME_FIRST],
            low: w[RUNTIME_SECOND],
        };
    }
    Wide { high: 0, low: 0 }
}

// A candidate's words: those of the row's parameters and turn as they stand, the pass, and whether there is time left.
fn with_candidate(w: Row, row: Row, available: bool) -> Row
    ensures { words.candidate_of result ≡ candidate_row row available }
{
    let pass = pass_of_row(row);
    let has_time = word_of_flag(available);
    let mut r = w;
    r[POLICY_TAG] = row[POLICY_TAG];
    r[FIFO_PRIORITY] = row[FIFO_PRIORITY];
    r[BAND] = row[BAND];
    r[ROLE_TAG] = row[ROLE_TAG];
    r[WEIGHT] = row[WEIGHT];
    r[QUANTUM] = row[QUANTUM];
    r[BACKEND_TAG] = row[BACKEND_TAG];
    r[BUDGET_TAG] = row[BUDGET_TAG];
    r[BUDGET_NS] = row[BUDGET_NS];
    r[BUDGET_PERIOD] = row[BUDGET_PERIOD];
    r[BUDGET_BURST] = row[BUDGET_BURST];
    r[CANDIDATE_PASS_HIGH] = pass.high;
    r[CANDIDATE_PASS_LOW] = pass.low;
    r[CANDIDATE_AVAILABLE] = has_time;
    r[CANDIDATE_TURN] = row[CANDIDATE_TURN];
    r
}

// A budget is refreshed to the reading. Whether there is time left; so of every thread without a budget.
pub fn refresh_at(t: &mut [Row], id: u64, reading: u64) -> bool
    requires { id < length t.old }
    ensures t_after { out result (table t.new) ≡ refreshed_row (table t.old) id
        (get_or t.old id []) reading }
    ensures framed { Framed t.old t.new }
{
    let k = id as usize;
    if t[k][RUNTIME_TAG] == 2 {
        let row = t[k];
        let runtime = budget_runtime(row);
        let parameters = budget_parameters(row);
        let fresh = runtime.refresh(reading, parameters);
        match fresh {
            Err(_) => {
                return true;
            }
            Ok(b) => {
                let _ = set_runtime(t, id, PolicyRuntime::Budget(b));
                if b.remaining_ns == 0 {
                    return false;
                }
                return true;
            }
        }
    }
    true
}

// NoThread, then BadRecord.
fn candidate_at(
    t: &mut [Row],
    id: u64,
    running: bool,
    reading: u64,
    current: &mut Row,
) -> Result<(), Refusal>
    ensures t_after { out (by_number result, words.candidate_of current.new) (table t.new)
        ≡ candidate_stored (words.candidate_of current.old)
        (candidate_at (table t.old) id running reading) }
    ensures unmoved { Unmoved (by_number result) t.old t.new }
    ensures unmoved_2 { Unmoved (by_number result) current.old current.new }
    ensures current_unchanged { running ≡ false → current.new ≡ current.old }
    ensures framed { Framed t.old t.new }
{
    let k = id as usize;
    if k < t.len() {
        if is_bad_at(t, k) {
            return Err(Refusal::BadRecord);
        }
        if !running {
            return Ok(());
        }
        let row = t[k];
        let available = refresh_at(t, id, reading);
        *current = with_candidate(*current, row, available);
        return Ok(());
    }
    Err(Refusal::NoThread)
}

// The current thread as selection and keys take it, refreshed where it is Running, into a candidate's words: order 10,
// 4, 11. They stay at a refusal and where it is not Running.
pub fn current_candidate(
    t: &mut [Row],
    id: ThreadId,
    running: bool,
    reading: u64,
    current: &mut Row,
) -> Result<(), Refusal>
    ensures t_after { out (by_number result, words.candidate_of current.new) (table t.new)
        ≡ candidate_stored (words.candidate_of current.old)
        (current_candidate (table t.old) id.0 running reading) }
    ensures unmoved { Unmoved (by_number result) t.old t.new }
    ensures unmoved_2 { Unmoved (by_number result) current.old current.new }
    ensures current_unchanged { running ≡ false → current.new ≡ current.old }
    ensures framed { Framed t.old t.new }
{
    if MAX_RECORDS < t.len() {
        return Err(Refusal::BadTable);
    }
    candidate_at(t, id.0, running, reading, current)
}

// `is_spent` of the row's runtime.
fn is_spent_row(w: Row) -> bool
    ensures { result ≡ spent (decoded w).runtime }
{
    if w[RUNTIME_TAG] == 1 {
        if w[RUNTIME_THIRD] == 0 {
            return true;
        }
        return false;
    }
    if w[RUNTIME_TAG] == 2 {
        if w[RUNTIME_FOURTH] == 0 {
            return true;
        }
        return false;
    }
    false
}

// `expired` of the current thread: order 10, 4, 11.
pub fn expired(t: &[Row], id: ThreadId) -> Result<bool, Refusal>
    ensures { by_number result ≡ expired (table t.now) id.0 }
{
    let k = id.0 as usize;
    if MAX_RECORDS < t.len() {
        return Err(Refusal::BadTable);
    }
    if k < t.len() {
        if is_bad_at(t, k) {
            return Err(Refusal::BadRecord);
        }
        let row = t[k];
        return Ok(is_spent_row(row));
    }
    Err(Refusal::NoThread)
}
