// The C calls of board's running.rt.
ghost use Rattle.std.specs.Prelude.{◌≡◌, false};
ghost use Rattle.codec.specs.Codec.{parameters_of};
ghost use Rattle.rows.specs.Table.{table};
ghost use Rattle.rows.specs.Frame.{Framed};
ghost use Rattle.policy_words.specs.PolicyWords.{deadline_of};
ghost use Rattle.window_words.specs.WindowWords.{flag_from, mode_from, window_of, demand_of, candidate_of};
ghost use Rattle.window_words.specs.WindowWords.{key_option_of};
ghost use Rattle.decisions.specs.Switch.{choose_ready, mode_of};
ghost use Rattle.runtime.specs.Prepare.{prepare_enqueue};
ghost use Rattle.runtime.specs.Account.{account_current, finish_turn, current_candidate, expired};
ghost use Rattle.runtime.specs.Deadline.{refresh_deadline};
ghost use Rattle.board_words.specs.BoardWords.{turns_of, ready_key_of, choice_of, contention};
ghost use Rattle.board.specs.Board.{left, Stays, answered, prepare_left, account_left};
ghost use Rattle.board.specs.Board.{candidate_left, finish_left, flag_of, deadline_left};

use board_words::{ChoiceWords, FlagWord, ReadyWords, TurnWords};
use codec::Row;
use policy_words::DeadlineWords;
use window_words::{DemandWords, KeyWords, WindowWords};

// prepare_enqueue, on the two counters' words.
#[unsafe(no_mangle)]
pub extern "C" fn board_prepare(
    t: &mut [Row],
    id: u64,
    front: u64,
    now_ns: u64,
    turns: &mut TurnWords,
) -> u64
    ensures t_after { left result (turns_of turns.new, table t.new)
        ≡ prepare_left
        (prepare_enqueue (table t.old) id (flag_from front) now_ns (turns_of turns.old)) }
    ensures stays { Stays result t.old t.new }
    ensures stays_2 { Stays result turns.old turns.new }
    ensures framed { Framed t.old t.new }
{
    board::board_prepare(t, id, front, now_ns, turns)
}

// account_current
#[unsafe(no_mangle)]
pub extern "C" fn board_account(
    t: &mut [Row],
    id: u64,
    window: &mut WindowWords,
    mode: u64,
    start: u64,
    end: u64,
) -> u64
    ensures t_after { left result (window_of window.new, table t.new)
        ≡ account_left
        (account_current (table t.old) id (window_of window.old) (mode_from mode) start end) }
    ensures stays { Stays result t.old t.new }
    ensures stays_2 { Stays result window.old window.new }
    ensures framed { Framed t.old t.new }
{
    board::board_account(t, id, window, mode, start, end)
}

// current_candidate: the words stand for the candidate where the thread is running, and stay where it is not.
#[unsafe(no_mangle)]
pub extern "C" fn board_candidate(
    t: &mut [Row],
    id: u64,
    running: u64,
    now_ns: u64,
    current: &mut Row,
) -> u64
    ensures t_after { left result (candidate_of current.new, table t.new)
        ≡ candidate_left (candidate_of current.old)
        (current_candidate (table t.old) id (flag_from running) now_ns) }
    ensures stays { Stays result t.old t.new }
    ensures stays_2 { Stays result current.old current.new }
    ensures current_unchanged { flag_from running ≡ false → current.new ≡ current.old }
    ensures framed { Framed t.old t.new }
{
    board::board_candidate(t, id, running, now_ns, current)
}

// expired
#[unsafe(no_mangle)]
pub extern "C" fn board_expired(t: &[Row], id: u64, answer: &mut FlagWord) -> u64
    ensures answer_after { left result (flag_of answer.new)
        ≡ answered (flag_of answer.old) (expired (table t.now) id) }
    ensures stays { Stays result answer.old answer.new }
{
    board::board_expired(t, id, answer)
}

// finish_turn
#[unsafe(no_mangle)]
pub extern "C" fn board_finish(t: &mut [Row], id: u64) -> u64
    ensures t_after { left result (table t.new) ≡ finish_left (finish_turn (table t.old) id) }
    ensures stays { Stays result t.old t.new }
    ensures framed { Framed t.old t.new }
{
    board::board_finish(t, id)
}

// The switch rule of choose_ready; the parameters are those of the running thread's row.
#[unsafe(no_mangle)]
pub extern "C" fn board_switch(
    ready: &ReadyWords,
    key: &KeyWords,
    current: &Row,
    expired: u64,
    yielding: u64,
    tail: u64,
    answer: &mut ChoiceWords,
) -> u64
    ensures { left result (choice_of answer.new)
        ≡ left 0
        (choose_ready (ready_key_of ready.now) (key_option_of key.now)
        (parameters_of current.now) (flag_from expired) (flag_from yielding) (flag_from tail)) }
{
    board::board_switch(ready, key, current, expired, yielding, tail, answer)
}

// refresh_deadline, with the words of the current thread's key.
#[unsafe(no_mangle)]
pub extern "C" fn board_deadline(
    t: &mut [Row],
    id: u64,
    now_ns: u64,
    key: &KeyWords,
    window: &mut WindowWords,
    competition: u64,
    budget_peer: u64,
    ready: u64,
    demand: &DemandWords,
    answer: &mut DeadlineWords,
) -> u64
    ensures t_after { left result (deadline_of answer.new, (window_of window.new, table t.new))
        ≡ deadline_left (deadline_of answer.old)
        (refresh_deadline (table t.old) id now_ns (mode_of (key_option_of key.now))
        (window_of window.old)
        (contention (flag_from competition) (flag_from budget_peer) (flag_from ready)
        (demand_of demand.now))) }
    ensures stays { Stays result t.old t.new }
    ensures stays_2 { Stays result window.old window.new }
    ensures stays_3 { Stays result answer.old answer.new }
    ensures framed { Framed t.old t.new }
{
    board::board_deadline(
        t,
        id,
        now_ns,
        key,
        window,
        competition,
        budget_peer,
        ready,
        demand,
        answer,
    )
}
