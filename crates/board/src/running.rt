// Calls of scheduler/state/runtime.rs on the table's rows and the words of window, counters, keys and answers.
ghost use Rattle.std.specs.Prelude.{◌≡◌, false};
ghost use Rattle.refusal.specs.Answer.{by_number};
ghost use Rattle.codec.specs.Codec.{parameters_of};
ghost use Rattle.rows.specs.Table.{table};
ghost use Rattle.rows.specs.Frame.{Framed};
ghost use Rattle.policy_words.specs.PolicyWords.{deadline_of};
ghost use Rattle.window_words.specs.WindowWords.{flag_from, mode_from, window_of, demand_of, candidate_of};
ghost use Rattle.window_words.specs.WindowWords.{key_option_of};
ghost use Rattle.decisions.specs.Switch.{choose_ready, mode_of};
ghost use Rattle.runtime.specs.Prepare.{prepare_enqueue};
ghost use Rattle.runtime.specs.Account.{account_current, finish_turn, current_candidate, expired};
ghost use Rattle.runtime.specs.Deadline.{refresh_deadline};
ghost use Rattle.board_words.specs.BoardWords.{turns_of, ready_key_of, choice_of, contention};
ghost use Rattle.board.specs.Board.{left, numbered, Stays, answered, prepare_left, account_left};
ghost use Rattle.board.specs.Board.{candidate_left, finish_left, flag_of, deadline_left};

use arbitration::DispatchMode;
use board_words::{
    ChoiceWords, FlagWord, ReadyWords, TurnWords, contention_of, key_option_of, ready_key_of,
    turns_of, words_of_choice, words_of_turns,
};
use codec::{Row, parameters_of};
use decisions::{Contention, choose_ready, mode_of};
use policy_words::{DeadlineWords, words_of_deadline};
use refusal::Refusal;
use runtime::{
    account_current, current_candidate, expired, finish_turn, prepare_enqueue, refresh_deadline,
};
use thread::ThreadId;
use window_words::{
    DemandWords, KeyWords, WindowWords, flag_from, mode_from, store_progress, window_of,
    word_of_flag,
};

fn number_of(verdict: Result<(), Refusal>) -> u64
    ensures { result ≡ numbered (by_number verdict) }
{
    match verdict {
        Ok(()) => 0,
        Err(refusal) => refusal.number(),
    }
}

// prepare_enqueue, on the two counters' words.
#[unsafe(no_mangle)]
pub extern "C" fn board_prepare(
    t: &mut [Row],
    id: u64,
    front: u64,
    now_ns: u64,
    turns: &mut TurnWords,
) -> u64
    ensures t_after { left result (turns_of turns.new, table t.new)
        ≡ prepare_left
        (prepare_enqueue (table t.old) id (flag_from front) now_ns (turns_of turns.old)) }
    ensures stays { Stays result t.old t.new }
    ensures stays_2 { Stays result turns.old turns.new }
    ensures framed { Framed t.old t.new }
{
    let before = turns_of(*turns);
    let prepared = prepare_enqueue(t, ThreadId(id), flag_from(front), now_ns, before);
    let after = prepared.turns;
    let answer = prepared.answer;
    match answer {
        Ok(()) => {
            *turns = words_of_turns(after);
            0
        }
        Err(refusal) => refusal.number(),
    }
}

// account_current
#[unsafe(no_mangle)]
pub extern "C" fn board_account(
    t: &mut [Row],
    id: u64,
    window: &mut WindowWords,
    mode: u64,
    start: u64,
    end: u64,
) -> u64
    ensures t_after { left result (window_of window.new, table t.new)
        ≡ account_left
        (account_current (table t.old) id (window_of window.old) (mode_from mode) start end) }
    ensures stays { Stays result t.old t.new }
    ensures stays_2 { Stays result window.old window.new }
    ensures framed { Framed t.old t.new }
{
    let before = window_of(*window);
    let its_mode = mode_from(mode);
    let step = account_current(t, ThreadId(id), before, its_mode, start, end);
    let after = step.window;
    let answer = step.answer;
    match answer {
        Ok(()) => {
            store_progress(window, after);
            0
        }
        Err(refusal) => refusal.number(),
    }
}

// current_candidate: the words stand for the candidate where the thread is running, and stay where it is not.
#[unsafe(no_mangle)]
pub extern "C" fn board_candidate(
    t: &mut [Row],
    id: u64,
    running: u64,
    now_ns: u64,
    current: &mut Row,
) -> u64
    ensures t_after { left result (candidate_of current.new, table t.new)
        ≡ candidate_left (candidate_of current.old)
        (current_candidate (table t.old) id (flag_from running) now_ns) }
    ensures stays { Stays result t.old t.new }
    ensures stays_2 { Stays result current.old current.new }
    ensures current_unchanged { flag_from running ≡ false → current.new ≡ current.old }
    ensures framed { Framed t.old t.new }
{
    number_of(current_candidate(t, ThreadId(id), flag_from(running), now_ns, current))
}

fn store_expired(answer: &mut FlagWord, given: Result<bool, Refusal>) -> u64
    ensures answer_after { left result (flag_of answer.new)
        ≡ answered (flag_of answer.old) (by_number given) }
    ensures stays { Stays result answer.old answer.new }
{
    match given {
        Ok(flag) => {
            *answer = [word_of_flag(flag)];
            0
        }
        Err(refusal) => refusal.number(),
    }
}

// expired
#[unsafe(no_mangle)]
pub extern "C" fn board_expired(t: &[Row], id: u64, answer: &mut FlagWord) -> u64
    ensures answer_after { left result (flag_of answer.new)
        ≡ answered (flag_of answer.old) (expired (table t.now) id) }
    ensures stays { Stays result answer.old answer.new }
{
    let given = expired(t, ThreadId(id));
    store_expired(answer, given)
}

// finish_turn
#[unsafe(no_mangle)]
pub extern "C" fn board_finish(t: &mut [Row], id: u64) -> u64
    ensures t_after { left result (table t.new) ≡ finish_left (finish_turn (table t.old) id) }
    ensures stays { Stays result t.old t.new }
    ensures framed { Framed t.old t.new }
{
    number_of(finish_turn(t, ThreadId(id)))
}

// The switch rule of choose_ready; the parameters are those of the running thread's row.
#[unsafe(no_mangle)]
pub extern "C" fn board_switch(
    ready: &ReadyWords,
    key: &KeyWords,
    current: &Row,
    expired: u64,
    yielding: u64,
    tail: u64,
    answer: &mut ChoiceWords,
) -> u64
    ensures { left result (choice_of answer.new)
        ≡ left 0
        (choose_ready (ready_key_of ready.now) (key_option_of key.now)
        (parameters_of current.now) (flag_from expired) (flag_from yielding) (flag_from tail)) }
{
    let ready_key = ready_key_of(*ready);
    let its_key = key_option_of(*key);
    let parameters = parameters_of(*current);
    let choice = choose_ready(
        ready_key,
        its_key,
        parameters,
        flag_from(expired),
        flag_from(yielding),
        flag_from(tail),
    );
    *answer = words_of_choice(choice);
    0
}

// The mode of the current thread's key, and what else there is on the processor, as the words have them.
fn arm(
    t: &mut [Row],
    id: u64,
    now_ns: u64,
    mode: Option<DispatchMode>,
    window: &mut WindowWords,
    others: Contention,
    answer: &mut DeadlineWords,
) -> u64
    ensures t_after { left result (deadline_of answer.new, (window_of window.new, table t.new))
        ≡ deadline_left (deadline_of answer.old)
        (refresh_deadline (table t.old) id now_ns mode (window_of window.old) others) }
    ensures stays { Stays result t.old t.new }
    ensures stays_2 { Stays result window.old window.new }
    ensures stays_3 { Stays result answer.old answer.new }
    ensures framed { Framed t.old t.new }
{
    let before = window_of(*window);
    let step = refresh_deadline(t, ThreadId(id), now_ns, mode, before, others);
    let after = step.window;
    let given = step.answer;
    match given {
        Ok(deadline) => {
            store_progress(window, after);
            *answer = words_of_deadline(deadline);
            0
        }
        Err(refusal) => refusal.number(),
    }
}

// refresh_deadline, with the words of the current thread's key.
#[unsafe(no_mangle)]
pub extern "C" fn board_deadline(
    t: &mut [Row],
    id: u64,
    now_ns: u64,
    key: &KeyWords,
    window: &mut WindowWords,
    competition: u64,
    budget_peer: u64,
    ready: u64,
    demand: &DemandWords,
    answer: &mut DeadlineWords,
) -> u64
    ensures t_after { left result (deadline_of answer.new, (window_of window.new, table t.new))
        ≡ deadline_left (deadline_of answer.old)
        (refresh_deadline (table t.old) id now_ns (mode_of (key_option_of key.now))
        (window_of window.old)
        (contention (flag_from competition) (flag_from budget_peer) (flag_from ready)
        (demand_of demand.now))) }
    ensures stays { Stays result t.old t.new }
    ensures stays_2 { Stays result window.old window.new }
    ensures stays_3 { Stays result answer.old answer.new }
    ensures framed { Framed t.old t.new }
{
    let mode = mode_of(key_option_of(*key));
    let others = contention_of(competition, budget_peer, ready, *demand);
    arm(t, id, now_ns, mode, window, others, answer)
}
