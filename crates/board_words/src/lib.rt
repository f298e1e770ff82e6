// Words of what the board's calls are handed and answer, as arrays. Nothing here is partial: all words stand for some
// value.
#![tactic(auto)]

ghost use Rattle.std.specs.Prelude.{◌≡◌, Some};
ghost use Rattle.refusal.specs.Answer.{by_number};
ghost use Rattle.codec.specs.Codec.{word};
ghost use Rattle.window_words.specs.WindowWords.{flag_from, demand_of, key_option_of};
ghost use Rattle.board_words.specs.BoardWords.{ready_of, pass_from, selection_from, current_of, turns_of, ready_key_of};
ghost use Rattle.board_words.specs.BoardWords.{choice_of, contention, made_window};

use algorithms::Wide;
use arbitration::{Candidate, CpuWindow, DispatchMode};
use codec::word_of_byte;
use decisions::{Choice, Contention, Turns};
use dispatch_keys::DispatchKey;
use policy_words::{Row, words_of_policy};
use refusal::Refusal;
use selection::{ReadyThread, Selection};
use window_config::ArbitrationConfig;
use window_words::{
    DemandWords, KEY_MODE, KEY_TAG, KEY_WORDS, KeyWords, candidate_of, demand_of, dispatch_key_of,
    flag_from, mode_from, word_of_flag,
};

// A selection: the thread with its key and policy, the demand, and the lowest fair pass.
pub const SELECTION_WORDS: usize = 19;

pub type SelectionWords = [u64; SELECTION_WORDS];

pub const SELECTED_TAG: usize = 0;

pub const SELECTED_ID: usize = 1;

pub const SELECTION_PROTECTED: usize = 11;

pub const SELECTION_FAIR: usize = 12;

pub const SELECTION_SENSITIVE: usize = 13;

pub const SELECTION_ELIGIBLE: usize = 14;

pub const SELECTION_ANY: usize = 15;

pub const MIN_PASS_TAG: usize = 16;

pub const MIN_PASS_HIGH: usize = 17;

pub const MIN_PASS_LOW: usize = 18;

// The thread's part of a selection, and that of the lowest pass.
const THREAD_WORDS: usize = 11;

type ThreadWords = [u64; THREAD_WORDS];

const PASS_WORDS: usize = 3;

type PassWords = [u64; PASS_WORDS];

// The turn counters at the back and at the front.
pub const TURN_WORDS: usize = 2;

pub type TurnWords = [u64; TURN_WORDS];

pub const BACK_TURN: usize = 0;

pub const FRONT_TURN: usize = 1;

// A ready thread's key, whose mode is not looked at.
pub type ReadyWords = [u64; KEY_WORDS];

// Whether to switch, and whether the current thread then goes to the front.
pub const CHOICE_WORDS: usize = 2;

pub type ChoiceWords = [u64; CHOICE_WORDS];

// How many FIFO, Fair and Budget threads are queued.
pub const LENGTH_WORDS: usize = 3;

pub type LengthWords = [u64; LENGTH_WORDS];

// One flag.
pub const FLAG_WORDS: usize = 1;

pub type FlagWord = [u64; FLAG_WORDS];

fn words_of_thread(thread: ReadyThread) -> ThreadWords
    ensures { ready_of result ≡ Some thread }
{
    let id = thread.id;
    let key = thread.key;
    let its_policy = thread.policy;
    let algorithm = key.algorithm;
    let policy = words_of_policy(its_policy);
    let urgency = word_of_byte(key.urgency);
    let rank = word_of_byte(key.rank);
    let algorithm_rank = word_of_byte(key.algorithm_rank);
    let band = word_of_byte(key.band);
    [
        1,
        id.0,
        urgency,
        rank,
        algorithm_rank,
        algorithm.high,
        algorithm.low,
        band,
        key.turn,
        policy[0],
        policy[1],
    ]
}

fn words_of_ready(thread: Option<ReadyThread>) -> ThreadWords
    ensures { ready_of result ≡ thread }
{
    match thread {
        None => [0, 0, 0, 0, 0, 0, 0, 0, 0, 0, 0],
        Some(its) => words_of_thread(its),
    }
}

fn words_of_pass(pass: Option<Wide>) -> PassWords
    ensures { pass_from (word result 0) (word result 1) (word result 2) ≡ pass }
{
    match pass {
        None => [0, 0, 0],
        Some(its) => [1, its.high, its.low],
    }
}

pub fn words_of_selection(selection: Selection) -> SelectionWords
    ensures { selection_from result ≡ selection }
{
    let its_ready = selection.ready;
    let demand = selection.demand;
    let its_pass = selection.fair_min_pass;
    let r = words_of_ready(its_ready);
    let protected = word_of_flag(demand.protected);
    let fair = word_of_flag(demand.fair);
    let sensitive = word_of_flag(demand.window_sensitive);
    let eligible = word_of_flag(demand.eligible_budget);
    let any = word_of_flag(demand.any_budget);
    let p = words_of_pass(its_pass);
    [
        r[0], r[1], r[2], r[3], r[4], r[5], r[6], r[7], r[8], r[9], r[10], protected, fair,
        sensitive, eligible, any, p[0], p[1], p[2],
    ]
}

pub fn current_of(running: u64, row: Row) -> Option<Candidate>
    ensures { result ≡ current_of (flag_from running) row }
{
    if flag_from(running) {
        return Some(candidate_of(row));
    }
    None
}

pub fn turns_of(w: TurnWords) -> Turns
    ensures { result ≡ turns_of w }
{
    Turns {
        back: w[BACK_TURN],
        front: w[FRONT_TURN],
    }
}

pub fn words_of_turns(turns: Turns) -> TurnWords
    ensures { turns_of result ≡ turns }
{
    [turns.back, turns.front]
}

pub fn ready_key_of(w: ReadyWords) -> Option<DispatchKey>
    ensures { result ≡ ready_key_of w }
{
    if w[KEY_TAG] == 0 {
        return None;
    }
    Some(dispatch_key_of(w))
}

pub fn key_option_of(w: KeyWords) -> Option<(DispatchKey, DispatchMode)>
    ensures { result ≡ key_option_of w }
{
    if w[KEY_TAG] == 0 {
        return None;
    }
    Some((dispatch_key_of(w), mode_from(w[KEY_MODE])))
}

pub fn words_of_choice(choice: Choice) -> ChoiceWords
    ensures { choice_of result ≡ choice }
{
    let switches = word_of_flag(choice.should_switch);
    let front = word_of_flag(choice.front);
    [switches, front]
}

pub fn contention_of(competition: u64, budget_peer: u64, ready: u64, w: DemandWords) -> Contention
    ensures { result ≡ contention (flag_from competition) (flag_from budget_peer) (flag_from ready) (demand_of w) }
{
    let demand = demand_of(w);
    let its_competition = flag_from(competition);
    let its_peer = flag_from(budget_peer);
    let its_ready = flag_from(ready);
    Contention {
        competition: its_competition,
        budget_peer: its_peer,
        ready: its_ready,
        demand,
    }
}

// ArbitrationConfig::new with the flag for fair threads, then CpuWindow::new.
pub fn made_window(config: ArbitrationConfig) -> Result<CpuWindow, Refusal>
    ensures { by_number result ≡ made_window config }
{
    let order = config.order;
    let made = ArbitrationConfig::new(
        config.period_ns,
        config.priority_allowance_ns,
        config.protected_floor_ns,
        order,
    );
    match made {
        Ok(fresh) => CpuWindow::new(fresh.with_prefer_fair(config.prefer_fair)),
        Err(refusal) => Err(refusal),
    }
}
