// A CPU window as a row of 12 words, and the words of what its calls are handed and answer. Nothing here is partial:
// every row stands for some value.
#![tactic(auto)]

ghost use Rattle.std.specs.Prelude.{◌≡◌, Some};
ghost use Rattle.window_words.specs.WindowWords.{flag_from, mode_from, order_of, config_of, window_of};
ghost use Rattle.window_words.specs.WindowWords.{configured, progressed, demand_of, candidate_of};
ghost use Rattle.window_words.specs.WindowWords.{dispatch_key_of, key_option_of};

use algorithms::Wide;
use arbitration::{Candidate, CpuWindow, Demand, DispatchMode};
use dispatch_keys::DispatchKey;
use policy_words::{Row, byte_from, epoch_from, parameters_of, word_of_byte, words_of_epoch};
use window_config::{ArbitrationConfig, ArbitrationOrder};

// A CPU window: its configuration, its epoch, and what remains of allowance and floor.
pub const WINDOW_WORDS: usize = 12;

pub type WindowWords = [u64; WINDOW_WORDS];

pub const WINDOW_PERIOD: usize = 0;

pub const WINDOW_ALLOWANCE: usize = 1;

pub const WINDOW_FLOOR: usize = 2;

pub const PRIORITY_RANK: usize = 3;

pub const BUDGET_RANK: usize = 4;

pub const FAIR_RANK: usize = 5;

pub const BORROW_RANK: usize = 6;

pub const PREFER_FAIR: usize = 7;

pub const EPOCH_TAG: usize = 8;

pub const EPOCH: usize = 9;

pub const ALLOWANCE_LEFT: usize = 10;

pub const FLOOR_LEFT: usize = 11;

// A configuration alone: a window's words before the epoch's.
pub const CONFIG_WORDS: usize = 8;

pub type ConfigWords = [u64; CONFIG_WORDS];

// A demand: five flags.
pub const DEMAND_WORDS: usize = 5;

pub type DemandWords = [u64; DEMAND_WORDS];

pub const DEMAND_PROTECTED: usize = 0;

pub const DEMAND_FAIR: usize = 1;

pub const DEMAND_SENSITIVE: usize = 2;

pub const DEMAND_ELIGIBLE: usize = 3;

pub const DEMAND_ANY: usize = 4;

// A candidate: a thread's row with whether its budget has time left in the place of the time.
pub const CANDIDATE_PASS_HIGH: usize = 12;

pub const CANDIDATE_PASS_LOW: usize = 13;

pub const CANDIDATE_AVAILABLE: usize = 14;

pub const CANDIDATE_TURN: usize = 16;

// A dispatch key with its mode, or none.
pub const KEY_WORDS: usize = 9;

pub type KeyWords = [u64; KEY_WORDS];

pub const KEY_TAG: usize = 0;

pub const KEY_MODE: usize = 1;

pub const KEY_URGENCY: usize = 2;

pub const KEY_RANK: usize = 3;

pub const KEY_ALGORITHM_RANK: usize = 4;

pub const KEY_HIGH: usize = 5;

pub const KEY_LOW: usize = 6;

pub const KEY_BAND: usize = 7;

pub const KEY_TURN: usize = 8;

pub fn flag_from(w: u64) -> bool
    ensures { result ≡ flag_from w }
{
    if w == 0 {
        return false;
    }
    true
}

pub fn mode_from(tag: u64) -> DispatchMode
    ensures { result ≡ mode_from tag }
{
    if tag == 0 {
        return DispatchMode::StrictFifo;
    }
    if tag == 1 {
        return DispatchMode::Priority;
    }
    if tag == 2 {
        return DispatchMode::Protected;
    }
    if tag == 3 {
        return DispatchMode::Ordinary;
    }
    DispatchMode::Borrow
}

fn order_of(w: WindowWords) -> ArbitrationOrder
    ensures { result ≡ order_of w }
{
    let priority_rank = byte_from(w[PRIORITY_RANK]);
    let budget_rank = byte_from(w[BUDGET_RANK]);
    let fair_rank = byte_from(w[FAIR_RANK]);
    let borrow_rank = byte_from(w[BORROW_RANK]);
    ArbitrationOrder {
        priority_rank,
        budget_rank,
        fair_rank,
        borrow_rank,
    }
}

pub fn config_of(w: WindowWords) -> ArbitrationConfig
    ensures { result ≡ config_of w }
{
    let order = order_of(w);
    let prefer_fair = flag_from(w[PREFER_FAIR]);
    ArbitrationConfig {
        period_ns: w[WINDOW_PERIOD],
        priority_allowance_ns: w[WINDOW_ALLOWANCE],
        protected_floor_ns: w[WINDOW_FLOOR],
        order,
        prefer_fair,
    }
}

pub fn window_of(w: WindowWords) -> CpuWindow
    ensures { result ≡ window_of w }
{
    let config = config_of(w);
    let epoch = epoch_from(w[EPOCH_TAG], w[EPOCH]);
    CpuWindow {
        config,
        epoch,
        priority_remaining_ns: w[ALLOWANCE_LEFT],
        protected_remaining_ns: w[FLOOR_LEFT],
    }
}

pub fn word_of_flag(flag: bool) -> u64
    ensures { flag_from result ≡ flag }
{
    if flag {
        return 1;
    }
    0
}

pub fn with_config(w: WindowWords, config: ArbitrationConfig) -> WindowWords
    ensures { window_of result ≡ configured (window_of w) config }
{
    let order = config.order;
    let priority_rank = word_of_byte(order.priority_rank);
    let budget_rank = word_of_byte(order.budget_rank);
    let fair_rank = word_of_byte(order.fair_rank);
    let borrow_rank = word_of_byte(order.borrow_rank);
    let prefer_fair = word_of_flag(config.prefer_fair);
    let mut row = w;
    row[WINDOW_PERIOD] = config.period_ns;
    row[WINDOW_ALLOWANCE] = config.priority_allowance_ns;
    row[WINDOW_FLOOR] = config.protected_floor_ns;
    row[PRIORITY_RANK] = priority_rank;
    row[BUDGET_RANK] = budget_rank;
    row[FAIR_RANK] = fair_rank;
    row[BORROW_RANK] = borrow_rank;
    row[PREFER_FAIR] = prefer_fair;
    row
}

// What time changes in a window: its epoch, and what remains of allowance and floor.
pub fn with_progress(
    w: WindowWords,
    epoch: Option<u64>,
    priority_remaining_ns: u64,
    protected_remaining_ns: u64,
) -> WindowWords
    ensures { window_of result ≡ progressed (window_of w) epoch priority_remaining_ns protected_remaining_ns }
{
    let words = words_of_epoch(epoch);
    let mut row = w;
    row[EPOCH_TAG] = words[0];
    row[EPOCH] = words[1];
    row[ALLOWANCE_LEFT] = priority_remaining_ns;
    row[FLOOR_LEFT] = protected_remaining_ns;
    row
}

// A window's epoch and remainders stored: a call changes nothing else of it.
pub fn store_progress(window: &mut WindowWords, after: CpuWindow)
    ensures { window_of window.new
        ≡ progressed (window_of window.old) after.epoch after.priority_remaining_ns
        after.protected_remaining_ns }
{
    let epoch = after.epoch;
    *window = with_progress(
        *window,
        epoch,
        after.priority_remaining_ns,
        after.protected_remaining_ns,
    );
}

pub fn with_window(w: WindowWords, window: CpuWindow) -> WindowWords
    ensures { window_of result ≡ window }
{
    let config = window.config;
    let epoch = window.epoch;
    let first = with_config(w, config);
    with_progress(
        first,
        epoch,
        window.priority_remaining_ns,
        window.protected_remaining_ns,
    )
}

pub fn demand_of(w: DemandWords) -> Demand
    ensures { result ≡ demand_of w }
{
    let protected = flag_from(w[DEMAND_PROTECTED]);
    let fair = flag_from(w[DEMAND_FAIR]);
    let window_sensitive = flag_from(w[DEMAND_SENSITIVE]);
    let eligible_budget = flag_from(w[DEMAND_ELIGIBLE]);
    let any_budget = flag_from(w[DEMAND_ANY]);
    Demand {
        protected,
        fair,
        window_sensitive,
        eligible_budget,
        any_budget,
    }
}

pub fn candidate_of(w: Row) -> Candidate
    ensures { result ≡ candidate_of w }
{
    let parameters = parameters_of(w);
    let budget_available = flag_from(w[CANDIDATE_AVAILABLE]);
    Candidate {
        parameters,
        fair_pass: Wide {
            high: w[CANDIDATE_PASS_HIGH],
            low: w[CANDIDATE_PASS_LOW],
        },
        turn: w[CANDIDATE_TURN],
        budget_available,
    }
}

pub fn dispatch_key_of(w: KeyWords) -> DispatchKey
    ensures { result ≡ dispatch_key_of w }
{
    let urgency = byte_from(w[KEY_URGENCY]);
    let rank = byte_from(w[KEY_RANK]);
    let algorithm_rank = byte_from(w[KEY_ALGORITHM_RANK]);
    let band = byte_from(w[KEY_BAND]);
    DispatchKey {
        urgency,
        rank,
        algorithm_rank,
        algorithm: Wide {
            high: w[KEY_HIGH],
            low: w[KEY_LOW],
        },
        band,
        turn: w[KEY_TURN],
    }
}

fn word_of_mode(mode: DispatchMode) -> u64
    ensures { mode_from result ≡ mode }
{
    match mode {
        DispatchMode::StrictFifo => 0,
        DispatchMode::Priority => 1,
        DispatchMode::Protected => 2,
        DispatchMode::Ordinary => 3,
        DispatchMode::Borrow => 4,
    }
}

fn words_of_key(key: DispatchKey, mode: DispatchMode) -> KeyWords
    ensures { key_option_of result ≡ Some (key, mode) }
{
    let algorithm = key.algorithm;
    let its_mode = word_of_mode(mode);
    let urgency = word_of_byte(key.urgency);
    let rank = word_of_byte(key.rank);
    let algorithm_rank = word_of_byte(key.algorithm_rank);
    let band = word_of_byte(key.band);
    [
        1,
        its_mode,
        urgency,
        rank,
        algorithm_rank,
        algorithm.high,
        algorithm.low,
        band,
        key.turn,
    ]
}

// A key stored, in a branch of its own for either kind, so that the compiler does not gather nine words first.
#[tactic(auto, using(crate::specs::WordLaws::word_laws))]
pub fn store_key(answer: &mut KeyWords, key: Option<(DispatchKey, DispatchMode)>)
    ensures { key_option_of answer.new ≡ key }
{
    match key {
        None => {
            *answer = [0, 0, 0, 0, 0, 0, 0, 0, 0];
        }
        Some((its, mode)) => {
            *answer = words_of_key(its, mode);
        }
    }
}
