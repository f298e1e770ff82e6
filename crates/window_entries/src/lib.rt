// C calls on lent words, through which the Rust host compares CPU windows and dispatch keys with the kernel's source.
// Each is the call of its name on what the words stand for. It answers document 01's number, 0 where the call was
// accepted; a refusal leaves every lent word as it was.
#![tactic(auto)]

ghost use Rattle.std.specs.Prelude.{◌≡◌, ◌≢◌};
ghost use Rattle.refusal.specs.Answer.{by_number};
ghost use Rattle.refusal.specs.Cases.{choose};
ghost use Rattle.time.specs.Time.{rises};
ghost use Rattle.policy_words.specs.PolicyWords.{word, parameters_of, role_from, backend_from, epoch_from, deadline_of};
ghost use Rattle.window_config.specs.Config.{sound_config, preferring, accepts_budget, admitted};
ghost use Rattle.arbitration.specs.Key.{compare_keys};
ghost use Rattle.arbitration.specs.Window.{new_window, refreshed, uses_allowance, is_protected, charged};
ghost use Rattle.arbitration.specs.Calls.{refresh_call, account_call, period_deadline_call, protection_call, key_call};
ghost use Rattle.arbitration.specs.Calls.{next_deadline_call};
ghost use Rattle.window_words.specs.WindowWords.{mode_from, order_of, config_of, window_of, configured, progressed};
ghost use Rattle.window_words.specs.WindowWords.{demand_of, candidate_of, dispatch_key_of, key_option_of};
ghost use Rattle.window_entries.specs.Entries.{left, left_of, stored_over, new_config_of, config_left, window_left};
ghost use Rattle.window_entries.specs.Entries.{ordering_number};

use arbitration::{CpuWindow, WindowDeadline};
use dispatch_keys::compare_keys;
use policy::BudgetParameters;
use policy_words::{
    DeadlineWords, ROLE_TAG, Row, backend_from, epoch_from, parameters_of, words_of_deadline,
};
use std::cmp::Ordering;
use time::{charge_of, epoch_of, epoch_rises};
use window_config::ArbitrationConfig;
use window_words::{
    ALLOWANCE_LEFT, BORROW_RANK, BUDGET_RANK, DemandWords, EPOCH, EPOCH_TAG, FAIR_RANK, FLOOR_LEFT,
    KeyWords, PRIORITY_RANK, WINDOW_ALLOWANCE, WINDOW_FLOOR, WINDOW_PERIOD, WindowWords,
    candidate_of, config_of, demand_of, dispatch_key_of, mode_from, store_key, store_progress,
    window_of, with_config, with_progress, with_window,
};

// ArbitrationConfig::new, on words 0 to 6 of a window.
#[unsafe(no_mangle)]
pub extern "C" fn config_new(window: &mut WindowWords) -> u64
    ensures window_after { left result tt (window_of window.new) ≡ config_left (window_of window.old)
        (new_config_of (config_of window.old)) }
    ensures window_unchanged { result ≢ 0 → window.new ≡ window.old }
{
    let words = *window;
    let given = config_of(words);
    let order = given.order;
    let made = ArbitrationConfig::new(
        given.period_ns,
        given.priority_allowance_ns,
        given.protected_floor_ns,
        order,
    );
    match made {
        Ok(config) => {
            *window = with_config(words, config);
            0
        }
        Err(refusal) => refusal.number(),
    }
}

// ArbitrationConfig::with_prefer_fair
#[unsafe(no_mangle)]
pub extern "C" fn config_with_prefer_fair(window: &mut WindowWords, prefer_fair: bool)
    ensures { window_of window.new ≡ configured (window_of window.old)
        (preferring (config_of window.old) prefer_fair) }
{
    let words = *window;
    let config = config_of(words);
    *window = with_config(words, config.with_prefer_fair(prefer_fair));
}

// ArbitrationConfig::accepts
#[unsafe(no_mangle)]
pub extern "C" fn config_accepts(window: &WindowWords, row: &Row) -> bool
    ensures { result ≡ accepts_budget (config_of window.now) (parameters_of row.now) }
{
    let config = config_of(*window);
    config.accepts(parameters_of(*row))
}

// ArbitrationConfig::admits
#[unsafe(no_mangle)]
pub extern "C" fn config_admits(window: &WindowWords, row: &Row, backend: u64) -> bool
    ensures { result ≡ admitted (config_of window.now) (parameters_of row.now)
        (backend_from backend) }
{
    let config = config_of(*window);
    config.admits(parameters_of(*row), backend_from(backend))
}

// CpuWindow::new, on the configuration of a window.
#[unsafe(no_mangle)]
pub extern "C" fn window_new(window: &mut WindowWords) -> u64
    ensures window_after { left result tt (window_of window.new) ≡ window_left (window_of window.old)
        (new_window (config_of window.old)) }
    ensures window_unchanged { result ≢ 0 → window.new ≡ window.old }
{
    let words = *window;
    let made = CpuWindow::new(config_of(words));
    match made {
        Ok(fresh) => {
            *window = with_window(words, fresh);
            0
        }
        Err(refusal) => refusal.number(),
    }
}

// CpuWindow::period_ns
#[unsafe(no_mangle)]
pub extern "C" fn window_period_ns(window: &WindowWords) -> u64
    ensures { result ≡ (window_of window.now).config.period_ns }
{
    let its = window_of(*window);
    its.period_ns()
}

// Whether `ArbitrationConfig::new` would take the configuration. In this order the compiler keeps a branch for each
// test, which is fewer instructions than to gather them.
fn is_sound(w: WindowWords) -> bool
    ensures { result ≡ sound_config (config_of w) }
{
    if (w[BUDGET_RANK] % 256) as u8 <= (w[PRIORITY_RANK] % 256) as u8 {
        return false;
    }
    if (w[FAIR_RANK] % 256) as u8 <= (w[BUDGET_RANK] % 256) as u8 {
        return false;
    }
    if (w[BORROW_RANK] % 256) as u8 <= (w[FAIR_RANK] % 256) as u8 {
        return false;
    }
    if w[WINDOW_PERIOD] <= w[WINDOW_FLOOR] {
        return false;
    }
    if w[WINDOW_FLOOR] == 0 {
        return false;
    }
    if w[WINDOW_PERIOD] - w[WINDOW_FLOOR] <= w[WINDOW_ALLOWANCE] {
        return false;
    }
    if BudgetParameters::MAX_PERIOD_NS < w[WINDOW_PERIOD] {
        return false;
    }
    true
}

// Whether an epoch is later than the window's.
fn is_later(w: WindowWords, epoch: u64) -> bool
    ensures { result ≡ rises (epoch_from (word w 8) (word w 9)) epoch }
{
    epoch_rises(epoch_from(w[EPOCH_TAG], w[EPOCH]), epoch)
}

// CpuWindow::refresh, by the words that it bears on: a window that stays in its epoch is not stored.
#[unsafe(no_mangle)]
pub extern "C" fn window_refresh(window: &mut WindowWords, now_ns: u64) -> u64
    ensures window_after { left result tt (window_of window.new)
        ≡ left_of tt (refresh_call (window_of window.old) now_ns) }
    ensures window_unchanged { result ≢ 0 → window.new ≡ window.old }
{
    let words = *window;
    if !is_sound(words) {
        return 5;
    }
    let epoch = epoch_of(now_ns, words[WINDOW_PERIOD]);
    if !is_later(words, epoch) {
        return 0;
    }
    *window = with_progress(
        words,
        Some(epoch),
        words[WINDOW_ALLOWANCE],
        words[WINDOW_FLOOR],
    );
    0
}

// The window refreshed to a reading.
fn refreshed_words(w: WindowWords, now_ns: u64) -> WindowWords
    ensures { window_of result ≡ refreshed (window_of w) now_ns }
{
    let epoch = epoch_of(now_ns, w[WINDOW_PERIOD]);
    if !is_later(w, epoch) {
        return w;
    }
    with_progress(w, Some(epoch), w[WINDOW_ALLOWANCE], w[WINDOW_FLOOR])
}

// Whether the allowance carries an interval, by the tags of its mode and of the thread's role.
fn takes_allowance(mode: u64, role: u64) -> bool
    ensures { result ≡ uses_allowance (mode_from mode) (role_from role) }
{
    if mode == 1 {
        return true;
    }
    if role == 1 {
        return true;
    }
    false
}

// Whether the floor carries it.
fn takes_floor(role: u64) -> bool
    ensures { result ≡ is_protected (role_from role) }
{
    if role == 0 {
        return false;
    }
    if role == 1 {
        return false;
    }
    true
}

fn share(taken: bool, charge: u64) -> u64
    ensures { result ≡ choose taken charge 0 }
{
    if taken {
        return charge;
    }
    0
}

// The window charged with an interval.
fn charged_words(w: WindowWords, start: u64, end: u64, row: Row, mode: u64) -> WindowWords
    ensures { window_of result ≡ charged (window_of w) start end (parameters_of row) (mode_from mode) }
{
    let fresh = refreshed_words(w, end);
    let charge = charge_of(start, end, fresh[WINDOW_PERIOD]);
    let allowance = share(takes_allowance(mode, row[ROLE_TAG]), charge);
    let floor = share(takes_floor(row[ROLE_TAG]), charge);
    let epoch = epoch_from(fresh[EPOCH_TAG], fresh[EPOCH]);
    with_progress(
        fresh,
        epoch,
        fresh[ALLOWANCE_LEFT].saturating_sub(allowance),
        fresh[FLOOR_LEFT].saturating_sub(floor),
    )
}

// CpuWindow::account_dispatch, by the words that it bears on.
#[unsafe(no_mangle)]
pub extern "C" fn window_account_dispatch(
    window: &mut WindowWords,
    start: u64,
    end: u64,
    row: &Row,
    mode: u64,
) -> u64
    ensures window_after { left result tt (window_of window.new)
        ≡ left_of tt (account_call (window_of window.old) start end (parameters_of row.now)
        (mode_from mode)) }
    ensures window_unchanged { result ≢ 0 → window.new ≡ window.old }
{
    let words = *window;
    if !is_sound(words) {
        return 5;
    }
    if end < start {
        return 7;
    }
    *window = charged_words(words, start, end, *row, mode);
    0
}

// The window and the deadline of an accepted step stored.
fn store_deadline(window: &mut WindowWords, answer: &mut DeadlineWords, step: WindowDeadline) -> u64
    ensures window_after { left result (deadline_of answer.new) (window_of window.new)
        ≡ stored_over (deadline_of answer.old) (window_of window.old) (by_number step.answer)
        step.window }
    ensures window_unchanged { result ≢ 0 → window.new ≡ window.old }
    ensures answer_unchanged { result ≢ 0 → answer.new ≡ answer.old }
{
    let given = step.answer;
    let after = step.window;
    match given {
        Ok(deadline) => {
            store_progress(window, after);
            *answer = words_of_deadline(deadline);
            0
        }
        Err(refusal) => refusal.number(),
    }
}

// CpuWindow::period_deadline
#[unsafe(no_mangle)]
pub extern "C" fn window_period_deadline(
    window: &mut WindowWords,
    now_ns: u64,
    answer: &mut DeadlineWords,
) -> u64
    ensures window_after { left result (deadline_of answer.new) (window_of window.new)
        ≡ left_of (deadline_of answer.old) (period_deadline_call (window_of window.old) now_ns) }
    ensures window_unchanged { result ≢ 0 → window.new ≡ window.old }
    ensures answer_unchanged { result ≢ 0 → answer.new ≡ answer.old }
{
    let before = window_of(*window);
    store_deadline(window, answer, before.period_deadline(now_ns))
}

// CpuWindow::protection_deadline
#[unsafe(no_mangle)]
pub extern "C" fn window_protection_deadline(
    window: &mut WindowWords,
    now_ns: u64,
    protected_waiting: bool,
    answer: &mut DeadlineWords,
) -> u64
    ensures window_after { left result (deadline_of answer.new) (window_of window.new)
        ≡ left_of (deadline_of answer.old)
        (protection_call (window_of window.old) now_ns protected_waiting) }
    ensures window_unchanged { result ≢ 0 → window.new ≡ window.old }
    ensures answer_unchanged { result ≢ 0 → answer.new ≡ answer.old }
{
    let before = window_of(*window);
    store_deadline(
        window,
        answer,
        before.protection_deadline(now_ns, protected_waiting),
    )
}

// CpuWindow::next_deadline
#[unsafe(no_mangle)]
pub extern "C" fn window_next_deadline(
    window: &mut WindowWords,
    now_ns: u64,
    mode: u64,
    competition: bool,
    demand: &DemandWords,
    answer: &mut DeadlineWords,
) -> u64
    ensures window_after { left result (deadline_of answer.new) (window_of window.new)
        ≡ left_of (deadline_of answer.old)
        (next_deadline_call (window_of window.old) now_ns (mode_from mode) competition
        (demand_of demand.now)) }
    ensures window_unchanged { result ≢ 0 → window.new ≡ window.old }
    ensures answer_unchanged { result ≢ 0 → answer.new ≡ answer.old }
{
    let before = window_of(*window);
    let its_mode = mode_from(mode);
    let its_demand = demand_of(*demand);
    let step = before.next_deadline(now_ns, its_mode, competition, its_demand);
    store_deadline(window, answer, step)
}

// CpuWindow::candidate_key, with the mode. The window is stored before the key is made, which leaves the compiler fewer
// words to hold.
#[unsafe(no_mangle)]
pub extern "C" fn window_candidate_key(
    window: &mut WindowWords,
    now_ns: u64,
    candidate: &Row,
    demand: &DemandWords,
    answer: &mut KeyWords,
) -> u64
    ensures window_after { left result (key_option_of answer.new) (window_of window.new)
        ≡ left_of (key_option_of answer.old)
        (key_call (window_of window.old) now_ns (candidate_of candidate.now)
        (demand_of demand.now)) }
    ensures window_unchanged { result ≢ 0 → window.new ≡ window.old }
    ensures answer_unchanged { result ≢ 0 → answer.new ≡ answer.old }
{
    let words = *window;
    if !is_sound(words) {
        return 5;
    }
    let before = window_of(words);
    let fresh = before.refreshed(now_ns);
    store_progress(window, fresh);
    let its_candidate = candidate_of(*candidate);
    let its_demand = demand_of(*demand);
    store_key(answer, fresh.key(now_ns, its_candidate, its_demand));
    0
}

fn number_of_ordering(ordering: Ordering) -> u64
    ensures { result ≡ ordering_number ordering }
{
    match ordering {
        Ordering::Less => 0,
        Ordering::Equal => 1,
        Ordering::Greater => 2,
    }
}

// compare_keys, on two keys' words; Less, Equal and Greater are 0 to 2.
#[unsafe(no_mangle)]
pub extern "C" fn dispatch_keys_compare(a: &KeyWords, b: &KeyWords) -> u64
    ensures { result ≡ ordering_number
        (compare_keys (dispatch_key_of a.now) (dispatch_key_of b.now)) }
{
    let first = dispatch_key_of(*a);
    let second = dispatch_key_of(*b);
    number_of_ordering(compare_keys(first, second))
}
