// The C calls of the crate window_entries: each is the call of its name there, and promises the same.
#![tactic(auto)]

ghost use Rattle.std.specs.Prelude.{◌≡◌, ◌≢◌};
ghost use Rattle.policy_words.specs.PolicyWords.{parameters_of, backend_from, deadline_of};
ghost use Rattle.window_config.specs.Config.{preferring, accepts_budget, admitted};
ghost use Rattle.arbitration.specs.Key.{compare_keys};
ghost use Rattle.arbitration.specs.Window.{new_window};
ghost use Rattle.arbitration.specs.Calls.{refresh_call, account_call, period_deadline_call, protection_call, key_call};
ghost use Rattle.arbitration.specs.Calls.{next_deadline_call};
ghost use Rattle.window_words.specs.WindowWords.{mode_from, config_of, window_of, configured};
ghost use Rattle.window_words.specs.WindowWords.{demand_of, candidate_of, dispatch_key_of, key_option_of};
ghost use Rattle.window_entries.specs.Entries.{left, left_of, new_config_of, config_left, window_left};
ghost use Rattle.window_entries.specs.Entries.{ordering_number};

use policy_words::{DeadlineWords, Row};
use window_words::{DemandWords, KeyWords, WindowWords};

// ArbitrationConfig::new, on words 0 to 6 of a window.
#[unsafe(no_mangle)]
pub extern "C" fn config_new(window: &mut WindowWords) -> u64
    ensures window_after { left result tt (window_of window.new) ≡ config_left (window_of window.old)
        (new_config_of (config_of window.old)) }
    ensures window_unchanged { result ≢ 0 → window.new ≡ window.old }
{
    window_entries::config_new(window)
}

// ArbitrationConfig::with_prefer_fair
#[unsafe(no_mangle)]
pub extern "C" fn config_with_prefer_fair(window: &mut WindowWords, prefer_fair: bool)
    ensures { window_of window.new ≡ configured (window_of window.old)
        (preferring (config_of window.old) prefer_fair) }
{
    window_entries::config_with_prefer_fair(window, prefer_fair);
}

// ArbitrationConfig::accepts
#[unsafe(no_mangle)]
pub extern "C" fn config_accepts(window: &WindowWords, row: &Row) -> bool
    ensures { result ≡ accepts_budget (config_of window.now) (parameters_of row.now) }
{
    window_entries::config_accepts(window, row)
}

// ArbitrationConfig::admits
#[unsafe(no_mangle)]
pub extern "C" fn config_admits(window: &WindowWords, row: &Row, backend: u64) -> bool
    ensures { result ≡ admitted (config_of window.now) (parameters_of row.now)
        (backend_from backend) }
{
    window_entries::config_admits(window, row, backend)
}

// CpuWindow::new, on the configuration of a window.
#[unsafe(no_mangle)]
pub extern "C" fn window_new(window: &mut WindowWords) -> u64
    ensures window_after { left result tt (window_of window.new) ≡ window_left (window_of window.old)
        (new_window (config_of window.old)) }
    ensures window_unchanged { result ≢ 0 → window.new ≡ window.old }
{
    window_entries::window_new(window)
}

// CpuWindow::period_ns
#[unsafe(no_mangle)]
pub extern "C" fn window_period_ns(window: &WindowWords) -> u64
    ensures { result ≡ (window_of window.now).config.period_ns }
{
    window_entries::window_period_ns(window)
}

// CpuWindow::refresh, by the words that it bears on: a window that stays in its epoch is not stored.
#[unsafe(no_mangle)]
pub extern "C" fn window_refresh(window: &mut WindowWords, now_ns: u64) -> u64
    ensures window_after { left result tt (window_of window.new)
        ≡ left_of tt (refresh_call (window_of window.old) now_ns) }
    ensures window_unchanged { result ≢ 0 → window.new ≡ window.old }
{
    window_entries::window_refresh(window, now_ns)
}

// CpuWindow::account_dispatch, by the words that it bears on.
#[unsafe(no_mangle)]
pub extern "C" fn window_account_dispatch(
    window: &mut WindowWords,
    start: u64,
    end: u64,
    row: &Row,
    mode: u64,
) -> u64
    ensures window_after { left result tt (window_of window.new)
        ≡ left_of tt (account_call (window_of window.old) start end (parameters_of row.now)
        (mode_from mode)) }
    ensures window_unchanged { result ≢ 0 → window.new ≡ window.old }
{
    window_entries::window_account_dispatch(window, start, end, row, mode)
}

// CpuWindow::period_deadline
#[unsafe(no_mangle)]
pub extern "C" fn window_period_deadline(
    window: &mut WindowWords,
    now_ns: u64,
    answer: &mut DeadlineWords,
) -> u64
    ensures window_after { left result (deadline_of answer.new) (window_of window.new)
        ≡ left_of (deadline_of answer.old) (period_deadline_call (window_of window.old) now_ns) }
    ensures window_unchanged { result ≢ 0 → window.new ≡ window.old }
    ensures answer_unchanged { result ≢ 0 → answer.new ≡ answer.old }
{
    window_entries::window_period_deadline(window, now_ns, answer)
}

// CpuWindow::protection_deadline
#[unsafe(no_mangle)]
pub extern "C" fn window_protection_deadline(
    window: &mut WindowWords,
    now_ns: u64,
    protected_waiting: bool,
    answer: &mut DeadlineWords,
) -> u64
    ensures window_after { left result (deadline_of answer.new) (window_of window.new)
        ≡ left_of (deadline_of answer.old)
        (protection_call (window_of window.old) now_ns protected_waiting) }
    ensures window_unchanged { result ≢ 0 → window.new ≡ window.old }
    ensures answer_unchanged { result ≢ 0 → answer.new ≡ answer.old }
{
    window_entries::window_protection_deadline(window, now_ns, protected_waiting, answer)
}

// CpuWindow::next_deadline
#[unsafe(no_mangle)]
pub extern "C" fn window_next_deadline(
    window: &mut WindowWords,
    now_ns: u64,
    mode: u64,
    competition: bool,
    demand: &DemandWords,
    answer: &mut DeadlineWords,
) -> u64
    ensures window_after { left result (deadline_of answer.new) (window_of window.new)
        ≡ left_of (deadline_of answer.old)
        (next_deadline_call (window_of window.old) now_ns (mode_from mode) competition
        (demand_of demand.now)) }
    ensures window_unchanged { result ≢ 0 → window.new ≡ window.old }
    ensures answer_unchanged { result ≢ 0 → answer.new ≡ answer.old }
{
    window_entries::window_next_deadline(window, now_ns, mode, competition, demand, answer)
}

// CpuWindow::candidate_key, with the mode. The window is stored before the key is made, which leaves the compiler fewer
// words to hold.
#[unsafe(no_mangle)]
pub extern "C" fn window_candidate_key(
    window: &mut WindowWords,
    now_ns: u64,
    candidate: &Row,
    demand: &DemandWords,
    answer: &mut KeyWords,
) -> u64
    ensures window_after { left result (key_option_of answer.new) (window_of window.new)
        ≡ left_of (key_option_of answer.old)
        (key_call (window_of window.old) now_ns (candidate_of candidate.now)
        (demand_of demand.now)) }
    ensures window_unchanged { result ≢ 0 → window.new ≡ window.old }
    ensures answer_unchanged { result ≢ 0 → answer.new ≡ answer.old }
{
    window_entries::window_candidate_key(window, now_ns, candidate, demand, answer)
}

// compare_keys, on two keys' words; Less, Equal and Greater are 0 to 2.
#[unsafe(no_mangle)]
pub extern "C" fn dispatch_keys_compare(a: &KeyWords, b: &KeyWords) -> u64
    ensures { result ≡ ordering_number
        (compare_keys (dispatch_key_of a.now) (dispatch_key_of b.now)) }
{
    window_entries::dispatch_keys_compare(a, b)
}
