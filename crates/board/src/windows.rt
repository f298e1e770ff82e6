// Calls on a window's words: a new window, and the running thread's key.
ghost use Rattle.std.specs.Prelude.{◌≡◌};
ghost use Rattle.refusal.specs.Answer.{by_number};
ghost use Rattle.arbitration.specs.Calls.{key_call};
ghost use Rattle.window_words.specs.WindowWords.{config_of, window_of, demand_of, candidate_of, key_option_of};
ghost use Rattle.board_words.specs.BoardWords.{made_window};
ghost use Rattle.board.specs.Board.{left, Stays, answered, key_left};

use arbitration::CpuWindow;
use board_words::made_window;
use codec::Row;
use refusal::Refusal;
use window_config::ArbitrationConfig;
use window_entries::window_candidate_key;
use window_words::{
    BORROW_RANK, BUDGET_RANK, ConfigWords, DemandWords, FAIR_RANK, KeyWords, PREFER_FAIR,
    PRIORITY_RANK, WINDOW_ALLOWANCE, WINDOW_FLOOR, WINDOW_PERIOD, WindowWords, config_of,
    with_window,
};

// A configuration's words, read as those of a window.
fn config_in(w: ConfigWords) -> ArbitrationConfig
    ensures { result ≡ config_of w }
{
    config_of([
        w[WINDOW_PERIOD],
        w[WINDOW_ALLOWANCE],
        w[WINDOW_FLOOR],
        w[PRIORITY_RANK],
        w[BUDGET_RANK],
        w[FAIR_RANK],
        w[BORROW_RANK],
        w[PREFER_FAIR],
        0,
        0,
        0,
        0,
    ])
}

fn store_made(window: &mut WindowWords, made: Result<CpuWindow, Refusal>) -> u64
    ensures window_after { left result (window_of window.new)
        ≡ answered (window_of window.old) (by_number made) }
    ensures stays { Stays result window.old window.new }
{
    match made {
        Ok(fresh) => {
            *window = with_window(*window, fresh);
            0
        }
        Err(refusal) => refusal.number(),
    }
}

// ArbitrationConfig::new with the flag for fair threads, then CpuWindow::new.
#[unsafe(no_mangle)]
pub extern "C" fn board_window(window: &mut WindowWords, config: &ConfigWords) -> u64
    ensures window_after { left result (window_of window.new)
        ≡ answered (window_of window.old) (made_window (config_of config.now)) }
    ensures stays { Stays result window.old window.new }
{
    store_made(window, made_window(config_in(*config)))
}

// CpuWindow::candidate_key, with the mode.
#[unsafe(no_mangle)]
pub extern "C" fn board_key(
    window: &mut WindowWords,
    now_ns: u64,
    current: &Row,
    demand: &DemandWords,
    key: &mut KeyWords,
) -> u64
    ensures window_after { left result (key_option_of key.new, window_of window.new)
        ≡ key_left (key_option_of key.old)
        (key_call (window_of window.old) now_ns (candidate_of current.now)
        (demand_of demand.now)) }
    ensures stays { Stays result window.old window.new }
    ensures stays_2 { Stays result key.old key.new }
{
    window_candidate_key(window, now_ns, current, demand, key)
}
