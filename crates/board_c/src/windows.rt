// The C calls of board's windows.rt.
ghost use Rattle.std.specs.Prelude.{◌≡◌};
ghost use Rattle.arbitration.specs.Calls.{key_call};
ghost use Rattle.window_words.specs.WindowWords.{config_of, window_of, demand_of, candidate_of, key_option_of};
ghost use Rattle.board_words.specs.BoardWords.{made_window};
ghost use Rattle.board.specs.Board.{left, Stays, answered, key_left};

use codec::Row;
use window_words::{ConfigWords, DemandWords, KeyWords, WindowWords};

// ArbitrationConfig::new with the flag for fair threads, then CpuWindow::new.
#[unsafe(no_mangle)]
pub extern "C" fn board_window(window: &mut WindowWords, config: &ConfigWords) -> u64
    ensures window_after { left result (window_of window.new)
        ≡ answered (window_of window.old) (made_window (config_of config.now)) }
    ensures stays { Stays result window.old window.new }
{
    board::board_window(window, config)
}

// CpuWindow::candidate_key, with the mode.
#[unsafe(no_mangle)]
pub extern "C" fn board_key(
    window: &mut WindowWords,
    now_ns: u64,
    current: &Row,
    demand: &DemandWords,
    key: &mut KeyWords,
) -> u64
    ensures window_after { left result (key_option_of key.new, window_of window.new)
        ≡ key_left (key_option_of key.old)
        (key_call (window_of window.old) now_ns (candidate_of current.now)
        (demand_of demand.now)) }
    ensures stays { Stays result window.old window.new }
    ensures stays_2 { Stays result key.old key.new }
{
    board::board_key(window, now_ns, current, demand, key)
}
