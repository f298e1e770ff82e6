// The C calls of board's selecting.rt.
ghost use Rattle.std.specs.Prelude.{◌≡◌};
ghost use Rattle.window_words.specs.WindowWords.{window_of};
ghost use Rattle.lent_queue.specs.LentQueue.{queue_of};
ghost use Rattle.lent_queue.specs.Frame.{QueueFramed};
ghost use Rattle.lent_selection.specs.Early.{Early};
ghost use Rattle.board.specs.Board.{Stays, Selects};
ghost use Rattle.rows.specs.Frame.{Framed};

use board_words::SelectionWords;
use codec::Row;
use lent_queue::QueueRows;
use ready_index::Path;
use window_words::WindowWords;

// CpuRunQueue::peek_next, with a path that the caller lends; the row of the running thread counts where `running` says
// that there is one.
#[unsafe(no_mangle)]
pub extern "C" fn board_select(
    q: &mut QueueRows,
    t: &mut [Row],
    path: &mut Path,
    cpu: u8,
    now_ns: u64,
    window: &mut WindowWords,
    running: u64,
    current: &Row,
    answer: &mut SelectionWords,
) -> u64
    ensures selects { Selects q.old t.old cpu now_ns window.old running
        current.now answer.old result q.new t.new window.new
        answer.new }
    ensures stays { Stays result answer.old answer.new }
    ensures stays_2 { Stays result window.old window.new }
    ensures q_unchanged { Early t.old (window_of window.old) (queue_of q.old)
        → q.new ≡ q.old }
    ensures t_unchanged { Early t.old (window_of window.old) (queue_of q.old)
        → t.new ≡ t.old }
    ensures framed { Framed t.old t.new }
    ensures queue_framed { QueueFramed q.old q.new }
{
    board::board_select(q, t, path, cpu, now_ns, window, running, current, answer)
}
