// Selection on the queue's words, the table's rows and the words of window, running thread and answer.
ghost use Rattle.std.specs.Prelude.{◌≡◌};
ghost use Rattle.refusal.specs.Answer.{by_number};
ghost use Rattle.window_words.specs.WindowWords.{window_of};
ghost use Rattle.lent_queue.specs.LentQueue.{queue_of};
ghost use Rattle.lent_queue.specs.Frame.{QueueFramed};
ghost use Rattle.lent_selection.specs.Early.{Early};
ghost use Rattle.board_words.specs.BoardWords.{selection_from};
ghost use Rattle.board.specs.Board.{left, Stays, answered, Selects};
ghost use Rattle.board.specs.Progress.{window_left};
ghost use Rattle.rows.specs.Frame.{Framed};

use arbitration::CpuWindow;
use board_words::{SelectionWords, current_of, words_of_selection};
use codec::Row;
use lent_queue::QueueRows;
use lent_selection::peek_lent;
use ready_index::Path;
use refusal::Refusal;
use selection::Selection;
use thread::CpuIndex;
use window_words::{WindowWords, store_progress, window_of};

// A selection with its window; of a refusal nothing is stored.
fn store_answer(
    answer: &mut SelectionWords,
    window: &mut WindowWords,
    peeked: Result<Selection, Refusal>,
    fresh: CpuWindow,
) -> u64
    ensures answer_after { left result (selection_from answer.new)
        ≡ answered (selection_from answer.old) (by_number peeked) }
    ensures window_after { window_of window.new
        ≡ window_left (window_of window.old) fresh (by_number peeked) }
    ensures stays { Stays result answer.old answer.new }
    ensures stays_2 { Stays result window.old window.new }
{
    match peeked {
        Ok(selection) => {
            *answer = words_of_selection(selection);
            store_progress(window, fresh);
            0
        }
        Err(refusal) => refusal.number(),
    }
}

// CpuRunQueue::peek_next, with a path that the caller lends; the row of the running thread counts where `running` says
// that there is one.
#[unsafe(no_mangle)]
pub extern "C" fn board_select(
    q: &mut QueueRows,
    t: &mut [Row],
    path: &mut Path,
    cpu: u8,
    now_ns: u64,
    window: &mut WindowWords,
    running: u64,
    current: &Row,
    answer: &mut SelectionWords,
) -> u64
    ensures selects { Selects q.old t.old cpu now_ns window.old running
        current.now answer.old result q.new t.new window.new
        answer.new }
    ensures stays { Stays result answer.old answer.new }
    ensures stays_2 { Stays result window.old window.new }
    ensures q_unchanged { Early t.old (window_of window.old) (queue_of q.old)
        → q.new ≡ q.old }
    ensures t_unchanged { Early t.old (window_of window.old) (queue_of q.old)
        → t.new ≡ t.old }
    ensures framed { Framed t.old t.new }
    ensures queue_framed { QueueFramed q.old q.new }
{
    // In this order, and with the answer stored first, the compiler holds fewer words over the walk.
    let its_current = current_of(running, *current);
    let its_window = window_of(*window);
    let peeked = peek_lent(q, t, path, CpuIndex(cpu), now_ns, its_window, its_current);
    let its_answer = peeked.answer;
    let fresh = peeked.window;
    store_answer(answer, window, its_answer, fresh)
}
