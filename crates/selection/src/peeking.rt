// The heads of the trees, what they ask for, and the least key among them, with the window as it is left. After
// `CpuRunQueue::peek_next`.
ghost use Rattle.std.specs.Prelude.{◌≤◌, ◌≡◌, length, take};
ghost use Rattle.rows.specs.Table.{table, out};
ghost use Rattle.rows.specs.Frame.{Framed};
ghost use Rattle.selection.specs.Steps as steps;
ghost use Rattle.selection.specs.HeadNumbers as numbers;
ghost use Rattle.renewal.specs.RootRows.{roots_of};
ghost use Rattle.selection.specs.Answers.{looked_of};

use crate::choosing::{gather_heads, least_of};
use crate::{Selection, WindowPeek};
use arbitration::{Candidate, CpuWindow};
use codec::Row;
use demands::{Gathered, of_current};
use lent_queue::QueueRow;
use queue::TREES;
use thread::CpuIndex;

// The least key of the heads that were found. Where there is none the window is not refreshed.
fn choose_head(
    t: &[Row],
    heads: &[u64],
    count: usize,
    reading: u64,
    found: Gathered,
    window: CpuWindow,
) -> WindowPeek
    requires { count ≤ length heads.now }
    ensures { looked_of result ≡ numbers.chosen_number (table t.now)
        (take count heads.now) reading window found }
{
    let demand = found.demand;
    let fair_min_pass = found.fair_min_pass;
    if count == 0 {
        return WindowPeek {
            answer: Ok(Selection {
                ready: None,
                demand,
                fair_min_pass,
            }),
            window,
        };
    }
    let fresh = window.refreshed(reading);
    let ready = least_of(t, heads, count, reading, demand, fresh);
    WindowPeek {
        answer: Ok(Selection {
            ready,
            demand,
            fair_min_pass,
        }),
        window: fresh,
    }
}

// The heads of the trees under twelve roots, what they ask for, and the least key among them.
pub fn peek_heads(
    t: &mut [Row],
    roots: &[QueueRow],
    cpu: CpuIndex,
    reading: u64,
    window: CpuWindow,
    current: Option<Candidate>,
) -> WindowPeek
    ensures t_after { out (looked_of result) (table t.new) ≡ steps.looked_at (table t.old)
        (roots_of roots.now) cpu reading window current }
    ensures framed { Framed t.old t.new }
{
    let asked = of_current(current);
    let mut heads: [u64; TREES] = [0; TREES];
    let gathering = gather_heads(t, roots, &mut heads, cpu, reading, asked);
    let count = gathering.count;
    let answer = gathering.answer;
    match answer {
        Err(refusal) => WindowPeek {
            answer: Err(refusal),
            window,
        },
        Ok(found) => { choose_head(t, &heads, count, reading, found, window) }
    }
}
