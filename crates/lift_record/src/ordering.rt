// Whether runs are in order, and the end of the run before one.
ghost use Rattle.std.specs.Prelude.{◌≡◌, ◌≤◌};
ghost use Rattle.lift_record.specs.Halving.{in_order_since};
ghost use Rattle.lift_record.specs.OrderLaws.{follows, runs_in_order};
ghost use Rattle.lift_record.specs.Record.{end_before, runs};

use crate::{END, RUN_WORDS, Run, START};

// The end of the run before run k, 0 before the first.
#[tactic(auto, using(crate::specs::OrderLaws::ordering))]
pub(crate) fn end_before(list: &[u64], k: usize) -> u64
    requires { k ≤ runs list.now }
    ensures { result ≡ end_before 0 list.now k }
{
    if k == 0 {
        return 0;
    }
    let (runs, _) = list.as_chunks::<RUN_WORDS>();
    runs[k - 1][END]
}

// Whether a run stands behind a time: it starts there or later, and ends at its start or later.
#[tactic(auto, using(refusal::specs::Cases::cases), unfolding(crate::specs::OrderLaws::follows))]
fn follows(run: &Run, last: u64) -> bool
    ensures { result ≡ follows run.now 0 last }
{
    last <= run[START] && run[START] <= run[END]
}

// Whether these runs are in order behind a time.
#[tactic(auto, using(crate::specs::OrderLaws::passing))]
fn rest_in_order(runs: &[Run], mut last: u64) -> bool
    ensures { result ≡ runs_in_order last runs.now }
{
    for run in runs {
        if !follows(run, last) {
            return false;
        }
        last = run[END];
    }
    true
}

// What `rest_in_order` judges, four runs at a time, so that counting costs each of them little.
#[tactic(auto, using(crate::specs::OrderLaws::passing))]
fn fours_in_order(runs: &[Run], mut last: u64) -> bool
    ensures { result ≡ runs_in_order last runs.now }
{
    let (fours, rest) = runs.as_chunks::<4>();
    for four in fours {
        if !rest_in_order(four, last) {
            return false;
        }
        last = four[3][END];
    }
    rest_in_order(rest, last)
}

// Whether the runs from run `ordered` on are in order, behind the end of the one before; a word count that is not
// whole runs is not.
#[tactic(auto, using(crate::specs::OrderLaws::out_of_order_since))]
pub(crate) fn in_order_since(list: &[u64], ordered: u64) -> bool
    ensures { result ≡ in_order_since list.now ordered }
{
    let (runs, left) = list.as_chunks::<RUN_WORDS>();
    let k = ordered.min(runs.len() as u64) as usize;
    fours_in_order(&runs[k..], end_before(list, k)) && left.is_empty()
}
