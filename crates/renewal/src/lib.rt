// The change of period: every thread of the exhausted trees is refreshed and filed as ready. After the first loop of
// `CpuRunQueue::peek_next`.
#![tactic(auto)]

mod roots;

ghost use Rattle.std.specs.Prelude.{◌<◌, ◌≡◌, length, get_or, []};
ghost use Rattle.refusal.specs.Answer.{by_number, or_damaged};
ghost use Rattle.codec.specs.Codec.{decoded};
ghost use Rattle.rows.specs.Table.{table, out};
ghost use Rattle.rows.specs.Frame.{Framed};
ghost use Rattle.lent_queue.specs.Frame.{RootsFramed};
ghost use Rattle.renewal.specs.Renewal as renewal;
ghost use Rattle.renewal.specs.Steps as steps;
ghost use Rattle.renewal.specs.Leaves.{leaves};
ghost use Rattle.renewal.specs.RootRows.{roots_of};
ghost use Rattle.renewal.specs.Answers.{move_answer, next_answer};

use algorithms::PolicyRuntime;
use codec::{BUDGET_TAG, POLICY_TAG, RUNTIME_TAG, Row, parameters_of, runtime_of};
use lent_queue::QueueRow;
use queue::{Root, is_bad_row};
use ready_index::{Path, first_under, insert_under, remove_under};
use refusal::{Damaged, Refusal};
pub use roots::{root_at, set_root};
use rows::set_runtime;

// The first tree of a kind, as a place in the array of roots.
const READY: usize = queue::BUDGET_READY as usize;

const EXHAUSTED: usize = queue::BUDGET_EXHAUSTED as usize;

// The two budget trees of a role, and how many moves a change of period has left.
#[derive(Clone, Copy)]
pub struct BudgetTrees {
    pub exhausted: Option<u64>,
    pub ready: Option<u64>,
    pub moves: u64,
}

// The trees after a move, or as they are left where it is refused.
#[derive(Clone, Copy)]
enum Moved {
    Done(BudgetTrees),
    Refused(Refusal, BudgetTrees),
}

// What the next move of a role found.
#[derive(Clone, Copy)]
enum NextMove {
    Emptied,
    Moved(BudgetTrees),
    Refused(Refusal, BudgetTrees),
}

// The head of a tree, or none of an empty tree.
#[tactic(auto, unfolding(crate::specs::Renewal::head_of))]
pub fn head_of(t: &[Row], root: Option<u64>) -> Result<Option<u64>, Damaged>
    ensures { or_damaged result ≡ renewal.head_of (table t.now) root }
{
    first_under(t, root)
}

fn store_refreshed(
    t: &mut [Row],
    id: u64,
    refreshed: Result<PolicyRuntime, Refusal>,
) -> Result<(), Refusal>
    ensures t_after { out (by_number result) (table t.new) ≡ steps.refreshed_stored (table t.old) id
        (by_number refreshed) }
    ensures framed { Framed t.old t.new }
{
    match refreshed {
        Err(_) => Err(Refusal::BadRecord),
        Ok(fresh) => {
            let _ = set_runtime(t, id, fresh);
            Ok(())
        }
    }
}

// A record's budget refreshed to the reading and stored: only the words of its runtime are read again.
fn refresh_budget(t: &mut [Row], id: u64, reading: u64) -> Result<(), Refusal>
    ensures t_after { out (by_number result) (table t.new)
        ≡ steps.budget_refreshed (table t.old) id reading }
    ensures framed { Framed t.old t.new }
{
    let k = id as usize;
    if k < t.len() {
        let row = t[k];
        let parameters = parameters_of(row);
        let runtime = runtime_of(row);
        let refreshed = runtime.epoch_refresh(reading, parameters);
        return store_refreshed(t, id, refreshed);
    }
    Err(Refusal::Damaged)
}

// A record of this row: judged, then refreshed to the reading where it has a budget. After `refresh_runtime`.
pub fn refresh_row(t: &mut [Row], id: u64, row: Row, reading: u64) -> Result<(), Refusal>
    ensures t_after { out (by_number result) (table t.new) ≡ steps.row_refreshed (table t.old) id
        (decoded row) reading }
    ensures framed { Framed t.old t.new }
{
    if is_bad_row(row) {
        return Err(Refusal::BadRecord);
    }
    if row[BUDGET_TAG] == 0 {
        return Ok(());
    }
    refresh_budget(t, id, reading)
}

// The same where the record is a budget's, as in a move: where policy and runtime have the same tag, three words
// decide, and a budget is judged by its refresh.
fn refresh_at(t: &mut [Row], id: u64, reading: u64) -> Result<(), Refusal>
    requires { id < length t.old }
    ensures t_after { out (by_number result) (table t.new) ≡ steps.row_refreshed (table t.old) id
        (decoded (get_or t.old id [])) reading }
    ensures framed { Framed t.old t.new }
{
    let k = id as usize;
    let tag = t[k][RUNTIME_TAG];
    if tag == t[k][POLICY_TAG] {
        if t[k][BUDGET_TAG] == 0 {
            if tag == 2 {
                return Err(Refusal::BadRecord);
            }
            return Ok(());
        }
        if tag == 2 {
            return refresh_budget(t, id, reading);
        }
        return Err(Refusal::BadRecord);
    }
    let row = t[k];
    if is_bad_row(row) {
        return Err(Refusal::BadRecord);
    }
    Ok(())
}

fn refresh_runtime(t: &mut [Row], id: u64, reading: u64) -> Result<(), Refusal>
    ensures t_after { out (by_number result) (table t.new)
        ≡ steps.runtime_refreshed (table t.old) id reading }
    ensures framed { Framed t.old t.new }
{
    let k = id as usize;
    if k < t.len() {
        return refresh_at(t, id, reading);
    }
    Err(Refusal::Damaged)
}

// A thread that is out of the exhausted tree is refreshed, and goes into the ready one.
fn refile(t: &mut [Row], path: &mut Path, trees: BudgetTrees, id: u64, reading: u64) -> Moved
    ensures t_after { out (move_answer result) (table t.new)
        ≡ steps.refiled (table t.old) trees id reading }
    ensures framed { Framed t.old t.new }
{
    let exhausted = trees.exhausted;
    let old = trees.ready;
    let refreshed = refresh_runtime(t, id, reading);
    match refreshed {
        Err(refusal) => Moved::Refused(refusal, trees),
        Ok(()) => {
            let Ok(ready) = insert_under(t, path, old, id) else {
                return Moved::Refused(Refusal::Halted, trees);
            };
            Moved::Done(BudgetTrees {
                exhausted,
                ready,
                moves: trees.moves,
            })
        }
    }
}

// One thread out of the exhausted tree, refreshed, and into the ready one.
fn move_one(t: &mut [Row], path: &mut Path, trees: BudgetTrees, id: u64, reading: u64) -> Moved
    ensures t_after { out (move_answer result) (table t.new)
        ≡ renewal.move_one (table t.old) trees id reading }
    ensures framed { Framed t.old t.new }
{
    let old = trees.exhausted;
    let ready = trees.ready;
    let Ok(exhausted) = remove_under(t, path, old, id) else {
        return Moved::Refused(Refusal::Halted, trees);
    };
    refile(
        t,
        path,
        BudgetTrees {
            exhausted,
            ready,
            moves: trees.moves,
        },
        id,
        reading,
    )
}

// The head of the exhausted tree moved, with so many moves left, of which there is one.
fn next_move(
    t: &mut [Row],
    path: &mut Path,
    exhausted: Option<u64>,
    ready: Option<u64>,
    moves: u64,
    reading: u64,
) -> NextMove
    requires { 0 < moves }
    ensures t_after { out (next_answer result) (table t.new)
        ≡ steps.next_move moves (table t.old) exhausted ready reading }
    ensures framed { Framed t.old t.new }
{
    let Ok(head) = head_of(t, exhausted) else {
        return NextMove::Refused(
            Refusal::Damaged,
            BudgetTrees {
                exhausted,
                ready,
                moves,
            },
        );
    };
    let Some(id) = head else {
        return NextMove::Emptied;
    };
    let left = moves - 1;
    let trees = BudgetTrees {
        exhausted,
        ready,
        moves: left,
    };
    match move_one(t, path, trees, id, reading) {
        Moved::Done(after) => NextMove::Moved(after),
        Moved::Refused(refusal, after) => NextMove::Refused(refusal, after),
    }
}

// With no move left, the exhausted tree must be empty.
fn last_move(t: &[Row], exhausted: Option<u64>, ready: Option<u64>) -> Moved
    ensures { out (move_answer result) (table t.now)
        ≡ steps.last_move (table t.now) exhausted ready }
{
    let trees = BudgetTrees {
        exhausted,
        ready,
        moves: 0,
    };
    let Ok(head) = head_of(t, exhausted) else {
        return Moved::Refused(Refusal::Damaged, trees);
    };
    match head {
        None => Moved::Done(trees),
        Some(_) => Moved::Refused(Refusal::Damaged, trees),
    }
}

// Until the exhausted tree is empty, in so many moves at most.
fn move_all(
    t: &mut [Row],
    path: &mut Path,
    old_exhausted: Option<u64>,
    old_ready: Option<u64>,
    moves: u64,
    reading: u64,
) -> Moved
    ensures t_after { out (move_answer result) (table t.new)
        ≡ renewal.move_all moves (table t.old) old_exhausted old_ready reading }
    ensures framed { Framed t.old t.new }
{
    let mut exhausted = old_exhausted;
    let mut ready = old_ready;
    let mut left = moves;
    while 0 < left {
        match next_move(t, path, exhausted, ready, left, reading) {
            NextMove::Emptied => {
                return Moved::Done(BudgetTrees {
                    exhausted,
                    ready,
                    moves: left,
                });
            }
            NextMove::Moved(trees) => {
                exhausted = trees.exhausted;
                ready = trees.ready;
                left -= 1;
            }
            NextMove::Refused(refusal, trees) => {
                return Moved::Refused(refusal, trees);
            }
        }
    }
    last_move(t, exhausted, ready)
}

// The roots of a role's budget trees stored back.
fn store_trees(roots: &mut [QueueRow], role: usize, trees: BudgetTrees)
    requires { role < 3 }
    ensures roots_after { roots_of roots.new ≡ renewal.with_trees (roots_of roots.old) role trees }
    ensures roots_framed { RootsFramed roots.old roots.new }
{
    let exhausted = trees.exhausted;
    let ready = trees.ready;
    set_root(roots, EXHAUSTED + role, exhausted);
    set_root(roots, READY + role, ready);
}

// The trees of one role, in so many moves at most. An empty exhausted tree is passed over.
fn renew_role(
    t: &mut [Row],
    path: &mut Path,
    roots: &mut [QueueRow],
    role: usize,
    moves: u64,
    reading: u64,
) -> Result<u64, Refusal>
    requires { role < 3 }
    ensures t_after { out (leaves (by_number result) (roots_of roots.new)) (table t.new)
        ≡ steps.role_renewed role moves (table t.old) (roots_of roots.old) reading }
    ensures framed { Framed t.old t.new }
    ensures roots_framed { RootsFramed roots.old roots.new }
{
    let exhausted = root_at(roots, EXHAUSTED + role);
    if exhausted.is_none() {
        return Ok(moves);
    }
    let ready = root_at(roots, READY + role);
    match move_all(t, path, exhausted, ready, moves, reading) {
        Moved::Done(trees) => {
            store_trees(roots, role, trees);
            Ok(trees.moves)
        }
        Moved::Refused(refusal, trees) => {
            store_trees(roots, role, trees);
            Err(refusal)
        }
    }
}

// The three roles in turn, in as many moves as there are records for all of them together.
pub fn renew_roles(
    t: &mut [Row],
    path: &mut Path,
    roots: &mut [QueueRow],
    reading: u64,
) -> Result<(), Refusal>
    ensures t_after { out (leaves (by_number result) (roots_of roots.new)) (table t.new)
        ≡ renewal.renew_roles 3 (length (table t.old)) (table t.old)
        (roots_of roots.old) reading }
    ensures framed { Framed t.old t.new }
    ensures roots_framed { RootsFramed roots.old roots.new }
{
    let mut moves = t.len() as u64;
    let mut left: usize = 3;
    while 0 < left {
        let role = 3 - left;
        match renew_role(t, path, roots, role, moves, reading) {
            Ok(rest) => {
                moves = rest;
                left -= 1;
            }
            Err(refusal) => {
                return Err(refusal);
            }
        }
    }
    Ok(())
}

// Whether the queue's epoch is this one.
#[tactic(auto,
// The definitions that are opened.
unfolding(crate::specs::Renewal::is_epoch, refusal::specs::Cases::if_equal, refusal::specs::Cases::choose,
// And what those rest on.
thread::specs::Membership::on_link))]
pub fn is_epoch(last: Option<u64>, epoch: u64) -> bool
    ensures { result ≡ renewal.is_epoch last epoch }
{
    last == Some(epoch)
}
