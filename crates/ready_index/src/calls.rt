// The calls on a tree by itself, after `Tree` of scheduler/algorithms/ready_index.rs, with document 01's refusals:
// BadTable, then NoThread, then Damaged where the source hands an error back.
ghost use Rattle.std.specs.Prelude.{◌≡◌};
ghost use Rattle.refusal.specs.Answer.{damaged, by_number, or_damaged};
ghost use Rattle.rows.specs.Table.{table, out};
ghost use Rattle.rows.specs.Unmoved.{UnmovedBut};
ghost use Rattle.rows.specs.Frame.{Framed};
ghost use Rattle.ready_index.specs.Calls.{first_call, contains_call, insert_call, remove_call};

use crate::{Path, contains_under, first_under, insert_under, remove_under};
use codec::Row;
use refusal::{Refusal, told};
use rows::{MAX_RECORDS, asked};

// The tree's least thread. After `Tree::first`.
#[tactic(auto,
// The laws, and the definitions that are opened.
using(rows::specs::AskedLaws::table_refused, rows::specs::AskedLaws::table_granted, crate::specs::CallsLaws::handed),
// And what those rest on.
unfolding(crate::specs::Calls::first_call))]
pub fn first(t: &[Row], root: Option<u64>) -> Result<Option<u64>, Refusal>
    ensures { by_number result ≡ first_call (table t.now) root }
{
    if MAX_RECORDS < t.len() {
        return Err(Refusal::BadTable);
    }
    told(first_under(t, root))
}

// Whether the tree holds a thread. After `Tree::contains`.
#[tactic(auto,
// The laws, and the definitions that are opened.
using(rows::specs::AskedLaws::granted, crate::specs::CallsLaws::handed),
// And what those rest on.
unfolding(crate::specs::Calls::contains_call))]
pub fn contains(t: &[Row], root: Option<u64>, id: u64) -> Result<bool, Refusal>
    ensures { by_number result ≡ contains_call (table t.now) root id }
{
    asked(t, id)?;
    told(contains_under(t, root, id))
}

// A thread put into the tree, by a path that is lent for the time of the call. After `Tree::insert`.
#[tactic(auto,
// The laws, and the definitions that are opened.
using(rows::specs::AskedLaws::granted, crate::specs::CallsLaws::handed_out,
// And what those rest on.
crate::specs::CallsLaws::damaged_stored, rows::specs::Unmoved::unmoving, rows::specs::Frame::framing),
// And so on.
unfolding(crate::specs::Calls::insert_call))]
pub fn insert(
    t: &mut [Row],
    path: &mut Path,
    root: Option<u64>,
    id: u64,
) -> Result<Option<u64>, Refusal>
    ensures t_after { out (by_number result) (table t.new) ≡ insert_call (table t.old) root id }
    ensures unmoved_but { UnmovedBut damaged (by_number result) t.old t.new }
    ensures framed { Framed t.old t.new }
{
    asked(t, id)?;
    told(insert_under(t, path, root, id))
}

// A thread taken out of the tree, by a path that is lent for the time of the call. After `Tree::remove`.
#[tactic(auto,
// The laws, and the definitions that are opened.
using(rows::specs::AskedLaws::granted, crate::specs::CallsLaws::handed_out,
// And what those rest on.
crate::specs::CallsLaws::damaged_stored, rows::specs::Unmoved::unmoving, rows::specs::Frame::framing),
// And so on.
unfolding(crate::specs::Calls::remove_call))]
pub fn remove(
    t: &mut [Row],
    path: &mut Path,
    root: Option<u64>,
    id: u64,
) -> Result<Option<u64>, Refusal>
    ensures t_after { out (by_number result) (table t.new) ≡ remove_call (table t.old) root id }
    ensures unmoved_but { UnmovedBut damaged (by_number result) t.old t.new }
    ensures framed { Framed t.old t.new }
{
    asked(t, id)?;
    told(remove_under(t, path, root, id))
}
