// The 256 priority lists of a queue, stored to its rows and read from them.
ghost use Rattle.std.specs.Prelude.{◌≡◌, length};
ghost use Rattle.lent_queue.specs.LentQueue.{priorities, queue_of};
ghost use Rattle.run_queue.specs.Value.{lists_of, with_lists};

use lent_queue::{FAIR_ROW, QueueRow, QueueRows, list_from, words_of_list};
use queue::PRIORITIES;
use std::array;
use thread::ThreadQueue;

// (By an index, here and in tree_roots: what a loop over a `zip` with `iter_mut` leaves in a slice, std's contracts do
// not say, and no proof closes.)
#[tactic(auto, using(crate::specs::ValueLaws::copying))]
fn copy_lists(rows: &mut [QueueRow], lists: [ThreadQueue; PRIORITIES])
    requires { length rows.old ≡ priorities }
    ensures { lists_of rows.new ≡ lists }
{
    for (k, list) in lists.iter().enumerate() {
        rows[k] = words_of_list(*list);
    }
}

#[tactic(auto, using(crate::specs::ValueLaws::lists_put))]
pub(crate) fn store_lists(q: &mut QueueRows, lists: [ThreadQueue; PRIORITIES])
    ensures { queue_of q.new ≡ with_lists (queue_of q.old) lists }
{
    copy_lists(&mut q[..FAIR_ROW], lists);
}

fn copied_lists(rows: &[QueueRow]) -> [ThreadQueue; PRIORITIES]
    requires { length rows.now ≡ priorities }
    ensures { result ≡ lists_of rows.now }
{
    array::from_fn(|k| list_from(rows[k]))
}

#[tactic(auto, using(crate::specs::ValueLaws::lists_read))]
pub(crate) fn lists_of(q: &QueueRows) -> [ThreadQueue; PRIORITIES]
    ensures { result ≡ (queue_of q.now).realtime }
{
    copied_lists(&q[..FAIR_ROW])
}
