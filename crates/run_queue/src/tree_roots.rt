// The twelve roots of a queue, an array of small structs, stored to its rows and read from them.
ghost use Rattle.std.specs.Prelude.{◌≡◌, length};
ghost use Rattle.lent_queue.specs.LentQueue.{tree_count, queue_of};
ghost use Rattle.renewal.specs.RootRows.{roots_of};
ghost use Rattle.lent_selection.specs.LentParts.{with_indices};

use lent_queue::{MARKS_ROW, QueueRow, QueueRows, ROOT_ROWS};
use queue::{Root, TREES};
use renewal::{root_at, set_root};
use std::array;

#[tactic(auto, using(crate::specs::ValueLaws::copying))]
fn copy_roots(rows: &mut [QueueRow], indices: [Root; TREES])
    requires { length rows.old ≡ tree_count }
    ensures { roots_of rows.new ≡ indices }
{
    for (k, index) in indices.iter().enumerate() {
        set_root(rows, k, index.root);
    }
}

#[tactic(auto, using(crate::specs::ValueLaws::roots_put))]
pub(crate) fn store_roots(q: &mut QueueRows, indices: [Root; TREES])
    ensures { queue_of q.new ≡ with_indices (queue_of q.old) indices }
{
    copy_roots(&mut q[ROOT_ROWS..MARKS_ROW], indices);
}

fn copied_roots(rows: &[QueueRow]) -> [Root; TREES]
    requires { length rows.now ≡ tree_count }
    ensures { result ≡ roots_of rows.now }
{
    array::from_fn(|k| Root {
        root: root_at(rows, k),
    })
}

#[tactic(auto, using(crate::specs::ValueLaws::roots_read))]
pub(crate) fn roots_of(q: &QueueRows) -> [Root; TREES]
    ensures { result ≡ (queue_of q.now).indices }
{
    copied_roots(&q[ROOT_ROWS..MARKS_ROW])
}
