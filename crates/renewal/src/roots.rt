// Roots as rows of five words, of which the first two count: the rows of a lent queue.
ghost use Rattle.std.specs.Prelude.{◌≡◌, set};
ghost use Rattle.lent_queue.specs.Frame.{RootsFramed};
ghost use Rattle.renewal.specs.Renewal.{root_at};
ghost use Rattle.renewal.specs.RootRows.{roots_of};

use codec::{link_from, words_of_link};
use lent_queue::{HEAD, HEAD_TAG, QueueRow};

// A root beyond the rows is none.
pub fn root_at(rows: &[QueueRow], k: usize) -> Option<u64>
    ensures { result ≡ root_at (roots_of rows.now) k }
{
    if k < rows.len() {
        let row = rows[k];
        return link_from(row[HEAD_TAG], row[HEAD]);
    }
    None
}

pub fn set_root(rows: &mut [QueueRow], index: usize, root: Option<u64>)
    ensures rows_after { roots_of rows.new ≡ set (roots_of rows.old) index (record { root = root }) }
    ensures roots_framed { RootsFramed rows.old rows.new }
{
    if index < rows.len() {
        let row = rows[index];
        let words = words_of_link(root);
        rows[index] = [words[0], words[1], row[2], row[3], row[4]];
    }
}
