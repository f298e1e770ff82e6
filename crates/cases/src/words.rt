// Words of the queue, the table, the window and the scratch, read and overwritten. A place that does not exist reads
// as 0 and takes nothing.
use crate::letters::{Place, Use};
use crate::places::{Case, WINDOW, overwritten, record, scratch};
use crate::reading::Numbers;

fn word_at(words: &[u64], k: usize) -> u64 {
    words.get(k).copied().unwrap_or(0)
}

impl Case<'_> {
    pub fn queue_word(&mut self, stores: bool, i: u64, k: u64, word: u64) -> u64 {
        match self.queue.get_mut(i as usize) {
            Some(words) if stores => overwritten(words, k as usize, word),
            Some(words) => word_at(words, k as usize),
            None => 0,
        }
    }

    // The word, as it is after the step. A window's step has no row.
    pub fn word(&mut self, place: Place, how: Use, a: Numbers) -> u64 {
        let (at, k, word) = match place {
            Place::Window => (WINDOW, a[0], a[1]),
            Place::Record => (record(a[0]), a[1], a[2]),
            Place::Scratch => (scratch(a[0]), a[1], a[2]),
        };
        if how == Use::Set {
            return self.store(at, k as usize, word);
        }
        word_at(&self.row(at), k as usize)
    }
}
