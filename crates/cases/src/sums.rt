// One number for all words of a state: a sum in which each word weighs by its place, modulo the prime 2^31 - 1.
use crate::places::{CURRENT, Case, WINDOW, count};
use codec::Row;

const PRIME: u64 = 2_147_483_647;

const WEIGHT: u64 = 1_000_003;

fn with_word(sum: u64, word: u64) -> u64 {
    (sum % PRIME * WEIGHT + word % PRIME) % PRIME
}

fn with_words(sum: u64, words: &[u64]) -> u64 {
    words.iter().fold(sum, |sum, &word| with_word(sum, word))
}

fn with_rows(sum: u64, rows: &[Row]) -> u64 {
    rows.iter().fold(sum, |sum, row| with_words(sum, row))
}

impl Case<'_> {
    // The records that the case has, the scratch with the window, then the queue.
    pub fn sum(&self) -> u64 {
        let n = count(self.rows).min(self.rows.len());
        let records = with_rows(0, &self.rows[..n]);
        let rows = match self.rows.get(CURRENT..=WINDOW) {
            Some(scratch) => with_rows(records, scratch),
            None => records,
        };
        self.queue
            .iter()
            .fold(rows, |sum, words| with_words(sum, words))
    }
}
