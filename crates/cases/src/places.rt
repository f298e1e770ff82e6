// A case: its queue, and one array of rows, in which stand the table, then the scratch, then the number of records. A
// place that does not exist reads as zeros and takes nothing.
use codec::Row;
use lent_queue::QueueRows;
use policy_words::ROW_WORDS;

// The table's rows are 0 to 4,096, one more than a call takes.
const MOST: usize = 4097;

pub const CURRENT: usize = 4097;

pub const TURNS: usize = 4098;

pub const DEMAND: usize = 4099;

pub const KEY: usize = 4100;

pub const READY: usize = 4101;

pub const DUE: usize = 4102;

pub const SELECTION: usize = 4103;

pub const WINDOW: usize = 4104;

// The number of records is the first word here.
const COUNT: usize = 4105;

// How many rows there are; none stands there.
pub const ROWS: usize = 4106;

#[derive(Drop)]
pub struct Case<'a> {
    pub queue: &'a mut QueueRows,
    pub rows: &'a mut [Row],
}

// The first words of a row.
pub fn first_words<const N: usize>(row: &Row) -> [u64; N] {
    let mut words = [0; N];
    for (word, &given) in words.iter_mut().zip(row) {
        *word = given;
    }
    words
}

// How many records the rows have.
pub fn count(rows: &[Row]) -> usize {
    match rows.get(COUNT) {
        Some(row) => row[0].min(MOST as u64) as usize,
        None => 0,
    }
}

// The records of a case.
pub fn records(rows: &mut [Row]) -> &mut [Row] {
    let n = count(rows).min(rows.len());
    &mut rows[..n]
}

impl Case<'_> {
    pub fn row(&self, at: usize) -> Row {
        match self.rows.get(at) {
            Some(row) => *row,
            None => [0; ROW_WORDS],
        }
    }

    // The first words of a row.
    pub fn words<const N: usize>(&self, at: usize) -> [u64; N] {
        first_words(&self.row(at))
    }

    // What then stands there.
    pub fn store(&mut self, at: usize, k: usize, word: u64) -> u64 {
        match self.rows.get_mut(at) {
            Some(row) => overwritten(row, k, word),
            None => 0,
        }
    }

    // These words become those of a row from a place on.
    pub fn put_from(&mut self, at: usize, k: usize, words: &[u64]) {
        if let Some(row) = self.rows.get_mut(at) {
            for (place, &word) in row.iter_mut().skip(k).zip(words) {
                *place = word;
            }
        }
    }

    pub fn put(&mut self, at: usize, words: &[u64]) {
        self.put_from(at, 0, words);
    }

    pub fn set_count(&mut self, n: u64) {
        self.store(COUNT, 0, n);
    }
}

// What then stands at a place of some words.
pub fn overwritten(words: &mut [u64], k: usize, word: u64) -> u64 {
    match words.get_mut(k) {
        Some(place) => {
            *place = word;
            word
        }
        None => 0,
    }
}

pub fn record(i: u64) -> usize {
    let at = i as usize;
    if at < MOST { at } else { ROWS }
}

pub fn scratch(i: u64) -> usize {
    if i < 8 { CURRENT + i as usize } else { ROWS }
}
