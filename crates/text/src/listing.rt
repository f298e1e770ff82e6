// The words of a text, and lists of names that stand apart by a byte.
ghost use Rattle.std.specs.Prelude.{◌≡◌, ◌+◌, ◌-◌, ◌≤◌, [], drop, get_or, length};
ghost use Rattle.text.specs.Lists.{part, names_of, place_in};
ghost use Rattle.text.specs.Reading.{before, run};

use crate::reading::{end_of, start_of};

// Where a piece of a text stands.
#[derive(Clone, Copy)]
pub struct Span {
    pub start: usize,
    pub end: usize,
}

// The next word from a place on: it starts behind all that is `between`, and ends at the next `between` or where the
// text does. It is empty where there is none. (The bounds follow; they are said for callers.)
pub fn word_after(text: &[u8], from: usize, between: u8) -> Span
    ensures start_value { result.start ≡ from + run between (drop from text.now) }
    ensures end_value { result.end ≡ result.start + before between (drop result.start text.now) }
    ensures from_le_start { from ≤ result.start }
    ensures start_le_end { result.start ≤ result.end }
    ensures end_bound { result.end ≤ from + (length text.now - from) }
{
    let start = start_of(text, from, between);
    Span {
        start,
        end: end_of(text, start, between),
    }
}

// How many names of a list stand before the first that is the word; all where none is.
pub fn place_of(list: &[u8], between: u8, word: &[u8]) -> usize
    ensures { result ≡ place_in word.now (names_of between list.now) }
{
    let others = list
        .split(|byte| *byte == between)
        .take_while(|name| *name != word);
    others.count()
}

// Where the n-th name of a list stands, the first being 0; beyond the last, an empty piece at the end.
pub fn nth(list: &[u8], between: u8, n: usize) -> Span
    ensures list_value { part result.start result.end list.now ≡ get_or (names_of between list.now) n [] }
    ensures start_value { length (names_of between list.now) ≤ n → result.start ≡ length list.now }
    ensures start_le_end { result.start ≤ result.end }
    ensures end_in_bounds { result.end ≤ length list.now }
{
    let mut start: usize = 0;
    let mut end = end_of(list, 0, between);
    for _ in 0..n {
        if list.len() <= end {
            return Span { start: end, end };
        }
        start = end + 1;
        end = end_of(list, start, between);
    }
    Span { start, end }
}
