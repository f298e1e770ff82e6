// The lift record: a list of runs, three words each, and the part of it that a reading and a width name.
// Document 02, T-01.
#![tactic(auto)]

mod ordering;
mod placing;

ghost use Rattle.std.specs.Prelude.{◌≡◌, ◌<◌};
ghost use Rattle.lift_record.specs.Halving.{halved_place, search_from_left};
ghost use Rattle.lift_record.specs.Record.{runs, found_at, search_left, slid_to, slide_left, with_run};
ghost use Rattle.lift_record.specs.Record.{appended, append_left};

use ordering::{end_before, in_order_since};
use placing::{halved_place, is_place, part, walk_on};
use refusal::{BAD_TABLE, RECORD_ORDER};

// The words of a run: its start, its end, its thread's number. By place and not in a struct: a list is words that C
// lends.
pub const START: usize = 0;

pub const END: usize = 1;

pub const THREAD: usize = 2;

pub const RUN_WORDS: usize = 3;

// A run in a list.
type Run = [u64; RUN_WORDS];

// A part of the list: its first run, and how many it has.
#[derive(Clone, Copy)]
pub struct Place {
    pub first: usize,
    pub count: usize,
}

// Which word of a run a search goes by.
#[derive(Clone, Copy)]
pub enum Edge {
    Start,
    End,
}

// What a search stores: 0 or the number of the refusal, the first run, the count. (Words and numbers, here and below,
// since the C interface hands them on: board_lift, board_lift_from, board_slide, board_append.)
pub const FOUND_WORDS: usize = 3;

pub const FOUND_NUMBER: usize = 0;

pub const FOUND_FIRST: usize = 1;

pub const FOUND_COUNT: usize = 2;

pub type FoundWords = [u64; FOUND_WORDS];

// What a slide stores: the same, then 1 where it searched afresh, else 0.
pub const SLID_WORDS: usize = 4;

pub const SLID_AFRESH: usize = 3;

pub type SlidWords = [u64; SLID_WORDS];

// The part of the list that the reading and the width name.
#[tactic(auto, using(crate::proofs::AnswerLaws::searched))]
pub fn search<'a>(list: &'a [u64], now_ns: u64, width_ns: u64, found: &mut FoundWords) -> &'a [u64]
    ensures { found_at result.now found.new ≡ search_left list.now now_ns width_ns }
{
    search_from(list, 0, now_ns, width_ns, found)
}

// The same in a list whose first `ordered` runs are known to be in order, as `append` keeps them: the whole pass over
// a long list takes thousands of times what the search itself does.
#[tactic(auto, using(crate::specs::AnswerLaws::searches), unfolding(crate::specs::Halving::search_from_left))]
pub fn search_from<'a>(
    list: &'a [u64],
    ordered: u64,
    now_ns: u64,
    width_ns: u64,
    found: &mut FoundWords,
) -> &'a [u64]
    ensures { found_at result.now found.new ≡ search_from_left list.now ordered now_ns
        width_ns }
{
    if !in_order_since(list, ordered) {
        *found = [RECORD_ORDER, 0, 0];
        return &list[..0];
    }
    let place = halved_place(list, now_ns, width_ns);
    *found = [0, place.first as u64, place.count as u64];
    part(list, place)
}

// A fresh search, said to be one.
#[tactic(auto, using(crate::specs::AnswerLaws::slid_at))]
fn afresh<'a>(list: &'a [u64], now_ns: u64, width_ns: u64, slid: &mut SlidWords) -> &'a [u64]
    ensures { found_at result.now slid.new ≡ slid_to list.now
        (halved_place list.now now_ns width_ns) 1 }
{
    let place = halved_place(list, now_ns, width_ns);
    *slid = [0, place.first as u64, place.count as u64, 1];
    part(list, place)
}

// The part that a new reading names, from the place of an earlier reading with the same width.
#[tactic(auto, using(crate::proofs::AnswerLaws::slides, crate::specs::AnswerLaws::place_inside))]
pub fn slide<'a>(
    list: &'a [u64],
    width_ns: u64,
    earlier_ns: u64,
    place: Place,
    now_ns: u64,
    slid: &mut SlidWords,
) -> &'a [u64]
    ensures { found_at result.now slid.new ≡ slide_left list.now earlier_ns place now_ns
        width_ns }
{
    if !in_order_since(list, 0) {
        *slid = [RECORD_ORDER, 0, 0, 0];
        return &list[..0];
    }
    if now_ns < earlier_ns || !is_place(list, place, earlier_ns, width_ns) {
        return afresh(list, now_ns, width_ns, slid);
    }
    let next = walk_on(list, place, now_ns, width_ns);
    *slid = [0, next.first as u64, next.count as u64, 0];
    part(list, next)
}

// The words of run k. (One by one: `copy_from_slice` asks whether the two overlap, and what it becomes no 32-bit target
// takes.)
fn put_run(list: &mut [u64], k: usize, start: u64, end: u64, thread: u64)
    requires { k < runs list.old }
    ensures { list.new ≡ with_run list.old k start end thread }
{
    let at = RUN_WORDS * k;
    list[at + START] = start;
    list[at + END] = end;
    list[at + THREAD] = thread;
}

// A run behind the first `runs` of the list: 0, or the number of the refusal.
#[tactic(auto, using(crate::specs::AnswerLaws::appends))]
pub fn append(list: &mut [u64], runs: u64, start: u64, end: u64, thread: u64) -> u64
    ensures { appended result list.new ≡ append_left list.old runs start end thread }
{
    let k = runs as usize;
    if list.len() / RUN_WORDS <= k {
        return BAD_TABLE;
    }
    if end < start || start < end_before(list, k) {
        return RECORD_ORDER;
    }
    put_run(list, k, start, end, thread);
    0
}
