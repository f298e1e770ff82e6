// Calls on a lift record: the part that a reading and a width name, by its place in the caller's list, and a run more.
// A refusal stores zeros as the place; a refused run stores nothing.
ghost use Rattle.std.specs.Prelude.{◌≡◌};
ghost use Rattle.lift_record.specs.Record.{place, search_left, slide_left, appended, append_left};
ghost use Rattle.lift_record.specs.Halving.{search_from_left};
ghost use Rattle.board.specs.Board.{left};
ghost use Rattle.board.specs.Recording.{place_left, slid_left};

use lift_record::{
    FOUND_COUNT, FOUND_FIRST, FOUND_NUMBER, FOUND_WORDS, Place, SLID_AFRESH, SLID_WORDS, append,
    search, search_from, slide,
};

// The first run of a part, and how many it has.
pub type PlaceWords = [u64; 2];

// The same, then 1 where the slide searched afresh, else 0.
pub type SlideWords = [u64; 3];

#[unsafe(no_mangle)]
pub extern "C" fn board_lift(
    list: &[u64],
    now_ns: u64,
    width_ns: u64,
    place: &mut PlaceWords,
) -> u64
    ensures { left result place.new ≡ place_left (search_left list.now now_ns width_ns) }
{
    let mut found = [0; FOUND_WORDS];
    search(list, now_ns, width_ns, &mut found);
    *place = [found[FOUND_FIRST], found[FOUND_COUNT]];
    found[FOUND_NUMBER]
}

#[unsafe(no_mangle)]
pub extern "C" fn board_lift_from(
    list: &[u64],
    ordered: u64,
    now_ns: u64,
    width_ns: u64,
    place: &mut PlaceWords,
) -> u64
    ensures { left result place.new
        ≡ place_left (search_from_left list.now ordered now_ns width_ns) }
{
    let mut found = [0; FOUND_WORDS];
    search_from(list, ordered, now_ns, width_ns, &mut found);
    *place = [found[FOUND_FIRST], found[FOUND_COUNT]];
    found[FOUND_NUMBER]
}

#[unsafe(no_mangle)]
pub extern "C" fn board_slide(
    list: &[u64],
    width_ns: u64,
    earlier_ns: u64,
    first: u64,
    count: u64,
    now_ns: u64,
    slid: &mut SlideWords,
) -> u64
    ensures { left result slid.new
        ≡ slid_left (slide_left list.now earlier_ns (place first count) now_ns width_ns) }
{
    let mut found = [0; SLID_WORDS];
    let earlier = Place {
        first: first as usize,
        count: count as usize,
    };
    slide(list, width_ns, earlier_ns, earlier, now_ns, &mut found);
    *slid = [found[FOUND_FIRST], found[FOUND_COUNT], found[SLID_AFRESH]];
    found[FOUND_NUMBER]
}

#[unsafe(no_mangle)]
pub extern "C" fn board_append(
    list: &mut [u64],
    runs: u64,
    start: u64,
    end: u64,
    thread: u64,
) -> u64
    ensures { appended result list.new ≡ append_left list.old runs start end thread }
{
    append(list, runs, start, end, thread)
}
