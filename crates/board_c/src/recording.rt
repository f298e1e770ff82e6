// The C calls of board's recording.rt.
ghost use Rattle.std.specs.Prelude.{◌≡◌};
ghost use Rattle.lift_record.specs.Record.{place, search_left, slide_left, appended, append_left};
ghost use Rattle.lift_record.specs.Halving.{search_from_left};
ghost use Rattle.board.specs.Board.{left};
ghost use Rattle.board.specs.Recording.{place_left, slid_left};

type PlaceWords = [u64; 2];

type SlideWords = [u64; 3];

#[unsafe(no_mangle)]
pub extern "C" fn board_lift(
    list: &[u64],
    now_ns: u64,
    width_ns: u64,
    place: &mut PlaceWords,
) -> u64
    ensures { left result place.new ≡ place_left (search_left list.now now_ns width_ns) }
{
    board::board_lift(list, now_ns, width_ns, place)
}

#[unsafe(no_mangle)]
pub extern "C" fn board_lift_from(
    list: &[u64],
    ordered: u64,
    now_ns: u64,
    width_ns: u64,
    place: &mut PlaceWords,
) -> u64
    ensures { left result place.new
        ≡ place_left (search_from_left list.now ordered now_ns width_ns) }
{
    board::board_lift_from(list, ordered, now_ns, width_ns, place)
}

#[unsafe(no_mangle)]
pub extern "C" fn board_slide(
    list: &[u64],
    width_ns: u64,
    earlier_ns: u64,
    first: u64,
    count: u64,
    now_ns: u64,
    slid: &mut SlideWords,
) -> u64
    ensures { left result slid.new
        ≡ slid_left (slide_left list.now earlier_ns (place first count) now_ns width_ns) }
{
    board::board_slide(list, width_ns, earlier_ns, first, count, now_ns, slid)
}

#[unsafe(no_mangle)]
pub extern "C" fn board_append(
    list: &mut [u64],
    runs: u64,
    start: u64,
    end: u64,
    thread: u64,
) -> u64
    ensures { appended result list.new ≡ append_left list.old runs start end thread }
{
    board::board_append(list, runs, start, end, thread)
}
