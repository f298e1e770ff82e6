// The time of a picture: the edges of periods, and below the lanes the times, in milliseconds.
use crate::printing::put;
use crate::scale::{LEFT, RIGHT, TOP, across};
use crate::shapes::{UNIT_WIDTH, dashes, in_milliseconds, time_width};

// A millisecond in nanoseconds.
const MILLISECOND: u64 = 1_000_000;

// The edges are all drawn where they are so far apart, else those that have a time.
const EDGES_APART: u64 = 120;

// More than can be drawn so far apart, or with their times.
const MOST_EDGES: u64 = 80;

// The greatest reading is reached by so many tens.
const DECADES: u64 = 20;

// How far below the lanes a time is written.
pub const TIME_DOWN: u64 = 180;

// How wide a length of time is drawn.
fn drawn(span: u64, length: u64) -> u64 {
    across(span, length).saturating_sub(LEFT)
}

// How wide the widest of the times so far apart is: it has the whole digits of the run's end, and a fraction.
fn widest(span: u64, apart: u64) -> u64 {
    let whole = time_width(span - span % MILLISECOND);
    let fraction = time_width(apart % MILLISECOND);
    whole.saturating_add(fraction).saturating_sub(UNIT_WIDTH)
}

// Whether times so far apart do not touch.
fn is_apart(span: u64, apart: u64) -> bool {
    widest(span, apart) <= drawn(span, apart)
}

// Of a length, its double and its fivefold the first by which times do not touch.
fn of_decade(span: u64, length: u64) -> Option<u64> {
    let twice = length.saturating_mul(2);
    let five = length.saturating_mul(5);
    [length, twice, five]
        .into_iter()
        .find(|&apart| is_apart(span, apart))
}

// The least of a length's 1, 2, 5, 10, 20 .. by which times do not touch.
fn step(span: u64, length: u64) -> u64 {
    let mut n = length;
    for _ in 0..DECADES {
        if let Some(found) = of_decade(span, n) {
            return found;
        }
        n = n.saturating_mul(10);
    }
    n
}

// Edges so far apart, up to the run's end; one beyond the greatest reading is none.
fn edges(span: u64, bottom: u64, apart: u64) {
    let mut reading: u64 = 0;
    for _ in 0..MOST_EDGES {
        if span < reading {
            return;
        }
        dashes(across(span, reading), TOP, bottom);
        match reading.checked_add(apart) {
            Some(next) => reading = next,
            None => return,
        }
    }
}

// All edges, or every so many.
fn edges_of(span: u64, bottom: u64, period: u64, apart: u64) {
    if period == 0 {
        return;
    }
    if EDGES_APART <= drawn(span, period) {
        edges(span, bottom, period);
        return;
    }
    edges(span, bottom, apart);
}

fn tick(place: u64, bottom: u64) {
    put(
        b"<path d='M%a %b v50' stroke='#606060'/>\n",
        &[place, bottom],
    );
}

fn time_at(place: u64, bottom: u64, reading: u64) {
    tick(place, bottom);
    in_milliseconds(
        b"<text x='%a' y='%b' text-anchor='middle'>%@ ms</text>\n",
        &[place, bottom.saturating_add(TIME_DOWN)],
        reading,
    );
}

// Times so far apart, up to a place.
fn times(span: u64, bottom: u64, apart: u64, last: u64) {
    let mut reading: u64 = 0;
    for _ in 0..MOST_EDGES {
        let place = across(span, reading);
        if span < reading || last < place {
            return;
        }
        time_at(place, bottom, reading);
        reading = reading.saturating_add(apart);
    }
}

// The time of the run's end; it ends there.
fn last_time(span: u64, bottom: u64) {
    tick(RIGHT, bottom);
    in_milliseconds(
        b"<text x='%a' y='%b' text-anchor='end'>%@ ms</text>\n",
        &[RIGHT, bottom.saturating_add(TIME_DOWN)],
        span,
    );
}

fn line(bottom: u64) {
    put(
        b"<path d='M%a %b H%c' stroke='#606060'/>\n",
        &[LEFT, bottom, RIGHT],
    );
}

// Of a run up to a reading, below lanes that end at a height. Where there is no period, times alone.
pub fn axis(span: u64, bottom: u64, period: u64) {
    let apart = step(span, period.max(1));
    let room = time_width(span).saturating_add(widest(span, apart) / 2);
    edges_of(span, bottom, period, apart);
    times(span, bottom, apart, RIGHT.saturating_sub(room));
    last_time(span, bottom);
    line(bottom);
}
