// Where things stand in a picture. All is in tenths of a pixel, so that a long run that is enlarged has its detail.
use crate::run::MOST;

// The picture is so wide; time starts at LEFT, and the whole run is WIDTH.
pub const SHEET: u64 = 10_000;

pub const LEFT: u64 = 1_940;

pub const WIDTH: u64 = 7_800;

pub const RIGHT: u64 = LEFT + WIDTH;

// Edges and protected windows start at TOP, lanes below it.
pub const TOP: u64 = 480;

const LANES_TOP: u64 = 600;

const LANE: u64 = 340;

// A run is cut into so many parts or fewer; a part's number stays below the other, and WIDTH times that in range.
const PARTS: u64 = 1_000_000_000_000;

const BEYOND_PARTS: u64 = 4_000_000_000_000;

// Where a reading is, of a run up to a reading; the end of the run where it is later.
pub fn across(span: u64, reading: u64) -> u64 {
    let unit = span / PARTS + 1;
    let parts = span / unit;
    if parts == 0 {
        return LEFT;
    }
    let part = reading.min(span) / unit % BEYOND_PARTS;
    LEFT.saturating_add(part * WIDTH / parts)
}

// Where a lane is, or what is below the last.
pub fn down(lane: u64) -> u64 {
    LANES_TOP + LANE * (lane % (MOST as u64 + 1))
}

// The end of the period that holds a reading; the last reading where it does not fit.
pub fn period_end(period: u64, reading: u64) -> u64 {
    if period == 0 {
        return reading;
    }
    (reading - reading % period).saturating_add(period)
}
