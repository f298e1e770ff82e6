// What a picture has before its run is drawn: the title, the lanes with their names, the time, and the legend.
use crate::axis::{TIME_DOWN, axis};
use crate::legend;
use crate::names::{DRAWN, legible};
use crate::printing::{plain, put};
use crate::run::Run;
use crate::scale::{LEFT, RIGHT, SHEET, down};
use crate::shapes::{label, rectangle};

// The title: where it starts, how wide it may be, and a letter's height where there is room.
const TITLE_LEFT: u64 = 120;

const TITLE_WIDTH: u64 = SHEET - 2 * TITLE_LEFT;

const TITLE_LETTER: u64 = 160;

// Between a name and its lane, and from the top of a lane to its name's foot and its line.
const NAME_GAP: u64 = 100;

const NAME_DOWN: u64 = 145;

const LINE_DOWN: u64 = 200;

// How far below the lanes the legend is.
const LEGEND_DOWN: u64 = 380;

// Coordinates are tenths of a pixel.
const TENTHS: u64 = 10;

// The title, smaller where it is long.
fn title_of(name: &[u8]) {
    let letters = name.len() as u64 % 256 + 1;
    let size = TITLE_LETTER.min(TITLE_WIDTH / letters);
    put(b"<text x='%a' y='240' font-size='%b'>", &[TITLE_LEFT, size]);
    legible(name);
    plain(b"</text>\n");
}

// Of a name that is longer than what is drawn, the end.
fn title(name: &[u8]) {
    match name.last_chunk::<DRAWN>() {
        Some(end) => title_of(end),
        None => title_of(name),
    }
}

fn lane_line(y: u64) {
    put(
        b"<path d='M%a %b H%c' stroke='#d0d0d0'/>\n",
        &[LEFT, y.saturating_add(LINE_DOWN), RIGHT],
    );
}

// A name follows, and ends before the lane.
fn name_place(y: u64) {
    put(
        b"<text x='%a' y='%b' text-anchor='end'>",
        &[LEFT - NAME_GAP, y.saturating_add(NAME_DOWN)],
    );
}

fn lane(run: &Run, id: u64) {
    let y = down(id);
    lane_line(y);
    name_place(y);
    run.legible_name(id);
    plain(b"</text>\n");
}

fn lanes(run: &Run) {
    for id in (0..run.threads).rev() {
        lane(run, id);
    }
}

fn opened(height: u64) {
    put(
        b"<svg xmlns='http://www.w3.org/2000/svg' version='1.1' width='%a' height='%b' ",
        &[SHEET / TENTHS, height / TENTHS],
    );
}

fn viewed(height: u64) {
    put(
        b"viewBox='0 0 %a %b' font-family='sans-serif' font-size='120' stroke-width='10'>\n",
        &[SHEET, height],
    );
}

fn paper(height: u64) {
    opened(height);
    viewed(height);
    rectangle([0, 0, SHEET, height], b"white");
}

// The time, or that there was none.
fn timed(span: u64, period: u64, bottom: u64) {
    if span == 0 {
        label(LEFT, bottom.saturating_add(TIME_DOWN), b"no run");
        return;
    }
    axis(span, bottom, period);
}

// By a run that was not drawn yet.
pub fn sheet(run: &Run, name: &[u8]) {
    let bottom = down(run.threads);
    let below = bottom.saturating_add(LEGEND_DOWN);
    paper(below.saturating_add(legend::height(&run.each)));
    title(name);
    timed(run.now, run.window[window_words::WINDOW_PERIOD], bottom);
    lanes(run);
    legend::legend(&run.each, below);
}

pub fn end() {
    plain(b"</svg>\n");
}
