// The shapes and times of a picture, each printed by itself. A place is a left, a top, a width and a height.
use crate::printing::{listed, put};
use text::print_page;

pub type Place = [u64; 4];

// Hooks by their letters.
pub const FIRST_LETTER: u64 = 65;

pub const LETTERS: u64 = 26;

const COLOURS: u64 = 8;

pub const THIN_HEIGHT: u64 = 40;

// Room for a shape.
const PAGE: usize = 256;

// Room for a time.
const DIGITS: usize = 32;

// A letter is at most so wide on the average of a label, and the unit of a time with a gap behind it.
const LETTER: u64 = 70;

pub const UNIT_WIDTH: u64 = 4 * LETTER;

// A page with a shape on it.
fn page<F: FnOnce(&mut [u8]) -> usize>(shape: F)
    requires { F.IsAlwaysCallable shape }
{
    let mut out = [0; PAGE];
    let n = shape(&mut out);
    print_page(&out, n);
}

pub fn rectangle(place: Place, paint: &[u8]) {
    page(|out| text::rectangle(out, 0, &place, paint));
}

// A protected window.
pub fn shade(place: Place) {
    rectangle(place, b"#d04040' fill-opacity='0.13");
}

// The number of a hook's colour: 0 for none, and the ninth has that of the first again.
fn colour(hook: Option<u64>) -> u64 {
    match hook {
        Some(letter) => letter.saturating_sub(FIRST_LETTER) % COLOURS + 1,
        None => 0,
    }
}

// A rectangle with a hook's colour in its paint.
fn painted(place: Place, paint: &[u8], hook: Option<u64>) {
    put(b"<rect x='%a' y='%b' width='%c' height='%d' ", &place);
    listed(
        paint,
        b"#808080|#2878b8|#d9731a|#3a9a50|#8a56b0|#168f8f|#9c6b3a|#c0458c|#5563b5",
        colour(hook),
    );
}

// A bar for a stretch, by the letter of its hook.
pub fn bar(place: Place, hook: Option<u64>) {
    painted(place, b"fill='%@'/>\n", hook);
}

// A thin bar for a wait, lighter.
pub fn thin_bar(place: Place, hook: Option<u64>) {
    painted(place, b"fill='%@' fill-opacity='0.5'/>\n", hook);
}

// Words from a place on.
pub fn label(left: u64, y: u64, words: &[u8]) {
    page(|out| text::label(out, 0, &[left, y], words));
}

// A mark that points down to a place.
pub fn mark(left: u64, y: u64) {
    page(|out| text::mark(out, 0, &[left, y]));
}

// A dashed line from a height down to another.
pub fn dashes(left: u64, top: u64, bottom: u64) {
    page(|out| text::dashes(out, 0, &[left, top, bottom]));
}

// A template with its values, and the first bytes of a page as its word.
fn with_word(template: &[u8], values: &[u64], page: &[u8], n: usize) {
    if let Some(word) = page.get(..n) {
        text::print(template, values, word);
    }
}

// A template with its values, and a time in milliseconds as its word.
pub fn in_milliseconds(template: &[u8], values: &[u64], reading: u64) {
    let mut digits = [0u8; DIGITS];
    let n = text::milliseconds(&mut digits, 0, reading);
    with_word(template, values, &digits, n);
}

// How wide a time is.
pub fn time_width(reading: u64) -> u64 {
    let mut digits = [0u8; DIGITS];
    let n = text::milliseconds(&mut digits, 0, reading);
    LETTER * (n as u64 % DIGITS as u64) + UNIT_WIDTH
}
