// The legend of a picture: a row or more of hooks that are there, and a row of what else is drawn.
use crate::printing::{listed, plain, put};
use crate::run::Thread;
use crate::scale::LEFT;
use crate::shapes::{
    FIRST_LETTER, LETTERS, THIN_HEIGHT, bar, dashes, label, mark, shade, thin_bar,
};

// Of what has no hook, and of hooks.
const MOST_ENTRIES: u64 = LETTERS + 1;

// So many hooks stand in a row, each so wide; rows are so high.
const IN_ROW: u64 = 10;

const ENTRY: u64 = 780;

const ROW: u64 = 220;

const MARGIN: u64 = 40;

// A colour's size, and how far its words are from where it starts, or from a line's.
const SWATCH: u64 = 140;

const SWATCH_HEIGHT: u64 = 120;

const BESIDE: u64 = 190;

const BESIDE_LINE: u64 = 100;

// How far below the top of a row its words have their foot, a thin bar starts, a mark points and an edge ends.
const FOOT: u64 = 105;

const WAITING_DOWN: u64 = 40;

const MARK_DOWN: u64 = 100;

const EDGE_DOWN: u64 = 130;

// Where the entries of the last row start.
const WAITING: u64 = LEFT;

const CHOSEN: u64 = LEFT + 950;

const PROTECTED: u64 = LEFT + 2_600;

const EDGE: u64 = LEFT + 4_150;

const TIMES: u64 = LEFT + 5_550;

// Whether a thread has a hook.
fn is_there(threads: &[Thread], letter: u64) -> bool {
    threads.iter().any(|thread| thread.hook == Some(letter))
}

// How many hooks are there.
fn count(threads: &[Thread]) -> u64 {
    let letters = FIRST_LETTER..FIRST_LETTER + LETTERS;
    letters.filter(|&letter| is_there(threads, letter)).count() as u64
}

// Of the hooks and of the row below them.
pub fn height(threads: &[Thread]) -> u64 {
    ROW * (count(threads) % MOST_ENTRIES / IN_ROW + 2) + MARGIN
}

// Where words have their foot.
fn foot(y: u64) -> u64 {
    y.saturating_add(FOOT)
}

// The k-th entry; its words follow.
fn entry(k: u64, y: u64, hook: Option<u64>) {
    let left = LEFT + ENTRY * (k % IN_ROW);
    let top = y.saturating_add(ROW * (k % MOST_ENTRIES / IN_ROW));
    bar([left, top, SWATCH, SWATCH_HEIGHT], hook);
    put(b"<text x='%a' y='%b'>", &[left + BESIDE, foot(top)]);
}

fn hook(k: u64, y: u64, letter: u64) {
    entry(k, y, Some(letter));
    listed(
        b"hook %@</text>\n",
        b"A|B|C|D|E|F|G|H|I|J|K|L|M|N|O|P|Q|R|S|T|U|V|W|X|Y|Z",
        letter.saturating_sub(FIRST_LETTER),
    );
}

// The hooks that are there, in their order, behind what has none.
fn hooks(threads: &[Thread], y: u64) {
    let mut k: u64 = 1;
    for letter in FIRST_LETTER..FIRST_LETTER + LETTERS {
        if is_there(threads, letter) {
            hook(k, y, letter);
            k = k.saturating_add(1);
        }
    }
}

fn waiting(y: u64) {
    let top = y.saturating_add(WAITING_DOWN);
    thin_bar([WAITING, top, SWATCH, THIN_HEIGHT], None);
    label(WAITING + BESIDE, foot(y), b"waiting");
}

fn chosen(y: u64) {
    mark(CHOSEN, y.saturating_add(MARK_DOWN));
    label(CHOSEN + BESIDE_LINE, foot(y), b"chosen by a selection");
}

fn protected(y: u64) {
    shade([PROTECTED, y, SWATCH, SWATCH_HEIGHT]);
    label(PROTECTED + BESIDE, foot(y), b"protected window");
}

fn edge(y: u64) {
    dashes(EDGE, y, y.saturating_add(EDGE_DOWN));
    label(EDGE + BESIDE_LINE, foot(y), b"edge of a period");
}

pub fn legend(threads: &[Thread], y: u64) {
    entry(0, y, None);
    plain(b"no hook</text>\n");
    hooks(threads, y);
    let below = y.saturating_add(height(threads).saturating_sub(ROW + MARGIN));
    waiting(below);
    chosen(below);
    protected(below);
    edge(below);
    label(TIMES, foot(below), b"times in milliseconds");
}
