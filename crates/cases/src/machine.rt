// The cases of a text. Each starts with its label, on a new queue, nine records and a window; its steps are calls with
// the answer that document 01 or the Rust gives, words that are overwritten, and words that must then stand there. A
// malformed line counts as a difference.
ghost use Rattle.std.specs.Prelude.{◌+◌, ◌≤◌, length};

use crate::letters::Step;
use crate::places::{Case, ROWS, WINDOW};
use crate::reading::{Line, parsed};
use board::board_new;
use lent_queue::{QUEUE_ROW_WORDS, QUEUE_ROWS};
use policy_words::ROW_WORDS;
use text::print;

// The nine records that a case starts with stand here in the table; the rows behind them, up to 4,096, clear as many
// after the nine.
const KEPT: usize = 4000;

const RESTORED: usize = 97;

// Document 01's numbers, 0 among them, and how many calls answered each.
pub const ANSWERS: usize = 12;

pub type Counts = [u64; ANSWERS];

// What a line brings: whether its answer differs from what is said, and the number that a call answered, if it is one.
#[derive(Clone, Copy)]
struct Event {
    differs: bool,
    number: Option<u64>,
}

impl Event {
    const NOTHING: Self = Self {
        differs: false,
        number: None,
    };
}

// (What is printed goes through crate text, which says how many bytes are handed to the system.)
fn show(got: u64, wanted: u64, silent: bool) {
    if silent {
        print(b", a word is", &[], b"");
    }
    print(b" %a", &[got], b"");
    if got != wanted {
        print(b", but what is said is %a", &[wanted], b"");
    }
}

// Every answer is shown, of words and where nothing is to be shown only those that differ, there on a line of their
// own.
fn judge(step: Step, got: u64, wanted: u64, shown: bool) -> Event {
    let silent = step.is_silent();
    let differs = got != wanted;
    if differs || shown && !silent {
        show(got, wanted, silent);
    }
    if differs && !shown {
        print(b"\n", &[], b"");
    }
    Event {
        differs,
        number: if step.is_call() { Some(got) } else { None },
    }
}

// The label without its sign, whole.
fn show_label(label: &[u8]) {
    print(b"\n", &[], b"");
    text::print_page(label, label.len());
    print(b":", &[], b"");
}

fn malformed() -> Event {
    print(b", a malformed line", &[], b"");
    Event {
        differs: true,
        number: None,
    }
}

impl Case<'_> {
    fn restore(&mut self) {
        if let Some((first, kept)) = self.rows.split_at_mut_checked(KEPT) {
            for (row, given) in first.iter_mut().zip(kept.iter()).take(RESTORED) {
                *row = *given;
            }
        }
    }

    // Period 10, allowance 2, floor 3, ranks 0 to 3; no epoch yet.
    fn start(&mut self) {
        board_new(self.queue);
        self.restore();
        self.put(WINDOW, &[10, 2, 3, 0, 1, 2, 3, 0, 0, 0, 2, 3]);
        self.set_count(9);
    }

    fn label(&mut self, label: &[u8], shown: bool) -> Event {
        self.start();
        if shown {
            show_label(label);
        }
        Event::NOTHING
    }

    // A step on as many records as the case has.
    fn step(&mut self, line: &Line, shown: bool) -> Event {
        let answer = self.called(line.step, line.numbers);
        judge(line.step, u64::from(answer), line.said, shown)
    }

    fn line(&mut self, line: &[u8], shown: bool) -> Event {
        match line {
            [] | [0 | b'#', ..] => Event::NOTHING,
            [b'=', label @ ..] => self.label(label, shown),
            _ => match parsed(line) {
                Some(step) => self.step(&step, shown),
                None => malformed(),
            },
        }
    }
}

// At most one more.
fn with(differs: u64, event: Event) -> u64
    ensures { result ≤ differs + 1 }
{
    differs.saturating_add(u64::from(event.differs))
}

fn count(counts: &mut Counts, number: Option<u64>) {
    if let Some(number) = number {
        if let Some(count) = counts.get_mut(number as usize) {
            *count = count.saturating_add(1);
        }
    }
}

// (A function of its own, since what clears rows in a long function is compiled to clear them twice.)
fn zeros<const WORDS: usize, const COUNT: usize>() -> [[u64; WORDS]; COUNT] {
    [[0; WORDS]; COUNT]
}

// How many answers differ, one at most for each line; `counts` has how many calls answered 0 and each refusal. (The
// loop goes by bytes, since the promise is over the bytes.)
pub fn run(words: &[u8], shown: bool, counts: &mut Counts) -> u64
    ensures { result ≤ length words.now }
{
    let mut queue = zeros::<QUEUE_ROW_WORDS, QUEUE_ROWS>();
    let mut rows = zeros::<ROW_WORDS, ROWS>();
    let mut case = Case {
        queue: &mut queue,
        rows: &mut rows,
    };
    let mut differs: u64 = 0;
    let mut i: usize = 0;
    while i < words.len() {
        let end = text::end_of(words, i, b'\n');
        let event = case.line(&words[i..end], shown);
        differs = with(differs, event);
        count(counts, event.number);
        i = end + 1;
    }
    differs
}
