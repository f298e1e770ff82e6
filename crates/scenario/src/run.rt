// What a scenario keeps from line to line and from step to step: the rows that the board's calls work on, which are
// lent, and the run beside them.
use codec::Row;
use lent_queue::QueueRows;

// The table has one record more than a call takes.
pub const TABLE_ROWS: usize = 4097;

// So many threads there may be, and so many wakes.
pub const MOST: usize = 32;

// Room for each thread's name, of up to 15 bytes, and a space behind it: the list of names that crate text reads.
pub const NAMES: usize = 512;

pub type Names = [u8; NAMES];

// What becomes of the output.
#[derive(Clone, Copy, PartialEq, Eq)]
pub enum Output {
    Text,
    Nothing,
    Picture,
    Record,
}

// What the run knows of a thread beside its row: its hook's letter, the work that it has left, and since when it waits.
#[derive(Clone, Copy)]
pub struct Thread {
    pub hook: Option<u64>,
    pub work: u64,
    pub waits: Option<u64>,
}

impl Thread {
    pub const NEW: Self = Self {
        hook: None,
        work: 0,
        waits: None,
    };
}

// Who wakes when, and how long it then works.
#[derive(Clone, Copy)]
pub struct Wake {
    pub thread: u64,
    pub work: u64,
    pub reading: u64,
}

impl Wake {
    const NONE: Self = Self {
        thread: 0,
        work: 0,
        reading: 0,
    };
}

// The statements, and of these the refused ones and those that are not understood.
#[derive(Clone, Copy, Default)]
pub struct Counts {
    pub statements: u64,
    pub refused: u64,
    pub not_understood: u64,
}

// Whether somebody takes over, and to which end of its queue the running thread then goes.
#[derive(Clone, Copy)]
pub enum Choice {
    Stay,
    ToBack,
    ToFront,
}

// How many threads are queued, by policy.
#[derive(Clone, Copy, Default)]
pub struct Lengths {
    pub real_time: u64,
    pub fair: u64,
    pub budget: u64,
}

// How a part of the lift record was searched: by a lift, or by a slide, which may have searched afresh.
#[derive(Clone, Copy, Default)]
pub enum Search {
    #[default]
    Lift,
    Slide,
    Afresh,
}

// A part of the lift record: its first run, how many there are, how it was searched, and the reading and the width of
// that search.
#[derive(Clone, Copy, Default)]
pub struct Part {
    pub first: u64,
    pub count: u64,
    pub search: Search,
    pub reading: u64,
    pub width: u64,
}

// Of a picture: the last reading of all, how many lanes, up to which reading protected windows are drawn, and up to
// which place their labels.
#[derive(Clone, Copy, Default)]
pub struct Picture {
    pub span: u64,
    pub lanes: u64,
    pub shaded: u64,
    pub labelled: u64,
}

// A counter before its first turn.
const HALF: u64 = 1 << 63;

// The number by which the board's calls take that mode.
const ORDINARY: u64 = 3;

#[derive(Drop)]
pub struct Run {
    // The board: the last reading; the running thread, whether it is Running, and its last mode; the idle thread; the
    // turn counters; the window; until when it runs.
    pub now: u64,
    pub current: u64,
    pub running: bool,
    pub mode: u64,
    pub idle: Option<u64>,
    pub turns: board_words::TurnWords,
    pub window: window_words::WindowWords,
    pub until: u64,
    // How many threads and records there are; the threads' names; and what else is known of each, by its number, which
    // may be that of a record that no statement made a thread.
    pub threads: u64,
    pub records: u64,
    pub names: Names,
    pub each: [Thread; MOST],
    // How many wakes are noted and done, and the wakes. (A Vec would take memory, which can be wanting.)
    pub noted: usize,
    pub woken: usize,
    pub wakes: [Wake; MOST],
    // Whether a run explains its selections; what becomes of the output; the line; how many statements there were.
    pub explains: bool,
    pub output: Output,
    pub line: u64,
    pub counts: Counts,
    // What the last calls left: the running thread as a candidate; a selection; a key; whether a turn is spent; whether
    // to switch; the lengths; a deadline.
    pub candidate: Row,
    pub selected: board_words::SelectionWords,
    pub key: window_words::KeyWords,
    pub expired: bool,
    pub choice: Choice,
    pub lengths: Lengths,
    pub deadline: Option<u64>,
    // The word that a statement overwrote.
    pub former: u64,
    // Of the lift record: how many runs its list has, and how many found no room; the last part.
    pub runs: u64,
    pub left_out: u64,
    pub part: Part,
    pub picture: Picture,
}

impl Run {
    // A board with no thread, counters of 2^63 and the mode Ordinary.
    pub fn new(output: Output) -> Self {
        Self {
            now: 0,
            current: 0,
            running: true,
            mode: ORDINARY,
            idle: None,
            turns: [HALF; 2],
            window: [0; window_words::WINDOW_WORDS],
            until: 0,
            threads: 0,
            records: 0,
            names: [0; NAMES],
            each: [Thread::NEW; MOST],
            noted: 0,
            woken: 0,
            wakes: [Wake::NONE; MOST],
            explains: false,
            output,
            line: 0,
            counts: Counts::default(),
            candidate: [0; policy_words::ROW_WORDS],
            selected: [0; board_words::SELECTION_WORDS],
            key: [0; window_words::KEY_WORDS],
            expired: false,
            choice: Choice::Stay,
            lengths: Lengths::default(),
            deadline: None,
            former: 0,
            runs: 0,
            left_out: 0,
            part: Part::default(),
            picture: Picture::default(),
        }
    }

    pub fn tells(&self) -> bool {
        self.output == Output::Text
    }

    pub fn draws(&self) -> bool {
        self.output == Output::Picture
    }

    pub fn is_idle(&self, id: u64) -> bool {
        self.idle == Some(id)
    }

    pub fn set_work(&mut self, id: u64, work: u64) {
        if let Some(thread) = self.each.get_mut(id as usize) {
            thread.work = work;
        }
    }

    // The work that a thread has left; none where there is no such thread.
    pub fn work(&self, id: u64) -> u64 {
        match self.each.get(id as usize) {
            Some(thread) => thread.work,
            None => 0,
        }
    }

    pub fn hook(&self, id: u64) -> Option<u64> {
        self.each.get(id as usize)?.hook
    }

    // The wake that comes next.
    pub fn coming_wake(&self) -> Option<Wake> {
        if self.noted <= self.woken {
            return None;
        }
        self.wakes.get(self.woken).copied()
    }
}

// What is lent to each statement: the queue, the table's records, the list of the lift record, and the run.
#[derive(Drop)]
pub struct Board<'a> {
    pub queue: &'a mut QueueRows,
    pub table: &'a mut [Row],
    pub list: &'a mut [u64],
    pub run: &'a mut Run,
}
