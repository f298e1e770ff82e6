// The steps, by their letters, and how many numbers each step has, the answer among them.

// Where a word stands.
#[derive(Clone, Copy, PartialEq, Eq)]
pub enum Place {
    Window,
    Record,
    Scratch,
}

// What becomes of a word: it is overwritten; it must stand there; or it is shown.
#[derive(Clone, Copy, PartialEq, Eq)]
pub enum Use {
    Set,
    Compare,
    Show,
}

#[derive(Clone, Copy)]
pub enum QueueCall {
    Enqueue,
    EnqueueFront,
    Remove,
}

// What is told of a selection: its number, whom it names, or the lowest fair pass.
#[derive(Clone, Copy)]
pub enum Selection {
    Number,
    Named,
    Lowest,
}

#[derive(Clone, Copy)]
pub enum TurnCall {
    Prepare,
    Account,
    Finish,
    Choose,
    Deadline,
}

// Of one record's runtime.
#[derive(Clone, Copy)]
pub enum RuntimeCall {
    New,
    Refresh,
    Charge,
    End,
}

#[derive(Clone, Copy)]
pub enum WindowCall {
    Config,
    Interval,
    Protection,
    Key,
}

#[derive(Clone, Copy)]
pub enum TreeCall {
    Insert,
    Remove,
    Contains,
    Least,
}

#[derive(Clone, Copy)]
pub enum ListCall {
    Push,
    PushFront,
    Remove,
}

#[derive(Clone, Copy)]
pub enum Step {
    // How many records the case has.
    Size,
    Word(Place, Use),
    QueueWord(Use),
    // One number for all words.
    Sum,
    Queue(QueueCall),
    Select(Selection),
    // How many threads a queue by value then has.
    ByValue,
    Turn(TurnCall),
    Budget,
    Runtime(RuntimeCall),
    Expiry,
    Window(WindowCall),
    Compare,
    Tree(TreeCall),
    List(ListCall),
}

// The steps on words.
fn word_step(letter: u8) -> Option<Step> {
    match letter {
        b'N' => Some(Step::Size),
        b'W' => Some(Step::Word(Place::Window, Use::Set)),
        b'w' => Some(Step::Word(Place::Window, Use::Compare)),
        b'V' => Some(Step::Word(Place::Window, Use::Show)),
        b'T' => Some(Step::Word(Place::Record, Use::Set)),
        b't' => Some(Step::Word(Place::Record, Use::Compare)),
        b'R' => Some(Step::Word(Place::Record, Use::Show)),
        b'X' => Some(Step::Word(Place::Scratch, Use::Set)),
        b'x' => Some(Step::Word(Place::Scratch, Use::Compare)),
        b'S' => Some(Step::Word(Place::Scratch, Use::Show)),
        b'Q' => Some(Step::QueueWord(Use::Set)),
        b'q' => Some(Step::QueueWord(Use::Compare)),
        b'C' => Some(Step::Sum),
        _ => None,
    }
}

impl Step {
    // Of a letter, if it is a step's.
    pub fn of(letter: u8) -> Option<Self> {
        match letter {
            b'v' => Some(Self::ByValue),
            b'e' => Some(Self::Queue(QueueCall::Enqueue)),
            b'f' => Some(Self::Queue(QueueCall::EnqueueFront)),
            b'r' => Some(Self::Queue(QueueCall::Remove)),
            b's' => Some(Self::Select(Selection::Named)),
            b'l' => Some(Self::Select(Selection::Lowest)),
            b'P' => Some(Self::Select(Selection::Number)),
            b'p' => Some(Self::Turn(TurnCall::Prepare)),
            b'a' => Some(Self::Turn(TurnCall::Account)),
            b'o' => Some(Self::Turn(TurnCall::Finish)),
            b'h' => Some(Self::Turn(TurnCall::Choose)),
            b'd' => Some(Self::Turn(TurnCall::Deadline)),
            b'b' => Some(Self::Budget),
            b'u' => Some(Self::Runtime(RuntimeCall::Refresh)),
            b'j' => Some(Self::Runtime(RuntimeCall::Charge)),
            b'k' => Some(Self::Runtime(RuntimeCall::End)),
            b'y' => Some(Self::Runtime(RuntimeCall::New)),
            b'z' => Some(Self::Expiry),
            b'c' => Some(Self::Window(WindowCall::Config)),
            b'i' => Some(Self::Window(WindowCall::Interval)),
            b'g' => Some(Self::Window(WindowCall::Protection)),
            b'm' => Some(Self::Window(WindowCall::Key)),
            b'n' => Some(Self::Compare),
            b'I' => Some(Self::Tree(TreeCall::Insert)),
            b'D' => Some(Self::Tree(TreeCall::Remove)),
            b'H' => Some(Self::Tree(TreeCall::Contains)),
            b'G' => Some(Self::Tree(TreeCall::Least)),
            b'L' => Some(Self::List(ListCall::Push)),
            b'F' => Some(Self::List(ListCall::PushFront)),
            b'U' => Some(Self::List(ListCall::Remove)),
            _ => word_step(letter),
        }
    }

    pub fn arity(self) -> usize {
        match self {
            Self::Size | Self::ByValue | Self::Compare | Self::Sum => 1,
            Self::Word(Place::Window, _) | Self::Turn(TurnCall::Finish) => 2,
            Self::Word(..) | Self::QueueWord(_) | Self::Queue(_) | Self::Tree(_) => 3,
            Self::Select(Selection::Named | Selection::Lowest) => 3,
            Self::Select(Selection::Number) | Self::Turn(TurnCall::Prepare) | Self::Budget => 4,
            Self::Turn(TurnCall::Account | TurnCall::Choose) | Self::Expiry | Self::List(_) => 5,
            Self::Turn(TurnCall::Deadline) => 6,
            Self::Runtime(call) => call.arity(),
            Self::Window(call) => call.arity(),
        }
    }

    // Words are compared in silence, and nothing is to be said of a size.
    pub fn is_silent(self) -> bool {
        match self {
            Self::Word(_, how) | Self::QueueWord(how) => how != Use::Show,
            Self::Size | Self::Sum => true,
            _ => false,
        }
    }

    // Calls that answer 0 or document 01's number.
    pub fn is_call(self) -> bool {
        match self {
            Self::Queue(_) | Self::Select(Selection::Number) | Self::Window(WindowCall::Key) =>
                true,
            Self::Turn(call) => !matches!(call, TurnCall::Choose),
            Self::Budget => true,
            _ => false,
        }
    }
}

impl RuntimeCall {
    fn arity(self) -> usize {
        match self {
            Self::End => 2,
            Self::Refresh => 3,
            Self::Charge => 4,
            Self::New => 5,
        }
    }
}

impl WindowCall {
    fn arity(self) -> usize {
        match self {
            Self::Config => 1,
            Self::Key => 2,
            Self::Protection => 3,
            Self::Interval => 5,
        }
    }
}
