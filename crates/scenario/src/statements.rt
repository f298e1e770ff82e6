// The statements with their forms (crate text says what stands in a form), in the order in which a line is tried. An
// underline in a field's name is printed as a space.
use crate::mistakes::Mistake;
use crate::run::{MOST, Run};

#[derive(Clone, Copy, PartialEq, Eq)]
pub enum Name {
    // Of the board alone.
    Window,
    Switch,
    Wake,
    Records,
    Explain,
    WindowWord,
    TurnsWord,
    // Of the table.
    Prepare,
    Account,
    Finish,
    Expired,
    RecordWord,
    // Of the queue.
    Enqueue,
    EnqueueFront,
    Remove,
    Lengths,
    QueueWord,
    // Of queue and window; a run is of the lift record, too.
    Select,
    Deadline,
    Run,
    // Of the lift record.
    Lift,
    Slide,
    LiftWord,
    // A thread by its policy.
    Fifo,
    Fair,
    Budget,
    Idle,
}

const FIRST: Name = Name::Window;

const OTHERS: [Name; 26] = [
    Name::Switch,
    Name::Wake,
    Name::Records,
    Name::Explain,
    Name::WindowWord,
    Name::TurnsWord,
    Name::Prepare,
    Name::Account,
    Name::Finish,
    Name::Expired,
    Name::RecordWord,
    Name::Enqueue,
    Name::EnqueueFront,
    Name::Remove,
    Name::Lengths,
    Name::QueueWord,
    Name::Select,
    Name::Deadline,
    Name::Run,
    Name::Lift,
    Name::Slide,
    Name::LiftWord,
    Name::Fifo,
    Name::Fair,
    Name::Budget,
    Name::Idle,
];

impl Name {
    // The limits are those of crate board's entries, and of the words that there are.
    pub fn form(self) -> &'static [u8] {
        match self {
            Self::Window => {
                b"window period:~ allowance:~ floor:~ priority_rank:#255 budget_rank:#255 fair_rank:#255 \
                borrow_rank:#255 .. prefer-fair"
            }
            Self::Switch => b"switch expired:# yielding:# tail:#",
            Self::Wake => b"wake thread:@ work:~ the_word_at:at reading:~",
            Self::Records => b"records number_of_records:#4_097",
            Self::Explain => b"explain on_or_off:off|on",
            Self::WindowWord =>
                b"word window,_turns,_record,_queue_or_lift:window place:#11 value:#",
            Self::TurnsWord => b"word turns place:#1 value:#",
            Self::Prepare => b"prepare thread:@ back_or_front:back|front reading:~",
            Self::Account =>
                b"account thread:@ mode:strict|priority|protected|ordinary|borrow start:~ end:~",
            Self::Finish => b"finish thread:@",
            Self::Expired => b"expired thread:@",
            Self::RecordWord => b"word record thread:@ place:#31 value:#",
            Self::Enqueue => b"enqueue thread:@",
            Self::EnqueueFront => b"enqueue-front thread:@",
            Self::Remove => b"remove thread:@",
            Self::Lengths => b"lengths",
            Self::QueueWord => b"word queue row:#269 place:#4 value:#",
            Self::Select => b"select reading:~ .. current thread:@",
            Self::Deadline => b"deadline thread:@ reading:~",
            Self::Run => b"run end_of_the_run:~",
            Self::Lift => b"lift reading:~ width:~",
            Self::Slide => b"slide reading:~",
            Self::LiftWord => b"word lift place:# value:#",
            Self::Fifo =>
                b"thread name:= policy:fifo priority:#255 role:ordinary|priority|protected .. hook hook:^",
            _ => self.long_form(),
        }
    }

    fn long_form(self) -> &'static [u8] {
        match self {
            Self::Fair => {
                b"thread name:= policy:fair backend:stride|round-robin weight:#65_535 slice:~ \
                role:ordinary|priority|protected .. hook hook:^"
            }
            Self::Budget => {
                b"thread name:= policy:budget budget:~ period:~ burst:~ role:ordinary|priority|protected \
                .. hook hook:^"
            }
            _ => b"thread name:= policy:idle .. hook hook:^",
        }
    }
}

// More than the words of a form, which give a value each.
const VALUES: usize = 12;

pub type Values = [u64; VALUES];

// By a statement's form a line goes furthest: why it goes no further, the place of the form's word there, how much of
// the line is left, and the values of the form's words, the statement's name among them.
#[derive(Clone, Copy)]
pub struct Statement {
    pub name: Name,
    pub mistake: Option<Mistake>,
    pub place: usize,
    pub left: usize,
    pub values: Values,
}

impl Run {
    // By one form.
    fn said_by(&self, name: Name, line: &[u8]) -> Statement {
        let mut values = [0; VALUES];
        let stop = text::fit(
            name.form(),
            line,
            &self.names,
            self.threads,
            MOST as u64,
            &mut values,
        );
        Statement {
            name,
            mistake: stop.cause.map(Mistake::from),
            place: stop.place,
            left: stop.left,
            values,
        }
    }

    // What a line says by the forms.
    pub fn said(&self, line: &[u8]) -> Statement {
        let mut best = self.said_by(FIRST, line);
        for name in OTHERS {
            best = further(best, self.said_by(name, line));
        }
        best
    }
}

// The one that goes, or goes further; the first of two.
fn further(a: Statement, b: Statement) -> Statement {
    if a.mistake.is_none() {
        return a;
    }
    if b.mistake.is_none() || b.left < a.left {
        return b;
    }
    a
}
