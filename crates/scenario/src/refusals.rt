// Why a statement is refused.
use crate::printing::{listed, plain, put_one};

// By the number that documents 01 and 02 give it; and of the program itself: a run without an idle thread, a word of a
// record that the table does not have, and a word that the lift record does not have.
#[derive(Clone, Copy)]
pub enum Refusal {
    Numbered(u64),
    NoIdle,
    NoRecord,
    NoWord,
}

// What a call of the board answers: 0, or the refusal's number.
pub fn made(number: u64) -> Result<(), Refusal> {
    match number {
        0 => Ok(()),
        _ => Err(Refusal::Numbered(number)),
    }
}

// A refusal's name, with its number. (The list has no names yet for the numbers that document 02 gives later.)
fn told_numbered(number: u64) {
    listed(
        b": refused, %@",
        b"made|Damaged|BadState|Already|NoThread|BadConfig|BadBudget|BackInTime|TurnsSpent|Halted|BadTable|BadRecord\
            |RecordOrder",
        number,
    );
    put_one(b" (%a)\n", number);
}

impl Refusal {
    // The end of the refused line.
    pub fn told(self) {
        match self {
            Self::Numbered(number) => told_numbered(number),
            Self::NoIdle => {
                plain(b": refused, there is no idle thread: a line 'thread NAME idle' makes one\n");
            }
            Self::NoRecord => plain(b": refused, the table has no such record\n"),
            Self::NoWord => plain(b": refused, the lift record has no such word\n"),
        }
    }
}
