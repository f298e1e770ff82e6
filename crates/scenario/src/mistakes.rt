// Lines that are no statement, and numbers that their fields would lose, told in words.
use crate::printing::{SPACE, plain, put_one, words};
use crate::run::{MOST, Run};
use crate::statements::{Name, Statement};
use text::Cause;

// Why a line is no statement, or its number one that the field would lose.
#[derive(Clone, Copy, PartialEq, Eq)]
pub enum Mistake {
    Missing,
    NoNumber,
    NoTime,
    OtherWord,
    NoSuchName,
    NameTaken,
    NoName,
    TooMany,
    NoRoom,
    NoWakes,
    AboveLimit,
    NoLetter,
}

impl From<Cause> for Mistake {
    fn from(cause: Cause) -> Self {
        match cause {
            Cause::Missing => Self::Missing,
            Cause::OtherWord => Self::OtherWord,
            Cause::NoNumber => Self::NoNumber,
            Cause::NoTime => Self::NoTime,
            Cause::AboveLimit => Self::AboveLimit,
            Cause::NoSuchName => Self::NoSuchName,
            Cause::NameTaken => Self::NameTaken,
            Cause::NoName => Self::NoName,
            Cause::NoRoom => Self::NoRoom,
            Cause::NoLetter => Self::NoLetter,
            Cause::TooMany => Self::TooMany,
        }
    }
}

impl Mistake {
    pub fn is_refused(self) -> bool {
        matches!(self, Self::AboveLimit | Self::NoLetter)
    }

    // Whether the form's field is told before the reason, and the line's word behind it.
    fn has_field(self) -> bool {
        matches!(self, Self::Missing | Self::NoNumber | Self::NoTime)
    }

    fn has_word(self) -> bool {
        !matches!(self, Self::Missing | Self::NoRoom | Self::NoWakes)
    }

    fn reason(self) -> &'static [u8] {
        match self {
            Self::Missing => b" is missing",
            Self::NoNumber => b" is not a number: ",
            Self::NoTime => b" is not a time such as 7ms or 7_000_000: ",
            Self::OtherWord => b"unknown word ",
            Self::NoSuchName => b"no such thread: ",
            Self::NameTaken => b"there is already a thread ",
            Self::NoName => b"a name has up to 15 bytes and is no number: ",
            Self::TooMany => b"one word too many: ",
            Self::NoRoom => b"no room for more than 32 threads",
            Self::NoWakes => b"no room for more than 32 wakes",
            Self::AboveLimit => b" is at most ",
            Self::NoLetter => b" is one letter from A to Z",
        }
    }
}

// In a form's word, between the field's name and what is asked for.
const COLON: u8 = b':';

// The form's word by which a line goes no further.
fn asked(said: &Statement) -> &'static [u8] {
    let form = said.name.form();
    let word = text::nth(form, SPACE, said.place);
    &form[word.start..word.end]
}

// Its field.
fn told_field(said: &Statement) {
    let word = asked(said);
    let colon = text::end_of(word, 0, COLON);
    words(b"%@", &word[..colon]);
}

// Its limit, what stands behind a colon and a mark; the greatest number where it has none.
fn told_limit(said: &Statement) {
    let word = asked(said);
    match &word[text::end_of(word, 0, COLON)..] {
        [_, _, limit @ ..] if !limit.is_empty() => plain(limit),
        _ => plain(b"18_446_744_073_709_551_615"),
    }
}

// The first word of what is left of a line.
fn told_word(line: &[u8], left: usize) {
    if left <= line.len() {
        let word = text::word_after(line, line.len() - left, SPACE);
        plain(&line[word.start..word.end]);
    }
}

fn told_refused(line: &[u8], said: &Statement, mistake: Mistake) {
    plain(line);
    plain(b": refused, ");
    told_field(said);
    plain(mistake.reason());
    if mistake == Mistake::AboveLimit {
        told_limit(said);
    }
    plain(b"\n");
}

// Why a line is no statement.
fn told_why(line: &[u8], said: &Statement, mistake: Mistake) {
    if mistake.has_field() {
        told_field(said);
    }
    plain(mistake.reason());
    if mistake.has_word() {
        told_word(line, said.left);
    }
}

fn told_other(line: &[u8], said: &Statement, mistake: Mistake) {
    plain(b"not understood: ");
    plain(line);
    plain(b" (");
    told_why(line, said, mistake);
    plain(b")\n");
}

impl Run {
    // What is wrong with a line; a wake, too, needs room.
    pub fn mistake(&self, said: &Statement) -> Option<Mistake> {
        if said.mistake.is_none() && said.name == Name::Wake && MOST <= self.noted {
            return Some(Mistake::NoWakes);
        }
        said.mistake
    }

    // A line that cannot be performed, by the form by which it goes furthest.
    pub fn mistaken(&mut self, line: &[u8], said: &Statement, mistake: Mistake) {
        if self.tells() {
            put_one(b"line %a: ", self.line);
            if mistake.is_refused() {
                told_refused(line, said, mistake);
            } else {
                told_other(line, said, mistake);
            }
        }
        if mistake.is_refused() {
            self.counts.refused = self.counts.refused.saturating_add(1);
        } else {
            self.counts.not_understood = self.counts.not_understood.saturating_add(1);
        }
    }
}
