// A step's line: a letter, then numbers between spaces, the last of them what is said.
use crate::letters::Step;

// The most numbers that a step has, what is said among them; those that it does not have are 0.
pub const NUMBERS: usize = 6;

pub type Numbers = [u64; NUMBERS];

#[derive(Clone, Copy)]
pub struct Line {
    pub step: Step,
    pub numbers: Numbers,
    pub said: u64,
}

// None where the line is malformed: no step's letter, a word that is no number, or another number of them.
pub fn parsed(line: &[u8]) -> Option<Line> {
    let (&letter, rest) = line.split_first()?;
    let step = Step::of(letter)?;
    let mut numbers = [0; NUMBERS];
    let mut said = 0;
    let mut count: usize = 0;
    for word in rest.split(|&byte| byte == b' ') {
        if !word.is_empty() {
            said = text::number(word).ok()?;
            *numbers.get_mut(count)? = said;
            count += 1;
        }
    }
    if count != step.arity() {
        return None;
    }
    Some(Line {
        step,
        numbers,
        said,
    })
}
