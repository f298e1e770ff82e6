// What a step answers, and the number by which a text says it.

// A number, which is document 01's where a call answers it itself; nothing; or a refusal in the place of a value, by
// document 01's number.
#[derive(Clone, Copy)]
pub enum Answer {
    Number(u64),
    Nothing,
    Refused(u64),
}

// Above every number of a thread and every time used here, and below the numbers of refusals beside it.
const NOTHING: u64 = 1_000_000_000_000;

impl From<Answer> for u64 {
    fn from(answer: Answer) -> Self {
        match answer {
            Answer::Number(number) => number,
            Answer::Nothing => NOTHING,
            Answer::Refused(number) => NOTHING.saturating_add(number),
        }
    }
}

// What is there, if it is.
impl From<Option<u64>> for Answer {
    fn from(found: Option<u64>) -> Self {
        match found {
            Some(number) => Self::Number(number),
            None => Self::Nothing,
        }
    }
}
