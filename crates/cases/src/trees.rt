// Calls on one tree of the ready index.
use crate::answers::Answer;
use crate::letters::TreeCall;
use crate::places::{Case, records};
use crate::reading::Numbers;
use codec::Row;
use ready_index::{MAX_PATH, PATH_STEP_WORDS, contains, first, insert, remove};
use refusal::Refusal;

fn number(link: Option<u64>) -> Answer {
    match link {
        None => Answer::Nothing,
        Some(n) => Answer::Number(n),
    }
}

fn rooted(answer: Result<Option<u64>, Refusal>) -> Answer {
    match answer {
        Ok(root) => number(root),
        Err(refusal) => Answer::Refused(refusal.number()),
    }
}

fn held(answer: Result<bool, Refusal>) -> Answer {
    match answer {
        Ok(holds) => Answer::Number(u64::from(holds)),
        Err(refusal) => Answer::Refused(refusal.number()),
    }
}

fn root(given: u64, n: u64) -> Option<u64> {
    if given == 0 {
        return None;
    }
    Some(n)
}

impl TreeCall {
    fn called(self, t: &mut [Row], a: Numbers) -> Answer {
        let mut path = [[0; PATH_STEP_WORDS]; MAX_PATH];
        match self {
            Self::Insert => rooted(insert(t, &mut path, Some(a[0]), a[1])),
            Self::Remove => rooted(remove(t, &mut path, Some(a[0]), a[1])),
            Self::Contains => held(contains(t, Some(a[0]), a[1])),
            Self::Least => rooted(first(t, root(a[0], a[1]))),
        }
    }
}

impl Case<'_> {
    pub fn tree(&mut self, call: TreeCall, a: Numbers) -> Answer {
        call.called(records(self.rows), a)
    }
}
