// Calls on one list, that of the fair threads of processor 0, with the length afterwards for an answer.
use crate::answers::Answer;
use crate::letters::ListCall;
use crate::places::{Case, records};
use crate::reading::Numbers;
use codec::Row;
use lists::{push, push_front, remove};
use refusal::Refusal;
use thread::{CpuIndex, QueueMembership, ThreadQueue};

fn end(n: u64) -> Option<u64> {
    if n == u64::from(Answer::Nothing) {
        return None;
    }
    Some(n)
}

// The length afterwards.
fn length(answer: Result<ThreadQueue, Refusal>) -> Answer {
    match answer {
        Ok(list) => Answer::Number(list.len),
        Err(refusal) => Answer::Refused(refusal.number()),
    }
}

impl ListCall {
    fn called(self, t: &mut [Row], list: ThreadQueue, id: u64) -> Result<ThreadQueue, Refusal> {
        let fair = QueueMembership::ReadyFair { cpu: CpuIndex(0) };
        match self {
            Self::Push => push(t, list, id, fair),
            Self::PushFront => push_front(t, list, id, fair),
            Self::Remove => remove(t, list, id, fair),
        }
    }
}

impl Case<'_> {
    pub fn list(&mut self, call: ListCall, a: Numbers) -> Answer {
        let list = ThreadQueue {
            head: end(a[0]),
            tail: end(a[1]),
            len: a[2],
        };
        length(call.called(records(self.rows), list, a[3]))
    }
}
