// Calls on the queue.
use crate::answers::Answer;
use crate::letters::{QueueCall, Selection};
use crate::places::{CURRENT, Case, SELECTION, WINDOW, records};
use crate::reading::Numbers;
use board::{board_enqueue, board_enqueue_front, board_remove, board_select};
use board_words::{MIN_PASS_LOW, MIN_PASS_TAG, SELECTED_ID, SELECTED_TAG, SELECTION_WORDS};
use codec::Row;
use ready_index::{MAX_PATH, PATH_STEP_WORDS};

// Whom a selection names, if anybody.
fn named(row: &Row) -> Option<u64> {
    if row[SELECTED_TAG] == 0 {
        return None;
    }
    Some(row[SELECTED_ID])
}

// The low word of the lowest fair pass: no pass here has a high one.
fn lowest(row: &Row) -> Option<u64> {
    if row[MIN_PASS_TAG] == 0 {
        return None;
    }
    Some(row[MIN_PASS_LOW])
}

impl Case<'_> {
    pub fn move_thread(&mut self, call: QueueCall, id: u64, cpu: u8) -> u64 {
        let mut path = [[0; PATH_STEP_WORDS]; MAX_PATH];
        let t = records(self.rows);
        match call {
            QueueCall::Enqueue => board_enqueue(self.queue, t, &mut path, id, cpu),
            QueueCall::EnqueueFront => board_enqueue_front(self.queue, t, &mut path, id, cpu),
            QueueCall::Remove => board_remove(self.queue, t, &mut path, id, cpu),
        }
    }

    // A selection on the window; what it answers stays in the scratch.
    fn peek(&mut self, a: Numbers, cpu: u8) -> u64 {
        let mut path = [[0; PATH_STEP_WORDS]; MAX_PATH];
        let mut answer = [0; SELECTION_WORDS];
        let mut w = self.words(WINDOW);
        let row = self.row(CURRENT);
        let t = records(self.rows);
        let number = board_select(
            self.queue,
            t,
            &mut path,
            cpu,
            a[0],
            &mut w,
            a[1],
            &row,
            &mut answer,
        );
        self.put(WINDOW, &w);
        if number == 0 {
            self.put(SELECTION, &answer);
        }
        number
    }

    // A selection for processor 0.
    fn peeked(&mut self, a: Numbers) -> Result<Row, Answer> {
        match self.peek(a, 0) {
            0 => Ok(self.row(SELECTION)),
            number => Err(Answer::Refused(number)),
        }
    }

    fn told(&mut self, told: Selection, a: Numbers) -> Result<Answer, Answer> {
        match told {
            Selection::Number => Ok(Answer::Number(self.peek(a, (a[2] % 256) as u8))),
            Selection::Named => Ok(Answer::from(named(&self.peeked(a)?))),
            Selection::Lowest => Ok(Answer::from(lowest(&self.peeked(a)?))),
        }
    }

    pub fn select(&mut self, told: Selection, a: Numbers) -> Answer {
        match self.told(told, a) {
            Ok(answer) | Err(answer) => answer,
        }
    }
}
