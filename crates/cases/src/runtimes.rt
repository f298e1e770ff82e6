// Calls of state/runtime.rs on the table. The scratch has the turn counters, a demand, two keys and the deadline.
use crate::answers::Answer;
use crate::letters::TurnCall;
use crate::places::{Case, DEMAND, DUE, KEY, READY, TURNS, WINDOW, record, records};
use crate::reading::Numbers;
use board::{board_account, board_deadline, board_finish, board_prepare, board_switch};
use board_words::{CHOICE_WORDS, ChoiceWords};

// 0 where it does not switch; 1 where it does, and 3 where the running thread then goes to the front.
fn chosen(number: u64, choice: ChoiceWords) -> Answer {
    if number != 0 {
        return Answer::Refused(number);
    }
    Answer::Number(match choice {
        [0, _] => 0,
        [_, 0] => 1,
        _ => 3,
    })
}

impl Case<'_> {
    fn prepare(&mut self, a: Numbers) -> u64 {
        let mut turns = self.words(TURNS);
        let number = board_prepare(records(self.rows), a[0], a[1], a[2], &mut turns);
        self.put(TURNS, &turns);
        number
    }

    fn account(&mut self, a: Numbers) -> u64 {
        let mut w = self.words(WINDOW);
        let number = board_account(records(self.rows), a[0], &mut w, a[1], a[2], a[3]);
        self.put(WINDOW, &w);
        number
    }

    fn choose(&self, a: Numbers) -> Answer {
        let ready = self.words(READY);
        let key = self.words(KEY);
        let row = self.row(record(a[0]));
        let mut choice = [0; CHOICE_WORDS];
        let number = board_switch(&ready, &key, &row, a[1], a[2], a[3], &mut choice);
        chosen(number, choice)
    }

    fn deadline(&mut self, a: Numbers) -> u64 {
        let mut due = self.words(DUE);
        let key = self.words(KEY);
        let demand = self.words(DEMAND);
        let mut w = self.words(WINDOW);
        let t = records(self.rows);
        let number = board_deadline(
            t, a[0], a[1], &key, &mut w, a[2], a[3], a[4], &demand, &mut due,
        );
        self.put(WINDOW, &w);
        self.put(DUE, &due);
        number
    }

    pub fn turn(&mut self, call: TurnCall, a: Numbers) -> Answer {
        match call {
            TurnCall::Prepare => Answer::Number(self.prepare(a)),
            TurnCall::Account => Answer::Number(self.account(a)),
            TurnCall::Finish => Answer::Number(board_finish(records(self.rows), a[0])),
            TurnCall::Choose => self.choose(a),
            TurnCall::Deadline => Answer::Number(self.deadline(a)),
        }
    }
}
