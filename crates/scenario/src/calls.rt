// The calls of crate board on a run. Each leaves its answer there, a refused one too, and says if it is refused. A call
// stands alone in its function, since what its contract says is carried through all that follows.
use crate::refusals::{Refusal, made};
use crate::run::{Board, Choice, Lengths, Run};
use board_words::{ChoiceWords, ReadyWords, SelectionWords};
use codec::Row;
use lent_queue::QueueRows;
use ready_index::{MAX_PATH, PATH_STEP_WORDS};
use window_words::DemandWords;

fn choice_in(words: ChoiceWords) -> Choice {
    match words {
        [0, _] => Choice::Stay,
        [_, 0] => Choice::ToBack,
        _ => Choice::ToFront,
    }
}

fn deadline_in(words: policy_words::DeadlineWords) -> Option<u64> {
    match words {
        [0, _] => None,
        [_, reading] => Some(reading),
    }
}

// The demand of a selection.
fn demand_in(w: &SelectionWords) -> DemandWords {
    [
        w[board_words::SELECTION_PROTECTED],
        w[board_words::SELECTION_FAIR],
        w[board_words::SELECTION_SENSITIVE],
        w[board_words::SELECTION_ELIGIBLE],
        w[board_words::SELECTION_ANY],
    ]
}

// What the switch rule compares: a selection's first words.
fn ready_in(w: &SelectionWords) -> ReadyWords {
    [w[0], w[1], w[2], w[3], w[4], w[5], w[6], w[7], w[8]]
}

impl Run {
    // A thread's key under the demand of the last selection.
    pub fn key_of(&mut self, row: &Row, now: u64) -> Result<(), Refusal> {
        let demand = demand_in(&self.selected);
        self.key = [0; window_words::KEY_WORDS];
        made(board::board_key(&mut self.window, now, row, &demand, &mut self.key))
    }

    // The key of the running thread; none where there is none.
    fn runner_key(&mut self, runs: bool, now: u64) -> Result<(), Refusal> {
        if runs {
            let row = self.candidate;
            return self.key_of(&row, now);
        }
        self.key = [0; window_words::KEY_WORDS];
        Ok(())
    }

    // The switch rule between the last selection and the running thread.
    pub fn switch(&mut self, yielding: bool, tail: bool) -> Result<(), Refusal> {
        let ready = ready_in(&self.selected);
        let mut answer = [0; board_words::CHOICE_WORDS];
        let number = board::board_switch(
            &ready,
            &self.key,
            &self.candidate,
            u64::from(self.expired),
            u64::from(yielding),
            u64::from(tail),
            &mut answer,
        );
        self.choice = choice_in(answer);
        made(number)
    }

    // With the candidate as the running thread, if one runs.
    fn select(
        &mut self,
        q: &mut QueueRows,
        t: &mut [Row],
        now: u64,
        runs: bool,
    ) -> Result<(), Refusal> {
        let mut path = [[0; PATH_STEP_WORDS]; MAX_PATH];
        self.selected = [0; board_words::SELECTION_WORDS];
        made(board::board_select(
            q,
            t,
            &mut path,
            0,
            now,
            &mut self.window,
            u64::from(runs),
            &self.candidate,
            &mut self.selected,
        ))
    }

    // The deadline of the running thread. There is competition where anybody is queued.
    fn arm(&mut self, t: &mut [Row], id: u64, now: u64) -> Result<(), Refusal> {
        let demand = demand_in(&self.selected);
        let mut answer = [0; policy_words::DEADLINE_WORDS];
        let number = board::board_deadline(
            t,
            id,
            now,
            &self.key,
            &mut self.window,
            self.lengths.real_time.saturating_add(self.lengths.fair),
            self.lengths.budget,
            self.selected[board_words::SELECTED_TAG],
            &demand,
            &mut answer,
        );
        self.deadline = deadline_in(answer);
        made(number)
    }

    // A new window.
    pub fn set_window(&mut self, config: &window_words::ConfigWords) -> Result<(), Refusal> {
        made(board::board_window(&mut self.window, config))
    }
}

impl Board<'_> {
    pub fn enqueue(&mut self, id: u64) -> Result<(), Refusal> {
        let mut path = [[0; PATH_STEP_WORDS]; MAX_PATH];
        made(board::board_enqueue(self.queue, self.table, &mut path, id, 0))
    }

    pub fn enqueue_front(&mut self, id: u64) -> Result<(), Refusal> {
        let mut path = [[0; PATH_STEP_WORDS]; MAX_PATH];
        made(board::board_enqueue_front(self.queue, self.table, &mut path, id, 0))
    }

    pub fn remove(&mut self, id: u64) -> Result<(), Refusal> {
        let mut path = [[0; PATH_STEP_WORDS]; MAX_PATH];
        made(board::board_remove(self.queue, self.table, &mut path, id, 0))
    }

    pub fn prepare(&mut self, id: u64, front: bool, now: u64) -> Result<(), Refusal> {
        made(board::board_prepare(self.table, id, u64::from(front), now, &mut self.run.turns))
    }

    pub fn account(&mut self, id: u64, mode: u64, start: u64, end: u64) -> Result<(), Refusal> {
        made(board::board_account(self.table, id, &mut self.run.window, mode, start, end))
    }

    pub fn finish(&mut self, id: u64) -> Result<(), Refusal> {
        made(board::board_finish(self.table, id))
    }

    pub fn expired(&mut self, id: u64) -> Result<(), Refusal> {
        let mut answer = [0; board_words::FLAG_WORDS];
        let number = board::board_expired(self.table, id, &mut answer);
        self.run.expired = answer[0] != 0;
        made(number)
    }

    // The running thread, refreshed, as selection and keys take it.
    fn candidate(&mut self, id: u64, runs: bool, now: u64) -> Result<(), Refusal> {
        self.run.candidate = [0; policy_words::ROW_WORDS];
        made(board::board_candidate(
            self.table,
            id,
            u64::from(runs),
            now,
            &mut self.run.candidate,
        ))
    }

    // A selection beside a thread, if it runs.
    pub fn selected(&mut self, id: u64, runs: bool, now: u64) -> Result<(), Refusal> {
        self.candidate(id, runs, now)?;
        self.run.select(self.queue, self.table, now, runs)
    }

    // A thread, refreshed, and its key.
    pub fn keyed(&mut self, id: u64, runs: bool, now: u64) -> Result<(), Refusal> {
        self.candidate(id, runs, now)?;
        self.run.runner_key(runs, now)
    }

    pub fn lengths(&mut self) {
        let mut answer = [0; board_words::LENGTH_WORDS];
        board::board_lengths(self.queue, &mut answer);
        let [real_time, fair, budget] = answer;
        self.run.lengths = Lengths {
            real_time,
            fair,
            budget,
        };
    }

    // A selection beside a thread, that thread's key and its deadline.
    pub fn armed(&mut self, id: u64, runs: bool, now: u64) -> Result<(), Refusal> {
        self.selected(id, runs, now)?;
        self.run.runner_key(runs, now)?;
        self.lengths();
        self.run.arm(self.table, id, now)
    }
}
