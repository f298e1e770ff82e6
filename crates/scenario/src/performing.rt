// What each statement does, and the answer that it prints.
use crate::printing::{plain, put, put_one};
use crate::refusals::Refusal;
use crate::run::{Board, Choice, Run, Wake};
use crate::statements::{Name, Statement};
use codec::Row;
use lent_queue::QueueRows;

impl Run {
    // A wake is kept for the next run. (A line that finds no room for it is not performed.)
    fn note(&mut self, wake: Wake) {
        if let Some(place) = self.wakes.get_mut(self.noted) {
            *place = wake;
            self.noted += 1;
        }
    }

    // A statement on the board alone, by the values of the words behind its name; the last arm is that of TurnsWord.
    fn perform(&mut self, said: &Statement) -> Result<(), Refusal> {
        let [_, a, b, c, d, e, f, g, h, ..] = said.values;
        match said.name {
            Name::Window => return self.set_window(&[a, b, c, d, e, f, g, h]),
            Name::Switch => {
                self.expired = a != 0;
                return self.switch(b != 0, c != 0);
            }
            Name::Wake => self.note(Wake {
                thread: a,
                work: b,
                reading: d,
            }),
            Name::Records => self.records = a,
            Name::Explain => self.explains = a != 0,
            Name::WindowWord => self.set_window_word(b, c),
            _ => self.set_turns_word(b, c),
        }
        Ok(())
    }

    // The answer of a statement; a selection, a run and a part of the lift record have theirs behind them.
    pub fn told(&self, name: Name) {
        match name {
            Name::Select | Name::Run | Name::Lift | Name::Slide => (),
            Name::Expired => plain(if self.expired { b": yes\n" } else { b": no\n" }),
            Name::Switch => self.choice.told(),
            Name::Deadline => told_deadline(self.deadline),
            Name::Lengths => {
                let lengths = self.lengths;
                put(
                    b": real time %a, fair %b, budget %c\n",
                    &[lengths.real_time, lengths.fair, lengths.budget],
                );
            }
            Name::Wake => plain(b": noted\n"),
            Name::WindowWord
            | Name::TurnsWord
            | Name::RecordWord
            | Name::QueueWord
            | Name::LiftWord => {
                put_one(b": was %a\n", self.former);
            }
            Name::Fifo | Name::Fair | Name::Budget | Name::Idle => {
                put_one(b": thread %a\n", self.threads.saturating_sub(1));
            }
            _ => plain(b": made\n"),
        }
    }
}

impl Choice {
    fn told(self) {
        plain(match self {
            Self::Stay => b": stay\n",
            Self::ToBack => b": switch, the running thread to the back\n",
            Self::ToFront => b": switch, the running thread to the front\n",
        });
    }
}

fn told_deadline(deadline: Option<u64>) {
    match deadline {
        Some(reading) => put_one(b": %A\n", reading),
        None => plain(b": none\n"),
    }
}

impl Board<'_> {
    // A selection, explained; then the running thread's key, which the switch rule compares with it.
    fn explained(&mut self, now: u64, id: u64, runs: bool) -> Result<(), Refusal> {
        self.selected(id, runs, now)?;
        self.explain(now)?;
        self.keyed(id, runs, now)
    }

    fn take_out(&mut self, id: u64) -> Result<(), Refusal> {
        self.remove(id)?;
        self.run.removed(id);
        Ok(())
    }

    // On the records that there are; the last arm is that of Run.
    fn perform_on_records(&mut self, said: &Statement) -> Result<(), Refusal> {
        let [_, a, b, c, d, ..] = said.values;
        match said.name {
            Name::Prepare => self.prepare(a, b != 0, c),
            Name::Account => self.account(a, b, c, d),
            Name::Finish => self.finish(a),
            Name::Expired => self.expired(a),
            Name::RecordWord => self.set_record_word(b, c, d),
            Name::Enqueue => self.enqueue(a),
            Name::EnqueueFront => self.enqueue_front(a),
            Name::Remove => self.take_out(a),
            Name::Select => self.explained(a, d, b != 0),
            Name::Deadline => self.armed(a, true, b),
            _ => self.run_until(a),
        }
    }

    fn on_records(&mut self, said: &Statement) -> Result<(), Refusal> {
        let count = self.run.records as usize;
        if self.table.len() < count {
            return Ok(());
        }
        let table = &mut *self.table;
        on(self.queue, &mut table[..count], self.list, self.run, said)
    }

    // On the queue alone, or on the list of the lift record; the last arm is that of QueueWord.
    fn perform_on_list(&mut self, said: &Statement) -> Result<(), Refusal> {
        let [_, a, b, c, d, ..] = said.values;
        match said.name {
            Name::Lift => return self.lift(a, b),
            Name::Slide => return self.slide(a),
            Name::LiftWord => return self.set_list_word(b, c),
            Name::Lengths => self.lengths(),
            _ => self.set_queue_word(b, c, d),
        }
        Ok(())
    }

    // A statement on the board alone, on queue or list, on the table's records, or one record more.
    pub fn perform(&mut self, line: &[u8], said: &Statement) -> Result<(), Refusal> {
        match said.name {
            Name::Window | Name::Switch | Name::Wake | Name::Records => self.run.perform(said),
            Name::Explain | Name::WindowWord | Name::TurnsWord => self.run.perform(said),
            Name::Lift | Name::Slide | Name::LiftWord => self.perform_on_list(said),
            Name::Lengths | Name::QueueWord => self.perform_on_list(said),
            Name::Fifo | Name::Fair | Name::Budget | Name::Idle => self.thread(line, said),
            _ => self.on_records(said),
        }
    }
}

fn on(
    queue: &mut QueueRows,
    table: &mut [Row],
    list: &mut [u64],
    run: &mut Run,
    said: &Statement,
) -> Result<(), Refusal> {
    let mut board = Board {
        queue,
        table,
        list,
        run,
    };
    board.perform_on_records(said)
}
