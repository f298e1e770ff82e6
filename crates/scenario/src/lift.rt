// The lift record: the list of who ran from when to when, and the part of it that a reading and a width name. The list
// is lent; what is kept beside it is the run's.
use crate::printing::{STDOUT, plain, put};
use crate::refusals::{Refusal, made};
use crate::run::{Board, Output, Part, Run, Search};
use files::STDERR;

// A run's words in the list: its start, its end and its thread.
const RUN_WORDS: usize = 3;

// As many as four statements `run` make at most.
const MOST_RUNS: usize = 16_384;

pub const ROOM: usize = MOST_RUNS * RUN_WORDS;

// What the entries store: the place, and of a slide whether it searched afresh.
const PLACE_WORDS: usize = 2;

const SLID_WORDS: usize = 3;

// The entry's answer where a run finds no room.
const BAD_TABLE: u64 = 10;

// Where the part lies among the runs; an empty one lies at a run, or at their end.
fn told_place(runs: u64, part: Part) {
    if part.count == 0 {
        put(b": no run, at %a of %b", &[part.first, runs]);
        return;
    }
    let last = part.first.saturating_add(part.count).saturating_sub(1);
    put(b": runs %a to %b of %c", &[part.first, last, runs]);
}

fn told_how(part: Part) {
    plain(match part.search {
        Search::Lift => b"\n",
        Search::Slide => b", not afresh\n",
        Search::Afresh => b", searched afresh\n",
    });
    if part.count != 0 {
        plain(b"         start            end  thread\n");
    }
}

impl Run {
    // A stretch that was charged is a run, from its first reading up to now, but for the idle thread's. A run that
    // finds no room is counted, and not refused: the scenario goes on.
    pub fn keep(&mut self, list: &mut [u64], start: u64) -> Result<(), Refusal> {
        if self.is_idle(self.current) {
            return Ok(());
        }
        match board::board_append(list, self.runs, start, self.now, self.current) {
            0 => self.runs = self.runs.saturating_add(1),
            BAD_TABLE => self.left_out = self.left_out.saturating_add(1),
            number => return made(number),
        }
        Ok(())
    }
}

impl Board<'_> {
    // The words that the list has.
    pub fn recorded(&self) -> &[u64] {
        let count = (self.run.runs as usize).saturating_mul(RUN_WORDS);
        self.list.get(..count).unwrap_or(&[])
    }

    // So many runs from one on.
    fn told_runs(&self, first: u64, count: u64, template: &[u8]) {
        for words in self
            .list
            .chunks_exact(RUN_WORDS)
            .skip(first as usize)
            .take(count as usize)
        {
            put(template, words);
            if let [_, _, thread] = *words {
                self.run.told_name(thread, b"%@\n");
            }
        }
    }

    // In a text, the part of a search that was not refused: its place, and its runs.
    fn told_part(&self) {
        if self.run.tells() {
            let part = self.run.part;
            told_place(self.run.runs, part);
            told_how(part);
            self.told_runs(part.first, part.count, b"%14A%15B  ");
        }
    }

    // A refused search stores zeros as the place, and so does a refused slide.
    pub fn lift(&mut self, reading: u64, width: u64) -> Result<(), Refusal> {
        let mut place = [0; PLACE_WORDS];
        let number = board::board_lift(self.recorded(), reading, width, &mut place);
        let [first, count] = place;
        self.run.part = Part {
            first,
            count,
            search: Search::Lift,
            reading,
            width,
        };
        made(number)?;
        self.told_part();
        Ok(())
    }

    // From the last lift or slide.
    pub fn slide(&mut self, reading: u64) -> Result<(), Refusal> {
        let Part {
            first,
            count,
            reading: earlier,
            width,
            ..
        } = self.run.part;
        let mut slid = [0; SLID_WORDS];
        let number = board::board_slide(
            self.recorded(),
            width,
            earlier,
            first,
            count,
            reading,
            &mut slid,
        );
        let [first, count, afresh] = slid;
        let search = if afresh == 0 {
            Search::Slide
        } else {
            Search::Afresh
        };
        self.run.part = Part {
            first,
            count,
            search,
            reading,
            width,
        };
        made(number)?;
        self.told_part();
        Ok(())
    }

    // Runs found no room.
    fn told_full(&self, fd: i32) {
        if self.run.left_out != 0 {
            io::write_all(fd, b"the lift record is full: later runs are left out\n");
        }
    }

    // After a file's last line; a record that is asked for is printed whole, for other programs.
    pub fn end(&self) {
        match self.run.output {
            Output::Text => self.told_full(STDOUT),
            Output::Record => {
                self.told_runs(0, self.run.runs, b"%a %b %c ");
                self.told_full(STDERR);
            }
            Output::Nothing | Output::Picture => (),
        }
    }
}
