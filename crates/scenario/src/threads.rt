// New threads: their rows, names and hooks.
use crate::printing::SPACE;
use crate::refusals::{Refusal, made};
use crate::run::{Board, Run};
use crate::statements::{Name, Statement, Values};
use codec::Row;

// The policies' numbers in a row.
const FIFO: u64 = 0;

const FAIR: u64 = 1;

const BUDGET: u64 = 2;

const IDLE: u64 = 3;

const MIDDLE_BAND: u64 = 128;

const USUAL_WEIGHT: u64 = 16;

// A thread of processor 0 that stands in no queue and had no turn yet.
fn fresh(policy: u64, role: u64) -> Row {
    let mut row = [0; policy_words::ROW_WORDS];
    row[policy_words::POLICY_TAG] = policy;
    row[policy_words::RUNTIME_TAG] = policy;
    row[policy_words::BAND] = MIDDLE_BAND;
    row[policy_words::ROLE_TAG] = role;
    row[policy_words::WEIGHT] = USUAL_WEIGHT;
    row[codec::HEIGHT] = 1;
    row
}

fn fifo(priority: u64, role: u64) -> Row {
    let mut row = fresh(FIFO, role);
    row[policy_words::FIFO_PRIORITY] = priority;
    row
}

// With a whole slice.
fn fair(backend: u64, weight: u64, slice: u64, role: u64) -> Row {
    let mut row = fresh(FAIR, role);
    row[policy_words::WEIGHT] = weight;
    row[policy_words::QUANTUM] = slice;
    row[policy_words::BACKEND_TAG] = backend;
    row[policy_words::RUNTIME_THIRD] = slice;
    row
}

// Full, and with no epoch yet.
fn budget(budget: u64, period: u64, burst: u64, role: u64) -> Row {
    let mut row = fresh(BUDGET, role);
    row[policy_words::BUDGET_TAG] = 1;
    row[policy_words::BUDGET_NS] = budget;
    row[policy_words::BUDGET_PERIOD] = period;
    row[policy_words::BUDGET_BURST] = burst;
    row[policy_words::RUNTIME_THIRD] = budget;
    row[policy_words::RUNTIME_FOURTH] = burst;
    row
}

// By the words of the statement's form.
fn row(name: Name, values: &Values) -> Row {
    let [_, _, _, a, b, c, d, ..] = *values;
    match name {
        Name::Fifo => fifo(a, b),
        Name::Fair => fair(a, b, c, d),
        Name::Budget => budget(a, b, c, d),
        _ => fresh(IDLE, 0),
    }
}

// The letter is the form's last word; 0 where the line ends before it.
fn hook(name: Name, values: &Values) -> Option<u64> {
    let letter = match name {
        Name::Fifo => values[7],
        Name::Fair | Name::Budget => values[9],
        _ => values[5],
    };
    match letter {
        0 => None,
        _ => Some(letter),
    }
}

// A thread's parameters.
fn judged(name: Name, values: &Values) -> Result<(), Refusal> {
    let [_, _, _, budget, period, burst, ..] = *values;
    if name != Name::Budget {
        return Ok(());
    }
    let mut words = [0; record_entries::BUDGET_WORDS];
    made(record_entries::budget_parameters_new(budget, period, burst, &mut words))
}

impl Run {
    // It always works; a board starts with it.
    fn idles(&mut self, id: u64) {
        self.set_work(id, u64::MAX);
        self.idle = Some(id);
        self.current = id;
        self.running = true;
    }

    // The name goes behind the others.
    fn name(&mut self, word: &[u8]) {
        let place = text::nth(&self.names, SPACE, self.threads as usize);
        text::fill(&mut self.names, place.start, b"%@ ", &[0], word);
    }

    // By the second word of its line.
    fn name_by(&mut self, line: &[u8]) {
        let first = text::word_after(line, 0, SPACE);
        let name = text::word_after(line, first.end, SPACE);
        if name.end <= line.len() {
            self.name(&line[name.start..name.end]);
        }
    }

    // With one thread more, and a record for it at least.
    fn grow(&mut self, id: u64, hook: Option<u64>) {
        if let Some(thread) = self.each.get_mut(id as usize) {
            thread.hook = hook;
        }
        self.threads = id.saturating_add(1);
        self.records = self.records.max(self.threads);
    }
}

impl Board<'_> {
    // Where the table has no room for it, it has no record.
    pub fn thread(&mut self, line: &[u8], said: &Statement) -> Result<(), Refusal> {
        judged(said.name, &said.values)?;
        let id = self.run.threads;
        if let Some(place) = self.table.get_mut(id as usize) {
            *place = row(said.name, &said.values);
        }
        self.run.name_by(line);
        self.run.grow(id, hook(said.name, &said.values));
        if said.name == Name::Idle {
            self.run.idles(id);
        }
        Ok(())
    }
}
