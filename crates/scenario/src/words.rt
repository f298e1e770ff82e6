// Words that a scenario overwrites, to damage or to prepare. What was there is kept. (A statement's form has limits, so
// that a place that does not exist is not come to.)
use crate::refusals::Refusal;
use crate::run::{Board, Run};
use std::mem;

// What stood there, where there is such a place.
fn overwritten(words: &mut [u64], k: u64, value: u64) -> Option<u64> {
    let word = words.get_mut(k as usize)?;
    Some(mem::replace(word, value))
}

impl Run {
    fn keep_former(&mut self, former: Option<u64>) {
        if let Some(word) = former {
            self.former = word;
        }
    }

    pub fn set_window_word(&mut self, k: u64, value: u64) {
        let former = overwritten(&mut self.window, k, value);
        self.keep_former(former);
    }

    // A turn counter, 0 the back one, 1 the front one.
    pub fn set_turns_word(&mut self, k: u64, value: u64) {
        let former = overwritten(&mut self.turns, k, value);
        self.keep_former(former);
    }
}

impl Board<'_> {
    pub fn set_queue_word(&mut self, row: u64, k: u64, value: u64) {
        if let Some(words) = self.queue.get_mut(row as usize) {
            let former = overwritten(words, k, value);
            self.run.keep_former(former);
        }
    }

    pub fn set_record_word(&mut self, id: u64, k: u64, value: u64) -> Result<(), Refusal> {
        match self.table.get_mut(id as usize) {
            Some(words) => {
                let former = overwritten(words, k, value);
                self.run.keep_former(former);
                Ok(())
            }
            None => Err(Refusal::NoRecord),
        }
    }

    // Of the words that the list of the lift record has.
    pub fn set_list_word(&mut self, k: u64, value: u64) -> Result<(), Refusal> {
        if self.recorded().len() <= k as usize {
            return Err(Refusal::NoWord);
        }
        let former = overwritten(self.list, k, value);
        self.run.keep_former(former);
        Ok(())
    }
}
