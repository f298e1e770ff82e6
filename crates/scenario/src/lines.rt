// A line is read, quoted with its number, performed and counted. A `#` that no digit follows starts a comment.
use crate::printing::{SPACE, plain, put_one};
use crate::run::{Board, Run};
use crate::statements::Statement;

fn is_comment(line: &[u8], at: usize) -> bool {
    match line.get(at..) {
        Some([b'#', next, ..]) => !next.is_ascii_digit(),
        Some([b'#']) => true,
        _ => false,
    }
}

// Where the last word before a comment ends.
fn last_end(line: &[u8]) -> usize {
    let mut last = 0;
    for _ in 0..line.len() {
        let word = text::word_after(line, last, SPACE);
        if word.start == word.end || is_comment(line, word.start) {
            return last;
        }
        last = word.end;
    }
    last
}

impl Run {
    fn quote(&self, line: &[u8]) {
        if self.tells() {
            put_one(b"line %a: ", self.line);
            plain(line);
        }
    }
}

impl Board<'_> {
    fn understood(&mut self, line: &[u8], said: &Statement) {
        self.run.quote(line);
        let answer = self.perform(line, said);
        if self.run.tells() {
            match answer {
                Ok(()) => self.run.told(said.name),
                Err(refusal) => refusal.told(),
            }
        }
        if answer.is_err() {
            self.run.counts.refused = self.run.counts.refused.saturating_add(1);
        }
    }

    // A line of words.
    fn worded(&mut self, line: &[u8]) {
        let said = self.run.said(line);
        self.run.counts.statements = self.run.counts.statements.saturating_add(1);
        match self.run.mistake(&said) {
            None => self.understood(line, &said),
            Some(mistake) => self.run.mistaken(line, &said, mistake),
        }
    }

    pub fn line(&mut self, line: &[u8]) {
        self.run.line = self.run.line.saturating_add(1);
        let start = text::start_of(line, 0, SPACE);
        let end = last_end(line);
        if start < end && end <= line.len() {
            self.worded(&line[start..end]);
        }
    }
}
