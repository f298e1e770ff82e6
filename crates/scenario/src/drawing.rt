// What a run draws as it goes on, as SVG: in each thread's lane a bar for each stretch and a thin bar for each time
// that it waits, and the protected windows.
use crate::printing::{mode, plain, put, put_one};
use crate::run::{Output, Run};
use crate::scale::{RIGHT, TOP, across, down, period_end};
use crate::shapes;
use crate::shapes::{THIN_HEIGHT, in_milliseconds, mark, time_width};
use window_words::KeyWords;

// A bar that is shorter is drawn so long; one that is longer has room for a mark, and for its mode.
const LEAST: u64 = 10;

const LEAST_SHADED: u64 = 20;

const MARKED: u64 = 40;

const WORDED: u64 = 590;

const WORDED_STRICT: u64 = 700;

// The mode with the longest name, by the board's number.
const STRICT: u64 = 0;

// Where the mode stands in a bar.
const MODE_RIGHT: u64 = 50;

const MODE_DOWN: u64 = 140;

// The height of bars, and where a thin one lies between top and bottom of the others.
const BAR_HEIGHT: u64 = 200;

const THIN_DOWN: u64 = 80;

// How wide a label of protection is beside its time.
const DUE_WIDTH: u64 = 1_300;

// Since when protection is due; the label starts or ends at its place.
fn due_at(place: u64, anchor: &[u8], reading: u64) {
    put_one(b"<text x='%a' y='440' fill='#b03030' text-anchor='", place);
    plain(anchor);
    in_milliseconds(b"'>protection due at %@ ms</text>\n", &[0], reading);
}

// A protected window, over all lanes.
fn shaded(left: u64, right: u64, bottom: u64) {
    let width = right.saturating_sub(left).max(LEAST_SHADED);
    shapes::shade([left, TOP, width, bottom.saturating_sub(TOP)]);
}

// The mode's name, where there is one and the bar has room for it.
fn mode_in(left: u64, width: u64, y: u64, key: &KeyWords) {
    let its_mode = key[window_words::KEY_MODE];
    if key[window_words::KEY_TAG] == 0 || width < WORDED {
        return;
    }
    if its_mode == STRICT && width < WORDED_STRICT {
        return;
    }
    put(
        b"<text x='%a' y='%b' fill='white' font-size='100'>",
        &[left.saturating_add(MODE_RIGHT), y.saturating_add(MODE_DOWN)],
    );
    mode(its_mode, b"%@</text>\n");
}

// A bar, and a mark where a selection chooses, where the bar has room for it.
fn bar_at(left: u64, width: u64, y: u64, hook: Option<u64>) {
    shapes::bar([left, y, width, BAR_HEIGHT], hook);
    if MARKED <= width {
        mark(left, y);
    }
}

// A thin bar in a lane, from a place to another.
fn thin_bar(left: u64, right: u64, lane: u64, hook: Option<u64>) {
    if right <= left {
        return;
    }
    let y = down(lane).saturating_add(THIN_DOWN);
    shapes::thin_bar([left, y, right - left, THIN_HEIGHT], hook);
}

impl Run {
    // That label where there is room for it: up to the run's end at most, and behind the last such label.
    fn label(&mut self, left: u64) {
        let width = time_width(self.now).saturating_add(DUE_WIDTH);
        let start = left.min(RIGHT.saturating_sub(width));
        if start < self.picture.labelled {
            return;
        }
        if start < left {
            due_at(RIGHT, b"end", self.now);
        } else {
            due_at(left, b"start", self.now);
        }
        self.picture.labelled = start.saturating_add(width);
    }

    // From now to a period's end.
    fn shade_to(&mut self, end: u64) {
        let span = self.picture.span;
        let left = across(span, self.now);
        shaded(left, across(span, end), down(self.picture.lanes));
        self.label(left);
        self.picture.shaded = end;
    }

    // Protection is due where a protected thread asks, and what is left of the period is no more than what is left of
    // the floor.
    fn is_due(&self, end: u64) -> bool {
        let floor = self.window[window_words::FLOOR_LEFT];
        if self.selected[board_words::SELECTION_PROTECTED] == 0 || floor == 0 {
            return false;
        }
        end.saturating_sub(floor) <= self.now
    }

    // Once in a period.
    fn shade(&mut self) {
        let end = period_end(self.window[window_words::WINDOW_PERIOD], self.now);
        if self.picture.shaded < end && self.is_due(end) {
            self.shade_to(end);
        }
    }

    // A stretch of the running thread, in its lane.
    fn draw_stretch(&self, end: u64) {
        let id = self.current;
        if self.picture.lanes <= id {
            return;
        }
        let left = across(self.picture.span, self.now);
        let right = across(self.picture.span, end);
        let width = right.saturating_sub(left).max(LEAST);
        bar_at(left, width, down(id), self.hook(id));
        mode_in(left, width, down(id), &self.key);
    }

    pub fn bar(&mut self, end: u64) {
        if self.draws() {
            self.shade();
            self.draw_stretch(end);
        }
    }

    // The time that a thread waits, from a reading up to now.
    fn draw_wait(&self, id: u64, since: u64) {
        if self.draws() && id < self.picture.lanes {
            let span = self.picture.span;
            thin_bar(
                across(span, since),
                across(span, self.now),
                id,
                self.hook(id),
            );
        }
    }

    fn set_waits(&mut self, id: u64, since: Option<u64>) {
        if let Some(thread) = self.each.get_mut(id as usize) {
            thread.waits = since;
        }
    }

    fn waits(&self, id: u64) -> Option<u64> {
        self.each.get(id as usize)?.waits
    }

    // A thread that was enqueued waits from now on.
    pub fn start_waiting(&mut self, id: u64) {
        self.set_waits(id, Some(self.now));
    }

    // A thread waits no longer.
    pub fn stop_waiting(&mut self, id: u64) {
        if let Some(since) = self.waits(id) {
            self.draw_wait(id, since);
        }
        self.set_waits(id, None);
    }

    // A statement took it out of the queue.
    pub fn removed(&mut self, id: u64) {
        self.set_waits(id, None);
    }

    // A thread that waits where a run ends is drawn up to there, and goes on from there in the next one.
    fn keep_waiting(&mut self, id: u64) {
        if self.waits(id).is_some() {
            self.stop_waiting(id);
            self.start_waiting(id);
        }
    }

    pub fn all_keep_waiting(&mut self) {
        for id in (0..self.picture.lanes).rev() {
            self.keep_waiting(id);
        }
    }

    // A new run that draws, by the size of one that did not.
    pub fn drawn(&self) -> Self {
        let mut run = Self::new(Output::Picture);
        run.picture.span = self.now;
        run.picture.lanes = self.threads;
        run
    }
}
