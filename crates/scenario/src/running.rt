// A run: the board's own cycle until a reading. Who wakes is enqueued; else it is chosen who runs, and that one runs to
// its deadline, to the end of its work or to what comes next.
use crate::printing::{mode, plain, put, put_one};
use crate::refusals::Refusal;
use crate::run::{Board, Choice, Run, Wake};
use window_words::KeyWords;

// A run of more wakes and stretches is stopped.
const MOST_CYCLES: u64 = 4096;

// By the words of its key, which templates name by their letters, from %a on.
fn why(key: &KeyWords) {
    if key[window_words::KEY_TAG] == 0 {
        plain(b"no key                -    -");
        return;
    }
    mode(key[window_words::KEY_MODE], b"%16@");
    put(b"%7c%5d", key);
}

fn until(length: u64, deadline: Option<u64>) {
    put_one(b"%15A", length);
    match deadline {
        Some(reading) => put_one(b"%15A\n", reading),
        None => plain(b"           none\n"),
    }
}

// The line is named again, with why it is not at its end.
fn told_end(line: u64, ended: Result<(), Refusal>) {
    put_one(b"line %a", line);
    match ended {
        Ok(()) => plain(b": stopped\n"),
        Err(refusal) => refusal.told(),
    }
}

impl Run {
    // The wake that comes next, if it is time.
    fn due_wake(&self) -> Option<Wake> {
        let wake = self.coming_wake()?;
        if self.now < wake.reading {
            return None;
        }
        Some(wake)
    }

    // The reading of the wake that comes next; after the last one the end.
    fn coming(&self) -> u64 {
        match self.coming_wake() {
            Some(wake) => wake.reading.min(self.until),
            None => self.until,
        }
    }

    // Nobody takes over; a thread that waits gives way to the idle one.
    fn stay(&mut self) {
        if let Some(idle) = self.idle {
            if !self.running {
                self.current = idle;
                self.running = true;
            }
        }
    }

    // The chosen thread runs.
    fn begin(&mut self) {
        self.current = self.selected[board_words::SELECTED_ID];
        self.running = true;
        self.stop_waiting(self.current);
    }

    // How far the running thread gets: to the end of its work, to what comes next or to its deadline.
    fn reached(&self) -> u64 {
        let done = self.now.saturating_add(self.work(self.current));
        let end = done.min(self.coming());
        match self.deadline {
            Some(reading) => reading.min(end),
            None => end,
        }
    }

    // What the running thread has left; it waits from there on where that is nothing.
    fn worked(&mut self, length: u64) {
        let left = self.work(self.current).saturating_sub(length);
        self.set_work(self.current, left);
        if left == 0 {
            self.running = false;
        }
    }

    // A line: who runs from when, why, for how long, and until which deadline at the latest.
    fn told_stretch(&self, length: u64) {
        if self.tells() {
            put_one(b"%14A  ", self.now);
            self.told_name(self.current, b"%16@");
            why(&self.key);
            until(length, self.deadline);
        }
    }

    // The mode under which the running thread is charged: that of its key, or the last one.
    fn charged_mode(&self) -> u64 {
        if self.key[window_words::KEY_TAG] == 0 {
            return self.mode;
        }
        self.key[window_words::KEY_MODE]
    }

    // A stretch up to a reading is printed or drawn, and done.
    fn pass(&mut self, end: u64) {
        let length = end.saturating_sub(self.now);
        self.told_stretch(length);
        self.bar(end);
        self.worked(length);
        self.mode = self.charged_mode();
        self.now = end;
    }

    // A refusal ends a run, and is counted; so does its length. After this the line has its end.
    fn close(&mut self, ended: Result<(), Refusal>) {
        if self.tells() && (ended.is_err() || self.now < self.until) {
            told_end(self.line, ended);
        }
        if ended.is_err() {
            self.counts.refused = self.counts.refused.saturating_add(1);
        }
    }
}

impl Board<'_> {
    // A thread goes into the queue, and waits.
    fn enter(&mut self, id: u64, front: bool) -> Result<(), Refusal> {
        self.prepare(id, front, self.run.now)?;
        if front {
            self.enqueue_front(id)?;
        } else {
            self.enqueue(id)?;
        }
        self.run.start_waiting(id);
        Ok(())
    }

    // The thread that wakes has work again.
    fn wake(&mut self, wake: Wake) -> Result<(), Refusal> {
        self.run.woken = self.run.woken.saturating_add(1);
        self.run.set_work(wake.thread, wake.work);
        self.enter(wake.thread, false)
    }

    // A selection beside the running thread, explained where that is asked for.
    fn choose(&mut self) -> Result<(), Refusal> {
        self.selected(self.run.current, self.run.running, self.run.now)?;
        if !self.run.explains {
            return Ok(());
        }
        if self.run.tells() {
            put_one(b"at %A", self.run.now);
        }
        self.explain(self.run.now)
    }

    // By the switch rule; a turn that is spent ends.
    fn compare(&mut self) -> Result<(), Refusal> {
        self.keyed(self.run.current, self.run.running, self.run.now)?;
        self.expired(self.run.current)?;
        self.run.switch(false, false)?;
        if self.run.expired {
            self.finish(self.run.current)?;
        }
        Ok(())
    }

    // Whoever gives way is enqueued again, unless its work is done or it is the idle thread.
    fn give_way(&mut self, front: bool) -> Result<(), Refusal> {
        let id = self.run.current;
        if self.run.running && !self.run.is_idle(id) {
            self.enter(id, front)?;
        }
        self.run.begin();
        self.remove(self.run.current)
    }

    // As chosen; who runs leaves the queue.
    fn follow(&mut self) -> Result<(), Refusal> {
        match self.run.choice {
            Choice::Stay => {
                self.run.stay();
                Ok(())
            }
            Choice::ToBack => self.give_way(false),
            Choice::ToFront => self.give_way(true),
        }
    }

    // It is chosen who runs, and until when at the latest.
    fn decide(&mut self) -> Result<(), Refusal> {
        self.choose()?;
        self.compare()?;
        self.follow()?;
        self.armed(self.run.current, self.run.running, self.run.now)
    }

    // A stretch; then its time is charged, and it is kept as a run of the lift record.
    fn stretch(&mut self) -> Result<(), Refusal> {
        let start = self.run.now;
        let end = self.run.reached();
        self.run.pass(end);
        self.account(self.run.current, self.run.mode, start, end)?;
        self.run.keep(self.list, start)
    }

    // A wake or a stretch.
    fn cycle(&mut self) -> Result<(), Refusal> {
        match self.run.due_wake() {
            Some(wake) => self.wake(wake),
            None => {
                self.decide()?;
                self.stretch()
            }
        }
    }

    fn cycles(&mut self) -> Result<(), Refusal> {
        for _ in 0..MOST_CYCLES {
            if self.run.until <= self.run.now {
                return Ok(());
            }
            self.cycle()?;
        }
        Ok(())
    }

    // Without an idle thread there is nobody to run first.
    pub fn run_until(&mut self, until: u64) -> Result<(), Refusal> {
        if self.run.idle.is_none() {
            return Err(Refusal::NoIdle);
        }
        self.run.until = until;
        self.run.tell(
            b":\n       reading  thread          why             urgency rank            for       deadline\n",
        );
        let ended = self.cycles();
        self.run.close(ended);
        self.run.all_keep_waiting();
        Ok(())
    }
}
