// Why a thread is chosen: its key, the demand, the window, and each tree's threads in order with the key of its head.
// What is printed takes the words that it prints, and names them in templates by their letters, from %a on.
use crate::printing::{listed, mode, plain, put};
use crate::refusals::Refusal;
use crate::run::{Board, Run};
use board_words::SelectionWords;
use codec::Row;
use lent_queue::QueueRow;
use window_words::{KeyWords, WindowWords};

// A tree has no more levels than this.
const LEVELS: usize = 28;

// The way through a tree: the thread to go down by, and the threads above that come later, with how many there are. (A
// Vec would take memory, which can be wanting.)
#[derive(Clone, Copy)]
struct Walk {
    link: Option<u64>,
    above: [u64; LEVELS],
    depth: usize,
}

fn key(k: &KeyWords) {
    if k[window_words::KEY_TAG] == 0 {
        plain(b"no key");
        return;
    }
    mode(k[window_words::KEY_MODE], b"%@");
    put(
        b", urgency %c, rank %d, then algorithm rank %e, algorithm %f:%g, band %h, turn %i",
        k,
    );
}

fn demand(s: &SelectionWords) {
    put(
        b"  demand: protected %l, fair %m, window sensitive %n, eligible budget %o, any budget %p; ",
        s,
    );
}

fn lowest(s: &SelectionWords) {
    if s[board_words::MIN_PASS_TAG] == 0 {
        plain(b"no fair pass\n");
        return;
    }
    put(b"lowest fair pass %r:%s\n", s);
}

fn window(w: &WindowWords) {
    if w[window_words::EPOCH_TAG] == 0 {
        plain(b"  window: no epoch");
    } else {
        put(b"  window: epoch %j", w);
    }
    put(b", allowance left %K, floor left %L\n", w);
}

fn link(tag: u64, id: u64) -> Option<u64> {
    if tag == 0 {
        return None;
    }
    Some(id)
}

// The way into a tree, by the row of its root.
fn root(row: &QueueRow) -> Walk {
    Walk {
        link: link(row[lent_queue::HEAD_TAG], row[lent_queue::HEAD]),
        above: [0; LEVELS],
        depth: 0,
    }
}

impl Walk {
    // A step down on the left; a link outside the table, or below the last level, is none.
    fn down(&mut self, t: &[Row]) {
        let Some(id) = self.link.take() else { return };
        let Some(row) = t.get(id as usize) else {
            return
        };
        if let Some(place) = self.above.get_mut(self.depth) {
            *place = id;
            self.depth += 1;
            self.link = link(row[codec::LEFT_TAG], row[codec::LEFT]);
        }
    }

    fn descend(&mut self, t: &[Row]) {
        for _ in 0..LEVELS {
            self.down(t);
        }
    }

    // The thread above that comes next.
    fn pop(&mut self) -> Option<u64> {
        let depth = self.depth.checked_sub(1)?;
        let id = *self.above.get(depth)?;
        self.depth = depth;
        Some(id)
    }

    // The next thread of the tree; what is on its right comes after it.
    fn next(&mut self, t: &[Row]) -> Option<u64> {
        self.descend(t);
        let id = self.pop()?;
        if let Some(row) = t.get(id as usize) {
            self.link = link(row[codec::RIGHT_TAG], row[codec::RIGHT]);
        }
        Some(id)
    }
}

impl Run {
    fn told_chosen(&self, id: u64) {
        if self.tells() {
            self.told_name(id, b": %@, ");
            key(&self.key);
            plain(b"\n");
        }
    }

    // The demand, the lowest pass and the window, by which keys are made.
    fn told_demand(&self) {
        if self.tells() {
            demand(&self.selected);
            lowest(&self.selected);
            window(&self.window);
        }
    }

    fn told_head(&self, id: u64, tree: u64) {
        listed(
            b"  tree of %@",
            b"FIFO|fair|budget with time left|budget exhausted",
            tree / 3,
        );
        listed(b", %@: ", b"ordinary|priority|protected", tree % 3);
        self.told_name(id, b"%@ (");
        key(&self.key);
        plain(b")");
    }
}

impl Board<'_> {
    // The key of a thread; where the table has it not, that of no thread.
    fn key(&mut self, id: u64, now: u64) -> Result<(), Refusal> {
        let row = match self.table.get(id as usize) {
            Some(row) => *row,
            None => self.run.candidate,
        };
        self.run.key_of(&row, now)
    }

    // The thread that selection names.
    fn told_choice(&mut self, now: u64) -> Result<(), Refusal> {
        if self.run.selected[board_words::SELECTED_TAG] == 0 {
            self.run.tell(b": nobody\n");
            return Ok(());
        }
        let id = self.run.selected[board_words::SELECTED_ID];
        self.key(id, now)?;
        self.run.told_chosen(id);
        Ok(())
    }

    // The threads behind the head, as many as there are records at most.
    fn told_others(&self, mut walk: Walk) {
        for _ in 0..self.table.len() {
            match walk.next(self.table) {
                Some(id) => self.run.told_name(id, b", then %@"),
                None => break,
            }
        }
        plain(b"\n");
    }

    // A tree that is not empty.
    fn told_tree(&mut self, tree: usize, now: u64) -> Result<(), Refusal> {
        let row = self.queue[lent_queue::ROOT_ROWS + tree % queue::TREES];
        let mut walk = root(&row);
        let Some(head) = walk.next(self.table) else {
            return Ok(())
        };
        self.key(head, now)?;
        if self.run.tells() {
            self.run.told_head(head, tree as u64);
            self.told_others(walk);
        }
        Ok(())
    }

    // Of the last selection.
    pub fn explain(&mut self, now: u64) -> Result<(), Refusal> {
        self.told_choice(now)?;
        self.run.told_demand();
        for tree in 0..queue::TREES {
            self.told_tree(tree, now)?;
        }
        Ok(())
    }
}
