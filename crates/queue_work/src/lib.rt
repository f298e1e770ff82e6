// The work of enqueue and remove on the parts of a queue that a call touches; the table is lent.
#![tactic(auto)]

ghost use Rattle.std.specs.Prelude.{◌≡◌};
ghost use Rattle.refusal.specs.Answer.{by_number};
ghost use Rattle.rows.specs.Table.{table, out};
ghost use Rattle.rows.specs.Frame.{Framed};
ghost use Rattle.queue_work.specs.Work as work;

use codec::Row;
use lists::{push_at, remove_from};
use ready_index::{Path, insert_under, remove_under};
use refusal::Refusal;
use thread::{QueueMembership, ThreadQueue};

// What one call touches of a queue: a list, the FIFO total, a tree's root, the number of budget threads.
#[derive(Clone, Copy)]
pub struct Parts {
    pub list: ThreadQueue,
    pub realtime_len: u64,
    pub root: Option<u64>,
    pub budget_threads: u64,
}

// A refusal with nothing changed; or the parts afterwards, as the source had stored them where it halts. One case holds
// the parts, so that a shell puts them back in one place.
#[derive(Clone, Copy)]
pub enum Worked {
    Refused(Refusal),
    Stored { parts: Parts, halted: bool },
}

fn total_in(fifo: bool, total: u64) -> Result<u64, Refusal>
    ensures { by_number result ≡ work.total_in fifo total }
{
    if fifo {
        if total == 18_446_744_073_709_551_615 {
            return Err(Refusal::Damaged);
        }
        return Ok(total + 1);
    }
    Ok(total)
}

fn total_out(fifo: bool, total: u64) -> Result<u64, Refusal>
    ensures { by_number result ≡ work.total_out fifo total }
{
    if fifo {
        if total == 0 {
            return Err(Refusal::Damaged);
        }
        return Ok(total - 1);
    }
    Ok(total)
}

// One budget thread more, for a budget thread.
fn counted_in(budgeted: bool, parts: Parts) -> Worked
    ensures { work.work_of result ≡ work.counted_in budgeted parts }
{
    let list = parts.list;
    let root = parts.root;
    let realtime_len = parts.realtime_len;
    if budgeted {
        if parts.budget_threads == 18_446_744_073_709_551_615 {
            return Worked::Stored {
                parts,
                halted: true,
            };
        }
        let budget_threads = parts.budget_threads + 1;
        return Worked::Stored {
            parts: Parts {
                list,
                realtime_len,
                root,
                budget_threads,
            },
            halted: false,
        };
    }
    Worked::Stored {
        parts,
        halted: false,
    }
}

// One budget thread less, for a budget thread.
fn counted_out(budgeted: bool, parts: Parts) -> Worked
    ensures { work.work_of result ≡ work.counted_out budgeted parts }
{
    let list = parts.list;
    let root = parts.root;
    let realtime_len = parts.realtime_len;
    if budgeted {
        if parts.budget_threads == 0 {
            return Worked::Stored {
                parts,
                halted: true,
            };
        }
        let budget_threads = parts.budget_threads - 1;
        return Worked::Stored {
            parts: Parts {
                list,
                realtime_len,
                root,
                budget_threads,
            },
            halted: false,
        };
    }
    Worked::Stored {
        parts,
        halted: false,
    }
}

// A thread that stands in its list goes into its tree; an error there halts with list and total stored.
fn insert_into_tree(t: &mut [Row], path: &mut Path, parts: Parts, id: u64, budgeted: bool) -> Worked
    ensures t_after { out (work.work_of result) (table t.new)
        ≡ work.tree_inserted budgeted (table t.old) parts id }
    ensures stores { work.Stores (work.work_of result) }
    ensures framed { Framed t.old t.new }
{
    let list = parts.list;
    let realtime_len = parts.realtime_len;
    let budget_threads = parts.budget_threads;
    let old_root = parts.root;
    let Ok(root) = insert_under(t, path, old_root, id) else {
        return Worked::Stored {
            parts,
            halted: true,
        };
    };
    counted_in(
        budgeted,
        Parts {
            list,
            realtime_len,
            root,
            budget_threads,
        },
    )
}

// A thread that its list has let go leaves its tree; an error there halts with list and total stored.
fn remove_from_tree(t: &mut [Row], path: &mut Path, parts: Parts, id: u64, budgeted: bool) -> Worked
    ensures t_after { out (work.work_of result) (table t.new)
        ≡ work.tree_removed budgeted (table t.old) parts id }
    ensures stores { work.Stores (work.work_of result) }
    ensures framed { Framed t.old t.new }
{
    let list = parts.list;
    let realtime_len = parts.realtime_len;
    let budget_threads = parts.budget_threads;
    let old_root = parts.root;
    let Ok(root) = remove_under(t, path, old_root, id) else {
        return Worked::Stored {
            parts,
            halted: true,
        };
    };
    counted_out(
        budgeted,
        Parts {
            list,
            realtime_len,
            root,
            budget_threads,
        },
    )
}

// A judged thread goes into its list, then its tree, then is counted.
pub fn insert_work(
    t: &mut [Row],
    path: &mut Path,
    parts: Parts,
    id: u64,
    membership: QueueMembership,
    front: bool,
    fifo: bool,
    budgeted: bool,
) -> Worked
    ensures t_after { out (work.work_of result) (table t.new)
        ≡ work.insert_work front fifo budgeted (table t.old) parts id membership }
    ensures untouched { work.Untouched (work.work_of result) t.old t.new }
    ensures framed { Framed t.old t.new }
{
    let queue = parts.list;
    let root = parts.root;
    let budget_threads = parts.budget_threads;
    let total = total_in(fifo, parts.realtime_len);
    match total {
        Err(refusal) => Worked::Refused(refusal),
        Ok(realtime_len) => {
            let pushed = push_at(t, front, queue, id, membership);
            match pushed {
                Err(refusal) => Worked::Refused(refusal),
                Ok(list) => insert_into_tree(
                    t,
                    path,
                    Parts {
                        list,
                        realtime_len,
                        root,
                        budget_threads,
                    },
                    id,
                    budgeted,
                ),
            }
        }
    }
}

// A thread that its tree holds leaves its list, then its tree, then the count.
pub fn remove_work(
    t: &mut [Row],
    path: &mut Path,
    parts: Parts,
    id: u64,
    membership: QueueMembership,
    fifo: bool,
    budgeted: bool,
) -> Worked
    ensures t_after { out (work.work_of result) (table t.new)
        ≡ work.remove_work fifo budgeted (table t.old) parts id membership }
    ensures untouched { work.Untouched (work.work_of result) t.old t.new }
    ensures framed { Framed t.old t.new }
{
    let queue = parts.list;
    let root = parts.root;
    let budget_threads = parts.budget_threads;
    let total = total_out(fifo, parts.realtime_len);
    match total {
        Err(refusal) => Worked::Refused(refusal),
        Ok(realtime_len) => {
            let removed = remove_from(t, queue, id, membership);
            match removed {
                Err(refusal) => Worked::Refused(refusal),
                Ok(list) => remove_from_tree(
                    t,
                    path,
                    Parts {
                        list,
                        realtime_len,
                        root,
                        budget_threads,
                    },
                    id,
                    budgeted,
                ),
            }
        }
    }
}
