// The heads of the twelve trees, refreshed, with what they ask for; and the least key among them. After the second and
// third loop of `CpuRunQueue::peek_next`.
ghost use Rattle.std.specs.Prelude.{◌<◌, ◌≤◌, ◌≡◌, length, take, set, [], None};
ghost use Rattle.refusal.specs.Answer.{by_number};
ghost use Rattle.thread.specs.Membership.{is_ready_on};
ghost use Rattle.codec.specs.Codec.{decoded};
ghost use Rattle.rows.specs.Table.{table, out};
ghost use Rattle.rows.specs.Frame.{Framed};
ghost use Rattle.selection.specs.Heads as choice;
ghost use Rattle.selection.specs.Steps as steps;
ghost use Rattle.selection.specs.HeadNumbers as numbers;
ghost use Rattle.renewal.specs.RootRows.{roots_of};
ghost use Rattle.selection.specs.Answers.{found_answer};
ghost use Rattle.queue.specs.RunQueue.{tree_count};

use crate::{Gathering, ReadyThread};
use arbitration::{Candidate, CpuWindow, Demand};
use codec::{MEMBERSHIP_FIRST, MEMBERSHIP_TAG, Row, byte_from};
use demands::{Gathered, candidate_of_row, gathered_row};
use dispatch_keys::compare_keys;
use lent_queue::QueueRow;
use queue::TREES;
use refusal::Refusal;
use renewal::{head_of, refresh_row, root_at};
use std::cmp::Ordering;
use thread::{CpuIndex, ThreadId};

fn same_byte(a: u8, b: u8) -> bool
    ensures { result ≡ numbers.same_byte a b }
{
    if a == b {
        return true;
    }
    false
}

// Whether the row's record is ready on this processor, by the words of its membership.
fn is_ready_row(w: Row, cpu: CpuIndex) -> bool
    ensures { result ≡ is_ready_on (decoded w).queue_links.membership cpu }
{
    if w[MEMBERSHIP_TAG] == 0 {
        return false;
    }
    if w[MEMBERSHIP_TAG] == 1 {
        return same_byte(byte_from(w[MEMBERSHIP_FIRST]), cpu.0);
    }
    if w[MEMBERSHIP_TAG] == 2 {
        return same_byte(byte_from(w[MEMBERSHIP_FIRST]), cpu.0);
    }
    false
}

// A head: ready on this processor, then judged and refreshed.
fn head_at(t: &mut [Row], id: u64, cpu: CpuIndex, reading: u64) -> Result<(), Refusal>
    ensures t_after { out (by_number result) (table t.new)
        ≡ steps.head_refreshed (table t.old) id cpu reading }
    ensures framed { Framed t.old t.new }
{
    let k = id as usize;
    if k < t.len() {
        let row = t[k];
        if !is_ready_row(row, cpu) {
            return Err(Refusal::Damaged);
        }
        return refresh_row(t, id, row, reading);
    }
    Err(Refusal::Damaged)
}

// What was found before, with one more head.
fn gather_row(t: &[Row], id: u64, found: Gathered) -> Gathered
    ensures { result ≡ steps.head_gathered (table t.now) id found }
{
    let k = id as usize;
    if k < t.len() {
        let row = t[k];
        return gathered_row(found, row);
    }
    found
}

fn put_head(heads: &mut [u64], count: usize, id: u64)
    requires { count < length heads.old }
    ensures { heads.new ≡ set heads.old count id }
{
    heads[count] = id;
}

// One more head: its number is held, and what it asks for is gathered.
fn join_head(t: &[Row], heads: &mut [u64], count: usize, id: u64, found: Gathered) -> Gathered
    requires { count < length heads.old }
    ensures value { result ≡ steps.head_gathered (table t.now) id found }
    ensures heads_after { heads.new ≡ set heads.old count id }
{
    put_head(heads, count, id);
    gather_row(t, id, found)
}

// The heads of the twelve trees, one after the other, with what they and the running thread ask for.
pub fn gather_heads(
    t: &mut [Row],
    roots: &[QueueRow],
    heads: &mut [u64],
    cpu: CpuIndex,
    reading: u64,
    current: Gathered,
) -> Gathering
    requires { length heads.old ≡ tree_count }
    ensures t_after { out (found_answer result.answer (take result.count heads.new)) (table t.new)
        ≡ numbers.gather_numbers tree_count (table t.old) (roots_of roots.now) cpu reading
        [] current }
    ensures count_le_tree_count { result.count ≤ tree_count }
    ensures framed { Framed t.old t.new }
{
    let mut found = current;
    let mut count: usize = 0;
    let mut left: usize = TREES;
    while 0 < left {
        let k = TREES - left;
        left -= 1;
        let root = root_at(roots, k);
        let Ok(head) = head_of(t, root) else {
            return Gathering {
                answer: Err(Refusal::Damaged),
                count: 0,
            };
        };
        let Some(id) = head else {
            continue;
        };
        match head_at(t, id, cpu, reading) {
            Ok(()) => {
                found = join_head(t, heads, count, id, found);
                count += 1;
            }
            Err(refusal) => {
                return Gathering {
                    answer: Err(refusal),
                    count: 0,
                };
            }
        }
    }
    Gathering {
        answer: Ok(found),
        count,
    }
}

// `(key, id) < (old.key, old.id)`.
fn comes_before(thread: ReadyThread, old: ReadyThread) -> bool
    ensures { result ≡ choice.comes_before thread old }
{
    let key = thread.key;
    let old_key = old.key;
    let id = thread.id;
    let old_id = old.id;
    match compare_keys(key, old_key) {
        Ordering::Less => true,
        Ordering::Equal => {
            if id.0 < old_id.0 {
                return true;
            }
            false
        }
        Ordering::Greater => false,
    }
}

// Whether a thread is chosen over the least so far.
fn takes_over(best: Option<ReadyThread>, thread: ReadyThread) -> bool
    ensures { result ≡ numbers.takes_over best thread }
{
    match best {
        None => true,
        Some(old) => comes_before(thread, old),
    }
}

// The lesser of the two.
fn lesser_ready(best: Option<ReadyThread>, thread: ReadyThread) -> Option<ReadyThread>
    ensures { result ≡ choice.lesser_ready best thread }
{
    if takes_over(best, thread) {
        return Some(thread);
    }
    best
}

// The least so far with one more candidate, under a window that is refreshed to the reading.
fn ready_by(
    candidate: Candidate,
    id: u64,
    window: CpuWindow,
    reading: u64,
    demand: Demand,
    best: Option<ReadyThread>,
) -> Option<ReadyThread>
    ensures { result ≡ numbers.ready_by candidate id window reading demand best }
{
    let parameters = candidate.parameters;
    let policy = parameters.policy;
    match window.key(reading, candidate, demand) {
        None => best,
        Some((key, _)) => {
            let ready = ReadyThread {
                id: ThreadId(id),
                policy,
                key,
            };
            lesser_ready(best, ready)
        }
    }
}

// The least so far with one more head.
fn ready_with(
    t: &[Row],
    id: u64,
    window: CpuWindow,
    reading: u64,
    demand: Demand,
    best: Option<ReadyThread>,
) -> Option<ReadyThread>
    ensures { result ≡ choice.ready_with (table t.now) id window reading demand best }
{
    let k = id as usize;
    if k < t.len() {
        let row = t[k];
        let candidate = candidate_of_row(row);
        return ready_by(candidate, id, window, reading, demand, best);
    }
    best
}

// The least key of the first so many heads, under a window that is refreshed to the reading.
pub fn least_of(
    t: &[Row],
    heads: &[u64],
    count: usize,
    reading: u64,
    demand: Demand,
    window: CpuWindow,
) -> Option<ReadyThread>
    requires { count ≤ length heads.now }
    ensures { result ≡ numbers.least_number (table t.now)
        (take count heads.now) reading demand window None }
{
    let mut best = None;
    let mut k: usize = 0;
    while k < count {
        let id = heads[k];
        k += 1;
        best = ready_with(t, id, window, reading, demand, best);
    }
    best
}
