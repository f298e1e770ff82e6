// One list of threads over the table: push, push_front and remove. After scheduler/queue.rs, with the source's order of
// checks and stores. Every number that is stored to was read in the checks before (crate sound_lists,
// specs/Inside.antt), so the source's `queue_invariant` has no place here. `push`, `push_front` and `remove` are the
// calls on a list by itself, which ask for table and number first; a queue's calls have asked for these and more, and
// use `push_at` and `remove_from`.
#![tactic(auto)]

ghost use Rattle.std.specs.Prelude.{◌≡◌};
ghost use Rattle.refusal.specs.Answer.{by_number};
ghost use Rattle.refusal.specs.Cases.{choose};
ghost use Rattle.thread.specs.Membership.{is_unqueued};
ghost use Rattle.thread.specs.Records.{with_queue_links};
ghost use Rattle.codec.specs.Codec.{decoded};
ghost use Rattle.codec.specs.Frame.{RowFramed};
ghost use Rattle.rows.specs.Table.{table, out};
ghost use Rattle.rows.specs.Unmoved.{Unmoved};
ghost use Rattle.rows.specs.Frame.{Framed};
ghost use Rattle.lists.specs.Checks.{assigned_to, head_agrees, tail_agrees, ends_agree, preflight_insert};
ghost use Rattle.lists.specs.Checks.{previous_valid, next_valid, validate_neighbors};
ghost use Rattle.lists.specs.Lists.{with_next, with_previous, set_next, set_previous, commit_insert, commit_remove};
ghost use Rattle.lists.specs.Lists.{append, push, prepend, push_front, update_previous_link, update_next_link, unlink};
ghost use Rattle.lists.specs.Lists.{remove};
ghost use Rattle.lists.specs.Calls.{push_call, push_front_call, remove_call};

use codec::{
    CPU, NEXT, NEXT_TAG, PREVIOUS, PREVIOUS_TAG, Row, byte_from, queue_links_of, words_of_link,
};
use refusal::Refusal;
use rows::{asked, queue_links_at, set_queue_links};
use thread::{
    CpuIndex, QueueLinks, QueueMembership, ThreadQueue, points_to, ready_cpu, same_membership,
};

// Whether a thread of this processor may stand in the list: a list that is not ready takes any.
#[tactic(auto,
// The definitions that are opened.
unfolding(crate::specs::Checks::assigned_to, thread::specs::Membership::on_cpu, refusal::specs::Cases::if_equal,
// And what those rest on.
refusal::specs::Cases::choose))]
fn assigned_to(membership: QueueMembership, assigned: CpuIndex) -> bool
    ensures { result ≡ assigned_to membership assigned }
{
    ready_cpu(membership).is_none_or(|cpu| cpu == assigned)
}

// The checks of an insertion read a row's membership and processor alone, not the whole record.
#[tactic(auto, using(crate::specs::ListsLaws::unqueued_row))]
fn is_unqueued_row(w: Row) -> bool
    ensures { result ≡ is_unqueued (decoded w).queue_links.membership }
{
    queue_links_of(w).membership.is_unqueued()
}

#[tactic(auto, using(crate::specs::ListsLaws::assigned_row))]
fn is_assigned_row(w: Row, membership: QueueMembership) -> bool
    ensures { result ≡ assigned_to membership (decoded w).cpu }
{
    assigned_to(membership, CpuIndex(byte_from(w[CPU])))
}

// The head is of this list and has nothing before it.
#[tactic(auto,
// The laws, and the definitions that are opened.
using(rows::specs::AnswersLaws::same_told), unfolding(rows::specs::TableCases::on_queue_links,
// And what those rest on.
crate::specs::Checks::head_agrees, thread::specs::Membership::is_none, thread::specs::Membership::on_link,
// And so on.
refusal::specs::Cases::choose))]
fn head_agrees(t: &[Row], head: u64, membership: QueueMembership) -> bool
    ensures { result ≡ head_agrees (table t.now) head membership }
{
    let Ok(links) = queue_links_at(t, head) else {
        return false;
    };
    same_membership(links.membership, membership) && links.previous.is_none()
}

// The tail is of this list and has nothing after it.
#[tactic(auto,
// The laws, and the definitions that are opened.
using(rows::specs::AnswersLaws::same_told), unfolding(rows::specs::TableCases::on_queue_links,
// And what those rest on.
crate::specs::Checks::tail_agrees, thread::specs::Membership::is_none, thread::specs::Membership::on_link,
// And so on.
refusal::specs::Cases::choose))]
fn tail_agrees(t: &[Row], tail: u64, membership: QueueMembership) -> bool
    ensures { result ≡ tail_agrees (table t.now) tail membership }
{
    let Ok(links) = queue_links_at(t, tail) else {
        return false;
    };
    same_membership(links.membership, membership) && links.next.is_none()
}

// Empty with length 0, or with both ends and another length.
#[tactic(auto,
// The definitions that are opened.
unfolding(crate::specs::Checks::ends_agree, thread::specs::Membership::on_link, refusal::specs::Cases::if_equal,
// And what those rest on.
refusal::specs::Cases::choose))]
fn ends_agree(t: &[Row], queue: ThreadQueue, membership: QueueMembership) -> bool
    ensures { result ≡ ends_agree (table t.now) queue membership }
{
    match (queue.head, queue.tail) {
        (None, None) => queue.len == 0,
        (Some(head), Some(tail)) if queue.len != 0 => {
            head_agrees(t, head, membership) && tail_agrees(t, tail, membership)
        }
        _ => false,
    }
}

#[tactic(auto,
// The laws, and the definitions that are opened.
using(crate::specs::ListsLaws::row_reads, refusal::specs::Cases::cases),
// And what those rest on.
unfolding(crate::specs::Checks::preflight_insert))]
fn preflight_insert(
    t: &[Row],
    queue: ThreadQueue,
    id: u64,
    membership: QueueMembership,
) -> Result<u64, Refusal>
    ensures { by_number result ≡ preflight_insert (table t.now) queue id membership }
{
    let row = *t.get(id as usize).ok_or(Refusal::Damaged)?;
    if !is_unqueued_row(row) {
        return Err(Refusal::Already);
    }
    if !is_assigned_row(row, membership) {
        return Err(Refusal::BadState);
    }
    let len = queue.len.checked_add(1).ok_or(Refusal::Damaged)?;
    if !ends_agree(t, queue, membership) {
        return Err(Refusal::Damaged);
    }
    Ok(len)
}

// Of a record's list links one alone: two words are stored, and none has to be read.
#[tactic(auto, using(crate::specs::ListsLaws::next_stored_lem, codec::specs::FrameLaws::next_framed))]
fn with_next(w: Row, next: Option<u64>) -> Row
    ensures result_value { decoded result ≡ with_queue_links (with_next (decoded w).queue_links next) (decoded w) }
    ensures row_framed { RowFramed w result }
{
    let words = words_of_link(next);
    let mut row = w;
    row[NEXT_TAG] = words[0];
    row[NEXT] = words[1];
    row
}

#[tactic(auto, using(crate::specs::ListsLaws::previous_stored_lem, codec::specs::FrameLaws::previous_framed))]
fn with_previous(w: Row, previous: Option<u64>) -> Row
    ensures result_value { decoded result
        ≡ with_queue_links (with_previous (decoded w).queue_links previous) (decoded w) }
    ensures row_framed { RowFramed w result }
{
    let words = words_of_link(previous);
    let mut row = w;
    row[PREVIOUS_TAG] = words[0];
    row[PREVIOUS] = words[1];
    row
}

// The record's next is stored, its other links as they are at this moment. `if let Some(row) = t.get(..)` is no plainer
// here, where the row is read and stored, and its proof needs an answer that this one does not.
#[tactic(auto, using(crate::specs::ListsLaws::row_stores, rows::specs::Frame::framing))]
fn set_next(t: &mut [Row], i: u64, next: Option<u64>)
    ensures t_after { table t.new ≡ set_next (table t.old) i next }
    ensures framed { Framed t.old t.new }
{
    let k = i as usize;
    if k < t.len() {
        t[k] = with_next(t[k], next);
    }
}

// The record's previous is stored, its other links as they are at this moment.
#[tactic(auto, using(crate::specs::ListsLaws::row_stores, rows::specs::Frame::framing))]
fn set_previous(t: &mut [Row], i: u64, previous: Option<u64>)
    ensures t_after { table t.new ≡ set_previous (table t.old) i previous }
    ensures framed { Framed t.old t.new }
{
    let k = i as usize;
    if k < t.len() {
        t[k] = with_previous(t[k], previous);
    }
}

#[tactic(auto,
// The laws, and the definitions that are opened.
using(crate::specs::ListsLaws::listings, rows::specs::Frame::framing), unfolding(crate::specs::Lists::commit_insert))]
fn commit_insert(t: &mut [Row], id: u64, links: QueueLinks)
    ensures t_after { table t.new ≡ commit_insert (table t.old) id links }
    ensures framed { Framed t.old t.new }
{
    let _ = set_queue_links(t, id, links);
}

#[tactic(auto,
// The laws, and the definitions that are opened.
using(crate::specs::ListsLaws::listings, rows::specs::Frame::framing), unfolding(crate::specs::Lists::commit_remove))]
fn commit_remove(t: &mut [Row], id: u64)
    ensures t_after { table t.new ≡ commit_remove (table t.old) id }
    ensures framed { Framed t.old t.new }
{
    let _ = set_queue_links(t, id, QueueLinks::EMPTY);
}

// The stores of `push`, after its checks. Both ends stay two functions, as the definition has two: they differ in each
// link that they read and store.
#[tactic(auto,
// The laws, and the definitions that are opened.
using(crate::specs::ListsLaws::listings, rows::specs::Frame::framing), unfolding(crate::specs::Lists::append,
// And what those rest on.
thread::specs::Membership::on_link, refusal::specs::Cases::given))]
fn append(
    t: &mut [Row],
    queue: ThreadQueue,
    id: u64,
    membership: QueueMembership,
    len: u64,
) -> ThreadQueue
    ensures t_after { out result (table t.new) ≡ append (table t.old) queue id membership len }
    ensures framed { Framed t.old t.new }
{
    let Some(last) = queue.tail else {
        commit_insert(
            t,
            id,
            QueueLinks {
                previous: None,
                next: None,
                membership,
            },
        );
        return ThreadQueue {
            head: Some(id),
            tail: Some(id),
            len,
        };
    };
    set_next(t, last, Some(id));
    commit_insert(
        t,
        id,
        QueueLinks {
            previous: Some(last),
            next: None,
            membership,
        },
    );
    ThreadQueue {
        tail: Some(id),
        len,
        ..queue
    }
}

// The stores of `push_front`, after its checks.
#[tactic(auto,
// The laws, and the definitions that are opened.
using(crate::specs::ListsLaws::listings, rows::specs::Frame::framing), unfolding(crate::specs::Lists::prepend,
// And what those rest on.
thread::specs::Membership::on_link, refusal::specs::Cases::given))]
fn prepend(
    t: &mut [Row],
    queue: ThreadQueue,
    id: u64,
    membership: QueueMembership,
    len: u64,
) -> ThreadQueue
    ensures t_after { out result (table t.new) ≡ prepend (table t.old) queue id membership len }
    ensures framed { Framed t.old t.new }
{
    let Some(first) = queue.head else {
        commit_insert(
            t,
            id,
            QueueLinks {
                previous: None,
                next: None,
                membership,
            },
        );
        return ThreadQueue {
            head: Some(id),
            tail: Some(id),
            len,
        };
    };
    set_previous(t, first, Some(id));
    commit_insert(
        t,
        id,
        QueueLinks {
            previous: None,
            next: Some(first),
            membership,
        },
    );
    ThreadQueue {
        head: Some(id),
        len,
        ..queue
    }
}

// The stores of either end, after the checks.
#[tactic(auto, using(refusal::specs::Cases::cases, rows::specs::Frame::framing))]
fn place(
    t: &mut [Row],
    front: bool,
    queue: ThreadQueue,
    id: u64,
    membership: QueueMembership,
    len: u64,
) -> ThreadQueue
    ensures t_after { out result (table t.new)
        ≡ choose front (prepend (table t.old) queue id membership len)
        (append (table t.old) queue id membership len) }
    ensures framed { Framed t.old t.new }
{
    if front {
        prepend(t, queue, id, membership, len)
    } else {
        append(t, queue, id, membership, len)
    }
}

// `push`, and with `front` `push_front`, of a thread that has been asked for: a number outside the table is Damaged
// here. The checks of both are called from this one place, so that the compiler puts them into it.
#[tactic(auto,
// The laws, and the definitions that are opened.
using(rows::specs::Frame::framing), unfolding(crate::specs::Lists::push, crate::specs::Lists::push_front,
// And what those rest on.
crate::specs::Lists::on_answer, crate::specs::Lists::on_out, refusal::specs::Cases::choose))]
pub fn push_at(
    t: &mut [Row],
    front: bool,
    queue: ThreadQueue,
    id: u64,
    membership: QueueMembership,
) -> Result<ThreadQueue, Refusal>
    ensures t_after { out (by_number result) (table t.new)
        ≡ choose front (push_front (table t.old) queue id membership)
        (push (table t.old) queue id membership) }
    ensures unmoved { Unmoved (by_number result) t.old t.new }
    ensures framed { Framed t.old t.new }
{
    let len = preflight_insert(t, queue, id, membership)?;
    Ok(place(t, front, queue, id, membership, len))
}

// The thread becomes the list's last.
#[tactic(auto,
// The laws, and the definitions that are opened.
using(rows::specs::Unmoved::unmoving, rows::specs::Frame::framing), unfolding(crate::specs::Calls::push_call,
// And what those rest on.
rows::specs::Asked::asked, rows::specs::Asked::asked_table, refusal::specs::Cases::if_less,
// And so on.
refusal::specs::Cases::choose))]
pub fn push(
    t: &mut [Row],
    queue: ThreadQueue,
    id: u64,
    membership: QueueMembership,
) -> Result<ThreadQueue, Refusal>
    ensures t_after { out (by_number result) (table t.new) ≡ push_call (table t.old) queue id membership }
    ensures unmoved { Unmoved (by_number result) t.old t.new }
    ensures framed { Framed t.old t.new }
{
    asked(t, id)?;
    push_at(t, false, queue, id, membership)
}

// The thread becomes the list's first.
#[tactic(auto,
// The laws, and the definitions that are opened.
using(rows::specs::Unmoved::unmoving, rows::specs::Frame::framing), unfolding(crate::specs::Calls::push_front_call,
// And what those rest on.
rows::specs::Asked::asked, rows::specs::Asked::asked_table, refusal::specs::Cases::if_less,
// And so on.
refusal::specs::Cases::choose))]
pub fn push_front(
    t: &mut [Row],
    queue: ThreadQueue,
    id: u64,
    membership: QueueMembership,
) -> Result<ThreadQueue, Refusal>
    ensures t_after { out (by_number result) (table t.new)
        ≡ push_front_call (table t.old) queue id membership }
    ensures unmoved { Unmoved (by_number result) t.old t.new }
    ensures framed { Framed t.old t.new }
{
    asked(t, id)?;
    push_at(t, true, queue, id, membership)
}

// What stands before the thread points to it.
#[tactic(auto,
// The laws, and the definitions that are opened.
using(rows::specs::AnswersLaws::same_told), unfolding(rows::specs::TableCases::on_queue_links,
// And what those rest on.
crate::specs::Checks::previous_valid, thread::specs::Membership::on_link))]
fn previous_valid(t: &[Row], queue: ThreadQueue, links: QueueLinks, id: u64) -> bool
    ensures { result ≡ previous_valid (table t.now) queue links id }
{
    let Some(previous) = links.previous else {
        return points_to(queue.head, id);
    };
    let Ok(before) = queue_links_at(t, previous) else {
        return false;
    };
    points_to(before.next, id)
}

// What stands after the thread points back to it.
#[tactic(auto,
// The laws, and the definitions that are opened.
using(rows::specs::AnswersLaws::same_told), unfolding(rows::specs::TableCases::on_queue_links,
// And what those rest on.
crate::specs::Checks::next_valid, thread::specs::Membership::on_link))]
fn next_valid(t: &[Row], queue: ThreadQueue, links: QueueLinks, id: u64) -> bool
    ensures { result ≡ next_valid (table t.now) queue links id }
{
    let Some(next) = links.next else {
        return points_to(queue.tail, id);
    };
    let Ok(after) = queue_links_at(t, next) else {
        return false;
    };
    points_to(after.previous, id)
}

#[tactic(auto, using(refusal::specs::Cases::cases), unfolding(crate::specs::Checks::validate_neighbors))]
fn validate_neighbors(t: &[Row], queue: ThreadQueue, links: QueueLinks, id: u64) -> bool
    ensures { result ≡ validate_neighbors (table t.now) queue links id }
{
    previous_valid(t, queue, links, id) && next_valid(t, queue, links, id)
}

#[tactic(auto,
// The laws, and the definitions that are opened.
using(crate::specs::ListsLaws::listings, rows::specs::Frame::framing),
// And what those rest on.
unfolding(crate::specs::Lists::update_previous_link, thread::specs::Membership::on_link))]
fn update_previous_link(t: &mut [Row], queue: ThreadQueue, links: QueueLinks) -> ThreadQueue
    ensures t_after { out result (table t.new) ≡ update_previous_link (table t.old) queue links }
    ensures framed { Framed t.old t.new }
{
    match links.previous {
        None => ThreadQueue {
            head: links.next,
            ..queue
        },
        Some(previous) => {
            set_next(t, previous, links.next);
            queue
        }
    }
}

#[tactic(auto,
// The laws, and the definitions that are opened.
using(crate::specs::ListsLaws::listings, rows::specs::Frame::framing),
// And what those rest on.
unfolding(crate::specs::Lists::update_next_link, thread::specs::Membership::on_link))]
fn update_next_link(t: &mut [Row], queue: ThreadQueue, links: QueueLinks) -> ThreadQueue
    ensures t_after { out result (table t.new) ≡ update_next_link (table t.old) queue links }
    ensures framed { Framed t.old t.new }
{
    match links.next {
        None => ThreadQueue {
            tail: links.previous,
            ..queue
        },
        Some(next) => {
            set_previous(t, next, links.previous);
            queue
        }
    }
}

// The stores of `remove`, after its checks.
#[tactic(auto,
// The laws, and the definitions that are opened.
using(crate::specs::ListsLaws::listings, rows::specs::Frame::framing), unfolding(crate::specs::Lists::unlink,
// And what those rest on.
crate::specs::Lists::on_out))]
fn unlink(t: &mut [Row], queue: ThreadQueue, links: QueueLinks, id: u64, len: u64) -> ThreadQueue
    ensures t_after { out result (table t.new) ≡ unlink (table t.old) queue links id len }
    ensures framed { Framed t.old t.new }
{
    let without_previous = update_previous_link(t, queue, links);
    let without_both = update_next_link(t, without_previous, links);
    commit_remove(t, id);
    ThreadQueue {
        len,
        ..without_both
    }
}

// `remove` of a thread that has been asked for: a number outside the table is Damaged here.
#[tactic(auto,
// The laws, and the definitions that are opened.
using(rows::specs::AnswersLaws::same_told, rows::specs::Frame::framing), unfolding(crate::specs::Lists::remove,
// And what those rest on.
rows::specs::TableCases::on_queue_links, crate::specs::Lists::on_out, refusal::specs::Cases::choose,
// And so on.
refusal::specs::Cases::if_equal))]
pub fn remove_from(
    t: &mut [Row],
    queue: ThreadQueue,
    id: u64,
    membership: QueueMembership,
) -> Result<ThreadQueue, Refusal>
    ensures t_after { out (by_number result) (table t.new) ≡ remove (table t.old) queue id membership }
    ensures unmoved { Unmoved (by_number result) t.old t.new }
    ensures framed { Framed t.old t.new }
{
    let links = queue_links_at(t, id)?;
    if !same_membership(links.membership, membership)
        || queue.len == 0
        || !validate_neighbors(t, queue, links, id)
    {
        return Err(Refusal::Damaged);
    }
    Ok(unlink(t, queue, links, id, queue.len - 1))
}

// The thread leaves the list, wherever it stands in it.
#[tactic(auto,
// The laws, and the definitions that are opened.
using(rows::specs::Unmoved::unmoving, rows::specs::Frame::framing), unfolding(crate::specs::Calls::remove_call,
// And what those rest on.
rows::specs::Asked::asked, rows::specs::Asked::asked_table, refusal::specs::Cases::if_less,
// And so on.
refusal::specs::Cases::choose))]
pub fn remove(
    t: &mut [Row],
    queue: ThreadQueue,
    id: u64,
    membership: QueueMembership,
) -> Result<ThreadQueue, Refusal>
    ensures t_after { out (by_number result) (table t.new)
        ≡ remove_call (table t.old) queue id membership }
    ensures unmoved { Unmoved (by_number result) t.old t.new }
    ensures framed { Framed t.old t.new }
{
    asked(t, id)?;
    remove_from(t, queue, id, membership)
}
