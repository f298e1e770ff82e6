// C calls on rows of numbers, through which the Rust host compares lists and trees with the kernel's source. Each is
// the call of its name on what the numbers stand for.
#![tactic(auto)]

ghost use Rattle.std.specs.Prelude.{◌≡◌, ◌≢◌};
ghost use Rattle.refusal.specs.Answer.{damaged, by_number};
ghost use Rattle.codec.specs.Codec.{link_from, membership_from};
ghost use Rattle.rows.specs.Asked.{answering};
ghost use Rattle.rows.specs.Table.{table, out};
ghost use Rattle.rows.specs.Frame.{Framed};
ghost use Rattle.lists.specs.Calls as lists;
ghost use Rattle.ready_index.specs.Calls as index;
ghost use Rattle.row_entries.specs.Words.{list_from, link_words, list_words, index_words, contains_words};

use codec::{Row, link_from, membership_from};
use lists::{push, push_front};
use ready_index::{Path, contains, first, insert};
use refusal::Refusal;
use thread::ThreadQueue;

// A record's number, or none.
#[repr(C)]
#[derive(Clone, Copy)]
pub struct LinkWords {
    pub some: u64,
    pub number: u64,
}

impl LinkWords {
    pub const NONE: Self = Self { some: 0, number: 0 };
}

// A list after a call.
#[repr(C)]
#[derive(Clone, Copy)]
pub struct ListAnswer {
    pub number: u64,
    pub head: LinkWords,
    pub tail: LinkWords,
    pub len: u64,
}

// The least thread of a tree, or its root after a call.
#[repr(C)]
#[derive(Clone, Copy)]
pub struct IndexAnswer {
    pub number: u64,
    pub thread: LinkWords,
}

// Whether a tree holds a thread: 1 where it does.
#[repr(C)]
#[derive(Clone, Copy)]
pub struct ContainsAnswer {
    pub number: u64,
    pub holds: u64,
}

fn list_of(head_some: u64, head: u64, tail_some: u64, tail: u64, len: u64) -> ThreadQueue
    ensures { result ≡ list_from head_some head tail_some tail len }
{
    ThreadQueue {
        head: link_from(head_some, head),
        tail: link_from(tail_some, tail),
        len,
    }
}

fn link_words(link: Option<u64>) -> LinkWords
    ensures { result ≡ link_words link }
{
    match link {
        None => LinkWords::NONE,
        Some(number) => LinkWords { some: 1, number },
    }
}

fn list_words(answer: Result<ThreadQueue, Refusal>) -> ListAnswer
    ensures { result ≡ list_words (by_number answer) }
{
    match answer {
        Ok(list) => {
            let head = list.head;
            let tail = list.tail;
            ListAnswer {
                number: 0,
                head: link_words(head),
                tail: link_words(tail),
                len: list.len,
            }
        }
        Err(refusal) => ListAnswer {
            number: refusal.number(),
            head: LinkWords::NONE,
            tail: LinkWords::NONE,
            len: 0,
        },
    }
}

// lists::push
#[unsafe(no_mangle)]
pub extern "C" fn rows_list_push(
    t: &mut [Row],
    head_some: u64,
    head: u64,
    tail_some: u64,
    tail: u64,
    len: u64,
    id: u64,
    tag: u64,
    first: u64,
    second: u64,
) -> ListAnswer
    ensures t_after { out result (table t.new)
        ≡ answering list_words (lists.push_call (table t.old)
        (list_from head_some head tail_some tail len) id (membership_from tag first second)) }
    ensures t_unchanged { result.number ≢ 0 → t.new ≡ t.old }
    ensures framed { Framed t.old t.new }
{
    let list = list_of(head_some, head, tail_some, tail, len);
    let membership = membership_from(tag, first, second);
    list_words(push(t, list, id, membership))
}

// lists::push_front
#[unsafe(no_mangle)]
pub extern "C" fn rows_list_push_front(
    t: &mut [Row],
    head_some: u64,
    head: u64,
    tail_some: u64,
    tail: u64,
    len: u64,
    id: u64,
    tag: u64,
    first: u64,
    second: u64,
) -> ListAnswer
    ensures t_after { out result (table t.new)
        ≡ answering list_words (lists.push_front_call (table t.old)
        (list_from head_some head tail_some tail len) id (membership_from tag first second)) }
    ensures t_unchanged { result.number ≢ 0 → t.new ≡ t.old }
    ensures framed { Framed t.old t.new }
{
    let list = list_of(head_some, head, tail_some, tail, len);
    let membership = membership_from(tag, first, second);
    list_words(push_front(t, list, id, membership))
}

// lists::remove
#[unsafe(no_mangle)]
pub extern "C" fn rows_list_remove(
    t: &mut [Row],
    head_some: u64,
    head: u64,
    tail_some: u64,
    tail: u64,
    len: u64,
    id: u64,
    tag: u64,
    first: u64,
    second: u64,
) -> ListAnswer
    ensures t_after { out result (table t.new)
        ≡ answering list_words (lists.remove_call (table t.old)
        (list_from head_some head tail_some tail len) id (membership_from tag first second)) }
    ensures t_unchanged { result.number ≢ 0 → t.new ≡ t.old }
    ensures framed { Framed t.old t.new }
{
    let list = list_of(head_some, head, tail_some, tail, len);
    let membership = membership_from(tag, first, second);
    list_words(lists::remove(t, list, id, membership))
}

#[tactic(auto, unfolding(crate::specs::Words::contains_words))]
fn contains_words(answer: Result<bool, Refusal>) -> ContainsAnswer
    ensures { result ≡ contains_words (by_number answer) }
{
    match answer {
        Ok(holds) => ContainsAnswer {
            number: 0,
            holds: u64::from(holds),
        },
        Err(refusal) => ContainsAnswer {
            number: refusal.number(),
            holds: 0,
        },
    }
}

fn index_words(answer: Result<Option<u64>, Refusal>) -> IndexAnswer
    ensures { result ≡ index_words (by_number answer) }
{
    match answer {
        Ok(root) => IndexAnswer {
            number: 0,
            thread: link_words(root),
        },
        Err(refusal) => IndexAnswer {
            number: refusal.number(),
            thread: LinkWords::NONE,
        },
    }
}

// ready_index::first
#[unsafe(no_mangle)]
pub extern "C" fn rows_index_first(t: &[Row], some: u64, number: u64) -> IndexAnswer
    ensures { result ≡ index_words (index.first_call (table t.now) (link_from some number)) }
{
    let root = link_from(some, number);
    index_words(first(t, root))
}

// ready_index::contains
#[unsafe(no_mangle)]
pub extern "C" fn rows_index_contains(t: &[Row], some: u64, number: u64, id: u64) -> ContainsAnswer
    ensures { result ≡ contains_words (index.contains_call (table t.now) (link_from some number) id) }
{
    let root = link_from(some, number);
    contains_words(contains(t, root, id))
}

// ready_index::insert, with a path that the caller lends.
#[unsafe(no_mangle)]
pub extern "C" fn rows_index_insert(
    t: &mut [Row],
    path: &mut Path,
    some: u64,
    number: u64,
    id: u64,
) -> IndexAnswer
    ensures t_after { out result (table t.new)
        ≡ answering index_words (index.insert_call (table t.old) (link_from some number) id) }
    ensures t_unchanged { result.number ≢ 0 → result.number ≢ damaged → t.new ≡ t.old }
    ensures framed { Framed t.old t.new }
{
    let root = link_from(some, number);
    index_words(insert(t, path, root, id))
}

// ready_index::remove, with a path that the caller lends.
#[unsafe(no_mangle)]
pub extern "C" fn rows_index_remove(
    t: &mut [Row],
    path: &mut Path,
    some: u64,
    number: u64,
    id: u64,
) -> IndexAnswer
    ensures t_after { out result (table t.new)
        ≡ answering index_words (index.remove_call (table t.old) (link_from some number) id) }
    ensures t_unchanged { result.number ≢ 0 → result.number ≢ damaged → t.new ≡ t.old }
    ensures framed { Framed t.old t.new }
{
    let root = link_from(some, number);
    index_words(ready_index::remove(t, path, root, id))
}
