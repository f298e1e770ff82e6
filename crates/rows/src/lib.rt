// The table of records as rows of 32 words, read and changed by a record's number. Each store touches the words of one
// part.
#![tactic(auto)]

ghost use Rattle.std.specs.Prelude.{◌≡◌, ◌<◌, ◌≤◌, length, get_or, set, [], Ok, Err};
ghost use Rattle.thread.specs.TreeKey.{ready_index_key};
ghost use Rattle.codec.specs.Codec.{decoded};
ghost use Rattle.refusal.specs.Answer.{value, refused, by_number, or_damaged, damage};
ghost use Rattle.rows.specs.Asked.{asked, answering};
ghost use Rattle.rows.specs.Table.{table, out, links_at, key_at, queue_links_at, set_links, set_left, set_right};
ghost use Rattle.rows.specs.Frame.{Framed};
ghost use Rattle.rows.specs.Table.{set_height, set_queue_links, set_runtime, set_turn};

use algorithms::PolicyRuntime;
use codec::{
    Row, key_of, links_of, queue_links_of, with_height, with_left, with_links, with_queue_links,
    with_right, with_runtime, with_turn,
};
use refusal::{Damaged, Refusal};
use thread::{Links, QueueLinks, ThreadRecord, TreeKey};

// A record's place is 0 to 4,095.
pub const MAX_RECORDS: usize = 4096;

// What such a call asks first: at most 4,096 records, then a number below the record count. A queue's call asks more,
// and between the two.
#[tactic(auto, using(crate::specs::AskedLaws::asking), unfolding(crate::specs::Asked::asked))]
pub fn asked(t: &[Row], id: u64) -> Result<(), Refusal>
    ensures { by_number result ≡ asked (table t.now) id refused (value tt) }
{
    if MAX_RECORDS < t.len() {
        return Err(Refusal::BadTable);
    }
    if (id as usize) < t.len() {
        Ok(())
    } else {
        Err(Refusal::NoThread)
    }
}

// What `part` gives of the row with this number.
fn read<T, F: FnOnce(Row) -> T>(t: &[Row], i: u64, part: F) -> Result<T, Damaged>
    requires { F.IsAlwaysCallable part }
    ensures inside { i < length t.now → (x : T) × F.post part (get_or t.now i []) x × (result ≡ Ok x) }
    ensures outside { length t.now ≤ i → result ≡ Err damage }
{
    let row = t.get(i as usize).ok_or(Damaged)?;
    Ok(part(*row))
}

// A part of the row with this number is stored: `with` gives the row with it.
fn store<P: Copy, F: FnOnce(Row, P) -> Row>(
    t: &mut [Row],
    i: u64,
    part: P,
    with: F,
) -> Result<(), Damaged>
    requires { F.IsAlwaysCallable with }
    ensures inside { i < length t.old
        → (w : _) × F.post with (get_or t.old i []) part w × (t.new ≡ set t.old i w) × (result ≡ Ok tt) }
    ensures outside { length t.old ≤ i → (t.new ≡ t.old) × (result ≡ Err damage) }
{
    let row = *t.get(i as usize).ok_or(Damaged)?;
    t[i as usize] = with(row, part);
    Ok(())
}

pub fn links_at(t: &[Row], i: u64) -> Result<Links, Damaged>
    ensures { or_damaged result ≡ or_damaged (links_at (table t.now) i) }
{
    read(t, i, links_of)
}

pub fn key_at(t: &[Row], i: u64) -> Result<TreeKey, Damaged>
    ensures { or_damaged result ≡ or_damaged (key_at (table t.now) i) }
{
    read(
        t,
        i,
        |row|
            ensures { result ≡ ready_index_key (decoded row) i }
        { key_of(row, i) },
    )
}

pub fn queue_links_at(t: &[Row], i: u64) -> Result<QueueLinks, Damaged>
    ensures { or_damaged result ≡ or_damaged (queue_links_at (table t.now) i) }
{
    read(t, i, queue_links_of)
}

pub fn set_links(t: &mut [Row], i: u64, links: Links) -> Result<(), Damaged>
    ensures t_after { out (or_damaged result) (table t.new)
        ≡ answering or_damaged (set_links (table t.old) i links) }
    ensures framed { Framed t.old t.new }
{
    store(t, i, links, with_links)
}

// One of the tree links, or their height alone: two words or one are stored, and none has to be read.
pub fn set_left(t: &mut [Row], i: u64, link: Option<u64>) -> Result<(), Damaged>
    ensures t_after { out (or_damaged result) (table t.new)
        ≡ answering or_damaged (set_left (table t.old) i link) }
    ensures framed { Framed t.old t.new }
{
    store(t, i, link, with_left)
}

pub fn set_right(t: &mut [Row], i: u64, link: Option<u64>) -> Result<(), Damaged>
    ensures t_after { out (or_damaged result) (table t.new)
        ≡ answering or_damaged (set_right (table t.old) i link) }
    ensures framed { Framed t.old t.new }
{
    store(t, i, link, with_right)
}

pub fn set_height(t: &mut [Row], i: u64, height: u8) -> Result<(), Damaged>
    ensures t_after { out (or_damaged result) (table t.new)
        ≡ answering or_damaged (set_height (table t.old) i height) }
    ensures framed { Framed t.old t.new }
{
    store(t, i, height, with_height)
}

pub fn set_queue_links(t: &mut [Row], i: u64, links: QueueLinks) -> Result<(), Damaged>
    ensures t_after { out (or_damaged result) (table t.new)
        ≡ answering or_damaged (set_queue_links (table t.old) i links) }
    ensures framed { Framed t.old t.new }
{
    store(t, i, links, with_queue_links)
}

pub fn set_runtime(t: &mut [Row], i: u64, runtime: PolicyRuntime) -> Result<(), Damaged>
    ensures t_after { out (or_damaged result) (table t.new)
        ≡ answering or_damaged (set_runtime (table t.old) i runtime) }
    ensures framed { Framed t.old t.new }
{
    store(t, i, runtime, with_runtime)
}

pub fn set_turn(t: &mut [Row], i: u64, turn: u64) -> Result<(), Damaged>
    ensures t_after { out (or_damaged result) (table t.new)
        ≡ answering or_damaged (set_turn (table t.old) i turn) }
    ensures framed { Framed t.old t.new }
{
    store(t, i, turn, with_turn)
}
