// The ready index: a balanced tree over the records of the thread table. After scheduler/algorithms/ready_index.rs.
// `first`, `contains`, `insert` and `remove` (calls.rt) are the calls on a tree by itself, which ask for table and
// number first. A queue's calls have asked for these and more, and use the functions here, each on the tree under a
// root: a number outside the table is Damaged here.
#![tactic(auto)]

mod calls;

ghost use Rattle.std.specs.Prelude.{◌+◌, ◌-◌, ◌≤◌, [], ◌≡◌, length};
ghost use Rattle.refusal.specs.Answer.{or_damaged};
ghost use Rattle.rows.specs.Asked.{answering};
ghost use Rattle.rows.specs.Table.{table, out};
ghost use Rattle.rows.specs.Frame.{Framed};
ghost use Rattle.ready_index.specs.Index as index;
ghost use Rattle.ready_index.specs.Path.{step_of, stack, walk_of, walk_steps, last_sought, search_of, search_steps};
ghost use Rattle.ready_index.specs.Path.{successor_of, successor_steps};

pub use calls::{contains, first, insert, remove};
use codec::Row;
use refusal::Damaged;
use rotations::{balance, rebalance};
use rows::{key_at, links_at, set_left, set_links, set_right};
use std::cmp::Ordering;
use thread::{Links, TreeKey, compare_tree_keys};

// A 24-bit registry slot namespace cannot contain the 24,157,816 nodes that height 35 needs; forty entries include the
// removal's successor path.
pub const MAX_PATH: usize = 40;

// A step of a path: the number of a record, and the side.
pub const PATH_STEP_WORDS: usize = 2;

pub type PathStep = [u64; PATH_STEP_WORDS];

pub type Path = [PathStep; MAX_PATH];

// A step of a path: the node, and whether the path went to its right.
#[derive(Clone, Copy)]
pub struct Step {
    pub id: u64,
    pub right: bool,
}

// Where a key goes on from a node.
#[derive(Clone, Copy)]
pub enum Way {
    Left(Option<u64>),
    Right(Option<u64>),
    Equal,
    Damaged,
}

// Where the search for a thread goes on from a node.
#[derive(Clone, Copy)]
pub enum Sought {
    Left(Option<u64>),
    Right(Option<u64>),
    Found(Links),
    Damaged,
}

// How many steps of the path lead to a thread, and its links.
#[derive(Clone, Copy)]
pub enum Searched {
    Found { steps: usize, links: Links },
    Damaged,
}

// How many steps of the path lead to a right side's leftmost thread, that thread, and its right link.
#[derive(Clone, Copy)]
pub enum Succeeded {
    Next {
        steps: usize,
        id: u64,
        right: Option<u64>,
    },
    Damaged,
}

// Down the left links. The loop of `Tree::first`.
fn descend(t: &[Row], start: u64) -> Result<Option<u64>, Damaged>
    ensures { result ≡ index.descend index.max_path (table t.now) start }
{
    let mut id = start;
    let mut room = MAX_PATH;
    while 0 < room {
        let Ok(links) = links_at(t, id) else {
            return Err(Damaged);
        };
        let left = links.left;
        let Some(next) = left else {
            return Ok(Some(id));
        };
        id = next;
        room -= 1;
    }
    Err(Damaged)
}

// The least thread of the tree under a root.
pub fn first_under(t: &[Row], root: Option<u64>) -> Result<Option<u64>, Damaged>
    ensures { or_damaged result ≡ or_damaged (index.first (table t.now) root) }
{
    match root {
        None => Ok(None),
        Some(id) => descend(t, id),
    }
}

// Where a key goes on from a node.
fn way_at(t: &[Row], key: TreeKey, node: u64) -> Way
    ensures { result ≡ index.way_at (table t.now) key node }
{
    let Ok(other) = key_at(t, node) else {
        return Way::Damaged;
    };
    match compare_tree_keys(key, other) {
        Ordering::Less => {
            let Ok(links) = links_at(t, node) else {
                return Way::Damaged;
            };
            let left = links.left;
            Way::Left(left)
        }
        Ordering::Equal => Way::Equal,
        Ordering::Greater => {
            let Ok(links) = links_at(t, node) else {
                return Way::Damaged;
            };
            let right = links.right;
            Way::Right(right)
        }
    }
}

// Down from the root by the key. The loop of `Tree::contains`.
fn look_for(t: &[Row], key: TreeKey, id: u64, root: Option<u64>) -> Result<bool, Damaged>
    ensures { result ≡ index.look_for index.max_path (table t.now) key id root }
{
    let mut current = root;
    let mut room = MAX_PATH;
    while 0 < room {
        let Some(node) = current else {
            return Ok(false);
        };
        match way_at(t, key, node) {
            Way::Left(next) => {
                current = next;
                room -= 1;
            }
            Way::Right(next) => {
                current = next;
                room -= 1;
            }
            Way::Equal => {
                if node == id {
                    return Ok(true);
                }
                return Ok(false);
            }
            Way::Damaged => {
                return Err(Damaged);
            }
        }
    }
    Err(Damaged)
}

// Whether the tree under a root holds a thread.
pub fn contains_under(t: &[Row], root: Option<u64>, id: u64) -> Result<bool, Damaged>
    ensures { or_damaged result ≡ or_damaged (index.contains (table t.now) root id) }
{
    let Ok(key) = key_at(t, id) else {
        return Err(Damaged);
    };
    look_for(t, key, id, root)
}

// Down from the root to where a key is to stand; each step is stored on the path. The loop of `insert_at`.
fn walk(t: &[Row], path: &mut [PathStep], key: TreeKey, root: Option<u64>) -> Result<usize, Damaged>
    ensures path_after { walk_of result path.new ≡ index.walk (length path.old)
        (table t.now) key root [] }
    ensures result_in_bounds { walk_steps result ≤ length path.new }
{
    let mut current = root;
    let mut len: usize = 0;
    while len < path.len() {
        let Some(parent) = current else {
            return Ok(len);
        };
        match way_at(t, key, parent) {
            Way::Left(next) => {
                path[len] = [parent, 0];
                current = next;
                len += 1;
            }
            Way::Right(next) => {
                path[len] = [parent, 1];
                current = next;
                len += 1;
            }
            Way::Equal => {
                return Err(Damaged);
            }
            Way::Damaged => {
                return Err(Damaged);
            }
        }
    }
    match current {
        None => Ok(len),
        Some(_) => Err(Damaged),
    }
}

// One step up: the new subtree is hung under the node where the step led, and the node balanced. Its links are read
// before the store and not again: a load that may or may not meet a store just made waits for it.
fn rebuild_step(t: &mut [Row], step: [u64; 2], sub: Option<u64>) -> Result<u64, Damaged>
    ensures t_after { out (or_damaged result) (table t.new)
        ≡ answering or_damaged (index.rebuild_step (table t.old) (step_of step) sub) }
    ensures framed { Framed t.old t.new }
{
    let parent = step[0];
    let Ok(links) = links_at(t, parent) else {
        return Err(Damaged);
    };
    let left = links.left;
    let right = links.right;
    if step[1] == 0 {
        let Ok(()) = set_left(t, parent, sub) else {
            return Err(Damaged);
        };
        return rebalance(t, parent, sub, right);
    }
    let Ok(()) = set_right(t, parent, sub) else {
        return Err(Damaged);
    };
    rebalance(t, parent, left, sub)
}

// The same answer made anew of its parts, so that it is stored part by part and read so: as a whole it could only be
// read once the stores of its parts are through.
fn by_parts(rooted: Result<Option<u64>, Damaged>) -> Result<Option<u64>, Damaged>
    ensures { result ≡ rooted }
{
    match rooted {
        Ok(link) => match link {
            None => Ok(None),
            Some(id) => Ok(Some(id)),
        },
        Err(Damaged) => Err(Damaged),
    }
}

// Up along so many steps of the path, those from the row `start` on. After `rebuild`.
fn rebuild(
    t: &mut [Row],
    path: &[PathStep],
    start: usize,
    steps: usize,
    subtree: Option<u64>,
) -> Result<Option<u64>, Damaged>
    requires { start + steps ≤ length path.now }
    ensures t_after { out result (table t.new) ≡ index.rebuild (stack path.now start steps)
        (table t.old) subtree }
    ensures framed { Framed t.old t.new }
{
    let mut len = steps;
    let mut sub = subtree;
    while 0 < len {
        len -= 1;
        let k = start + len;
        let step = path[k];
        let Ok(top) = rebuild_step(t, step, sub) else {
            return Err(Damaged);
        };
        sub = Some(top);
    }
    by_parts(Ok(sub))
}

// Duplicates and overlong paths are refused before an existing record is changed. After `insert_at`.
fn insert_at(
    t: &mut [Row],
    path: &mut [PathStep],
    key: TreeKey,
    root: Option<u64>,
    id: u64,
) -> Result<Option<u64>, Damaged>
    ensures t_after { out result (table t.new) ≡ index.insert_at (table t.old)
        (length path.old) key root id }
    ensures framed { Framed t.old t.new }
{
    let Ok(steps) = walk(t, path, key, root) else {
        return Err(Damaged);
    };
    let Ok(()) = set_links(t, id, Links::EMPTY) else {
        return Err(Damaged);
    };
    let rebuilt = rebuild(t, path, 0, steps, Some(id));
    by_parts(rebuilt)
}

// A thread put into the tree under a root, by a path that is lent for the time of the call.
pub fn insert_under(
    t: &mut [Row],
    path: &mut Path,
    root: Option<u64>,
    id: u64,
) -> Result<Option<u64>, Damaged>
    ensures t_after { out (or_damaged result) (table t.new)
        ≡ answering or_damaged (index.insert (table t.old) root id) }
    ensures framed { Framed t.old t.new }
{
    let Ok(key) = key_at(t, id) else {
        return Err(Damaged);
    };
    insert_at(t, path, key, root, id)
}

// Where the search for a thread goes on from a node.
fn sought_at(t: &[Row], key: TreeKey, id: u64, node: u64) -> Sought
    ensures { result ≡ index.sought_at (table t.now) key id node }
{
    let Ok(links) = links_at(t, node) else {
        return Sought::Damaged;
    };
    let Ok(other) = key_at(t, node) else {
        return Sought::Damaged;
    };
    match compare_tree_keys(key, other) {
        Ordering::Less => {
            let left = links.left;
            Sought::Left(left)
        }
        Ordering::Equal => {
            if node == id {
                return Sought::Found(links);
            }
            Sought::Damaged
        }
        Ordering::Greater => {
            let right = links.right;
            Sought::Right(right)
        }
    }
}

// The end of a search whose path is full: the thread stands here or is not found.
fn last_sought(t: &[Row], key: TreeKey, id: u64, at: Option<u64>, steps: usize) -> Searched
    ensures { result ≡ last_sought (table t.now) key id at steps }
{
    let Some(node) = at else {
        return Searched::Damaged;
    };
    match sought_at(t, key, id, node) {
        Sought::Left(_) => Searched::Damaged,
        Sought::Right(_) => Searched::Damaged,
        Sought::Found(links) => Searched::Found { steps, links },
        Sought::Damaged => Searched::Damaged,
    }
}

// Down from the root to a thread; each step is stored on the path. The first loop of `remove_at`.
fn search(t: &[Row], path: &mut [PathStep], key: TreeKey, id: u64, root: Option<u64>) -> Searched
    ensures path_after { search_of result path.new ≡ index.search (length path.old)
        (table t.now) key id root [] }
    ensures result_in_bounds { search_steps result ≤ length path.new }
{
    let mut current = root;
    let mut len: usize = 0;
    while len < path.len() {
        let Some(parent) = current else {
            return Searched::Damaged;
        };
        match sought_at(t, key, id, parent) {
            Sought::Left(next) => {
                path[len] = [parent, 0];
                current = next;
                len += 1;
            }
            Sought::Right(next) => {
                path[len] = [parent, 1];
                current = next;
                len += 1;
            }
            Sought::Found(links) => {
                return Searched::Found { steps: len, links };
            }
            Sought::Damaged => {
                return Searched::Damaged;
            }
        }
    }
    last_sought(t, key, id, current, len)
}

// Down the left links to the leftmost thread; each step is stored on the path from the row `start` on. The second loop
// of `remove_at`.
fn successor(t: &[Row], path: &mut [PathStep], start: usize, node: u64) -> Succeeded
    requires { start ≤ length path.old }
    ensures start_after { successor_of result path.new start ≡ index.successor (length path.old - start)
        (table t.now) node [] }
    ensures result_in_bounds { start + successor_steps result ≤ length path.new }
    ensures start_unchanged { stack path.new 0 start ≡ stack path.old 0 start }
{
    let mut id = node;
    let mut len: usize = 0;
    loop {
        let Ok(links) = links_at(t, id) else {
            return Succeeded::Damaged;
        };
        let left = links.left;
        let right = links.right;
        let Some(next) = left else {
            return Succeeded::Next {
                steps: len,
                id,
                right,
            };
        };
        let k = start + len;
        if path.len() <= k {
            return Succeeded::Damaged;
        }
        path[k] = [id, 0];
        id = next;
        len += 1;
    }
}

// These links stored at a record, which is then balanced.
fn store_balanced(t: &mut [Row], i: u64, links: Links) -> Result<Option<u64>, Damaged>
    ensures t_after { out result (table t.new) ≡ index.store_balanced (table t.old) i links }
    ensures framed { Framed t.old t.new }
{
    let Ok(()) = set_links(t, i, links) else {
        return Err(Damaged);
    };
    let Ok(top) = balance(t, i) else {
        return Err(Damaged);
    };
    Ok(Some(top))
}

// A removed thread with two sides is replaced by its successor, whose own path is rebuilt first; that lies above the
// first steps of the path.
fn replace_by_successor(
    t: &mut [Row],
    path: &mut [PathStep],
    steps: usize,
    left: u64,
    right: u64,
) -> Result<Option<u64>, Damaged>
    requires { steps ≤ length path.old }
    ensures t_after { out result (table t.new) ≡ index.replace_by_successor (table t.old)
        (length path.old - steps) left right }
    ensures steps_unchanged { stack path.new 0 steps ≡ stack path.old 0 steps }
    ensures framed { Framed t.old t.new }
{
    let Succeeded::Next {
        steps: more,
        id,
        right: rest,
    } = successor(t, path, steps, right)
    else {
        return Err(Damaged);
    };
    let Ok(sub) = rebuild(t, path, steps, more, rest) else {
        return Err(Damaged);
    };
    store_balanced(
        t,
        id,
        Links {
            left: Some(left),
            right: sub,
            height: 1,
        },
    )
}

// What takes the place of a removed thread with these links.
fn replace(
    t: &mut [Row],
    path: &mut [PathStep],
    steps: usize,
    left: Option<u64>,
    right: Option<u64>,
) -> Result<Option<u64>, Damaged>
    requires { steps ≤ length path.old }
    ensures t_after { out result (table t.new)
        ≡ index.replace (table t.old) (length path.old - steps) left right }
    ensures steps_unchanged { stack path.new 0 steps ≡ stack path.old 0 steps }
    ensures framed { Framed t.old t.new }
{
    let Some(a) = left else {
        return Ok(right);
    };
    let Some(b) = right else {
        return Ok(Some(a));
    };
    replace_by_successor(t, path, steps, a, b)
}

// The path to a removed thread is rebuilt over what took its place, and the thread's own links are emptied last.
fn rebuild_removed(
    t: &mut [Row],
    path: &[PathStep],
    steps: usize,
    sub: Option<u64>,
    id: u64,
) -> Result<Option<u64>, Damaged>
    requires { steps ≤ length path.now }
    ensures t_after { out result (table t.new) ≡ index.rebuild_removed (table t.old)
        (stack path.now 0 steps) sub id }
    ensures framed { Framed t.old t.new }
{
    let Ok(top) = rebuild(t, path, 0, steps, sub) else {
        return Err(Damaged);
    };
    let emptied = Links::EMPTY;
    let Ok(()) = set_links(t, id, emptied) else {
        return Err(Damaged);
    };
    by_parts(Ok(top))
}

// The thread that so many steps lead to is replaced, and the path to it rebuilt.
fn remove_found(
    t: &mut [Row],
    path: &mut [PathStep],
    steps: usize,
    links: Links,
    id: u64,
) -> Result<Option<u64>, Damaged>
    requires { steps ≤ length path.old }
    ensures t_after { out result (table t.new) ≡ index.remove_found (table t.old)
        (stack path.old 0 steps) links (length path.old - steps) id }
    ensures framed { Framed t.old t.new }
{
    let left = links.left;
    let right = links.right;
    let Ok(sub) = replace(t, path, steps, left, right) else {
        return Err(Damaged);
    };
    rebuild_removed(t, path, steps, sub, id)
}

// After `remove_at`.
fn remove_at(
    t: &mut [Row],
    path: &mut [PathStep],
    key: TreeKey,
    root: Option<u64>,
    id: u64,
) -> Result<Option<u64>, Damaged>
    ensures t_after { out result (table t.new) ≡ index.remove_at (table t.old)
        (length path.old) key root id }
    ensures framed { Framed t.old t.new }
{
    let Searched::Found { steps, links } = search(t, path, key, id, root) else {
        return Err(Damaged);
    };
    remove_found(t, path, steps, links, id)
}

// A thread taken out of the tree under a root, by a path that is lent for the time of the call.
pub fn remove_under(
    t: &mut [Row],
    path: &mut Path,
    root: Option<u64>,
    id: u64,
) -> Result<Option<u64>, Damaged>
    ensures t_after { out (or_damaged result) (table t.new)
        ≡ answering or_damaged (index.remove (table t.old) root id) }
    ensures framed { Framed t.old t.new }
{
    let Ok(key) = key_at(t, id) else {
        return Err(Damaged);
    };
    remove_at(t, path, key, root, id)
}
