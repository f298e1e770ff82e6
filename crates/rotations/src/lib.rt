// Heights, rotations and the balancing of one node, in the order of reads and stores of ready_index.rs.
#![tactic(auto)]

ghost use Rattle.std.specs.Prelude.{◌+◌, ◌-◌, ◌≡◌};
ghost use Rattle.refusal.specs.Answer.{or_damaged};
ghost use Rattle.avl.specs.Rotation.{lean_of};
ghost use Rattle.rows.specs.Asked.{answering};
ghost use Rattle.rows.specs.Table.{table, out};
ghost use Rattle.rows.specs.Frame.{Framed};
ghost use Rattle.rotations.specs.Balance as spec;
ghost use Rattle.rotations.specs.InPlace.{is_even, height_stored, balance_by};

use avl::{Lean, lean_of};
use codec::Row;
use refusal::Damaged;
use rows::{links_at, set_height, set_links};
use thread::Links;

fn height(t: &[Row], l: Option<u64>) -> Result<u8, Damaged>
    ensures { result ≡ spec.height (table t.now) l }
{
    match l {
        None => Ok(0),
        Some(i) => {
            let Ok(links) = links_at(t, i) else {
                return Err(Damaged);
            };
            Ok(links.height)
        }
    }
}

fn larger(a: u8, b: u8) -> u8
    ensures { result ≡ spec.larger a b }
{
    if a < b { b } else { a }
}

fn update(t: &mut [Row], i: u64, links: Links) -> Result<(), Damaged>
    ensures t_after { out (or_damaged result) (table t.new)
        ≡ answering or_damaged (spec.update (table t.old) i links) }
    ensures framed { Framed t.old t.new }
{
    let left = links.left;
    let right = links.right;
    let Ok(a) = height(t, left) else {
        return Err(Damaged);
    };
    let Ok(b) = height(t, right) else {
        return Err(Damaged);
    };
    let m = larger(a, b);
    if m < 255 {
        return set_links(
            t,
            i,
            Links {
                left,
                right,
                height: m + 1,
            },
        );
    }
    Err(Damaged)
}

fn rotate_left(t: &mut [Row], i: u64) -> Result<u64, Damaged>
    ensures t_after { out result (table t.new) ≡ spec.rotate_left (table t.old) i }
    ensures framed { Framed t.old t.new }
{
    let Ok(links) = links_at(t, i) else {
        return Err(Damaged);
    };
    let right_link = links.right;
    let Some(right) = right_link else {
        return Err(Damaged);
    };
    let Ok(replacement) = links_at(t, right) else {
        return Err(Damaged);
    };
    let outer = links.left;
    let inner = replacement.left;
    let other = replacement.right;
    let Ok(()) = update(
        t,
        i,
        Links {
            left: outer,
            right: inner,
            height: links.height,
        },
    ) else {
        return Err(Damaged);
    };
    let Ok(()) = update(
        t,
        right,
        Links {
            left: Some(i),
            right: other,
            height: replacement.height,
        },
    ) else {
        return Err(Damaged);
    };
    Ok(right)
}

fn rotate_right(t: &mut [Row], i: u64) -> Result<u64, Damaged>
    ensures t_after { out result (table t.new) ≡ spec.rotate_right (table t.old) i }
    ensures framed { Framed t.old t.new }
{
    let Ok(links) = links_at(t, i) else {
        return Err(Damaged);
    };
    let left_link = links.left;
    let Some(left) = left_link else {
        return Err(Damaged);
    };
    let Ok(replacement) = links_at(t, left) else {
        return Err(Damaged);
    };
    let outer = links.right;
    let inner = replacement.right;
    let other = replacement.left;
    let Ok(()) = update(
        t,
        i,
        Links {
            left: inner,
            right: outer,
            height: links.height,
        },
    ) else {
        return Err(Damaged);
    };
    let Ok(()) = update(
        t,
        left,
        Links {
            left: other,
            right: Some(i),
            height: replacement.height,
        },
    ) else {
        return Err(Damaged);
    };
    Ok(left)
}

// The right child is rotated outward, and then the old copy of the links is written back with it.
fn double_left(t: &mut [Row], i: u64, links: Links, right: u64) -> Result<u64, Damaged>
    ensures t_after { out result (table t.new) ≡ spec.double_left (table t.old) i links right }
    ensures framed { Framed t.old t.new }
{
    let kept = links.left;
    let Ok(top) = rotate_right(t, right) else {
        return Err(Damaged);
    };
    let Ok(()) = set_links(
        t,
        i,
        Links {
            left: kept,
            right: Some(top),
            height: links.height,
        },
    ) else {
        return Err(Damaged);
    };
    rotate_left(t, i)
}

// The left child is rotated outward, and then the old copy of the links is written back with it.
fn double_right(t: &mut [Row], i: u64, links: Links, left: u64) -> Result<u64, Damaged>
    ensures t_after { out result (table t.new) ≡ spec.double_right (table t.old) i links left }
    ensures framed { Framed t.old t.new }
{
    let kept = links.right;
    let Ok(top) = rotate_left(t, left) else {
        return Err(Damaged);
    };
    let Ok(()) = set_links(
        t,
        i,
        Links {
            left: Some(top),
            right: kept,
            height: links.height,
        },
    ) else {
        return Err(Damaged);
    };
    rotate_right(t, i)
}

// The left side is too high: its inner side is brought outward first where that is the higher.
fn balance_left(t: &mut [Row], i: u64, links: Links) -> Result<u64, Damaged>
    ensures t_after { out result (table t.new) ≡ spec.balance_left (table t.old) i links }
    ensures framed { Framed t.old t.new }
{
    let left_link = links.left;
    let Some(left) = left_link else {
        return Err(Damaged);
    };
    let Ok(child) = links_at(t, left) else {
        return Err(Damaged);
    };
    let outer = child.left;
    let inner = child.right;
    let Ok(a) = height(t, outer) else {
        return Err(Damaged);
    };
    let Ok(b) = height(t, inner) else {
        return Err(Damaged);
    };
    if a < b {
        return double_right(t, i, links, left);
    }
    rotate_right(t, i)
}

// The right side is too high.
fn balance_right(t: &mut [Row], i: u64, links: Links) -> Result<u64, Damaged>
    ensures t_after { out result (table t.new) ≡ spec.balance_right (table t.old) i links }
    ensures framed { Framed t.old t.new }
{
    let right_link = links.right;
    let Some(right) = right_link else {
        return Err(Damaged);
    };
    let Ok(child) = links_at(t, right) else {
        return Err(Damaged);
    };
    let outer = child.right;
    let inner = child.left;
    let Ok(a) = height(t, outer) else {
        return Err(Damaged);
    };
    let Ok(b) = height(t, inner) else {
        return Err(Damaged);
    };
    if a < b {
        return double_left(t, i, links, right);
    }
    rotate_left(t, i)
}

// Bytes compared as words.
fn lean(left: u8, right: u8) -> Lean
    ensures { result ≡ lean_of left right }
{
    lean_of(left as u64, right as u64)
}

pub fn balance(t: &mut [Row], i: u64) -> Result<u64, Damaged>
    ensures t_after { out (or_damaged result) (table t.new)
        ≡ answering or_damaged (spec.balance (table t.old) i) }
    ensures framed { Framed t.old t.new }
{
    let Ok(links) = links_at(t, i) else {
        return Err(Damaged);
    };
    let left = links.left;
    let right = links.right;
    let Ok(a) = height(t, left) else {
        return Err(Damaged);
    };
    let Ok(b) = height(t, right) else {
        return Err(Damaged);
    };
    match lean(a, b) {
        Lean::Left => balance_left(t, i, links),
        Lean::Right => balance_right(t, i, links),
        Lean::Even => {
            let Ok(()) = update(t, i, links) else {
                return Err(Damaged);
            };
            Ok(i)
        }
    }
}

// Neither side is higher by two or more.
fn is_even(left: u8, right: u8) -> bool
    ensures { result ≡ is_even left right }
{
    let a = left as u64;
    let b = right as u64;
    if b + 1 < a {
        return false;
    }
    if a + 1 < b {
        return false;
    }
    true
}

// The height above sides of these heights, stored at a node that stays where it is.
fn store_height(t: &mut [Row], i: u64, left: u8, right: u8) -> Result<u64, Damaged>
    ensures t_after { out result (table t.new) ≡ height_stored (table t.old) i left right }
    ensures framed { Framed t.old t.new }
{
    let m = larger(left, right);
    if m < 255 {
        let Ok(()) = set_height(t, i, m + 1) else {
            return Err(Damaged);
        };
        return Ok(i);
    }
    Err(Damaged)
}

// `balance` for the way up, where the node's links are known and nearly every node stays in its place: then nothing is
// read again, the height alone is stored, and no call is made.
pub fn rebalance(
    t: &mut [Row],
    i: u64,
    left: Option<u64>,
    right: Option<u64>,
) -> Result<u64, Damaged>
    ensures t_after { out (or_damaged result) (table t.new)
        ≡ answering or_damaged (balance_by (table t.old) i left right) }
    ensures framed { Framed t.old t.new }
{
    let Ok(a) = height(t, left) else {
        return Err(Damaged);
    };
    let Ok(b) = height(t, right) else {
        return Err(Damaged);
    };
    if is_even(a, b) {
        return store_height(t, i, a, b);
    }
    let Ok(top) = balance(t, i) else {
        return Err(Damaged);
    };
    Ok(top)
}
