// Balanced search trees after Adelson-Velsky and Landis (1962; Knuth, volume 3, 6.2.3): their theory is in specs/ and
// proofs/, and the one test on heights that code needs is here.
#![tactic(auto)]

ghost use Rattle.std.specs.Prelude.{◌≡◌};
ghost use Rattle.avl.specs.Rotation.{lean_of};

// Which side of a node is higher by two or more.
#[derive(Clone, Copy)]
pub enum Lean {
    Left,
    Right,
    Even,
}

// The balance factor's test, on the heights of the left and the right side.
pub fn lean_of(left: u64, right: u64) -> Lean
    ensures { result ≡ lean_of left right }
{
    if right < left {
        let more = left - right;
        if 1 < more { Lean::Left } else { Lean::Even }
    } else {
        let more = right - left;
        if 1 < more { Lean::Right } else { Lean::Even }
    }
}
