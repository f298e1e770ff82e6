// Dispatch keys and their order: urgency, rank, algorithm rank, algorithm, band, turn.
#![tactic(auto)]

ghost use Rattle.std.specs.Prelude.{◌≡◌};
ghost use Rattle.dispatch_keys.specs.Keys.{compare_keys};

use algorithms::Wide;
use std::cmp::Ordering;

// Compared part by part, as declared.
#[derive(Clone, Copy, PartialEq, Eq, PartialOrd, Ord)]
pub struct DispatchKey {
    pub urgency: u8,
    pub rank: u8,
    pub algorithm_rank: u8,
    pub algorithm: Wide,
    pub band: u8,
    pub turn: u64,
}

#[tactic(auto,
// The definitions that are opened.
unfolding(crate::specs::Keys::compare_keys, order::specs::Order::compare_parts, order::specs::Order::then_by,
// And what those rest on.
order::specs::Order::compare_numbers, refusal::specs::Cases::if_less, refusal::specs::Cases::choose))]
pub fn compare_keys(a: DispatchKey, b: DispatchKey) -> Ordering
    ensures { result ≡ compare_keys a b }
{
    a.cmp(&b)
}
