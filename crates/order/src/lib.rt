// Comparing two numbers, as Rust's derived order does with each part of a key.
#![tactic(auto)]

ghost use Rattle.std.specs.Prelude.{◌≡◌};
ghost use Rattle.order.specs.Order.{compare_numbers};

use std::cmp::Ordering;

#[tactic(auto,
// The definitions that are opened.
unfolding(crate::specs::Order::compare_numbers, refusal::specs::Cases::if_less, refusal::specs::Cases::choose))]
pub fn compare_numbers(a: u64, b: u64) -> Ordering
    ensures { result ≡ compare_numbers a b }
{
    a.cmp(&b)
}
