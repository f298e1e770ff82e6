// Counting without leaving the range.
ghost use Rattle.std.specs.Prelude.{◌≡◌, ◌+◌, ◌≤◌};
ghost use Rattle.text.specs.Counting.{saturated};

// The sum, the greatest number where it does not fit. (The bound follows; it is said for callers.)
#[tactic(auto, using(refusal::specs::Cases::cases), unfolding(crate::specs::Counting::saturated))]
pub fn saturating_add(a: u64, b: u64) -> u64
    ensures value { result ≡ saturated (a + b) }
    ensures upper_bound { result ≤ a + b }
{
    a.saturating_add(b)
}
