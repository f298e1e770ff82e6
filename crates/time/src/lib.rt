// Times are u64 nanoseconds: epochs, periods, deadlines, and the arithmetic on them that the source takes from Rust's
// integers.
#![tactic(auto)]

ghost use Rattle.std.specs.Prelude.{◌≡◌, ◌-◌, ◌/◌, min, max};
ghost use Rattle.time.specs.Time.{rises, period_start, period_end, charge_of, checked_add, earliest_of};

// The sum, or none where it does not fit.
#[tactic(auto,
// The definitions that are opened.
unfolding(crate::specs::Time::checked_add, refusal::specs::Cases::if_less, refusal::specs::Cases::choose))]
pub fn checked_add(a: u64, b: u64) -> Option<u64>
    ensures { result ≡ checked_add a b }
{
    a.checked_add(b)
}

// The epoch of a reading: divided by the period, rounded down. A period of 0 has epoch 0 alone.
pub fn epoch_of(now: u64, period_ns: u64) -> u64
    ensures { result ≡ now / period_ns }
{
    if period_ns == 0 {
        return 0;
    }
    now / period_ns
}

// Whether an epoch is later than the one before, which may be none.
#[tactic(auto, unfolding(crate::specs::Time::rises))]
pub fn epoch_rises(previous: Option<u64>, epoch: u64) -> bool
    ensures { result ≡ rises previous epoch }
{
    previous.is_none_or(|last| last < epoch)
}

// The start of the period that holds a reading.
#[tactic(auto, unfolding(crate::specs::Time::period_start))]
pub fn period_start(now: u64, period_ns: u64) -> u64
    ensures { result ≡ period_start now period_ns }
{
    if period_ns == 0 {
        return 0;
    }
    now - now % period_ns
}

// The end of the period that holds a reading, or none where it does not fit.
#[tactic(auto, using(crate::specs::TimeLaws::end_from_start))]
pub fn period_end(now: u64, period_ns: u64) -> Option<u64>
    ensures { result ≡ period_end now period_ns }
{
    checked_add(period_start(now, period_ns), period_ns)
}

// What an interval charges: only from the start of the period that holds its end.
#[tactic(auto, using(crate::specs::TimeLaws::charge_from_start))]
pub fn charge_of(start: u64, end: u64, period_ns: u64) -> u64
    ensures { result ≡ charge_of start end period_ns }
{
    end.saturating_sub(start.max(period_start(end, period_ns)))
}

// The earlier of two deadlines, each of which may be none. After `earliest` of arbitration.rs.
#[tactic(auto, unfolding(crate::specs::Time::earliest_of))]
pub fn earliest(left: Option<u64>, right: Option<u64>) -> Option<u64>
    ensures { result ≡ earliest_of left right }
{
    match (left, right) {
        (Some(a), Some(b)) => Some(a.min(b)),
        (Some(_), None) => left,
        (None, _) => right,
    }
}
