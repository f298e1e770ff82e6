// Of the current thread's own deadline, what is decided by values: whether a mode borrows, and a budget's expiry
// without a budget peer. After `refresh_deadline`.
ghost use Rattle.std.specs.Prelude.{◌≡◌};
ghost use Rattle.decisions.specs.OwnDeadline.{borrows, saturated_end, budget_expiry};

use arbitration::DispatchMode;
use policy::BudgetParameters;
use time::{checked_add, period_end};

pub fn borrows(mode: DispatchMode) -> bool
    ensures { result ≡ borrows mode }
{
    match mode {
        DispatchMode::StrictFifo => false,
        DispatchMode::Priority => false,
        DispatchMode::Protected => false,
        DispatchMode::Ordinary => false,
        DispatchMode::Borrow => true,
    }
}

// The period's end, or the greatest time where it does not fit.
fn saturated_end(reading: u64, period_ns: u64) -> u64
    ensures { result ≡ saturated_end reading period_ns }
{
    let Some(end) = period_end(reading, period_ns) else {
        return 18_446_744_073_709_551_615;
    };
    end
}

// Without a budget peer: until its time is spent or its period ends; none where the former does not fit.
pub fn budget_expiry(reading: u64, remaining_ns: u64, budget: BudgetParameters) -> Option<u64>
    ensures { result ≡ budget_expiry reading remaining_ns budget }
{
    let Some(expiry) = checked_add(reading, remaining_ns) else {
        return None;
    };
    let end = saturated_end(reading, budget.period_ns);
    Some(expiry.min(end))
}
