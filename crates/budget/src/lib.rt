// Fixed-window budgets. After scheduler/algorithms/budget.rs; each call judges the parameters it is handed.
#![tactic(auto)]

ghost use Rattle.std.specs.Prelude.{◌≡◌};
ghost use Rattle.refusal.specs.Answer.{by_number};
ghost use Rattle.budget.specs.Runtime.{refreshed, charged, expiry_within, deadline_after, reconfigured, made};
ghost use Rattle.budget.specs.Runtime.{refreshed_judged, accounted_interval, period_deadline, deadline_judged};
ghost use Rattle.budget.specs.Runtime.{turn_finished, reconfigured_judged};

use policy::BudgetParameters;
use refusal::Refusal;
use time::{charge_of, checked_add, epoch_of, epoch_rises, period_end};

#[derive(Clone, Copy)]
pub struct BudgetRuntime {
    pub epoch: Option<u64>,
    pub remaining_ns: u64,
    pub burst_remaining_ns: u64,
}

impl BudgetRuntime {
    pub fn new(parameters: BudgetParameters) -> Result<BudgetRuntime, Refusal>
        ensures { by_number result ≡ made parameters }
    {
        if !parameters.is_sound() {
            return Err(Refusal::BadBudget);
        }
        Ok(Self {
            epoch: None,
            remaining_ns: parameters.budget_ns,
            burst_remaining_ns: parameters.burst_ns,
        })
    }

    pub fn remaining_ns(self) -> u64
        ensures { result ≡ self.remaining_ns }
    {
        self.remaining_ns
    }

    pub fn burst_remaining_ns(self) -> u64
        ensures { result ≡ self.burst_remaining_ns }
    {
        self.burst_remaining_ns
    }

    fn refreshed(self, now: u64, parameters: BudgetParameters) -> Self
        ensures { result ≡ refreshed self now parameters }
    {
        let epoch = epoch_of(now, parameters.period_ns);
        let previous = self.epoch;
        if epoch_rises(previous, epoch) {
            return Self {
                epoch: Some(epoch),
                remaining_ns: parameters.budget_ns,
                burst_remaining_ns: self.burst_remaining_ns,
            };
        }
        Self {
            epoch: previous,
            remaining_ns: self.remaining_ns.min(parameters.budget_ns),
            burst_remaining_ns: self.burst_remaining_ns,
        }
    }

    // Refills only when the epoch rises; otherwise the lesser of what remains and the budget.
    pub fn refresh(self, now: u64, parameters: BudgetParameters) -> Result<BudgetRuntime, Refusal>
        ensures { by_number result ≡ refreshed_judged self now parameters }
    {
        if !parameters.is_sound() {
            return Err(Refusal::BadBudget);
        }
        Ok(self.refreshed(now, parameters))
    }

    fn charged(self, start: u64, end: u64, parameters: BudgetParameters) -> Self
        ensures { result ≡ charged self start end parameters }
    {
        let fresh = self.refreshed(end, parameters);
        let epoch = fresh.epoch;
        let charge = charge_of(start, end, parameters.period_ns);
        let elapsed = end.saturating_sub(start);
        Self {
            epoch,
            remaining_ns: fresh.remaining_ns.saturating_sub(charge),
            burst_remaining_ns: fresh.burst_remaining_ns.saturating_sub(elapsed),
        }
    }

    // The budget is charged only from the start of the period that holds the end; the burst takes the whole interval.
    pub fn account_interval(
        self,
        start: u64,
        end: u64,
        parameters: BudgetParameters,
    ) -> Result<BudgetRuntime, Refusal>
        ensures { by_number result ≡ accounted_interval self start end parameters }
    {
        if !parameters.is_sound() {
            return Err(Refusal::BadBudget);
        }
        if end < start {
            return Err(Refusal::BackInTime);
        }
        Ok(self.charged(start, end, parameters))
    }

    pub fn period_deadline(now: u64, parameters: BudgetParameters) -> Result<Option<u64>, Refusal>
        ensures { by_number result ≡ period_deadline now parameters }
    {
        if !parameters.is_sound() {
            return Err(Refusal::BadBudget);
        }
        Ok(period_end(now, parameters.period_ns))
    }

    // Of a runtime that is refreshed to now.
    fn deadline_after(self, now: u64, parameters: BudgetParameters, borrow: bool) -> Option<u64>
        ensures { result ≡ deadline_after self now parameters borrow }
    {
        if self.remaining_ns == 0 {
            if borrow {
                return expiry_within(now, self.burst_remaining_ns, parameters);
            }
            return period_end(now, parameters.period_ns);
        }
        let execution = self.remaining_ns.min(self.burst_remaining_ns);
        expiry_within(now, execution, parameters)
    }

    pub fn deadline(
        self,
        now: u64,
        parameters: BudgetParameters,
        borrow: bool,
    ) -> Result<(BudgetRuntime, Option<u64>), Refusal>
        ensures { by_number result ≡ deadline_judged self now parameters borrow }
    {
        if !parameters.is_sound() {
            return Err(Refusal::BadBudget);
        }
        let fresh = self.refreshed(now, parameters);
        Ok((fresh, fresh.deadline_after(now, parameters, borrow)))
    }

    pub fn finish_turn(self, parameters: BudgetParameters) -> Result<BudgetRuntime, Refusal>
        ensures { by_number result ≡ turn_finished self parameters }
    {
        if !parameters.is_sound() {
            return Err(Refusal::BadBudget);
        }
        let epoch = self.epoch;
        Ok(Self {
            epoch,
            remaining_ns: self.remaining_ns,
            burst_remaining_ns: parameters.burst_ns,
        })
    }

    fn reconfigured(self, old: BudgetParameters, new: BudgetParameters) -> Self
        ensures { result ≡ reconfigured self old new }
    {
        let epoch = self.epoch;
        let consumed = old.budget_ns.saturating_sub(self.remaining_ns);
        let burst_consumed = old.burst_ns.saturating_sub(self.burst_remaining_ns);
        let left = new.budget_ns.saturating_sub(consumed);
        let burst_left = new.burst_ns.saturating_sub(burst_consumed);
        Self {
            epoch,
            remaining_ns: self.remaining_ns.min(left),
            burst_remaining_ns: self.burst_remaining_ns.min(burst_left),
        }
    }

    // Changes ceilings without opening a new window or turn.
    pub fn reconfigure(
        self,
        old: BudgetParameters,
        new: BudgetParameters,
    ) -> Result<Option<BudgetRuntime>, Refusal>
        ensures { by_number result ≡ reconfigured_judged self old new }
    {
        if !old.is_sound() {
            return Err(Refusal::BadBudget);
        }
        if !new.is_sound() {
            return Err(Refusal::BadBudget);
        }
        if old.period_ns == new.period_ns {
            return Ok(Some(self.reconfigured(old, new)));
        }
        Ok(None)
    }
}

// The earlier of the execution's end and the period's, or none where either does not fit.
fn expiry_within(now: u64, execution: u64, parameters: BudgetParameters) -> Option<u64>
    ensures { result ≡ expiry_within now execution parameters }
{
    let Some(expiry) = checked_add(now, execution) else {
        return None;
    };
    let Some(end) = period_end(now, parameters.period_ns) else {
        return None;
    };
    Some(expiry.min(end))
}
