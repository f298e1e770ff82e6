// A CPU window's configuration: which periods, allowances, floors and ranks are taken, and which threads they admit.
// After scheduler/algorithms/arbitration.rs.
#![tactic(auto)]

ghost use Rattle.std.specs.Prelude.{◌≡◌};
ghost use Rattle.refusal.specs.Answer.{by_number};
ghost use Rattle.window_config.specs.Config.{ranks_rise, same_backend, sound_config, new_config, preferring};
ghost use Rattle.window_config.specs.Config.{accepts_budget, admitted};

use policy::{BudgetParameters, FairBackend, SchedulingParameters, SchedulingPolicy};
use refusal::Refusal;

// The ranks of the algorithms within one urgency.
#[derive(Clone, Copy)]
pub struct ArbitrationOrder {
    pub priority_rank: u8,
    pub budget_rank: u8,
    pub fair_rank: u8,
    pub borrow_rank: u8,
}

impl ArbitrationOrder {
    pub const DEFAULT: Self = Self {
        priority_rank: 0,
        budget_rank: 1,
        fair_rank: 2,
        borrow_rank: 3,
    };
}

#[derive(Clone, Copy)]
pub struct ArbitrationConfig {
    pub period_ns: u64,
    pub priority_allowance_ns: u64,
    pub protected_floor_ns: u64,
    pub order: ArbitrationOrder,
    pub prefer_fair: bool,
}

impl ArbitrationConfig {
    pub fn new(
        period_ns: u64,
        priority_allowance_ns: u64,
        protected_floor_ns: u64,
        order: ArbitrationOrder,
    ) -> Result<ArbitrationConfig, Refusal>
        ensures { by_number result ≡ new_config period_ns priority_allowance_ns protected_floor_ns order }
    {
        let config = Self {
            period_ns,
            priority_allowance_ns,
            protected_floor_ns,
            order,
            prefer_fair: false,
        };
        if config.is_sound() {
            Ok(config)
        } else {
            Err(Refusal::BadConfig)
        }
    }

    // Whether `new` would take its period, allowance, floor and ranks.
    pub fn is_sound(self) -> bool
        ensures { result ≡ sound_config self }
    {
        if self.period_ns == 0 {
            return false;
        }
        if BudgetParameters::MAX_PERIOD_NS < self.period_ns {
            return false;
        }
        if self.protected_floor_ns == 0 {
            return false;
        }
        if self.period_ns <= self.protected_floor_ns {
            return false;
        }
        if self.period_ns - self.protected_floor_ns <= self.priority_allowance_ns {
            return false;
        }
        let order = self.order;
        ranks_rise(order)
    }

    pub fn with_prefer_fair(self, prefer_fair: bool) -> Self
        ensures { result ≡ preferring self prefer_fair }
    {
        let order = self.order;
        Self {
            period_ns: self.period_ns,
            priority_allowance_ns: self.priority_allowance_ns,
            protected_floor_ns: self.protected_floor_ns,
            order,
            prefer_fair,
        }
    }

    // A budget must have the window's period.
    pub fn accepts(self, parameters: SchedulingParameters) -> bool
        ensures { result ≡ accepts_budget self parameters }
    {
        let budget = parameters.budget;
        match budget {
            None => true,
            Some(b) => b.period_ns == self.period_ns,
        }
    }

    // One fair backend on an image, no Idle thread, and the window's period.
    pub fn admits(self, parameters: SchedulingParameters, fair_backend: FairBackend) -> bool
        ensures { result ≡ admitted self parameters fair_backend }
    {
        let policy = parameters.policy;
        let backend = parameters.fair_backend;
        if !self.accepts(parameters) {
            return false;
        }
        match policy {
            SchedulingPolicy::Fifo { priority: _ } => true,
            SchedulingPolicy::Fair => same_backend(backend, fair_backend),
            SchedulingPolicy::Budget => true,
            SchedulingPolicy::Idle => false,
        }
    }
}

fn same_backend(a: FairBackend, b: FairBackend) -> bool
    ensures { result ≡ same_backend a b }
{
    match a {
        FairBackend::Stride => match b {
            FairBackend::Stride => true,
            FairBackend::RoundRobin => false,
        },
        FairBackend::RoundRobin => match b {
            FairBackend::Stride => false,
            FairBackend::RoundRobin => true,
        },
    }
}

fn ranks_rise(order: ArbitrationOrder) -> bool
    ensures { result ≡ ranks_rise order }
{
    if order.budget_rank <= order.priority_rank {
        return false;
    }
    if order.fair_rank <= order.budget_rank {
        return false;
    }
    if order.borrow_rank <= order.fair_rank {
        return false;
    }
    true
}
