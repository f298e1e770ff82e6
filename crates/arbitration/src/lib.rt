// CPU windows and dispatch keys. After scheduler/algorithms/arbitration.rs; a window goes in by value and comes back
// with the answer.
#![tactic(auto)]

mod tests;

ghost use Rattle.std.specs.Prelude.{◌≡◌};
ghost use Rattle.refusal.specs.Answer.{by_number};
ghost use Rattle.arbitration.specs.Window.{new_window, refreshed, charged, protection_deadline, due_at};
ghost use Rattle.arbitration.specs.Window.{next_deadline};
ghost use Rattle.arbitration.specs.Key.{tier_of, key_of};
ghost use Rattle.arbitration.specs.Calls.{refresh_call, account_call, period_deadline_call, protection_call, key_call};
ghost use Rattle.arbitration.specs.Calls.{next_deadline_call};
ghost use Rattle.arbitration.specs.Answers.{window_step, window_deadline, window_key};

use algorithms::Wide;
use dispatch_keys::DispatchKey;
use policy::SchedulingParameters;
use refusal::Refusal;
pub use tests::{is_priority, is_protected};
use tests::{
    algorithm_of, at_renewal, charge_if, is_exhausted, is_favoured, is_hurried, is_shut_out,
    is_strict_fifo, ordinary_rank, uses_allowance,
};
use time::{charge_of, checked_add, earliest, epoch_of, epoch_rises, period_end};
use window_config::ArbitrationConfig;

// What the runnable threads ask for, the running one included.
#[derive(Clone, Copy)]
pub struct Demand {
    pub protected: bool,
    pub fair: bool,
    pub window_sensitive: bool,
    pub eligible_budget: bool,
    pub any_budget: bool,
}

#[derive(Clone, Copy)]
pub struct Candidate {
    pub parameters: SchedulingParameters,
    pub fair_pass: Wide,
    pub turn: u64,
    pub budget_available: bool,
}

// Why an execution interval was admitted.
#[derive(Clone, Copy)]
pub enum DispatchMode {
    StrictFifo,
    Priority,
    Protected,
    Ordinary,
    Borrow,
}

// Urgency and rank, with the mode that they come from.
#[derive(Clone, Copy)]
struct Tier {
    urgency: u8,
    rank: u8,
    mode: DispatchMode,
}

// The algorithm's rank and its local key.
#[derive(Clone, Copy)]
struct Algorithm {
    rank: u8,
    key: Wide,
}

#[derive(Clone, Copy)]
pub struct CpuWindow {
    pub config: ArbitrationConfig,
    pub epoch: Option<u64>,
    pub priority_remaining_ns: u64,
    pub protected_remaining_ns: u64,
}

#[derive(Clone, Copy)]
pub struct WindowStep {
    pub answer: Result<(), Refusal>,
    pub window: CpuWindow,
}

#[derive(Clone, Copy)]
pub struct WindowDeadline {
    pub answer: Result<Option<u64>, Refusal>,
    pub window: CpuWindow,
}

#[derive(Clone, Copy)]
pub struct WindowKey {
    pub answer: Result<Option<(DispatchKey, DispatchMode)>, Refusal>,
    pub window: CpuWindow,
}

impl CpuWindow {
    pub fn new(config: ArbitrationConfig) -> Result<CpuWindow, Refusal>
        ensures { by_number result ≡ new_window config }
    {
        if !config.is_sound() {
            return Err(Refusal::BadConfig);
        }
        Ok(Self {
            config,
            epoch: None,
            priority_remaining_ns: config.priority_allowance_ns,
            protected_remaining_ns: config.protected_floor_ns,
        })
    }

    pub fn period_ns(self) -> u64
        ensures { result ≡ self.config.period_ns }
    {
        let config = self.config;
        config.period_ns
    }

    // `refresh` of a window that is known to be sound.
    pub fn refreshed(self, now: u64) -> Self
        ensures { result ≡ refreshed self now }
    {
        let config = self.config;
        let previous = self.epoch;
        let epoch = epoch_of(now, config.period_ns);
        if !epoch_rises(previous, epoch) {
            return self;
        }
        Self {
            config,
            epoch: Some(epoch),
            priority_remaining_ns: config.priority_allowance_ns,
            protected_remaining_ns: config.protected_floor_ns,
        }
    }

    // A later epoch refills allowance and floor.
    pub fn refresh(self, now: u64) -> WindowStep
        ensures { window_step result ≡ refresh_call self now }
    {
        if !self.config.is_sound() {
            return WindowStep {
                answer: Err(Refusal::BadConfig),
                window: self,
            };
        }
        WindowStep {
            answer: Ok(()),
            window: self.refreshed(now),
        }
    }

    fn charged(
        self,
        start: u64,
        end: u64,
        parameters: SchedulingParameters,
        mode: DispatchMode,
    ) -> Self
        ensures { result ≡ charged self start end parameters mode }
    {
        let fresh = self.refreshed(end);
        let config = fresh.config;
        let epoch = fresh.epoch;
        let role = parameters.role;
        let charge = charge_of(start, end, config.period_ns);
        let priority_charge = charge_if(uses_allowance(mode, role), charge);
        let protected_charge = charge_if(is_protected(role), charge);
        Self {
            config,
            epoch,
            priority_remaining_ns: fresh.priority_remaining_ns.saturating_sub(priority_charge),
            protected_remaining_ns: fresh
                .protected_remaining_ns
                .saturating_sub(protected_charge),
        }
    }

    // Only service in the period that holds the end is charged.
    pub fn account_dispatch(
        self,
        start: u64,
        end: u64,
        parameters: SchedulingParameters,
        mode: DispatchMode,
    ) -> WindowStep
        ensures { window_step result ≡ account_call self start end parameters mode }
    {
        if !self.config.is_sound() {
            return WindowStep {
                answer: Err(Refusal::BadConfig),
                window: self,
            };
        }
        if end < start {
            return WindowStep {
                answer: Err(Refusal::BackInTime),
                window: self,
            };
        }
        WindowStep {
            answer: Ok(()),
            window: self.charged(start, end, parameters, mode),
        }
    }

    pub fn period_deadline(self, now: u64) -> WindowDeadline
        ensures { window_deadline result ≡ period_deadline_call self now }
    {
        let config = self.config;
        if !config.is_sound() {
            return WindowDeadline {
                answer: Err(Refusal::BadConfig),
                window: self,
            };
        }
        WindowDeadline {
            answer: Ok(period_end(now, config.period_ns)),
            window: self,
        }
    }

    // Of a window that is refreshed to now: when the waiting protected threads must run to get their floor.
    fn protection(self, now: u64, protected_waiting: bool) -> Option<u64>
        ensures { result ≡ protection_deadline self now protected_waiting }
    {
        let config = self.config;
        if !protected_waiting {
            return None;
        }
        if self.protected_remaining_ns == 0 {
            return None;
        }
        let Some(end) = period_end(now, config.period_ns) else {
            return None;
        };
        let latest = end.saturating_sub(self.protected_remaining_ns);
        Some(latest.max(now))
    }

    pub fn protection_deadline(self, now: u64, protected_waiting: bool) -> WindowDeadline
        ensures { window_deadline result ≡ protection_call self now protected_waiting }
    {
        if !self.config.is_sound() {
            return WindowDeadline {
                answer: Err(Refusal::BadConfig),
                window: self,
            };
        }
        let fresh = self.refreshed(now);
        WindowDeadline {
            answer: Ok(fresh.protection(now, protected_waiting)),
            window: fresh,
        }
    }

    fn is_due(self, now: u64, protected_waiting: bool) -> bool
        ensures { result ≡ due_at self now protected_waiting }
    {
        let Some(deadline) = self.protection(now, protected_waiting) else {
            return false;
        };
        deadline == now
    }

    // Of a window that is refreshed to now.
    fn tier(
        self,
        now: u64,
        parameters: SchedulingParameters,
        exhausted: bool,
        demand: Demand,
    ) -> Tier
        ensures { result ≡ tier_of self now parameters exhausted demand }
    {
        let config = self.config;
        let order = config.order;
        let policy = parameters.policy;
        let role = parameters.role;
        if is_strict_fifo(policy, role) {
            return Tier {
                urgency: 0,
                rank: 0,
                mode: DispatchMode::StrictFifo,
            };
        }
        if is_hurried(self.is_due(now, demand.protected), role, exhausted) {
            return Tier {
                urgency: 1,
                rank: 0,
                mode: DispatchMode::Protected,
            };
        }
        if exhausted {
            return Tier {
                urgency: 2,
                rank: order.borrow_rank,
                mode: DispatchMode::Borrow,
            };
        }
        if is_favoured(self.priority_remaining_ns, config.prefer_fair, policy, role) {
            return Tier {
                urgency: 2,
                rank: order.priority_rank,
                mode: DispatchMode::Priority,
            };
        }
        Tier {
            urgency: 2,
            rank: ordinary_rank(policy, order),
            mode: DispatchMode::Ordinary,
        }
    }

    // `candidate_key` of a window that is refreshed to now.
    pub fn key(
        self,
        now: u64,
        candidate: Candidate,
        demand: Demand,
    ) -> Option<(DispatchKey, DispatchMode)>
        ensures { result ≡ key_of self now candidate demand }
    {
        let config = self.config;
        let parameters = candidate.parameters;
        let band = parameters.band;
        if !config.accepts(parameters) {
            return None;
        }
        let policy = parameters.policy;
        let exhausted = is_exhausted(policy, candidate.budget_available);
        if is_shut_out(exhausted, demand) {
            return None;
        }
        let backend = parameters.fair_backend;
        let pass = candidate.fair_pass;
        let Some(algorithm) = algorithm_of(policy, backend, pass, candidate.turn) else {
            return None;
        };
        let tier = self.tier(now, parameters, exhausted, demand);
        let local = algorithm.key;
        let mode = tier.mode;
        let key = DispatchKey {
            urgency: tier.urgency,
            rank: tier.rank,
            algorithm_rank: algorithm.rank,
            algorithm: local,
            band: band.0,
            turn: candidate.turn,
        };
        Some((key, mode))
    }

    pub fn candidate_key(self, now: u64, candidate: Candidate, demand: Demand) -> WindowKey
        ensures { window_key result ≡ key_call self now candidate demand }
    {
        if !self.config.is_sound() {
            return WindowKey {
                answer: Err(Refusal::BadConfig),
                window: self,
            };
        }
        let fresh = self.refreshed(now);
        WindowKey {
            answer: Ok(fresh.key(now, candidate, demand)),
            window: fresh,
        }
    }

    // Of a window that is refreshed to now, with competition.
    fn next(self, now: u64, mode: DispatchMode, demand: Demand) -> Option<u64>
        ensures { result ≡ next_deadline self now mode demand }
    {
        let config = self.config;
        let period = at_renewal(demand, period_end(now, config.period_ns));
        let protection = self.protection(now, demand.protected);
        match mode {
            DispatchMode::StrictFifo => None,
            DispatchMode::Priority => earliest(
                earliest(period, checked_add(now, self.priority_remaining_ns)),
                protection,
            ),
            DispatchMode::Protected => earliest(
                period,
                checked_add(now, self.protected_remaining_ns),
            ),
            DispatchMode::Ordinary => earliest(period, protection),
            DispatchMode::Borrow => earliest(period, protection),
        }
    }

    // No contention means no arbitration interrupt.
    pub fn next_deadline(
        self,
        now: u64,
        mode: DispatchMode,
        competition: bool,
        demand: Demand,
    ) -> WindowDeadline
        ensures { window_deadline result ≡ next_deadline_call self now mode competition demand }
    {
        if !self.config.is_sound() {
            return WindowDeadline {
                answer: Err(Refusal::BadConfig),
                window: self,
            };
        }
        let fresh = self.refreshed(now);
        if !competition {
            return WindowDeadline {
                answer: Ok(None),
                window: fresh,
            };
        }
        WindowDeadline {
            answer: Ok(fresh.next(now, mode, demand)),
            window: fresh,
        }
    }
}
