// Scheduling policies, roles, backends and their checked parameters. After task/policy.rs.
#![tactic(auto)]

ghost use Rattle.std.specs.Prelude.{◌≡◌};
ghost use Rattle.refusal.specs.Answer.{by_number};
ghost use Rattle.policy.specs.Budget.{sound_budget, new_budget};
ghost use Rattle.policy.specs.Parameters.{new_weight, new_fair, of_budget, of_fifo, of_idle, class_of, priority_of};

use refusal::Refusal;

// Fixed scheduler priority. Lower numeric values run first.
#[derive(Clone, Copy)]
pub struct ThreadPriority(pub u8);

impl ThreadPriority {
    pub const HIGHEST: Self = Self(0);

    pub const NORMAL: Self = Self(128);

    pub const LOWEST: Self = Self(255);

    pub fn new(value: u8) -> Self
        ensures { result.0 ≡ value }
    {
        Self(value)
    }

    pub fn get(self) -> u8
        ensures { result ≡ self.0 }
    {
        self.0
    }
}

#[derive(Clone, Copy)]
pub enum SchedulingClass {
    RealTime,
    Fair,
    Budget,
    Idle,
}

// SPECIFICATION 2.1.
#[derive(Clone, Copy)]
pub enum SchedulingPolicy {
    Fifo { priority: ThreadPriority },
    Fair,
    Budget,
    Idle,
}

impl SchedulingPolicy {
    pub fn fifo(priority: ThreadPriority) -> Self
        ensures { result ≡ SchedulingPolicy.Fifo priority }
    {
        SchedulingPolicy::Fifo { priority }
    }

    pub fn fair() -> Self
        ensures { result ≡ SchedulingPolicy.Fair }
    {
        SchedulingPolicy::Fair
    }

    pub fn class(self) -> SchedulingClass
        ensures { result ≡ class_of self }
    {
        let policy = self;
        match policy {
            SchedulingPolicy::Fifo { priority: _ } => SchedulingClass::RealTime,
            SchedulingPolicy::Fair => SchedulingClass::Fair,
            SchedulingPolicy::Budget => SchedulingClass::Budget,
            SchedulingPolicy::Idle => SchedulingClass::Idle,
        }
    }

    pub fn priority(self) -> Option<ThreadPriority>
        ensures { result ≡ priority_of self }
    {
        let policy = self;
        match policy {
            SchedulingPolicy::Fifo { priority } => Some(priority),
            SchedulingPolicy::Fair => None,
            SchedulingPolicy::Budget => None,
            SchedulingPolicy::Idle => None,
        }
    }
}

// Arbitration privileges, independent of the algorithm.
#[derive(Clone, Copy)]
pub enum SchedulingRole {
    Ordinary,
    Priority,
    Protected,
}

#[derive(Clone, Copy)]
pub enum FairBackend {
    Stride,
    RoundRobin,
}

// A share within the Fair algorithm, 1 to 1,024.
#[derive(Clone, Copy)]
pub struct ThreadWeight(pub u16);

impl ThreadWeight {
    pub const DEFAULT: Self = Self(16);

    pub const MAX: u16 = 1024;

    pub fn new(value: u16) -> Option<ThreadWeight>
        ensures { result ≡ new_weight value }
    {
        if value == 0 {
            return None;
        }
        if Self::MAX < value {
            return None;
        }
        Some(Self(value))
    }

    pub fn get(self) -> u16
        ensures { result ≡ self.0 }
    {
        self.0
    }
}

// Budget quantities, in nanoseconds.
#[derive(Clone, Copy)]
pub struct BudgetParameters {
    pub budget_ns: u64,
    pub period_ns: u64,
    pub burst_ns: u64,
}

impl BudgetParameters {
    pub const MAX_PERIOD_NS: u64 = 1_000_000_000;

    pub fn new(budget_ns: u64, period_ns: u64, burst_ns: u64) -> Result<BudgetParameters, Refusal>
        ensures { by_number result ≡ new_budget budget_ns period_ns burst_ns }
    {
        let parameters = Self {
            budget_ns,
            period_ns,
            burst_ns,
        };
        if parameters.is_sound() {
            Ok(parameters)
        } else {
            Err(Refusal::BadBudget)
        }
    }

    // Whether `new` would take these three.
    pub fn is_sound(self) -> bool
        ensures { result ≡ sound_budget self }
    {
        if self.period_ns == 0 {
            return false;
        }
        if Self::MAX_PERIOD_NS < self.period_ns {
            return false;
        }
        if self.budget_ns == 0 {
            return false;
        }
        if self.period_ns < self.budget_ns {
            return false;
        }
        if self.burst_ns == 0 {
            return false;
        }
        if self.period_ns < self.burst_ns {
            return false;
        }
        true
    }

    pub fn budget_ns(self) -> u64
        ensures { result ≡ self.budget_ns }
    {
        self.budget_ns
    }

    pub fn period_ns(self) -> u64
        ensures { result ≡ self.period_ns }
    {
        self.period_ns
    }

    pub fn burst_ns(self) -> u64
        ensures { result ≡ self.burst_ns }
    {
        self.burst_ns
    }
}

// Policy inputs. Unused fields have canonical values.
#[derive(Clone, Copy)]
pub struct SchedulingParameters {
    pub policy: SchedulingPolicy,
    pub band: ThreadPriority,
    pub role: SchedulingRole,
    pub weight: ThreadWeight,
    pub quantum_ns: u64,
    pub fair_backend: FairBackend,
    pub budget: Option<BudgetParameters>,
}

impl SchedulingParameters {
    pub fn fair(
        weight: ThreadWeight,
        quantum_ns: u64,
        band: ThreadPriority,
        role: SchedulingRole,
        fair_backend: FairBackend,
    ) -> Option<SchedulingParameters>
        ensures { result ≡ new_fair weight quantum_ns band role fair_backend }
    {
        if quantum_ns == 0 {
            return None;
        }
        if BudgetParameters::MAX_PERIOD_NS < quantum_ns {
            return None;
        }
        Some(Self {
            policy: SchedulingPolicy::Fair,
            band,
            role,
            weight,
            quantum_ns,
            fair_backend,
            budget: None,
        })
    }

    pub fn budget(budget: BudgetParameters, band: ThreadPriority, role: SchedulingRole) -> Self
        ensures { result ≡ of_budget budget band role }
    {
        Self {
            policy: SchedulingPolicy::Budget,
            band,
            role,
            weight: ThreadWeight::DEFAULT,
            quantum_ns: 0,
            fair_backend: FairBackend::Stride,
            budget: Some(budget),
        }
    }

    pub fn fifo(priority: ThreadPriority, band: ThreadPriority, role: SchedulingRole) -> Self
        ensures { result ≡ of_fifo priority band role }
    {
        Self {
            policy: SchedulingPolicy::Fifo { priority },
            band,
            role,
            weight: ThreadWeight::DEFAULT,
            quantum_ns: 0,
            fair_backend: FairBackend::Stride,
            budget: None,
        }
    }

    pub fn idle() -> Self
        ensures { result ≡ of_idle }
    {
        Self {
            policy: SchedulingPolicy::Idle,
            band: ThreadPriority::LOWEST,
            role: SchedulingRole::Ordinary,
            weight: ThreadWeight::DEFAULT,
            quantum_ns: 0,
            fair_backend: FairBackend::Stride,
            budget: None,
        }
    }

    pub fn policy(self) -> SchedulingPolicy
        ensures { result ≡ self.policy }
    {
        self.policy
    }

    pub fn band(self) -> ThreadPriority
        ensures { result ≡ self.band }
    {
        self.band
    }

    pub fn role(self) -> SchedulingRole
        ensures { result ≡ self.role }
    {
        self.role
    }

    pub fn weight(self) -> ThreadWeight
        ensures { result ≡ self.weight }
    {
        self.weight
    }

    pub fn quantum_ns(self) -> u64
        ensures { result ≡ self.quantum_ns }
    {
        self.quantum_ns
    }

    pub fn fair_backend(self) -> FairBackend
        ensures { result ≡ self.fair_backend }
    {
        self.fair_backend
    }

    pub fn budget_parameters(self) -> Option<BudgetParameters>
        ensures { result ≡ self.budget }
    {
        self.budget
    }
}
