// A thread's algorithm state. After scheduler/algorithms/mod.rs; a fair thread's pass and slice are given values.
#![tactic(auto)]

ghost use Rattle.std.specs.Prelude.{◌≡◌};
ghost use Rattle.refusal.specs.Answer.{by_number};
ghost use Rattle.algorithms.specs.Runtime.{of_budget, of_budget_deadline, made, accounted, epoch_refreshed};
ghost use Rattle.algorithms.specs.Runtime.{candidate_key, next_deadline, turn_finished, runtime_kind, policy_kind};
ghost use Rattle.algorithms.specs.Runtime.{kind_number, same_kind, unless_back};

use budget::BudgetRuntime;
use policy::{FairBackend, SchedulingParameters, SchedulingPolicy};
use refusal::Refusal;
use time::checked_add;

// A 128-bit number by its halves; the high one is compared first.
#[derive(Clone, Copy, PartialEq, Eq, PartialOrd, Ord)]
pub struct Wide {
    pub high: u64,
    pub low: u64,
}

// A fair thread's pass and remaining slice, as they are given.
#[derive(Clone, Copy)]
pub struct FairRuntime {
    pub pass: Wide,
    pub remaining_ns: u64,
}

#[derive(Clone, Copy)]
pub enum PolicyRuntime {
    Fifo,
    Fair(FairRuntime),
    Budget(BudgetRuntime),
    Idle,
}

// What orders a thread within its algorithm: the pass, then the turn.
#[derive(Clone, Copy)]
pub struct RuntimeKey {
    pub pass: Wide,
    pub turn: u64,
}

#[tactic(auto, unfolding(crate::specs::Runtime::of_budget))]
fn of_budget(answer: Result<BudgetRuntime, Refusal>) -> Result<PolicyRuntime, Refusal>
    ensures { by_number result ≡ of_budget (by_number answer) }
{
    Ok(PolicyRuntime::Budget(answer?))
}

#[tactic(auto, unfolding(crate::specs::Runtime::of_budget_deadline))]
fn of_budget_deadline(
    answer: Result<(BudgetRuntime, Option<u64>), Refusal>,
) -> Result<(PolicyRuntime, Option<u64>), Refusal>
    ensures { by_number result ≡ of_budget_deadline (by_number answer) }
{
    let (runtime, due) = answer?;
    Ok((PolicyRuntime::Budget(runtime), due))
}

impl PolicyRuntime {
    // The runtime of a policy's kind; `fair` is what a fair thread starts with.
    pub fn new(
        parameters: SchedulingParameters,
        fair: FairRuntime,
    ) -> Result<PolicyRuntime, Refusal>
        ensures { by_number result ≡ made parameters fair }
    {
        let policy = parameters.policy;
        let budget = parameters.budget;
        match policy {
            SchedulingPolicy::Fifo { priority: _ } => Ok(PolicyRuntime::Fifo),
            SchedulingPolicy::Fair => Ok(PolicyRuntime::Fair(fair)),
            SchedulingPolicy::Budget => match budget {
                None => Err(Refusal::BadRecord),
                Some(b) => of_budget(BudgetRuntime::new(b)),
            },
            SchedulingPolicy::Idle => Ok(PolicyRuntime::Idle),
        }
    }

    // Closes one execution interval. A mismatch of policy and runtime is a BadRecord, before BackInTime.
    pub fn account(
        self,
        parameters: SchedulingParameters,
        start: u64,
        end: u64,
    ) -> Result<PolicyRuntime, Refusal>
        ensures { by_number result ≡ accounted self parameters start end }
    {
        let runtime = self;
        let policy = parameters.policy;
        let budget = parameters.budget;
        if !same_kind(runtime, policy) {
            return Err(Refusal::BadRecord);
        }
        match runtime {
            PolicyRuntime::Fifo => unless_back(runtime, start, end),
            PolicyRuntime::Fair(_) => unless_back(runtime, start, end),
            PolicyRuntime::Budget(b) => match budget {
                None => Err(Refusal::BadRecord),
                Some(p) => of_budget(b.account_interval(start, end, p)),
            },
            PolicyRuntime::Idle => unless_back(runtime, start, end),
        }
    }

    pub fn epoch_refresh(
        self,
        now: u64,
        parameters: SchedulingParameters,
    ) -> Result<PolicyRuntime, Refusal>
        ensures { by_number result ≡ epoch_refreshed self now parameters }
    {
        let runtime = self;
        let budget = parameters.budget;
        match runtime {
            PolicyRuntime::Fifo => Ok(runtime),
            PolicyRuntime::Fair(_) => Ok(runtime),
            PolicyRuntime::Budget(b) => match budget {
                None => Ok(runtime),
                Some(p) => of_budget(b.refresh(now, p)),
            },
            PolicyRuntime::Idle => Ok(runtime),
        }
    }

    // The pass of a Stride thread, else 0; and the turn.
    pub fn candidate_key(self, parameters: SchedulingParameters, turn: u64) -> RuntimeKey
        ensures { result ≡ candidate_key self parameters turn }
    {
        let runtime = self;
        let backend = parameters.fair_backend;
        let zero = Wide { high: 0, low: 0 };
        match runtime {
            PolicyRuntime::Fifo => RuntimeKey { pass: zero, turn },
            PolicyRuntime::Fair(fair) => match backend {
                FairBackend::Stride => {
                    let pass = fair.pass;
                    RuntimeKey { pass, turn }
                }
                FairBackend::RoundRobin => RuntimeKey { pass: zero, turn },
            },
            PolicyRuntime::Budget(_) => RuntimeKey { pass: zero, turn },
            PolicyRuntime::Idle => RuntimeKey { pass: zero, turn },
        }
    }

    // Only the algorithm's deadline; none without competition.
    pub fn next_deadline(
        self,
        now: u64,
        parameters: SchedulingParameters,
        competition: bool,
        borrow: bool,
    ) -> Result<(PolicyRuntime, Option<u64>), Refusal>
        ensures { by_number result ≡ next_deadline self now parameters competition borrow }
    {
        let runtime = self;
        let budget = parameters.budget;
        if !competition {
            return Ok((runtime, None));
        }
        match runtime {
            PolicyRuntime::Fifo => Ok((runtime, None)),
            PolicyRuntime::Fair(fair) => Ok((runtime, checked_add(now, fair.remaining_ns))),
            PolicyRuntime::Budget(b) => match budget {
                None => Ok((runtime, None)),
                Some(p) => of_budget_deadline(b.deadline(now, p, borrow)),
            },
            PolicyRuntime::Idle => Ok((runtime, None)),
        }
    }

    // A turn ends: a budget's burst is whole again, a fair thread's values stay as they are given.
    pub fn finish_turn(self, parameters: SchedulingParameters) -> Result<PolicyRuntime, Refusal>
        ensures { by_number result ≡ turn_finished self parameters }
    {
        let runtime = self;
        let budget = parameters.budget;
        match runtime {
            PolicyRuntime::Fifo => Ok(runtime),
            PolicyRuntime::Fair(_) => Ok(runtime),
            PolicyRuntime::Budget(b) => match budget {
                None => Ok(runtime),
                Some(p) => of_budget(b.finish_turn(p)),
            },
            PolicyRuntime::Idle => Ok(runtime),
        }
    }
}

// Accounting that leaves the runtime as it is.
fn unless_back(runtime: PolicyRuntime, start: u64, end: u64) -> Result<PolicyRuntime, Refusal>
    ensures { by_number result ≡ unless_back runtime start end }
{
    if end < start {
        return Err(Refusal::BackInTime);
    }
    Ok(runtime)
}

// What a runtime and a policy have in common, by which the two are compared: two tests on a number each and no table
// of places to go on from.
#[derive(Clone, Copy, PartialEq, Eq)]
enum Kind {
    Fifo,
    Fair,
    Budget,
    Idle,
}

fn kind_of_runtime(runtime: PolicyRuntime) -> Kind
    ensures { kind_number result ≡ runtime_kind runtime }
{
    match runtime {
        PolicyRuntime::Fifo => Kind::Fifo,
        PolicyRuntime::Fair(_) => Kind::Fair,
        PolicyRuntime::Budget(_) => Kind::Budget,
        PolicyRuntime::Idle => Kind::Idle,
    }
}

fn kind_of_policy(policy: SchedulingPolicy) -> Kind
    ensures { kind_number result ≡ policy_kind policy }
{
    match policy {
        SchedulingPolicy::Fifo { .. } => Kind::Fifo,
        SchedulingPolicy::Fair => Kind::Fair,
        SchedulingPolicy::Budget => Kind::Budget,
        SchedulingPolicy::Idle => Kind::Idle,
    }
}

// Whether the runtime is of the policy's kind.
#[tactic(auto, unfolding(crate::specs::Runtime::same_kind, crate::specs::Runtime::kind_number))]
pub fn same_kind(runtime: PolicyRuntime, policy: SchedulingPolicy) -> bool
    ensures { result ≡ same_kind runtime policy }
{
    kind_of_runtime(runtime) == kind_of_policy(policy)
}
