// Scheduling parameters, a policy's runtime and times as words. Nothing here is partial: all words stand for some
// value.
#![tactic(auto)]

ghost use Rattle.std.specs.Prelude.{◌≡◌, true, ◌%◌, ◌<◌};
ghost use Rattle.policy_words.specs.PolicyWords.{word, policy_from, role_from, backend_from, budget_from, epoch_from};
ghost use Rattle.policy_words.specs.PolicyWords.{runtime_from, deadline_of, parameters_of, runtime_of};
ghost use Rattle.policy_words.specs.Encodes.{option_encodes, runtime_encodes};

use algorithms::{FairRuntime, PolicyRuntime, Wide};
use budget::BudgetRuntime;
use policy::{
    BudgetParameters, FairBackend, SchedulingParameters, SchedulingPolicy, SchedulingRole,
    ThreadPriority, ThreadWeight,
};

// A thread's row.
pub const ROW_WORDS: usize = 32;

pub type Row = [u64; ROW_WORDS];

// Where the words of parameters and of a policy's runtime stand in a thread's row.
pub const POLICY_TAG: usize = 0;

pub const FIFO_PRIORITY: usize = 1;

pub const BAND: usize = 2;

pub const ROLE_TAG: usize = 3;

pub const WEIGHT: usize = 4;

pub const QUANTUM: usize = 5;

pub const BACKEND_TAG: usize = 6;

pub const BUDGET_TAG: usize = 7;

pub const BUDGET_NS: usize = 8;

pub const BUDGET_PERIOD: usize = 9;

pub const BUDGET_BURST: usize = 10;

pub const RUNTIME_TAG: usize = 11;
// The runtime's own words: of a fair thread its pass by halves and its slice; of a budget its epoch's two words,
// its time and its burst.
pub const RUNTIME_FIRST: usize = 12;

pub const RUNTIME_SECOND: usize = 13;

pub const RUNTIME_THIRD: usize = 14;

pub const RUNTIME_FOURTH: usize = 15;

// Parameters alone: the words before a runtime's.
pub const PARAMETER_WORDS: usize = 11;

pub type ParameterWords = [u64; PARAMETER_WORDS];

// A policy's runtime alone.
pub const POLICY_RUNTIME_WORDS: usize = 5;

pub type PolicyRuntimeWords = [u64; POLICY_RUNTIME_WORDS];

// A deadline: 0 and none, or the time.
pub const DEADLINE_WORDS: usize = 2;

pub type DeadlineWords = [u64; DEADLINE_WORDS];

pub fn byte_from(w: u64) -> u8
    ensures { result ≡ w % 256 }
{
    (w % 256) as u8
}

fn half_from(w: u64) -> u16
    ensures { result ≡ w % 65536 }
{
    (w % 65536) as u16
}

pub fn policy_from(tag: u64, priority: u64) -> SchedulingPolicy
    ensures { result ≡ policy_from tag priority }
{
    if tag == 0 {
        return SchedulingPolicy::Fifo {
            priority: ThreadPriority((priority % 256) as u8),
        };
    }
    if tag == 1 {
        return SchedulingPolicy::Fair;
    }
    if tag == 2 {
        return SchedulingPolicy::Budget;
    }
    SchedulingPolicy::Idle
}

pub fn role_from(tag: u64) -> SchedulingRole
    ensures { result ≡ role_from tag }
{
    if tag == 0 {
        return SchedulingRole::Ordinary;
    }
    if tag == 1 {
        return SchedulingRole::Priority;
    }
    SchedulingRole::Protected
}

pub fn backend_from(tag: u64) -> FairBackend
    ensures { result ≡ backend_from tag }
{
    if tag == 0 {
        return FairBackend::Stride;
    }
    FairBackend::RoundRobin
}

fn budget_from(tag: u64, budget_ns: u64, period_ns: u64, burst_ns: u64) -> Option<BudgetParameters>
    ensures { result ≡ budget_from tag budget_ns period_ns burst_ns }
{
    if tag == 0 {
        return None;
    }
    Some(BudgetParameters {
        budget_ns,
        period_ns,
        burst_ns,
    })
}

pub fn epoch_from(tag: u64, epoch: u64) -> Option<u64>
    ensures { result ≡ epoch_from tag epoch }
{
    if tag == 0 {
        return None;
    }
    Some(epoch)
}

fn runtime_from(tag: u64, first: u64, second: u64, third: u64, fourth: u64) -> PolicyRuntime
    ensures { result ≡ runtime_from tag first second third fourth }
{
    if tag == 0 {
        return PolicyRuntime::Fifo;
    }
    if tag == 1 {
        return PolicyRuntime::Fair(FairRuntime {
            pass: Wide {
                high: first,
                low: second,
            },
            remaining_ns: third,
        });
    }
    if tag == 2 {
        let epoch = epoch_from(first, second);
        return PolicyRuntime::Budget(BudgetRuntime {
            epoch,
            remaining_ns: third,
            burst_remaining_ns: fourth,
        });
    }
    PolicyRuntime::Idle
}

pub fn parameters_of(w: Row) -> SchedulingParameters
    ensures { result ≡ parameters_of w }
{
    let policy = policy_from(w[POLICY_TAG], w[FIFO_PRIORITY]);
    let band = ThreadPriority(byte_from(w[BAND]));
    let role = role_from(w[ROLE_TAG]);
    let weight = ThreadWeight(half_from(w[WEIGHT]));
    let fair_backend = backend_from(w[BACKEND_TAG]);
    let budget = budget_from(
        w[BUDGET_TAG],
        w[BUDGET_NS],
        w[BUDGET_PERIOD],
        w[BUDGET_BURST],
    );
    SchedulingParameters {
        policy,
        band,
        role,
        weight,
        quantum_ns: w[QUANTUM],
        fair_backend,
        budget,
    }
}

pub fn runtime_of(w: Row) -> PolicyRuntime
    ensures { result ≡ runtime_of w }
{
    runtime_from(
        w[RUNTIME_TAG],
        w[RUNTIME_FIRST],
        w[RUNTIME_SECOND],
        w[RUNTIME_THIRD],
        w[RUNTIME_FOURTH],
    )
}

pub fn word_of_byte(x: u8) -> u64
    ensures result_value { result % 256 ≡ x }
    ensures upper_bound { result < 256 }
{
    x as u64
}

pub fn word_of_half(x: u16) -> u64
    ensures { result % 65536 ≡ x }
{
    x as u64
}

pub fn words_of_policy(policy: SchedulingPolicy) -> [u64; 2]
    ensures { policy_from (word result 0) (word result 1) ≡ policy }
{
    match policy {
        SchedulingPolicy::Fifo { priority } => [0, word_of_byte(priority.0)],
        SchedulingPolicy::Fair => [1, 0],
        SchedulingPolicy::Budget => [2, 0],
        SchedulingPolicy::Idle => [3, 0],
    }
}

pub fn word_of_role(role: SchedulingRole) -> u64
    ensures { role_from result ≡ role }
{
    match role {
        SchedulingRole::Ordinary => 0,
        SchedulingRole::Priority => 1,
        SchedulingRole::Protected => 2,
    }
}

pub fn word_of_backend(backend: FairBackend) -> u64
    ensures { backend_from result ≡ backend }
{
    match backend {
        FairBackend::Stride => 0,
        FairBackend::RoundRobin => 1,
    }
}

pub fn words_of_budget(budget: Option<BudgetParameters>) -> [u64; 4]
    ensures { budget_from (word result 0) (word result 1) (word result 2) (word result 3) ≡ budget }
{
    match budget {
        None => [0, 0, 0, 0],
        Some(b) => [1, b.budget_ns, b.period_ns, b.burst_ns],
    }
}

pub fn words_of_epoch(epoch: Option<u64>) -> [u64; 2]
    ensures result_value { epoch_from (word result 0) (word result 1) ≡ epoch }
    ensures result_value_2 { option_encodes (word result 0) (word result 1) ≡ true }
{
    match epoch {
        None => [0, 0],
        Some(n) => [1, n],
    }
}

pub fn words_of_runtime(runtime: PolicyRuntime) -> PolicyRuntimeWords
    ensures result_value { runtime_from (word result 0) (word result 1) (word result 2) (word result 3)
        (word result 4) ≡ runtime }
    ensures result_value_2 { runtime_encodes (word result 0) (word result 1) (word result 2) (word result 3)
        (word result 4) ≡ true }
{
    match runtime {
        PolicyRuntime::Fifo => [0, 0, 0, 0, 0],
        PolicyRuntime::Fair(fair) => {
            let pass = fair.pass;
            [1, pass.high, pass.low, fair.remaining_ns, 0]
        }
        PolicyRuntime::Budget(b) => {
            let its_epoch = b.epoch;
            let epoch = words_of_epoch(its_epoch);
            [2, epoch[0], epoch[1], b.remaining_ns, b.burst_remaining_ns]
        }
        PolicyRuntime::Idle => [3, 0, 0, 0, 0],
    }
}

// Words 0 to 10 of these parameters' row.
pub fn words_of_parameters(parameters: SchedulingParameters) -> ParameterWords
    ensures { parameters_of result ≡ parameters }
{
    let its_policy = parameters.policy;
    let its_band = parameters.band;
    let its_role = parameters.role;
    let its_weight = parameters.weight;
    let its_backend = parameters.fair_backend;
    let its_budget = parameters.budget;
    let policy = words_of_policy(its_policy);
    let band = word_of_byte(its_band.0);
    let role = word_of_role(its_role);
    let weight = word_of_half(its_weight.0);
    let backend = word_of_backend(its_backend);
    let budget = words_of_budget(its_budget);
    [
        policy[0],
        policy[1],
        band,
        role,
        weight,
        parameters.quantum_ns,
        backend,
        budget[0],
        budget[1],
        budget[2],
        budget[3],
    ]
}

pub fn words_of_deadline(deadline: Option<u64>) -> DeadlineWords
    ensures { deadline_of result ≡ deadline }
{
    match deadline {
        None => [0, 0],
        Some(n) => [1, n],
    }
}
