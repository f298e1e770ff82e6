// The tests of a thread's role, policy and demand that keys, charges and deadlines go by. They take the parts that they
// look at, not whole parameters or candidates: a struct with many fields is dear at each step of a function's proof.
ghost use Rattle.std.specs.Prelude.{◌≡◌, true, false, not, Some, None};
ghost use Rattle.refusal.specs.Cases.{choose, given, if_equal};
ghost use Rattle.policy.specs.PolicyCases.{on_policy, on_role, on_backend};
ghost use Rattle.arbitration.specs.Window.{is_priority, is_protected, uses_allowance, at_renewal};
ghost use Rattle.arbitration.specs.Key.{shut_out, hurried, ordinary_rank};

use crate::{Algorithm, Demand, DispatchMode};
use algorithms::Wide;
use policy::{FairBackend, SchedulingPolicy, SchedulingRole};
use window_config::ArbitrationOrder;

// An exhausted thread runs only where nobody else can.
pub fn is_shut_out(exhausted: bool, demand: Demand) -> bool
    ensures { result ≡ shut_out exhausted demand }
{
    if !exhausted {
        return false;
    }
    if demand.fair {
        return true;
    }
    demand.eligible_budget
}

// `strict_fifo`, by the parameters' policy and role.
pub fn is_strict_fifo(policy: SchedulingPolicy, role: SchedulingRole) -> bool
    ensures { result ≡ on_policy policy (λ priority. on_role role true false false) false false false }
{
    match policy {
        SchedulingPolicy::Fifo { priority: _ } => match role {
            SchedulingRole::Ordinary => true,
            SchedulingRole::Priority => false,
            SchedulingRole::Protected => false,
        },
        SchedulingPolicy::Fair => false,
        SchedulingPolicy::Budget => false,
        SchedulingPolicy::Idle => false,
    }
}

pub fn is_priority(role: SchedulingRole) -> bool
    ensures { result ≡ is_priority role }
{
    match role {
        SchedulingRole::Ordinary => false,
        SchedulingRole::Priority => true,
        SchedulingRole::Protected => false,
    }
}

pub fn is_protected(role: SchedulingRole) -> bool
    ensures { result ≡ is_protected role }
{
    match role {
        SchedulingRole::Ordinary => false,
        SchedulingRole::Priority => false,
        SchedulingRole::Protected => true,
    }
}

// Execution on the priority allowance, by its mode or by the thread's role.
pub fn uses_allowance(mode: DispatchMode, role: SchedulingRole) -> bool
    ensures { result ≡ uses_allowance mode role }
{
    match mode {
        DispatchMode::StrictFifo => is_priority(role),
        DispatchMode::Priority => true,
        DispatchMode::Protected => is_priority(role),
        DispatchMode::Ordinary => is_priority(role),
        DispatchMode::Borrow => is_priority(role),
    }
}

pub fn charge_if(charged: bool, charge: u64) -> u64
    ensures { result ≡ choose charged charge 0 }
{
    if charged { charge } else { 0 }
}

// The period's end bears on demand whose eligibility a new window can change.
pub fn at_renewal(demand: Demand, period_end: Option<u64>) -> Option<u64>
    ensures { result ≡ at_renewal demand period_end }
{
    if demand.any_budget {
        return period_end;
    }
    if demand.window_sensitive {
        return period_end;
    }
    None
}

// A protected thread that is due, unless it has spent its own budget.
pub fn is_hurried(due: bool, role: SchedulingRole, exhausted: bool) -> bool
    ensures { result ≡ hurried due role exhausted }
{
    if !due {
        return false;
    }
    if exhausted {
        return false;
    }
    is_protected(role)
}

pub fn of_byte(x: u8) -> u64
    ensures { result ≡ x }
{
    x as u64
}

// `exhausted_of`, by the candidate's policy and whether its budget has time left.
pub fn is_exhausted(policy: SchedulingPolicy, budget_available: bool) -> bool
    ensures { result ≡ on_policy policy (λ priority. false) false (not budget_available) false }
{
    match policy {
        SchedulingPolicy::Fifo { priority: _ } => false,
        SchedulingPolicy::Fair => false,
        SchedulingPolicy::Budget => !budget_available,
        SchedulingPolicy::Idle => false,
    }
}

// `favoured`, by what the window has left of the allowance, whether it prefers fair threads, and the parameters' policy
// and role.
pub fn is_favoured(
    priority_remaining_ns: u64,
    prefer_fair: bool,
    policy: SchedulingPolicy,
    role: SchedulingRole,
) -> bool
    ensures { result ≡ if_equal priority_remaining_ns 0 false
        (choose (is_priority role) true
        (choose prefer_fair (on_policy policy (λ priority. false) true false false) false)) }
{
    if priority_remaining_ns == 0 {
        return false;
    }
    if is_priority(role) {
        return true;
    }
    if !prefer_fair {
        return false;
    }
    match policy {
        SchedulingPolicy::Fifo { priority: _ } => false,
        SchedulingPolicy::Fair => true,
        SchedulingPolicy::Budget => false,
        SchedulingPolicy::Idle => false,
    }
}

fn algorithm(rank: u8, high: u64, low: u64) -> Option<Algorithm>
    ensures { result ≡ Some (record { rank = rank; key = record { high = high; low = low } }) }
{
    Some(Algorithm {
        rank,
        key: Wide { high, low },
    })
}

// `algorithm_of`, by the candidate's policy, backend, pass and turn: the priority for FIFO, the pass for Stride,
// otherwise the turn; none for Idle.
pub fn algorithm_of(
    policy: SchedulingPolicy,
    backend: FairBackend,
    pass: Wide,
    turn: u64,
) -> Option<Algorithm>
    ensures { result ≡ on_policy policy
        (λ priority. given priority.0
        (λ number. Some (record { rank = 0; key = record { high = 0; low = number } })))
        (on_backend backend (Some (record { rank = 1; key = pass }))
        (Some (record { rank = 1; key = record { high = 0; low = turn } })))
        (Some (record { rank = 2; key = record { high = 0; low = turn } })) None }
{
    match policy {
        SchedulingPolicy::Fifo { priority } => algorithm(0, 0, of_byte(priority.0)),
        SchedulingPolicy::Fair => match backend {
            FairBackend::Stride => algorithm(1, pass.high, pass.low),
            FairBackend::RoundRobin => algorithm(1, 0, turn),
        },
        SchedulingPolicy::Budget => algorithm(2, 0, turn),
        SchedulingPolicy::Idle => None,
    }
}

// The rank of a thread that nothing hurries, favours or shuts out.
pub fn ordinary_rank(policy: SchedulingPolicy, order: ArbitrationOrder) -> u8
    ensures { result ≡ ordinary_rank policy order }
{
    match policy {
        SchedulingPolicy::Fifo { priority: _ } => order.fair_rank,
        SchedulingPolicy::Fair => order.fair_rank,
        SchedulingPolicy::Budget => order.budget_rank,
        SchedulingPolicy::Idle => order.fair_rank,
    }
}
