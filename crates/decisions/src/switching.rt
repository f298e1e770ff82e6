// The switch rule. After `choose_ready`: what it reads of the current thread and of the selection comes as arguments,
// and ending a turn is its own call.
ghost use Rattle.std.specs.Prelude.{◌≡◌};
ghost use Rattle.decisions.specs.Switch.{compare_bands, compare_algorithms, lesser, fifo_switches};
ghost use Rattle.decisions.specs.Switch.{fair_switches, switches_among, switches_below, switches, should_switch_of};
ghost use Rattle.decisions.specs.Switch.{goes_to_front, choose_ready, mode_of};

use crate::Choice;
use arbitration::DispatchMode;
use dispatch_keys::{DispatchKey, compare_keys};
use policy::{FairBackend, SchedulingParameters, SchedulingPolicy};
use std::cmp::Ordering;

// Urgency, rank and algorithm rank, in that order.
#[tactic(auto,
// The definitions that are opened.
unfolding(crate::specs::Switch::compare_bands, order::specs::Order::compare_parts, order::specs::Order::then_by,
// And what those rest on.
order::specs::Order::compare_numbers, refusal::specs::Cases::if_less, refusal::specs::Cases::choose))]
fn compare_bands(a: DispatchKey, b: DispatchKey) -> Ordering
    ensures { result ≡ compare_bands a b }
{
    (a.urgency, a.rank, a.algorithm_rank).cmp(&(b.urgency, b.rank, b.algorithm_rank))
}

#[tactic(auto,
// The definitions that are opened.
unfolding(crate::specs::Switch::compare_algorithms, order::specs::Order::compare_parts, order::specs::Order::then_by,
// And what those rest on.
order::specs::Order::compare_numbers, refusal::specs::Cases::if_less, refusal::specs::Cases::choose))]
fn compare_algorithms(a: DispatchKey, b: DispatchKey) -> Ordering
    ensures { result ≡ compare_algorithms a b }
{
    a.algorithm.cmp(&b.algorithm)
}

// Whether the ready key is less than the current one.
#[tactic(auto, unfolding(crate::specs::Switch::lesser, order::specs::Order::on_ordering))]
fn is_lesser(a: DispatchKey, b: DispatchKey) -> bool
    ensures { result ≡ lesser a b }
{
    compare_keys(a, b).is_lt()
}

// A FIFO thread on equal urgency, rank and algorithm rank.
#[tactic(auto,
// The definitions that are opened.
unfolding(crate::specs::Switch::fifo_switches, order::specs::Order::on_ordering, refusal::specs::Cases::choose))]
fn fifo_switches(a: DispatchKey, b: DispatchKey, yielding: bool, tail: bool) -> bool
    ensures { result ≡ fifo_switches a b yielding tail }
{
    match compare_algorithms(a, b) {
        Ordering::Less => true,
        Ordering::Equal => yielding || tail,
        Ordering::Greater => false,
    }
}

// A Fair thread on equal urgency, rank and algorithm rank.
fn fair_switches(
    a: DispatchKey,
    b: DispatchKey,
    backend: FairBackend,
    expired: bool,
    yielding: bool,
) -> bool
    ensures { result ≡ fair_switches a b backend expired yielding }
{
    if yielding {
        return true;
    }
    if !expired {
        return false;
    }
    match backend {
        FairBackend::Stride => is_lesser(a, b),
        FairBackend::RoundRobin => true,
    }
}

// On equal urgency, rank and algorithm rank.
fn switches_among(
    a: DispatchKey,
    b: DispatchKey,
    parameters: SchedulingParameters,
    expired: bool,
    yielding: bool,
    tail: bool,
) -> bool
    ensures { result ≡ switches_among a b parameters expired yielding tail }
{
    let policy = parameters.policy;
    let backend = parameters.fair_backend;
    match policy {
        SchedulingPolicy::Fifo { priority: _ } => fifo_switches(a, b, yielding, tail),
        SchedulingPolicy::Fair => fair_switches(a, b, backend, expired, yielding),
        SchedulingPolicy::Budget => {
            if yielding {
                return true;
            }
            expired
        }
        SchedulingPolicy::Idle => true,
    }
}

// The ready thread's band is lower.
fn switches_below(parameters: SchedulingParameters, yielding: bool) -> bool
    ensures { result ≡ switches_below parameters yielding }
{
    let policy = parameters.policy;
    match policy {
        SchedulingPolicy::Fifo { priority: _ } => false,
        SchedulingPolicy::Fair => yielding,
        SchedulingPolicy::Budget => yielding,
        SchedulingPolicy::Idle => true,
    }
}

// The ready key a against the current one's b.
fn switches(
    a: DispatchKey,
    b: DispatchKey,
    parameters: SchedulingParameters,
    expired: bool,
    yielding: bool,
    tail: bool,
) -> bool
    ensures { result ≡ switches a b parameters expired yielding tail }
{
    match compare_bands(a, b) {
        Ordering::Less => true,
        Ordering::Equal => switches_among(a, b, parameters, expired, yielding, tail),
        Ordering::Greater => switches_below(parameters, yielding),
    }
}

#[tactic(auto,
// The definitions that are opened.
unfolding(crate::specs::Switch::should_switch_of, crate::specs::Switch::on_ready, crate::specs::Switch::on_key))]
fn should_switch(
    ready: Option<DispatchKey>,
    current: Option<(DispatchKey, DispatchMode)>,
    parameters: SchedulingParameters,
    expired: bool,
    yielding: bool,
    tail: bool,
) -> bool
    ensures { result ≡ should_switch_of ready current parameters expired yielding tail }
{
    match ready {
        None => false,
        Some(a) => match current {
            None => true,
            Some((b, _)) => switches(a, b, parameters, expired, yielding, tail),
        },
    }
}

// A thread that neither expired nor yields keeps its place in front.
fn goes_to_front(expired: bool, yielding: bool) -> bool
    ensures { result ≡ goes_to_front expired yielding }
{
    if expired {
        return false;
    }
    !yielding
}

// The switch rule: `tail` is the deferred placement Tail, `expired` whether its slice or burst is spent.
pub fn choose_ready(
    ready: Option<DispatchKey>,
    current: Option<(DispatchKey, DispatchMode)>,
    parameters: SchedulingParameters,
    expired: bool,
    yielding: bool,
    tail: bool,
) -> Choice
    ensures { result ≡ choose_ready ready current parameters expired yielding tail }
{
    let should_switch = should_switch(ready, current, parameters, expired, yielding, tail);
    let front = goes_to_front(expired, yielding);
    Choice {
        should_switch,
        front,
    }
}

// The mode of a key, for the choice of deadline and for accounting.
#[tactic(auto, unfolding(crate::specs::Switch::mode_of, crate::specs::Switch::on_key))]
pub fn mode_of(key: Option<(DispatchKey, DispatchMode)>) -> Option<DispatchMode>
    ensures { result ≡ mode_of key }
{
    match key {
        None => None,
        Some((_, mode)) => Some(mode),
    }
}
