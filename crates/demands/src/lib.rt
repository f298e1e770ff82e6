// Candidates, the demand of several, and their lowest fair pass. After `ReadySnapshot::candidate` and `add_demand` of
// scheduler/queue.rs.
#![tactic(auto)]

ghost use Rattle.std.specs.Prelude.{true, false, ◌≡◌};
ghost use Rattle.refusal.specs.Cases.{choose};
ghost use Rattle.arbitration.specs.Window.{is_priority, is_protected};
ghost use Rattle.codec.specs.Codec.{decoded, role_from};
ghost use Rattle.demands.specs.Demands as demands;
ghost use Rattle.demands.specs.DemandRows.{lower_pass};

use algorithms::Wide;
use arbitration::{Candidate, Demand, is_priority, is_protected};
use codec::{
    BACKEND_TAG, POLICY_TAG, READY_TURN, ROLE_TAG, RUNTIME_FIRST, RUNTIME_SECOND, RUNTIME_TAG, Row,
    parameters_of,
};
use policy::{SchedulingPolicy, SchedulingRole};
use queue::has_time_left;
use std::cmp::Ordering;

// What the heads and the running thread ask for, and the lowest fair pass among them.
#[derive(Clone, Copy)]
pub struct Gathered {
    pub demand: Demand,
    pub fair_min_pass: Option<Wide>,
}

fn either(a: bool, b: bool) -> bool
    ensures { result ≡ demands.either a b }
{
    if a {
        return true;
    }
    b
}

// A protected Budget thread with no time left is owed no protection.
fn is_owed_protection(role: SchedulingRole, available: bool) -> bool
    ensures { result ≡ choose (is_protected role) available false }
{
    if is_protected(role) {
        return available;
    }
    false
}

// What one candidate asks for.
fn demand_of(candidate: Candidate) -> Demand
    ensures { result ≡ demands.demand_of candidate }
{
    let parameters = candidate.parameters;
    let policy = parameters.policy;
    let role = parameters.role;
    let protected = is_protected(role);
    let priority = is_priority(role);
    match policy {
        SchedulingPolicy::Fifo { priority: _ } => Demand {
            protected,
            fair: true,
            window_sensitive: priority,
            eligible_budget: false,
            any_budget: false,
        },
        SchedulingPolicy::Fair => Demand {
            protected,
            fair: true,
            window_sensitive: true,
            eligible_budget: false,
            any_budget: false,
        },
        SchedulingPolicy::Budget => Demand {
            protected: is_owed_protection(role, candidate.budget_available),
            fair: false,
            window_sensitive: priority,
            eligible_budget: candidate.budget_available,
            any_budget: true,
        },
        SchedulingPolicy::Idle => Demand {
            protected: false,
            fair: false,
            window_sensitive: false,
            eligible_budget: false,
            any_budget: false,
        },
    }
}

// What either of two demands asks for.
fn joined(a: Demand, b: Demand) -> Demand
    ensures { result ≡ demands.joined a b }
{
    Demand {
        protected: either(a.protected, b.protected),
        fair: either(a.fair, b.fair),
        window_sensitive: either(a.window_sensitive, b.window_sensitive),
        eligible_budget: either(a.eligible_budget, b.eligible_budget),
        any_budget: either(a.any_budget, b.any_budget),
    }
}

pub fn add_demand(demand: Demand, candidate: Candidate) -> Demand
    ensures { result ≡ demands.add_demand demand candidate }
{
    let more = demand_of(candidate);
    joined(demand, more)
}

// Passes compare as wide numbers.
#[tactic(auto,
// The definitions that are opened.
unfolding(crate::specs::Demands::compare_passes, order::specs::Order::compare_parts, order::specs::Order::then_by,
// And what those rest on.
order::specs::Order::compare_numbers, refusal::specs::Cases::if_less, refusal::specs::Cases::choose))]
fn compare_passes(a: Wide, b: Wide) -> Ordering
    ensures { result ≡ demands.compare_passes a b }
{
    a.cmp(&b)
}

#[tactic(auto, unfolding(crate::specs::Demands::lesser_pass, order::specs::Order::on_ordering))]
fn lesser_pass(old: Wide, new: Wide) -> Wide
    ensures { result ≡ demands.lesser_pass old new }
{
    if compare_passes(new, old).is_lt() {
        new
    } else {
        old
    }
}

// The lower of the lowest pass so far and another.
fn lower_pass(lowest: Option<Wide>, pass: Wide) -> Option<Wide>
    ensures { result ≡ lower_pass lowest pass }
{
    match lowest {
        None => Some(pass),
        Some(old) => Some(lesser_pass(old, pass)),
    }
}

// The lowest pass with one more candidate: only a Fair one counts.
pub fn lowest_pass(lowest: Option<Wide>, candidate: Candidate) -> Option<Wide>
    ensures { result ≡ demands.lowest_pass lowest candidate }
{
    let parameters = candidate.parameters;
    let policy = parameters.policy;
    let pass = candidate.fair_pass;
    match policy {
        SchedulingPolicy::Fifo { priority: _ } => lowest,
        SchedulingPolicy::Fair => lower_pass(lowest, pass),
        SchedulingPolicy::Budget => lowest,
        SchedulingPolicy::Idle => lowest,
    }
}

// Demand and lowest pass with one more candidate.
pub fn gather(so_far: Gathered, candidate: Candidate) -> Gathered
    ensures { result ≡ demands.gathered so_far candidate }
{
    let old = so_far.demand;
    let lowest = so_far.fair_min_pass;
    let demand = add_demand(old, candidate);
    let fair_min_pass = lowest_pass(lowest, candidate);
    Gathered {
        demand,
        fair_min_pass,
    }
}

// What the running thread asks for, if there is one.
pub fn of_current(current: Option<Candidate>) -> Gathered
    ensures { result ≡ demands.of_current current }
{
    let nothing = Gathered {
        demand: Demand {
            protected: false,
            fair: false,
            window_sensitive: false,
            eligible_budget: false,
            any_budget: false,
        },
        fair_min_pass: None,
    };
    match current {
        None => nothing,
        Some(candidate) => gather(nothing, candidate),
    }
}

// The tests of a role by its tag.
fn is_protected_tag(tag: u64) -> bool
    ensures { result ≡ is_protected (role_from tag) }
{
    if tag == 0 {
        return false;
    }
    if tag == 1 {
        return false;
    }
    true
}

fn is_priority_tag(tag: u64) -> bool
    ensures { result ≡ is_priority (role_from tag) }
{
    if tag == 0 {
        return false;
    }
    if tag == 1 {
        return true;
    }
    false
}

// `is_owed_protection` by the role's tag.
fn is_owed_by_tag(tag: u64, available: bool) -> bool
    ensures { result ≡ choose (is_protected (role_from tag)) available false }
{
    if is_protected_tag(tag) {
        return available;
    }
    false
}

// What the row's record asks for, by its tags.
fn demand_of_row(w: Row) -> Demand
    ensures { result ≡ demands.demand_of (demands.candidate_of (decoded w)) }
{
    if w[POLICY_TAG] == 0 {
        return Demand {
            protected: is_protected_tag(w[ROLE_TAG]),
            fair: true,
            window_sensitive: is_priority_tag(w[ROLE_TAG]),
            eligible_budget: false,
            any_budget: false,
        };
    }
    if w[POLICY_TAG] == 1 {
        return Demand {
            protected: is_protected_tag(w[ROLE_TAG]),
            fair: true,
            window_sensitive: true,
            eligible_budget: false,
            any_budget: false,
        };
    }
    if w[POLICY_TAG] == 2 {
        let available = has_time_left(w);
        return Demand {
            protected: is_owed_by_tag(w[ROLE_TAG], available),
            fair: false,
            window_sensitive: is_priority_tag(w[ROLE_TAG]),
            eligible_budget: available,
            any_budget: true,
        };
    }
    Demand {
        protected: false,
        fair: false,
        window_sensitive: false,
        eligible_budget: false,
        any_budget: false,
    }
}

// The pass of a Stride row, else 0.
fn pass_of_row(w: Row) -> Wide
    ensures { result ≡ (demands.candidate_of (decoded w)).fair_pass }
{
    if w[RUNTIME_TAG] == 0 {
        return Wide { high: 0, low: 0 };
    }
    if w[RUNTIME_TAG] == 1 {
        if w[BACKEND_TAG] == 0 {
            return Wide {
                high: w[RUNTIME_FIRST],
                low: w[RUNTIME_SECOND],
            };
        }
        return Wide { high: 0, low: 0 };
    }
    Wide { high: 0, low: 0 }
}

// The lowest pass with one more row: only a Fair one counts.
fn lowest_with_row(lowest: Option<Wide>, w: Row) -> Option<Wide>
    ensures { result ≡ demands.lowest_pass lowest (demands.candidate_of (decoded w)) }
{
    if w[POLICY_TAG] == 0 {
        return lowest;
    }
    if w[POLICY_TAG] == 1 {
        let pass = pass_of_row(w);
        return lower_pass(lowest, pass);
    }
    lowest
}

// Demand and lowest pass with one more row.
pub fn gathered_row(so_far: Gathered, w: Row) -> Gathered
    ensures { result ≡ demands.gathered so_far (demands.candidate_of (decoded w)) }
{
    let old = so_far.demand;
    let lowest = so_far.fair_min_pass;
    let more = demand_of_row(w);
    let demand = joined(old, more);
    let fair_min_pass = lowest_with_row(lowest, w);
    Gathered {
        demand,
        fair_min_pass,
    }
}

// The row's record as arbitration sees it.
pub fn candidate_of_row(w: Row) -> Candidate
    ensures { result ≡ demands.candidate_of (decoded w) }
{
    let parameters = parameters_of(w);
    let fair_pass = pass_of_row(w);
    let available = has_time_left(w);
    Candidate {
        parameters,
        fair_pass,
        turn: w[READY_TURN],
        budget_available: available,
    }
}
