// C calls on lent words, through which the Rust host compares policies, budgets and runtimes with the kernel's source.
// Each is the call of its name on what the words stand for. It answers document 01's number, 0 where the call was
// accepted; a refusal leaves every lent word as it was.
#![tactic(auto)]

ghost use Rattle.std.specs.Prelude.{◌≡◌, ◌≢◌};
ghost use Rattle.refusal.specs.Answer.{by_number};
ghost use Rattle.policy_words.specs.PolicyWords.{word, parameters_of, runtime_of, policy_from, role_from, backend_from};
ghost use Rattle.policy_words.specs.PolicyWords.{deadline_of};
ghost use Rattle.policy.specs.Budget.{new_budget};
ghost use Rattle.policy.specs.Parameters.{new_weight, new_fair, of_budget, of_fifo, of_idle, class_of, priority_of};
ghost use Rattle.budget.specs.Runtime as budgets;
ghost use Rattle.algorithms.specs.Runtime as runtimes;
ghost use Rattle.record_entries.specs.RecordWords.{budget_of, budget_runtime_of, runtime_option_of, policy_of};
ghost use Rattle.record_entries.specs.RecordWords.{policy_runtime_of, runtime_key_of, priority_option_of, class_number};
ghost use Rattle.record_entries.specs.RecordWords.{weight_number, constants};
ghost use Rattle.record_entries.specs.Entries.{told, told_of, parameters_told};

use algorithms::{FairRuntime, PolicyRuntime, RuntimeKey, Wide, same_kind};
use budget::BudgetRuntime;
use policy::{
    BudgetParameters, SchedulingClass, SchedulingParameters, SchedulingPolicy, ThreadPriority,
    ThreadWeight,
};
use policy_words::{
    DeadlineWords, FIFO_PRIORITY, POLICY_TAG, ParameterWords, PolicyRuntimeWords, Row,
    backend_from, epoch_from, parameters_of, policy_from, role_from, runtime_of, word_of_backend,
    word_of_byte, word_of_half, word_of_role, words_of_budget, words_of_deadline, words_of_epoch,
    words_of_parameters, words_of_policy, words_of_runtime,
};
use refusal::Refusal;

// A budget's parameters, and its runtime.
pub const BUDGET_WORDS: usize = 3;

pub type BudgetWords = [u64; BUDGET_WORDS];

const BUDGET: usize = 0;

const PERIOD: usize = 1;

const BURST: usize = 2;

type RuntimeWords = [u64; 4];

const EPOCH_TAG: usize = 0;

const EPOCH: usize = 1;

const TIME_LEFT: usize = 2;

const BURST_LEFT: usize = 3;

// The constants; a policy, or a priority that may be absent, as its tag and its number; a pass and a turn.
type ConstantWords = [u64; 6];

type PairWords = [u64; 2];

type RuntimeKeyWords = [u64; 3];

// BudgetParameters::new
#[unsafe(no_mangle)]
pub extern "C" fn budget_parameters_new(
    budget_ns: u64,
    period_ns: u64,
    burst_ns: u64,
    answer: &mut BudgetWords,
) -> u64
    ensures answer_after { told result (budget_of answer.new) ≡ told_of (budget_of answer.old)
        (new_budget budget_ns period_ns burst_ns) }
    ensures answer_unchanged { result ≢ 0 → answer.new ≡ answer.old }
{
    let made = BudgetParameters::new(budget_ns, period_ns, burst_ns);
    match made {
        Ok(budget) => {
            *answer = [budget.budget_ns(), budget.period_ns(), budget.burst_ns()];
            0
        }
        Err(refusal) => refusal.number(),
    }
}

// ThreadWeight::new; 0 where there is none.
#[unsafe(no_mangle)]
pub extern "C" fn thread_weight_new(value: u16) -> u16
    ensures { result ≡ weight_number (new_weight value) }
{
    let made = ThreadWeight::new(value);
    match made {
        Some(weight) => weight.get(),
        None => 0,
    }
}

// ThreadPriority::new and its reader.
#[unsafe(no_mangle)]
pub extern "C" fn thread_priority_new(value: u8) -> u8
    ensures { result ≡ value }
{
    let made = ThreadPriority::new(value);
    made.get()
}

// The constants: the highest, the normal and the lowest priority, the default and the greatest weight, the longest
// period.
#[unsafe(no_mangle)]
pub extern "C" fn policy_constants(answer: &mut ConstantWords)
    ensures { answer.new ≡ constants }
{
    let highest = ThreadPriority::HIGHEST;
    let normal = ThreadPriority::NORMAL;
    let lowest = ThreadPriority::LOWEST;
    let weight = ThreadWeight::DEFAULT;
    *answer = [
        highest.0 as u64,
        normal.0 as u64,
        lowest.0 as u64,
        weight.0 as u64,
        ThreadWeight::MAX as u64,
        BudgetParameters::MAX_PERIOD_NS,
    ];
}

// SchedulingPolicy::fifo
#[unsafe(no_mangle)]
pub extern "C" fn policy_fifo(priority: u8, answer: &mut PairWords)
    ensures { policy_of answer.new ≡ SchedulingPolicy.Fifo (record { 0 = priority }) }
{
    let made = SchedulingPolicy::fifo(ThreadPriority(priority));
    *answer = words_of_policy(made);
}

// SchedulingPolicy::fair
#[unsafe(no_mangle)]
pub extern "C" fn policy_fair(answer: &mut PairWords)
    ensures { policy_of answer.new ≡ SchedulingPolicy.Fair }
{
    *answer = words_of_policy(SchedulingPolicy::fair());
}

// SchedulingPolicy::class and SchedulingPolicy::priority, on a policy's two words. The classes are 0 to 3.
#[unsafe(no_mangle)]
pub extern "C" fn policy_class_and_priority(tag: u64, priority: u64, answer: &mut PairWords) -> u64
    ensures { told result (priority_option_of answer.new)
        ≡ told (class_number (class_of (policy_from tag priority))) (priority_of (policy_from tag priority)) }
{
    let policy = policy_from(tag, priority);
    *answer = words_of_priority(policy.priority());
    number_of_class(policy.class())
}

fn words_of_priority(priority: Option<ThreadPriority>) -> PairWords
    ensures { priority_option_of result ≡ priority }
{
    match priority {
        Some(number) => [1, word_of_byte(number.get())],
        None => [0, 0],
    }
}

fn number_of_class(class: SchedulingClass) -> u64
    ensures { result ≡ class_number class }
{
    match class {
        SchedulingClass::RealTime => 0,
        SchedulingClass::Fair => 1,
        SchedulingClass::Budget => 2,
        SchedulingClass::Idle => 3,
    }
}

// SchedulingParameters::fair; the weight is taken as it is. 1 where parameters were made.
#[unsafe(no_mangle)]
pub extern "C" fn parameters_fair(
    answer: &mut ParameterWords,
    weight: u16,
    quantum_ns: u64,
    band: u8,
    role: u64,
    backend: u64,
) -> u64
    ensures { told result (parameters_of answer.new) ≡ parameters_told (parameters_of answer.old)
        (new_fair (record { 0 = weight }) quantum_ns (record { 0 = band }) (role_from role) (backend_from backend)) }
{
    let made = SchedulingParameters::fair(
        ThreadWeight(weight),
        quantum_ns,
        ThreadPriority(band),
        role_from(role),
        backend_from(backend),
    );
    store_parameters(answer, made)
}

fn store_parameters(answer: &mut ParameterWords, made: Option<SchedulingParameters>) -> u64
    ensures { told result (parameters_of answer.new)
        ≡ parameters_told (parameters_of answer.old) made }
{
    match made {
        Some(parameters) => {
            *answer = words_of_parameters(parameters);
            1
        }
        None => 0,
    }
}

// SchedulingParameters::budget; the budget is taken as it is.
#[unsafe(no_mangle)]
pub extern "C" fn parameters_budget(
    answer: &mut ParameterWords,
    budget: &BudgetWords,
    band: u8,
    role: u64,
)
    ensures { parameters_of answer.new ≡ of_budget (budget_of budget.now) (record { 0 = band })
        (role_from role) }
{
    *answer = words_of_parameters(SchedulingParameters::budget(
        budget_of(*budget),
        ThreadPriority(band),
        role_from(role),
    ));
}

// SchedulingParameters::fifo
#[unsafe(no_mangle)]
pub extern "C" fn parameters_fifo(answer: &mut ParameterWords, priority: u8, band: u8, role: u64)
    ensures { parameters_of answer.new ≡ of_fifo (record { 0 = priority }) (record { 0 = band })
        (role_from role) }
{
    *answer = words_of_parameters(SchedulingParameters::fifo(
        ThreadPriority(priority),
        ThreadPriority(band),
        role_from(role),
    ));
}

// SchedulingParameters::idle
#[unsafe(no_mangle)]
pub extern "C" fn parameters_idle(answer: &mut ParameterWords)
    ensures { parameters_of answer.new ≡ of_idle }
{
    *answer = words_of_parameters(SchedulingParameters::idle());
}

// The seven readers of SchedulingParameters, each part as its own reader gives it.
#[unsafe(no_mangle)]
pub extern "C" fn parameters_read(row: &Row, answer: &mut ParameterWords)
    ensures { parameters_of answer.new ≡ parameters_of row.now }
{
    let parameters = parameters_of(*row);
    *answer = words_of_readers(parameters);
}

fn words_of_readers(parameters: SchedulingParameters) -> ParameterWords
    ensures { parameters_of result ≡ parameters }
{
    let policy = words_of_policy(parameters.policy());
    let band = parameters.band();
    let role = word_of_role(parameters.role());
    let weight = parameters.weight();
    let backend = word_of_backend(parameters.fair_backend());
    let budget = words_of_budget(parameters.budget_parameters());
    [
        policy[0],
        policy[1],
        word_of_byte(band.0),
        role,
        word_of_half(weight.0),
        parameters.quantum_ns(),
        backend,
        budget[0],
        budget[1],
        budget[2],
        budget[3],
    ]
}

fn budget_of(w: BudgetWords) -> BudgetParameters
    ensures { result ≡ budget_of w }
{
    BudgetParameters {
        budget_ns: w[BUDGET],
        period_ns: w[PERIOD],
        burst_ns: w[BURST],
    }
}

fn budget_runtime_of(w: RuntimeWords) -> BudgetRuntime
    ensures { result ≡ budget_runtime_of w }
{
    let epoch = epoch_from(w[EPOCH_TAG], w[EPOCH]);
    BudgetRuntime {
        epoch,
        remaining_ns: w[TIME_LEFT],
        burst_remaining_ns: w[BURST_LEFT],
    }
}

fn words_of_budget_runtime(runtime: BudgetRuntime) -> RuntimeWords
    ensures { budget_runtime_of result ≡ runtime }
{
    let its_epoch = runtime.epoch;
    let epoch = words_of_epoch(its_epoch);
    [
        epoch[0],
        epoch[1],
        runtime.remaining_ns(),
        runtime.burst_remaining_ns(),
    ]
}

fn store_budget_runtime(runtime: &mut RuntimeWords, answer: Result<BudgetRuntime, Refusal>) -> u64
    ensures runtime_after { told result (budget_runtime_of runtime.new) ≡ told_of (budget_runtime_of runtime.old)
        (by_number answer) }
    ensures runtime_unchanged { result ≢ 0 → runtime.new ≡ runtime.old }
{
    match answer {
        Ok(after) => {
            *runtime = words_of_budget_runtime(after);
            0
        }
        Err(refusal) => refusal.number(),
    }
}

fn store_deadline(answer: &mut DeadlineWords, given: Result<Option<u64>, Refusal>) -> u64
    ensures answer_after { told result (deadline_of answer.new) ≡ told_of (deadline_of answer.old)
        (by_number given) }
    ensures answer_unchanged { result ≢ 0 → answer.new ≡ answer.old }
{
    match given {
        Ok(deadline) => {
            *answer = words_of_deadline(deadline);
            0
        }
        Err(refusal) => refusal.number(),
    }
}

// BudgetRuntime::new
#[unsafe(no_mangle)]
pub extern "C" fn budget_new(runtime: &mut RuntimeWords, budget: &BudgetWords) -> u64
    ensures runtime_after { told result (budget_runtime_of runtime.new) ≡ told_of (budget_runtime_of runtime.old)
        (budgets.made (budget_of budget.now)) }
    ensures runtime_unchanged { result ≢ 0 → runtime.new ≡ runtime.old }
{
    let given = BudgetRuntime::new(budget_of(*budget));
    store_budget_runtime(runtime, given)
}

// BudgetRuntime::refresh
#[unsafe(no_mangle)]
pub extern "C" fn budget_refresh(
    runtime: &mut RuntimeWords,
    now_ns: u64,
    budget: &BudgetWords,
) -> u64
    ensures runtime_after { told result (budget_runtime_of runtime.new) ≡ told_of (budget_runtime_of runtime.old)
        (budgets.refreshed_judged (budget_runtime_of runtime.old) now_ns (budget_of budget.now)) }
    ensures runtime_unchanged { result ≢ 0 → runtime.new ≡ runtime.old }
{
    let given = budget_runtime_of(*runtime).refresh(now_ns, budget_of(*budget));
    store_budget_runtime(runtime, given)
}

// BudgetRuntime::account_interval
#[unsafe(no_mangle)]
pub extern "C" fn budget_account_interval(
    runtime: &mut RuntimeWords,
    start: u64,
    end: u64,
    budget: &BudgetWords,
) -> u64
    ensures runtime_after { told result (budget_runtime_of runtime.new) ≡ told_of (budget_runtime_of runtime.old)
        (budgets.accounted_interval (budget_runtime_of runtime.old) start end
        (budget_of budget.now)) }
    ensures runtime_unchanged { result ≢ 0 → runtime.new ≡ runtime.old }
{
    let given = budget_runtime_of(*runtime).account_interval(start, end, budget_of(*budget));
    store_budget_runtime(runtime, given)
}

// BudgetRuntime::finish_turn
#[unsafe(no_mangle)]
pub extern "C" fn budget_finish_turn(runtime: &mut RuntimeWords, budget: &BudgetWords) -> u64
    ensures runtime_after { told result (budget_runtime_of runtime.new) ≡ told_of (budget_runtime_of runtime.old)
        (budgets.turn_finished (budget_runtime_of runtime.old) (budget_of budget.now)) }
    ensures runtime_unchanged { result ≢ 0 → runtime.new ≡ runtime.old }
{
    let given = budget_runtime_of(*runtime).finish_turn(budget_of(*budget));
    store_budget_runtime(runtime, given)
}

// BudgetRuntime::period_deadline
#[unsafe(no_mangle)]
pub extern "C" fn budget_period_deadline(
    now_ns: u64,
    budget: &BudgetWords,
    answer: &mut DeadlineWords,
) -> u64
    ensures answer_after { told result (deadline_of answer.new) ≡ told_of (deadline_of answer.old)
        (budgets.period_deadline now_ns (budget_of budget.now)) }
    ensures answer_unchanged { result ≢ 0 → answer.new ≡ answer.old }
{
    let given = BudgetRuntime::period_deadline(now_ns, budget_of(*budget));
    store_deadline(answer, given)
}

#[tactic(auto, using(crate::specs::EntryLaws::entries), unfolding(crate::specs::Entries::told_of))]
fn store_budget_deadline(
    runtime: &mut RuntimeWords,
    answer: &mut DeadlineWords,
    given: Result<(BudgetRuntime, Option<u64>), Refusal>,
) -> u64
    ensures answer_after { told result (budget_runtime_of runtime.new, deadline_of answer.new)
        ≡ told_of (budget_runtime_of runtime.old, deadline_of answer.old) (by_number given) }
    ensures runtime_unchanged { result ≢ 0 → runtime.new ≡ runtime.old }
    ensures answer_unchanged { result ≢ 0 → answer.new ≡ answer.old }
{
    match given {
        Ok((after, deadline)) => {
            *runtime = words_of_budget_runtime(after);
            *answer = words_of_deadline(deadline);
            0
        }
        Err(refusal) => refusal.number(),
    }
}

// BudgetRuntime::deadline
#[unsafe(no_mangle)]
pub extern "C" fn budget_deadline(
    runtime: &mut RuntimeWords,
    now_ns: u64,
    budget: &BudgetWords,
    borrow: bool,
    answer: &mut DeadlineWords,
) -> u64
    ensures answer_after { told result (budget_runtime_of runtime.new, deadline_of answer.new)
        ≡ told_of (budget_runtime_of runtime.old, deadline_of answer.old)
        (budgets.deadline_judged (budget_runtime_of runtime.old) now_ns
        (budget_of budget.now) borrow) }
    ensures runtime_unchanged { result ≢ 0 → runtime.new ≡ runtime.old }
    ensures answer_unchanged { result ≢ 0 → answer.new ≡ answer.old }
{
    let given = budget_runtime_of(*runtime).deadline(now_ns, budget_of(*budget), borrow);
    store_budget_deadline(runtime, answer, given)
}

// BudgetRuntime::reconfigure; the answer's last word is 0 where the periods differ.
#[unsafe(no_mangle)]
pub extern "C" fn budget_reconfigure(
    runtime: &RuntimeWords,
    old: &BudgetWords,
    new: &BudgetWords,
    answer: &mut PolicyRuntimeWords,
) -> u64
    ensures answer_after { told result (runtime_option_of answer.new) ≡ told_of (runtime_option_of answer.old)
        (budgets.reconfigured_judged (budget_runtime_of runtime.now) (budget_of old.now)
        (budget_of new.now)) }
    ensures answer_unchanged { result ≢ 0 → answer.new ≡ answer.old }
{
    let given = budget_runtime_of(*runtime).reconfigure(budget_of(*old), budget_of(*new));
    store_reconfigured(answer, given)
}

#[tactic(auto,
// The laws, and the definitions that are opened.
using(crate::specs::EntryLaws::entries), unfolding(crate::specs::Entries::told_of,
// And what those rest on.
crate::specs::RecordWords::runtime_option_of, crate::specs::RecordWords::budget_runtime_of,
// And so on.
refusal::specs::Cases::if_equal, refusal::specs::Cases::choose))]
fn store_reconfigured(
    answer: &mut PolicyRuntimeWords,
    given: Result<Option<BudgetRuntime>, Refusal>,
) -> u64
    ensures answer_after { told result (runtime_option_of answer.new) ≡ told_of (runtime_option_of answer.old)
        (by_number given) }
    ensures answer_unchanged { result ≢ 0 → answer.new ≡ answer.old }
{
    match given {
        Ok(Some(runtime)) => {
            let w = words_of_budget_runtime(runtime);
            *answer = [w[EPOCH_TAG], w[EPOCH], w[TIME_LEFT], w[BURST_LEFT], 1];
            0
        }
        Ok(None) => {
            *answer = [0, 0, 0, 0, 0];
            0
        }
        Err(refusal) => refusal.number(),
    }
}

fn store_runtime(answer: &mut PolicyRuntimeWords, given: Result<PolicyRuntime, Refusal>) -> u64
    ensures answer_after { told result (policy_runtime_of answer.new) ≡ told_of (policy_runtime_of answer.old)
        (by_number given) }
    ensures answer_unchanged { result ≢ 0 → answer.new ≡ answer.old }
{
    match given {
        Ok(runtime) => {
            *answer = words_of_runtime(runtime);
            0
        }
        Err(refusal) => refusal.number(),
    }
}

// PolicyRuntime::new, with what a fair thread starts with.
#[unsafe(no_mangle)]
pub extern "C" fn runtime_new(
    row: &Row,
    pass_high: u64,
    pass_low: u64,
    remaining_ns: u64,
    answer: &mut PolicyRuntimeWords,
) -> u64
    ensures answer_after { told result (policy_runtime_of answer.new) ≡ told_of (policy_runtime_of answer.old)
        (runtimes.made (parameters_of row.now)
        (record { pass = record { high = pass_high; low = pass_low }; remaining_ns = remaining_ns })) }
    ensures answer_unchanged { result ≢ 0 → answer.new ≡ answer.old }
{
    let fair = FairRuntime {
        pass: Wide {
            high: pass_high,
            low: pass_low,
        },
        remaining_ns,
    };
    let given = PolicyRuntime::new(parameters_of(*row), fair);
    store_runtime(answer, given)
}

// PolicyRuntime::account
#[unsafe(no_mangle)]
pub extern "C" fn runtime_account(
    row: &Row,
    start: u64,
    end: u64,
    answer: &mut PolicyRuntimeWords,
) -> u64
    ensures answer_after { told result (policy_runtime_of answer.new) ≡ told_of (policy_runtime_of answer.old)
        (runtimes.accounted (runtime_of row.now) (parameters_of row.now) start end) }
    ensures answer_unchanged { result ≢ 0 → answer.new ≡ answer.old }
{
    let given = runtime_of(*row).account(parameters_of(*row), start, end);
    store_runtime(answer, given)
}

// PolicyRuntime::epoch_refresh
#[unsafe(no_mangle)]
pub extern "C" fn runtime_epoch_refresh(
    row: &Row,
    now_ns: u64,
    answer: &mut PolicyRuntimeWords,
) -> u64
    ensures answer_after { told result (policy_runtime_of answer.new) ≡ told_of (policy_runtime_of answer.old)
        (runtimes.epoch_refreshed (runtime_of row.now) now_ns (parameters_of row.now)) }
    ensures answer_unchanged { result ≢ 0 → answer.new ≡ answer.old }
{
    let given = runtime_of(*row).epoch_refresh(now_ns, parameters_of(*row));
    store_runtime(answer, given)
}

// PolicyRuntime::finish_turn
#[unsafe(no_mangle)]
pub extern "C" fn runtime_finish_turn(row: &Row, answer: &mut PolicyRuntimeWords) -> u64
    ensures answer_after { told result (policy_runtime_of answer.new) ≡ told_of (policy_runtime_of answer.old)
        (runtimes.turn_finished (runtime_of row.now) (parameters_of row.now)) }
    ensures answer_unchanged { result ≢ 0 → answer.new ≡ answer.old }
{
    let given = runtime_of(*row).finish_turn(parameters_of(*row));
    store_runtime(answer, given)
}

fn words_of_runtime_key(key: RuntimeKey) -> RuntimeKeyWords
    ensures { runtime_key_of result ≡ key }
{
    let pass = key.pass;
    [pass.high, pass.low, key.turn]
}

// PolicyRuntime::candidate_key
#[unsafe(no_mangle)]
pub extern "C" fn runtime_candidate_key(row: &Row, turn: u64, answer: &mut RuntimeKeyWords)
    ensures { runtime_key_of answer.new ≡ runtimes.candidate_key (runtime_of row.now)
        (parameters_of row.now) turn }
{
    *answer = words_of_runtime_key(runtime_of(*row).candidate_key(parameters_of(*row), turn));
}

// Whether the row's runtime is of its policy's kind.
#[unsafe(no_mangle)]
pub extern "C" fn runtime_same_kind(row: &Row) -> bool
    ensures { result ≡ runtimes.same_kind (runtime_of row.now) (policy_of row.now) }
{
    let words = *row;
    let runtime = runtime_of(words);
    same_kind(
        runtime,
        policy_from(words[POLICY_TAG], words[FIFO_PRIORITY]),
    )
}

#[tactic(auto, using(crate::specs::EntryLaws::entries), unfolding(crate::specs::Entries::told_of))]
fn store_runtime_deadline(
    after: &mut PolicyRuntimeWords,
    answer: &mut DeadlineWords,
    given: Result<(PolicyRuntime, Option<u64>), Refusal>,
) -> u64
    ensures answer_after { told result (policy_runtime_of after.new, deadline_of answer.new)
        ≡ told_of (policy_runtime_of after.old, deadline_of answer.old) (by_number given) }
    ensures after_unchanged { result ≢ 0 → after.new ≡ after.old }
    ensures answer_unchanged { result ≢ 0 → answer.new ≡ answer.old }
{
    match given {
        Ok((runtime, deadline)) => {
            *after = words_of_runtime(runtime);
            *answer = words_of_deadline(deadline);
            0
        }
        Err(refusal) => refusal.number(),
    }
}

// PolicyRuntime::next_deadline
#[unsafe(no_mangle)]
pub extern "C" fn runtime_next_deadline(
    row: &Row,
    now_ns: u64,
    competition: bool,
    borrow: bool,
    after: &mut PolicyRuntimeWords,
    answer: &mut DeadlineWords,
) -> u64
    ensures answer_after { told result (policy_runtime_of after.new, deadline_of answer.new)
        ≡ told_of (policy_runtime_of after.old, deadline_of answer.old)
        (runtimes.next_deadline (runtime_of row.now) now_ns
        (parameters_of row.now) competition borrow) }
    ensures after_unchanged { result ≢ 0 → after.new ≡ after.old }
    ensures answer_unchanged { result ≢ 0 → answer.new ≡ answer.old }
{
    let given = runtime_of(*row).next_deadline(now_ns, parameters_of(*row), competition, borrow);
    store_runtime_deadline(after, answer, given)
}
