// The C calls of the crate record_entries: each is the call of its name there, and promises the same.
#![tactic(auto)]

ghost use Rattle.std.specs.Prelude.{◌≡◌, ◌≢◌};
ghost use Rattle.refusal.specs.Answer.{by_number};
ghost use Rattle.policy_words.specs.PolicyWords.{parameters_of, runtime_of, policy_from, role_from, backend_from};
ghost use Rattle.policy_words.specs.PolicyWords.{deadline_of};
ghost use Rattle.policy.specs.Budget.{new_budget};
ghost use Rattle.policy.specs.Parameters.{new_weight, new_fair, of_budget, of_fifo, of_idle, class_of, priority_of};
ghost use Rattle.budget.specs.Runtime as budgets;
ghost use Rattle.algorithms.specs.Runtime as runtimes;
ghost use Rattle.record_entries.specs.RecordWords.{budget_of, budget_runtime_of, runtime_option_of, policy_of};
ghost use Rattle.record_entries.specs.RecordWords.{policy_runtime_of, runtime_key_of, priority_option_of, class_number};
ghost use Rattle.record_entries.specs.RecordWords.{weight_number, constants};
ghost use Rattle.record_entries.specs.Entries.{told, told_of, parameters_told};

use policy::SchedulingPolicy;
use policy_words::{DeadlineWords, ParameterWords, PolicyRuntimeWords, Row};

const BUDGET_WORDS: usize = 3;

type BudgetWords = [u64; BUDGET_WORDS];

type RuntimeWords = [u64; 4];

type ConstantWords = [u64; 6];

type PairWords = [u64; 2];

type RuntimeKeyWords = [u64; 3];

// BudgetParameters::new
#[unsafe(no_mangle)]
pub extern "C" fn budget_parameters_new(
    budget_ns: u64,
    period_ns: u64,
    burst_ns: u64,
    answer: &mut BudgetWords,
) -> u64
    ensures answer_after { told result (budget_of answer.new) ≡ told_of (budget_of answer.old)
        (new_budget budget_ns period_ns burst_ns) }
    ensures answer_unchanged { result ≢ 0 → answer.new ≡ answer.old }
{
    record_entries::budget_parameters_new(budget_ns, period_ns, burst_ns, answer)
}

// ThreadWeight::new; 0 where there is none.
#[unsafe(no_mangle)]
pub extern "C" fn thread_weight_new(value: u16) -> u16
    ensures { result ≡ weight_number (new_weight value) }
{
    record_entries::thread_weight_new(value)
}

// ThreadPriority::new and its reader.
#[unsafe(no_mangle)]
pub extern "C" fn thread_priority_new(value: u8) -> u8
    ensures { result ≡ value }
{
    record_entries::thread_priority_new(value)
}

// The constants: the highest, the normal and the lowest priority, the default and the greatest weight, the longest
// period.
#[unsafe(no_mangle)]
pub extern "C" fn policy_constants(answer: &mut ConstantWords)
    ensures { answer.new ≡ constants }
{
    record_entries::policy_constants(answer);
}

// SchedulingPolicy::fifo
#[unsafe(no_mangle)]
pub extern "C" fn policy_fifo(priority: u8, answer: &mut PairWords)
    ensures { policy_of answer.new ≡ SchedulingPolicy.Fifo (record { 0 = priority }) }
{
    record_entries::policy_fifo(priority, answer);
}

// SchedulingPolicy::fair
#[unsafe(no_mangle)]
pub extern "C" fn policy_fair(answer: &mut PairWords)
    ensures { policy_of answer.new ≡ SchedulingPolicy.Fair }
{
    record_entries::policy_fair(answer);
}

// SchedulingPolicy::class and SchedulingPolicy::priority, on a policy's two words. The classes are 0 to 3.
#[unsafe(no_mangle)]
pub extern "C" fn policy_class_and_priority(tag: u64, priority: u64, answer: &mut PairWords) -> u64
    ensures { told result (priority_option_of answer.new)
        ≡ told (class_number (class_of (policy_from tag priority))) (priority_of (policy_from tag priority)) }
{
    record_entries::policy_class_and_priority(tag, priority, answer)
}

// SchedulingParameters::fair; the weight is taken as it is. 1 where parameters were made.
#[unsafe(no_mangle)]
pub extern "C" fn parameters_fair(
    answer: &mut ParameterWords,
    weight: u16,
    quantum_ns: u64,
    band: u8,
    role: u64,
    backend: u64,
) -> u64
    ensures { told result (parameters_of answer.new) ≡ parameters_told (parameters_of answer.old)
        (new_fair (record { 0 = weight }) quantum_ns (record { 0 = band }) (role_from role) (backend_from backend)) }
{
    record_entries::parameters_fair(answer, weight, quantum_ns, band, role, backend)
}

// SchedulingParameters::budget; the budget is taken as it is.
#[unsafe(no_mangle)]
pub extern "C" fn parameters_budget(
    answer: &mut ParameterWords,
    budget: &BudgetWords,
    band: u8,
    role: u64,
)
    ensures { parameters_of answer.new ≡ of_budget (budget_of budget.now) (record { 0 = band })
        (role_from role) }
{
    record_entries::parameters_budget(answer, budget, band, role);
}

// SchedulingParameters::fifo
#[unsafe(no_mangle)]
pub extern "C" fn parameters_fifo(answer: &mut ParameterWords, priority: u8, band: u8, role: u64)
    ensures { parameters_of answer.new ≡ of_fifo (record { 0 = priority }) (record { 0 = band })
        (role_from role) }
{
    record_entries::parameters_fifo(answer, priority, band, role);
}

// SchedulingParameters::idle
#[unsafe(no_mangle)]
pub extern "C" fn parameters_idle(answer: &mut ParameterWords)
    ensures { parameters_of answer.new ≡ of_idle }
{
    record_entries::parameters_idle(answer);
}

// The seven readers of SchedulingParameters, each part as its own reader gives it.
#[unsafe(no_mangle)]
pub extern "C" fn parameters_read(row: &Row, answer: &mut ParameterWords)
    ensures { parameters_of answer.new ≡ parameters_of row.now }
{
    record_entries::parameters_read(row, answer);
}

// BudgetRuntime::new
#[unsafe(no_mangle)]
pub extern "C" fn budget_new(runtime: &mut RuntimeWords, budget: &BudgetWords) -> u64
    ensures runtime_after { told result (budget_runtime_of runtime.new) ≡ told_of (budget_runtime_of runtime.old)
        (budgets.made (budget_of budget.now)) }
    ensures runtime_unchanged { result ≢ 0 → runtime.new ≡ runtime.old }
{
    record_entries::budget_new(runtime, budget)
}

// BudgetRuntime::refresh
#[unsafe(no_mangle)]
pub extern "C" fn budget_refresh(
    runtime: &mut RuntimeWords,
    now_ns: u64,
    budget: &BudgetWords,
) -> u64
    ensures runtime_after { told result (budget_runtime_of runtime.new) ≡ told_of (budget_runtime_of runtime.old)
        (budgets.refreshed_judged (budget_runtime_of runtime.old) now_ns (budget_of budget.now)) }
    ensures runtime_unchanged { result ≢ 0 → runtime.new ≡ runtime.old }
{
    record_entries::budget_refresh(runtime, now_ns, budget)
}

// BudgetRuntime::account_interval
#[unsafe(no_mangle)]
pub extern "C" fn budget_account_interval(
    runtime: &mut RuntimeWords,
    start: u64,
    end: u64,
    budget: &BudgetWords,
) -> u64
    ensures runtime_after { told result (budget_runtime_of runtime.new) ≡ told_of (budget_runtime_of runtime.old)
        (budgets.accounted_interval (budget_runtime_of runtime.old) start end
        (budget_of budget.now)) }
    ensures runtime_unchanged { result ≢ 0 → runtime.new ≡ runtime.old }
{
    record_entries::budget_account_interval(runtime, start, end, budget)
}

// BudgetRuntime::finish_turn
#[unsafe(no_mangle)]
pub extern "C" fn budget_finish_turn(runtime: &mut RuntimeWords, budget: &BudgetWords) -> u64
    ensures runtime_after { told result (budget_runtime_of runtime.new) ≡ told_of (budget_runtime_of runtime.old)
        (budgets.turn_finished (budget_runtime_of runtime.old) (budget_of budget.now)) }
    ensures runtime_unchanged { result ≢ 0 → runtime.new ≡ runtime.old }
{
    record_entries::budget_finish_turn(runtime, budget)
}

// BudgetRuntime::period_deadline
#[unsafe(no_mangle)]
pub extern "C" fn budget_period_deadline(
    now_ns: u64,
    budget: &BudgetWords,
    answer: &mut DeadlineWords,
) -> u64
    ensures answer_after { told result (deadline_of answer.new) ≡ told_of (deadline_of answer.old)
        (budgets.period_deadline now_ns (budget_of budget.now)) }
    ensures answer_unchanged { result ≢ 0 → answer.new ≡ answer.old }
{
    record_entries::budget_period_deadline(now_ns, budget, answer)
}

// BudgetRuntime::deadline
#[unsafe(no_mangle)]
pub extern "C" fn budget_deadline(
    runtime: &mut RuntimeWords,
    now_ns: u64,
    budget: &BudgetWords,
    borrow: bool,
    answer: &mut DeadlineWords,
) -> u64
    ensures answer_after { told result (budget_runtime_of runtime.new, deadline_of answer.new)
        ≡ told_of (budget_runtime_of runtime.old, deadline_of answer.old)
        (budgets.deadline_judged (budget_runtime_of runtime.old) now_ns
        (budget_of budget.now) borrow) }
    ensures runtime_unchanged { result ≢ 0 → runtime.new ≡ runtime.old }
    ensures answer_unchanged { result ≢ 0 → answer.new ≡ answer.old }
{
    record_entries::budget_deadline(runtime, now_ns, budget, borrow, answer)
}

// BudgetRuntime::reconfigure; the answer's last word is 0 where the periods differ.
#[unsafe(no_mangle)]
pub extern "C" fn budget_reconfigure(
    runtime: &RuntimeWords,
    old: &BudgetWords,
    new: &BudgetWords,
    answer: &mut PolicyRuntimeWords,
) -> u64
    ensures answer_after { told result (runtime_option_of answer.new) ≡ told_of (runtime_option_of answer.old)
        (budgets.reconfigured_judged (budget_runtime_of runtime.now) (budget_of old.now)
        (budget_of new.now)) }
    ensures answer_unchanged { result ≢ 0 → answer.new ≡ answer.old }
{
    record_entries::budget_reconfigure(runtime, old, new, answer)
}

// PolicyRuntime::new, with what a fair thread starts with.
#[unsafe(no_mangle)]
pub extern "C" fn runtime_new(
    row: &Row,
    pass_high: u64,
    pass_low: u64,
    remaining_ns: u64,
    answer: &mut PolicyRuntimeWords,
) -> u64
    ensures answer_after { told result (policy_runtime_of answer.new) ≡ told_of (policy_runtime_of answer.old)
        (runtimes.made (parameters_of row.now)
        (record { pass = record { high = pass_high; low = pass_low }; remaining_ns = remaining_ns })) }
    ensures answer_unchanged { result ≢ 0 → answer.new ≡ answer.old }
{
    record_entries::runtime_new(row, pass_high, pass_low, remaining_ns, answer)
}

// PolicyRuntime::account
#[unsafe(no_mangle)]
pub extern "C" fn runtime_account(
    row: &Row,
    start: u64,
    end: u64,
    answer: &mut PolicyRuntimeWords,
) -> u64
    ensures answer_after { told result (policy_runtime_of answer.new) ≡ told_of (policy_runtime_of answer.old)
        (runtimes.accounted (runtime_of row.now) (parameters_of row.now) start end) }
    ensures answer_unchanged { result ≢ 0 → answer.new ≡ answer.old }
{
    record_entries::runtime_account(row, start, end, answer)
}

// PolicyRuntime::epoch_refresh
#[unsafe(no_mangle)]
pub extern "C" fn runtime_epoch_refresh(
    row: &Row,
    now_ns: u64,
    answer: &mut PolicyRuntimeWords,
) -> u64
    ensures answer_after { told result (policy_runtime_of answer.new) ≡ told_of (policy_runtime_of answer.old)
        (runtimes.epoch_refreshed (runtime_of row.now) now_ns (parameters_of row.now)) }
    ensures answer_unchanged { result ≢ 0 → answer.new ≡ answer.old }
{
    record_entries::runtime_epoch_refresh(row, now_ns, answer)
}

// PolicyRuntime::finish_turn
#[unsafe(no_mangle)]
pub extern "C" fn runtime_finish_turn(row: &Row, answer: &mut PolicyRuntimeWords) -> u64
    ensures answer_after { told result (policy_runtime_of answer.new) ≡ told_of (policy_runtime_of answer.old)
        (runtimes.turn_finished (runtime_of row.now) (parameters_of row.now)) }
    ensures answer_unchanged { result ≢ 0 → answer.new ≡ answer.old }
{
    record_entries::runtime_finish_turn(row, answer)
}

// PolicyRuntime::candidate_key
#[unsafe(no_mangle)]
pub extern "C" fn runtime_candidate_key(row: &Row, turn: u64, answer: &mut RuntimeKeyWords)
    ensures { runtime_key_of answer.new ≡ runtimes.candidate_key (runtime_of row.now)
        (parameters_of row.now) turn }
{
    record_entries::runtime_candidate_key(row, turn, answer);
}

// Whether the row's runtime is of its policy's kind.
#[unsafe(no_mangle)]
pub extern "C" fn runtime_same_kind(row: &Row) -> bool
    ensures { result ≡ runtimes.same_kind (runtime_of row.now) (policy_of row.now) }
{
    record_entries::runtime_same_kind(row)
}

// PolicyRuntime::next_deadline
#[unsafe(no_mangle)]
pub extern "C" fn runtime_next_deadline(
    row: &Row,
    now_ns: u64,
    competition: bool,
    borrow: bool,
    after: &mut PolicyRuntimeWords,
    answer: &mut DeadlineWords,
) -> u64
    ensures answer_after { told result (policy_runtime_of after.new, deadline_of answer.new)
        ≡ told_of (policy_runtime_of after.old, deadline_of answer.old)
        (runtimes.next_deadline (runtime_of row.now) now_ns
        (parameters_of row.now) competition borrow) }
    ensures after_unchanged { result ≢ 0 → after.new ≡ after.old }
    ensures answer_unchanged { result ≢ 0 → answer.new ≡ answer.old }
{
    record_entries::runtime_next_deadline(row, now_ns, competition, borrow, after, answer)
}
