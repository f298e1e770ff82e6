// The judgement of a record by the tags of its row, what the calls read of a budget, and the store of its runtime: no
// record is made only to be taken apart again.
ghost use Rattle.std.specs.Prelude.{◌≡◌, [], ◌<◌, length, get_or};
ghost use Rattle.refusal.specs.Answer.{by_number};
ghost use Rattle.thread.specs.Judgement.{is_bad_record};
ghost use Rattle.codec.specs.Codec.{decoded};
ghost use Rattle.rows.specs.Table.{table};
ghost use Rattle.queue.specs.RowJudgement.{budget_runtime, budget_parameters};
ghost use Rattle.runtime.specs.Rows.{bad_budget, budget_stored};
ghost use Rattle.rows.specs.Unmoved.{Unmoved};
ghost use Rattle.rows.specs.Frame.{Framed};

use algorithms::PolicyRuntime;
use budget::BudgetRuntime;
use codec::{Row, epoch_from};
use policy::BudgetParameters;
use policy_words::{
    BUDGET_BURST, BUDGET_NS, BUDGET_PERIOD, BUDGET_TAG, POLICY_TAG, RUNTIME_FIRST, RUNTIME_FOURTH,
    RUNTIME_SECOND, RUNTIME_TAG, RUNTIME_THIRD,
};
use queue::is_bad_row;
use refusal::Refusal;
use rows::set_runtime;

// Of a row whose policy and runtime are a budget's.
fn is_bad_budget(w: Row) -> bool
    ensures { result ≡ bad_budget w }
{
    if w[BUDGET_TAG] == 0 {
        return true;
    }
    let budget = budget_parameters(w);
    if budget.is_sound() {
        return false;
    }
    true
}

// `is_bad_row`, by the runtime's tag first, as the calls go on by it: the compiler then judges a budget once. Only
// three words are read where neither policy nor runtime is a budget's: a row of two equal tags below 2 has one kind,
// and is bad where it has a budget.
pub fn is_bad_at(t: &[Row], k: usize) -> bool
    requires { k < length t.now }
    ensures { result ≡ is_bad_record (decoded (get_or t.now k [])) }
{
    let tag = t[k][RUNTIME_TAG];
    if tag == 2 {
        if t[k][POLICY_TAG] == 2 {
            let row = t[k];
            return is_bad_budget(row);
        }
        return true;
    }
    if tag == t[k][POLICY_TAG] {
        if tag < 2 {
            if t[k][BUDGET_TAG] == 0 {
                return false;
            }
        }
    }
    let row = t[k];
    is_bad_row(row)
}

pub fn budget_runtime(w: Row) -> BudgetRuntime
    ensures { result ≡ budget_runtime w }
{
    let epoch = epoch_from(w[RUNTIME_FIRST], w[RUNTIME_SECOND]);
    BudgetRuntime {
        epoch,
        remaining_ns: w[RUNTIME_THIRD],
        burst_remaining_ns: w[RUNTIME_FOURTH],
    }
}

pub fn budget_parameters(w: Row) -> BudgetParameters
    ensures { result ≡ budget_parameters w }
{
    BudgetParameters {
        budget_ns: w[BUDGET_NS],
        period_ns: w[BUDGET_PERIOD],
        burst_ns: w[BUDGET_BURST],
    }
}

// A budget's runtime as a call leaves it; a refusal stores nothing.
pub fn store_budget(t: &mut [Row], id: u64, answer: Result<BudgetRuntime, Refusal>)
    ensures t_after { table t.new ≡ budget_stored (table t.old) id (by_number answer) }
    ensures unmoved { Unmoved (by_number answer) t.old t.new }
    ensures framed { Framed t.old t.new }
{
    match answer {
        Err(_) => {}
        Ok(runtime) => {
            let _ = set_runtime(t, id, PolicyRuntime::Budget(runtime));
        }
    }
}
