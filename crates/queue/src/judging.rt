// What the judgement asks of a record, read from the words of its row by the tags: no record is made only to be taken
// apart again.
ghost use Rattle.std.specs.Prelude.{◌≡◌};
ghost use Rattle.thread.specs.Judgement.{is_bad_record};
ghost use Rattle.thread.specs.Filing.{budget_available_of, index_for};
ghost use Rattle.codec.specs.Codec.{decoded};
ghost use Rattle.queue.specs.Plan.{filed_of};
ghost use Rattle.queue.specs.RowJudgement.{kind_from, role_number};

use crate::{BUDGET_EXHAUSTED, BUDGET_READY, FAIR, Filed};
use codec::{
    BUDGET_BURST, BUDGET_NS, BUDGET_PERIOD, BUDGET_TAG, CPU, MEMBERSHIP_FIRST, MEMBERSHIP_SECOND,
    MEMBERSHIP_TAG, POLICY_TAG, ROLE_TAG, RUNTIME_TAG, RUNTIME_THIRD, Row, byte_from,
    membership_from, parameters_of,
};
use policy::BudgetParameters;
use thread::CpuIndex;

// FIFO, Fair, Budget and Idle as 0 to 3, of a policy's tag or a runtime's.
pub fn kind_from(tag: u64) -> u64
    ensures { result ≡ kind_from tag }
{
    if tag == 0 {
        return 0;
    }
    if tag == 1 {
        return 1;
    }
    if tag == 2 {
        return 2;
    }
    3
}

pub fn role_number(tag: u64) -> u64
    ensures { result ≡ role_number tag }
{
    if tag == 0 {
        return 0;
    }
    if tag == 1 {
        return 1;
    }
    2
}

pub fn is_bad_row(w: Row) -> bool
    ensures { result ≡ is_bad_record (decoded w) }
{
    let policy = kind_from(w[POLICY_TAG]);
    let runtime = kind_from(w[RUNTIME_TAG]);
    if runtime == policy {
        if policy == 2 {
            if w[BUDGET_TAG] == 0 {
                return true;
            }
            let budget = BudgetParameters {
                budget_ns: w[BUDGET_NS],
                period_ns: w[BUDGET_PERIOD],
                burst_ns: w[BUDGET_BURST],
            };
            if budget.is_sound() {
                return false;
            }
            return true;
        }
        if w[BUDGET_TAG] == 0 {
            return false;
        }
        return true;
    }
    true
}

// Whether the runtime is a budget's with time left.
pub fn has_time_left(w: Row) -> bool
    ensures { result ≡ budget_available_of (decoded w).runtime }
{
    let runtime = kind_from(w[RUNTIME_TAG]);
    if runtime == 2 {
        if w[RUNTIME_THIRD] == 0 {
            return false;
        }
        return true;
    }
    false
}

// The tree that the row's record is filed in. After `index_for`.
pub fn index_of_row(w: Row) -> Option<u64>
    ensures { result ≡ index_for (decoded w).parameters (decoded w).runtime }
{
    let role = role_number(w[ROLE_TAG]);
    let policy = kind_from(w[POLICY_TAG]);
    if policy == 0 {
        return Some(role);
    }
    if policy == 1 {
        return Some(FAIR + role);
    }
    if policy == 2 {
        if has_time_left(w) {
            return Some(BUDGET_READY + role);
        }
        return Some(BUDGET_EXHAUSTED + role);
    }
    None
}

pub fn filed_of_row(w: Row, index: u64) -> Filed
    ensures { result ≡ filed_of (decoded w) index }
{
    let parameters = parameters_of(w);
    let policy = parameters.policy;
    let membership = membership_from(w[MEMBERSHIP_TAG], w[MEMBERSHIP_FIRST], w[MEMBERSHIP_SECOND]);
    let number = byte_from(w[CPU]);
    Filed {
        policy,
        membership,
        cpu: CpuIndex(number),
        index,
    }
}
