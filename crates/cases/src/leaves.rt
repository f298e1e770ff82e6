// Calls on one record's parameters and runtime, with the refusal's number for an answer.
use crate::letters::RuntimeCall;
use crate::places::{Case, DUE, record};
use crate::reading::Numbers;
use codec::Row;
use policy_words::{
    DEADLINE_WORDS, POLICY_RUNTIME_WORDS, PolicyRuntimeWords, RUNTIME_FIRST, RUNTIME_FOURTH,
    RUNTIME_SECOND, RUNTIME_TAG, RUNTIME_THIRD,
};
use record_entries::{
    BUDGET_WORDS, budget_parameters_new, runtime_account, runtime_epoch_refresh,
    runtime_finish_turn, runtime_new, runtime_next_deadline,
};

pub fn budget(a: Numbers) -> u64 {
    let mut answer = [0; BUDGET_WORDS];
    budget_parameters_new(a[0], a[1], a[2], &mut answer)
}

impl RuntimeCall {
    fn changed(self, row: &Row, after: &mut PolicyRuntimeWords, a: Numbers) -> u64 {
        match self {
            Self::Refresh => runtime_epoch_refresh(row, a[1], after),
            Self::Charge => runtime_account(row, a[1], a[2], after),
            Self::End => runtime_finish_turn(row, after),
            Self::New => runtime_new(row, a[1], a[2], a[3], after),
        }
    }
}

impl Case<'_> {
    pub fn expiry(&mut self, a: Numbers) -> u64 {
        let mut after = [0; POLICY_RUNTIME_WORDS];
        let mut due = [0; DEADLINE_WORDS];
        let row = self.row(record(a[0]));
        let n = runtime_next_deadline(&row, a[1], a[2] != 0, a[3] != 0, &mut after, &mut due);
        self.put(DUE, &due);
        n
    }

    // The runtime's words alone change; a refusal leaves them.
    pub fn set_runtime(&mut self, call: RuntimeCall, a: Numbers) -> u64 {
        let at = record(a[0]);
        let row = self.row(at);
        let mut after = [
            row[RUNTIME_TAG],
            row[RUNTIME_FIRST],
            row[RUNTIME_SECOND],
            row[RUNTIME_THIRD],
            row[RUNTIME_FOURTH],
        ];
        let n = call.changed(&row, &mut after, a);
        self.put_from(at, RUNTIME_TAG, &after);
        n
    }
}
