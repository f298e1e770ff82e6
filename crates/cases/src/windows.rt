// Calls on the window, with the refusal's number for an answer. The scratch has the running thread as a candidate, a
// demand, two keys and the deadline.
use crate::letters::WindowCall;
use crate::places::{CURRENT, Case, DEMAND, DUE, KEY, READY, WINDOW, record};
use crate::reading::Numbers;
use board::board_key;
use policy_words::DEADLINE_WORDS;
use window_entries::{
    config_new, dispatch_keys_compare, window_account_dispatch, window_protection_deadline,
};
use window_words::WindowWords;

impl Case<'_> {
    fn protection(&mut self, w: &mut WindowWords, a: Numbers) -> u64 {
        let mut due = [0; DEADLINE_WORDS];
        let number = window_protection_deadline(w, a[0], a[1] != 0, &mut due);
        self.put(DUE, &due);
        number
    }

    fn key(&mut self, w: &mut WindowWords, reading: u64) -> u64 {
        let mut answer = self.words(KEY);
        let demand = self.words(DEMAND);
        let candidate = self.row(CURRENT);
        let number = board_key(w, reading, &candidate, &demand, &mut answer);
        self.put(KEY, &answer);
        number
    }

    fn interval(&self, w: &mut WindowWords, a: Numbers) -> u64 {
        let row = self.row(record(a[0]));
        window_account_dispatch(w, a[2], a[3], &row, a[1])
    }

    pub fn window(&mut self, call: WindowCall, a: Numbers) -> u64 {
        let mut w = self.words(WINDOW);
        let number = match call {
            WindowCall::Config => config_new(&mut w),
            WindowCall::Protection => self.protection(&mut w, a),
            WindowCall::Key => self.key(&mut w, a[0]),
            WindowCall::Interval => self.interval(&mut w, a),
        };
        self.put(WINDOW, &w);
        number
    }

    // The two keys of the scratch compared.
    pub fn compared(&self) -> u64 {
        let key = self.words(KEY);
        let ready = self.words(READY);
        dispatch_keys_compare(&key, &ready)
    }
}
