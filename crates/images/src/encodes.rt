// Whether words are the encoding of what they stand for: a tag that is a variant's number, a number within its type, 0
// where nothing uses a word.
ghost use Rattle.std.specs.Prelude.{◌≡◌};
ghost use Rattle.images.specs.Encodes as test;

use codec::{
    BACKEND_TAG, BAND, BUDGET_BURST, BUDGET_NS, BUDGET_PERIOD, BUDGET_TAG, CPU, FIFO_PRIORITY,
    HEIGHT, LEFT, LEFT_TAG, MEMBERSHIP_FIRST, MEMBERSHIP_SECOND, MEMBERSHIP_TAG, NEXT, NEXT_TAG,
    POLICY_TAG, PREVIOUS, PREVIOUS_TAG, RIGHT, RIGHT_TAG, ROLE_TAG, RUNTIME_FIRST, RUNTIME_FOURTH,
    RUNTIME_SECOND, RUNTIME_TAG, RUNTIME_THIRD, Row, WEIGHT,
};
use lent_queue::{HALTED, HEAD, HEAD_TAG, MARKS_ROW, QueueRow, ROOT_ROWS};
use window_words::{
    BORROW_RANK, BUDGET_RANK, EPOCH, EPOCH_TAG, FAIR_RANK, PREFER_FAIR, PRIORITY_RANK, WindowWords,
};

// The numbers of a byte, and of a weight.
const BYTES: u64 = 256;

const HALVES: u64 = 65_536;

// The words of a thread's row that nothing uses.
const FIRST_SPARE: usize = 30;

const SECOND_SPARE: usize = 31;

// The words of a list's tail and length, which a root has no use for: lent_queue keeps their places to itself.
const TAIL_TAG: usize = 2;

const TAIL: usize = 3;

const LEN: usize = 4;

fn zeros(a: u64, b: u64, c: u64) -> bool
    ensures { result ≡ test.zeros a b c }
{
    if a == 0 {
        if b == 0 {
            return c == 0;
        }
        return false;
    }
    false
}

fn option_encodes(tag: u64, number: u64) -> bool
    ensures { result ≡ test.option_encodes tag number }
{
    if tag == 0 {
        return number == 0;
    }
    tag == 1
}

fn policy_encodes(tag: u64, priority: u64) -> bool
    ensures { result ≡ test.policy_encodes tag priority }
{
    if tag == 0 {
        return priority < BYTES;
    }
    if tag < 4 {
        return priority == 0;
    }
    false
}

fn budget_encodes(tag: u64, budget_ns: u64, period_ns: u64, burst_ns: u64) -> bool
    ensures { result ≡ test.budget_encodes tag budget_ns period_ns burst_ns }
{
    if tag == 0 {
        return zeros(budget_ns, period_ns, burst_ns);
    }
    tag == 1
}

fn runtime_encodes(tag: u64, first: u64, second: u64, third: u64, fourth: u64) -> bool
    ensures { result ≡ test.runtime_encodes tag first second third fourth }
{
    if tag == 1 {
        return fourth == 0;
    }
    if tag == 2 {
        return option_encodes(first, second);
    }
    if tag < 4 {
        if zeros(first, second, third) {
            return fourth == 0;
        }
        return false;
    }
    false
}

fn membership_encodes(tag: u64, first: u64, second: u64) -> bool
    ensures { result ≡ test.membership_encodes tag first second }
{
    if tag == 1 {
        if first < BYTES {
            return second < BYTES;
        }
        return false;
    }
    if tag == 2 {
        if first < BYTES {
            return second == 0;
        }
        return false;
    }
    if tag == 3 {
        return second == 0;
    }
    if tag < 5 {
        return zeros(first, second, 0);
    }
    false
}

fn parameters_encode(w: Row) -> bool
    ensures { result ≡ test.parameters_encode w }
{
    if !policy_encodes(w[POLICY_TAG], w[FIFO_PRIORITY]) {
        return false;
    }
    if w[BAND] >= BYTES {
        return false;
    }
    if w[ROLE_TAG] >= 3 {
        return false;
    }
    if w[WEIGHT] >= HALVES {
        return false;
    }
    if w[BACKEND_TAG] >= 2 {
        return false;
    }
    budget_encodes(
        w[BUDGET_TAG],
        w[BUDGET_NS],
        w[BUDGET_PERIOD],
        w[BUDGET_BURST],
    )
}

fn links_encode(w: Row) -> bool
    ensures { result ≡ test.links_encode w }
{
    if !option_encodes(w[LEFT_TAG], w[LEFT]) {
        return false;
    }
    if !option_encodes(w[RIGHT_TAG], w[RIGHT]) {
        return false;
    }
    w[HEIGHT] < BYTES
}

fn queue_links_encode(w: Row) -> bool
    ensures { result ≡ test.queue_links_encode w }
{
    if !option_encodes(w[PREVIOUS_TAG], w[PREVIOUS]) {
        return false;
    }
    if !option_encodes(w[NEXT_TAG], w[NEXT]) {
        return false;
    }
    membership_encodes(w[MEMBERSHIP_TAG], w[MEMBERSHIP_FIRST], w[MEMBERSHIP_SECOND])
}

pub(crate) fn record_encodes(w: Row) -> bool
    ensures { result ≡ test.record_encodes w }
{
    if !parameters_encode(w) {
        return false;
    }
    if !runtime_encodes(
        w[RUNTIME_TAG],
        w[RUNTIME_FIRST],
        w[RUNTIME_SECOND],
        w[RUNTIME_THIRD],
        w[RUNTIME_FOURTH],
    ) {
        return false;
    }
    if !links_encode(w) {
        return false;
    }
    if !queue_links_encode(w) {
        return false;
    }
    if w[CPU] >= BYTES {
        return false;
    }
    zeros(w[FIRST_SPARE], w[SECOND_SPARE], 0)
}

pub(crate) fn window_encodes(w: WindowWords) -> bool
    ensures { result ≡ test.window_encodes w }
{
    if w[PRIORITY_RANK] >= BYTES {
        return false;
    }
    if w[BUDGET_RANK] >= BYTES {
        return false;
    }
    if w[FAIR_RANK] >= BYTES {
        return false;
    }
    if w[BORROW_RANK] >= BYTES {
        return false;
    }
    if w[PREFER_FAIR] >= 2 {
        return false;
    }
    option_encodes(w[EPOCH_TAG], w[EPOCH])
}

fn list_encodes(w: QueueRow) -> bool
    ensures { result ≡ test.list_encodes w }
{
    if !option_encodes(w[HEAD_TAG], w[HEAD]) {
        return false;
    }
    option_encodes(w[TAIL_TAG], w[TAIL])
}

fn root_encodes(w: QueueRow) -> bool
    ensures { result ≡ test.root_encodes w }
{
    if !option_encodes(w[HEAD_TAG], w[HEAD]) {
        return false;
    }
    zeros(w[TAIL_TAG], w[TAIL], w[LEN])
}

fn marks_encode(w: QueueRow) -> bool
    ensures { result ≡ test.marks_encode w }
{
    if !option_encodes(w[lent_queue::EPOCH_TAG], w[lent_queue::EPOCH]) {
        return false;
    }
    w[HALTED] < 2
}

pub(crate) fn queue_row_encodes(k: usize, w: QueueRow) -> bool
    ensures { result ≡ test.queue_row_encodes k w }
{
    if k < ROOT_ROWS {
        return list_encodes(w);
    }
    if k < MARKS_ROW {
        return root_encodes(w);
    }
    marks_encode(w)
}
