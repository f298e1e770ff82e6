// A record as a row of 32 words. Nothing here is partial: every row is some record's.
#![tactic(auto)]

ghost use Rattle.std.specs.Prelude.{◌≡◌, true, ◌%◌};
ghost use Rattle.codec.specs.Codec.{word, decoded, link_from, membership_from, parameters_of, runtime_of, links_of};
ghost use Rattle.codec.specs.Codec.{queue_links_of, ready_turn_word};
ghost use Rattle.codec.specs.Frame.{option_encodes, membership_encodes, RowFramed};
ghost use Rattle.thread.specs.Records.{with_parameters, with_runtime, with_turn, with_links, with_left, with_right};
ghost use Rattle.thread.specs.Records.{with_height, with_queue_links, with_cpu};
ghost use Rattle.thread.specs.TreeKey.{algorithm_key, ready_index_key};

use algorithms::{PolicyRuntime, Wide};
use policy::SchedulingParameters;
pub use policy_words::{
    BACKEND_TAG, BAND, BUDGET_BURST, BUDGET_NS, BUDGET_PERIOD, BUDGET_TAG, FIFO_PRIORITY,
    POLICY_TAG, QUANTUM, ROLE_TAG, RUNTIME_FIRST, RUNTIME_FOURTH, RUNTIME_SECOND, RUNTIME_TAG,
    RUNTIME_THIRD, Row, WEIGHT, backend_from, byte_from, epoch_from, parameters_of, role_from,
    runtime_of, word_of_byte, words_of_epoch,
};
use policy_words::{words_of_parameters, words_of_runtime};
use thread::{CpuIndex, Links, QueueLinks, QueueMembership, ThreadRecord, TreeKey};

// Where the words of turn, tree links, list links, membership and processor stand in a thread's row; those of
// parameters and runtime are policy_words'.
pub const READY_TURN: usize = 16;

pub const LEFT_TAG: usize = 17;

pub const LEFT: usize = 18;

pub const RIGHT_TAG: usize = 19;

pub const RIGHT: usize = 20;

pub const HEIGHT: usize = 21;

pub const PREVIOUS_TAG: usize = 22;

pub const PREVIOUS: usize = 23;

pub const NEXT_TAG: usize = 24;

pub const NEXT: usize = 25;

pub const MEMBERSHIP_TAG: usize = 26;

pub const MEMBERSHIP_FIRST: usize = 27;

pub const MEMBERSHIP_SECOND: usize = 28;

pub const CPU: usize = 29;

pub fn link_from(tag: u64, number: u64) -> Option<u64>
    ensures { result ≡ link_from tag number }
{
    if tag == 0 {
        return None;
    }
    Some(number)
}

pub fn membership_from(tag: u64, first: u64, second: u64) -> QueueMembership
    ensures { result ≡ membership_from tag first second }
{
    if tag == 0 {
        return QueueMembership::None;
    }
    if tag == 1 {
        return QueueMembership::ReadyRealTime {
            cpu: CpuIndex((first % 256) as u8),
            priority: (second % 256) as u8,
        };
    }
    if tag == 2 {
        return QueueMembership::ReadyFair {
            cpu: CpuIndex((first % 256) as u8),
        };
    }
    if tag == 3 {
        return QueueMembership::Waiting { queue: first };
    }
    QueueMembership::Terminated
}

pub fn links_of(w: Row) -> Links
    ensures { result ≡ links_of w }
{
    let left = link_from(w[LEFT_TAG], w[LEFT]);
    let right = link_from(w[RIGHT_TAG], w[RIGHT]);
    let height = byte_from(w[HEIGHT]);
    Links {
        left,
        right,
        height,
    }
}

pub fn queue_links_of(w: Row) -> QueueLinks
    ensures { result ≡ queue_links_of w }
{
    let previous = link_from(w[PREVIOUS_TAG], w[PREVIOUS]);
    let next = link_from(w[NEXT_TAG], w[NEXT]);
    let membership = membership_from(w[MEMBERSHIP_TAG], w[MEMBERSHIP_FIRST], w[MEMBERSHIP_SECOND]);
    QueueLinks {
        previous,
        next,
        membership,
    }
}

// The algorithm's part of the row's tree key, by the tags alone: neither policy nor runtime is made only to be taken
// apart again.
fn algorithm_of(w: Row) -> Wide
    ensures { result ≡ algorithm_key (parameters_of w) (runtime_of w) (word w ready_turn_word) }
{
    if w[POLICY_TAG] == 0 {
        return Wide {
            high: 0,
            low: w[FIFO_PRIORITY] % 256,
        };
    }
    if w[POLICY_TAG] == 1 {
        if w[BACKEND_TAG] == 0 {
            if w[RUNTIME_TAG] == 1 {
                return Wide {
                    high: w[RUNTIME_FIRST],
                    low: w[RUNTIME_SECOND],
                };
            }
            return Wide { high: 0, low: 0 };
        }
        return Wide {
            high: 0,
            low: w[READY_TURN],
        };
    }
    Wide {
        high: 0,
        low: w[READY_TURN],
    }
}

// The tree key of the row's record with this number. After `ready_index_key`.
pub fn key_of(w: Row, id: u64) -> TreeKey
    ensures { result ≡ ready_index_key (decoded w) id }
{
    let algorithm = algorithm_of(w);
    let band = byte_from(w[BAND]);
    TreeKey {
        algorithm,
        band,
        turn: w[READY_TURN],
        id,
    }
}

pub fn decode(w: Row) -> ThreadRecord
    ensures { result ≡ decoded w }
{
    let parameters = parameters_of(w);
    let runtime = runtime_of(w);
    let ready_tree = links_of(w);
    let queue_links = queue_links_of(w);
    let cpu = CpuIndex(byte_from(w[CPU]));
    ThreadRecord {
        parameters,
        runtime,
        ready_turn: w[READY_TURN],
        ready_tree,
        queue_links,
        cpu,
    }
}

pub fn words_of_link(link: Option<u64>) -> [u64; 2]
    ensures result_value { link_from (word result 0) (word result 1) ≡ link }
    ensures result_value_2 { option_encodes (word result 0) (word result 1) ≡ true }
{
    match link {
        None => [0, 0],
        Some(n) => [1, n],
    }
}

fn words_of_membership(membership: QueueMembership) -> [u64; 3]
    ensures result_value { membership_from (word result 0) (word result 1) (word result 2) ≡ membership }
    ensures result_value_2 { membership_encodes (word result 0) (word result 1) (word result 2) ≡ true }
{
    match membership {
        QueueMembership::None => [0, 0, 0],
        QueueMembership::ReadyRealTime { cpu, priority } => [
            1,
            word_of_byte(cpu.0),
            word_of_byte(priority),
        ],
        QueueMembership::ReadyFair { cpu } => [2, word_of_byte(cpu.0), 0],
        QueueMembership::Waiting { queue } => [3, queue, 0],
        QueueMembership::Terminated => [4, 0, 0],
    }
}

pub fn with_parameters(w: Row, parameters: SchedulingParameters) -> Row
    ensures { decoded result ≡ with_parameters parameters (decoded w) }
{
    let words = words_of_parameters(parameters);
    let mut row = w;
    row[POLICY_TAG] = words[POLICY_TAG];
    row[FIFO_PRIORITY] = words[FIFO_PRIORITY];
    row[BAND] = words[BAND];
    row[ROLE_TAG] = words[ROLE_TAG];
    row[WEIGHT] = words[WEIGHT];
    row[QUANTUM] = words[QUANTUM];
    row[BACKEND_TAG] = words[BACKEND_TAG];
    row[BUDGET_TAG] = words[BUDGET_TAG];
    row[BUDGET_NS] = words[BUDGET_NS];
    row[BUDGET_PERIOD] = words[BUDGET_PERIOD];
    row[BUDGET_BURST] = words[BUDGET_BURST];
    row
}

pub fn with_runtime(w: Row, runtime: PolicyRuntime) -> Row
    ensures result_value { decoded result ≡ with_runtime runtime (decoded w) }
    ensures row_framed { RowFramed w result }
{
    let words = words_of_runtime(runtime);
    let mut row = w;
    row[RUNTIME_TAG] = words[0];
    row[RUNTIME_FIRST] = words[1];
    row[RUNTIME_SECOND] = words[2];
    row[RUNTIME_THIRD] = words[3];
    row[RUNTIME_FOURTH] = words[4];
    row
}

pub fn with_turn(w: Row, turn: u64) -> Row
    ensures result_value { decoded result ≡ with_turn turn (decoded w) }
    ensures row_framed { RowFramed w result }
{
    let mut row = w;
    row[READY_TURN] = turn;
    row
}

pub fn with_links(w: Row, links: Links) -> Row
    ensures result_value { decoded result ≡ with_links links (decoded w) }
    ensures row_framed { RowFramed w result }
{
    let its_left = links.left;
    let its_right = links.right;
    let left = words_of_link(its_left);
    let right = words_of_link(its_right);
    let height = word_of_byte(links.height);
    let mut row = w;
    row[LEFT_TAG] = left[0];
    row[LEFT] = left[1];
    row[RIGHT_TAG] = right[0];
    row[RIGHT] = right[1];
    row[HEIGHT] = height;
    row
}

pub fn with_left(w: Row, link: Option<u64>) -> Row
    ensures result_value { decoded result ≡ with_left link (decoded w) }
    ensures row_framed { RowFramed w result }
{
    let words = words_of_link(link);
    let mut row = w;
    row[LEFT_TAG] = words[0];
    row[LEFT] = words[1];
    row
}

pub fn with_right(w: Row, link: Option<u64>) -> Row
    ensures result_value { decoded result ≡ with_right link (decoded w) }
    ensures row_framed { RowFramed w result }
{
    let words = words_of_link(link);
    let mut row = w;
    row[RIGHT_TAG] = words[0];
    row[RIGHT] = words[1];
    row
}

pub fn with_height(w: Row, height: u8) -> Row
    ensures result_value { decoded result ≡ with_height height (decoded w) }
    ensures row_framed { RowFramed w result }
{
    let word = word_of_byte(height);
    let mut row = w;
    row[HEIGHT] = word;
    row
}

pub fn with_queue_links(w: Row, links: QueueLinks) -> Row
    ensures result_value { decoded result ≡ with_queue_links links (decoded w) }
    ensures row_framed { RowFramed w result }
{
    let its_previous = links.previous;
    let its_next = links.next;
    let its_membership = links.membership;
    let previous = words_of_link(its_previous);
    let next = words_of_link(its_next);
    let membership = words_of_membership(its_membership);
    let mut row = w;
    row[PREVIOUS_TAG] = previous[0];
    row[PREVIOUS] = previous[1];
    row[NEXT_TAG] = next[0];
    row[NEXT] = next[1];
    row[MEMBERSHIP_TAG] = membership[0];
    row[MEMBERSHIP_FIRST] = membership[1];
    row[MEMBERSHIP_SECOND] = membership[2];
    row
}

fn with_cpu(w: Row, cpu: CpuIndex) -> Row
    ensures { decoded result ≡ with_cpu cpu (decoded w) }
{
    let number = word_of_byte(cpu.0);
    let mut row = w;
    row[CPU] = number;
    row
}

// A row of the record, its spare words 0.
pub fn encode(thread: ThreadRecord) -> Row
    ensures { decoded result ≡ thread }
{
    let parameters = thread.parameters;
    let runtime = thread.runtime;
    let links = thread.ready_tree;
    let queue_links = thread.queue_links;
    let cpu = thread.cpu;
    let empty: Row = [0; 32];
    let first = with_parameters(empty, parameters);
    let second = with_runtime(first, runtime);
    let third = with_turn(second, thread.ready_turn);
    let fourth = with_links(third, links);
    let fifth = with_queue_links(fourth, queue_links);
    with_cpu(fifth, cpu)
}
