// Preparing a thread to be queued: its budget refreshed, and its turn. After `prepare_enqueue`.
ghost use Rattle.std.specs.Prelude.{◌≡◌, [], ◌<◌, length, get_or};
ghost use Rattle.refusal.specs.Answer.{by_number};
ghost use Rattle.rows.specs.Table.{table, out};
ghost use Rattle.runtime.specs.Prepare.{prepare_enqueue};
ghost use Rattle.runtime.specs.Rows.{prepared_row, row_prepared};
ghost use Rattle.rows.specs.Unmoved.{Unmoved};
ghost use Rattle.rows.specs.Frame.{Framed};
ghost use Rattle.runtime.specs.Answers.{prepared_answer};

use crate::Prepared;
use crate::account::refresh_at;
use crate::judging::is_bad_at;
use codec::{FIFO_PRIORITY, MEMBERSHIP_TAG, POLICY_TAG, READY_TURN, Row};
use decisions::{Turns, turn_for};
use policy_words::policy_from;
use refusal::Refusal;
use rows::{MAX_RECORDS, set_turn};
use thread::ThreadId;

// The budget refreshed, then the turn.
fn store_prepared(t: &mut [Row], id: u64, reading: u64, turn: u64)
    requires { id < length t.old }
    ensures t_after { table t.new ≡ prepared_row (table t.old) id
        (get_or t.old id []) reading turn }
    ensures framed { Framed t.old t.new }
{
    refresh_at(t, id, reading);
    let _ = set_turn(t, id, turn);
}

// Of a judged record: Already, then the turn, which may be TurnsSpent; only then is anything stored.
fn prepare_row(t: &mut [Row], id: u64, front: bool, reading: u64, turns: Turns) -> Prepared
    requires { id < length t.old }
    ensures t_after { out (prepared_answer result) (table t.new) ≡ row_prepared (table t.old) id
        (get_or t.old id []) front reading turns }
    ensures unmoved { Unmoved (by_number result.answer) t.old t.new }
    ensures framed { Framed t.old t.new }
{
    let k = id as usize;
    let row = t[k];
    if row[MEMBERSHIP_TAG] == 0 {
        let policy = policy_from(row[POLICY_TAG], row[FIFO_PRIORITY]);
        let taken = turn_for(front, policy, row[READY_TURN], turns);
        match taken {
            Err(refusal) => {
                return Prepared {
                    answer: Err(refusal),
                    turns,
                };
            }
            Ok(taken) => {
                store_prepared(t, id, reading, taken.turn);
                let after = taken.turns;
                return Prepared {
                    answer: Ok(()),
                    turns: after,
                };
            }
        }
    }
    Prepared {
        answer: Err(Refusal::Already),
        turns,
    }
}

// The turn part of `prepare_enqueue`, with its budget refresh: order 10, 4, 11, 3, 8. A refusal leaves counters and
// record unchanged.
pub fn prepare_enqueue(
    t: &mut [Row],
    id: ThreadId,
    front: bool,
    reading: u64,
    turns: Turns,
) -> Prepared
    ensures t_after { out (prepared_answer result) (table t.new) ≡ prepare_enqueue (table t.old)
        id.0 front reading turns }
    ensures unmoved { Unmoved (by_number result.answer) t.old t.new }
    ensures framed { Framed t.old t.new }
{
    let k = id.0 as usize;
    if MAX_RECORDS < t.len() {
        return Prepared {
            answer: Err(Refusal::BadTable),
            turns,
        };
    }
    if k < t.len() {
        if is_bad_at(t, k) {
            return Prepared {
                answer: Err(Refusal::BadRecord),
                turns,
            };
        }
        return prepare_row(t, id.0, front, reading, turns);
    }
    Prepared {
        answer: Err(Refusal::NoThread),
        turns,
    }
}
