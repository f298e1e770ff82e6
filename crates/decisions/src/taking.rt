// Turns, and the two counters that they come from. After `prepare_enqueue`.
ghost use Rattle.std.specs.Prelude.{◌≡◌};
ghost use Rattle.refusal.specs.Answer.{by_number};
ghost use Rattle.decisions.specs.Turns.{front_turn, back_turn, kept_turn, turn_for};

use crate::{Taken, Turns};
use policy::SchedulingPolicy;
use refusal::Refusal;

// One before the last front turn; TurnsSpent where that would be 0 or less.
fn front_turn(turns: Turns) -> Result<Taken, Refusal>
    ensures { by_number result ≡ front_turn turns }
{
    if 1 < turns.front {
        let turn = turns.front - 1;
        return Ok(Taken {
            turn,
            turns: Turns {
                back: turns.back,
                front: turn,
            },
        });
    }
    Err(Refusal::TurnsSpent)
}

// The next turn at the back; TurnsSpent where it is 2^64 - 1.
fn back_turn(turns: Turns) -> Result<Taken, Refusal>
    ensures { by_number result ≡ back_turn turns }
{
    if turns.back < 18_446_744_073_709_551_615 {
        return Ok(Taken {
            turn: turns.back,
            turns: Turns {
                back: turns.back + 1,
                front: turns.front,
            },
        });
    }
    Err(Refusal::TurnsSpent)
}

fn kept_turn(turn: u64, turns: Turns) -> Result<Taken, Refusal>
    ensures { by_number result ≡ kept_turn turn turns }
{
    if turn == 0 {
        return back_turn(turns);
    }
    Ok(Taken { turn, turns })
}

// A front turn for FIFO alone; others keep their turn at the front unless it is 0.
pub fn turn_for(
    front: bool,
    policy: SchedulingPolicy,
    turn: u64,
    turns: Turns,
) -> Result<Taken, Refusal>
    ensures { by_number result ≡ turn_for front policy turn turns }
{
    if !front {
        return back_turn(turns);
    }
    match policy {
        SchedulingPolicy::Fifo { priority: _ } => front_turn(turns),
        SchedulingPolicy::Fair => kept_turn(turn, turns),
        SchedulingPolicy::Budget => kept_turn(turn, turns),
        SchedulingPolicy::Idle => kept_turn(turn, turns),
    }
}
