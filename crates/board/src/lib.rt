// The board's C calls on lent words: the run queue, selection, windows and keys, turns, accounting, the switch rule and
// deadlines. Each is the call of its name on what the words stand for. It answers document 01's number, 0 where the
// call was made; a refusal leaves what an answer's words stand for. What has a fixed length is lent as an array of it.
#![tactic(auto)]

mod queueing;
mod recording;
mod running;
mod selecting;
mod versions;
mod windows;

pub use queueing::{board_enqueue, board_enqueue_front, board_lengths, board_new, board_remove};
pub use recording::{board_append, board_lift, board_lift_from, board_slide};
pub use running::{
    board_account, board_candidate, board_deadline, board_expired, board_finish, board_prepare,
    board_switch,
};
pub use selecting::board_select;
pub use versions::board_version;
pub use windows::{board_key, board_window};
