// Files for programs: the text of a name of bytes, by which a file is opened, and the line that tells what failed with
// the system's reason. It is what programs have in common of the system; no scheduling. (Opening a file and asking an
// error for its text stand in the programs, since no contract says what the system gives.)
#![tactic(auto)]

ghost use Rattle.std.specs.Prelude.{◌≡◌, ◌+◌, ◌≤◌, ◌++◌, length, IsNone, IsUtf8, option_copied};
ghost use Rattle.files.specs.Files.{text_of, reason_end, reason, line};

use std::str;

pub const STDERR: i32 = 2;

// Room for an error's text: the system's reason, then its number, as in `Is a directory (os error 21)`.
pub const ROOM: usize = 128;

// The text that a name is. (The library opens a file by a text, so a name that is none cannot be handed to the system.)
#[tactic(auto, using(crate::specs::FilesLaws::a_text, crate::specs::FilesLaws::no_text))]
pub fn text_of(name: &[u8]) -> Option<&str>
    ensures value { option_copied result ≡ text_of name.now }
    ensures none { ¬ IsUtf8 name.now → IsNone result }
{
    str::from_utf8(name).ok()
}

// Where the reason ends in an error's text, behind which zeros stand.
#[tactic(auto, using(refusal::specs::Cases::cases), unfolding(crate::specs::Files::reason_end))]
fn reason_end(text: &[u8]) -> usize
    ensures value { result ≡ reason_end text.now }
    ensures upper_bound { result ≤ length text.now }
{
    let bracket = text::end_of(text, 0, b'(');
    if 0 < bracket && bracket < text.len() {
        return bracket - 1;
    }
    text::end_of(text, 0, 0)
}

// To standard error; how many bytes are handed to the system. (Whether they arrive no contract can say.)
fn hand(bytes: &[u8]) -> usize
    ensures { result ≡ length bytes.now }
{
    io::write_all(STDERR, bytes);
    bytes.len()
}

// A line on standard error: what failed, a colon and the reason in the error's text; how many bytes are handed to the
// system. (The bounds follow; they are said for callers.)
pub fn tell(what: &[u8], text: &[u8; ROOM]) -> usize
    ensures value { result ≡ length (line what.now text.now) }
    ensures whole { length what.now + 3 ≤ result }
    ensures bound { result ≤ length what.now + 131 }
{
    let end = reason_end(text);
    hand(what) + hand(b": ") + hand(&text[..end]) + hand(b"\n")
}
