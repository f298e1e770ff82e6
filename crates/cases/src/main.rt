// Runs calls with the answers that document 01 or the Rust gives on the code, and ends with how many differ: the worked
// cases that its standard input has, each answer printed beside its case; then the calls of the files that its
// arguments name, recorded beside the unchanged Rust, with how many of them answered each number.
#![tactic(auto)]

ghost use Rattle.std.specs.Prelude.{◌+◌, ◌≤◌, length, IsErr, IsUtf8};

mod answers;
mod calls;
mod leaves;
mod letters;
mod listing;
mod machine;
mod places;
mod queues;
mod reading;
mod runtimes;
mod sums;
mod trees;
mod values;
mod windows;
mod words;

use machine::{ANSWERS, Counts};
use std::env::FillError;
use std::fs;
use std::fs::File;
use std::io::{Cursor, Error, ErrorKind, Write};
use std::os::fd::AsRawFd;
use std::rt::Env;

const STDIN: i32 = 0;

// So many blocks of a file are read at most.
const BLOCKS: u64 = 64;

// How many calls answered 0, and each refusal in the order of the numbers.
fn answered(counts: &Counts) {
    text::print(
        b"\n\ncalls that were made %a\nDamaged %b\nBadState %c\nAlready %d\nNoThread %e\nBadConfig %f\n",
        counts,
        b"",
    );
    text::print(
        b"BadBudget %g\nBackInTime %h\nTurnsSpent %i\nHalted %j\nBadTable %k\nBadRecord %l",
        counts,
        b"",
    );
}

// How many answers of the worked cases differ.
fn worked() -> u64 {
    let mut words = io::large_buffer();
    let n = io::read_full(STDIN, &mut words);
    text::print(
        b"proved in the table of worked cases: %a rows",
        &[worked_cases::count()],
        b"",
    );
    let mut counts = [0; ANSWERS];
    machine::run(&words[..n], true, &mut counts)
}

// How many answers of a file's next block differ: 65,536 bytes, of whole cases.
fn block(fd: i32, counts: &mut Counts) -> u64 {
    let mut words = io::large_buffer();
    let n = io::read_full(fd, &mut words);
    machine::run(&words[..n], false, counts)
}

fn blocks(fd: i32, counts: &mut Counts) -> u64 {
    let mut differs: u64 = 0;
    for _ in 0..BLOCKS {
        differs = differs.saturating_add(block(fd, counts));
    }
    differs
}

// For reading. (Nothing more is promised: which file it is no contract can say.)
fn opened(rt: &HostRuntime, name: &[u8]) -> Result<File, Error>
    ensures { ¬ IsUtf8 name.now → IsErr result }
{
    match files::text_of(name) {
        Some(path) => fs::open(rt, path),
        None => Err(Error::new(ErrorKind::InvalidFilename, "the name is not UTF-8")),
    }
}

// A line on standard error: what failed, a colon and the system's reason; how many bytes are handed to the system. (No
// contract says what an error's text is.)
fn fail(what: &[u8], error: Error) -> usize
    ensures whole { length what.now + 3 ≤ result }
    ensures bound { result ≤ length what.now + 131 }
{
    let mut text = Cursor::new([0; files::ROOM]);
    let _ = write!(text, "{error}");
    files::tell(what, &text.into_inner())
}

// A file that cannot be read counts as a difference.
fn recorded(rt: &HostRuntime, name: &[u8]) -> u64 {
    match opened(rt, name) {
        Ok(file) => {
            let mut counts = [0; ANSWERS];
            let differs = blocks(file.as_raw_fd(), &mut counts);
            answered(&counts);
            differs
        }
        Err(error) => {
            fail(name, error);
            1
        }
    }
}

// How many answers differ of the file that the i-th argument names, if there is such an argument. One that there is no
// room for is a file that has no name.
fn argument(rt: &HostRuntime, i: usize) -> Option<u64> {
    let mut name = io::buffer();
    match rt.arg(i, &mut name) {
        Ok(n) => Some(recorded(rt, &name[..n])),
        Err(FillError::TooLong) => Some(recorded(rt, b"")),
        Err(FillError::NotPresent) => None,
    }
}

fn ended(differs: u64) {
    text::print(b"\ndiffers %a\n", &[differs], b"");
}

fn main(rt: HostRuntime) {
    let mut differs = worked();
    for i in 1..usize::MAX {
        match argument(&rt, i) {
            Some(more) => differs = differs.saturating_add(more),
            None => break,
        }
    }
    ended(differs);
}
