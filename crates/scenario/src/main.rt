// Runs scenarios, lines of threads, a window and calls, on the proved core, and prints each answer, a picture of the
// run, or its lift record. FORMAT.md has the lines.
#![tactic(auto)]

ghost use Rattle.std.specs.Prelude.{◌+◌, ◌≤◌, length, IsErr, IsUtf8};

mod axis;
mod calls;
mod drawing;
mod explaining;
mod legend;
mod lift;
mod lines;
mod mistakes;
mod names;
mod performing;
mod printing;
mod refusals;
mod run;
mod running;
mod scale;
mod shapes;
mod sheet;
mod statements;
mod threads;
mod words;

use files::STDERR;
use printing::{SPACE, plain, put, replace};
use run::{Board, Output, Run};
use std::env::FillError;
use std::fs;
use std::fs::File;
use std::io::{Cursor, Error, ErrorKind, Read, Write};
use std::rt::Env;

// One byte more than a file may have.
const ROOM: usize = 65_537;

// Linux's number of the error `File name too long`.
const NAME_TOO_LONG: i32 = 36;

// (A function of its own, since what clears rows in a long function is compiled to clear them twice.)
fn zeros<const WORDS: usize, const COUNT: usize>() -> [[u64; WORDS]; COUNT] {
    [[0; WORDS]; COUNT]
}

// Each line in turn, on a new board, with the list of the lift record. (The arrays stand here and not on the heap, so
// that no memory can be wanting.)
fn lines_of(mut run: Run, text: &[u8]) -> Run {
    let mut queue = zeros::<{ lent_queue::QUEUE_ROW_WORDS }, { lent_queue::QUEUE_ROWS }>();
    let mut table = zeros::<{ policy_words::ROW_WORDS }, { run::TABLE_ROWS }>();
    let mut list = [0; lift::ROOM];
    board::board_new(&mut queue);
    let mut board = Board {
        queue: &mut queue,
        table: &mut table,
        list: &mut list,
        run: &mut run,
    };
    for line in text.split(|&byte| byte == b'\n') {
        board.line(line);
    }
    board.end();
    run
}

fn print(text: &[u8]) {
    let counts = lines_of(Run::new(Output::Text), text).counts;
    put(
        b"%a statements, %b refused, %c not understood\n",
        &[counts.statements, counts.refused, counts.not_understood],
    );
}

// Twice: the first run tells how long the second one is, and how many threads it has.
fn picture(name: &[u8], text: &[u8]) {
    let first = lines_of(Run::new(Output::Nothing), text);
    sheet::sheet(&first, name);
    lines_of(first.drawn(), text);
    sheet::end();
}

// A file's text is printed under its name; or its picture, or its lift record.
fn shown(name: &[u8], text: &[u8], output: Output) {
    match output {
        Output::Picture => picture(name, text),
        Output::Record => {
            lines_of(Run::new(Output::Record), text);
        }
        Output::Text | Output::Nothing => {
            plain(name);
            plain(b"\n");
            print(text);
        }
    }
}

// A tab and a carriage return are blanks.
fn blank(text: &mut [u8]) {
    replace(text, |byte| byte == b'\t' || byte == b'\r', SPACE);
}

// Why a file is not run: it is longer than there is room for, or the system says why not.
#[derive(Clone, Copy)]
enum Unread {
    Longer,
    Failed(Error),
}

impl From<Error> for Unread {
    fn from(error: Error) -> Self {
        Self::Failed(error)
    }
}

// How many bytes there are up to the end of the file. (The library's read_to_end takes memory; its read_exact does not
// say how much it read.)
fn read<R: Read>(from: &mut R, text: &mut [u8]) -> Result<usize, Unread> {
    let mut n = 0;
    while n < text.len() {
        match from.read(&mut text[n..])? {
            0 => return Ok(n),
            more => n += more,
        }
    }
    Err(Unread::Longer)
}

// For reading. (Nothing more is promised: which file it is no contract can say.)
fn opened(rt: &HostRuntime, name: &[u8]) -> Result<File, Error>
    ensures { ¬ IsUtf8 name.now → IsErr result }
{
    match files::text_of(name) {
        Some(path) => fs::open(rt, path),
        None => Err(Error::new(ErrorKind::InvalidFilename, "the name is not UTF-8")),
    }
}

fn read_file(rt: &HostRuntime, name: &[u8], text: &mut [u8]) -> Result<usize, Unread> {
    let mut from = opened(rt, name)?;
    read(&mut from, text)
}

// A line on standard error: what failed, a colon and the system's reason; how many bytes are handed to the system. (No
// contract says what an error's text is.)
fn fail(what: &[u8], error: Error) -> usize
    ensures whole { length what.now + 3 ≤ result }
    ensures bound { result ≤ length what.now + 131 }
{
    let mut text = Cursor::new([0; files::ROOM]);
    let _ = write!(text, "{error}");
    files::tell(what, &text.into_inner())
}

fn complain(name: &[u8], words: &[u8]) {
    io::write_all(STDERR, name);
    io::write_all(STDERR, words);
}

// The text that is a file's; none, and why not, where it is not read whole.
fn whole<'a>(got: Result<usize, Unread>, name: &[u8], text: &'a mut [u8]) -> Option<&'a [u8]> {
    match got {
        Ok(n) => {
            blank(text);
            text.get(..n)
        }
        Err(Unread::Longer) => {
            complain(name, b": more than 65,536 bytes, not run\n");
            None
        }
        Err(Unread::Failed(error)) => {
            fail(name, error);
            None
        }
    }
}

fn file(rt: &HostRuntime, name: &[u8], output: Output) {
    let mut room = [0; ROOM];
    let got = read_file(rt, name, &mut room);
    if let Some(text) = whole(got, name, &mut room) {
        shown(name, text, output);
    }
}

fn input(rt: &HostRuntime) {
    let mut room = [0; ROOM];
    let got = read(&mut rt.stdin(), &mut room);
    if let Some(text) = whole(got, b"standard input", &mut room) {
        print(text);
    }
}

fn help() {
    plain(
        b"scenario FILE..: runs each file on a board of its own, and prints each answer below the file's name.\n\
        scenario: the same of standard input.\n\
        scenario --picture FILE: the run of the file as a picture, in SVG.\n\
        scenario --record FILE: its lift record, a run a line: start, end, thread.\n\
        scenario --help: this text.\n\
        A file has threads, a window, calls and runs, one statement a line. crates/scenario/FORMAT.md has them,\n\
        their answers, and what is said of mistakes.\n",
    );
}

// A word of the call; what becomes of the file after it.
fn said(rt: &HostRuntime, word: &[u8], output: Output) -> Output {
    match word {
        b"--picture" => return Output::Picture,
        b"--record" => return Output::Record,
        b"--help" => help(),
        [b'-', b'-', ..] => complain(word, b": unknown option, --help names all\n"),
        _ => file(rt, word, output),
    }
    Output::Text
}

// What becomes of the file after the i-th word of the call, if there is such a word. (There is room for 4,096 bytes.)
fn argument(rt: &HostRuntime, i: usize, output: Output) -> Option<Output> {
    let mut word = io::buffer();
    match rt.arg(i, &mut word) {
        Ok(n) => Some(said(rt, &word[..n], output)),
        Err(FillError::TooLong) => {
            fail(b"an argument", Error::from_raw_os_error(NAME_TOO_LONG));
            Some(output)
        }
        Err(FillError::NotPresent) => None,
    }
}

// An option is the last word of the call.
fn unfinished(output: Output) {
    match output {
        Output::Picture => complain(b"--picture", b": a file has to follow\n"),
        Output::Record => complain(b"--record", b": a file has to follow\n"),
        Output::Text | Output::Nothing => (),
    }
}

fn main(rt: HostRuntime) {
    let mut output = Output::Text;
    for i in 1..usize::MAX {
        match argument(&rt, i, output) {
            Some(next) => output = next,
            None if i == 1 => return input(&rt),
            None => return unfinished(output),
        }
    }
}
