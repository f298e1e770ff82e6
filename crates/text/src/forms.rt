// Lines read by a form: the words of a line against those of the form, the value of each, and where and why it ends.
ghost use Rattle.std.specs.Prelude.{◌≡◌, ◌≤◌, drop, length, set};
ghost use Rattle.text.specs.Reading.{decimal_of};
ghost use Rattle.text.specs.Lists.{part, names_of};
ghost use Rattle.text.specs.Forms.{fitted, is_empty, is_rest, next_word, behind_word, asked_of, limit_of, limited};
ghost use Rattle.text.specs.Forms.{name_of, known_of, is_name, new_name, letter_of, one_of, quantity_of, value_of};
ghost use Rattle.text.specs.Forms.{end_of, step_by, last_of, fit_from};
ghost use Rattle.text.specs.Forms.{first as Forms·first};

use crate::listing::{Span, nth, place_of, word_after};
use crate::reading::{NumberError, end_of, nanoseconds, number, same};

// The marks of a form. A name's number has the first one before it, too.
const NUMBER: u8 = b'#';

const TIME: u8 = b'~';

const NAME: u8 = b'@';

const NEW_NAME: u8 = b'=';

const LETTER: u8 = b'^';

const BAR: u8 = b'|';

const SPACE: u8 = b' ';

const COLON: u8 = b':';

const NAME_BYTES: usize = 15;

// Why a line goes no further by a form: it ends too early; its next word is another than the form's; is no number, no
// time, or above the limit; is none of the names, a name that is there already, no name, or a name more than there may
// be; is no letter; or is one word too many.
#[derive(Clone, Copy)]
pub enum Cause {
    Missing,
    OtherWord,
    NoNumber,
    NoTime,
    AboveLimit,
    NoSuchName,
    NameTaken,
    NoName,
    NoRoom,
    NoLetter,
    TooMany,
}

// Where a line goes no further, and why, if it does not go to its end: the place of the form's word, and how many bytes
// of the line are left.
#[derive(Clone, Copy)]
pub struct Stop {
    pub cause: Option<Cause>,
    pub place: usize,
    pub left: usize,
}

// What the next word of a line does by a word of a form: it is taken, with a value; it is the first of the rest, which
// might have been left out; or the line goes no further, for a cause or since it may end there.
type Step = Result<Option<u64>, Option<Cause>>;

fn is_empty(word: &[u8]) -> bool
    ensures { result ≡ is_empty word.now }
{
    word.is_empty()
}

fn first(word: &[u8]) -> u8
    ensures { result ≡ Forms·first word.now }
{
    word.first().copied().unwrap_or(0)
}

// The number behind the first byte.
#[tactic(auto, using(crate::specs::FormsLaws::behinds))]
fn number_behind(word: &[u8]) -> Result<u64, NumberError>
    ensures { result ≡ decimal_of (drop 1 word.now) }
{
    if word.is_empty() {
        return Err(NumberError::NoNumeral);
    }
    number(&word[1..])
}

// The limit behind the mark of a form's word; the greatest number where there is none.
#[tactic(auto, unfolding(crate::specs::Forms::limit_of))]
fn limit(form: &[u8]) -> u64
    ensures { result ≡ limit_of form.now }
{
    number_behind(form).unwrap_or(u64::MAX)
}

// A number up to a limit; what is none is told by its cause.
#[tactic(auto,
// The laws of choosing, and what each case gives.
using(refusal::specs::Cases::cases), unfolding(crate::specs::Forms::limited, crate::specs::Reading::on_decimal))]
fn up_to(limit: u64, none: Cause, found: Result<u64, NumberError>) -> Result<u64, Cause>
    ensures { result ≡ limited limit none found }
{
    match found {
        Ok(n) => {
            if limit < n {
                return Err(Cause::AboveLimit);
            }
            Ok(n)
        }
        Err(NumberError::Above) => Err(Cause::AboveLimit),
        Err(NumberError::NoNumeral) => Err(none),
    }
}

#[tactic(auto, using(refusal::specs::Cases::cases), unfolding(crate::specs::Forms::name_of))]
fn name(names: &[u8], count: u64, word: &[u8]) -> Result<u64, Cause>
    ensures { result ≡ name_of names.now count word.now }
{
    let n = place_of(names, SPACE, word) as u64;
    if n < count {
        return Ok(n);
    }
    Err(Cause::NoSuchName)
}

#[tactic(auto, using(refusal::specs::Cases::cases), unfolding(crate::specs::Forms::known_of))]
fn known(names: &[u8], count: u64, word: &[u8]) -> Result<u64, Cause>
    ensures { result ≡ known_of names.now count word.now }
{
    let mark = first(word);
    if mark == NUMBER {
        return up_to(u64::MAX, Cause::NoSuchName, number_behind(word));
    }
    name(names, count, word)
}

#[tactic(auto,
// The laws of choosing, and what each case gives.
using(refusal::specs::Cases::cases), unfolding(crate::specs::Forms::is_name, crate::specs::Reading::on_decimal))]
fn is_name(word: &[u8]) -> bool
    ensures { result ≡ is_name word.now }
{
    if NAME_BYTES < word.len() {
        return false;
    }
    let mark = first(word);
    if mark == NUMBER {
        return false;
    }
    matches!(number(word), Err(NumberError::NoNumeral))
}

#[tactic(auto, using(refusal::specs::Cases::cases), unfolding(crate::specs::Forms::new_name))]
fn new_name(names: &[u8], count: u64, most: u64, word: &[u8]) -> Result<u64, Cause>
    ensures { result ≡ new_name names.now count most word.now }
{
    if most <= count {
        return Err(Cause::NoRoom);
    }
    if !is_name(word) {
        return Err(Cause::NoName);
    }
    let n = place_of(names, SPACE, word) as u64;
    if n < count {
        return Err(Cause::NameTaken);
    }
    Ok(0)
}

#[tactic(auto, using(refusal::specs::Cases::cases), unfolding(crate::specs::Forms::letter_of))]
fn letter(word: &[u8]) -> Result<u64, Cause>
    ensures { result ≡ letter_of word.now }
{
    match word {
        [byte @ b'A'..=b'Z'] => Ok(u64::from(*byte)),
        _ => Err(Cause::NoLetter),
    }
}

#[tactic(auto, using(crate::specs::FormsLaws::findings))]
fn one_of(list: &[u8], word: &[u8]) -> Result<u64, Cause>
    ensures { result ≡ one_of list.now word.now }
{
    let n = place_of(list, BAR, word);
    let found = nth(list, BAR, n);
    if same(&list[found.start..found.end], word) {
        return Ok(n as u64);
    }
    Err(Cause::OtherWord)
}

// A time or a number, up to the form's limit.
#[tactic(auto, using(refusal::specs::Cases::cases), unfolding(crate::specs::Forms::quantity_of))]
fn quantity(mark: u8, form: &[u8], word: &[u8]) -> Result<u64, Cause>
    ensures { result ≡ quantity_of mark form.now word.now }
{
    let most = limit(form);
    if mark == TIME {
        return up_to(most, Cause::NoTime, nanoseconds(word));
    }
    up_to(most, Cause::NoNumber, number(word))
}

#[tactic(auto, using(refusal::specs::Cases::cases), unfolding(crate::specs::Forms::value_of))]
fn value(names: &[u8], count: u64, most: u64, form: &[u8], word: &[u8]) -> Result<u64, Cause>
    ensures { result
        ≡ value_of names.now count most form.now word.now }
{
    let mark = first(form);
    match mark {
        NUMBER | TIME => quantity(mark, form, word),
        NAME => known(names, count, word),
        NEW_NAME => new_name(names, count, most, word),
        LETTER => letter(word),
        _ => one_of(form, word),
    }
}

// Where what a form's word asks for starts: behind the field's name and a colon.
#[tactic(auto, using(crate::specs::FormsLaws::askings))]
fn asked(form: &[u8]) -> usize
    ensures form_value { drop result form.now ≡ asked_of form.now }
    ensures upper_bound { result ≤ length form.now }
{
    let colon = end_of(form, 0, COLON);
    if colon < form.len() {
        return colon + 1;
    }
    0
}

fn asked_value(names: &[u8], count: u64, most: u64, form: &[u8], word: &[u8]) -> Result<u64, Cause>
    ensures { result
        ≡ value_of names.now count most (asked_of form.now) word.now }
{
    let start = asked(form);
    value(names, count, most, &form[start..], word)
}

// Of a line that ends: whether the rest may be left out.
#[tactic(auto, using(refusal::specs::Cases::cases), unfolding(crate::specs::Forms::end_of))]
fn ending(rest: bool) -> Option<Cause>
    ensures { result ≡ end_of rest }
{
    if rest { None } else { Some(Cause::Missing) }
}

#[tactic(auto,
// The laws of choosing, and what a word that is taken gives.
using(refusal::specs::Cases::cases), unfolding(crate::specs::Forms::step_by, crate::specs::Forms::taken))]
fn step_by(names: &[u8], count: u64, most: u64, form: &[u8], word: &[u8]) -> Step
    ensures { result
        ≡ step_by names.now count most form.now word.now }
{
    let rest = same(form, b"..");
    if is_empty(word) {
        return Err(ending(rest));
    }
    if rest {
        return Ok(None);
    }
    asked_value(names, count, most, form, word)
        .map(Some)
        .map_err(Some)
}

// The k-th value; one behind the last is left out.
fn store(values: &mut [u64], k: usize, value: u64)
    ensures { values.new ≡ set values.old k value }
{
    if k < values.len() {
        values[k] = value;
    }
}

// Where the next word of a line stands, from a place on.
#[tactic(auto, using(crate::specs::FormsLaws::next_word_lem, crate::specs::FormsLaws::behind_word_lem))]
fn next_word(line: &[u8], from: usize) -> Span
    requires { from ≤ length line.now }
    ensures line_value { part result.start result.end line.now ≡ next_word (drop from line.now) }
    ensures line_value_2 { drop result.end line.now ≡ behind_word (drop from line.now) }
    ensures start_le_end { result.start ≤ result.end }
    ensures end_in_bounds { result.end ≤ length line.now }
{
    word_after(line, from, SPACE)
}

// Of a form that ends: whether the line has a word from a place on.
#[tactic(auto, using(crate::specs::FormsLaws::lasts))]
fn after_last(line: &[u8], from: usize) -> Option<Cause>
    requires { from ≤ length line.now }
    ensures { result ≡ last_of (next_word (drop from line.now)) }
{
    let word = next_word(line, from);
    if is_empty(&line[word.start..word.end]) {
        return None;
    }
    Some(Cause::TooMany)
}

// How far a line goes by a form, and the value of each word of the form. A word of a form is what it asks for, or the
// name of a field and that behind a colon. In a form `#` is a number, `~` a time, each up to the limit that follows it,
// `@` one of the first `count` names or its number behind a `#`, `=` a new name where there are fewer than `most`, `^`
// a letter from A to Z, `a|b` one of these words and any other itself; what follows `..` may be left out. Count no more
// names than are lent: with a greater count a word that is no name has the place behind the last.
pub fn fit(
    form: &[u8],
    line: &[u8],
    names: &[u8],
    count: u64,
    most: u64,
    values: &mut [u64],
) -> Stop
    ensures { fitted result.cause result.place result.left values.new
        ≡ fit_from names.now count most (names_of 32 form.now) line.now 0
        values.old }
{
    let mut from: usize = 0;
    let mut place: usize = 0;
    for asked in form.split(|byte| *byte == SPACE) {
        let word = next_word(line, from);
        let step = match step_by(names, count, most, asked, &line[word.start..word.end]) {
            Ok(step) => step,
            Err(cause) => {
                let left = line.len() - from;
                return Stop { cause, place, left };
            }
        };
        match step {
            Some(value) => {
                store(values, place, value);
                from = word.end;
            }
            None => store(values, place, 1),
        }
        // The place behind the last word is told too, so it is counted here and not by `enumerate`.
        place += 1;
    }
    Stop {
        cause: after_last(line, from),
        place,
        left: line.len() - from,
    }
}
