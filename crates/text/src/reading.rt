// Pieces of a text, and the numbers and times that they are.
ghost use Rattle.std.specs.Prelude.{◌≡◌, ◌+◌, ◌-◌, ◌*◌, ◌≤◌, take, drop, get_or, length};
ghost use Rattle.std.specs.Prelude.{◌==◌, not};
ghost use Rattle.std.specs.List.{prefix_len};
ghost use Rattle.text.specs.Reading.{before, run, same_bytes, state_after, state_of, with_byte, denoted};
ghost use Rattle.text.specs.Reading.{fitting, decimal_of, scaled, in_unit, nanoseconds_of};

// The units of time, in nanoseconds.
const SECOND: u64 = 1_000_000_000;

const MILLISECOND: u64 = 1_000_000;

const MICROSECOND: u64 = 1_000;

const NANOSECOND: u64 = 1;

// Why a word gives no number: the one that it denotes is above 18,446,744,073,709,551,615, or it is no numeral.
#[derive(Clone, Copy, PartialEq, Eq)]
pub enum NumberError {
    Above,
    NoNumeral,
}

// What a numeral is so far: at a place where a digit has to follow, behind a digit, or none.
#[derive(Clone, Copy)]
enum Numeral {
    Open,
    Digit,
    Broken,
}

// What stands from a place on; nothing where the text ends before it.
fn rest(text: &[u8], from: usize) -> &[u8]
    ensures { result.now ≡ drop from text.now }
{
    text.get(from..).unwrap_or_default()
}

// How many bytes stand before the first `end`; all where none is.
fn before(text: &[u8], end: u8) -> usize
    ensures value { result ≡ prefix_len (λ x. not (x == end)) text.now }
    ensures upper_bound { result ≤ length text.now }
{
    text.iter().take_while(|byte| **byte != end).count()
}

// How many bytes at the front are `between`.
fn run(text: &[u8], between: u8) -> usize
    ensures value { result ≡ prefix_len (λ x. x == between) text.now }
    ensures upper_bound { result ≤ length text.now }
{
    text.iter().take_while(|byte| **byte == between).count()
}

// Where a piece that starts at a place ends: at the next `end`, or where the text does. (The bounds follow; they are
// said for callers.)
#[tactic(auto, using(crate::specs::ReadingLaws::before_prefix))]
pub fn end_of(text: &[u8], from: usize, end: u8) -> usize
    ensures value { result ≡ from + before end (drop from text.now) }
    ensures lower_bound { from ≤ result }
    ensures upper_bound { result ≤ from + (length text.now - from) }
{
    from + before(rest(text, from), end)
}

// Where the next piece starts: behind all that is `between`.
#[tactic(auto, using(crate::specs::ReadingLaws::run_prefix))]
pub fn start_of(text: &[u8], from: usize, between: u8) -> usize
    ensures value { result ≡ from + run between (drop from text.now) }
    ensures lower_bound { from ≤ result }
    ensures upper_bound { result ≤ from + (length text.now - from) }
{
    from + run(rest(text, from), between)
}

// Whether two texts are the same, byte for byte.
#[tactic(auto, using(crate::specs::ReadingLaws::same_pointwise))]
pub fn same(a: &[u8], b: &[u8]) -> bool
    ensures { result ≡ same_bytes a.now b.now }
{
    a == b
}

// With one byte more.
#[tactic(auto, using(refusal::specs::Cases::cases), unfolding(crate::specs::Reading::state_after))]
fn state_after(state: Numeral, byte: u8) -> Numeral
    ensures { result ≡ state_after state byte }
{
    match (state, byte) {
        (Numeral::Digit, b'_') => Numeral::Open,
        (Numeral::Open | Numeral::Digit, b'0'..=b'9') => Numeral::Digit,
        _ => Numeral::Broken,
    }
}

fn state_of(word: &[u8]) -> Numeral
    ensures { result ≡ state_of Numeral.Open word.now }
{
    let mut state = Numeral::Open;
    for byte in word {
        state = state_after(state, *byte);
    }
    state
}

// What a digit denotes.
fn digit(byte: u8) -> u64
    ensures { result ≡ byte - 48 }
{
    u64::from(byte.saturating_sub(b'0'))
}

// A number with one digit more.
#[tactic(auto, using(refusal::specs::Cases::cases), unfolding(crate::specs::Reading::fitting))]
fn appended(value: u64, digit: u64) -> Result<u64, NumberError>
    ensures { result ≡ fitting (10 * value + digit) }
{
    let tens = value.checked_mul(10).ok_or(NumberError::Above)?;
    tens.checked_add(digit).ok_or(NumberError::Above)
}

// A number with one byte more, which an underline leaves as it is.
#[tactic(auto, using(crate::specs::ReadingLaws::left_alone, crate::specs::ReadingLaws::with_digit))]
fn with_byte(value: u64, byte: u8) -> Result<u64, NumberError>
    ensures { result ≡ fitting (with_byte value byte) }
{
    if byte == b'_' {
        return Ok(value);
    }
    appended(value, digit(byte))
}

#[tactic(auto, using(crate::specs::ReadingLaws::denotings))]
fn value(word: &[u8]) -> Result<u64, NumberError>
    ensures { result ≡ fitting (denoted 0 word.now) }
{
    let mut value: u64 = 0;
    for byte in word {
        value = with_byte(value, *byte)?;
    }
    Ok(value)
}

// The number that a word is, if it is one: digits, with single underlines between them or without.
#[tactic(auto, using(refusal::specs::Cases::cases), unfolding(crate::specs::Reading::decimal_of))]
pub fn number(word: &[u8]) -> Result<u64, NumberError>
    ensures { result ≡ decimal_of word.now }
{
    match state_of(word) {
        Numeral::Digit => value(word),
        Numeral::Open | Numeral::Broken => Err(NumberError::NoNumeral),
    }
}

#[tactic(auto, using(crate::specs::ReadingLaws::computed))]
fn product(unit: u64, n: u64) -> Result<u64, NumberError>
    ensures { result ≡ fitting (unit * n) }
{
    unit.checked_mul(n).ok_or(NumberError::Above)
}

// So many units.
#[tactic(auto, unfolding(crate::specs::Reading::scaled))]
fn times(unit: u64, found: Result<u64, NumberError>) -> Result<u64, NumberError>
    ensures { result ≡ scaled unit found }
{
    product(unit, found?)
}

// The number before the unit's letters.
#[tactic(auto, using(refusal::specs::Cases::cases), unfolding(crate::specs::Reading::in_unit))]
fn in_unit(word: &[u8], letters: usize, unit: u64) -> Result<u64, NumberError>
    ensures { result ≡ in_unit unit letters word.now }
{
    let end = word
        .len()
        .checked_sub(letters)
        .ok_or(NumberError::NoNumeral)?;
    times(unit, number(&word[..end]))
}

// The k-th byte from the end; 0 where there are fewer.
fn from_end(word: &[u8], k: usize) -> u8
    ensures { result ≡ get_or word.now (length word.now - k) 0 }
{
    let i = word.len().saturating_sub(k);
    word.get(i).copied().unwrap_or(0)
}

// The nanoseconds that a word is, if it is a time: a number, or one with the unit ns, us, ms or s behind it.
#[tactic(auto, using(refusal::specs::Cases::cases), unfolding(crate::specs::Reading::nanoseconds_of))]
pub fn nanoseconds(word: &[u8]) -> Result<u64, NumberError>
    ensures { result ≡ nanoseconds_of word.now }
{
    match (from_end(word, 2), from_end(word, 1)) {
        (b'n', b's') => in_unit(word, 2, NANOSECOND),
        (b'u', b's') => in_unit(word, 2, MICROSECOND),
        (b'm', b's') => in_unit(word, 2, MILLISECOND),
        (_, b's') => in_unit(word, 1, SECOND),
        _ => number(word),
    }
}
