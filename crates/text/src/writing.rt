// Pages: bytes that are lent, and how many of them are written. What finds no room is left out.
ghost use Rattle.std.specs.Prelude.{◌≡◌, ◌∷◌, [], ◌-◌, take, get_or};
ghost use Rattle.refusal.specs.Cases.{if_equal};
ghost use Rattle.io.specs.Counts.{IsPrefixLen};
ghost use Rattle.text.specs.Writing.{page, stored, written, digits_of, separator, grouped, spaces, left_in};
ghost use Rattle.text.specs.Writing.{right_in, item, piece, after, filled};

const SPACE: u8 = b' ';

const UNDERLINE: u8 = b'_';

// As many digits stand together.
const GROUP: usize = 3;

#[tactic(auto, using(refusal::specs::Cases::cases), unfolding(crate::specs::Writing::stored))]
pub fn put_byte(out: &mut [u8], at: usize, byte: u8) -> usize
    ensures { page out.new result ≡ stored (page out.old at) byte }
{
    if at < out.len() {
        out[at] = byte;
        return at + 1;
    }
    at
}

// Bytes, where the page has room; how many are then written.
#[tactic(auto, using(crate::specs::WritingLaws::writings))]
pub fn put(out: &mut [u8], at: usize, bytes: &[u8]) -> usize
    ensures { page out.new result ≡ written (page out.old at) bytes.now }
{
    let mut end = at;
    for byte in bytes {
        end = put_byte(out, end, *byte);
    }
    end
}

#[tactic(auto, using(crate::specs::WritingLaws::spacings))]
fn put_spaces(out: &mut [u8], at: usize, count: usize) -> usize
    ensures { page out.new result ≡ written (page out.old at) (spaces count) }
{
    let mut end = at;
    for _ in 0..count {
        end = put_byte(out, end, SPACE);
    }
    end
}

// A word at the left of a column.
#[tactic(auto, using(crate::specs::WritingLaws::word_left))]
fn put_left(out: &mut [u8], at: usize, word: &[u8], width: usize) -> usize
    ensures { page out.new result
        ≡ written (page out.old at) (left_in width word.now) }
{
    let end = put(out, at, word);
    put_spaces(out, end, width.saturating_sub(word.len()))
}

// A number's digits, at the start; how many there are.
#[tactic(auto, using(crate::specs::WritingLaws::own_digits))]
fn spell(n: u64, digits: &mut [u8; 20]) -> usize
    ensures prefix_len { IsPrefixLen result digits.new }
    ensures digits_after { take result digits.new ≡ digits_of n }
{
    io::decimal(n, digits)
}

// A number at the right of a column.
#[tactic(auto, using(crate::specs::WritingLaws::word_right))]
pub fn put_right(out: &mut [u8], at: usize, n: u64, width: usize) -> usize
    ensures { page out.new result
        ≡ written (page out.old at) (right_in width (digits_of n)) }
{
    let mut digits = [0u8; 20];
    let k = spell(n, &mut digits);
    let end = put_spaces(out, at, width.saturating_sub(k));
    put(out, end, &digits[..k])
}

// Between digits, by how many of them follow: an underline before whole groups.
#[tactic(auto, using(crate::specs::WritingLaws::choices), unfolding(crate::specs::Writing::separator))]
fn put_separator(out: &mut [u8], at: usize, left: usize) -> usize
    ensures { page out.new result ≡ written (page out.old at) (separator left) }
{
    if left == 0 {
        return at;
    }
    if left % GROUP == 0 {
        return put_byte(out, at, UNDERLINE);
    }
    at
}

// Digits in groups.
#[tactic(auto, using(crate::specs::WritingLaws::groupings))]
fn put_grouped(out: &mut [u8], at: usize, digits: &[u8]) -> usize
    ensures { page out.new result ≡ written (page out.old at) (grouped digits.now) }
{
    let mut end = at;
    for (i, digit) in digits.iter().enumerate() {
        end = put_byte(out, end, *digit);
        end = put_separator(out, end, digits.len() - (i + 1));
    }
    end
}

// A number at the right of a column, its digits in groups.
#[tactic(auto, using(crate::specs::WritingLaws::groups_right))]
fn put_groups(out: &mut [u8], at: usize, n: u64, width: usize) -> usize
    ensures { page out.new result
        ≡ written (page out.old at) (right_in width (grouped (digits_of n))) }
{
    let mut digits = [0u8; 20];
    let k = spell(n, &mut digits);
    let separators = k.saturating_sub(1) / GROUP;
    let room = width.saturating_sub(k).saturating_sub(separators);
    let end = put_spaces(out, at, room);
    put_grouped(out, end, &digits[..k])
}

fn value_at(values: &[u64], i: usize) -> u64
    ensures { result ≡ get_or values.now i 0 }
{
    values.get(i).copied().unwrap_or(0)
}

#[tactic(auto, using(crate::specs::WritingLaws::choices), unfolding(crate::specs::Writing::item))]
fn put_item(out: &mut [u8], at: usize, values: &[u64], word: &[u8], width: usize, byte: u8) -> usize
    ensures { page out.new result
        ≡ written (page out.old at) (item values.now word.now width byte) }
{
    if byte == b'@' {
        return put_left(out, at, word, width);
    }
    if byte < b'a' {
        let n = value_at(values, usize::from(byte.saturating_sub(b'A')));
        return put_groups(out, at, n, width);
    }
    let n = value_at(values, usize::from(byte - b'a'));
    put_right(out, at, n, width)
}

#[tactic(auto, using(crate::specs::WritingLaws::choices))]
fn put_plain(out: &mut [u8], at: usize, byte: u8) -> usize
    ensures { page out.new result
        ≡ written (page out.old at) (if_equal byte 37 [] (byte ∷ [])) }
{
    if byte == b'%' {
        return at;
    }
    put_byte(out, at, byte)
}

#[tactic(auto, using(crate::specs::WritingLaws::choices), unfolding(crate::specs::Writing::piece))]
fn put_piece(
    out: &mut [u8],
    at: usize,
    values: &[u64],
    word: &[u8],
    escape: Option<usize>,
    byte: u8,
) -> usize
    ensures { page out.new result
        ≡ written (page out.old at) (piece values.now word.now escape byte) }
{
    match (escape, byte) {
        (None, _) => put_plain(out, at, byte),
        (Some(_), b'0'..=b'9') => at,
        (Some(width), _) => put_item(out, at, values, word, width, byte),
    }
}

#[tactic(auto, using(refusal::specs::Cases::cases), unfolding(crate::specs::Writing::after))]
fn next_escape(escape: Option<usize>, byte: u8) -> Option<usize>
    ensures { result ≡ after escape byte }
{
    match (escape, byte) {
        (None, b'%') => Some(0),
        (Some(width), b'0'..=b'9') => Some(width % 10 * 10 + usize::from(byte - b'0')),
        _ => None,
    }
}

// A template with its values and its word; how many bytes are then written.
#[tactic(auto, using(crate::specs::WritingLaws::fillings))]
pub fn fill(out: &mut [u8], at: usize, template: &[u8], values: &[u64], word: &[u8]) -> usize
    ensures { page out.new result
        ≡ written (page out.old at)
        (filled values.now word.now None template.now) }
{
    let mut end = at;
    let mut escape = None;
    for byte in template {
        end = put_piece(out, end, values, word, escape, *byte);
        escape = next_escape(escape, *byte);
    }
    end
}
