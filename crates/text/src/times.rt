// Times of nanoseconds in milliseconds, onto a page.
ghost use Rattle.std.specs.Prelude.{◌≡◌, ◌+◌, ◌/◌, ◌%◌};
ghost use Rattle.text.specs.Writing.{page, written, digits_of};
ghost use Rattle.text.specs.Times.{fraction_from, pointed, milliseconds_of};

use crate::writing::{put_byte, put_right};

const NANOSECONDS: u64 = 1_000_000;

const TENTH: u64 = 100_000;

const FRACTION_DIGITS: u64 = 6;

const POINT: u8 = b'.';

// The first digit behind the point.
fn tenths(rest: u64) -> u8
    ensures { result ≡ 48 + rest / 100000 % 10 }
{
    b'0' + (rest / TENTH % 10) as u8
}

// The digits behind the point, until nothing is left.
#[tactic(auto, using(crate::specs::TimesLaws::fractions))]
fn put_fraction(out: &mut [u8], at: usize, fraction: u64) -> usize
    ensures { page out.new result ≡ written (page out.old at) (fraction_from 6 fraction) }
{
    let mut end = at;
    let mut rest = fraction;
    for _ in 0..FRACTION_DIGITS {
        if rest == 0 {
            return end;
        }
        end = put_byte(out, end, tenths(rest));
        rest = rest % TENTH * 10;
    }
    end
}

// A point and the digits behind it; nothing where there are none.
#[tactic(auto,
// The laws of what is written by a choice, and of a byte before the rest.
using(crate::specs::WritingLaws::choices, crate::specs::TimesLaws::byte_then), unfolding(crate::specs::Times::pointed))]
fn put_pointed(out: &mut [u8], at: usize, fraction: u64) -> usize
    ensures { page out.new result ≡ written (page out.old at) (pointed fraction) }
{
    if fraction == 0 {
        return at;
    }
    let end = put_byte(out, at, POINT);
    put_fraction(out, end, fraction)
}

// A number's digits alone.
#[tactic(auto, using(crate::specs::TimesLaws::no_column))]
fn put_whole(out: &mut [u8], at: usize, n: u64) -> usize
    ensures { page out.new result ≡ written (page out.old at) (digits_of n) }
{
    put_right(out, at, n, 0)
}

// A time in milliseconds, in as many digits as it needs; how many bytes are then written.
#[tactic(auto, using(crate::specs::WritingLaws::then_written), unfolding(crate::specs::Times::milliseconds_of))]
pub fn milliseconds(out: &mut [u8], at: usize, time: u64) -> usize
    ensures { page out.new result ≡ written (page out.old at) (milliseconds_of time) }
{
    let end = put_whole(out, at, time / NANOSECONDS);
    put_pointed(out, end, time % NANOSECONDS)
}
