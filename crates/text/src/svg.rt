// Shapes as SVG text, onto a page.
ghost use Rattle.std.specs.Prelude.{◌≡◌, []};
ghost use Rattle.text.specs.Writing.{page, written, filled};
ghost use Rattle.text.specs.Svg.{rectangle_text, label_text, mark_text, dashes_text};

use crate::writing::fill;

// A rectangle by its left, its top, its width and its height, filled with a paint.
pub fn rectangle(out: &mut [u8], at: usize, place: &[u64; 4], paint: &[u8]) -> usize
    ensures { page out.new result
        ≡ written (page out.old at)
        (filled place.now paint.now None rectangle_text) }
{
    fill(
        out,
        at,
        b"<rect x='%a' y='%b' width='%c' height='%d' fill='%@'/>\n",
        place,
        paint,
    )
}

// Words at a place.
pub fn label(out: &mut [u8], at: usize, place: &[u64; 2], words: &[u8]) -> usize
    ensures { page out.new result
        ≡ written (page out.old at)
        (filled place.now words.now None label_text) }
{
    fill(out, at, b"<text x='%a' y='%b'>%@</text>\n", place, words)
}

// A mark that points down to a place.
pub fn mark(out: &mut [u8], at: usize, place: &[u64; 2]) -> usize
    ensures { page out.new result
        ≡ written (page out.old at)
        (filled place.now [] None mark_text) }
{
    fill(out, at, b"<path d='M%a %b l-40 -70 h80 z'/>\n", place, b"")
}

// A dashed line from a place down to a height.
pub fn dashes(out: &mut [u8], at: usize, place: &[u64; 3]) -> usize
    ensures { page out.new result
        ≡ written (page out.old at)
        (filled place.now [] None dashes_text) }
{
    fill(
        out,
        at,
        b"<path d='M%a %b V%c' stroke='#707070' stroke-dasharray='50 30'/>\n",
        place,
        b"",
    )
}
