// Text as XML has it, onto a page.
ghost use Rattle.std.specs.Prelude.{◌≡◌};
ghost use Rattle.text.specs.Writing.{page, written};
ghost use Rattle.text.specs.Escaping.{escaped_byte, escaped};

use crate::writing::{put, put_byte};

#[tactic(auto, using(crate::specs::WritingLaws::choices), unfolding(crate::specs::Escaping::escaped_byte))]
fn put_escaped(out: &mut [u8], at: usize, byte: u8) -> usize
    ensures { page out.new result ≡ written (page out.old at) (escaped_byte byte) }
{
    match byte {
        b'&' => put(out, at, b"&amp;"),
        b'<' => put(out, at, b"&lt;"),
        b'>' => put(out, at, b"&gt;"),
        b'"' => put(out, at, b"&quot;"),
        b'\'' => put(out, at, b"&apos;"),
        _ => put_byte(out, at, byte),
    }
}

// A text with the bytes escaped by which XML has marks; how many bytes are then written.
#[tactic(auto, using(crate::specs::EscapingLaws::escapings))]
pub fn escape(out: &mut [u8], at: usize, text: &[u8]) -> usize
    ensures { page out.new result ≡ written (page out.old at) (escaped text.now) }
{
    let mut end = at;
    for byte in text {
        end = put_escaped(out, end, *byte);
    }
    end
}
