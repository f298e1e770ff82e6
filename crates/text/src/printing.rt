// A page to standard output. What is on it is what `fill` promises; the answer is how many of its bytes were handed to
// the system. Whether they arrived no contract can say: crate io promises nothing of it.
ghost use Rattle.std.specs.Prelude.{◌≡◌};
ghost use Rattle.text.specs.Writing.{page, written, filled};
ghost use Rattle.text.specs.Printing.{handed, blank};

use crate::writing::fill;

const STDOUT: i32 = 1;

// The first n bytes of a page; nothing where it has fewer.
#[tactic(auto, using(crate::specs::PrintingLaws::printings))]
pub fn print_page(out: &[u8], n: usize) -> usize
    ensures { result ≡ handed (page out.now n) }
{
    if out.len() < n {
        return 0;
    }
    io::write_all(STDOUT, &out[0..n]);
    n
}

// A template with its values and its word, of up to 512 bytes.
pub fn print(template: &[u8], values: &[u64], word: &[u8]) -> usize
    ensures { result
        ≡ handed (written blank (filled values.now word.now None template.now)) }
{
    let mut out = [0u8; 512];
    let n = fill(&mut out, 0, template, values, word);
    print_page(&out, n)
}
