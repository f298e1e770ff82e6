// What is printed: words of lists and names of threads. Templates are those of crate text, which have columns, times
// and grouped digits; names and lines are bytes that need be no text.
use crate::run::Run;
use text::print;

pub const STDOUT: i32 = 1;

// Between names.
pub const SPACE: u8 = b' ';

// Between the words of a list.
const BAR: u8 = b'|';

// No words that are printed have as many bytes.
const WORDS: usize = 64;

// No list has as many words.
const BEYOND: u64 = 63;

// A template with its values, or with one. (A caller that has less to hand over is cheaper to check.)
pub fn put(template: &[u8], values: &[u64]) {
    print(template, values, b"");
}

pub fn put_one(template: &[u8], value: u64) {
    print(template, &[value], b"");
}

// Words alone.
pub fn plain(words: &[u8]) {
    io::write_all(STDOUT, words);
}

// Each byte of a kind becomes another. (Each is stored, so that the loop has no branches.)
pub fn replace<F: Fn(u8) -> bool>(text: &mut [u8], is_of_kind: F, by: u8)
    requires { F.IsAlwaysCallable is_of_kind }
{
    for byte in text.iter_mut() {
        *byte = if is_of_kind(*byte) { by } else { *byte };
    }
}

// An underline of a name stands for a space.
pub fn spaced(name: &mut [u8]) {
    replace(name, |byte| byte == b'_', SPACE);
}

fn part(template: &[u8], list: &[u8], start: usize, end: usize) {
    if start <= end && end <= list.len() {
        print(template, &[0], &list[start..end]);
    }
}

// Words whose underlines stand for spaces, as a template's word.
pub fn words(template: &[u8], its: &[u8]) {
    let mut out = [0u8; WORDS];
    let n = text::fill(&mut out, 0, b"%@", &[0], its);
    spaced(&mut out);
    part(template, &out, 0, n);
}

// What stands for the name of a thread that has none.
fn numbered(template: &[u8], id: u64) {
    let mut out = [0u8; WORDS];
    let n = text::fill(&mut out, 0, b"#%a", &[id], b"");
    part(template, &out, 0, n);
}

// The n-th word of a list.
pub fn listed(template: &[u8], list: &[u8], n: u64) {
    let word = text::nth(list, BAR, n.min(BEYOND) as usize);
    part(template, list, word.start, word.end);
}

pub fn mode(n: u64, template: &[u8]) {
    listed(
        template,
        b"strict FIFO|priority|protected|ordinary|borrow",
        n,
    );
}

impl Run {
    // In a text, words alone.
    pub fn tell(&self, words: &[u8]) {
        if self.tells() {
            plain(words);
        }
    }

    // The name of a thread, # and its number where it has none.
    pub fn told_name(&self, id: u64, template: &[u8]) {
        if self.threads <= id {
            numbered(template, id);
            return;
        }
        let its = text::nth(&self.names, SPACE, id as usize);
        words(template, &self.names[its.start..its.end]);
    }
}
