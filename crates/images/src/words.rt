// Words as bytes, the lowest first: one word, words in a row.
ghost use Rattle.std.specs.Prelude.{◌≡◌, ◌+◌, ◌*◌, length};
ghost use Rattle.images.specs.Bytes.{word_bytes, bytes_of_word, word_of_bytes, bytes_of_words, words_of_bytes};

pub(crate) const WORD_BYTES: usize = 8;

// Two numbers as the halves of one twice as wide: what their types hold fits.
fn pair(low: u8, high: u8) -> u16
    ensures { result ≡ low + 256 * high }
{
    (low as u16) + 256 * (high as u16)
}

fn half(low: u16, high: u16) -> u32
    ensures { result ≡ low + 65536 * high }
{
    (low as u32) + 65536 * (high as u32)
}

fn whole(low: u32, high: u32) -> u64
    ensures { result ≡ low + 4294967296 * high }
{
    (low as u64) + 4294967296 * (high as u64)
}

fn word_of(bytes: &[u8]) -> u64
    requires { length bytes.now ≡ word_bytes }
    ensures { result ≡ word_of_bytes bytes.now }
{
    let low = half(pair(bytes[0], bytes[1]), pair(bytes[2], bytes[3]));
    let high = half(pair(bytes[4], bytes[5]), pair(bytes[6], bytes[7]));
    whole(low, high)
}

fn put_word(bytes: &mut [u8], word: u64)
    requires { length bytes.old ≡ word_bytes }
    ensures { bytes.new ≡ bytes_of_word word }
{
    let mut rest = word;
    let mut i: usize = 0;
    while i < WORD_BYTES {
        bytes[i] = (rest % 256) as u8;
        rest = rest / 256;
        i += 1;
    }
}

pub(crate) fn read_words(words: &mut [u64], bytes: &[u8])
    requires { length bytes.now ≡ word_bytes * length words.old }
    ensures { words.new ≡ words_of_bytes (length words.old) bytes.now }
{
    let mut i: usize = 0;
    while i < words.len() {
        let start = WORD_BYTES * i;
        let end = start + WORD_BYTES;
        words[i] = word_of(&bytes[start..end]);
        i += 1;
    }
}

pub(crate) fn put_words(bytes: &mut [u8], words: &[u64])
    requires { length bytes.old ≡ word_bytes * length words.now }
    ensures { bytes.new ≡ bytes_of_words words.now }
{
    let mut i: usize = 0;
    while i < words.len() {
        let start = WORD_BYTES * i;
        let end = start + WORD_BYTES;
        put_word(&mut bytes[start..end], words[i]);
        i += 1;
    }
}
