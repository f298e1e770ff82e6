// The words of a window as bytes: read and put.
ghost use Rattle.std.specs.Prelude.{◌≡◌, ◌*◌, length};
ghost use Rattle.window_words.specs.WindowWords.{window_word_count};
ghost use Rattle.images.specs.Bytes.{word_bytes, bytes_of_words, words_of_bytes};

use crate::words::{WORD_BYTES, put_words, read_words};
use window_words::{WINDOW_WORDS, WindowWords};

pub(crate) const WINDOW_BYTES: usize = WORD_BYTES * WINDOW_WORDS;

pub(crate) fn read_window(bytes: &[u8]) -> WindowWords
    requires { length bytes.now ≡ word_bytes * window_word_count }
    ensures { result ≡ words_of_bytes window_word_count bytes.now }
{
    let mut words: WindowWords = [0; WINDOW_WORDS];
    read_words(&mut words, bytes);
    words
}

pub(crate) fn put_window(bytes: &mut [u8], words: WindowWords)
    requires { length bytes.old ≡ word_bytes * window_word_count }
    ensures { bytes.new ≡ bytes_of_words words }
{
    put_words(bytes, &words);
}
