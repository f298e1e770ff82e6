// The rows of a table as bytes: whether they encode, read and put, row after row.
ghost use Rattle.std.specs.Prelude.{◌≡◌, ◌*◌, length};
ghost use Rattle.codec.specs.Codec.{row_words};
ghost use Rattle.images.specs.Bytes.{word_bytes, bytes_of_words, words_of_bytes, bytes_of_rows, rows_of_bytes};
ghost use Rattle.images.specs.Encodes.{table_encodes};

use crate::encodes::record_encodes;
use crate::words::{WORD_BYTES, put_words, read_words};
use policy_words::{ROW_WORDS, Row};

pub(crate) const RECORD_BYTES: usize = WORD_BYTES * ROW_WORDS;

pub(crate) fn read_row(bytes: &[u8]) -> Row
    requires { length bytes.now ≡ word_bytes * row_words }
    ensures { result ≡ words_of_bytes row_words bytes.now }
{
    let mut row: Row = [0; ROW_WORDS];
    read_words(&mut row, bytes);
    row
}

pub(crate) fn put_row(bytes: &mut [u8], row: Row)
    requires { length bytes.old ≡ word_bytes * row_words }
    ensures { bytes.new ≡ bytes_of_words row }
{
    put_words(bytes, &row);
}

pub(crate) fn bytes_encode(bytes: &[u8], count: usize) -> bool
    requires { length bytes.now ≡ word_bytes * row_words * count }
    ensures { result ≡ table_encodes (rows_of_bytes row_words count bytes.now) }
{
    let mut k: usize = 0;
    while k < count {
        let start = RECORD_BYTES * k;
        let end = start + RECORD_BYTES;
        let row = read_row(&bytes[start..end]);
        if !record_encodes(row) {
            return false;
        }
        k += 1;
    }
    true
}

pub(crate) fn rows_encode(t: &[Row]) -> bool
    ensures { result ≡ table_encodes t.now }
{
    let mut k: usize = 0;
    while k < t.len() {
        let row = t[k];
        if !record_encodes(row) {
            return false;
        }
        k += 1;
    }
    true
}

pub(crate) fn read_rows(t: &mut [Row], bytes: &[u8])
    requires { length bytes.now ≡ word_bytes * row_words * length t.old }
    ensures { t.new ≡ rows_of_bytes row_words (length t.old) bytes.now }
{
    let mut k: usize = 0;
    while k < t.len() {
        let start = RECORD_BYTES * k;
        let end = start + RECORD_BYTES;
        t[k] = read_row(&bytes[start..end]);
        k += 1;
    }
}

pub(crate) fn put_rows(bytes: &mut [u8], t: &[Row])
    requires { length bytes.old ≡ word_bytes * row_words * length t.now }
    ensures { bytes.new ≡ bytes_of_rows t.now }
{
    let mut k: usize = 0;
    while k < t.len() {
        let start = RECORD_BYTES * k;
        let end = start + RECORD_BYTES;
        let row = t[k];
        put_row(&mut bytes[start..end], row);
        k += 1;
    }
}
