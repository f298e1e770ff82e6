// The rows of a queue as bytes: whether they encode, read and put, row after row.
ghost use Rattle.std.specs.Prelude.{◌≡◌, ◌*◌, length};
ghost use Rattle.images.specs.Images.{queue_row_words};
ghost use Rattle.images.specs.Bytes.{word_bytes, bytes_of_words, words_of_bytes, bytes_of_rows, rows_of_bytes};
ghost use Rattle.images.specs.Encodes.{queue_encodes};

use crate::encodes::queue_row_encodes;
use crate::words::{WORD_BYTES, put_words, read_words};
use lent_queue::{QUEUE_ROW_WORDS, QueueRow};

pub(crate) const QUEUE_ROW_BYTES: usize = WORD_BYTES * QUEUE_ROW_WORDS;

fn read_row(bytes: &[u8]) -> QueueRow
    requires { length bytes.now ≡ word_bytes * queue_row_words }
    ensures { result ≡ words_of_bytes queue_row_words bytes.now }
{
    let mut row: QueueRow = [0; QUEUE_ROW_WORDS];
    read_words(&mut row, bytes);
    row
}

fn put_row(bytes: &mut [u8], row: QueueRow)
    requires { length bytes.old ≡ word_bytes * queue_row_words }
    ensures { bytes.new ≡ bytes_of_words row }
{
    put_words(bytes, &row);
}

pub(crate) fn bytes_encode(bytes: &[u8], count: usize) -> bool
    requires { length bytes.now ≡ word_bytes * queue_row_words * count }
    ensures { result ≡ queue_encodes (rows_of_bytes queue_row_words count bytes.now) }
{
    let mut k: usize = 0;
    while k < count {
        let start = QUEUE_ROW_BYTES * k;
        let end = start + QUEUE_ROW_BYTES;
        let row = read_row(&bytes[start..end]);
        if !queue_row_encodes(k, row) {
            return false;
        }
        k += 1;
    }
    true
}

pub(crate) fn rows_encode(q: &[QueueRow]) -> bool
    ensures { result ≡ queue_encodes q.now }
{
    let mut k: usize = 0;
    while k < q.len() {
        let row = q[k];
        if !queue_row_encodes(k, row) {
            return false;
        }
        k += 1;
    }
    true
}

pub(crate) fn read_rows(q: &mut [QueueRow], bytes: &[u8])
    requires { length bytes.now ≡ word_bytes * queue_row_words * length q.old }
    ensures { q.new ≡ rows_of_bytes queue_row_words (length q.old) bytes.now }
{
    let mut k: usize = 0;
    while k < q.len() {
        let start = QUEUE_ROW_BYTES * k;
        let end = start + QUEUE_ROW_BYTES;
        q[k] = read_row(&bytes[start..end]);
        k += 1;
    }
}

pub(crate) fn put_rows(bytes: &mut [u8], q: &[QueueRow])
    requires { length bytes.old ≡ word_bytes * queue_row_words * length q.now }
    ensures { bytes.new ≡ bytes_of_rows q.now }
{
    let mut k: usize = 0;
    while k < q.len() {
        let start = QUEUE_ROW_BYTES * k;
        let end = start + QUEUE_ROW_BYTES;
        let row = q[k];
        put_row(&mut bytes[start..end], row);
        k += 1;
    }
}
