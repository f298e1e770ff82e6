// The byte images of a record, a window, a queue and a table, as C calls: what a saved table is made of. Words stand in
// their order, each as eight bytes, the lowest first. A load takes just the bytes that a store gives: those of words
// that are the encoding of what they stand for. The number is 0 where it is made; on a refusal all stays as it was.
#![tactic(auto)]

mod encodes;
mod queue_rows;
mod table_rows;
mod window;
mod words;

ghost use Rattle.std.specs.Prelude.{◌≡◌};
ghost use Rattle.images.specs.Images.{left, load_record, store_record, load_window, store_window};
ghost use Rattle.images.specs.Images.{load_queue, store_queue, load_table, store_table};

use encodes::{record_encodes, window_encodes};
use lent_queue::{QUEUE_ROWS, QueueRows};
use policy_words::Row;
use queue_rows::QUEUE_ROW_BYTES;
use refusal::Refusal;
use rows::MAX_RECORDS;
use table_rows::{RECORD_BYTES, put_row, read_row};
use window::{WINDOW_BYTES, put_window, read_window};
use window_words::WindowWords;

const QUEUE_BYTES: usize = QUEUE_ROW_BYTES * QUEUE_ROWS;

#[unsafe(no_mangle)]
pub extern "C" fn image_load_record(bytes: &[u8], row: &mut Row) -> u64
    ensures { left result row.new ≡ load_record bytes.now row.old }
{
    if bytes.len() != RECORD_BYTES {
        return Refusal::BadTable.number();
    }
    let words = read_row(bytes);
    if !record_encodes(words) {
        return Refusal::BadRecord.number();
    }
    *row = words;
    0
}

#[unsafe(no_mangle)]
pub extern "C" fn image_store_record(row: &Row, bytes: &mut [u8]) -> u64
    ensures { left result bytes.new ≡ store_record row.now bytes.old }
{
    if bytes.len() != RECORD_BYTES {
        return Refusal::BadTable.number();
    }
    let words = *row;
    if !record_encodes(words) {
        return Refusal::BadRecord.number();
    }
    put_row(bytes, words);
    0
}

#[unsafe(no_mangle)]
pub extern "C" fn image_load_window(bytes: &[u8], window: &mut WindowWords) -> u64
    ensures { left result window.new ≡ load_window bytes.now window.old }
{
    if bytes.len() != WINDOW_BYTES {
        return Refusal::BadTable.number();
    }
    let words = read_window(bytes);
    if !window_encodes(words) {
        return Refusal::BadConfig.number();
    }
    *window = words;
    0
}

#[unsafe(no_mangle)]
pub extern "C" fn image_store_window(window: &WindowWords, bytes: &mut [u8]) -> u64
    ensures { left result bytes.new ≡ store_window window.now bytes.old }
{
    if bytes.len() != WINDOW_BYTES {
        return Refusal::BadTable.number();
    }
    let words = *window;
    if !window_encodes(words) {
        return Refusal::BadConfig.number();
    }
    put_window(bytes, words);
    0
}

#[unsafe(no_mangle)]
pub extern "C" fn image_load_queue(bytes: &[u8], q: &mut QueueRows) -> u64
    ensures { left result q.new ≡ load_queue bytes.now q.old }
{
    if bytes.len() != QUEUE_BYTES {
        return Refusal::BadTable.number();
    }
    if !queue_rows::bytes_encode(bytes, QUEUE_ROWS) {
        return Refusal::Damaged.number();
    }
    queue_rows::read_rows(q, bytes);
    0
}

#[unsafe(no_mangle)]
pub extern "C" fn image_store_queue(q: &QueueRows, bytes: &mut [u8]) -> u64
    ensures { left result bytes.new ≡ store_queue q.now bytes.old }
{
    if bytes.len() != QUEUE_BYTES {
        return Refusal::BadTable.number();
    }
    if !queue_rows::rows_encode(q) {
        return Refusal::Damaged.number();
    }
    queue_rows::put_rows(bytes, q);
    0
}

#[unsafe(no_mangle)]
pub extern "C" fn image_load_table(bytes: &[u8], t: &mut [Row]) -> u64
    ensures { left result t.new ≡ load_table bytes.now t.old }
{
    let count = t.len();
    if MAX_RECORDS < count {
        return Refusal::BadTable.number();
    }
    if bytes.len() != RECORD_BYTES * count {
        return Refusal::BadTable.number();
    }
    if !table_rows::bytes_encode(bytes, count) {
        return Refusal::BadRecord.number();
    }
    table_rows::read_rows(t, bytes);
    0
}

#[unsafe(no_mangle)]
pub extern "C" fn image_store_table(t: &[Row], bytes: &mut [u8]) -> u64
    ensures { left result bytes.new ≡ store_table t.now bytes.old }
{
    let count = t.len();
    if MAX_RECORDS < count {
        return Refusal::BadTable.number();
    }
    if bytes.len() != RECORD_BYTES * count {
        return Refusal::BadTable.number();
    }
    if !table_rows::rows_encode(t) {
        return Refusal::BadRecord.number();
    }
    table_rows::put_rows(bytes, t);
    0
}
