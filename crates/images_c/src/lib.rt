// The C calls of the crate images: each is the call of its name there, and promises the same.
#![tactic(auto)]

ghost use Rattle.std.specs.Prelude.{◌≡◌};
ghost use Rattle.images.specs.Images.{left, load_record, store_record, load_window, store_window};
ghost use Rattle.images.specs.Images.{load_queue, store_queue, load_table, store_table};

use lent_queue::QueueRows;
use policy_words::Row;
use window_words::WindowWords;

#[unsafe(no_mangle)]
pub extern "C" fn image_load_record(bytes: &[u8], row: &mut Row) -> u64
    ensures { left result row.new ≡ load_record bytes.now row.old }
{
    images::image_load_record(bytes, row)
}

#[unsafe(no_mangle)]
pub extern "C" fn image_store_record(row: &Row, bytes: &mut [u8]) -> u64
    ensures { left result bytes.new ≡ store_record row.now bytes.old }
{
    images::image_store_record(row, bytes)
}

#[unsafe(no_mangle)]
pub extern "C" fn image_load_window(bytes: &[u8], window: &mut WindowWords) -> u64
    ensures { left result window.new ≡ load_window bytes.now window.old }
{
    images::image_load_window(bytes, window)
}

#[unsafe(no_mangle)]
pub extern "C" fn image_store_window(window: &WindowWords, bytes: &mut [u8]) -> u64
    ensures { left result bytes.new ≡ store_window window.now bytes.old }
{
    images::image_store_window(window, bytes)
}

#[unsafe(no_mangle)]
pub extern "C" fn image_load_queue(bytes: &[u8], q: &mut QueueRows) -> u64
    ensures { left result q.new ≡ load_queue bytes.now q.old }
{
    images::image_load_queue(bytes, q)
}

#[unsafe(no_mangle)]
pub extern "C" fn image_store_queue(q: &QueueRows, bytes: &mut [u8]) -> u64
    ensures { left result bytes.new ≡ store_queue q.now bytes.old }
{
    images::image_store_queue(q, bytes)
}

#[unsafe(no_mangle)]
pub extern "C" fn image_load_table(bytes: &[u8], t: &mut [Row]) -> u64
    ensures { left result t.new ≡ load_table bytes.now t.old }
{
    images::image_load_table(bytes, t)
}

#[unsafe(no_mangle)]
pub extern "C" fn image_store_table(t: &[Row], bytes: &mut [u8]) -> u64
    ensures { left result bytes.new ≡ store_table t.now bytes.old }
{
    images::image_store_table(t, bytes)
}
