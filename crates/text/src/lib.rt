// Text in and out, for programs: the pieces of a line, lists of names, decimal numbers and times, lines read by a form,
// columns, templates and shapes, in bytes that the caller lends, and sums that stay in range. Only `print` writes to a
// file, which is standard output.
#![tactic(auto)]

mod counting;
mod escaping;
mod forms;
mod listing;
mod printing;
mod reading;
mod svg;
mod times;
mod writing;

pub use counting::saturating_add;
pub use escaping::escape;
pub use forms::{Cause, Stop, fit};
pub use listing::{Span, nth, place_of, word_after};
pub use printing::{print, print_page};
pub use reading::{NumberError, end_of, number, same, start_of};
pub use svg::{dashes, label, mark, rectangle};
pub use times::milliseconds;
pub use writing::fill;
