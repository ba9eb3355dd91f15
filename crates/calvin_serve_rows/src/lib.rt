//! The rows of an application as lines of a journal, and back; and the line that tells that a journal begins with rows.
#![tactic(auto)]

mod fields;
mod kv;
mod line;
mod once;
mod reply;
mod start;
mod stock;
mod stored;

pub use line::{read_row, row_line};
pub use start::{read_start, start_line};
pub use stored::StoredRow;
