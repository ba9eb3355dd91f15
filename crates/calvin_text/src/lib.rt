//! What is printed of answers: the text of a reply, the line of a request and the last line.
#![tactic(auto)]

mod line;
mod printed;

pub use line::{push_finished, push_last, push_line};
pub use printed::{Printed, push_number};
