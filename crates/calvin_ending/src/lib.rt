//! How the program ends: the status of a fault, the line on standard error that tells it, and the help that was asked for.
#![tactic(auto)]

mod ending;
mod help;

pub use ending::{end_with, refuse_line, refuse_words};
pub use help::print_help;
