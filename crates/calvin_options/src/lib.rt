//! Flags and options of a command line: what clap is told of them, and what it has found.
#![tactic(auto)]

mod found;
mod lines;

pub use found::{has_flag, number_of};
pub use lines::{flag, number_option, optional_number};
