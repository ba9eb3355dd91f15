//! A durable store that is opened again: a journal's epochs are run one after another from the rows that it begins with, and a desk
//! stands where they leave it, or what they were answered is printed.
#![tactic(auto)]

mod printing;
mod recovery;
mod replaying;
mod starting;

pub use printing::replay;
pub use recovery::recover;
