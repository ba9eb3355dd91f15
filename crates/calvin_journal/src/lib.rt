//! Journals that outlive crashes: logs of whole lines, of which the first says what the journal is of, and each later one is
//! kept before anything rests on it. A journal is read from what a crash left, line by line, and then added to; or it is written
//! as a whole.
#![tactic(auto)]

mod adding;
mod beginning;
mod journal;
mod opening;
mod reader;
mod refused;

pub use beginning::Beginning;
pub use journal::Journal;
pub use opening::Opening;
pub use refused::Refused;
