//! The edge of the program: where a script's bytes come from and where a text's bytes go, as two small traits with
//! devices over memory and over std's readers and writers; the whole of a script in; the whole of a text out; and the
//! line that tells of a refusal. Each device counts its failures, so that a contract can say whose refusal an answer
//! rests on.
#![tactic(auto)]

mod complaints;
mod failing;
mod memory;
mod reading;
mod sink;
mod source;
mod streams;
mod tally;
mod writing;

pub use complaints::complaint;
pub use failing::{FailingSink, FailingSource, WriteFailure};
pub use memory::{MemorySink, MemorySource};
pub use reading::{MOST_BYTES, read_all};
pub use sink::{Sink, WriteFailed};
pub use source::{ReadFailed, Source};
pub use streams::{InputSource, OutputSink};
pub use tally::Tally;
pub use writing::write_all;
