//! Where a journal is kept: what a log is that grows at its end, what it tells of the bytes that outlive a crash, and two
//! logs: one over memory, which fails and tears where a test wants it, and one over a file.
#![tactic(auto)]

mod anew;
mod file;
mod log;
mod memory;
mod names;

pub use file::{Access, FileLog};
pub use log::{Log, LogFailed};
pub use memory::MemoryLog;
pub use names::FileId;
