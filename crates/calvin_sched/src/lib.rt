//! One partition's scheduler: requests are admitted in the global order, lock what they use, read, exchange what they read,
//! run and write (Thomson et al. 2012, section 3.2). In code a request is admitted, begins, takes the rows of other
//! partitions, is told as a job once all have come, and is finished with what was computed of it, or is run where it stands.
//! A scheduler is told which epochs are merged, and tells at the end of which it stands. Its rows are taken as a snapshot, and
//! it is opened on one.
#![tactic(auto)]

mod came;
mod finishing;
mod law;
mod phase;
mod progress;
mod reading;
mod running;
mod scheduler;
mod serving;
mod sites;
mod snapshots;
mod telling;
mod turn;
mod turns;
mod walking;

pub use law::{due_is, ready_is};
pub use phase::Phase;
pub use scheduler::Scheduler;
pub use serving::Serving;
pub use turn::Turn;
