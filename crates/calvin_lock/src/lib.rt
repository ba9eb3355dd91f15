//! Who may go ahead: shared and exclusive locks on keys, granted strictly in the order in which they were requested.
//! `Locks` says what a lock manager is, `ListLocks` is the plain one, and `QueueLocks` the one with a queue for each key.
#![tactic(auto)]

mod conflict;
mod kept_sets;
mod list_locks;
mod locks;
mod marks;
mod order;
mod passing;
mod queue;
mod queue_locks;
mod queues;
mod unreleased;

pub use list_locks::ListLocks;
pub use locks::{Locks, oldest_is_ready, ready_stays};
pub use queue_locks::QueueLocks;
