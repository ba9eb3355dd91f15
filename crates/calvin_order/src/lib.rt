//! How requests come to stand in one order. The sequencer of one node queues them, holds some of them back, and closes them
//! in batches. The merge of one node holds a batch for each slot and gives the epochs' requests in one order, epoch after
//! epoch, and in an epoch whole batches by ascending group, or, from a configured epoch on, woven ones.
#![tactic(auto)]

mod held;
mod held_back;
mod history;
mod merge;
mod pending;
mod queue;
mod same;
mod segment;
mod sequencer;
mod turns;
mod walk;

pub use merge::{Merge, orders_rise};
pub use pending::PendingRequests;
pub use same::same_orders;
pub use segment::MergedSegment;
pub use sequencer::Sequencer;
pub use walk::{BatchSource, EpochRequests, count_requests, is_woven};
