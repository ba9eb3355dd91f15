//! What is to be done outside the lock.
use calvin_types::{NodeId, Place};

/// What a thread does next.
#[derive(Clone, Copy, Debug, PartialEq, Eq)]
pub enum Errand {
    /// The packet of this number is delivered.
    Deliver(usize),
    /// The request at a place of a node is run.
    Run(NodeId, Place),
}
