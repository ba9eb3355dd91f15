//! What may happen in a world, and how it ends.
use calvin_node::Act;
use calvin_types::{Fault, NodeId};

/// One event.
#[derive(Clone, Copy, Debug, PartialEq, Eq)]
pub enum Event<Args> {
    /// One of a node's own events.
    At(NodeId, Act<Args>),
    /// The packet of this number comes to the node that it is for. Packets are numbered from 0 as they are sent; each may
    /// be delivered late, more than once, or never.
    Deliver(usize),
}

/// How an event ended.
#[derive(Clone, Copy, Debug, PartialEq, Eq)]
pub enum Outcome {
    /// It took effect.
    Done,
    /// It was refused, and the world is as it was.
    Refused(Fault),
}
