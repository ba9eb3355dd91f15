//! What happens to nodes side by side, and how it ends.
use calvin_app::KvRequest;
use calvin_node::Act;
use calvin_types::{Fault, Place};

/// An event of a node, which is named by its number among the nodes, or of the packet of a number.
#[derive(Clone, Copy)]
pub enum Step {
    /// One of a node's own events.
    Own(usize, Act<KvRequest>),
    Deliver(usize),
    /// The request at a place is run beside the node, which then takes what came of it.
    Finish(usize, Place),
    /// The last node is opened anew from its durable record. Where that is refused, it is opened from the record that was
    /// handed back.
    Reopen,
}

/// The number of a refusal, or 0.
pub fn number_of(outcome: Result<(), Fault>) -> u8 {
    match outcome {
        Ok(()) => 0,
        Err(fault) => fault.number(),
    }
}
