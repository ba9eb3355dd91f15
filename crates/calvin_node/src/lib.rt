//! A node: partition p of replica r, with its sequencing layer and its scheduler. Each event
//! of a node is a call here, and so is what it makes of a packet.
#![tactic(auto)]

mod acting;
mod asking;
mod durable;
mod execution;
mod handling;
mod node;
mod ordering;
mod snapshots;
mod submissions;

pub use calvin_node_acts::Act;
pub use durable::Durable;
pub use node::Node;
