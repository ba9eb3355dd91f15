//! What is told of a world: the lines of events, of nodes and of replies.
#![tactic(auto)]

mod nodes;
mod notes;
mod outcomes;
mod replies;
mod serial;

pub use nodes::{finished, finished_but, is_lost, push_nodes};
pub use outcomes::{push_outcome, push_outcomes};
pub use replies::{Epochs, Replies, push_replies, replies_of};
pub use serial::told_is_serial;
