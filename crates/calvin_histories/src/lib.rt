//! What happened at each node of a store, and the one list of events that it is a part of.
#![tactic(auto)]

mod assembly;
mod entry;
mod fitting;
mod laws;
mod locked;
mod opening;
mod same;
mod same_message;
mod same_values;
mod senders;

pub use assembly::{Unassembled, assemble};
pub use entry::{Entry, History};
pub use laws::assembled_is_not_stuck;
pub use locked::{LockedNode, Returned, StoreNode};
pub use opening::lock_nodes;
