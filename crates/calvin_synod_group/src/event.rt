//! What happens to a group, and how each event ends.
use calvin_types::{Fault, Slot};

/// One event. `B` is the type of batches.
#[derive(Debug, Drop, PartialEq, Eq)]
pub enum GroupEvent<B> {
    /// A replica begins a new ballot for a slot, with a batch to propose.
    Propose(u8, Slot, B),
    /// The packet of this number reaches the replica that it is for. Packets are numbered from 0 as they are sent; any
    /// may be delivered any number of times.
    Deliver(usize),
    /// A replica restarts: it keeps its promises, its votes and the greatest round that it used, and nothing else.
    Restart(u8),
}

/// How an event ended.
#[derive(Debug, Drop, PartialEq, Eq)]
pub enum Outcome<B> {
    /// It took effect.
    Done,
    /// It took effect, and the learner of the replica gave the slot's batch.
    Gave(Slot, B),
    /// It was refused, and the group is as it was.
    Refused(Fault),
}
