//! What everything in calvin speaks of: keys and sets of at most sixteen keys, requests and batches of them, the names
//! of places, slots, ballots and nodes, how many partitions and replicas there are and which of them take part in a
//! request, and the one type of faults.
#![tactic(auto)]

mod batch;
mod config;
mod fault;
mod few;
mod key;
mod key_list;
mod key_set;
mod limits;
mod place;
mod room_map;
mod shared;
mod txn;

pub use batch::Batch;
pub use config::Config;
pub use fault::Fault;
pub use few::Few;
pub use key::Key;
pub use key_set::{KeySet, Sets};
pub use limits::{
    MOST_ATTEMPTS, MOST_DELAY, MOST_EPOCHS, MOST_KEYS, MOST_PARTITIONS, MOST_REPLICAS,
    MOST_REQUESTS, MOST_ROUNDS, MOST_UNDECIDED,
};
pub use place::{Ballot, NodeId, Place, RequestId, Slot, orders_are};
pub use room_map::{RoomKey, RoomMap};
pub use shared::Shared;
pub use txn::Txn;
