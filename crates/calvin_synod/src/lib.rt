//! Agreement of one replication group on the batch of each slot, by the single-decree synod of "Paxos Made Simple": the
//! three roles of a replica, as plain data that answers messages.
#![tactic(auto)]

mod acceptor;
mod attempt;
mod by_slot;
mod highest;
mod learner;
mod mail;
mod member;
mod message;
mod proposer;
mod quorum;
mod stable;
mod tallies;
mod vote;

pub use acceptor::Acceptor;
pub use learner::Learner;
pub use mail::{Given, Mail};
pub use member::Member;
pub use message::Message;
pub use proposer::Proposer;
pub use stable::SynodRecord;
pub use vote::{Recorded, Vote};
