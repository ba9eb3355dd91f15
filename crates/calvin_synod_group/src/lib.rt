//! One replication group as a bench: replicas with the three roles of the synod, and every packet that was ever sent.
//! Whatever is lost, repeated, reordered or restarted, its learners agree.
#![tactic(auto)]

mod event;
mod group;
mod happening;
mod law;
mod packet;
mod sending;

pub use event::{GroupEvent, Outcome};
pub use group::Group;
pub use law::{agrees, can_choose};
pub use packet::Packet;
