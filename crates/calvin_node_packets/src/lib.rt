//! What nodes send each other and clients, and the outbox in which one event's packets are appended.
#![tactic(auto)]

mod keeping;
mod kept;
mod letters;
mod outbox;
mod packet;
mod sending;
mod sent;

pub use outbox::Outbox;
pub use packet::{Address, Content, Packet};
pub use sent::Sent;
