//! Packets between the replicas of a group.
use calvin_synod::Message;

/// A message on its way, or sent at some time before: a group forgets none, so that each may be delivered late, more
/// than once, or never.
#[derive(Debug, Drop, PartialEq, Eq)]
pub struct Packet<B> {
    /// The replica that sent it.
    pub from: u8,
    /// The replica that it is for.
    pub to: u8,
    pub message: Message<B>,
}
