//! What a replica sends in one step.
use crate::message::Message;
use calvin_types::Slot;

/// What a replica sends in one step, by whom it is for. `B` is the type of batches.
#[derive(Debug, Drop, PartialEq, Eq)]
pub enum Mail<B> {
    Nothing,
    /// One message to the replica of this number.
    ToOne(u8, Message<B>),
    /// One message to each replica of the group, the own one too.
    ToAll(Message<B>),
}

/// The batch that a learner gave for a slot, if it gave one.
pub type Given<B> = Option<(Slot, B)>;
