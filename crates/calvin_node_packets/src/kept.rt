//! Packets as an outbox keeps them.
use crate::packet::Address;
use calvin_synod::Message;
use calvin_types::{Batch, NodeId, Place, RequestId, Slot};

/// What a packet says, as a `Content`, but for rows, sets and answers, which take more room than all else: these stand in lists
/// of their own, each at a number.
#[derive(Drop)]
pub(crate) enum KeptContent<Args> {
    Synod(Message<Batch<Args>>),
    Decided(Slot, Batch<Args>),
    AskBatch(Slot),
    Reads(Place, usize),
    AskReads(Place),
    Warm(usize),
    Replies(Place, RequestId, u8, usize),
}

/// A packet without its rows, sets or answer.
#[derive(Drop)]
pub(crate) struct Kept<Args> {
    pub from: NodeId,
    pub to: Address,
    pub content: KeptContent<Args>,
}
