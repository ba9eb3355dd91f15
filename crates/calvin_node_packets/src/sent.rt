//! What packets say, as they lie in an outbox.
ghost use Rattle.std.specs.Prelude.{◌≡◌, false, IfOk, IsOk, IsOkUnless};
ghost use Rattle.calvin_node_packets.specs.Packets.{tells_batch};
ghost use Rattle.calvin_node_packets.specs.Sendings.{content_of};

use crate::packet::Content;
use calvin_app::{Answer, View};
use calvin_synod::Message;
use calvin_types::{Batch, Fault, Place, RequestId, Sets, Slot};

/// What a packet in an outbox says: the same as a `Content`, whose batch is looked at where it lies.
#[derive(Drop)]
pub enum Sent<'a, Args, Row, Reply> {
    /// A message of the synods of the sender's group.
    Synod(&'a Message<Batch<Args>>),
    /// The batch of a slot is decided.
    Decided(Slot, &'a Batch<Args>),
    /// Asks for the batch of a slot.
    AskBatch(Slot),
    /// The rows that the sender's partition read for the request at a place.
    Reads(Place, View<Row>),
    /// Asks for the rows that were read for the request at a place.
    AskReads(Place),
    /// The rows of these keys are wanted in memory soon.
    Warm(Sets),
    /// What the client's request came to: the place at which it was run, its name, its attempt, and the answer.
    Replies(Place, RequestId, u8, Answer<Reply>),
}

impl<'a, Args: Copy, Row: Copy, Reply: Copy> Sent<'a, Args, Row, Reply> {
    /// A copy, whose batch, if it has one, shares the memory. Refused with `OutOfMemory` where the batch can have no more
    /// owners.
    pub fn copy(&self) -> Result<Content<Args, Row, Reply>, Fault>
        ensures ok { IfOk result (λ c. c ≡ content_of self.now) }
        ensures only { IsOkUnless result Fault.OutOfMemory }
        ensures succeeds { tells_batch (content_of self.now) ≡ false → IsOk result }
    {
        Ok(match self {
            Sent::Synod(message) => Content::Synod(message.copy()?),
            Sent::Decided(slot, batch) => Content::Decided(*slot, batch.copy()?),
            Sent::AskBatch(slot) => Content::AskBatch(*slot),
            Sent::Reads(place, rows) => Content::Reads(*place, *rows),
            Sent::AskReads(place) => Content::AskReads(*place),
            Sent::Warm(sets) => Content::Warm(*sets),
            Sent::Replies(place, id, attempt, answer) => {
                Content::Replies(*place, *id, *attempt, *answer)
            }
        })
    }
}
