//! What nodes send each other and clients.
ghost use Rattle.calvin_node_packets.specs.Packets.{is_for, tells_batch};
ghost use Rattle.std.specs.Prelude.{◌≡◌, false, IfOk, IsOk, IsOkUnless};

use calvin_app::{Answer, View};
use calvin_synod::Message;
use calvin_types::{Batch, Fault, NodeId, Place, RequestId, Sets, Slot};

/// Whom a packet is for.
#[derive(Clone, Copy, Debug, PartialEq, Eq)]
pub enum Address {
    /// A node.
    AtNode(NodeId),
    /// The client of this number.
    AtClient(u32),
}

impl Address {
    /// Whether it is the address of this node.
    pub fn is_for(self, id: NodeId) -> bool
        ensures { result ≡ is_for self id }
    {
        match self {
            Address::AtNode(node) => node.replica == id.replica && node.partition == id.partition,
            Address::AtClient(_) => false,
        }
    }
}

/// What a packet says.
#[derive(Drop)]
pub enum Content<Args, Row, Reply> {
    /// A message of the synods of the sender's group ("Paxos Made Simple", section 2).
    Synod(Message<Batch<Args>>),
    /// The batch of a slot is decided (Thomson et al. 2012, section 3.1: each sequencer sends its batch to the schedulers
    /// of its replica).
    Decided(Slot, Batch<Args>),
    /// Asks for the batch of a slot.
    AskBatch(Slot),
    /// The rows that the sender's partition read for the request at a place (section 3.2: remote reads).
    Reads(Place, View<Row>),
    /// Asks for the rows that were read for the request at a place.
    AskReads(Place),
    /// The rows of these keys, which a request to come reads or writes, are wanted in memory soon (section 4: requests
    /// that read from disk).
    Warm(Sets),
    /// What the client's request came to: the place at which it was run, its name, its attempt, and the answer.
    Replies(Place, RequestId, u8, Answer<Reply>),
}

impl<Args: Copy, Row: Copy, Reply: Copy> Content<Args, Row, Reply> {
    /// A copy, whose batch, if it has one, shares the memory. Refused with `OutOfMemory` where the batch can have no more
    /// owners.
    pub fn copy(&self) -> Result<Content<Args, Row, Reply>, Fault>
        ensures ok { IfOk result (λ c. c ≡ self.now) }
        ensures only { IsOkUnless result Fault.OutOfMemory }
        ensures succeeds { tells_batch self.now ≡ false → IsOk result }
    {
        Ok(match self {
            Content::Synod(message) => Content::Synod(message.copy()?),
            Content::Decided(slot, batch) => Content::Decided(*slot, batch.copy()?),
            Content::AskBatch(slot) => Content::AskBatch(*slot),
            Content::Reads(place, rows) => Content::Reads(*place, *rows),
            Content::AskReads(place) => Content::AskReads(*place),
            Content::Warm(sets) => Content::Warm(*sets),
            Content::Replies(place, id, attempt, answer) => {
                Content::Replies(*place, *id, *attempt, *answer)
            }
        })
    }
}

/// A packet on its way, or sent at some time before.
#[derive(Drop)]
pub struct Packet<Args, Row, Reply> {
    /// The node that sent it.
    pub from: NodeId,
    /// Whom it is for.
    pub to: Address,
    pub content: Content<Args, Row, Reply>,
}
