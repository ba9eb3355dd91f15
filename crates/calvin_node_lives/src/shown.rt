//! Requests and packets, to be handed in and compared.
use calvin_app::{Kv, KvReply, KvRequest};
use calvin_node_packets::{Address, Outbox, Packet, Sent};
use calvin_synod::Message;
use calvin_types::{Batch, Key, KeySet, NodeId, Place, RequestId, Sets, Txn};

/// What nodes that run numbers by key send.
pub(crate) type Packed = Packet<KvRequest, u64, KvReply>;

/// What is said by such a packet.
type Said<'a> = Sent<'a, KvRequest, u64, KvReply>;

/// A message of such nodes' synods.
pub type Letter = Message<Batch<KvRequest>>;

/// A key of table 0.
pub fn key(id: u64) -> Key {
    Key { table: 0, id }
}

/// The place of a request in an epoch.
pub fn place(epoch: u64, n: u32) -> Place {
    Place { epoch, n }
}

/// A request of client 7, with the sets that it needs where no row is known.
pub fn request(number: u32, args: KvRequest) -> Txn<KvRequest> {
    let mut sets = Sets {
        reads: KeySet::new(),
        writes: KeySet::new(),
    };
    args.add_first_needs(&mut sets);
    let id = RequestId { client: 7, number };
    Txn {
        id,
        attempt: 1,
        args,
        sets,
    }
}

/// Whether two packets say the same.
fn says_same(one: &Said, other: &Said) -> bool {
    match (one, other) {
        (Sent::Synod(one), Sent::Synod(other)) => one == other,
        (Sent::Decided(one, batch), Sent::Decided(other, other_batch)) => {
            one == other && batch == other_batch
        }
        (Sent::AskBatch(one), Sent::AskBatch(other)) => one == other,
        (Sent::Reads(one, rows), Sent::Reads(other, other_rows)) => {
            one == other && rows.is_same(other_rows)
        }
        (Sent::AskReads(one), Sent::AskReads(other)) => one == other,
        (Sent::Warm(one), Sent::Warm(other)) => one == other,
        (Sent::Replies(one, id, attempt, answer), Sent::Replies(other, name, try_, told)) => {
            one == other && id == name && attempt == try_ && answer == told
        }
        _ => false,
    }
}

/// Whether the packets of a number, which is there in both, are the same.
pub(crate) fn is_same(some: &Outbox<Kv>, others: &Outbox<Kv>, number: usize) -> bool {
    let are_said_same = match (some.sent(number), others.sent(number)) {
        (Some(one), Some(other)) => says_same(&one, &other),
        _ => false,
    };
    are_said_same
        && some.sender(number) == others.sender(number)
        && some.address(number) == others.address(number)
}

/// The node of a replica, where there is one partition.
fn node(replica: u8) -> NodeId {
    NodeId {
        replica,
        partition: 0,
    }
}

/// Whether the packet of a number is this message, from one replica to another, where there is one partition.
pub(crate) fn is_letter(
    packets: &Outbox<Kv>,
    number: usize,
    from: u8,
    to: u8,
    letter: &Letter,
) -> bool {
    let is_said = match packets.sent(number) {
        Some(Sent::Synod(said)) => said == letter,
        _ => false,
    };
    is_said
        && packets.sender(number) == node(from)
        && packets.address(number) == Some(Address::AtNode(node(to)))
}
