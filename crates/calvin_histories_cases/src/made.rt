//! Histories and packets of the cases.
use calvin_app::{Kv, KvRequest};
use calvin_book::StoreBook;
use calvin_histories::{Entry, History};
use calvin_node::Act;
use calvin_node_packets::{Address, Content, Packet};
use calvin_synod::Message;
use calvin_types::{Ballot, Batch, Config, Fault, KeySet, NodeId, RequestId, Sets, Slot, Txn};
use calvin_world::PacketName;
use std::alloc::Global;

pub(crate) type KvBook = StoreBook<Kv>;

pub(crate) type KvHistory = History<Kv>;

pub(crate) type KvEntry = Entry<KvRequest, u64, calvin_app::KvReply>;

pub(crate) type KvPacket = Packet<KvRequest, u64, calvin_app::KvReply>;

pub(crate) const FIRST_NODE: NodeId = NodeId {
    replica: 0,
    partition: 0,
};

pub(crate) const SECOND_NODE: NodeId = NodeId {
    replica: 1,
    partition: 0,
};

pub(crate) const SLOT: Slot = Slot { epoch: 0, group: 0 };

pub(crate) const BALLOT: Ballot = Ballot {
    round: 1,
    replica: 0,
};

/// The name of a packet that a node has sent so many before.
pub(crate) fn name(sender: NodeId, number: usize) -> PacketName {
    PacketName { sender, number }
}

/// A message of the synod of the first slot, from one node to another.
pub(crate) fn letter(from: NodeId, to: NodeId, message: Message<Batch<KvRequest>>) -> KvPacket {
    Packet {
        from,
        to: Address::AtNode(to),
        content: Content::Synod(message),
    }
}

/// The first node asks the second one for a promise.
pub(crate) fn prepare() -> KvPacket {
    let message = Message::Prepare {
        slot: SLOT,
        ballot: BALLOT,
    };
    letter(FIRST_NODE, SECOND_NODE, message)
}

/// The second node promises, and has cast no vote.
pub(crate) fn promise() -> KvPacket {
    let message = Message::Promise {
        slot: SLOT,
        ballot: BALLOT,
        vote: None,
    };
    letter(SECOND_NODE, FIRST_NODE, message)
}

/// A put of client 7.
pub(crate) fn put(id: u64, value: u64) -> Txn<KvRequest> {
    let args = KvRequest::Put(id, value);
    let mut sets = Sets {
        reads: KeySet::new(),
        writes: KeySet::new(),
    };
    args.add_first_needs(&mut sets);
    Txn {
        id: RequestId {
            client: 7,
            number: 1,
        },
        attempt: 1,
        args,
        sets,
    }
}

/// One partition in so many replicas.
pub(crate) fn config(replicas: u8) -> Result<Config, Fault> {
    Config::new(1, replicas)
}

/// A batch of one request.
pub(crate) fn batch(alloc: Global, txn: Txn<KvRequest>) -> Result<Batch<KvRequest>, Fault> {
    let txns = vec![in alloc; txn]?;
    Batch::new(alloc, txns)
}

pub(crate) fn own(act: Act<KvRequest>) -> KvEntry {
    Entry::Own(act)
}
