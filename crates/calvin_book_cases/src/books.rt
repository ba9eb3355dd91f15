//! Books of one node over numbers by key.
use crate::checks::same;
use calvin_app::{Computed, Kv, KvRequest};
use calvin_book::StoreBook;
use calvin_node::Act;
use calvin_types::{Config, Fault, KeySet, NodeId, Place, RequestId, Sets, Txn};
use calvin_world::Event;
use std::alloc::Global;
use std::process::Abort;

pub(crate) type KvBook = StoreBook<Kv>;

pub(crate) const NODE: NodeId = NodeId {
    replica: 0,
    partition: 0,
};

/// A node that isn't there.
pub(crate) const NOBODY: NodeId = NodeId {
    replica: 1,
    partition: 0,
};

pub(crate) const FIRST: Place = Place { epoch: 0, n: 0 };

/// A request of client 7, with the sets that it needs where no row is known.
pub(crate) fn request(number: u32, args: KvRequest) -> Txn<KvRequest> {
    let mut sets = Sets {
        reads: KeySet::new(),
        writes: KeySet::new(),
    };
    args.add_first_needs(&mut sets);
    Txn {
        id: RequestId { client: 7, number },
        attempt: 1,
        args,
        sets,
    }
}

/// A book of one node, which opened just now.
pub(crate) fn one_node(alloc: Global) -> Result<KvBook, Fault> {
    let config = Config::new(1, 1)?;
    KvBook::new(alloc, &config, Kv)
}

/// These events happen, and each of them takes effect.
pub(crate) fn happen(rt: &impl Abort, book: &mut KvBook, events: &[Event<KvRequest>]) {
    for (number, event) in events.iter().enumerate() {
        same(rt, (number, book.apply(event)), (number, Ok(())));
    }
}

fn own(act: Act<KvRequest>) -> Event<KvRequest> {
    Event::At(NODE, act)
}

/// The batch of the first epoch is closed and agreed on, its first request asks for its locks and begins.
pub(crate) fn first_epoch() -> [Event<KvRequest>; 9] {
    [
        own(Act::Close),
        own(Act::Propose(0)),
        Event::Deliver(0),
        Event::Deliver(1),
        Event::Deliver(2),
        Event::Deliver(3),
        own(Act::Merge),
        own(Act::Lock),
        own(Act::Begin(FIRST)),
    ]
}

/// What comes of the job at the first place.
pub(crate) fn computed(book: &KvBook) -> Result<Computed<Kv>, Fault> {
    Ok(book.job(NODE, FIRST)?.compute(&Kv))
}
