//! Worlds of numbers by key, and what happens in them.
use calvin_app::{Kv, KvRequest};
use calvin_lock::Locks;
use calvin_node::Act;
use calvin_store::PlainRows;
use calvin_types::{Batch, Config, Fault, Key, KeySet, NodeId, Place, RequestId, Sets, Txn};
use calvin_world::World;
use std::alloc::Global;

/// A world of numbers by key, whose rows have no points and no cold table.
pub(crate) type KvWorld<L> = World<Kv, L, PlainRows<u64>>;

pub(crate) type KvAct = Act<KvRequest>;

/// No event has happened yet.
pub(crate) fn world_of<L: Locks + Drop>(
    alloc: Global,
    partitions: u8,
    replicas: u8,
) -> Result<KvWorld<L>, Fault> {
    World::new(alloc, &Config::new(partitions, replicas)?, Kv)
}

/// The world ends, and what it took of memory is given back. A function in which it goes out of scope otherwise is longer to prove, by
/// what it takes to give each of its parts back.
pub(crate) fn end<L: Locks + Drop>(_world: KvWorld<L>) {}

pub(crate) fn node(replica: u8, partition: u8) -> NodeId {
    NodeId { replica, partition }
}

/// A key of table 0.
pub(crate) fn key(id: u64) -> Key {
    Key { table: 0, id }
}

/// The first place of an epoch.
pub(crate) fn first_of(epoch: u64) -> Place {
    Place { epoch, n: 0 }
}

/// Client 7's request of a number, with the sets that it needs where no row is known.
pub(crate) fn request(number: u32, args: KvRequest) -> Txn<KvRequest> {
    let mut sets = Sets {
        reads: KeySet::new(),
        writes: KeySet::new(),
    };
    args.add_first_needs(&mut sets);
    Txn {
        id: RequestId { client: 7, number },
        attempt: 1,
        args,
        sets,
    }
}

/// The batch of a request.
pub(crate) fn batch_of(alloc: Global, txn: Txn<KvRequest>) -> Result<Batch<KvRequest>, Fault> {
    let mut txns = Vec::new(alloc);
    txns.push(txn)?;
    Batch::new(alloc, txns)
}

/// The request at a place is run beside its node, which then takes what came of it.
pub(crate) fn finish<L: Locks + Drop>(
    world: &mut KvWorld<L>,
    id: NodeId,
    place: Place,
) -> Result<(), Fault> {
    let computed = world.job(id, place)?.compute(&Kv);
    world.finish_with(id, &computed)
}
