//! The list of events: two requests put a number and move some of it across partitions, in three replicas.
use crate::checks::filled;
use calvin_app::{Kv, KvRequest};
use calvin_node::Act;
use calvin_types::{Fault, Key, KeySet, NodeId, Place, RequestId, Sets, Slot, Txn};
use calvin_world::{Event, StoreWorld};
use std::alloc::Global;

pub(crate) type KvWorld = StoreWorld<Kv>;

pub(crate) type KvEvent = Event<KvRequest>;

pub(crate) const PARTITIONS: u8 = 2;

pub(crate) const REPLICAS: u8 = 3;

/// How many packets it takes to agree on the batch of a group, and how many to run both requests at a replica.
pub(crate) const OF_AGREEMENT: usize = 17;

const OF_EXECUTION: usize = 5;

/// A key of table 0.
pub(crate) fn key(id: u64) -> Key {
    Key { table: 0, id }
}

pub(crate) fn at(replica: u8, partition: u8, act: Act<KvRequest>) -> KvEvent {
    Event::At(NodeId { replica, partition }, act)
}

/// The packet so many after the first one is delivered.
pub(crate) fn delivery(first: usize, after: usize) -> KvEvent {
    Event::Deliver(first.saturating_add(after))
}

/// Client 7's request of a number is submitted at the first group's node of replica 0.
pub(crate) fn submission(number: u32, args: KvRequest) -> KvEvent {
    let mut sets = Sets {
        reads: KeySet::new(),
        writes: KeySet::new(),
    };
    args.add_first_needs(&mut sets);
    let id = RequestId { client: 7, number };
    let attempt = 1;
    let txn = Txn {
        id,
        attempt,
        args,
        sets,
    };
    at(0, 0, Act::Submit(txn))
}

/// Both requests are submitted, and the epoch is closed for both groups.
fn submissions() -> [KvEvent; 4] {
    [
        submission(1, KvRequest::Put(1, 10)),
        submission(2, KvRequest::Move(1, 2, 4)),
        at(0, 0, Act::Close),
        at(0, 1, Act::Close),
    ]
}

/// The batch of a slot is agreed on: of the packets from a number on the first three are prepares, of which the third is lost.
/// Two promises follow, three questions for votes, of which the third is lost too, and each of the two votes goes to three
/// nodes. Each of these tells the batch to its neighbour.
pub(crate) fn agreement(slot: Slot, first: usize) -> [KvEvent; 16] {
    [
        at(0, slot.group, Act::Propose(slot.epoch)),
        delivery(first, 0),
        delivery(first, 1),
        delivery(first, 3),
        delivery(first, 4),
        delivery(first, 5),
        delivery(first, 6),
        delivery(first, 8),
        delivery(first, 11),
        delivery(first, 9),
        delivery(first, 12),
        delivery(first, 10),
        delivery(first, 13),
        delivery(first, 14),
        delivery(first, 15),
        delivery(first, 16),
    ]
}

/// Both requests are run at a replica: of the packets from a number on the first one is the reply to the put, and the next two
/// bring the nodes each other's rows.
fn execution(replica: u8, first: usize) -> [KvEvent; 14] {
    let (put, moved) = (Place { epoch: 0, n: 0 }, Place { epoch: 0, n: 1 });
    [
        at(replica, 0, Act::Merge),
        at(replica, 1, Act::Merge),
        at(replica, 0, Act::Lock),
        at(replica, 0, Act::Lock),
        at(replica, 1, Act::Lock),
        at(replica, 1, Act::Lock),
        at(replica, 1, Act::Begin(put)),
        at(replica, 1, Act::Finish(put)),
        at(replica, 1, Act::Begin(moved)),
        at(replica, 0, Act::Begin(moved)),
        delivery(first, 1),
        delivery(first, 2),
        at(replica, 0, Act::Finish(moved)),
        at(replica, 1, Act::Finish(moved)),
    ]
}

/// Adds the submissions, and what it takes to agree on both batches. Says how many packets are sent by then.
pub(crate) fn push_agreed(events: &mut Vec<KvEvent>) -> Result<usize, Fault> {
    events.extend_from_slice(&submissions())?;
    let mut first = 0;
    for group in 0..PARTITIONS {
        events.extend_from_slice(&agreement(Slot { epoch: 0, group }, first))?;
        first = first.saturating_add(OF_AGREEMENT);
    }
    Ok(first)
}

/// Adds the whole list.
fn push_all(events: &mut Vec<KvEvent>) -> Result<(), Fault> {
    let mut first = push_agreed(events)?;
    for replica in 0..REPLICAS {
        events.extend_from_slice(&execution(replica, first))?;
        first = first.saturating_add(OF_EXECUTION);
    }
    Ok(())
}

/// The whole list, of 78 events.
pub(crate) fn listed(alloc: Global) -> Result<Vec<KvEvent>, Fault> {
    let mut events = Vec::new(alloc);
    let pushed = push_all(&mut events);
    filled(events, pushed)
}
