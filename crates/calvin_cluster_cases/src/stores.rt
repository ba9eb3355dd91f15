//! Stores of numbers by key, their requests, and what their callers are handed.
use crate::gates::Counting;
use calvin_app::{Answer, App, Kv, KvReply, KvRequest};
use calvin_book::StoreBook;
use calvin_cluster::{Founding, Stopped, StoreCluster, Ticket, Told};
use calvin_lock::QueueLocks;
use calvin_store::ColdRows;
use calvin_types::{Config, Fault, KeySet, NodeId, RequestId, Sets, Txn};
use std::alloc::Global;
use std::fmt::Debug;
use std::process::Abort;
use std::sync::Wait;

pub(crate) type KvCluster<J> = StoreCluster<Kv, Counting, J>;

pub(crate) type KvStopped<J> = Stopped<Kv, QueueLocks, ColdRows<<Kv as App>::Row>, J>;

pub(crate) const DONE: Answer<KvReply> = Answer::Reply(KvReply::Done);

/// What a caller was handed of a request: its receipt, and once it is answered the answer and what that tells.
#[derive(Drop)]
pub(crate) struct Handed<J: Founding> {
    pub ticket: Ticket<Kv, J>,
    pub heard: Option<(Answer<KvReply>, Told<Kv, J>)>,
}

impl<J: Founding> Handed<J> {
    /// The answer, if there is one.
    pub fn answer(&self) -> Option<Answer<KvReply>> {
        match &self.heard {
            Some((answer, _told)) => Some(*answer),
            None => None,
        }
    }
}

/// Node (0, p).
pub(crate) fn node(partition: u8) -> NodeId {
    NodeId {
        replica: 0,
        partition,
    }
}

/// A request with the sets that it needs where no row is known.
pub(crate) fn request(client: u32, number: u32, args: KvRequest) -> Txn<KvRequest> {
    let mut sets = Sets {
        reads: KeySet::new(),
        writes: KeySet::new(),
    };
    args.add_first_needs(&mut sets);
    Txn {
        id: RequestId { client, number },
        attempt: 1,
        args,
        sets,
    }
}

/// Client 7's request of a number puts a value under a key.
pub(crate) fn put(number: u32, key: u64, value: u64) -> Txn<KvRequest> {
    request(7, number, KvRequest::Put(key, value))
}

/// A book of new nodes.
pub(crate) fn new_book(
    alloc: Global,
    partitions: u8,
    replicas: u8,
) -> Result<StoreBook<Kv>, Fault> {
    let config = Config::new(partitions, replicas)?;
    StoreBook::<Kv>::new(alloc, &config, Kv)
}

/// Submits a request at a node for a caller that was told nothing.
pub(crate) fn submit<J: Founding, R: Wait>(
    rt: &R,
    cluster: &KvCluster<J>,
    at: NodeId,
    txn: Txn<KvRequest>,
) -> Result<Ticket<Kv, J>, Fault> {
    cluster.submit(rt, &Told::new(), at, txn)
}

/// Waits for the answer to a ticket's request.
pub(crate) fn hear<J: Founding, R: Wait>(
    rt: &R,
    cluster: &KvCluster<J>,
    ticket: Ticket<Kv, J>,
) -> Result<Handed<J>, Fault> {
    match cluster.wait(rt, &ticket) {
        Ok(heard) => Ok(Handed {
            ticket,
            heard: Some(heard),
        }),
        Err(fault) => Err(fault),
    }
}

/// Submits a request at a node for a caller that was told nothing, and waits for its answer.
pub(crate) fn ask<J: Founding, R: Wait>(
    rt: &R,
    cluster: &KvCluster<J>,
    at: NodeId,
    txn: Txn<KvRequest>,
) -> Result<Handed<J>, Fault> {
    let ticket = submit(rt, cluster, at, txn)?;
    hear(rt, cluster, ticket)
}

/// Submits a request at node (0, 0) with what a caller was told by another one, and waits for its answer.
pub(crate) fn ask_after<J: Founding, R: Wait>(
    rt: &R,
    cluster: &KvCluster<J>,
    before: &Handed<J>,
    txn: Txn<KvRequest>,
) -> Result<Handed<J>, Fault> {
    let ticket = match &before.heard {
        Some((_answer, told)) => cluster.submit(rt, told, node(0), txn)?,
        None => submit(rt, cluster, node(0), txn)?,
    };
    hear(rt, cluster, ticket)
}

/// What a call was refused with; none where it wasn't.
pub(crate) fn fault_of<T: Drop>(answer: Result<T, Fault>) -> Option<Fault> {
    match answer {
        Ok(_) => None,
        Err(fault) => Some(fault),
    }
}

/// Two values are the same; else the test fails, and shows both.
pub(crate) fn same<T: PartialEq + Debug + Drop>(rt: &impl Abort, found: T, wanted: T) {
    assert_eq!(rt; found, wanted);
}
