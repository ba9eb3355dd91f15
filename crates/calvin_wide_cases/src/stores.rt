//! Stores of numbers by key, their requests, and what their callers are handed.
use crate::gates::Counting;
use calvin_app::{Answer, App, Kv, KvReply, KvRequest};
use calvin_book::StoreBook;
use calvin_types::{Config, Fault, KeySet, NodeId, RequestId, Sets, Txn};
use calvin_wide::{StoreWideCluster, WideAnswer, WideFounding, WideStopped, WideTicket};
use std::alloc::Global;
use std::fmt::Debug;
use std::process::Abort;
use std::sync::Wait;

pub(crate) type KvCluster<J> = StoreWideCluster<Kv, Counting, J>;

pub(crate) type KvStopped<J> = WideStopped<Kv, J>;

pub(crate) const DONE: Answer<KvReply> = Answer::Reply(KvReply::Done);

/// What a caller was handed of a request: its receipt, and once it is answered that of the answer.
#[derive(Drop)]
pub(crate) struct Handed<J: WideFounding> {
    pub ticket: WideTicket<Kv, J>,
    pub heard: Option<WideAnswer<Kv, J>>,
}

impl<J: WideFounding> Handed<J> {
    /// The answer, if there is one.
    pub fn answer(&self) -> Option<Answer<KvReply>> {
        match &self.heard {
            Some(answer) => Some(answer.replied().answer),
            None => None,
        }
    }
}

/// Node (r, p).
pub(crate) fn node(replica: u8, partition: u8) -> NodeId {
    NodeId { replica, partition }
}

/// A request with the sets that it needs where no row is known.
pub(crate) fn request(client: u32, number: u32, args: KvRequest) -> Txn<KvRequest> {
    let mut sets = Sets {
        reads: KeySet::new(),
        writes: KeySet::new(),
    };
    args.add_first_needs(&mut sets);
    Txn {
        id: RequestId { client, number },
        attempt: 1,
        args,
        sets,
    }
}

/// Client 7's request of a number puts a value under a key.
pub(crate) fn put(number: u32, key: u64, value: u64) -> Txn<KvRequest> {
    request(7, number, KvRequest::Put(key, value))
}

/// A book of new nodes.
pub(crate) fn new_book(
    alloc: Global,
    partitions: u8,
    replicas: u8,
) -> Result<StoreBook<Kv>, Fault> {
    let config = Config::new(partitions, replicas)?;
    StoreBook::<Kv>::new(alloc, &config, Kv)
}

/// Waits for the answer to a ticket's request.
pub(crate) fn hear<J: WideFounding, R: Wait>(
    rt: &R,
    cluster: &KvCluster<J>,
    ticket: WideTicket<Kv, J>,
) -> Result<Handed<J>, Fault> {
    match cluster.wait(rt, &ticket) {
        Ok(answer) => Ok(Handed {
            ticket,
            heard: Some(answer),
        }),
        Err(fault) => Err(fault),
    }
}

/// Submits a request at a node, and waits for its answer.
pub(crate) fn ask<J: WideFounding, R: Wait>(
    rt: &R,
    cluster: &KvCluster<J>,
    at: NodeId,
    txn: Txn<KvRequest>,
) -> Result<Handed<J>, Fault> {
    let ticket = cluster.submit(rt, at, txn)?;
    hear(rt, cluster, ticket)
}

/// What a call was refused with; none where it wasn't.
pub(crate) fn fault_of<T: Drop>(answer: Result<T, Fault>) -> Option<Fault> {
    match answer {
        Ok(_) => None,
        Err(fault) => Some(fault),
    }
}

/// Two values are the same; else the test fails, and shows both.
pub(crate) fn same<T: PartialEq + Debug + Drop>(rt: &impl Abort, found: T, wanted: T) {
    assert_eq!(rt; found, wanted);
}
