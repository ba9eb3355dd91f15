//! Sets that are looked for, and what a cluster does after `halt`.
use crate::running::{Calls, Case, ONE_NODE, run};
use crate::stores::{DONE, Handed, KvCluster, ask, fault_of, node, put, same, submit};
use calvin_app::{Kv, KvRequest};
use calvin_book::StoreBook;
use calvin_cluster::{Founding, Ticket};
use calvin_types::{Fault, Key, KeySet};
use std::alloc::Global;
use std::process::Abort;
use std::sync::Wait;
use std::test::Fail;

/// After a put of 5 under key 1 the sets of a request that follows key 1 have both keys. There is no second replica.
fn check_sets<J: Founding, R: Wait + Abort>(
    rt: &R,
    alloc: Global,
    cluster: &KvCluster<J>,
) -> Result<(), Fault> {
    let follow = KvRequest::Follow(1);
    let sets = cluster.sets(rt, alloc, 0, &follow)?;
    let keys = KeySet::from_slice(&[Key { table: 0, id: 1 }, Key { table: 0, id: 5 }])?;
    same(rt, sets.reads, keys);
    let beyond = fault_of(cluster.sets(rt, alloc, 1, &follow));
    same(rt, beyond, Some(Fault::NoNode));
    Ok(())
}

/// After `halt` every call is refused.
fn check_closed<J: Founding, R: Wait + Abort>(
    rt: &R,
    alloc: Global,
    cluster: &KvCluster<J>,
    ticket: &Ticket<Kv, J>,
) {
    let submitted = fault_of(submit(rt, cluster, node(0), put(3, 3, 5)));
    same(rt, submitted, Some(Fault::Closed));
    let found = fault_of(cluster.sets(rt, alloc, 0, &KvRequest::Follow(1)));
    same(rt, found, Some(Fault::Closed));
    let heard = fault_of(cluster.wait(rt, ticket));
    same(rt, heard, Some(Fault::Closed));
    same(rt, cluster.wait_all(rt, 0), Err(Fault::Closed));
}

/// A put is answered, sets are looked for, another put is submitted, and the cluster halts.
pub(crate) fn put_then_halt<J: Founding, R: Wait + Abort>(
    rt: &R,
    alloc: Global,
    cluster: &KvCluster<J>,
) -> Result<Vec<Handed<J>>, Fault> {
    let mut handed = Vec::with_capacity(alloc, 2)?;
    let first = ask(rt, cluster, node(0), put(1, 1, 5))?;
    same(rt, first.answer(), Some(DONE));
    handed.push(first)?;
    check_sets(rt, alloc, cluster)?;
    let ticket = submit(rt, cluster, node(0), put(2, 2, 5))?;
    cluster.halt(rt);
    check_closed(rt, alloc, cluster, &ticket);
    handed.push(Handed {
        ticket,
        heard: None,
    })?;
    Ok(handed)
}

/// The book has what was put.
pub(crate) fn check_halted(rt: &impl Abort, book: &StoreBook<Kv>) {
    let row = book.world().peek(0, &Key { table: 0, id: 1 });
    same(rt, row, Some(5));
}

#[test]
fn sets_then_halt(rt: HostRuntime) -> Result<(), Fail> {
    let case = Case {
        workers: 2,
        calls: Calls::PutThenHalt,
        ..ONE_NODE
    };
    Ok(run(rt, rt.alloc(), &case)?)
}
