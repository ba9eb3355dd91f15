//! What was told before, and what a cluster leaves.
use crate::running::{Calls, Case, ONE_NODE, run};
use crate::stores::{
    DONE, Handed, KvCluster, ask, ask_after, fault_of, new_book, node, put, same, submit,
};
use calvin_app::{Kv, KvRequest};
use calvin_book::StoreBook;
use calvin_cluster::Founding;
use calvin_node::Act;
use calvin_types::{Fault, Key, NodeId};
use calvin_world::Event;
use std::alloc::Global;
use std::process::Abort;
use std::sync::Wait;
use std::test::Fail;

/// A node that isn't there.
const NOBODY: NodeId = NodeId {
    replica: 0,
    partition: 1,
};

/// What happened in a book of one node before its cluster opened: a put was submitted, and its batch closed.
fn before() -> [Event<KvRequest>; 2] {
    [
        Event::At(node(0), Act::Submit(put(1, 1, 1))),
        Event::At(node(0), Act::Close),
    ]
}

/// Such a book.
pub(crate) fn begun_book(alloc: Global) -> Result<StoreBook<Kv>, Fault> {
    let mut book = new_book(alloc, 1, 1)?;
    for event in &before() {
        book.apply(event)?;
    }
    Ok(book)
}

/// The epoch that a caller had been told of when it submitted a request, and the one that its answer told.
fn epochs<J: Founding>(handed: &Handed<J>) -> (Option<u64>, Option<u64>) {
    let told = match &handed.heard {
        Some((_answer, told)) => told.epoch(),
        None => None,
    };
    (handed.ticket.submission().told, told)
}

/// What was submitted and closed before is run; each put of a caller stands in a later epoch than what it was told of.
pub(crate) fn put_after_told<J: Founding, R: Wait + Abort>(
    rt: &R,
    alloc: Global,
    cluster: &KvCluster<J>,
) -> Result<Vec<Handed<J>>, Fault> {
    cluster.wait_all(rt, 0)?;
    let mut handed = Vec::new(alloc);
    let mut last = ask(rt, cluster, node(0), put(2, 1, 2))?;
    same(rt, last.answer(), Some(DONE));
    same(rt, epochs(&last).0, None);
    for number in 3..5 {
        let (_, told) = epochs(&last);
        let next = ask_after(rt, cluster, &last, put(number, 1, u64::from(number)))?;
        let (before, after) = epochs(&next);
        same(rt, next.answer(), Some(DONE));
        same(rt, (before, before < after), (told, true));
        handed.push(last)?;
        last = next;
    }
    handed.push(last)?;
    let refused = fault_of(submit(rt, cluster, NOBODY, put(9, 1, 1)));
    same(rt, refused, Some(Fault::NoNode));
    Ok(handed)
}

/// What is left begins with what had happened before, goes on, and has what was put last.
pub(crate) fn check_told(rt: &impl Abort, book: &StoreBook<Kv>) {
    for (number, event) in before().iter().enumerate() {
        same(rt, book.events().get(number), Some(*event));
    }
    let row = book.world().peek(0, &Key { table: 0, id: 1 });
    same(rt, row, Some(4));
}

/// Each call is taken while requests are, also the submission of who was told of the last epoch.
pub(crate) fn call_each<J: Founding, R: Wait + Abort>(
    rt: &R,
    alloc: Global,
    cluster: &KvCluster<J>,
) -> Result<Vec<Handed<J>>, Fault> {
    let mut handed = Vec::with_capacity(alloc, 2)?;
    let first = ask(rt, cluster, node(0), put(1, 1, 5))?;
    let second = ask_after(rt, cluster, &first, put(2, 1, 6))?;
    let found = fault_of(cluster.sets(rt, alloc, 0, &KvRequest::Follow(1)));
    same(rt, found, None);
    same(rt, cluster.wait_all(rt, 0), Ok(()));
    handed.push(first)?;
    handed.push(second)?;
    Ok(handed)
}

#[test]
fn told_epochs(rt: HostRuntime) -> Result<(), Fail> {
    let case = Case {
        calls: Calls::PutAfterTold,
        runs: Some(4),
        ..ONE_NODE
    };
    Ok(run(rt, rt.alloc(), &case)?)
}

/// A cluster that always answers that a caller's epoch is stale, that it has halted or that it hasn't ended fails here.
#[test]
fn always_stale_or_closed(rt: HostRuntime) -> Result<(), Fail> {
    let case = Case {
        calls: Calls::CallEach,
        runs: Some(2),
        ..ONE_NODE
    };
    Ok(run(rt, rt.alloc(), &case)?)
}
