//! A store over a book in which something happened before.
use crate::running::{Calls, Case, ONE_NODE, run};
use crate::stores::{DONE, Handed, KvCluster, ask, fault_of, new_book, node, put, same};
use calvin_app::{Kv, KvRequest};
use calvin_book::StoreBook;
use calvin_node::Act;
use calvin_types::{Fault, Key};
use calvin_wide::WideFounding;
use calvin_world::Event;
use std::alloc::Global;
use std::process::Abort;
use std::sync::Wait;
use std::test::Fail;

/// What happened in a book of one node before: a put was submitted, its batch closed and proposed, and a packet delivered.
fn before() -> [Event<KvRequest>; 4] {
    [
        Event::At(node(0, 0), Act::Submit(put(1, 1, 1))),
        Event::At(node(0, 0), Act::Close),
        Event::At(node(0, 0), Act::Propose(0)),
        Event::Deliver(0),
    ]
}

/// Such a book.
pub(crate) fn begun_book(alloc: Global) -> Result<StoreBook<Kv>, Fault> {
    let mut book = new_book(alloc, 1, 1)?;
    for event in &before() {
        book.apply(event)?;
    }
    Ok(book)
}

/// Each call is taken while requests are: the batch that was closed before is run, and a put after it.
pub(crate) fn call_each<J: WideFounding, R: Wait + Abort>(
    rt: &R,
    alloc: Global,
    cluster: &KvCluster<J>,
) -> Result<Vec<Handed<J>>, Fault> {
    let mut handed = Vec::with_capacity(alloc, 1)?;
    same(rt, cluster.wait_all(rt, 0), Ok(()));
    let second = ask(rt, cluster, node(0, 0), put(2, 1, 6))?;
    same(rt, second.answer(), Some(DONE));
    same(rt, cluster.wait_all(rt, 1), Ok(()));
    handed.push(second)?;
    let nobody = fault_of(cluster.submit(rt, node(0, 1), put(9, 1, 1)));
    same(rt, nobody, Some(Fault::NoNode));
    let nobody = fault_of(cluster.submit(rt, node(1, 0), put(9, 1, 1)));
    same(rt, nobody, Some(Fault::NoNode));
    Ok(handed)
}

/// The list begins with what had happened before, and what was put last is there.
pub(crate) fn check_begun(rt: &impl Abort, book: &StoreBook<Kv>) {
    for (number, event) in before().iter().enumerate() {
        same(rt, book.events().get(number), Some(*event));
    }
    let row = book.world().peek(0, &Key { table: 0, id: 1 });
    same(rt, row, Some(6));
}

/// A store that always answers that it has halted or that it hasn't ended fails here.
#[test]
fn always_closed(rt: HostRuntime) -> Result<(), Fail> {
    let case = Case {
        runs: Some(2),
        ..ONE_NODE
    };
    Ok(run(rt, rt.alloc(), &case)?)
}
