//! What a book refuses. Nothing changes then, and the event is none of its events.
use crate::books::{FIRST, KvBook, NOBODY, NODE, computed, first_epoch, happen, one_node, request};
use crate::checks::same;
use crate::giving_back::give_back;
use calvin_app::KvRequest;
use calvin_node::Act;
use calvin_types::{Fault, KeySet, NodeId, Txn};
use calvin_world::Event;
use std::process::Abort;
use std::test::Fail;

/// How a submission ended.
fn ended(
    book: &mut KvBook,
    id: NodeId,
    txn: &Txn<KvRequest>,
    told: Option<u64>,
) -> Result<usize, Fault> {
    Ok(book.submit(id, *txn, told)?.number)
}

/// A new node's next epoch is 0, which is above no epoch; once epoch 0 is closed it is 1.
fn check_told(rt: &impl Abort, book: &mut KvBook) {
    let put = request(1, KvRequest::Put(1, 5));
    let stale = ended(book, NODE, &put, Some(0));
    same(rt, stale, Err(Fault::Stale));
    same(rt, book.events().len(), 0);
    happen(rt, book, &[Event::At(NODE, Act::Close)]);
    let stale = ended(book, NODE, &put, Some(1));
    same(rt, stale, Err(Fault::Stale));
    let taken = ended(book, NODE, &put, Some(0));
    same(rt, taken, Ok(1));
    same(rt, book.events().len(), 2);
}

#[test]
fn told_epochs(rt: HostRuntime) -> Result<(), Fail> {
    let mut book = one_node(rt.alloc())?;
    check_told(&rt, &mut book);
    give_back(book);
    Ok(())
}

/// Where the node isn't there nothing is asked of it; else what it refuses is refused.
fn check_submissions(rt: &impl Abort, book: &mut KvBook) {
    let put = request(1, KvRequest::Put(1, 5));
    let nobody = ended(book, NOBODY, &put, Some(9));
    same(rt, nobody, Err(Fault::NoNode));
    let late = Txn {
        attempt: 9,
        ..request(1, KvRequest::Put(1, 5))
    };
    let refused = ended(book, NODE, &late, None);
    same(rt, refused, Err(Fault::TooManyAttempts));
    let none = request(1, KvRequest::Get(KeySet::new()));
    let refused = ended(book, NODE, &none, None);
    same(rt, refused, Err(Fault::EmptySets));
    same(rt, book.events().len(), 0);
}

#[test]
fn submissions(rt: HostRuntime) -> Result<(), Fail> {
    let mut book = one_node(rt.alloc())?;
    check_submissions(&rt, &mut book);
    give_back(book);
    Ok(())
}

/// The other book has another put at the same place.
fn check_finishes(rt: &impl Abort, book: &mut KvBook, other: &mut KvBook) -> Result<(), Fault> {
    let _own = book.submit(NODE, request(1, KvRequest::Put(1, 5)), None)?;
    happen(rt, book, &first_epoch());
    let done = computed(book)?;
    let _theirs = other.submit(NODE, request(1, KvRequest::Put(1, 6)), None)?;
    let none_due = other.finish_with(NODE, &done);
    same(rt, none_due, Err(Fault::NotCollected));
    happen(rt, other, &first_epoch());
    same(rt, other.finish_with(NODE, &done), Err(Fault::StaleJob));
    same(rt, other.events().len(), 10);
    same(rt, book.finish_with(NOBODY, &done), Err(Fault::NoNode));
    same(rt, book.finish_with(NODE, &done), Ok(()));
    let again = book.finish_with(NODE, &done);
    same(rt, again, Err(Fault::NotCollected));
    same(rt, book.events().len(), 11);
    Ok(())
}

/// A job is taken once, at its own node, and where no other one is due at its place.
#[test]
fn finishes(rt: HostRuntime) -> Result<(), Fail> {
    let mut book = one_node(rt.alloc())?;
    let mut other = one_node(rt.alloc())?;
    let ended = check_finishes(&rt, &mut book, &mut other);
    give_back(other);
    give_back(book);
    Ok(ended?)
}

/// An event that is refused is none of the book's.
fn check_events(rt: &impl Abort, book: &mut KvBook) {
    same(rt, book.apply(&Event::Deliver(0)), Err(Fault::NoPacket));
    let begin = Event::At(NODE, Act::Begin(FIRST));
    same(rt, book.apply(&begin), Err(Fault::NotReady));
    let close = Event::At(NOBODY, Act::Close);
    same(rt, book.apply(&close), Err(Fault::NoNode));
    same(rt, book.job(NOBODY, FIRST).is_err(), true);
    same(rt, book.job(NODE, FIRST).is_err(), true);
    same(rt, book.events().len(), 0);
}

#[test]
fn events(rt: HostRuntime) -> Result<(), Fail> {
    let mut book = one_node(rt.alloc())?;
    check_events(&rt, &mut book);
    give_back(book);
    Ok(())
}
