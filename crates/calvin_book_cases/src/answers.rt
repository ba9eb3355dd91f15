//! From a submission to its answer.
use crate::books::{FIRST, KvBook, NODE, computed, first_epoch, happen, one_node, request};
use crate::checks::same;
use crate::giving_back::give_back;
use calvin_app::{Answer, KvReply, KvRequest};
use calvin_book::{Look, Submission};
use calvin_types::{Fault, Key, Place};
use std::process::Abort;
use std::test::Fail;

const DONE: Answer<KvReply> = Answer::Reply(KvReply::Done);

/// What a look found, as values that can be compared.
fn shown(look: Look<KvReply>) -> (Option<(Place, Answer<KvReply>)>, Option<usize>) {
    match look {
        Look::Found(place, answer) => (Some((place, answer)), None),
        Look::NotYet(from) => (None, Some(from)),
    }
}

/// A put is submitted and run; its answer is found by its own submission and by no other one. The four packets before it are the
/// node's messages to itself by which the batch is agreed on.
fn check_answered(rt: &impl Abort, book: &mut KvBook) -> Result<(), Fault> {
    let put = request(1, KvRequest::Put(1, 5));
    let own = book.submit(NODE, put, None)?;
    same(rt, (own.number, own.told), (0, None));
    same(rt, shown(book.look(&own, 0)), (None, Some(0)));
    happen(rt, book, &first_epoch());
    same(rt, shown(book.look(&own, 0)), (None, Some(4)));
    same(rt, book.answer(&own), None);
    let done = computed(book)?;
    book.finish_with(NODE, &done)?;
    same(rt, book.events().len(), 11);
    same(rt, book.answer(&own), Some(DONE));
    same(rt, shown(book.look(&own, 4)), (Some((FIRST, DONE)), None));
    same(rt, book.world().peek(0, &Key { table: 0, id: 1 }), Some(5));
    check_others(rt, book, &own);
    Ok(())
}

/// No other submission is answered: of the next event, of another request, and of no event.
fn check_others(rt: &impl Abort, book: &KvBook, own: &Submission<KvRequest>) {
    let next = Submission { number: 1, ..*own };
    same(rt, book.answer(&next), None);
    let txn = request(2, KvRequest::Put(1, 5));
    same(rt, book.answer(&Submission { txn, ..*own }), None);
    let beyond = Submission { number: 11, ..*own };
    same(rt, book.answer(&beyond), None);
}

#[test]
fn answered(rt: HostRuntime) -> Result<(), Fail> {
    let mut book = one_node(rt.alloc())?;
    let ended = check_answered(&rt, &mut book);
    give_back(book);
    Ok(ended?)
}

/// Who hadn't been told of an epoch is told of the place's; who had been told of a later one is told of that again.
#[test]
fn told(rt: HostRuntime) {
    let place = Place { epoch: 3, n: 0 };
    for (before, now) in [(None, 3), (Some(4), 4), (Some(2), 3)] {
        let submission = Submission {
            number: 0,
            node: NODE,
            txn: request(1, KvRequest::Put(1, 5)),
            told: before,
        };
        same(&rt, submission.answered(place, DONE).told, now);
    }
}
