//! A life of a book of two nodes in which what is refused for want of memory is tried again: every event takes effect in it, also a
//! mark and a cooling, and a request is submitted, looked for, and run from outside. With ample memory nothing is refused.
//! `rt try --test --fail-alloc N` refuses the Nth allocation of a test: for each N, from 1 until `nothing_refused` has passed for
//! many in turn, `refused_once` has to pass (`tools/check_refusals`).
use crate::alike::is_alike;
use crate::books::{FIRST, KvBook, request};
use crate::checks::same;
use crate::giving_back::give_back;
use calvin_app::{Answer, Kv, KvReply, KvRequest};
use calvin_book::{Look, Submission};
use calvin_node::Act;
use calvin_types::{Config, Fault, Key, NodeId, Place, Slot};
use calvin_world::Event;
use std::alloc::Global;
use std::process::Abort;
use std::test::Fail;

/// The node of partition 0, which stores key 2, and that of partition 1, which stores key 1.
const ZERO: NodeId = NodeId {
    replica: 0,
    partition: 0,
};

const ONE: NodeId = NodeId {
    replica: 0,
    partition: 1,
};

const KEY: Key = Key { table: 0, id: 1 };

const SECOND: Place = Place { epoch: 1, n: 0 };

const DONE: Answer<KvReply> = Answer::Reply(KvReply::Done);

/// What happens in a life.
#[derive(Clone, Copy, Debug, PartialEq, Eq)]
enum Step {
    /// A node's own event,
    At(NodeId, Act<KvRequest>),
    /// a delivery,
    Deliver(usize),
    /// and the job at a place of a node is run outside the book and handed in.
    Run(NodeId, Place),
}

/// A step is taken.
fn take(book: &mut KvBook, step: &Step) -> Result<(), Fault> {
    match step {
        Step::At(id, act) => book.apply(&Event::At(*id, *act)),
        Step::Deliver(number) => book.apply(&Event::Deliver(*number)),
        Step::Run(id, place) => {
            let computed = book.job(*id, *place)?.compute(&Kv);
            book.finish_with(*id, &computed)
        }
    }
}

/// A step is taken, if not at once then with memory. Says how often it was refused.
fn take_at_last(rt: &impl Abort, book: &mut KvBook, step: &Step) -> u32 {
    let ended = take(book, step);
    if ended != Err(Fault::OutOfMemory) {
        same(rt, (*step, ended), (*step, Ok(())));
        return 0;
    }
    same(rt, (*step, take(book, step)), (*step, Ok(())));
    1
}

/// A step is taken in a book, if not at once then with memory: where it is refused the book is like another one in which it hasn't
/// been taken, and then like that one in which it has. Says how often it was refused in either.
fn endure(rt: &impl Abort, book: &mut KvBook, other: &mut KvBook, step: &Step) -> u32 {
    let ended = take(book, step);
    let mut refused = 0;
    if ended == Err(Fault::OutOfMemory) {
        same(rt, (*step, is_alike(book, other)), (*step, true));
        refused = 1;
        same(rt, (*step, take(book, step)), (*step, Ok(())));
    } else {
        same(rt, (*step, ended), (*step, Ok(())));
    }
    refused = take_at_last(rt, other, step).saturating_add(refused);
    same(rt, (*step, is_alike(book, other)), (*step, true));
    refused
}

fn endure_all(rt: &impl Abort, book: &mut KvBook, other: &mut KvBook, steps: &[Step]) -> u32 {
    let mut refused = 0;
    for step in steps {
        refused = endure(rt, book, other, step).saturating_add(refused);
    }
    refused
}

/// The packets from one number on and before another are delivered.
fn deliver(
    rt: &impl Abort,
    book: &mut KvBook,
    other: &mut KvBook,
    first: usize,
    last: usize,
) -> u32 {
    let mut refused = 0;
    for number in first..last {
        refused = endure(rt, book, other, &Step::Deliver(number)).saturating_add(refused);
    }
    refused
}

/// The put is submitted at node 0, behind a move that is held back for a closing. Packets 0 and 1 warm.
fn submit_both(
    rt: &impl Abort,
    book: &mut KvBook,
    other: &mut KvBook,
) -> Result<(Submission<KvRequest>, u32), Fault> {
    let moved = request(2, KvRequest::Move(1, 2, 4));
    let held_back = endure(rt, book, other, &Step::At(ZERO, Act::SubmitCold(moved)));
    let put = request(1, KvRequest::Put(1, 10));
    let (own, refused) = match book.submit(ZERO, put, None) {
        Err(Fault::OutOfMemory) => {
            same(rt, is_alike(book, other), true);
            (book.submit(ZERO, put, None)?, 1)
        }
        submitted => (submitted?, 0),
    };
    same(rt, (own.number, own.told), (1, None));
    let beside = take_at_last(rt, other, &Step::At(ZERO, Act::Submit(put)));
    same(rt, is_alike(book, other), true);
    Ok((
        own,
        held_back.saturating_add(refused).saturating_add(beside),
    ))
}

/// Epoch 0: packet 4 is the refusal of a prepare that came twice, 7 and 12 tell the decided batches, of which the latter is lost and
/// asked for.
fn agree_on_the_put(rt: &impl Abort, book: &mut KvBook, other: &mut KvBook) -> u32 {
    let closed = [Step::At(ZERO, Act::Close), Step::At(ZERO, Act::Propose(0))];
    let prepared = [Step::Deliver(2), Step::Deliver(2), Step::Deliver(3)];
    let closed_there = [Step::At(ONE, Act::Close), Step::At(ONE, Act::Propose(0))];
    let slot = Slot { epoch: 0, group: 1 };
    let asked = [Step::At(ZERO, Act::AskForBatch(slot, ONE))];
    deliver(rt, book, other, 0, 2)
        .saturating_add(endure_all(rt, book, other, &closed))
        .saturating_add(endure_all(rt, book, other, &prepared))
        .saturating_add(deliver(rt, book, other, 5, 8))
        .saturating_add(endure_all(rt, book, other, &closed_there))
        .saturating_add(deliver(rt, book, other, 8, 12))
        .saturating_add(endure_all(rt, book, other, &asked))
        .saturating_add(deliver(rt, book, other, 13, 15))
}

/// The put is run by node 1, whose reply is packet 15, over a point at the end of epoch 0, and node 0 passes over it. Snapshots are
/// taken, and the row goes to the cold table and comes back.
fn run_the_put(rt: &impl Abort, book: &mut KvBook, other: &mut KvBook) -> u32 {
    let steps = [
        Step::At(ZERO, Act::Merge),
        Step::At(ONE, Act::Merge),
        Step::At(ZERO, Act::Lock),
        Step::At(ONE, Act::Lock),
        Step::At(ONE, Act::Mark(0)),
        Step::At(ONE, Act::Begin(FIRST)),
        Step::Run(ONE, FIRST),
        Step::At(ZERO, Act::Snapshot(0)),
        Step::At(ONE, Act::Snapshot(0)),
        Step::At(ONE, Act::Cool(KEY)),
        Step::Deliver(1),
    ];
    endure_all(rt, book, other, &steps)
}

/// Epoch 1: the packets 16 to 20 and 21 to 25 are those of the two batches. Packet 26 brings node 1 its rows; 27, with those for
/// node 0, is lost, and they are asked for. The replies are packets 30 and 31.
fn run_the_move(rt: &impl Abort, book: &mut KvBook, other: &mut KvBook) -> u32 {
    let closed = [Step::At(ZERO, Act::Close), Step::At(ZERO, Act::Propose(1))];
    let closed_there = [Step::At(ONE, Act::Close), Step::At(ONE, Act::Propose(1))];
    let begun = [
        Step::At(ZERO, Act::Merge),
        Step::At(ONE, Act::Merge),
        Step::At(ZERO, Act::Lock),
        Step::At(ONE, Act::Lock),
        Step::At(ZERO, Act::Begin(SECOND)),
        Step::At(ONE, Act::Begin(SECOND)),
        Step::Deliver(26),
        Step::At(ZERO, Act::AskForReads(SECOND, 0)),
    ];
    let done = [
        Step::At(ZERO, Act::Finish(SECOND)),
        Step::Run(ONE, SECOND),
        Step::At(ZERO, Act::Snapshot(1)),
    ];
    endure_all(rt, book, other, &closed)
        .saturating_add(deliver(rt, book, other, 16, 21))
        .saturating_add(endure_all(rt, book, other, &closed_there))
        .saturating_add(deliver(rt, book, other, 21, 26))
        .saturating_add(endure_all(rt, book, other, &begun))
        .saturating_add(deliver(rt, book, other, 28, 30))
        .saturating_add(endure_all(rt, book, other, &done))
}

/// Node 1 comes back with the rows of epoch 0 and replays epoch 1: it asks node 0 for the batches with the packets 32 and 33, and
/// for rows with packet 37. Its rows for node 0 are packet 36, its reply packet 39.
fn come_back(rt: &impl Abort, book: &mut KvBook, other: &mut KvBook) -> u32 {
    let zero = Slot { epoch: 1, group: 0 };
    let one = Slot { epoch: 1, group: 1 };
    let asked = [
        Step::At(ONE, Act::Restart),
        Step::At(ONE, Act::AskForBatch(zero, ZERO)),
        Step::At(ONE, Act::AskForBatch(one, ZERO)),
    ];
    let begun = [
        Step::At(ONE, Act::Merge),
        Step::At(ONE, Act::Lock),
        Step::At(ONE, Act::Begin(SECOND)),
        Step::At(ONE, Act::AskForReads(SECOND, 0)),
    ];
    let done = [
        Step::At(ONE, Act::Finish(SECOND)),
        Step::At(ZERO, Act::Restart),
    ];
    endure_all(rt, book, other, &asked)
        .saturating_add(deliver(rt, book, other, 32, 36))
        .saturating_add(endure_all(rt, book, other, &begun))
        .saturating_add(deliver(rt, book, other, 37, 39))
        .saturating_add(endure_all(rt, book, other, &done))
}

/// What a look for the answer to a submission finds, as values that can be compared.
fn found(book: &KvBook, own: &Submission<KvRequest>) -> Option<(Place, Answer<KvReply>)> {
    match book.look(own, 0) {
        Look::Found(place, answer) => Some((place, answer)),
        Look::NotYet(_) => None,
    }
}

/// Both nodes stand at the end of epoch 1 with what was put and moved, and the put has its answer.
fn check_end(rt: &impl Abort, book: &KvBook, own: &Submission<KvRequest>) {
    for node in book.world().nodes() {
        same(rt, node.stands_at(), Some(1));
    }
    same(rt, book.world().peek(0, &Key { table: 0, id: 2 }), Some(4));
    same(rt, book.world().peek(0, &KEY), Some(6));
    same(rt, book.world().packets().len(), 40);
    same(rt, found(book, own), Some((FIRST, DONE)));
    same(rt, book.answer(own), Some(DONE));
}

/// Two epochs of two books side by side. Says how often memory was refused.
fn live_through(rt: &impl Abort, book: &mut KvBook, other: &mut KvBook) -> Result<u32, Fault> {
    let (own, at_submission) = submit_both(rt, book, other)?;
    let agreeing = agree_on_the_put(rt, book, other);
    same(rt, found(book, &own), None);
    let running = run_the_put(rt, book, other);
    same(rt, found(book, &own), Some((FIRST, DONE)));
    let moving = run_the_move(rt, book, other);
    let coming = come_back(rt, book, other);
    check_end(rt, book, &own);
    Ok(
        at_submission
            .saturating_add(agreeing)
            .saturating_add(running)
            .saturating_add(moving)
            .saturating_add(coming),
    )
}

/// A book of two new nodes, opened once more where that was refused, and how often it was.
fn opened(alloc: Global) -> Result<(KvBook, u32), Fault> {
    let config = Config::new(2, 1)?.with_delay(1)?;
    match KvBook::new(alloc, &config, Kv) {
        Err(Fault::OutOfMemory) => Ok((KvBook::new(alloc, &config, Kv)?, 1)),
        made => Ok((made?, 0)),
    }
}

/// The life. Says how often memory was refused.
fn live(rt: &impl Abort, alloc: Global) -> Result<u32, Fault> {
    let (mut book, first) = opened(alloc)?;
    let (mut other, second) = match opened(alloc) {
        Ok(made) => made,
        Err(fault) => {
            give_back(book);
            return Err(fault);
        }
    };
    let lived = live_through(rt, &mut book, &mut other);
    give_back(other);
    give_back(book);
    Ok(lived?.saturating_add(first).saturating_add(second))
}

#[test]
fn nothing_refused(rt: HostRuntime) -> Result<(), Fail> {
    same(&rt, live(&rt, rt.alloc())?, 0);
    Ok(())
}

#[test]
fn refused_once(rt: HostRuntime) -> Result<(), Fail> {
    same(&rt, live(&rt, rt.alloc())? <= 1, true);
    Ok(())
}
