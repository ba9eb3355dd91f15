//! Groups with exact packet numbers.
use crate::checks::{holds, same};
use calvin_synod::{Message, Recorded, Vote};
use calvin_synod_group::{Group, GroupEvent, Outcome, Packet};
use calvin_types::{Ballot, Batch, Config, Fault, KeySet, RequestId, Sets, Slot, Txn};
use std::alloc::Global;
use std::process::Abort;
use std::test::Fail;

const SLOT: Slot = Slot { epoch: 3, group: 1 };

/// A batch of one request.
pub(crate) fn batch_of(alloc: Global, number: u64) -> Result<Batch<u64>, Fault> {
    let mut txns = Vec::new(alloc);
    txns.push(Txn {
        id: RequestId {
            client: 1,
            number: 1,
        },
        attempt: 1,
        args: number,
        sets: Sets {
            reads: KeySet::new(),
            writes: KeySet::new(),
        },
    })?;
    Batch::new(alloc, txns)
}

/// The number of a batch of one request.
pub(crate) fn number_of(batch: &Batch<u64>) -> u64 {
    match batch.get(0) {
        Some(txn) => txn.args,
        None => 0,
    }
}

fn at(round: u32, replica: u8) -> Ballot {
    Ballot { round, replica }
}

fn group_of(alloc: Global, replicas: u8) -> Result<Group<u64>, Fault> {
    Group::new(alloc, &Config::new(1, replicas)?)
}

/// How one event ends: 0 for `Done`, 1000 and the batch's number for `Gave` of the slot, else the refusal's number.
fn end_of(group: &mut Group<u64>, event: GroupEvent<Batch<u64>>) -> Result<u64, Fault> {
    let outcomes = group.run(&[event])?;
    Ok(match outcomes.as_slice() {
        [Outcome::Done] => 0,
        [Outcome::Gave(slot, batch)] if *slot == SLOT => number_of(batch).saturating_add(1000),
        [Outcome::Refused(fault)] => fault.number() as u64,
        _ => 999,
    })
}

/// Delivers a packet, which ends so.
fn delivery_ends(
    rt: &impl Abort,
    group: &mut Group<u64>,
    number: usize,
    want: u64,
) -> Result<(), Fault> {
    let end = end_of(group, GroupEvent::Deliver(number))?;
    same(rt, (number, end), (number, want));
    Ok(())
}

/// Delivers packets in turn, each of which takes effect and gives no batch.
fn deliver(rt: &impl Abort, group: &mut Group<u64>, numbers: &[usize]) -> Result<(), Fault> {
    for number in numbers {
        delivery_ends(rt, group, *number, 0)?;
    }
    Ok(())
}

fn propose(
    rt: &impl Abort,
    group: &mut Group<u64>,
    replica: u8,
    batch: Batch<u64>,
) -> Result<(), Fault> {
    let end = end_of(group, GroupEvent::Propose(replica, SLOT, batch))?;
    same(rt, end, 0);
    Ok(())
}

/// Whether a packet is this message, from one replica to another.
fn is_sent(
    packet: Option<&Packet<Batch<u64>>>,
    from: u8,
    to: u8,
    message: &Message<Batch<u64>>,
) -> bool {
    match packet {
        Some(packet) => packet.from == from && packet.to == to && packet.message == *message,
        None => false,
    }
}

/// The packet of this number is this message, from one replica to another.
fn check_sent(
    rt: &impl Abort,
    group: &Group<u64>,
    number: usize,
    from: u8,
    to: u8,
    message: Message<Batch<u64>>,
) {
    let is_so = is_sent(group.packets().get(number), from, to, &message);
    same(rt, (number, is_so), (number, true));
}

/// The packets from this number on are this message, from one replica to each of three.
fn check_sent_to_all(
    rt: &impl Abort,
    group: &Group<u64>,
    first: usize,
    from: u8,
    message: Message<Batch<u64>>,
) {
    for to in 0..3 {
        let number = first.saturating_add(usize::from(to));
        let is_so = is_sent(group.packets().get(number), from, to, &message);
        same(rt, (number, is_so), (number, true));
    }
}

fn prepare(round: u32, replica: u8) -> Message<Batch<u64>> {
    Message::Prepare {
        slot: SLOT,
        ballot: at(round, replica),
    }
}

fn refused(round: u32, replica: u8, promise: Ballot) -> Message<Batch<u64>> {
    Message::Refused {
        slot: SLOT,
        ballot: at(round, replica),
        promise,
    }
}

fn promise(round: u32, replica: u8, vote: Option<Vote<Batch<u64>>>) -> Message<Batch<u64>> {
    Message::Promise {
        slot: SLOT,
        ballot: at(round, replica),
        vote,
    }
}

fn accept(round: u32, replica: u8, batch: Batch<u64>) -> Message<Batch<u64>> {
    Message::Accept {
        slot: SLOT,
        ballot: at(round, replica),
        batch,
    }
}

fn accepted(round: u32, replica: u8, batch: Batch<u64>) -> Message<Batch<u64>> {
    Message::Accepted {
        slot: SLOT,
        ballot: at(round, replica),
        batch,
    }
}

/// The events of a group of three up to the first vote: replica 0 votes for batch 7 at the ballot (1, 0).
fn up_to_the_vote(rt: &impl Abort, alloc: Global, group: &mut Group<u64>) -> Result<(), Fault> {
    propose(rt, group, 0, batch_of(alloc, 7)?)?;
    check_sent_to_all(rt, group, 0, 0, prepare(1, 0));
    deliver(rt, group, &[0, 1])?;
    check_sent(rt, group, 3, 0, 0, promise(1, 0, None));
    check_sent(rt, group, 4, 1, 0, promise(1, 0, None));
    deliver(rt, group, &[3, 4])?;
    check_sent_to_all(rt, group, 5, 0, accept(1, 0, batch_of(alloc, 7)?));
    deliver(rt, group, &[5])?;
    check_sent_to_all(rt, group, 8, 0, accepted(1, 0, batch_of(alloc, 7)?));
    same(rt, group.packets().len(), 11);
    Ok(())
}

/// Then replica 1 begins the ballot (1, 1) with batch 8, and replicas 0 and 1 promise it.
fn up_to_the_promises(rt: &impl Abort, alloc: Global, group: &mut Group<u64>) -> Result<(), Fault> {
    up_to_the_vote(rt, alloc, group)?;
    propose(rt, group, 1, batch_of(alloc, 8)?)?;
    check_sent_to_all(rt, group, 11, 1, prepare(1, 1));
    deliver(rt, group, &[11, 12])?;
    let vote = Vote {
        ballot: at(1, 0),
        batch: batch_of(alloc, 7)?,
    };
    check_sent(rt, group, 14, 0, 1, promise(1, 1, Some(vote)));
    check_sent(rt, group, 15, 1, 1, promise(1, 1, None));
    Ok(())
}

/// Then replica 1 counts both promises.
fn up_to_the_accepts(rt: &impl Abort, alloc: Global, group: &mut Group<u64>) -> Result<(), Fault> {
    up_to_the_promises(rt, alloc, group)?;
    deliver(rt, group, &[15, 14])?;
    check_sent_to_all(rt, group, 16, 1, accept(1, 1, batch_of(alloc, 7)?));
    same(rt, group.packets().len(), 19);
    Ok(())
}

#[test]
fn new_ballot_keeps_the_vote(rt: HostRuntime) -> Result<(), Fail> {
    let mut group = group_of(rt.alloc(), 3)?;
    let outcome = up_to_the_accepts(&rt, rt.alloc(), &mut group);
    drop(group);
    outcome?;
    Ok(())
}

/// Replica 1 promised the ballot (1, 1), and cast no vote.
fn check_promised(rt: &impl Abort, group: &Group<u64>) {
    let want = Recorded {
        promise: at(1, 1),
        vote: None,
    };
    holds(rt, group.recorded(1, SLOT) == Some(&want));
}

/// An accept of the first ballot comes to replica 1.
fn old_accept(rt: &impl Abort, alloc: Global, group: &mut Group<u64>) -> Result<(), Fault> {
    up_to_the_accepts(rt, alloc, group)?;
    check_promised(rt, group);
    deliver(rt, group, &[6])?;
    check_sent(rt, group, 19, 1, 0, refused(1, 0, at(1, 1)));
    same(rt, group.packets().len(), 20);
    check_promised(rt, group);
    Ok(())
}

#[test]
fn old_ballot_refused(rt: HostRuntime) -> Result<(), Fail> {
    let mut group = group_of(rt.alloc(), 3)?;
    let outcome = old_accept(&rt, rt.alloc(), &mut group);
    drop(group);
    outcome?;
    Ok(())
}

/// The first prepare comes again to replica 0, which has promised and voted.
fn prepare_after_the_vote(
    rt: &impl Abort,
    alloc: Global,
    group: &mut Group<u64>,
) -> Result<(), Fault> {
    up_to_the_vote(rt, alloc, group)?;
    deliver(rt, group, &[0])?;
    check_sent(rt, group, 11, 0, 0, refused(1, 0, at(1, 0)));
    Ok(())
}

/// The first prepare comes again to replica 0, which has promised and has yet to vote.
fn prepare_before_the_vote(
    rt: &impl Abort,
    alloc: Global,
    group: &mut Group<u64>,
) -> Result<(), Fault> {
    propose(rt, group, 0, batch_of(alloc, 7)?)?;
    deliver(rt, group, &[0, 1, 3, 4, 0])?;
    check_sent(rt, group, 8, 0, 0, refused(1, 0, at(1, 0)));
    deliver(rt, group, &[5])?;
    check_sent_to_all(rt, group, 9, 0, accepted(1, 0, batch_of(alloc, 7)?));
    Ok(())
}

#[test]
fn prepare_repeated(rt: HostRuntime) -> Result<(), Fail> {
    let mut group = group_of(rt.alloc(), 3)?;
    let outcome = prepare_after_the_vote(&rt, rt.alloc(), &mut group);
    drop(group);
    outcome?;
    let mut group = group_of(rt.alloc(), 3)?;
    let outcome = prepare_before_the_vote(&rt, rt.alloc(), &mut group);
    drop(group);
    outcome?;
    Ok(())
}

/// Prepares 0 and 1, promises 2 and 3, accepts 4 and 5, votes of replica 0: 6 and 7, of replica 1: 8 and 9.
fn majority_of_two(rt: &impl Abort, alloc: Global, group: &mut Group<u64>) -> Result<(), Fault> {
    propose(rt, group, 0, batch_of(alloc, 7)?)?;
    deliver(rt, group, &[0, 1, 2, 3, 4, 5, 6])?;
    for (number, end) in [(6, 22), (8, 1007), (8, 22)] {
        delivery_ends(rt, group, number, end)?;
    }
    Ok(())
}

/// Prepare 0, promise 1, accept 2, vote 3.
fn majority_of_one(rt: &impl Abort, alloc: Global, group: &mut Group<u64>) -> Result<(), Fault> {
    propose(rt, group, 0, batch_of(alloc, 7)?)?;
    deliver(rt, group, &[0, 1, 2])?;
    delivery_ends(rt, group, 3, 1007)
}

#[test]
fn majorities(rt: HostRuntime) -> Result<(), Fail> {
    let mut group = group_of(rt.alloc(), 2)?;
    let outcome = majority_of_two(&rt, rt.alloc(), &mut group);
    drop(group);
    outcome?;
    let mut group = group_of(rt.alloc(), 1)?;
    let outcome = majority_of_one(&rt, rt.alloc(), &mut group);
    drop(group);
    outcome?;
    Ok(())
}

/// Replica 1 restarts before its promises come.
fn restart_first(rt: &impl Abort, alloc: Global, group: &mut Group<u64>) -> Result<(), Fault> {
    up_to_the_promises(rt, alloc, group)?;
    same(rt, end_of(group, GroupEvent::Restart(1))?, 0);
    delivery_ends(rt, group, 15, 21)?;
    delivery_ends(rt, group, 14, 21)?;
    same(rt, group.packets().len(), 16);
    propose(rt, group, 1, batch_of(alloc, 8)?)?;
    check_sent(rt, group, 16, 1, 0, prepare(2, 1));
    Ok(())
}

#[test]
fn restart_before_promises(rt: HostRuntime) -> Result<(), Fail> {
    let mut group = group_of(rt.alloc(), 3)?;
    let outcome = restart_first(&rt, rt.alloc(), &mut group);
    drop(group);
    outcome?;
    Ok(())
}

/// Replicas and packets that aren't there.
fn refuse_unknown(rt: &impl Abort, alloc: Global, group: &mut Group<u64>) -> Result<(), Fault> {
    let batch = batch_of(alloc, 7)?;
    let end = end_of(group, GroupEvent::Propose(3, SLOT, batch))?;
    same(rt, end, 60);
    same(rt, end_of(group, GroupEvent::Restart(3))?, 60);
    delivery_ends(rt, group, 0, 61)?;
    propose(rt, group, 2, batch_of(alloc, 7)?)?;
    delivery_ends(rt, group, 2, 0)?;
    delivery_ends(rt, group, 4, 61)?;
    holds(rt, group.recorded(3, SLOT).is_none());
    Ok(())
}

#[test]
fn no_such(rt: HostRuntime) -> Result<(), Fail> {
    let mut group = group_of(rt.alloc(), 3)?;
    let outcome = refuse_unknown(&rt, rt.alloc(), &mut group);
    drop(group);
    outcome?;
    Ok(())
}
