//! The roles of one replica, with exact ballots and batches, and each call once with ample memory.
use crate::checks::{holds, same};
use calvin_synod::{Acceptor, Learner, Member, Message, Proposer, Recorded, Vote};
use calvin_types::{Ballot, Batch, Config, Fault, Slot};
use std::alloc::Global;
use std::process::Abort;
use std::test::Fail;

const SLOT: Slot = Slot { epoch: 3, group: 1 };

fn at(round: u32, replica: u8) -> Ballot {
    Ballot { round, replica }
}

fn vote(round: u32, replica: u8, batch: u32) -> Option<Vote<u32>> {
    Some(Vote {
        ballot: at(round, replica),
        batch,
    })
}

/// What a call gives, or the number of its refusal.
fn told<T>(answer: Result<T, Fault>) -> Result<T, u8> {
    match answer {
        Ok(value) => Ok(value),
        Err(fault) => Err(fault.number()),
    }
}

/// Asks for a promise, and compares what stands in its way.
fn prepares(rt: &impl Abort, acceptor: &mut Acceptor<u32>, ballot: Ballot, bar: Option<Ballot>) {
    same(rt, told(acceptor.prepare(SLOT, ballot)), Ok(bar));
}

/// Asks for a vote, and compares what stands in its way.
fn accepts(
    rt: &impl Abort,
    acceptor: &mut Acceptor<u32>,
    ballot: Ballot,
    batch: u32,
    bar: Option<Ballot>,
) {
    same(rt, told(acceptor.accept(SLOT, ballot, batch)), Ok(bar));
}

/// Compares what is recorded of the slot: the promise, and a vote for the batch.
fn records(rt: &impl Abort, acceptor: &Acceptor<u32>, promise: Ballot, vote: Option<Vote<u32>>) {
    let want = Recorded { promise, vote };
    holds(rt, acceptor.recorded(SLOT) == Some(&want));
}

#[test]
fn acceptor(rt: HostRuntime) {
    let mut acceptor: Acceptor<u32> = Acceptor::new(rt.alloc());
    holds(&rt, acceptor.recorded(SLOT).is_none());
    prepares(&rt, &mut acceptor, at(1, 1), None);
    prepares(&rt, &mut acceptor, at(1, 1), Some(at(1, 1)));
    prepares(&rt, &mut acceptor, at(1, 0), Some(at(1, 1)));
    accepts(&rt, &mut acceptor, at(1, 0), 7, Some(at(1, 1)));
    accepts(&rt, &mut acceptor, at(1, 1), 7, None);
    prepares(&rt, &mut acceptor, at(2, 0), None);
    records(&rt, &acceptor, at(2, 0), vote(1, 1, 7));
    accepts(&rt, &mut acceptor, at(3, 2), 8, None);
    records(&rt, &acceptor, at(3, 2), vote(3, 2, 8));
    holds(&rt, acceptor.recorded(Slot { group: 0, ..SLOT }).is_none());
    drop(acceptor);
}

fn proposer_of(alloc: Global, replicas: u8, greatest: u32) -> Result<Proposer<u32>, Fault> {
    Ok(Proposer::new(alloc, &Config::new(1, replicas)?, 2, greatest))
}

/// Begins a ballot for a batch, and compares its answer.
fn starts(rt: &impl Abort, proposer: &mut Proposer<u32>, batch: u32, want: Result<Ballot, u8>) {
    same(rt, told(proposer.start(SLOT, batch)), want);
}

/// Takes a promise, and compares the answer.
fn promises(
    rt: &impl Abort,
    proposer: &mut Proposer<u32>,
    from: u8,
    ballot: Ballot,
    vote: Option<Vote<u32>>,
    want: Result<Option<u32>, u8>,
) {
    same(
        rt,
        told(proposer.on_promise(from, SLOT, ballot, vote)),
        want,
    );
}

/// Takes a refusal, and compares the answer.
fn refused(rt: &impl Abort, proposer: &mut Proposer<u32>, promise: Ballot, want: Result<(), u8>) {
    same(rt, told(proposer.on_refused(promise)), want);
}

/// Compares the batch that a promise would make due.
fn owes(
    rt: &impl Abort,
    proposer: &Proposer<u32>,
    from: u8,
    ballot: Ballot,
    vote: Option<&Vote<u32>>,
    batch: u32,
) {
    holds(
        rt,
        told(proposer.due(from, SLOT, ballot, vote)) == Ok(Some(&batch)),
    );
}

/// No promise reports a vote.
fn none_reported(rt: &impl Abort, proposer: &mut Proposer<u32>) {
    let ballot = at(1, 2);
    same(rt, told(proposer.next_ballot()), Ok(ballot));
    starts(rt, proposer, 7, Ok(ballot));
    same(rt, proposer.greatest(), 1);
    promises(rt, proposer, 0, ballot, None, Ok(None));
    promises(rt, proposer, 0, ballot, None, Err(21));
    promises(rt, proposer, 1, at(1, 1), None, Err(21));
    promises(rt, proposer, 4, ballot, None, Ok(None));
    owes(rt, proposer, 3, ballot, None, 7);
    promises(rt, proposer, 3, ballot, None, Ok(Some(7)));
    promises(rt, proposer, 1, ballot, None, Err(21));
}

#[test]
fn own_batch_where_none_is_reported(rt: HostRuntime) -> Result<(), Fail> {
    let mut proposer = proposer_of(rt.alloc(), 5, 0)?;
    none_reported(&rt, &mut proposer);
    drop(proposer);
    Ok(())
}

/// Three promises that report votes at these rounds, each for a batch of the round's number.
fn highest_of(rt: &impl Abort, proposer: &mut Proposer<u32>, first: u32, second: u32, third: u32) {
    let ballot = at(11, 2);
    starts(rt, proposer, 7, Ok(ballot));
    promises(rt, proposer, 0, ballot, vote(first, 0, first), Ok(None));
    promises(rt, proposer, 1, ballot, vote(second, 0, second), Ok(None));
    let last = vote(third, 0, third);
    owes(rt, proposer, 2, ballot, last.as_ref(), 9);
    promises(rt, proposer, 2, ballot, last, Ok(Some(9)));
}

/// The highest vote reported, in whichever order the reports come.
#[test]
fn highest_vote_reported(rt: HostRuntime) -> Result<(), Fail> {
    for (first, second, third) in [
        (2, 5, 9),
        (2, 9, 5),
        (5, 2, 9),
        (5, 9, 2),
        (9, 2, 5),
        (9, 5, 2),
    ] {
        let mut proposer = proposer_of(rt.alloc(), 5, 10)?;
        highest_of(&rt, &mut proposer, first, second, third);
        drop(proposer);
    }
    Ok(())
}

/// Rounds that were refused, and the last ones.
fn count_rounds(rt: &impl Abort, proposer: &mut Proposer<u32>) {
    refused(rt, proposer, at(4, 9), Err(21));
    refused(rt, proposer, at(8, 0), Ok(()));
    refused(rt, proposer, at(8, 1), Err(21));
    same(rt, proposer.greatest(), 4);
    starts(rt, proposer, 7, Ok(at(9, 2)));
    starts(rt, proposer, 8, Ok(at(10, 2)));
    promises(rt, proposer, 0, at(9, 2), None, Err(21));
    promises(rt, proposer, 0, at(10, 2), None, Ok(Some(8)));
    refused(rt, proposer, at(4294967294, 0), Ok(()));
    starts(rt, proposer, 7, Ok(at(4294967295, 2)));
    starts(rt, proposer, 7, Err(20));
    same(rt, told(proposer.next_ballot()), Err(20));
}

#[test]
fn rounds(rt: HostRuntime) -> Result<(), Fail> {
    let mut proposer = proposer_of(rt.alloc(), 1, 4)?;
    count_rounds(&rt, &mut proposer);
    drop(proposer);
    Ok(())
}

/// Counts a vote for batch 7, and compares the answer.
fn counts(
    rt: &impl Abort,
    learner: &mut Learner,
    from: u8,
    slot: Slot,
    ballot: Ballot,
    want: Result<Option<u32>, u8>,
) {
    same(rt, told(learner.on_vote(from, slot, ballot, 7)), want);
}

#[test]
fn learner(rt: HostRuntime) -> Result<(), Fail> {
    let mut learner = Learner::new(rt.alloc(), &Config::new(1, 4)?);
    counts(&rt, &mut learner, 0, SLOT, at(1, 0), Ok(None));
    counts(&rt, &mut learner, 0, SLOT, at(1, 0), Err(22));
    counts(&rt, &mut learner, 0, SLOT, at(2, 0), Ok(None));
    counts(&rt, &mut learner, 1, SLOT, at(1, 0), Ok(None));
    same(&rt, told(learner.completes(2, SLOT, at(2, 0))), Ok(false));
    same(&rt, told(learner.completes(2, SLOT, at(1, 0))), Ok(true));
    counts(&rt, &mut learner, 2, SLOT, at(1, 0), Ok(Some(7)));
    counts(&rt, &mut learner, 3, SLOT, at(1, 0), Err(22));
    counts(&rt, &mut learner, 3, SLOT, at(2, 0), Err(22));
    let later = Slot { epoch: 4, ..SLOT };
    counts(&rt, &mut learner, 3, later, at(2, 0), Ok(None));
    drop(learner);
    Ok(())
}

/// Begins a ballot for batch 7, for which room was reserved.
fn starts_reserved(proposer: &mut Proposer<u32>, slot: Slot) -> Result<Ballot, Fault> {
    proposer.reserve_start()?;
    proposer.start(slot, 7)
}

/// Promises a ballot, and votes for batch 7 at it, for which room was reserved.
fn votes_reserved(
    rt: &impl Abort,
    acceptor: &mut Acceptor<u32>,
    slot: Slot,
    ballot: Ballot,
) -> Result<(), Fault> {
    acceptor.reserve_prepare()?;
    same(rt, told(acceptor.prepare(slot, ballot)), Ok(None));
    acceptor.reserve_accept()?;
    same(rt, told(acceptor.accept(slot, ballot, 7)), Ok(None));
    Ok(())
}

/// Counts the one vote that makes a majority, for which room was reserved.
fn learns_reserved(
    rt: &impl Abort,
    learner: &mut Learner,
    slot: Slot,
    ballot: Ballot,
) -> Result<(), Fault> {
    learner.reserve_on_vote()?;
    counts(rt, learner, 0, slot, ballot, Ok(Some(7)));
    Ok(())
}

/// Has batch 7 agreed on for a slot, by one replica of each role.
fn agrees(
    rt: &impl Abort,
    proposer: &mut Proposer<u32>,
    acceptor: &mut Acceptor<u32>,
    learner: &mut Learner,
    slot: Slot,
) -> Result<(), Fault> {
    let ballot = starts_reserved(proposer, slot)?;
    votes_reserved(rt, acceptor, slot, ballot)?;
    learns_reserved(rt, learner, slot, ballot)
}

#[test]
fn reserved(rt: HostRuntime) -> Result<(), Fail> {
    let config = Config::new(1, 1)?;
    let mut acceptor: Acceptor<u32> = Acceptor::new(rt.alloc());
    let mut proposer = Proposer::new(rt.alloc(), &config, 2, 0);
    let mut learner = Learner::new(rt.alloc(), &config);
    for epoch in 0..20 {
        let slot = Slot { epoch, group: 0 };
        let agreed = agrees(&rt, &mut proposer, &mut acceptor, &mut learner, slot);
        same(&rt, (epoch, agreed), (epoch, Ok(())));
    }
    drop(acceptor);
    drop(proposer);
    drop(learner);
    Ok(())
}

/// A member proposes an empty batch, promises this ballot, and counts the vote of replica 0 at it.
fn begin(alloc: Global, member: &mut Member<u64>, ballot: Ballot) -> Result<(), Fault> {
    let batch = Batch::new(alloc, Vec::new(alloc))?;
    member.propose(SLOT, batch.copy()?)?;
    member.take(2, Message::Prepare { slot: SLOT, ballot })?;
    member.take(
        0,
        Message::Accepted {
            slot: SLOT,
            ballot,
            batch,
        },
    )?;
    Ok(())
}

/// The number of the refusal of a packet's message, or 0 where it is taken.
fn refusal(member: &mut Member<u64>, from: u8, message: Message<Batch<u64>>) -> u8 {
    match member.take(from, message) {
        Ok(_taken) => 0,
        Err(fault) => fault.number(),
    }
}

/// A member that was opened goes on with its promise and above its round, and has counted nothing.
fn check_opened(rt: &impl Abort, opened: &mut Member<u64>, ballot: Ballot) {
    same(rt, told(opened.completes(0, SLOT, ballot)), Ok(false));
    let promise = opened.recorded(SLOT).map(|recorded| recorded.promise);
    same(rt, promise, Some(ballot));
    let refused = Message::Refused {
        slot: SLOT,
        ballot,
        promise: ballot,
    };
    same(rt, refusal(opened, 0, refused), 21);
}

/// Replica 2 of three is opened from its record.
#[test]
fn opened_from_a_record(rt: HostRuntime) -> Result<(), Fail> {
    let config = Config::new(1, 3)?;
    let ballot = at(1, 2);
    let mut member = Member::new(rt.alloc(), &config, 2);
    let begun = begin(rt.alloc(), &mut member, ballot);
    same(&rt, begun, Ok(()));
    same(&rt, told(member.completes(0, SLOT, ballot)), Err(22));
    same(&rt, told(member.completes(1, SLOT, ballot)), Ok(true));
    let mut opened = Member::from_record(rt.alloc(), &config, 2, member.into_record());
    check_opened(&rt, &mut opened, ballot);
    drop(opened);
    Ok(())
}

#[test]
fn messages(rt: HostRuntime) {
    let first: Message<u32> = Message::Prepare {
        slot: SLOT,
        ballot: at(1, 0),
    };
    let second = Message::Accept {
        slot: SLOT,
        ballot: at(1, 0),
        batch: 7,
    };
    holds(&rt, first != second);
}
