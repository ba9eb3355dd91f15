//! The roles of one replica in many slots, where what is refused for want of memory is asked for once more: until then they tell what
//! they told before. With ample memory nothing is refused. `rt try --test --fail-alloc N` refuses the Nth allocation of a test: for
//! each N, from 1 until `nothing_refused` has passed for many in turn, `refused_once` has to pass (`tools/check_refusals`).
use crate::checks::{holds, same};
use calvin_synod::{Acceptor, Learner, Proposer, Recorded, Vote};
use calvin_types::{Ballot, Config, Fault, Slot};
use std::alloc::Global;
use std::process::Abort;
use std::test::Fail;

/// So many slots have a role each.
const SLOTS: u32 = 12;

const BALLOT: Ballot = Ballot {
    round: 1,
    replica: 0,
};

fn slot(number: u32) -> Slot {
    Slot {
        epoch: u64::from(number),
        group: 0,
    }
}

/// What an acceptor has recorded of a slot in which it was asked for a promise, and of one in which it was asked for a vote.
fn recorded(number: u32) -> Recorded<u32> {
    let vote = if number % 2 == 0 {
        None
    } else {
        Some(Vote {
            ballot: BALLOT,
            batch: number,
        })
    };
    Recorded {
        promise: BALLOT,
        vote,
    }
}

/// An acceptor has recorded something of so many slots, and of no other one.
fn check_recorded(rt: &impl Abort, acceptor: &Acceptor<u32>, slots: u32) {
    for number in 0..SLOTS {
        let found = acceptor.recorded(slot(number));
        if number < slots {
            holds(rt, found == Some(&recorded(number)));
        } else {
            holds(rt, found.is_none());
        }
    }
}

/// An acceptor is asked for a promise in a slot of even number, and for a vote in one of odd number.
fn ask(acceptor: &mut Acceptor<u32>, number: u32) -> Result<Option<Ballot>, Fault> {
    if number % 2 == 0 {
        acceptor.prepare(slot(number), BALLOT)
    } else {
        acceptor.accept(slot(number), BALLOT, number)
    }
}

/// There comes to be room for that.
fn leave_room(acceptor: &mut Acceptor<u32>, number: u32) -> Result<(), Fault> {
    if number % 2 == 0 {
        acceptor.reserve_prepare()
    } else {
        acceptor.reserve_accept()
    }
}

/// An acceptor is asked in a slot, of the last ones only once there is room, if not at once then with memory. Says how often it was
/// refused.
fn endure_ask(rt: &impl Abort, acceptor: &mut Acceptor<u32>, number: u32) -> u32 {
    let mut refused: u32 = 0;
    if number > 5 && leave_room(acceptor, number) == Err(Fault::OutOfMemory) {
        check_recorded(rt, acceptor, number);
        refused = 1;
        same(rt, leave_room(acceptor, number), Ok(()));
    }
    let mut bar = ask(acceptor, number);
    if bar == Err(Fault::OutOfMemory) {
        check_recorded(rt, acceptor, number);
        refused = refused.saturating_add(1);
        bar = ask(acceptor, number);
    }
    same(rt, (number, bar), (number, Ok(None)));
    check_recorded(rt, acceptor, number.saturating_add(1));
    refused
}

fn endure_acceptor(rt: &impl Abort, acceptor: &mut Acceptor<u32>) -> u32 {
    let mut refused: u32 = 0;
    for number in 0..SLOTS {
        refused = refused.saturating_add(endure_ask(rt, acceptor, number));
    }
    refused
}

/// A proposer begins a ballot in a slot, if not at once then with memory: until then its greatest round stays as it was.
fn endure_start(rt: &impl Abort, proposer: &mut Proposer<u32>, number: u32) -> u32 {
    let mut refused: u32 = 0;
    if number > 5 && proposer.reserve_start() == Err(Fault::OutOfMemory) {
        same(rt, proposer.greatest(), number);
        refused = 1;
        same(rt, proposer.reserve_start(), Ok(()));
    }
    let mut begun = proposer.start(slot(number), number);
    if begun == Err(Fault::OutOfMemory) {
        same(rt, proposer.greatest(), number);
        refused = refused.saturating_add(1);
        begun = proposer.start(slot(number), number);
    }
    let ballot = Ballot {
        round: number.saturating_add(1),
        replica: 2,
    };
    same(rt, begun, Ok(ballot));
    check_due(rt, proposer, number, ballot);
    refused
}

/// Of three replicas' promises the second one makes the slot's own batch due.
fn check_due(rt: &impl Abort, proposer: &mut Proposer<u32>, number: u32, ballot: Ballot) {
    let slot = slot(number);
    same(rt, proposer.on_promise(0, slot, ballot, None), Ok(None));
    let due = proposer.on_promise(1, slot, ballot, None);
    same(rt, due, Ok(Some(number)));
}

fn endure_proposer(rt: &impl Abort, proposer: &mut Proposer<u32>) -> u32 {
    let mut refused: u32 = 0;
    for number in 0..SLOTS {
        refused = refused.saturating_add(endure_start(rt, proposer, number));
    }
    refused
}

/// A learner counts a replica's vote in a slot, if not at once then with memory: until then it would still be counted, and with it a
/// majority as before. The vote of replica 1 makes a majority.
fn endure_vote(rt: &impl Abort, learner: &mut Learner, from: u8, number: u32) -> u32 {
    let slot = slot(number);
    let wanted = if from == 0 { None } else { Some(number) };
    let mut refused: u32 = 0;
    if number > 5 && learner.reserve_on_vote() == Err(Fault::OutOfMemory) {
        same(rt, learner.completes(from, slot, BALLOT), Ok(from > 0));
        refused = 1;
        same(rt, learner.reserve_on_vote(), Ok(()));
    }
    let mut given = learner.on_vote(from, slot, BALLOT, number);
    if given == Err(Fault::OutOfMemory) {
        same(rt, learner.completes(from, slot, BALLOT), Ok(from > 0));
        refused = refused.saturating_add(1);
        given = learner.on_vote(from, slot, BALLOT, number);
    }
    same(rt, (number, given), (number, Ok(wanted)));
    let again = learner.completes(from, slot, BALLOT);
    same(rt, (number, again), (number, Err(Fault::Known)));
    refused
}

fn endure_learner(rt: &impl Abort, learner: &mut Learner) -> u32 {
    let mut refused: u32 = 0;
    for from in 0..2 {
        for number in 0..SLOTS {
            refused = refused.saturating_add(endure_vote(rt, learner, from, number));
        }
    }
    refused
}

/// How many calls were refused.
fn endured(rt: &impl Abort, alloc: Global) -> Result<u32, Fault> {
    let config = Config::new(1, 3)?;
    let mut acceptor = Acceptor::new(alloc);
    let at_acceptor = endure_acceptor(rt, &mut acceptor);
    drop(acceptor);
    let mut proposer = Proposer::new(alloc, &config, 2, 0);
    let at_proposer = endure_proposer(rt, &mut proposer);
    drop(proposer);
    let mut learner = Learner::new(alloc, &config);
    let at_learner = endure_learner(rt, &mut learner);
    drop(learner);
    Ok(
        at_acceptor
            .saturating_add(at_proposer)
            .saturating_add(at_learner),
    )
}

#[test]
fn nothing_refused(rt: HostRuntime) -> Result<(), Fail> {
    same(&rt, endured(&rt, rt.alloc())?, 0);
    Ok(())
}

#[test]
fn refused_once(rt: HostRuntime) -> Result<(), Fail> {
    same(&rt, endured(&rt, rt.alloc())? <= 1, true);
    Ok(())
}
