//! How the nodes of a group agree on a batch, with exact packet numbers. There is one partition. `new_ballot_keeps_the_vote` of
//! calvin_world says what each of the packets 0 to 18 is that the cases of three replicas begin with.
use crate::checks::{act, deliver, ends, holds, same};
use crate::events::{KvWorld, batch_of, end, node, request, world_of};
use crate::letters::{SLOT, accepted, check_letter, check_letters, prepare, promise, refused};
use calvin_app::KvRequest;
use calvin_lock::ListLocks;
use calvin_node::Act;
use calvin_types::{Batch, Fault};
use calvin_world::Event;
use std::alloc::Global;
use std::process::Abort;
use std::test::Fail;

/// What replica 0 has submitted, and what replica 1 has.
const X: KvRequest = KvRequest::Put(1, 5);

const Y: KvRequest = KvRequest::Put(1, 6);

/// A replica submits a request, closes and proposes epoch 0.
fn propose(
    rt: &impl Abort,
    world: &mut KvWorld<ListLocks>,
    replica: u8,
    number: u32,
    args: KvRequest,
) {
    let submit = Act::Submit(request(number, args));
    act(
        rt,
        world,
        node(replica, 0),
        &[submit, Act::Close, Act::Propose(0)],
    );
}

/// Of three replicas 0 proposes X, it and replica 1 promise, and it asks for votes: packets 5, 6 and 7.
fn up_to_the_accepts(rt: &impl Abort, world: &mut KvWorld<ListLocks>) {
    propose(rt, world, 0, 1, X);
    deliver(rt, world, &[0, 1, 3, 4]);
    same(rt, world.packets().len(), 8);
}

/// Then replica 0 votes, replica 1 proposes Y, both promise, and replica 1 asks for votes for X: packets 16, 17 and 18.
fn up_to_the_new_accepts(rt: &impl Abort, world: &mut KvWorld<ListLocks>) {
    up_to_the_accepts(rt, world);
    deliver(rt, world, &[5]);
    propose(rt, world, 1, 2, Y);
    deliver(rt, world, &[11, 12, 15, 14]);
    same(rt, world.packets().len(), 19);
}

/// The accept of an older ballot comes to replica 1, twice, and then the prepare of a newer one. What is recorded shows in what is
/// sent: the promise in the refusals, and in the next promise that there was no vote.
fn older_ballots(rt: &impl Abort, world: &mut KvWorld<ListLocks>) {
    up_to_the_new_accepts(rt, world);
    deliver(rt, world, &[6]);
    check_letter(rt, world, 19, 1, 0, refused(0, 1));
    deliver(rt, world, &[6]);
    act(rt, world, node(2, 0), &[Act::Close, Act::Propose(0)]);
    check_letter(rt, world, 20, 1, 0, refused(0, 1));
    check_letter(rt, world, 22, 2, 1, prepare(1, 2));
    deliver(rt, world, &[22]);
    check_letter(rt, world, 24, 1, 2, promise(1, 2));
    same(rt, world.packets().len(), 25);
}

#[test]
fn old_ballot_refused(rt: HostRuntime) -> Result<(), Fail> {
    let mut world = world_of(rt.alloc(), 1, 3)?;
    older_ballots(&rt, &mut world);
    end(world);
    Ok(())
}

/// The first prepare comes again to replica 0, which has promised and voted.
fn prepare_after_the_vote(rt: &impl Abort, world: &mut KvWorld<ListLocks>) {
    up_to_the_accepts(rt, world);
    deliver(rt, world, &[5, 0]);
    check_letter(rt, world, 11, 0, 0, refused(0, 0));
    same(rt, world.packets().len(), 12);
}

/// The first prepare comes again to replica 0, which has promised and has yet to vote.
fn prepare_before_the_vote(
    rt: &impl Abort,
    alloc: Global,
    world: &mut KvWorld<ListLocks>,
) -> Result<(), Fault> {
    up_to_the_accepts(rt, world);
    deliver(rt, world, &[0, 5]);
    check_letter(rt, world, 8, 0, 0, refused(0, 0));
    let vote = accepted(0, batch_of(alloc, request(1, X))?);
    check_letters(rt, world, 9, 0, vote);
    Ok(())
}

#[test]
fn prepare_repeated(rt: HostRuntime) -> Result<(), Fail> {
    let mut world = world_of(rt.alloc(), 1, 3)?;
    prepare_after_the_vote(&rt, &mut world);
    end(world);
    let mut world = world_of(rt.alloc(), 1, 3)?;
    let outcome = prepare_before_the_vote(&rt, rt.alloc(), &mut world);
    end(world);
    outcome?;
    Ok(())
}

/// A replica's node holds this batch for epoch 0, or none.
fn check_held(
    rt: &impl Abort,
    world: &KvWorld<ListLocks>,
    replica: u8,
    batch: Option<&Batch<KvRequest>>,
) {
    let held = world.node(node(replica, 0)).map(|node| node.held(SLOT));
    holds(rt, held == Some(batch));
}

/// Of two: prepares 0 and 1, promises 2 and 3, accepts 4 and 5, votes of replica 0: 6 and 7, of replica 1: 8 and 9.
fn of_two(rt: &impl Abort, alloc: Global, world: &mut KvWorld<ListLocks>) -> Result<(), Fault> {
    let batch = batch_of(alloc, request(1, X))?;
    propose(rt, world, 0, 1, X);
    deliver(rt, world, &[0, 1, 2, 3, 4, 5, 6]);
    check_held(rt, world, 0, None);
    ends(rt, world.step(&Event::Deliver(6)), 22);
    deliver(rt, world, &[8]);
    check_held(rt, world, 0, Some(&batch));
    ends(rt, world.step(&Event::Deliver(8)), 22);
    check_held(rt, world, 1, None);
    Ok(())
}

/// Of one: prepare 0, promise 1, accept 2, vote 3.
fn of_one(rt: &impl Abort, alloc: Global, world: &mut KvWorld<ListLocks>) -> Result<(), Fault> {
    let batch = batch_of(alloc, request(1, X))?;
    propose(rt, world, 0, 1, X);
    deliver(rt, world, &[0, 1, 2]);
    check_held(rt, world, 0, None);
    deliver(rt, world, &[3]);
    check_held(rt, world, 0, Some(&batch));
    same(rt, world.packets().len(), 4);
    Ok(())
}

#[test]
fn majorities(rt: HostRuntime) -> Result<(), Fail> {
    let mut two = world_of(rt.alloc(), 1, 2)?;
    let outcome = of_two(&rt, rt.alloc(), &mut two);
    end(two);
    outcome?;
    let mut one = world_of(rt.alloc(), 1, 1)?;
    let outcome = of_one(&rt, rt.alloc(), &mut one);
    end(one);
    outcome?;
    Ok(())
}
