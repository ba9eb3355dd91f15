//! A node is behind the other one of its replica: it gets rows for a request of an epoch that it hasn't merged.
use crate::checks::{filled, holds, same};
use crate::listed::{
    KvEvent, KvWorld, OF_AGREEMENT, PARTITIONS, REPLICAS, agreement, at, delivery, push_agreed,
    submission,
};
use crate::restarts::bring_to_end;
use crate::runs::check_end;
use calvin_app::{Kv, KvRequest};
use calvin_node::Act;
use calvin_node_packets::Sent;
use calvin_types::{Config, Fault, NodeId, Place, Slot};
use std::alloc::Global;
use std::process::Abort;
use std::test::Fail;

/// So many packets come last in what it takes to agree: they tell each node of partition 0 the batch of the other group.
const TELLING: usize = 3;

/// So many events come first in what it takes to agree, up to the votes.
const UP_TO_VOTES: usize = 7;

/// Both batches are agreed on, but partition 0 isn't told the one of the other group; then partition 1 of replica 0 puts the number,
/// and lets the move begin, whose rows it sends.
fn push_ahead(events: &mut Vec<KvEvent>) -> Result<(), Fault> {
    let (put, moved) = (Place { epoch: 0, n: 0 }, Place { epoch: 0, n: 1 });
    push_agreed(events)?;
    events.truncate(events.len().saturating_sub(TELLING));
    events.extend_from_slice(&[
        at(0, 1, Act::Merge),
        at(0, 1, Act::Lock),
        at(0, 1, Act::Lock),
        at(0, 1, Act::Begin(put)),
        at(0, 1, Act::Finish(put)),
        at(0, 1, Act::Begin(moved)),
    ])?;
    Ok(())
}

fn one_ahead(alloc: Global) -> Result<Vec<KvEvent>, Fault> {
    let mut events = Vec::new(alloc);
    let pushed = push_ahead(&mut events);
    filled(events, pushed)
}

/// A request is submitted, an epoch is closed for both groups, and the batch of the first group is agreed on, which has the request:
/// of the packets from a number on.
fn push_first(
    events: &mut Vec<KvEvent>,
    epoch: u64,
    submitted: KvEvent,
    first: usize,
) -> Result<(), Fault> {
    events.extend_from_slice(&[submitted, at(0, 0, Act::Close), at(0, 1, Act::Close)])?;
    events.extend_from_slice(&agreement(Slot { epoch, group: 0 }, first))?;
    Ok(())
}

/// The batch of a slot is agreed on: of the packets from a number on. The votes reach the node of replica 1 alone. Then that of
/// replica 0 asks it, and is told the batch.
fn push_asked(events: &mut Vec<KvEvent>, slot: Slot, first: usize) -> Result<(), Fault> {
    let of = NodeId {
        replica: 1,
        partition: slot.group,
    };
    let before_votes = events.len().saturating_add(UP_TO_VOTES);
    events.extend_from_slice(&agreement(slot, first))?;
    events.truncate(before_votes);
    events.extend_from_slice(&[
        delivery(first, 9),
        delivery(first, 12),
        at(0, slot.group, Act::AskForBatch(slot, of)),
        delivery(first, 15),
        delivery(first, 16),
    ])?;
    Ok(())
}

/// The put is agreed on in epoch 0, and the move in epoch 1, and partition 1 of replica 0 runs them as far as it can. Partition 0
/// isn't told the batches of the other group: that of epoch 0 is sent, but that of epoch 1 has to be asked for, since no votes
/// decided it at the node that would tell it.
fn push_two_ahead(events: &mut Vec<KvEvent>) -> Result<(), Fault> {
    let (put, moved) = (Place { epoch: 0, n: 0 }, Place { epoch: 1, n: 0 });
    let (told, asked) = (Slot { epoch: 0, group: 1 }, Slot { epoch: 1, group: 1 });
    push_first(events, 0, submission(1, KvRequest::Put(1, 10)), 0)?;
    events.extend_from_slice(&agreement(told, OF_AGREEMENT))?;
    events.truncate(events.len().saturating_sub(TELLING));
    push_first(
        events,
        1,
        submission(2, KvRequest::Move(1, 2, 4)),
        2 * OF_AGREEMENT,
    )?;
    push_asked(events, asked, 3 * OF_AGREEMENT)?;
    events.extend_from_slice(&[
        at(0, 1, Act::Merge),
        at(0, 1, Act::Merge),
        at(0, 1, Act::Lock),
        at(0, 1, Act::Lock),
        at(0, 1, Act::Begin(put)),
        at(0, 1, Act::Finish(put)),
        at(0, 1, Act::Begin(moved)),
    ])?;
    Ok(())
}

fn two_ahead(alloc: Global) -> Result<Vec<KvEvent>, Fault> {
    let mut events = Vec::new(alloc);
    let pushed = push_two_ahead(&mut events);
    filled(events, pushed)
}

/// Whether a node of partition 0 asked for rows.
fn is_asked_for_rows(world: &KvWorld) -> bool {
    let packets = world.packets();
    for number in 0..packets.len() {
        if let Some(Sent::AskReads(_)) = packets.sent(number)
            && packets.sender(number).partition == 0
        {
            return true;
        }
    }
    false
}

/// The events take effect, and what brings the nodes on to the end of so many epochs comes there, and partition 0 doesn't ask for
/// rows.
fn play(
    rt: &impl Abort,
    alloc: Global,
    world: &mut KvWorld,
    events: &[KvEvent],
    epochs: u64,
) -> Result<(), Fault> {
    for (number, event) in events.iter().enumerate() {
        same(rt, (number, world.step(event)), (number, Ok(())));
    }
    bring_to_end(rt, alloc, world, epochs)?;
    holds(rt, !is_asked_for_rows(world));
    Ok(())
}

/// The events take effect in a new world, which is brought on to the end of so many epochs. This is told then.
fn run(
    rt: &impl Abort,
    alloc: Global,
    events: &[KvEvent],
    epochs: u64,
    wanted: &str,
) -> Result<(), Fault> {
    let config = Config::new(PARTITIONS, REPLICAS)?;
    let mut world = KvWorld::new(alloc, &config, Kv)?;
    let played = play(rt, alloc, &mut world, events, epochs);
    let checked = match played {
        Ok(()) => check_end(rt, alloc, &world, wanted),
        Err(fault) => Err(fault),
    };
    drop(world);
    checked
}

/// Rows that come before their epoch is merged are taken once it is: nobody has to ask for them.
#[test]
fn rows_come_early(rt: HostRuntime) -> Result<(), Fail> {
    let events = one_ahead(rt.alloc())?;
    let wanted = "0.0 7:1 done\n0.1 7:2 done\nfinished 0\n";
    let run = run(&rt, rt.alloc(), &events, 1, wanted);
    drop(events);
    run?;
    Ok(())
}

/// The same where an epoch is merged between them and theirs.
#[test]
fn rows_come_two_epochs_early(rt: HostRuntime) -> Result<(), Fail> {
    let events = two_ahead(rt.alloc())?;
    let wanted = "0.0 7:1 done\n1.0 7:2 done\nfinished 1\n";
    let run = run(&rt, rt.alloc(), &events, 2, wanted);
    drop(events);
    run?;
    Ok(())
}
