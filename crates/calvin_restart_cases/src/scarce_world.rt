//! Two worlds side by side, in which the events of the list happen, where what is refused for want of memory is tried once more: until
//! then the one is like the other. Each event is run as a list of its own, which takes memory for what comes of it. With ample
//! memory nothing is refused. `rt try --test --fail-alloc N` refuses the Nth allocation of a test: for each N, from 1 until
//! `nothing_refused` has passed for many in turn, `refused_once` has to pass (`tools/check_refusals`).
use crate::checks::{holds, same};
use crate::listed::{KvEvent, KvWorld, PARTITIONS, REPLICAS, key, listed};
use crate::runs::{KvNode, check_safe};
use calvin_app::Kv;
use calvin_store::Rows;
use calvin_types::{Config, Fault, Slot};
use calvin_world::Outcome;
use std::alloc::Global;
use std::process::Abort;
use std::test::Fail;

/// An event is run, and takes effect.
fn happen(world: &mut KvWorld, event: &KvEvent) -> Result<(), Fault> {
    let outcomes = world.run(&[*event])?;
    match outcomes.first() {
        Some(Outcome::Refused(fault)) => Err(*fault),
        _ => Ok(()),
    }
}

/// Two nodes tell the same of themselves.
fn check_nodes(rt: &impl Abort, one: &KvNode, other: &KvNode) {
    same(rt, one.next_epoch(), other.next_epoch());
    same(rt, one.queued(), other.queued());
    same(rt, one.first_ready(None), other.first_ready(None));
    same(rt, one.stands_at(), other.stands_at());
    same(rt, one.rows().len(), other.rows().len());
    for id in 1..3 {
        same(rt, one.rows().get(&key(id)), other.rows().get(&key(id)));
    }
    for group in 0..PARTITIONS {
        let slot = Slot { epoch: 0, group };
        holds(rt, one.held(slot) == other.held(slot));
    }
}

/// The worlds have sent as much, and their nodes tell the same.
fn check_alike(rt: &impl Abort, one: &KvWorld, other: &KvWorld) {
    same(rt, one.packets().len(), other.packets().len());
    for (node, beside) in one.nodes().iter().zip(other.nodes().iter()) {
        check_nodes(rt, node, beside);
    }
}

/// How an event ends, if not at once then with memory, and how often it was refused: where it is the world is like the other one.
fn happen_at_last(
    rt: &impl Abort,
    one: &mut KvWorld,
    other: &KvWorld,
    event: &KvEvent,
) -> (Result<(), Fault>, u32) {
    match happen(one, event) {
        Err(Fault::OutOfMemory) => {
            check_alike(rt, one, other);
            (happen(one, event), 1)
        }
        ended => (ended, 0),
    }
}

/// How the same event ends in the other one.
fn happen_beside(other: &mut KvWorld, event: &KvEvent) -> (Result<(), Fault>, u32) {
    match happen(other, event) {
        Err(Fault::OutOfMemory) => (happen(other, event), 1),
        ended => (ended, 0),
    }
}

/// The event of a number takes effect in both worlds. Says how often it was refused.
fn endure(
    rt: &impl Abort,
    one: &mut KvWorld,
    other: &mut KvWorld,
    number: usize,
    event: &KvEvent,
) -> u32 {
    let (ended, first) = happen_at_last(rt, one, other, event);
    same(rt, (number, ended), (number, Ok(())));
    let (ended, second) = happen_beside(other, event);
    same(rt, (number, ended), (number, Ok(())));
    check_alike(rt, one, other);
    first.saturating_add(second)
}

/// All events happen. Says how many calls were refused.
fn live(rt: &impl Abort, one: &mut KvWorld, other: &mut KvWorld, events: &[KvEvent]) -> u32 {
    let mut refused: u32 = 0;
    for (number, event) in events.iter().enumerate() {
        let more = endure(rt, one, other, number, event);
        refused = refused.saturating_add(more);
    }
    check_safe(rt, one);
    same(rt, one.peek(0, &key(1)), Some(6));
    refused
}

/// The list, made once more where that was refused, and how often it was.
fn listed_at_last(alloc: Global) -> Result<(Vec<KvEvent>, u32), Fault> {
    match listed(alloc) {
        Err(Fault::OutOfMemory) => Ok((listed(alloc)?, 1)),
        made => Ok((made?, 0)),
    }
}

/// A world of new nodes, opened once more where that was refused, and how often it was.
fn opened(alloc: Global) -> Result<(KvWorld, u32), Fault> {
    let config = Config::new(PARTITIONS, REPLICAS)?;
    match KvWorld::new(alloc, &config, Kv) {
        Err(Fault::OutOfMemory) => Ok((KvWorld::new(alloc, &config, Kv)?, 1)),
        made => Ok((made?, 0)),
    }
}

/// All events happen in a world and in a new one beside it.
fn live_beside(
    rt: &impl Abort,
    alloc: Global,
    one: &mut KvWorld,
    events: &[KvEvent],
) -> Result<u32, Fault> {
    let (mut other, first) = opened(alloc)?;
    let refused = live(rt, one, &mut other, events);
    drop(other);
    Ok(refused.saturating_add(first))
}

/// All events happen in two worlds.
fn live_twice(rt: &impl Abort, alloc: Global, events: &[KvEvent]) -> Result<u32, Fault> {
    let (mut one, first) = opened(alloc)?;
    let refused = live_beside(rt, alloc, &mut one, events);
    drop(one);
    Ok(refused?.saturating_add(first))
}

/// How many calls were refused.
fn endured(rt: &impl Abort, alloc: Global) -> Result<u32, Fault> {
    let (events, first) = listed_at_last(alloc)?;
    let refused = live_twice(rt, alloc, &events);
    drop(events);
    Ok(refused?.saturating_add(first))
}

#[test]
fn nothing_refused(rt: HostRuntime) -> Result<(), Fail> {
    same(&rt, endured(&rt, rt.alloc())?, 0);
    Ok(())
}

#[test]
fn refused_once(rt: HostRuntime) -> Result<(), Fail> {
    same(&rt, endured(&rt, rt.alloc())? <= 1, true);
    Ok(())
}
