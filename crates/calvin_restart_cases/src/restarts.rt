//! After each event of the list, in a run of its own, each node in turn is restarted; the rest of the list follows, and then what
//! brings the nodes on.
use crate::checks::same;
use crate::listed::{KvEvent, KvWorld, PARTITIONS, REPLICAS, listed};
use crate::runs::{Ends, check_moved, check_safe, count};
use calvin_app::Kv;
use calvin_node::Act;
use calvin_sim_events::{Restarts, Schedule, bring_on};
use calvin_types::{Config, Fault, NodeId};
use calvin_world::Event;
use std::alloc::Global;
use std::process::Abort;
use std::test::Fail;

/// Which node restarts, and after the event of which number.
#[derive(Clone, Copy)]
struct Restart {
    id: NodeId,
    after: usize,
}

/// The list's events happen, and after the one of a number a node restarts. What is refused then is lost.
fn play(rt: &impl Abort, world: &mut KvWorld, events: &[KvEvent], restart: Restart) {
    for (number, event) in events.iter().enumerate() {
        let _outcome = world.step(event);
        if number == restart.after {
            let restarted = world.step(&Event::At(restart.id, Act::Restart));
            same(rt, (number, restarted), (number, Ok(())));
        }
    }
}

/// Packets are delivered and nodes work until nothing moves, as at the end of a simulation of so many epochs.
pub(crate) fn bring_to_end(
    rt: &impl Abort,
    alloc: Global,
    world: &mut KvWorld,
    epochs: u64,
) -> Result<(), Fault> {
    let config = Config::new(PARTITIONS, REPLICAS)?;
    let Some(schedule) = Schedule::new(1, 0, REPLICAS, Restarts::Never) else {
        panic!(rt; "no schedule");
    };
    bring_on(alloc, world, &config, epochs, &schedule)
}

/// A run with a restart in a new world: where the node isn't of replica 0 the end is that of the list alone.
fn run_with(
    rt: &impl Abort,
    alloc: Global,
    world: &mut KvWorld,
    events: &[KvEvent],
    restart: Restart,
    ends: &mut Ends,
) -> Result<(), Fault> {
    play(rt, world, events, restart);
    bring_to_end(rt, alloc, world, 1)?;
    check_safe(rt, world);
    if restart.id.replica == 0 {
        count(ends, world);
        return Ok(());
    }
    check_moved(rt, alloc, world)
}

/// Each event of the list takes effect in a new world, and they bring it to its end.
fn run_without(
    rt: &impl Abort,
    alloc: Global,
    world: &mut KvWorld,
    events: &[KvEvent],
) -> Result<(), Fault> {
    for (number, event) in events.iter().enumerate() {
        same(rt, (number, world.step(event)), (number, Ok(())));
    }
    check_safe(rt, world);
    check_moved(rt, alloc, world)
}

/// A run in a world of its own, with a restart or without.
fn run(
    rt: &impl Abort,
    alloc: Global,
    events: &[KvEvent],
    restart: Option<Restart>,
    ends: &mut Ends,
) -> Result<(), Fault> {
    let config = Config::new(PARTITIONS, REPLICAS)?;
    let mut world = KvWorld::new(alloc, &config, Kv)?;
    let checked = match restart {
        Some(restart) => run_with(rt, alloc, &mut world, events, restart, ends),
        None => run_without(rt, alloc, &mut world, events),
    };
    drop(world);
    checked
}

/// A node is restarted after each event, in a run of its own. Says how many runs that were.
fn restart_after_each(
    rt: &impl Abort,
    alloc: Global,
    events: &[KvEvent],
    id: NodeId,
    ends: &mut Ends,
) -> Result<usize, Fault> {
    let mut runs: usize = 0;
    for after in 0..events.len() {
        run(rt, alloc, events, Some(Restart { id, after }), ends)?;
        runs = runs.saturating_add(1);
    }
    Ok(runs)
}

/// The list alone, and then with each node in turn restarted. Says how many runs had a restart.
fn restart_each(
    rt: &impl Abort,
    alloc: Global,
    events: &[KvEvent],
    ends: &mut Ends,
) -> Result<usize, Fault> {
    run(rt, alloc, events, None, ends)?;
    let mut runs: usize = 0;
    for (replica, partition) in [(0, 0), (0, 1), (1, 0), (1, 1), (2, 0), (2, 1)] {
        let id = NodeId { replica, partition };
        let more = restart_after_each(rt, alloc, events, id, ends)?;
        runs = runs.saturating_add(more);
    }
    Ok(runs)
}

/// There are 78 events and six nodes, so 468 runs. Of those in which a node of replica 0 restarts, a queue is lost in two: node 0.0
/// restarts after one of the first two events. A closed batch is lost in 27: after the events 2 to 7 at node 0.0, and 3 to 23 at
/// node 0.1, before two nodes have promised to vote.
#[test]
fn restart_everywhere(rt: HostRuntime) -> Result<(), Fail> {
    let events = listed(rt.alloc())?;
    let mut ends = Ends {
        whole: 0,
        in_part: 0,
        unfinished: 0,
    };
    let runs = restart_each(&rt, rt.alloc(), &events, &mut ends);
    let number = events.len();
    drop(events);
    same(&rt, (number, runs?), (78, 468));
    let found = (ends.whole, ends.in_part, ends.unfinished);
    same(&rt, found, (127, 2, 27));
    Ok(())
}
