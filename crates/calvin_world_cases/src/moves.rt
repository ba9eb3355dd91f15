//! Two partitions in three replicas: what is told, which rows the nodes end with, and what they sent.
use crate::checks::{holds, same};
use calvin_app::Kv;
use calvin_edge::{MemorySink, MemorySource};
use calvin_node_packets::Sent;
use calvin_sim::{Simulated, sim};
use calvin_sim_events::{Restarts, Schedule};
use calvin_store::Rows;
use calvin_types::{Key, NodeId, Place};
use calvin_world::StoreWorld;
use std::alloc::Global;
use std::process::Abort;

type KvWorld = StoreWorld<Kv>;

const REPLICAS: u8 = 3;

const SECOND: Place = Place { epoch: 0, n: 1 };

const MOVE: &str =
    r#"{"partitions":2,"app":"kv","epochs":[[{"group":0,"txns":[{"client":7,"number":1,"op":["put",1,10]},{"client":7,"number":2,"op":["move",1,2,4]}]}]]}"#;

const MOVED: &str = "0.0 7:1 done\n0.1 7:2 done\nfinished 0\n";

fn key(id: u64) -> Key {
    Key { table: 0, id }
}

/// A world in which a script was run, whose text is this one: a schedule from a start number, of so many events.
fn world_of(
    rt: &impl Abort,
    alloc: Global,
    start: u64,
    events: u32,
    restarts: Restarts,
    script: &str,
    text: &str,
) -> KvWorld {
    let Some(schedule) = Schedule::new(start, events, REPLICAS, restarts) else {
        panic!(rt; "no schedule");
    };
    let mut input = MemorySource::new(script.as_bytes());
    let mut output = MemorySink::new(alloc);
    let Ok(Simulated::Kv(world)) = sim(alloc, &schedule, &mut input, &mut output) else {
        panic!(rt; "the script was refused");
    };
    same(
        rt,
        (script, output.taken.as_slice() == text.as_bytes()),
        (script, true),
    );
    drop(output);
    world
}

/// The rows of keys 1 and 2 at every replica, and how many rows each node has.
fn ends_with(rt: &impl Abort, world: &KvWorld, first: Option<u64>, second: Option<u64>) {
    for replica in 0..REPLICAS {
        same(rt, world.peek(replica, &key(1)), first);
        same(rt, world.peek(replica, &key(2)), second);
        for (partition, row) in [(0, second), (1, first)] {
            let Some(node) = world.node(NodeId { replica, partition }) else {
                panic!(rt; "no node {replica}.{partition}");
            };
            same(rt, node.rows().len(), row.is_some() as usize);
        }
    }
}

/// Whether a node sent a reply for a place.
fn replied(world: &KvWorld, id: NodeId, place: Place) -> bool {
    let packets = world.packets();
    (0..packets.len()).any(|number| {
        number < packets.len()
            && packets.sender(number) == id
            && packets.reply(number).is_some_and(|reply| reply.0 == place)
    })
}

/// Whether a node sent the rows that it read for a place.
fn served(world: &KvWorld, id: NodeId, place: Place) -> bool {
    let packets = world.packets();
    for number in 0..packets.len() {
        if let Some(Sent::Reads(at, _)) = packets.sent(number) {
            if number < packets.len() && packets.sender(number) == id && at == place {
                return true;
            }
        }
    }
    false
}

/// The move was short: both rows are as they were, and every node replied.
fn check_short(rt: &impl Abort, world: &KvWorld) {
    ends_with(rt, world, Some(10), None);
    for replica in 0..REPLICAS {
        for partition in 0..2 {
            holds(rt, replied(world, NodeId { replica, partition }, SECOND));
        }
    }
}

/// In every replica the first partition replied, and the second one sent only the rows that it read.
fn check_passive(rt: &impl Abort, world: &KvWorld) {
    let first = Place { epoch: 0, n: 0 };
    for replica in 0..REPLICAS {
        let (active, passive) = (
            NodeId {
                replica,
                partition: 0,
            },
            NodeId {
                replica,
                partition: 1,
            },
        );
        holds(
            rt,
            replied(world, active, first) && !served(world, active, first),
        );
        holds(
            rt,
            served(world, passive, first) && !replied(world, passive, first),
        );
    }
}

/// How a world ends.
#[derive(Clone, Copy)]
enum End {
    Moved,
    Short,
    Passive,
}

/// A script is run in a world, under a schedule of 1,000 events from a start number: the text is this one, and the world ends
/// so.
fn check(
    rt: &impl Abort,
    alloc: Global,
    start: u64,
    restarts: Restarts,
    script: &str,
    text: &str,
    end: End,
) {
    let world = world_of(rt, alloc, start, 1000, restarts, script, text);
    match end {
        End::Moved => ends_with(rt, &world, Some(6), Some(4)),
        End::Short => check_short(rt, &world),
        End::Passive => check_passive(rt, &world),
    }
}

#[test]
fn move_across_partitions(rt: HostRuntime) {
    let restarts = Restarts::Never;
    check(&rt, rt.alloc(), 1, restarts, MOVE, MOVED, End::Moved);
}

#[test]
fn move_short(rt: HostRuntime) {
    let script =
        r#"{"partitions":2,"app":"kv","epochs":[[{"group":0,"txns":[{"client":7,"number":1,"op":["put",1,10]},{"client":7,"number":2,"op":["move",1,2,11]}]}]]}"#;
    let text = "0.0 7:1 done\n0.1 7:2 short\nfinished 0\n";
    let restarts = Restarts::Never;
    check(&rt, rt.alloc(), 1, restarts, script, text, End::Short);
}

#[test]
fn passive_partition(rt: HostRuntime) {
    let script =
        r#"{"partitions":2,"app":"kv","epochs":[[{"group":0,"txns":[{"client":7,"number":1,"op":["get",[2,3]]}]}]]}"#;
    let text = "0.0 7:1 none none\nfinished 0\n";
    let restarts = Restarts::Never;
    check(&rt, rt.alloc(), 1, restarts, script, text, End::Passive);
}

#[test]
fn sim_with_restarts(rt: HostRuntime) {
    for start in 1..51 {
        let restarts = Restarts::AboveReplicaZero;
        check(&rt, rt.alloc(), start, restarts, MOVE, MOVED, End::Moved);
    }
}

/// Whether a point is open at some node, and whether a row is cold at some node.
fn has_point_and_cold_row(world: &KvWorld) -> (bool, bool) {
    let (mut has_point, mut has_cold_row) = (false, false);
    for replica in 0..REPLICAS {
        for (partition, id) in [(0, 2), (1, 1)] {
            if let Some(node) = world.node(NodeId { replica, partition }) {
                let rows = node.rows();
                has_point = has_point || rows.marked().is_some();
                let has_row = rows.get(&key(id)).is_some();
                has_cold_row = has_cold_row || (has_row && !rows.is_hot(&key(id)));
            }
        }
    }
    (has_point, has_cold_row)
}

#[test]
fn sim_over_points_and_cold_rows(rt: HostRuntime) {
    let (mut has_point, mut has_cold_row) = (false, false);
    for start in 1..11 {
        let restarts = Restarts::AboveReplicaZero;
        let world = world_of(&rt, rt.alloc(), start, 3000, restarts, MOVE, MOVED);
        ends_with(&rt, &world, Some(6), Some(4));
        let (point, cold_row) = has_point_and_cold_row(&world);
        has_point = has_point || point;
        has_cold_row = has_cold_row || cold_row;
    }
    holds(&rt, has_point && has_cold_row);
}
