//! What holds at the end of a run.
use crate::checks::{filled, holds, same};
use crate::listed::{KvWorld, PARTITIONS, REPLICAS, key};
use calvin_app::{Kv, KvRequest};
use calvin_lock::QueueLocks;
use calvin_node::Node;
use calvin_report::{Epochs, finished, push_replies, replies_of};
use calvin_store::{ColdRows, Rows};
use calvin_text::push_last;
use calvin_types::{Batch, Fault, Slot};
use std::alloc::Global;
use std::process::Abort;

pub(crate) type KvNode = Node<Kv, QueueLocks, ColdRows<u64>>;

/// What is told of the two requests.
const MOVED: &str = "0.0 7:1 done\n0.1 7:2 done\nfinished 0\n";

/// Adds the replies of the epochs at whose end every node stands, and the last of them.
fn push_told(text: &mut Vec<u8>, alloc: Global, world: &KvWorld) -> Result<(), Fault> {
    let last = finished(world);
    let replies = replies_of(alloc, world.packets())?;
    let pushed = push_replies(text, &replies, Epochs::UpTo(last));
    drop(replies);
    pushed?;
    push_last(text, last)?;
    Ok(())
}

fn told(alloc: Global, world: &KvWorld) -> Result<Vec<u8>, Fault> {
    let mut text = Vec::new(alloc);
    let pushed = push_told(&mut text, alloc, world);
    filled(text, pushed)
}

/// Both requests are told to be done, and the rows are what they leave.
pub(crate) fn check_moved(rt: &impl Abort, alloc: Global, world: &KvWorld) -> Result<(), Fault> {
    check_end(rt, alloc, world, MOVED)
}

/// This is told, and the rows are what both requests leave.
pub(crate) fn check_end(
    rt: &impl Abort,
    alloc: Global,
    world: &KvWorld,
    wanted: &str,
) -> Result<(), Fault> {
    let text = told(alloc, world)?;
    same(rt, text.as_slice(), wanted.as_bytes());
    drop(text);
    for replica in 0..REPLICAS {
        same(rt, world.peek(replica, &key(1)), Some(6));
        same(rt, world.peek(replica, &key(2)), Some(4));
    }
    Ok(())
}

/// The numbers under keys 1 and 2, where there are some.
#[derive(Clone, Copy)]
struct Numbers {
    first: Option<u64>,
    second: Option<u64>,
}

/// So much moves from key 1 to key 2, unless there is less.
fn move_some(numbers: &mut Numbers, amount: u64) {
    let Some(held) = numbers.first else {
        return;
    };
    if held >= amount {
        let moved = numbers.second.unwrap_or(0);
        numbers.first = Some(held.saturating_sub(amount));
        numbers.second = Some(moved.saturating_add(amount));
    }
}

/// One of the two requests is run.
fn run_request(numbers: &mut Numbers, request: &KvRequest) {
    match request {
        KvRequest::Put(1, value) => numbers.first = Some(*value),
        KvRequest::Move(1, 2, amount) => move_some(numbers, *amount),
        _ => {}
    }
}

/// A batch of them is run.
fn run_batch(numbers: &mut Numbers, batch: &Batch<KvRequest>) {
    for txn in batch.as_slice() {
        run_request(numbers, &txn.args);
    }
}

/// The numbers that a node's merged order leaves, where it holds the batches of both groups.
fn merged(node: &KvNode) -> Option<Numbers> {
    let first = node.held(Slot { epoch: 0, group: 0 })?;
    let second = node.held(Slot { epoch: 0, group: 1 })?;
    let mut numbers = Numbers {
        first: None,
        second: None,
    };
    run_batch(&mut numbers, first);
    run_batch(&mut numbers, second);
    Some(numbers)
}

/// A standing node has the row of its merged order, and no other one: partition 0 stores key 2, and partition 1 key 1.
fn check_rows(rt: &impl Abort, node: &KvNode) {
    let Some(numbers) = merged(node) else {
        panic!(rt; "a node stands without batches");
    };
    let (stored, wanted) = match node.id().partition {
        0 => (key(2), numbers.second),
        _ => (key(1), numbers.first),
    };
    same(rt, node.rows().get(&stored), wanted);
    same(rt, node.rows().len(), wanted.is_some() as usize);
}

/// No other node holds another batch for a slot than a node does.
fn check_batch(rt: &impl Abort, world: &KvWorld, node: &KvNode, slot: Slot) {
    let Some(batch) = node.held(slot) else {
        return;
    };
    for other in world.nodes() {
        if let Some(beside) = other.held(slot) {
            holds(rt, batch == beside);
        }
    }
}

/// No two nodes hold different batches for a slot.
fn check_batches(rt: &impl Abort, world: &KvWorld, slot: Slot) {
    for node in world.nodes() {
        check_batch(rt, world, node, slot);
    }
}

/// What holds whichever node was restarted: no two nodes hold different batches, and each node that stands has the rows of its merged
/// order.
pub(crate) fn check_safe(rt: &impl Abort, world: &KvWorld) {
    for group in 0..PARTITIONS {
        check_batches(rt, world, Slot { epoch: 0, group });
    }
    for node in world.nodes() {
        if node.stands_at().is_some() {
            check_rows(rt, node);
        }
    }
}

/// How runs ended.
#[derive(Clone, Copy)]
pub(crate) struct Ends {
    /// Every node stands, and both requests are in the order,
    pub(crate) whole: usize,
    /// every node stands, and a request was lost that was queued,
    pub(crate) in_part: usize,
    /// and some node doesn't stand, since a batch was lost that was closed and not decided.
    pub(crate) unfinished: usize,
}

/// How many requests the first node holds for the first group, if it holds a batch.
fn first_held(world: &KvWorld) -> Option<usize> {
    let node = world.nodes().first()?;
    let batch = node.held(Slot { epoch: 0, group: 0 })?;
    Some(batch.len())
}

/// Counts how a run ended.
pub(crate) fn count(ends: &mut Ends, world: &KvWorld) {
    if finished(world).is_none() {
        ends.unfinished = ends.unfinished.saturating_add(1);
    } else if first_held(world) == Some(2) {
        ends.whole = ends.whole.saturating_add(1);
    } else {
        ends.in_part = ends.in_part.saturating_add(1);
    }
}
