//! Two replicas of two partitions. Key 2 is stored in partition 0, key 1 in partition 1.
use crate::checks::{act, check_stands, deliver, ends, number_of, same};
use crate::events::{KvWorld, end, finish, first_of, key, node, request, world_of};
use calvin_app::{Answer, KvReply, KvRequest};
use calvin_lock::{ListLocks, Locks, QueueLocks};
use calvin_node::Act;
use calvin_node_packets::Address;
use calvin_types::{NodeId, Place, RequestId, Slot};
use calvin_world::Event;
use std::process::Abort;
use std::test::Fail;

/// More packets than any case sends.
const MOST_PACKETS: usize = 1000;

/// The node that is restarted.
const LATE: NodeId = NodeId {
    replica: 1,
    partition: 0,
};

/// All nodes, replica by replica.
fn nodes() -> [NodeId; 4] {
    [node(0, 0), node(0, 1), node(1, 0), node(1, 1)]
}

/// Delivers all packets from a number on in turn, those too that are sent meanwhile. What is refused is lost.
fn settle<L: Locks + Drop>(world: &mut KvWorld<L>, first: usize) {
    for number in first..MOST_PACKETS {
        if number >= world.packets().len() {
            return;
        }
        let _outcome = world.step(&Event::Deliver(number));
    }
}

/// A request, with its number, is submitted at partition 0, and decided for an epoch with an empty batch of partition 1.
fn agree<L: Locks + Drop>(
    rt: &impl Abort,
    world: &mut KvWorld<L>,
    epoch: u64,
    number: u32,
    args: KvRequest,
) {
    let first = world.packets().len();
    act(
        rt,
        world,
        node(0, 0),
        &[Act::Submit(request(number, args)), Act::Close],
    );
    act(rt, world, node(0, 1), &[Act::Close]);
    for partition in 0..2 {
        act(rt, world, node(0, partition), &[Act::Propose(epoch)]);
    }
    settle(world, first);
}

/// The request of an epoch is run at all nodes that have a part in it.
fn run_epoch<L: Locks + Drop>(rt: &impl Abort, world: &mut KvWorld<L>, epoch: u64) {
    let first = world.packets().len();
    let place = first_of(epoch);
    for id in nodes() {
        act(rt, world, id, &[Act::Merge, Act::Lock]);
        let _begun = world.step(&Event::At(id, Act::Begin(place)));
    }
    settle(world, first);
    for id in nodes() {
        let _finished = finish(world, id, place);
    }
}

/// Number 10 is put under key 1 in epoch 0; 7 of it are moved to key 2 in epoch 1, and 2 more in epoch 2.
fn up_to_epoch_two<L: Locks + Drop>(rt: &impl Abort, world: &mut KvWorld<L>) {
    agree(rt, world, 0, 1, KvRequest::Put(1, 10));
    run_epoch(rt, world, 0);
    act(rt, world, LATE, &[Act::Snapshot(0)]);
    agree(rt, world, 1, 2, KvRequest::Move(1, 2, 7));
    run_epoch(rt, world, 1);
    agree(rt, world, 2, 3, KvRequest::Move(1, 2, 2));
    run_epoch(rt, world, 2);
    for id in nodes() {
        check_stands(rt, world, id, Some(2), 1);
    }
}

/// Both replicas have the rows that are left.
fn check_moved(rt: &impl Abort, world: &KvWorld<ListLocks>) {
    for replica in 0..2 {
        same(rt, world.peek(replica, &key(2)), Some(9));
        same(rt, world.peek(replica, &key(1)), Some(1));
    }
}

#[test]
fn moved_between_partitions(rt: HostRuntime) -> Result<(), Fail> {
    let mut world = world_of(rt.alloc(), 2, 2)?;
    up_to_epoch_two(&rt, &mut world);
    check_moved(&rt, &world);
    end(world);
    Ok(())
}

/// The late node asks its neighbour in replica 0 for the batches of an epoch.
fn ask_batches<L: Locks + Drop>(rt: &impl Abort, world: &mut KvWorld<L>, epoch: u64) {
    for group in 0..2 {
        let ask = Act::AskForBatch(Slot { epoch, group }, node(0, 0));
        act(rt, world, LATE, &[ask]);
    }
}

/// The late node begins the request at a place, asks replica 0 for the rows of partition 1, and runs it.
fn run_late<L: Locks + Drop>(rt: &impl Abort, world: &mut KvWorld<L>, place: Place) {
    act(rt, world, LATE, &[Act::Begin(place)]);
    let first = world.packets().len();
    ends(rt, finish(world, LATE, place), 44);
    act(rt, world, LATE, &[Act::AskForReads(place, 0)]);
    settle(world, first);
    ends(rt, finish(world, LATE, place), 0);
}

/// Whether the packet of a number, which is there, is the late node's reply to the move of this number in an epoch.
fn is_reply<L: Locks + Drop>(world: &KvWorld<L>, at: usize, epoch: u64, number: u32) -> bool {
    let packets = world.packets();
    at < packets.len()
        && packets.sender(at) == LATE
        && packets.address(at) == Some(Address::AtClient(7))
        && packets.reply(at) == Some((first_of(epoch), RequestId { client: 7, number }, 1))
        && packets.answer(at) == Some(Answer::Reply(KvReply::Done))
}

/// How often the late node replied to a move with the packets from one number on and before another.
fn times<L: Locks + Drop>(
    world: &KvWorld<L>,
    first: usize,
    last: usize,
    epoch: u64,
    number: u32,
) -> usize {
    let mut times: usize = 0;
    for i in 0..world.packets().len() {
        if first <= i && i < last && is_reply(world, i, epoch, number) {
            times = times.saturating_add(1);
        }
    }
    times
}

/// Each of the late node's replies was sent once before a packet, and once since.
fn check_replies<L: Locks + Drop>(rt: &impl Abort, world: &KvWorld<L>, first: usize) {
    for (epoch, number) in [(1, 2), (2, 3)] {
        let before = times(world, 0, first, epoch, number);
        let since = times(world, first, world.packets().len(), epoch, number);
        same(rt, (epoch, before, since), (epoch, 1, 1));
    }
}

/// The late node comes back with the rows of epoch 0, and replays the epochs that its neighbour tells it.
fn catch_up<L: Locks + Drop>(rt: &impl Abort, world: &mut KvWorld<L>) {
    up_to_epoch_two(rt, world);
    let first = world.packets().len();
    act(rt, world, LATE, &[Act::Restart]);
    check_stands(rt, world, LATE, Some(0), 0);
    ask_batches(rt, world, 1);
    ask_batches(rt, world, 2);
    settle(world, first);
    act(
        rt,
        world,
        LATE,
        &[Act::Merge, Act::Merge, Act::Lock, Act::Lock],
    );
    run_late(rt, world, first_of(1));
    run_late(rt, world, first_of(2));
    check_stands(rt, world, LATE, Some(2), 1);
    same(rt, world.peek(1, &key(2)), Some(9));
    check_replies(rt, world, first);
}

/// Partition 0 has begun and asks for the rows of partition 1, which has not begun: its question is refused, and nothing is
/// sent.
fn ask_before_it_begins(rt: &impl Abort, world: &mut KvWorld<ListLocks>) {
    let place = first_of(0);
    agree(rt, world, 0, 1, KvRequest::Move(1, 2, 7));
    for partition in 0..2 {
        act(rt, world, node(0, partition), &[Act::Merge, Act::Lock]);
    }
    act(
        rt,
        world,
        node(0, 0),
        &[Act::Begin(place), Act::AskForReads(place, 0)],
    );
    let asked = world.packets().len();
    ends(rt, world.step(&Event::Deliver(asked.saturating_sub(1))), 47);
    same(rt, world.packets().len(), asked);
}

#[test]
fn restart_and_catch_up(rt: HostRuntime) -> Result<(), Fail> {
    let mut listed: KvWorld<ListLocks> = world_of(rt.alloc(), 2, 2)?;
    catch_up(&rt, &mut listed);
    end(listed);
    let mut queued: KvWorld<QueueLocks> = world_of(rt.alloc(), 2, 2)?;
    catch_up(&rt, &mut queued);
    end(queued);
    let mut early = world_of(rt.alloc(), 2, 2)?;
    ask_before_it_begins(&rt, &mut early);
    end(early);
    Ok(())
}

/// The refusals of packets of a former life.
const KNOWN: [u8; 5] = [21, 22, 23, 43, 47];

/// Counts a refusal with which the delivery of a packet may end. None is counted where it takes effect.
fn count(rt: &impl Abort, number: usize, refusal: u8, refused: &mut [usize; 5]) {
    let mut is_known = refusal == 0;
    for (i, known) in KNOWN.iter().enumerate() {
        if refusal == *known {
            is_known = true;
            refused[i] = refused[i].saturating_add(1);
        }
    }
    same(rt, (number, refusal, is_known), (number, refusal, true));
}

/// Delivers once more what a node was sent before a packet, from the last one down, and counts what is refused.
fn deliver_again<L: Locks + Drop>(
    rt: &impl Abort,
    world: &mut KvWorld<L>,
    to: NodeId,
    last: usize,
    refused: &mut [usize; 5],
) {
    for done in 0..last {
        let number = last.saturating_sub(done).saturating_sub(1);
        let address = world.packets().address(number);
        if address.is_some_and(|address| address.is_for(to)) {
            let refusal = number_of(world.step(&Event::Deliver(number)));
            count(rt, number, refusal, refused);
        }
    }
}

/// Each node restarts, and is handed all that it was sent in its former life, which is packets of every kind, also what others
/// answered to those that were handed out again before.
fn live_again(rt: &impl Abort, world: &mut KvWorld<QueueLocks>) {
    up_to_epoch_two(rt, world);
    let first = world.packets().len();
    // Another prepare is refused, and batches and rows are asked for once more.
    deliver(rt, world, &[0]);
    act(rt, world, LATE, &[Act::Restart]);
    ask_batches(rt, world, 1);
    ask_batches(rt, world, 2);
    settle(world, first);
    act(rt, world, LATE, &[Act::Merge, Act::Lock]);
    run_late(rt, world, first_of(1));
    let mut refused = [0; 5];
    for id in nodes() {
        let last = world.packets().len();
        act(rt, world, id, &[Act::Restart]);
        deliver_again(rt, world, id, last, &mut refused);
    }
    for (i, times) in refused.iter().enumerate() {
        same(rt, (i, *times > 0), (i, true));
    }
}

#[test]
fn former_packets_again(rt: HostRuntime) -> Result<(), Fail> {
    let mut world = world_of(rt.alloc(), 2, 2)?;
    live_again(&rt, &mut world);
    end(world);
    Ok(())
}
