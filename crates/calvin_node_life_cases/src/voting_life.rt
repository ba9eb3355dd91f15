//! A life of the three replicas of one partition, in which what is refused for want of memory is tried again, as in that of two
//! partitions (`enduring`, which says how each allocation is refused). A node's number is its replica, and two of them
//! are a majority.
use crate::checks::{goes_on, holds, same};
use calvin_app::KvRequest;
use calvin_node::Act;
use calvin_node_lives::{Life, Nodes, Step, request};
use calvin_node_packets::Sent;
use calvin_synod::Message;
use calvin_types::{Ballot, Config, Fault, Place, Slot};
use std::alloc::Global;
use std::process::Abort;
use std::test::Fail;

/// What nodes 0, 1 and 2 have submitted.
const X: KvRequest = KvRequest::Put(1, 5);

const Y: KvRequest = KvRequest::Put(1, 6);

const Z: KvRequest = KvRequest::Put(2, 7);

/// The slots of the epochs 0, 1 and 2.
const FIRST: Slot = Slot { epoch: 0, group: 0 };

const SECOND: Slot = Slot { epoch: 1, group: 0 };

const THIRD: Slot = Slot { epoch: 2, group: 0 };

/// The ballot of a round and a replica.
fn at(round: u32, replica: u8) -> Ballot {
    Ballot { round, replica }
}

/// A node has sent the prepares of a ballot of its own, from this number on.
fn check_prepares(rt: &impl Abort, nodes: &Nodes, first: usize, slot: Slot, ballot: Ballot) {
    let letter = Message::Prepare { slot, ballot };
    let is_sent = nodes.has_told_all(first, ballot.replica, &letter);
    same(rt, (first, is_sent), (first, true));
}

/// Node 1 or 2 has refused a ballot for epoch 1, for a promise, to the replica of the ballot.
fn check_refused(
    rt: &impl Abort,
    nodes: &Nodes,
    number: usize,
    from: u8,
    ballot: Ballot,
    promise: Ballot,
) {
    let letter = Message::Refused {
        slot: SECOND,
        ballot,
        promise,
    };
    let is_sent = nodes.has_told(number, from, ballot.replica, &letter);
    same(rt, (number, is_sent), (number, true));
}

/// The ballot of the vote that the packet of a number reports, if it is a promise with one.
fn voted(nodes: &Nodes, number: usize) -> Option<Ballot> {
    match nodes.packets().sent(number) {
        Some(
            Sent::Synod(
                Message::Promise {
                    vote: Some(vote),
                    ..
                },
            ),
        ) => Some(vote.ballot),
        _ => None,
    }
}

/// Node 0 proposes X for epoch 0: prepares 0 to 2, promises 3 to 5, accepts 6 to 8, votes of replica 0: 9 to 11, of replica 1:
/// 12 to 14, of replica 2: 15 to 17. Nodes 0 and 2 come to hold X, and node 1 counts one vote.
fn vote_for_x(life: &mut Life, rt: &impl Abort) {
    goes_on(
        rt,
        life.act_all(
            0,
            &[Act::Submit(request(1, X)), Act::Close, Act::Propose(0)],
        ),
    );
    goes_on(rt, life.deliver(0, 5));
    goes_on(
        rt,
        life.refuse_all(&[(Step::Deliver(4), 21), (Step::Deliver(5), 21)]),
    );
    goes_on(rt, life.deliver(6, 10));
    goes_on(rt, life.refuse_all(&[(Step::Deliver(9), 22)]));
    goes_on(
        rt,
        life.endure_all(&[
            Step::Deliver(12),
            Step::Deliver(11),
            Step::Deliver(14),
            Step::Deliver(10),
        ]),
    );
    goes_on(
        rt,
        life.refuse_all(&[(Step::Deliver(15), 22), (Step::Deliver(10), 22)]),
    );
}

/// Node 1 begins a ballot for Y: prepares 18 to 20, promises 21 and 22 with the votes for X, accepts 23 to 25, votes of replica
/// 0: 26 to 28, of replica 2: 29 to 31. It comes to hold X, and Y is queued again.
fn vote_for_x_again(life: &mut Life, rt: &impl Abort) {
    goes_on(
        rt,
        life.endure_all(&[
            Step::Own(1, Act::Submit(request(2, Y))),
            Step::Own(1, Act::Close),
            Step::Own(1, Act::Propose(0)),
            Step::Deliver(18),
            Step::Deliver(20),
        ]),
    );
    goes_on(rt, life.deliver(21, 24));
    goes_on(
        rt,
        life.endure_all(&[Step::Deliver(25), Step::Deliver(27), Step::Deliver(30)]),
    );
    holds(rt, life.nodes().hold_same(0, 1, FIRST));
    holds(rt, life.nodes().hold_same(0, 2, FIRST));
    same(rt, life.nodes().queued(1), Some(1));
}

/// Two ballots for epoch 1. That of node 0, with round 2: prepares 32 to 34, promises 35 and 36. Node 2 knows of no round and
/// begins with 1: prepares 37 to 39, of which node 1 refuses one with packet 40. So it begins with round 3 and proposes Z:
/// prepares 41 to 43, promises 44 and 45, accepts 46 to 48.
fn contend(life: &mut Life, rt: &impl Abort) {
    goes_on(rt, life.act_all(0, &[Act::Close, Act::Propose(1)]));
    goes_on(rt, life.deliver(32, 34));
    goes_on(
        rt,
        life.endure_all(&[
            Step::Own(2, Act::Submit(request(3, Z))),
            Step::Own(2, Act::Close),
            Step::Own(2, Act::Propose(1)),
            Step::Deliver(38),
            Step::Deliver(40),
        ]),
    );
    check_prepares(rt, life.nodes(), 37, SECOND, at(1, 2));
    check_refused(rt, life.nodes(), 40, 1, at(1, 2), at(2, 0));
    goes_on(rt, life.refuse_all(&[(Step::Deliver(40), 21)]));
    goes_on(rt, life.act_all(2, &[Act::Propose(1)]));
    check_prepares(rt, life.nodes(), 41, SECOND, at(3, 2));
    goes_on(rt, life.deliver(42, 46));
}

/// Node 0's accepts come too late: of 49 to 51 node 1 refuses one with packet 52. Node 0 begins with round 4: prepares 53 to
/// 55. Node 2's accepts come before: votes of replica 1: 56 to 58, of replica 2: 59 to 61, and node 2 comes to hold Z. Node 0
/// is told so by a vote: promises 62 and 63, accepts 64 to 66, votes of replica 0: 67 to 69, of replica 1: 70 to 72.
fn give_way(life: &mut Life, rt: &impl Abort) {
    goes_on(rt, life.deliver(35, 37));
    goes_on(rt, life.endure_all(&[Step::Deliver(50), Step::Deliver(52)]));
    check_refused(rt, life.nodes(), 52, 1, at(2, 0), at(3, 2));
    goes_on(
        rt,
        life.endure_all(&[
            Step::Own(0, Act::Propose(1)),
            Step::Deliver(47),
            Step::Deliver(48),
            Step::Deliver(58),
            Step::Deliver(61),
        ]),
    );
    check_prepares(rt, life.nodes(), 53, SECOND, at(4, 0));
    goes_on(rt, life.deliver(53, 55));
    goes_on(rt, life.deliver(62, 66));
    goes_on(rt, life.endure_all(&[Step::Deliver(67), Step::Deliver(70)]));
    holds(rt, life.nodes().hold_same(0, 2, SECOND));
    same(rt, life.nodes().queued(2), Some(0));
}

/// Node 2 runs both epochs, with the replies 73 and 74, and takes a snapshot.
fn run_both(life: &mut Life, rt: &impl Abort) {
    goes_on(
        rt,
        life.endure_all(&[
            Step::Own(2, Act::Merge),
            Step::Own(2, Act::Merge),
            Step::Own(2, Act::Lock),
            Step::Own(2, Act::Lock),
            Step::Own(2, Act::Begin(Place { epoch: 0, n: 0 })),
            Step::Own(2, Act::Finish(Place { epoch: 0, n: 0 })),
            Step::Own(2, Act::Begin(Place { epoch: 1, n: 0 })),
            Step::Finish(2, Place { epoch: 1, n: 0 }),
            Step::Own(2, Act::Snapshot(1)),
        ]),
    );
}

/// Node 2 comes back with its rows, and is opened from its record. It still has its promise for epoch 1, with which it refuses
/// its own first ballot in packet 75; its vote, which it reports in packet 76; and the greatest round that it used, after
/// which it begins a ballot for epoch 2: prepares 77 to 79.
fn come_back(life: &mut Life, rt: &impl Abort) {
    goes_on(
        rt,
        life.endure_all(&[
            Step::Own(2, Act::Restart),
            Step::Reopen,
            Step::Deliver(39),
            Step::Deliver(55),
            Step::Own(2, Act::Submit(request(4, Y))),
            Step::Own(2, Act::Close),
            Step::Own(2, Act::Propose(2)),
        ]),
    );
    check_refused(rt, life.nodes(), 75, 2, at(1, 2), at(3, 2));
    let told = voted(life.nodes(), 76);
    same(rt, told, Some(at(3, 2)));
    check_prepares(rt, life.nodes(), 77, THIRD, at(4, 2));
    goes_on(
        rt,
        life.refuse_all(&[(Step::Deliver(75), 21), (Step::Deliver(76), 21)]),
    );
    same(rt, life.nodes().packets().len(), 80);
}

/// Node 2 stands at the end of epoch 1 with what was put.
fn check_end(rt: &impl Abort, nodes: &Nodes) {
    same(rt, nodes.stands(2), Some((Some(1), 2)));
    same(rt, nodes.row(2, 1), Some(5));
    same(rt, nodes.row(2, 2), Some(7));
}

/// What happens in the life.
fn live_through(life: &mut Life, rt: &impl Abort) {
    vote_for_x(life, rt);
    vote_for_x_again(life, rt);
    contend(life, rt);
    give_way(life, rt);
    run_both(life, rt);
    check_end(rt, life.nodes());
    come_back(life, rt);
    check_end(rt, life.nodes());
}

/// The life, with memory for so many packets at each event. Says how often memory was refused.
fn live(rt: &impl Abort, alloc: Global, room: usize) -> Result<usize, Fault> {
    let mut life = Life::open(alloc, Config::new(1, 3)?, room)?;
    live_through(&mut life, rt);
    Ok(life.end())
}

/// There is memory for no packet, and for the first of three.
#[test]
fn refused_once(rt: HostRuntime) -> Result<(), Fail> {
    for room in 0..2 {
        let _times = live(&rt, rt.alloc(), room)?;
    }
    Ok(())
}

#[test]
fn nothing_refused(rt: HostRuntime) -> Result<(), Fail> {
    for room in 0..2 {
        same(&rt, (room, live(&rt, rt.alloc(), room)?), (room, 0));
    }
    Ok(())
}
