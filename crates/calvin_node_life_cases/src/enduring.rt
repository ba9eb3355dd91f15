//! A life of the two partitions of a replica, in which what is refused for want of memory is tried again. Here and in the life
//! of three replicas (`voting_life`) every message and every event has effect, those at a majority and those below it,
//! but two: plain rows have no points and no cold table, so a mark (56) and a row that is to cool (55, 57) are refused. With
//! ample memory nothing else is. `rt try --test --fail-alloc N` refuses the Nth allocation of a test: for each N, from 1 until
//! `nothing_refused` has passed for many in turn, `refused_once` has to pass (`tools/check_refusals`).
use crate::checks::{goes_on, same};
use calvin_app::KvRequest;
use calvin_node::Act;
use calvin_node_lives::{Life, Nodes, Step, key, request};
use calvin_types::{Config, Fault, KeySet, NodeId, Place, Slot};
use std::alloc::Global;
use std::process::Abort;
use std::test::Fail;

/// The two nodes, which have the numbers of their partitions. Key 2 is stored at node 0, key 1 at node 1.
const NODES: [NodeId; 2] = [
    NodeId {
        replica: 0,
        partition: 0,
    },
    NodeId {
        replica: 0,
        partition: 1,
    },
];

/// What is put in epoch 0, and what is moved in epoch 1: node 0 takes the move before, and holds it back for a closing.
const PUT: KvRequest = KvRequest::Put(1, 10);

const MOVE: KvRequest = KvRequest::Move(1, 2, 4);

/// Where they are run.
const FIRST: Place = Place { epoch: 0, n: 0 };

const SECOND: Place = Place { epoch: 1, n: 0 };

fn slot(epoch: u64, group: u8) -> Slot {
    Slot { epoch, group }
}

/// A request that declares no key.
fn without_keys() -> KvRequest {
    KvRequest::Get(KeySet::new())
}

/// What comes too early, or has no node, group, replica or key.
fn too_early(life: &mut Life, rt: &impl Abort) {
    goes_on(
        rt,
        life.refuse_all(&[
            (Step::Own(0, Act::Submit(request(1, without_keys()))), 31),
            (
                Step::Own(0, Act::SubmitCold(request(1, without_keys()))),
                31,
            ),
            (Step::Own(0, Act::Propose(0)), 35),
            (Step::Own(0, Act::Merge), 34),
            (Step::Own(0, Act::Lock), 48),
            (Step::Own(0, Act::Begin(FIRST)), 41),
            (Step::Finish(0, FIRST), 41),
            (Step::Own(0, Act::Finish(FIRST)), 41),
            (Step::Own(0, Act::Snapshot(0)), 50),
            (Step::Own(0, Act::AskForReads(FIRST, 0)), 43),
            (Step::Own(0, Act::AskForReads(FIRST, 1)), 60),
            (Step::Own(0, Act::AskForBatch(slot(0, 2), NODES[1])), 60),
            (Step::Own(0, Act::Mark(0)), 56),
            (Step::Own(0, Act::Cool(key(2))), 55),
        ]),
    );
}

/// Epoch 0: the packets 0 and 1 warm, 4 is the refusal of a prepare that came twice, 7 and 12 tell the decided batches, of
/// which the latter is lost and asked for.
fn agree_on_the_put(life: &mut Life, rt: &impl Abort) {
    goes_on(
        rt,
        life.act_all(
            0,
            &[
                Act::SubmitCold(request(2, MOVE)),
                Act::Submit(request(1, PUT)),
            ],
        ),
    );
    goes_on(rt, life.deliver(0, 2));
    goes_on(rt, life.act_all(0, &[Act::Close, Act::Propose(0)]));
    goes_on(
        rt,
        life.endure_all(&[Step::Deliver(2), Step::Deliver(2), Step::Deliver(3)]),
    );
    goes_on(
        rt,
        life.refuse_all(&[(Step::Deliver(3), 21), (Step::Deliver(4), 21)]),
    );
    goes_on(rt, life.deliver(5, 8));
    goes_on(rt, life.act_all(1, &[Act::Close, Act::Propose(0)]));
    goes_on(rt, life.deliver(8, 12));
    goes_on(
        rt,
        life.act_all(0, &[Act::AskForBatch(slot(0, 1), NODES[1])]),
    );
    goes_on(rt, life.deliver(13, 15));
    goes_on(
        rt,
        life.refuse_all(&[
            (Step::Deliver(6), 22),
            (Step::Deliver(12), 22),
            (Step::Own(0, Act::Propose(0)), 36),
            (Step::Own(0, Act::AskForBatch(slot(0, 1), NODES[1])), 22),
        ]),
    );
}

/// The put is run by node 1, whose reply is packet 15, and node 0 passes over it. Snapshots are taken.
fn run_the_put(life: &mut Life, rt: &impl Abort) {
    goes_on(
        rt,
        life.endure_all(&[
            Step::Own(0, Act::Merge),
            Step::Own(1, Act::Merge),
            Step::Own(0, Act::Lock),
            Step::Own(1, Act::Lock),
            Step::Own(1, Act::Begin(FIRST)),
            Step::Own(1, Act::Finish(FIRST)),
            Step::Own(0, Act::Snapshot(0)),
            Step::Own(1, Act::Snapshot(0)),
        ]),
    );
    goes_on(
        rt,
        life.refuse_all(&[
            (Step::Own(1, Act::Begin(FIRST)), 42),
            (Step::Finish(1, FIRST), 41),
            (Step::Own(1, Act::Finish(FIRST)), 41),
            (Step::Own(1, Act::Snapshot(0)), 51),
            (Step::Own(1, Act::Mark(0)), 56),
            (Step::Own(1, Act::Cool(key(1))), 57),
            (Step::Deliver(15), 52),
        ]),
    );
}

/// Epoch 1: the packets 16 to 20 and 21 to 25 are those of the two batches. Packet 26 brings node 1 its rows; 27, with those
/// for node 0, is lost, and they are asked for. The replies are packets 30 and 31.
fn live_epoch_one(life: &mut Life, rt: &impl Abort) {
    goes_on(rt, life.act_all(0, &[Act::Close, Act::Propose(1)]));
    goes_on(rt, life.deliver(16, 21));
    goes_on(rt, life.act_all(1, &[Act::Close, Act::Propose(1)]));
    goes_on(rt, life.deliver(21, 26));
    for node in 0..2 {
        goes_on(
            rt,
            life.act_all(node, &[Act::Merge, Act::Lock, Act::Begin(SECOND)]),
        );
    }
    goes_on(rt, life.deliver(26, 27));
    goes_on(
        rt,
        life.refuse_all(&[
            (Step::Deliver(26), 43),
            (Step::Finish(0, SECOND), 44),
            (Step::Own(0, Act::Finish(SECOND)), 44),
            (Step::Own(0, Act::Snapshot(1)), 50),
        ]),
    );
    goes_on(rt, life.act_all(0, &[Act::AskForReads(SECOND, 0)]));
    goes_on(rt, life.deliver(28, 30));
    goes_on(
        rt,
        life.endure_all(&[Step::Finish(0, SECOND), Step::Own(1, Act::Finish(SECOND))]),
    );
    goes_on(rt, life.act_all(0, &[Act::Snapshot(1)]));
}

/// Node 1 comes back with the rows of epoch 0, is opened from its record, and replays epoch 1: it asks node 0 for the batches
/// with the packets 32 and 33, and for rows with packet 37. Its rows for node 0 are packet 36, its reply packet 39.
fn come_back(life: &mut Life, rt: &impl Abort) {
    goes_on(
        rt,
        life.endure_all(&[Step::Own(1, Act::Restart), Step::Reopen]),
    );
    same(rt, life.nodes().stands(1), Some((Some(0), 1)));
    same(rt, life.nodes().row(1, 1), Some(10));
    goes_on(
        rt,
        life.act_all(
            1,
            &[
                Act::AskForBatch(slot(1, 0), NODES[0]),
                Act::AskForBatch(slot(1, 1), NODES[0]),
            ],
        ),
    );
    goes_on(rt, life.deliver(32, 36));
    goes_on(
        rt,
        life.act_all(1, &[Act::Merge, Act::Lock, Act::Begin(SECOND)]),
    );
    goes_on(rt, life.refuse_all(&[(Step::Deliver(36), 43)]));
    goes_on(rt, life.act_all(1, &[Act::AskForReads(SECOND, 0)]));
    goes_on(rt, life.deliver(37, 39));
    goes_on(
        rt,
        life.endure_all(&[Step::Finish(1, SECOND), Step::Own(0, Act::Restart)]),
    );
    goes_on(
        rt,
        life.refuse_all(&[(Step::Deliver(37), 47), (Step::Deliver(33), 23)]),
    );
}

/// Both nodes stand at the end of epoch 1 with what was put and moved, and so many packets were sent.
fn check_end(rt: &impl Abort, nodes: &Nodes, packets: usize) {
    for number in 0..2 {
        same(
            rt,
            (number, nodes.stands(number)),
            (number, Some((Some(1), 1))),
        );
    }
    same(rt, nodes.row(0, 2), Some(4));
    same(rt, nodes.row(1, 1), Some(6));
    same(rt, nodes.packets().len(), packets);
}

/// Two epochs of two nodes.
fn live_through(life: &mut Life, rt: &impl Abort) {
    too_early(life, rt);
    agree_on_the_put(life, rt);
    run_the_put(life, rt);
    live_epoch_one(life, rt);
    check_end(rt, life.nodes(), 32);
    come_back(life, rt);
    check_end(rt, life.nodes(), 40);
}

/// The life, with memory for no packet. Says how often memory was refused.
fn live(rt: &impl Abort, alloc: Global) -> Result<usize, Fault> {
    let config = Config::new(2, 1)?.with_delay(1)?;
    let mut life = Life::open(alloc, config, 0)?;
    live_through(&mut life, rt);
    Ok(life.end())
}

#[test]
fn refused_once(rt: HostRuntime) -> Result<(), Fail> {
    let _times = live(&rt, rt.alloc())?;
    Ok(())
}

#[test]
fn nothing_refused(rt: HostRuntime) -> Result<(), Fail> {
    same(&rt, live(&rt, rt.alloc())?, 0);
    Ok(())
}
