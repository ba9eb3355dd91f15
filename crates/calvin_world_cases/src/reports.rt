//! One node alone, and what is told of it.
use crate::checks::{filled, same};
use calvin_app::{Kv, KvRequest};
use calvin_lock::{ListLocks, Locks, QueueLocks};
use calvin_node::Act;
use calvin_report::{Epochs, finished, push_nodes, push_outcomes, push_replies, replies_of};
use calvin_store::ColdRows;
use calvin_text::push_last;
use calvin_types::{Config, Fault, KeySet, NodeId, Place, RequestId, Sets, Txn};
use calvin_world::{Event, Outcome, World};
use std::alloc::Global;
use std::process::Abort;
use std::test::Fail;

const NODE: NodeId = NodeId {
    replica: 0,
    partition: 0,
};

const FIRST: Place = Place { epoch: 0, n: 0 };

/// A request of client 7, with the sets that it needs where no row is known.
fn request(number: u32, args: KvRequest) -> Txn<KvRequest> {
    let mut sets = Sets {
        reads: KeySet::new(),
        writes: KeySet::new(),
    };
    args.add_first_needs(&mut sets);
    Txn {
        id: RequestId { client: 7, number },
        attempt: 1,
        args,
        sets,
    }
}

fn own(act: Act<KvRequest>) -> Event<KvRequest> {
    Event::At(NODE, act)
}

/// Adds what is told of one node: what came of each event, the node, the replies, and the last epoch.
fn push_told<L: Locks + Drop>(
    text: &mut Vec<u8>,
    alloc: Global,
    world: &World<Kv, L, ColdRows<u64>>,
    outcomes: &[Outcome],
    epochs: Epochs,
) -> Result<(), Fault> {
    push_outcomes(text, outcomes)?;
    push_nodes(text, world)?;
    let replies = replies_of(alloc, world.packets())?;
    let pushed = push_replies(text, &replies, epochs);
    drop(replies);
    pushed?;
    push_last(text, finished(world))?;
    Ok(())
}

/// What is told of one node after these events.
fn told_of<L: Locks + Drop>(
    alloc: Global,
    world: &mut World<Kv, L, ColdRows<u64>>,
    events: &[Event<KvRequest>],
    epochs: Epochs,
) -> Result<Vec<u8>, Fault> {
    let outcomes = world.run(events)?;
    let mut text = Vec::new(alloc);
    let pushed = push_told(&mut text, alloc, world, &outcomes, epochs);
    drop(outcomes);
    filled(text, pushed)
}

/// What is told of one node after these events, in a world of its own.
fn told<L: Locks + Drop>(
    alloc: Global,
    events: &[Event<KvRequest>],
    epochs: Epochs,
) -> Result<Vec<u8>, Fault> {
    let config = Config::new(1, 1)?;
    let mut world: World<Kv, L, ColdRows<u64>> = World::new(alloc, &config, Kv)?;
    told_of(alloc, &mut world, events, epochs)
}

/// What is told is this text.
fn check<L: Locks + Drop>(
    rt: &impl Abort,
    alloc: Global,
    events: &[Event<KvRequest>],
    epochs: Epochs,
    text: &str,
) -> Result<(), Fault> {
    let found = told::<L>(alloc, events, epochs)?;
    same(rt, found.as_slice(), text.as_bytes());
    drop(found);
    Ok(())
}

fn one_request<L: Locks + Drop>(rt: &impl Abort, alloc: Global) -> Result<(), Fault> {
    let events = [
        own(Act::Submit(request(1, KvRequest::Put(1, 5)))),
        own(Act::Close),
        own(Act::Propose(0)),
        Event::Deliver(0),
        Event::Deliver(1),
        Event::Deliver(2),
        Event::Deliver(3),
        own(Act::Merge),
        own(Act::Lock),
        own(Act::Begin(FIRST)),
        own(Act::Finish(FIRST)),
    ];
    let all =
        "0 ok\n1 ok\n2 ok\n3 ok\n4 ok\n5 ok\n6 ok\n7 ok\n8 ok\n9 ok\n10 ok\nnode 0.0 stands 0 rows 1\n0.0 7:1 done\nfinished 0\n";
    let none =
        "0 ok\n1 ok\n2 ok\n3 ok\n4 ok\n5 ok\n6 ok\n7 ok\n8 ok\n9 ok\n10 ok\nnode 0.0 stands 0 rows 1\nfinished 0\n";
    check::<L>(rt, alloc, &events, Epochs::All, all)?;
    check::<L>(rt, alloc, &events, Epochs::UpTo(Some(0)), all)?;
    check::<L>(rt, alloc, &events, Epochs::UpTo(None), none)?;
    Ok(())
}

#[test]
fn one_node_run(rt: HostRuntime) -> Result<(), Fail> {
    one_request::<ListLocks>(&rt, rt.alloc())?;
    one_request::<QueueLocks>(&rt, rt.alloc())?;
    Ok(())
}

#[test]
fn restart_between_phases(rt: HostRuntime) -> Result<(), Fail> {
    let events = [
        own(Act::Submit(request(1, KvRequest::Put(1, 5)))),
        own(Act::Close),
        own(Act::Propose(0)),
        Event::Deliver(0),
        own(Act::Restart),
        Event::Deliver(1),
        own(Act::Propose(0)),
    ];
    let all =
        "0 ok\n1 ok\n2 ok\n3 ok\n4 ok\n5 refused 21\n6 refused 35\nnode 0.0 stands none rows 0\nfinished none\n";
    check::<QueueLocks>(&rt, rt.alloc(), &events, Epochs::All, all)?;
    Ok(())
}
