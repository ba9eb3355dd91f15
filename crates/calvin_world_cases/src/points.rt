//! Points and cold rows over each keeper: which events it refuses that doesn't have them, and the rows of a node that came back
//! from the snapshot of a marked epoch.
use crate::checks::same;
use calvin_app::{Kv, KvRequest};
use calvin_lock::QueueLocks;
use calvin_node::Act;
use calvin_store::{ColdRows, PlainRows, Rows, SplitRows};
use calvin_types::{Config, Fault, Key, KeySet, NodeId, Place, RequestId, Sets, Txn};
use calvin_world::{Event, Outcome, World};
use std::alloc::Global;
use std::process::Abort;
use std::test::Fail;

const NODE: NodeId = NodeId {
    replica: 0,
    partition: 0,
};

const FIRST: Place = Place { epoch: 0, n: 0 };

const SECOND: Place = Place { epoch: 1, n: 0 };

const KEY: Key = Key { table: 0, id: 1 };

type OneNode<S> = World<Kv, QueueLocks, S>;

/// A request of client 7, with the sets that it needs where no row is known.
fn request(number: u32, args: KvRequest) -> Txn<KvRequest> {
    let mut sets = Sets {
        reads: KeySet::new(),
        writes: KeySet::new(),
    };
    args.add_first_needs(&mut sets);
    Txn {
        id: RequestId { client: 7, number },
        attempt: 1,
        args,
        sets,
    }
}

fn own(act: Act<KvRequest>) -> Event<KvRequest> {
    Event::At(NODE, act)
}

/// A store of one node whose requests for cold rows are held back for one closing.
fn one_node<S: Rows<u64> + Drop>(alloc: Global) -> Result<OneNode<S>, Fault> {
    let config = Config::new(1, 1)?.with_delay(1)?;
    World::new(alloc, &config, Kv)
}

/// These events happen, all but the one that is refused.
fn happen<S: Rows<u64> + Drop>(
    rt: &impl Abort,
    world: &mut OneNode<S>,
    events: &[Event<KvRequest>],
    refused: Option<(usize, Fault)>,
) {
    for (number, event) in events.iter().enumerate() {
        let wanted = match refused {
            Some((at, fault)) if at == number => Err(fault),
            _ => Ok(()),
        };
        same(rt, (number, world.step(event)), (number, wanted));
    }
}

/// Two epochs of a request each are agreed on and merged, and their requests ask for their locks.
fn two_epochs(second: KvRequest) -> [Event<KvRequest>; 18] {
    [
        own(Act::Submit(request(1, KvRequest::Put(1, 5)))),
        own(Act::Close),
        own(Act::Propose(0)),
        Event::Deliver(0),
        Event::Deliver(1),
        Event::Deliver(2),
        Event::Deliver(3),
        own(Act::Submit(request(2, second))),
        own(Act::Close),
        own(Act::Propose(1)),
        Event::Deliver(4),
        Event::Deliver(5),
        Event::Deliver(6),
        Event::Deliver(7),
        own(Act::Merge),
        own(Act::Merge),
        own(Act::Lock),
        own(Act::Lock),
    ]
}

/// Epoch 0 is marked, both requests run, and the node restarts from the snapshot of epoch 0.
fn marked() -> [Event<KvRequest>; 7] {
    [
        own(Act::Mark(0)),
        own(Act::Begin(FIRST)),
        own(Act::Finish(FIRST)),
        own(Act::Begin(SECOND)),
        own(Act::Finish(SECOND)),
        own(Act::Snapshot(0)),
        own(Act::Restart),
    ]
}

/// The second request runs before the first one, which has another key.
fn marked_and_late() -> [Event<KvRequest>; 8] {
    [
        own(Act::Mark(0)),
        own(Act::Begin(SECOND)),
        own(Act::Finish(SECOND)),
        own(Act::Snapshot(0)),
        own(Act::Begin(FIRST)),
        own(Act::Finish(FIRST)),
        own(Act::Snapshot(0)),
        own(Act::Restart),
    ]
}

/// The node has one row, which is the 5 of the first request.
fn has_first_row<S: Rows<u64> + Drop>(rt: &impl Abort, world: &OneNode<S>) {
    same(rt, world.peek(0, &KEY), Some(5));
    same(rt, world.node(NODE).map(|node| node.rows().len()), Some(1));
}

fn back_at_the_point<S: Rows<u64> + Drop>(rt: &impl Abort, alloc: Global) -> Result<(), Fault> {
    let mut world = one_node::<S>(alloc)?;
    happen(rt, &mut world, &two_epochs(KvRequest::Put(1, 6)), None);
    happen(rt, &mut world, &marked(), None);
    has_first_row(rt, &world);
    let mut other = one_node::<S>(alloc)?;
    happen(rt, &mut other, &two_epochs(KvRequest::Put(2, 6)), None);
    happen(
        rt,
        &mut other,
        &marked_and_late(),
        Some((3, Fault::NotAtEnd)),
    );
    has_first_row(rt, &other);
    Ok(())
}

#[test]
fn mark_then_snapshot(rt: HostRuntime) -> Result<(), Fail> {
    back_at_the_point::<SplitRows<u64>>(&rt, rt.alloc())?;
    back_at_the_point::<ColdRows<u64>>(&rt, rt.alloc())?;
    Ok(())
}

/// Both requests are done: a node without a point stands at epoch 1 alone, whose snapshot it takes once.
#[test]
fn snapshot_at_its_point(rt: HostRuntime) -> Result<(), Fail> {
    let mut world = one_node::<PlainRows<u64>>(rt.alloc())?;
    happen(&rt, &mut world, &two_epochs(KvRequest::Put(2, 6)), None);
    let runs = [
        own(Act::Begin(FIRST)),
        own(Act::Finish(FIRST)),
        own(Act::Begin(SECOND)),
        own(Act::Finish(SECOND)),
        own(Act::Snapshot(0)),
        own(Act::Snapshot(1)),
    ];
    happen(&rt, &mut world, &runs, Some((4, Fault::NotAtEnd)));
    happen(
        &rt,
        &mut world,
        &[own(Act::Snapshot(1))],
        Some((0, Fault::Older)),
    );
    Ok(())
}

/// A keeper without points refuses the mark.
#[test]
fn snapshot_without_mark(rt: HostRuntime) -> Result<(), Fail> {
    let mut world = one_node::<PlainRows<u64>>(rt.alloc())?;
    happen(&rt, &mut world, &two_epochs(KvRequest::Put(1, 6)), None);
    happen(
        &rt,
        &mut world,
        &[own(Act::Mark(0))],
        Some((0, Fault::NoPoints)),
    );
    Ok(())
}

/// The request is in the second batch; once it has run its row is made cold, where there is a cold table.
fn cold<S: Rows<u64> + Drop>(rt: &impl Abort, alloc: Global) -> Result<OneNode<S>, Fault> {
    let mut world = one_node::<S>(alloc)?;
    let events = [
        own(Act::SubmitCold(request(1, KvRequest::Put(1, 5)))),
        own(Act::Close),
        own(Act::Close),
        Event::Deliver(0),
        own(Act::Propose(0)),
        Event::Deliver(1),
        Event::Deliver(2),
        Event::Deliver(3),
        Event::Deliver(4),
        own(Act::Propose(1)),
        Event::Deliver(5),
        Event::Deliver(6),
        Event::Deliver(7),
        Event::Deliver(8),
        own(Act::Merge),
        own(Act::Merge),
        own(Act::Lock),
        own(Act::Begin(SECOND)),
        own(Act::Finish(SECOND)),
    ];
    happen(rt, &mut world, &events, None);
    Ok(world)
}

#[test]
fn cold_submit(rt: HostRuntime) -> Result<(), Fail> {
    let mut split = cold::<SplitRows<u64>>(&rt, rt.alloc())?;
    happen(
        &rt,
        &mut split,
        &[own(Act::Cool(KEY))],
        Some((0, Fault::NoColdTable)),
    );
    let mut cooled = cold::<ColdRows<u64>>(&rt, rt.alloc())?;
    happen(
        &rt,
        &mut cooled,
        &[own(Act::Cool(KEY)), own(Act::Cool(KEY))],
        Some((1, Fault::NoRow)),
    );
    has_first_row(&rt, &cooled);
    Ok(())
}
