//! One node alone: a majority of one decides.
use crate::checks::{act, deliver, ends};
use crate::events::{KvWorld, end, finish, first_of, key, node, request, world_of};
use calvin_app::KvRequest;
use calvin_lock::ListLocks;
use calvin_node::Act;
use calvin_world::Event;
use std::process::Abort;
use std::test::Fail;

/// A request is decided and run, and then a mark, and a row that is to cool, whether there is one for the key or not, are refused.
fn refuse_tables(rt: &impl Abort, world: &mut KvWorld<ListLocks>) {
    let (id, place) = (node(0, 0), first_of(0));
    let submit = Act::Submit(request(1, KvRequest::Put(1, 5)));
    act(rt, world, id, &[submit, Act::Close, Act::Propose(0)]);
    deliver(rt, world, &[0, 1, 2, 3]);
    act(rt, world, id, &[Act::Merge, Act::Lock, Act::Begin(place)]);
    ends(rt, finish(world, id, place), 0);
    for (refused, number) in [
        (Act::Mark(0), 56),
        (Act::Cool(key(1)), 57),
        (Act::Cool(key(2)), 55),
    ] {
        ends(rt, world.step(&Event::At(id, refused)), number);
    }
}

/// Rows without points and without a cold table: no point is opened, and no row cools.
#[test]
fn plain_rows(rt: HostRuntime) -> Result<(), Fail> {
    let mut world = world_of(rt.alloc(), 1, 1)?;
    refuse_tables(&rt, &mut world);
    end(world);
    Ok(())
}
