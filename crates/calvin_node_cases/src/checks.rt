//! How a test compares, and what it expects of a world.
use crate::events::{KvAct, KvWorld};
use calvin_lock::Locks;
use calvin_store::Rows;
use calvin_types::{Fault, NodeId};
use calvin_world::Event;
use std::fmt::Debug;
use std::process::Abort;

/// It is so; else the test fails.
pub(crate) fn holds(rt: &impl Abort, is_so: bool) {
    assert!(rt; is_so);
}

/// Two values are the same; else the test fails, and shows both.
pub(crate) fn same<T: PartialEq + Debug + Drop>(rt: &impl Abort, found: T, wanted: T) {
    assert_eq!(rt; found, wanted);
}

/// A call takes effect, where the number is 0; else it is refused with this number.
pub(crate) fn ends(rt: &impl Abort, outcome: Result<(), Fault>, number: u8) {
    same(rt, number_of(outcome), number);
}

/// The number of a refusal, or 0.
pub(crate) fn number_of(outcome: Result<(), Fault>) -> u8 {
    match outcome {
        Ok(()) => 0,
        Err(fault) => fault.number(),
    }
}

/// Own events of a node happen one after another, and each takes effect.
pub(crate) fn act<L: Locks + Drop>(
    rt: &impl Abort,
    world: &mut KvWorld<L>,
    id: NodeId,
    acts: &[KvAct],
) {
    for (i, act) in acts.iter().enumerate() {
        let refusal = number_of(world.step(&Event::At(id, *act)));
        same(rt, (id, i, refusal), (id, i, 0));
    }
}

/// Packets are delivered in this order, and each delivery takes effect.
pub(crate) fn deliver<L: Locks + Drop>(rt: &impl Abort, world: &mut KvWorld<L>, numbers: &[usize]) {
    for number in numbers {
        let refusal = number_of(world.step(&Event::Deliver(*number)));
        same(rt, (*number, refusal), (*number, 0));
    }
}

/// A node stands at the end of this epoch, with so many rows.
pub(crate) fn check_stands<L: Locks + Drop>(
    rt: &impl Abort,
    world: &KvWorld<L>,
    id: NodeId,
    epoch: Option<u64>,
    rows: usize,
) {
    let found = world
        .node(id)
        .map(|node| (node.stands_at(), node.rows().len()));
    same(rt, (id, found), (id, Some((epoch, rows))));
}
