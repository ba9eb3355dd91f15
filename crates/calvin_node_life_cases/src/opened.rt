//! One node alone that is opened from its durable record, also in a store in which other epochs are woven. A majority of one decides.
use crate::checks::{holds, same};
use calvin_app::KvRequest;
use calvin_node::Act;
use calvin_node_lives::{Nodes, Step, number_of, place, request};
use calvin_synod::Message;
use calvin_types::{Ballot, Config, Fault, Slot};
use std::process::Abort;
use std::test::Fail;

/// A step takes effect, where the number is 0; else it is refused with this number.
fn ends(rt: &impl Abort, nodes: &mut Nodes, step: Step, number: u8) {
    same(rt, number_of(nodes.step(&step)), number);
}

/// Own events of the node happen one after another, and each takes effect.
fn act(rt: &impl Abort, nodes: &mut Nodes, acts: &[Act<KvRequest>]) {
    for (i, act) in acts.iter().enumerate() {
        let refusal = number_of(nodes.step(&Step::Own(0, *act)));
        same(rt, (i, refusal), (i, 0));
    }
}

/// The four packets from a number on, by which a batch is decided, are delivered, and each delivery takes effect.
fn decide(rt: &impl Abort, nodes: &mut Nodes, first: usize) {
    for number in first..first.saturating_add(4) {
        let refusal = number_of(nodes.step(&Step::Deliver(number)));
        same(rt, (number, refusal), (number, 0));
    }
}

/// The node stands at the end of this epoch, with so many rows.
fn check_stands(rt: &impl Abort, nodes: &Nodes, epoch: Option<u64>, rows: usize) {
    same(rt, nodes.stands(0), Some((epoch, rows)));
}

/// A request is submitted, closed and proposed for epoch 0.
fn propose(rt: &impl Abort, nodes: &mut Nodes) {
    let submit = Act::Submit(request(1, KvRequest::Put(1, 5)));
    act(rt, nodes, &[submit, Act::Close, Act::Propose(0)]);
}

/// The node is opened from its record while it waits for promises: as after a restart the promise no longer counts, and the epoch
/// isn't closed. A batch that is closed anew is proposed at a greater round.
fn between_phases(rt: &impl Abort, nodes: &mut Nodes) {
    propose(rt, nodes);
    ends(rt, nodes, Step::Deliver(0), 0);
    ends(rt, nodes, Step::Reopen, 0);
    ends(rt, nodes, Step::Deliver(1), 21);
    ends(rt, nodes, Step::Own(0, Act::Propose(0)), 35);
    check_stands(rt, nodes, None, 0);
    propose(rt, nodes);
    let prepare = Message::Prepare {
        slot: Slot { epoch: 0, group: 0 },
        ballot: Ballot {
            round: 2,
            replica: 0,
        },
    };
    holds(rt, nodes.has_told(2, 0, 0, &prepare));
}

#[test]
fn opened_between_phases(rt: HostRuntime) -> Result<(), Fail> {
    let mut nodes = Nodes::new(rt.alloc(), Config::new(1, 1)?)?;
    between_phases(&rt, &mut nodes);
    nodes.end();
    Ok(())
}

/// The node is opened from its record once it has run a request and taken a snapshot.
fn after_a_snapshot(rt: &impl Abort, nodes: &mut Nodes) {
    propose(rt, nodes);
    decide(rt, nodes, 0);
    act(rt, nodes, &[Act::Merge, Act::Lock, Act::Begin(place(0, 0))]);
    ends(rt, nodes, Step::Finish(0, place(0, 0)), 0);
    act(rt, nodes, &[Act::Snapshot(0)]);
    ends(rt, nodes, Step::Own(0, Act::Snapshot(0)), 51);
    ends(rt, nodes, Step::Reopen, 0);
    ends(rt, nodes, Step::Own(0, Act::Merge), 34);
    ends(rt, nodes, Step::Deliver(3), 0);
    check_stands(rt, nodes, Some(0), 1);
}

#[test]
fn opened_from_a_snapshot(rt: HostRuntime) -> Result<(), Fail> {
    let mut nodes = Nodes::new(rt.alloc(), Config::new(1, 1)?)?;
    after_a_snapshot(&rt, &mut nodes);
    nodes.end();
    Ok(())
}

/// Five epochs of empty batches are decided and merged.
fn merge_five(rt: &impl Abort, nodes: &mut Nodes) {
    for epoch in 0..5 {
        let first = nodes.packets().len();
        act(rt, nodes, &[Act::Close, Act::Propose(epoch)]);
        decide(rt, nodes, first);
        act(rt, nodes, &[Act::Merge]);
    }
}

/// The record is taken, or refused by a number, where the node is opened under these first woven epochs in turn; whatever
/// comes of it the node stands there.
fn reopens(
    rt: &impl Abort,
    nodes: &mut Nodes,
    config: Config,
    table: &[(u64, u8)],
    stands: Option<u64>,
) -> Result<(), Fault> {
    for (first, wanted) in table {
        let outcome = nodes.reopen_under(config.with_woven(*first)?);
        same(rt, (*first, number_of(outcome)), (*first, *wanted));
        check_stands(rt, nodes, stands, 0);
    }
    Ok(())
}

/// A record with a snapshot of epoch 4, made where no epoch is woven. Where it is refused, nothing of it is lost.
fn with_a_snapshot(rt: &impl Abort, nodes: &mut Nodes, plain: Config) -> Result<(), Fault> {
    merge_five(rt, nodes);
    act(rt, nodes, &[Act::Snapshot(4)]);
    let table = [(0, 58), (4, 58), (5, 0), (4, 58), (6, 0)];
    reopens(rt, nodes, plain, &table, Some(4))?;
    same(rt, number_of(nodes.reopen_under(plain)), 0);
    Ok(())
}

/// A record without a snapshot, made where no epoch is woven.
fn without_a_snapshot(rt: &impl Abort, nodes: &mut Nodes, plain: Config) -> Result<(), Fault> {
    merge_five(rt, nodes);
    reopens(rt, nodes, plain, &[(5, 0), (4, 0), (0, 0)], None)?;
    same(rt, number_of(nodes.reopen_under(plain)), 0);
    Ok(())
}

#[test]
fn record_of_another_order(rt: HostRuntime) -> Result<(), Fail> {
    let plain = Config::new(1, 1)?;
    let mut nodes = Nodes::new(rt.alloc(), plain)?;
    let outcome = with_a_snapshot(&rt, &mut nodes, plain);
    nodes.end();
    outcome?;
    let mut without = Nodes::new(rt.alloc(), plain)?;
    let outcome = without_a_snapshot(&rt, &mut without, plain);
    without.end();
    outcome?;
    Ok(())
}

/// A record with a snapshot of epoch 4 of a store in which batches are woven from epoch 4 on.
fn of_a_woven_order(rt: &impl Abort, nodes: &mut Nodes, plain: Config) -> Result<(), Fault> {
    merge_five(rt, nodes);
    act(rt, nodes, &[Act::Snapshot(4)]);
    same(rt, number_of(nodes.reopen_under(plain)), 58);
    reopens(rt, nodes, plain, &[(5, 58), (4, 0), (3, 58)], Some(4))?;
    Ok(())
}

#[test]
fn record_of_a_woven_order(rt: HostRuntime) -> Result<(), Fail> {
    let plain = Config::new(1, 1)?;
    let mut nodes = Nodes::new(rt.alloc(), plain.with_woven(4)?)?;
    let outcome = of_a_woven_order(&rt, &mut nodes, plain);
    nodes.end();
    outcome?;
    Ok(())
}
