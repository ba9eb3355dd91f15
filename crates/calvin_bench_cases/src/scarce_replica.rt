//! Two replicas of two partitions side by side, where each step that is refused for want of memory is made once more: until then the
//! one is like the other. So each call of a scheduler that grows is refused in turn. With ample memory nothing is refused.
//! `rt try --test --fail-alloc N` refuses the Nth allocation of a test: for each N, from 1 until `nothing_refused` has passed for
//! many in turn, `refused_once` has to pass (`tools/check_refusals`).
use crate::checks::same;
use crate::shown::{Shown, entry, key, place, show};
use calvin_app::{Answer, Kv, KvReply, KvRequest};
use calvin_bench::{OneReplica, Step};
use calvin_lock::{ListLocks, Locks, QueueLocks};
use calvin_store::{ColdRows, Rows};
use calvin_types::{Config, Fault, Place, Txn};
use std::alloc::Global;
use std::process::Abort;
use std::test::Fail;

type KvReplica<L> = OneReplica<Kv, L, ColdRows<u64>>;

type Entries = Vec<(Place, Txn<KvRequest>)>;

/// So many moves follow the put.
const MOVES: u32 = 6;

/// A put under key 1, and then moves of 1 to key 2.
fn order(alloc: Global) -> Result<Entries, Fault> {
    let mut order = Vec::new(alloc);
    order.push(entry(0, KvRequest::Put(1, 10)))?;
    for n in 1..=MOVES {
        order.push(entry(n, KvRequest::Move(1, 2, 1)))?;
    }
    Ok(order)
}

/// The order, made once more where that was refused, and how often it was.
fn ordered(alloc: Global) -> Result<(Entries, u32), Fault> {
    match order(alloc) {
        Err(Fault::OutOfMemory) => Ok((order(alloc)?, 1)),
        made => Ok((made?, 0)),
    }
}

/// A replica over the order, opened once more where that was refused, and how often it was.
fn opened<L: Locks + Drop>(alloc: Global) -> Result<(KvReplica<L>, u32), Fault> {
    let config = Config::new(2, 1)?;
    let (entries, refused) = ordered(alloc)?;
    match OneReplica::new(alloc, Kv, &config, entries) {
        Err(Fault::OutOfMemory) => {
            let (entries, once_more) = ordered(alloc)?;
            let replica = OneReplica::new(alloc, Kv, &config, entries)?;
            Ok((replica, refused.saturating_add(once_more).saturating_add(1)))
        }
        made => Ok((made?, refused)),
    }
}

/// What comes of one step. Where there is no room to say so, no step is made.
fn made<L: Locks + Drop>(replica: &mut KvReplica<L>, step: Step) -> Shown {
    match replica.run(&[step]) {
        Ok(outcomes) => match outcomes.first() {
            Some(outcome) => show(outcome),
            None => Shown::Admitted,
        },
        Err(fault) => Shown::Refused(fault.number()),
    }
}

/// The partitions stand at the same epochs, with the same rows.
fn check_alike<L: Locks + Drop>(
    rt: &impl Abort,
    one: &KvReplica<L>,
    other: &KvReplica<L>,
) -> Result<(), Fault> {
    for partition in 0..2 {
        same(rt, one.stands_at(partition)?, other.stands_at(partition)?);
        let (rows, others) = (one.rows(partition)?, other.rows(partition)?);
        same(rt, rows.len(), others.len());
        for id in 1..3 {
            same(rt, rows.get(&key(id)), others.get(&key(id)));
        }
    }
    Ok(())
}

/// What comes of a step, if not at once then with memory, and how often it was refused: where it is the replica is like the other one.
fn made_at_last<L: Locks + Drop>(
    rt: &impl Abort,
    one: &mut KvReplica<L>,
    other: &KvReplica<L>,
    step: Step,
) -> Result<(Shown, u32), Fault> {
    match made(one, step) {
        Shown::Refused(1) => {
            check_alike(rt, one, other)?;
            Ok((made(one, step), 1))
        }
        shown => Ok((shown, 0)),
    }
}

/// What comes of the same step at the other one.
fn made_beside<L: Locks + Drop>(other: &mut KvReplica<L>, step: Step) -> (Shown, u32) {
    match made(other, step) {
        Shown::Refused(1) => (made(other, step), 1),
        shown => (shown, 0),
    }
}

/// A step is made at both, and this comes of it. Says how often it was refused.
fn endure<L: Locks + Drop>(
    rt: &impl Abort,
    one: &mut KvReplica<L>,
    other: &mut KvReplica<L>,
    step: Step,
    wanted: &Shown,
) -> Result<u32, Fault> {
    let (found, refused) = made_at_last(rt, one, other, step)?;
    same(rt, found, *wanted);
    let (beside, again) = made_beside(other, step);
    same(rt, beside, *wanted);
    check_alike(rt, one, other)?;
    Ok(refused.saturating_add(again))
}

fn endure_all<L: Locks + Drop>(
    rt: &impl Abort,
    one: &mut KvReplica<L>,
    other: &mut KvReplica<L>,
    steps: &[(Step, Shown)],
) -> Result<u32, Fault> {
    let mut refused: u32 = 0;
    for (step, wanted) in steps {
        let more = endure(rt, one, other, *step, wanted)?;
        refused = refused.saturating_add(more);
    }
    Ok(refused)
}

const DONE: Shown = Shown::Answered(Answer::Reply(KvReply::Done));

/// What a partition serves under the keys 1 and 2, where so much was moved: 10 less of that is under key 1, at partition 1, and that
/// is under key 2, at partition 0, where it is something.
fn served(partition: u8, moved: u64) -> Shown {
    match (partition, moved) {
        (1, _) => Shown::Served(Some(10_u64.saturating_sub(moved)), None),
        (_, 0) => Shown::Served(None, None),
        _ => Shown::Served(None, Some(moved)),
    }
}

/// The move of a number is run by both partitions.
fn endure_move<L: Locks + Drop>(
    rt: &impl Abort,
    one: &mut KvReplica<L>,
    other: &mut KvReplica<L>,
    n: u32,
) -> Result<u32, Fault> {
    let at = place(n);
    let moved = u64::from(n).saturating_sub(1);
    let steps = [
        (Step::Begin(0, at), served(0, moved)),
        (Step::Begin(1, at), served(1, moved)),
        (Step::Reads(0, 1, at), Shown::Received),
        (Step::Reads(1, 0, at), Shown::Received),
        (Step::Finish(0, at), DONE),
        (Step::Finish(1, at), DONE),
    ];
    endure_all(rt, one, other, &steps)
}

/// The whole order is admitted, and then run.
fn live<L: Locks + Drop>(
    rt: &impl Abort,
    one: &mut KvReplica<L>,
    other: &mut KvReplica<L>,
) -> Result<u32, Fault> {
    let mut refused: u32 = 0;
    for _ in 0..=MOVES {
        let admitted = [
            (Step::Admit(0), Shown::Admitted),
            (Step::Admit(1), Shown::Admitted),
        ];
        let more = endure_all(rt, one, other, &admitted)?;
        refused = refused.saturating_add(more);
    }
    let put = [
        (Step::Begin(1, place(0)), Shown::Served(None, None)),
        (Step::Finish(1, place(0)), DONE),
    ];
    refused = refused.saturating_add(endure_all(rt, one, other, &put)?);
    for n in 1..=MOVES {
        refused = refused.saturating_add(endure_move(rt, one, other, n)?);
    }
    same(rt, one.rows(0)?.get(&key(2)), Some(6));
    same(rt, one.rows(1)?.get(&key(1)), Some(4));
    same(rt, one.stands_at(1)?, Some(0));
    Ok(refused)
}

/// A replica ends.
fn end<L: Locks + Drop>(_replica: KvReplica<L>) {}

fn endured_by<L: Locks + Drop>(rt: &impl Abort, alloc: Global) -> Result<u32, Fault> {
    let (mut one, first) = opened::<L>(alloc)?;
    let (mut other, second) = match opened::<L>(alloc) {
        Ok(made) => made,
        Err(fault) => {
            end(one);
            return Err(fault);
        }
    };
    let lived = live(rt, &mut one, &mut other);
    end(other);
    end(one);
    Ok(lived?.saturating_add(first).saturating_add(second))
}

/// How many steps were refused.
fn endured(rt: &impl Abort, alloc: Global) -> Result<u32, Fault> {
    let at_lists = endured_by::<ListLocks>(rt, alloc)?;
    Ok(at_lists.saturating_add(endured_by::<QueueLocks>(rt, alloc)?))
}

#[test]
fn nothing_refused(rt: HostRuntime) -> Result<(), Fail> {
    same(&rt, endured(&rt, rt.alloc())?, 0);
    Ok(())
}

#[test]
fn refused_once(rt: HostRuntime) -> Result<(), Fail> {
    same(&rt, endured(&rt, rt.alloc())? <= 1, true);
    Ok(())
}
