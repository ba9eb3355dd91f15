//! One replica of two partitions: key 1 is stored in partition 1, key 2 in partition 0.
use crate::checks::{holds, same};
use crate::shown::{Shown, entry, key, place, show};
use calvin_app::{Answer, Kv, KvReply, KvRequest};
use calvin_bench::{OneReplica, Step};
use calvin_lock::{ListLocks, Locks, QueueLocks};
use calvin_store::{PlainRows, Rows};
use calvin_types::{Config, Fault, Few, KeySet};
use std::alloc::Global;
use std::process::Abort;
use std::test::Fail;

/// Does steps one after another, and compares what came of each.
fn compare<L: Locks + Drop>(
    rt: &impl Abort,
    replica: &mut OneReplica<Kv, L, PlainRows<u64>>,
    steps: &[Step],
    expected: &[Shown],
) -> Result<(), Fault> {
    let outcomes = replica.run(steps)?;
    same(rt, outcomes.len(), expected.len());
    for (i, outcome) in outcomes.iter().enumerate() {
        same(rt, (i, Some(show(outcome))), (i, expected.get(i).copied()));
    }
    Ok(())
}

fn done() -> Shown {
    Shown::Answered(Answer::Reply(KvReply::Done))
}

/// The last step of the move, and what is refused after it.
fn finish_exchange<L: Locks + Drop>(
    rt: &impl Abort,
    replica: &mut OneReplica<Kv, L, PlainRows<u64>>,
) -> Result<(), Fault> {
    same(rt, replica.stands_at(0)?, Some(0));
    same(rt, replica.stands_at(1)?, None);
    compare(
        rt,
        replica,
        &[
            Step::Finish(1, place(1)),
            Step::Admit(1),
            Step::Reads(0, 1, place(2)),
            Step::Admit(2),
        ],
        &[
            done(),
            Shown::Refused(48),
            Shown::Refused(43),
            Shown::Refused(60),
        ],
    )?;
    same(rt, replica.stands_at(1)?, Some(0));
    Ok(())
}

/// The rows of both partitions after the move.
fn compare_moved<L: Locks + Drop>(
    rt: &impl Abort,
    replica: &OneReplica<Kv, L, PlainRows<u64>>,
) -> Result<(), Fault> {
    same(rt, replica.rows(0)?.get(&key(2)), Some(4));
    same(rt, replica.rows(0)?.len(), 1);
    same(rt, replica.rows(1)?.get(&key(1)), Some(6));
    same(rt, replica.rows(1)?.len(), 1);
    Ok(())
}

/// A number is put in one partition, and then moved to the other.
fn exchange<L: Locks + Drop>(rt: &impl Abort, alloc: Global) -> Result<(), Fault> {
    let order = vec![in alloc;
        entry(0, KvRequest::Put(1, 10)),
        entry(1, KvRequest::Move(1, 2, 4)),
    ]?;
    let config = Config::new(2, 1)?;
    let mut replica: OneReplica<Kv, L, PlainRows<u64>> = OneReplica::new(
        alloc, Kv, &config, order,
    )?;
    let steps = [
        Step::Admit(0),
        Step::Admit(0),
        Step::Admit(1),
        Step::Admit(1),
        Step::Begin(0, place(1)),
        Step::Finish(0, place(1)),
        Step::Begin(1, place(1)),
        Step::Begin(1, place(0)),
        Step::Finish(1, place(0)),
        Step::Begin(1, place(1)),
        Step::Reads(0, 1, place(1)),
        Step::Reads(1, 0, place(1)),
        Step::Finish(0, place(1)),
    ];
    let expected = [
        Shown::Admitted,
        Shown::Admitted,
        Shown::Admitted,
        Shown::Admitted,
        Shown::Served(None, None),
        Shown::Refused(44),
        Shown::Refused(41),
        Shown::Served(None, None),
        done(),
        Shown::Served(Some(10), None),
        Shown::Received,
        Shown::Received,
        done(),
    ];
    compare(rt, &mut replica, &steps, &expected)?;
    finish_exchange(rt, &mut replica)?;
    compare_moved(rt, &replica)
}

#[test]
fn two_partitions_exchange(rt: HostRuntime) -> Result<(), Fail> {
    exchange::<ListLocks>(&rt, rt.alloc())?;
    exchange::<QueueLocks>(&rt, rt.alloc())?;
    Ok(())
}

/// Partition 1 is done once it has read.
fn read_in_one<L: Locks + Drop>(
    rt: &impl Abort,
    replica: &mut OneReplica<Kv, L, PlainRows<u64>>,
) -> Result<(), Fault> {
    compare(
        rt,
        replica,
        &[
            Step::Admit(0),
            Step::Admit(1),
            Step::Begin(1, place(0)),
            Step::Begin(1, place(0)),
            Step::Finish(1, place(0)),
            Step::Reads(1, 0, place(0)),
        ],
        &[
            Shown::Admitted,
            Shown::Admitted,
            Shown::Served(None, None),
            Shown::Refused(42),
            Shown::Refused(41),
            Shown::Refused(43),
        ],
    )?;
    same(rt, replica.stands_at(0)?, None);
    same(rt, replica.stands_at(1)?, Some(0));
    Ok(())
}

/// Partition 0 answers, with what partition 1 has sent.
fn answered_in_zero<L: Locks + Drop>(
    rt: &impl Abort,
    replica: &mut OneReplica<Kv, L, PlainRows<u64>>,
) -> Result<(), Fault> {
    let mut values: Few<Option<u64>> = Few::new();
    values.push(None);
    values.push(None);
    compare(
        rt,
        replica,
        &[
            Step::Begin(0, place(0)),
            Step::Reads(1, 0, place(0)),
            Step::Reads(0, 1, place(0)),
            Step::Reads(0, 1, place(0)),
            Step::Finish(0, place(0)),
        ],
        &[
            Shown::Served(None, None),
            Shown::Refused(43),
            Shown::Received,
            Shown::Refused(43),
            Shown::Answered(Answer::Reply(KvReply::Values(values))),
        ],
    )?;
    same(rt, replica.stands_at(0)?, Some(0));
    Ok(())
}

/// Rows of both partitions are read, and nothing is written: partition 0 answers, and partition 1 is done once it has read.
fn passive<L: Locks + Drop>(rt: &impl Abort, alloc: Global) -> Result<(), Fault> {
    let mut keys = KeySet::new();
    keys.insert(key(2))?;
    keys.insert(key(3))?;
    let order = vec![in alloc; entry(0, KvRequest::Get(keys))]?;
    let config = Config::new(2, 1)?;
    let mut replica: OneReplica<Kv, L, PlainRows<u64>> = OneReplica::new(
        alloc, Kv, &config, order,
    )?;
    read_in_one(rt, &mut replica)?;
    answered_in_zero(rt, &mut replica)
}

#[test]
fn passive_partition(rt: HostRuntime) -> Result<(), Fail> {
    passive::<ListLocks>(&rt, rt.alloc())?;
    passive::<QueueLocks>(&rt, rt.alloc())?;
    Ok(())
}

#[test]
fn order_that_doesnt_rise(rt: HostRuntime) -> Result<(), Fail> {
    let alloc = rt.alloc();
    let config = Config::new(2, 1)?;
    let order = vec![in alloc;
        entry(1, KvRequest::Put(1, 10)),
        entry(1, KvRequest::Put(1, 11)),
    ]?;
    let refused: Result<OneReplica<Kv, ListLocks, PlainRows<u64>>, Fault> = OneReplica::new(
        alloc, Kv, &config, order,
    );
    match refused {
        Ok(_replica) => holds(&rt, false),
        Err(fault) => same(&rt, fault.number(), 40),
    }
    Ok(())
}
