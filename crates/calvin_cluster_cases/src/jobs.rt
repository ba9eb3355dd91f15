//! Requests are run side by side.
use crate::gates::{Counts, Holds};
use crate::running::{Calls, Case, ONE_NODE, run};
use crate::stores::{DONE, Handed, KvCluster, ask_after, hear, node, put, request, same, submit};
use calvin_app::{Answer, Kv, KvReply, KvRequest};
use calvin_cluster::{Founding, Ticket};
use calvin_types::{Fault, Few, Key, KeySet};
use std::alloc::Global;
use std::process::Abort;
use std::sync::Wait;
use std::test::Fail;

/// Waits for the answer to a put: it is done.
fn hear_done<J: Founding, R: Wait + Abort>(
    rt: &R,
    cluster: &KvCluster<J>,
    ticket: Ticket<Kv, J>,
) -> Result<Handed<J>, Fault> {
    let handed = hear(rt, cluster, ticket)?;
    same(rt, handed.answer(), Some(DONE));
    Ok(handed)
}

/// Two puts are submitted before either is waited for. A get with what the caller was told shows the first put's write.
pub(crate) fn put_two<J: Founding, R: Wait + Abort>(
    rt: &R,
    alloc: Global,
    cluster: &KvCluster<J>,
) -> Result<Vec<Handed<J>>, Fault> {
    let mut handed = Vec::with_capacity(alloc, 3)?;
    let first = submit(rt, cluster, node(0), put(1, 1, 5))?;
    let second = submit(rt, cluster, node(0), put(2, 2, 6))?;
    let first = hear_done(rt, cluster, first)?;
    let second = hear_done(rt, cluster, second)?;
    let keys = KeySet::from_slice(&[Key { table: 0, id: 1 }])?;
    let get = ask_after(rt, cluster, &first, request(7, 3, KvRequest::Get(keys)))?;
    let mut values = Few::new();
    values.push(Some(5));
    let shown = Answer::Reply(KvReply::Values(values));
    same(rt, get.answer(), Some(shown));
    handed.push(first)?;
    handed.push(second)?;
    handed.push(get)?;
    Ok(handed)
}

/// One caller submits puts on so many distinct keys at one node, and then waits for each.
pub(crate) fn put_on_keys<J: Founding, R: Wait + Abort>(
    rt: &R,
    alloc: Global,
    cluster: &KvCluster<J>,
    keys: u32,
) -> Result<Vec<Handed<J>>, Fault> {
    let mut tickets = Vec::new(alloc);
    for number in 0..keys {
        let txn = put(number, u64::from(number), 1);
        tickets.push(submit(rt, cluster, node(0), txn)?)?;
    }
    let mut handed = Vec::new(alloc);
    for ticket in tickets {
        handed.push(hear_done(rt, cluster, ticket)?)?;
    }
    Ok(handed)
}

/// While the gate holds the first put, another one is submitted, which takes the lock. Then the gate lets both through.
pub(crate) fn put_meanwhile<J: Founding, R: Wait + Abort>(
    rt: &R,
    alloc: Global,
    cluster: &KvCluster<J>,
    counts: &Counts,
) -> Result<Vec<Handed<J>>, Fault> {
    let mut tickets = Vec::with_capacity(alloc, 2)?;
    tickets.push(submit(rt, cluster, node(0), put(1, 1, 5))?)?;
    same(rt, counts.has_begun(), true);
    tickets.push(submit(rt, cluster, node(0), put(2, 2, 6))?)?;
    counts.let_go();
    let mut handed = Vec::new(alloc);
    for ticket in tickets {
        handed.push(hear_done(rt, cluster, ticket)?)?;
    }
    Ok(handed)
}

/// The gate holds the first request that comes until the other one was run.
#[test]
fn two_jobs_at_once(rt: HostRuntime) -> Result<(), Fail> {
    let case = Case {
        workers: 2,
        holds: Holds::FirstUntilAnother,
        calls: Calls::PutTwo,
        runs: Some(3),
        ..ONE_NODE
    };
    Ok(run(rt, rt.alloc(), &case)?)
}

/// The gate holds each of 40 puts until its group of four is full.
#[test]
fn four_at_a_time(rt: HostRuntime) -> Result<(), Fail> {
    let case = Case {
        workers: 4,
        holds: Holds::Groups(4),
        calls: Calls::PutOnKeys(40),
        runs: Some(40),
        ..ONE_NODE
    };
    Ok(run(rt, rt.alloc(), &case)?)
}

/// The gate holds a request of each of two nodes until both have come: where one thread does all, the second one never comes.
#[test]
fn one_thread_does_all(rt: HostRuntime) -> Result<(), Fail> {
    let case = Case {
        partitions: 2,
        workers: 2,
        holds: Holds::Groups(2),
        calls: Calls::PutOnKeys(2),
        runs: Some(2),
        ..ONE_NODE
    };
    Ok(run(rt, rt.alloc(), &case)?)
}

/// The gate holds a request until another one has been submitted: where requests are run under the lock, it never is.
#[test]
fn computes_under_the_lock(rt: HostRuntime) -> Result<(), Fail> {
    let case = Case {
        holds: Holds::FirstUntilLetGo,
        calls: Calls::PutMeanwhile,
        runs: Some(2),
        ..ONE_NODE
    };
    Ok(run(rt, rt.alloc(), &case)?)
}
