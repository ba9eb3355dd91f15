//! Requests are run side by side.
use crate::gates::Holds;
use crate::running::{Calls, Case, ONE_NODE, run};
use crate::stores::{DONE, Handed, KvCluster, ask, hear, node, put, request, same};
use calvin_app::{Answer, KvReply, KvRequest};
use calvin_types::{Fault, Few, Key, KeySet};
use calvin_wide::WideFounding;
use std::alloc::Global;
use std::process::Abort;
use std::sync::Wait;
use std::test::Fail;

/// Two puts are submitted before either is waited for. A get then shows the first put's write.
pub(crate) fn put_two<J: WideFounding, R: Wait + Abort>(
    rt: &R,
    alloc: Global,
    cluster: &KvCluster<J>,
) -> Result<Vec<Handed<J>>, Fault> {
    let mut handed = Vec::with_capacity(alloc, 3)?;
    let first = cluster.submit(rt, node(0, 0), put(1, 1, 5))?;
    let second = cluster.submit(rt, node(0, 0), put(2, 2, 6))?;
    let first = hear(rt, cluster, first)?;
    let second = hear(rt, cluster, second)?;
    same(
        rt,
        (first.answer(), second.answer()),
        (Some(DONE), Some(DONE)),
    );
    let keys = KeySet::from_slice(&[Key { table: 0, id: 1 }])?;
    let get = ask(rt, cluster, node(0, 0), request(7, 3, KvRequest::Get(keys)))?;
    let mut values = Few::new();
    values.push(Some(5));
    let shown = Answer::Reply(KvReply::Values(values));
    same(rt, get.answer(), Some(shown));
    handed.push(first)?;
    handed.push(second)?;
    handed.push(get)?;
    Ok(handed)
}

/// The gate holds the first request that comes until the other one was run.
#[test]
fn two_jobs_at_once(rt: HostRuntime) -> Result<(), Fail> {
    let case = Case {
        workers: 2,
        holds: Holds::FirstUntilAnother,
        calls: Calls::PutTwo,
        runs: Some(3),
        ..ONE_NODE
    };
    Ok(run(rt, rt.alloc(), &case)?)
}
