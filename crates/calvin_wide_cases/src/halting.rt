//! What a store does after `halt`.
use crate::running::{Calls, Case, ONE_NODE, run};
use crate::stores::{DONE, Handed, KvCluster, ask, fault_of, node, put, same};
use calvin_types::Fault;
use calvin_wide::WideFounding;
use std::alloc::Global;
use std::process::Abort;
use std::sync::Wait;
use std::test::Fail;

/// A put is answered, another one is submitted, and the store halts: after that every call is refused.
pub(crate) fn put_then_halt<J: WideFounding, R: Wait + Abort>(
    rt: &R,
    alloc: Global,
    cluster: &KvCluster<J>,
) -> Result<Vec<Handed<J>>, Fault> {
    let mut handed = Vec::with_capacity(alloc, 2)?;
    let first = ask(rt, cluster, node(0, 0), put(1, 1, 5))?;
    same(rt, first.answer(), Some(DONE));
    handed.push(first)?;
    let ticket = cluster.submit(rt, node(0, 0), put(2, 2, 5))?;
    cluster.halt(rt);
    let submitted = fault_of(cluster.submit(rt, node(0, 0), put(3, 3, 5)));
    same(rt, submitted, Some(Fault::Closed));
    let heard = fault_of(cluster.wait(rt, &ticket));
    same(rt, heard, Some(Fault::Closed));
    same(rt, cluster.wait_all(rt, 0), Err(Fault::Closed));
    handed.push(Handed {
        ticket,
        heard: None,
    })?;
    Ok(handed)
}

#[test]
fn put_and_halt(rt: HostRuntime) -> Result<(), Fail> {
    let case = Case {
        workers: 2,
        calls: Calls::PutThenHalt,
        ..ONE_NODE
    };
    Ok(run(rt, rt.alloc(), &case)?)
}
