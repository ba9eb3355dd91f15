//! Nodes step side by side.
use crate::gates::Holds;
use crate::running::{Calls, Case, ONE_NODE, run};
use crate::stores::{DONE, Handed, KvCluster, ask, node, put, same};
use calvin_types::Fault;
use calvin_wide::WideFounding;
use std::alloc::Global;
use std::process::Abort;
use std::sync::Wait;
use std::test::Fail;
use std::thread::{Threads, map_indices};

/// Two callers submit a put each at nodes (0, 0) and (1, 0), and wait for it.
pub(crate) fn put_at_both<
    J: WideFounding + 'static,
    R: Threads + Wait + Abort + Copy + Send + Sync + 'static,
>(rt: R, alloc: Global, cluster: &KvCluster<J>) -> Result<Vec<Handed<J>>, Fault> {
    let put_at = |at: usize| {
        let number = at.min(255) as u32;
        let txn = put(number, u64::from(number), 5);
        ask(&rt, cluster, node(number as u8, 0), txn)
    };
    let callers = map_indices(&rt, alloc, 2, &put_at)?;
    let mut all = Vec::with_capacity(alloc, 2)?;
    for caller in callers {
        let one = caller?;
        same(&rt, one.answer(), Some(DONE));
        all.push(one)?;
    }
    Ok(all)
}

/// The first event of each of two nodes is held until there was one of the other: where all nodes stand under one lock, it never
/// comes.
#[test]
fn two_nodes_at_once(rt: HostRuntime) -> Result<(), Fail> {
    let case = Case {
        replicas: 2,
        workers: 2,
        holds: Holds::NodesUntilOthers,
        calls: Calls::PutAtBoth,
        ..ONE_NODE
    };
    Ok(run(rt, rt.alloc(), &case)?)
}
