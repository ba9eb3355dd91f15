//! Merged requests that wait: each is shared where it lies, of an epoch that is joined and of one that is woven.
use crate::checks::same;
use crate::merge::hold;
use calvin_order::{Merge, PendingRequests};
use calvin_shared_txn::SharedTxn;
use calvin_types::{Config, Fault, Place};
use std::alloc::Global;
use std::process::Abort;
use std::test::Fail;

/// The requests of an epoch whose group 0 has the requests 1 and 2 and whose group 1 has request 3, as they wait.
fn waiting(
    rt: &impl Abort,
    alloc: Global,
    config: &Config,
    epoch: u64,
) -> Result<PendingRequests<u32>, Fault> {
    let mut merge = Merge::from_epoch(alloc, config, Some(epoch));
    hold(rt, alloc, &mut merge, epoch, 0, &[1, 2]);
    hold(rt, alloc, &mut merge, epoch, 1, &[3]);
    let segments = merge.next_segments()?;
    let mut pending = PendingRequests::new(alloc);
    pending.reserve(segments.len())?;
    pending.append(segments);
    Ok(pending)
}

/// Each request is the first in its turn, at its place, and is there once nothing waits any more.
fn shared_in_turn(
    rt: &impl Abort,
    alloc: Global,
    config: &Config,
    epoch: u64,
    numbers: &[u32],
) -> Result<(), Fault> {
    let mut pending = waiting(rt, alloc, config, epoch)?;
    let mut shared: Vec<SharedTxn<u32>> = Vec::new(alloc);
    let mut n = 0;
    for _ in 0..numbers.len() {
        let Some((place, txn)) = pending.share_first()? else {
            break;
        };
        same(rt, place, Place { epoch, n });
        shared.push(txn)?;
        pending.remove_first();
        n = n.saturating_add(1);
    }
    same(rt, pending.first().is_none(), true);
    drop(pending);
    same(rt, shared.len(), numbers.len());
    for (txn, number) in shared.iter().zip(numbers.iter()) {
        same(rt, txn.get().id.number, *number);
    }
    Ok(())
}

#[test]
fn first_requests_shared(rt: HostRuntime) -> Result<(), Fail> {
    let alloc = rt.alloc();
    let joined = Config::new(2, 1)?;
    let woven = joined.with_woven(5)?;
    shared_in_turn(&rt, alloc, &joined, 5, &[1, 2, 3])?;
    shared_in_turn(&rt, alloc, &woven, 4, &[1, 2, 3])?;
    shared_in_turn(&rt, alloc, &woven, 5, &[1, 3, 2])?;
    Ok(())
}
