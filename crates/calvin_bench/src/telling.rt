//! How a scheduler is told an order.
ghost use Rattle.std.specs.Prelude.{◌≡◌, ℕ, ◌≤◌, suc, length, IfOk, OnOk, IsTrue, ◌↔◌, IsOkUnless};
ghost use Rattle.calvin_types.specs.Orders.{Rises};
ghost use Rattle.calvin_sched.specs.Scheduling.{is_before};
ghost use Rattle.calvin_sched.specs.Standing.{local_places};
ghost use Rattle.calvin_bench.specs.Replicas.{epochs_of};
ghost use Rattle.calvin_bench.specs.Telling.{EndsAt, told_upto};

use calvin_app::App;
use calvin_lock::Locks;
use calvin_sched::Scheduler;
use calvin_store::Rows;
use calvin_types::{Fault, Place, Txn};

/// Whether the places rise.
pub(crate) fn rises<Args: Copy>(order: &[(Place, Txn<Args>)]) -> bool
    ensures { IsTrue result ↔ Rises order.now }
{
    for i in 1..order.len() {
        if !is_before(order[i - 1].0, order[i].0) {
            return false;
        }
    }
    true
}

fn is_before(a: Place, b: Place) -> bool
    ensures { result ≡ is_before a b }
{
    a < b
}

/// Tells a scheduler, which was told nothing yet, all epochs of an order and their requests. It takes time by the greatest
/// epoch. Refused with `OutOfMemory` where a growth was refused: then some may have been told.
pub(crate) fn tell<A: App, L: Locks + Drop, S: Rows<A::Row> + Drop>(
    scheduler: &mut Scheduler<A, L, S>,
    order: &[(Place, Txn<A::Args>)],
) -> Result<(), Fault>
    requires rises { Rises order.now }
    requires untold { scheduler.old ≡ told_upto scheduler.old.here order.now 0 0 }
    ensures ok { OnOk result (scheduler.new ≡ record scheduler.old { merged = epochs_of order.now; due = local_places scheduler.old.here order.now }) }
    ensures only { IsOkUnless result Fault.OutOfMemory }
{
    let Some(last) = order.last() else {
        return Ok(());
    };
    let end = last.0.epoch;
    let mut start = 0;
    for epoch in 0..end {
        start = tell_epoch(scheduler, order, start, epoch)?;
    }
    let _all = tell_epoch(scheduler, order, start, end)?;
    Ok(())
}

/// Tells a scheduler, which was told the epochs before it, an epoch, whose requests begin at an index. Answers where they
/// end. Refused with `OutOfMemory` where a growth was refused.
fn tell_epoch<A: App, L: Locks + Drop, S: Rows<A::Row> + Drop>(
    scheduler: &mut Scheduler<A, L, S>,
    order: &[(Place, Txn<A::Args>)],
    start: usize,
    epoch: u64,
) -> Result<usize, Fault>
    requires rises { Rises order.now }
    requires split { EndsAt order.now epoch start }
    requires upto { scheduler.old ≡ told_upto scheduler.old.here order.now start epoch }
    ensures split { IfOk result (λ end. EndsAt order.now (suc epoch) end) }
    ensures told { IfOk result (λ end. scheduler.new ≡ told_upto scheduler.old.here order.now end (suc epoch)) }
    ensures only { IsOkUnless result Fault.OutOfMemory }
{
    let end = end_of_epoch(order, start, epoch);
    scheduler.merged(epoch, &order[start..end])?;
    Ok(end)
}

/// Where the requests of an epoch end, which begin at an index.
fn end_of_epoch<Args: Copy>(order: &[(Place, Txn<Args>)], start: usize, epoch: u64) -> usize
    requires rises { Rises order.now }
    requires split { EndsAt order.now epoch start }
    ensures after { start ≤ result }
    ensures split { EndsAt order.now (suc epoch) result }
{
    for i in start..order.len() {
        if order[i].0.epoch != epoch {
            return i;
        }
    }
    order.len()
}
