//! What a node is opened with: the scheduler that goes on from a snapshot, the epoch after it, whether one of an epoch is kept
//! already, and whether its epochs are ordered as they were.
ghost use Rattle.std.specs.Prelude.{◌≡◌, ◌+◌, ◌^◌, ◌≤◌, [], true, IfOk, IfErr, MatchBool};
ghost use Rattle.std.specs.Option.{unwrap_or};
ghost use Rattle.calvin_types.specs.Participants.{site};
ghost use Rattle.calvin_order.specs.Merged.{end_of};
ghost use Rattle.calvin_sched.specs.Scheduling.{opened};
ghost use Rattle.calvin_node_acts.specs.Durables.{is_below, is_order_changed};
ghost use Rattle.calvin_node_acts.specs.Growing.{has_snapshot};
ghost use Rattle.calvin_node_acts.specs.Running.{kept_epochs, kept_rows};

use calvin_app::App;
use calvin_lock::Locks;
use calvin_sched::Scheduler;
use calvin_store::{Rows, Snapshot};
use calvin_types::{Config, Fault};
use std::alloc::Global;

/// The epoch after those of the last snapshot, if one is left below 2^64; epoch 0 where there is no snapshot.
pub fn first_epoch<Row>(kept: &Option<(u64, Snapshot<Row>)>) -> Option<u64>
    ensures { unwrap_or result (2 ^ 64) ≡ kept_epochs kept.now }
{
    match kept {
        Some((epoch, _)) => epoch.checked_add(1),
        None => Some(0),
    }
}

/// Whether the last snapshot is of this epoch or a later one; where there is none it isn't.
pub fn has_kept<Row>(kept: &Option<(u64, Snapshot<Row>)>, epoch: u64) -> bool
    ensures { MatchBool result (epoch + 1 ≤ kept_epochs kept.now) (kept_epochs kept.now ≤ epoch) }
{
    match kept {
        Some((last, _)) => epoch <= *last,
        None => false,
    }
}

/// Whether a first woven epoch, if there is one, is an epoch of the last snapshot.
fn is_kept_woven<Row>(first: Option<u64>, kept: &Option<(u64, Snapshot<Row>)>) -> bool
    ensures { result ≡ is_below first (kept_epochs kept.now) }
{
    match (first, kept) {
        (Some(first), Some((last, _))) => first <= *last,
        _ => false,
    }
}

/// Whether some epoch of the last snapshot is ordered otherwise under one of these first woven epochs than under the other.
pub fn is_order_changed<Row>(
    now: Option<u64>,
    before: Option<u64>,
    kept: &Option<(u64, Snapshot<Row>)>,
) -> bool
    ensures { result ≡ is_order_changed now before (kept_epochs kept.now) }
{
    now != before && (is_kept_woven(now, kept) || is_kept_woven(before, kept))
}

/// A scheduler that goes on from the last snapshot, or begins on no rows where there is none. Refused with `OutOfMemory`
/// where a growth was refused, and only where there is a snapshot.
pub fn scheduler_from<A: App, L: Locks + Drop, S: Rows<A::Row> + Drop>(
    alloc: Global,
    config: &Config,
    partition: u8,
    kept: &Option<(u64, Snapshot<A::Row>)>,
) -> Result<Scheduler<A, L, S>, Fault>
    ensures ok { IfOk result
        (λ s. s ≡ record {
          here = site config.now.partitions partition;
          scheduling = opened (end_of (kept_epochs kept.now)) (kept_rows kept.now);
          room = s.room;
          merged = kept_epochs kept.now;
          due = [];
          due_room = 0;
        }) }
    ensures only { IfErr result (λ fault. (fault ≡ Fault.OutOfMemory) × (has_snapshot (kept_epochs kept.now) ≡ true)) }
{
    match kept {
        Some((epoch, rows)) => Scheduler::from_snapshot(alloc, config, partition, rows, *epoch),
        None => Ok(Scheduler::new(alloc, config, partition)),
    }
}
