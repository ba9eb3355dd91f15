//! A gate at which each request takes a time.
use calvin_app::Kv;
use calvin_cluster::Gate;
use calvin_histories::LockedNode;
use calvin_lock::QueueLocks;
use calvin_store::ColdRows;
use calvin_types::{NodeId, Place};
use calvin_wide::WideGate;
use std::hint::spin_loop;
use std::time::{Clock, Duration, Instant};

/// Keeps each request's worker busy for a time, as a long computation would.
#[derive(Drop)]
pub(crate) struct Slow<R> {
    pub rt: R,
    pub time: Duration,
}

impl<R: Clock + Send + Sync + Drop> Gate for Slow<R> {
    fn before(&self, _id: NodeId, _place: Place) {
        let Ok(begun) = Instant::now(&self.rt) else {
            return;
        };
        for _ in 0..u64::MAX {
            match begun.elapsed(&self.rt) {
                Ok(passed) if passed < self.time => spin_loop(),
                _ => return,
            }
        }
    }

    fn after(&self, _id: NodeId, _place: Place) {}
}

impl<R: Clock + Send + Sync + Drop> WideGate<Kv, QueueLocks, ColdRows<u64>> for Slow<R> {
    fn inside(&self, _node: &LockedNode<Kv, QueueLocks, ColdRows<u64>>) {}
}
