//! A gate that counts.
use calvin_cluster::Gate;
use calvin_types::{Fault, NodeId, Place};
use std::alloc::Global;
use std::sync::Arc;
use std::sync::atomic::{AtomicU64, Ordering};

/// How many requests began to be run, and how many were.
#[derive(Drop)]
pub(crate) struct Counts {
    begun: AtomicU64,
    done: AtomicU64,
}

impl Counts {
    pub fn new(alloc: Global) -> Result<Arc<Counts>, Fault> {
        let counts = Counts {
            begun: AtomicU64::new(0),
            done: AtomicU64::new(0),
        };
        Ok(Arc::new(alloc, counts)?)
    }

    pub fn begun(&self) -> u64 {
        self.begun.load(Ordering::SeqCst)
    }

    pub fn done(&self) -> u64 {
        self.done.load(Ordering::SeqCst)
    }
}

/// Counts, and holds nobody.
#[derive(Drop)]
pub(crate) struct Counting {
    pub counts: Arc<Counts>,
}

impl Gate for Counting {
    fn before(&self, _id: NodeId, _place: Place) {
        self.counts.begun.fetch_add(1, Ordering::SeqCst);
    }

    fn after(&self, _id: NodeId, _place: Place) {
        self.counts.done.fetch_add(1, Ordering::SeqCst);
    }
}
