//! A gate that holds workers, and nodes, until others have come.
use calvin_app::Kv;
use calvin_histories::LockedNode;
use calvin_lock::QueueLocks;
use calvin_store::ColdRows;
use calvin_types::{Fault, NodeId, Place};
use calvin_wide::{Gate, WideGate};
use std::alloc::Global;
use std::hint::spin_loop;
use std::sync::Arc;
use std::sync::atomic::{AtomicU64, Ordering};

/// So many turns a gate holds a thread at most: some seconds.
const MOST_TURNS: u32 = 1_000_000;
/// So often a turn tells the processor that it only waits.
const HINTS: u32 = 64;

/// What a gate counted.
#[derive(Drop)]
pub(crate) struct Counts {
    /// How many requests came to the gate,
    begun: AtomicU64,
    /// and how many were run.
    done: AtomicU64,
    /// In how many events a node of replica 0 was lent,
    first: AtomicU64,
    /// and in how many one of another replica.
    others: AtomicU64,
    /// How many were let through though what they waited for hadn't come.
    given_up: AtomicU64,
}

impl Counts {
    pub fn new(alloc: Global) -> Result<Arc<Counts>, Fault> {
        let counts = Counts {
            begun: AtomicU64::new(0),
            done: AtomicU64::new(0),
            first: AtomicU64::new(0),
            others: AtomicU64::new(0),
            given_up: AtomicU64::new(0),
        };
        Ok(Arc::new(alloc, counts)?)
    }

    pub fn begun(&self) -> u64 {
        self.begun.load(Ordering::SeqCst)
    }

    pub fn given_up(&self) -> u64 {
        self.given_up.load(Ordering::SeqCst)
    }

    /// In how many events nodes were lent.
    pub fn lent(&self) -> u64 {
        let first = self.first.load(Ordering::SeqCst);
        first.saturating_add(self.others.load(Ordering::SeqCst))
    }
}

/// Waits until a count has come so far, and says whether it did within the limit.
fn has_come(count: &AtomicU64, wanted: u64) -> bool {
    for _turn in 0..MOST_TURNS {
        if count.load(Ordering::SeqCst) >= wanted {
            return true;
        }
        for _hint in 0..HINTS {
            spin_loop();
        }
    }
    false
}

/// Whom a gate holds.
#[derive(Clone, Copy, Debug, PartialEq, Eq)]
pub(crate) enum Holds {
    Nobody,
    /// The first request until another one was run.
    FirstUntilAnother,
    /// The first event of replica 0 until there was one of another replica, and the first one there until there was one of replica 0.
    NodesUntilOthers,
}

/// A gate, and what it counts.
#[derive(Drop)]
pub(crate) struct Counting {
    pub holds: Holds,
    pub counts: Arc<Counts>,
}

impl Counting {
    /// What a request or a node waited for came, or didn't.
    fn note(&self, has_come: bool) {
        if !has_come {
            self.counts.given_up.fetch_add(1, Ordering::SeqCst);
        }
    }
}

impl Gate for Counting {
    fn before(&self, _id: NodeId, _place: Place) {
        let number = self.counts.begun.fetch_add(1, Ordering::SeqCst);
        if self.holds == Holds::FirstUntilAnother && number == 0 {
            self.note(has_come(&self.counts.done, 1));
        }
    }

    fn after(&self, _id: NodeId, _place: Place) {
        self.counts.done.fetch_add(1, Ordering::SeqCst);
    }
}

impl WideGate<Kv, QueueLocks, ColdRows<u64>> for Counting {
    fn inside(&self, node: &LockedNode<Kv, QueueLocks, ColdRows<u64>>) {
        let (own, other) = if node.id().replica == 0 {
            (&self.counts.first, &self.counts.others)
        } else {
            (&self.counts.others, &self.counts.first)
        };
        let number = own.fetch_add(1, Ordering::SeqCst);
        if self.holds == Holds::NodesUntilOthers && number == 0 {
            self.note(has_come(other, 1));
        }
    }
}
