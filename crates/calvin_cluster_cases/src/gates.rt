//! A gate that holds workers until others have come.
use calvin_cluster::Gate;
use calvin_types::{Fault, NodeId, Place};
use std::alloc::Global;
use std::hint::spin_loop;
use std::sync::Arc;
use std::sync::atomic::{AtomicU64, Ordering};

/// So many turns a gate holds a worker at most: some seconds.
const MOST_TURNS: u32 = 1_000_000;
/// So often a turn tells the processor that it only waits.
const HINTS: u32 = 64;

/// What a gate counted.
#[derive(Drop)]
pub(crate) struct Counts {
    /// How many requests came to the gate,
    begun: AtomicU64,
    /// and how many were run.
    done: AtomicU64,
    /// How often the caller let the gate go on.
    let_go: AtomicU64,
    /// How many were let through though what they waited for hadn't come.
    given_up: AtomicU64,
}

impl Counts {
    pub fn new(alloc: Global) -> Result<Arc<Counts>, Fault> {
        let counts = Counts {
            begun: AtomicU64::new(0),
            done: AtomicU64::new(0),
            let_go: AtomicU64::new(0),
            given_up: AtomicU64::new(0),
        };
        Ok(Arc::new(alloc, counts)?)
    }

    pub fn begun(&self) -> u64 {
        self.begun.load(Ordering::SeqCst)
    }

    pub fn given_up(&self) -> u64 {
        self.given_up.load(Ordering::SeqCst)
    }

    /// Waits until a request has come to the gate, and says whether one did within the limit.
    pub fn has_begun(&self) -> bool {
        has_come(&self.begun, 1)
    }

    /// The gate may go on.
    pub fn let_go(&self) {
        self.let_go.fetch_add(1, Ordering::SeqCst);
    }
}

/// Waits until a count has come so far, and says whether it did within the limit.
fn has_come(count: &AtomicU64, wanted: u64) -> bool {
    for _turn in 0..MOST_TURNS {
        if count.load(Ordering::SeqCst) >= wanted {
            return true;
        }
        for _hint in 0..HINTS {
            spin_loop();
        }
    }
    false
}

/// Whom a gate holds.
#[derive(Clone, Copy, Debug, PartialEq, Eq)]
pub(crate) enum Holds {
    Nobody,
    /// The first request until another one was run.
    FirstUntilAnother,
    /// The first request until the caller lets the gate go on.
    FirstUntilLetGo,
    /// Each request until its group of so many have come: of four the first to the fourth, the fifth to the eighth, and so on.
    Groups(u64),
}

/// A gate, and what it counts.
#[derive(Drop)]
pub(crate) struct Counting {
    pub holds: Holds,
    pub counts: Arc<Counts>,
}

impl Counting {
    /// Holds a request, the first being number 0, and says whether what it waited for has come.
    fn is_let_through(&self, number: u64) -> bool {
        match self.holds {
            Holds::Nobody => true,
            Holds::FirstUntilAnother => number > 0 || has_come(&self.counts.done, 1),
            Holds::FirstUntilLetGo => number > 0 || has_come(&self.counts.let_go, 1),
            Holds::Groups(size) => has_come(&self.counts.begun, end_of_group(number, size)),
        }
    }
}

/// How many requests have come once the group of a request is full.
fn end_of_group(number: u64, size: u64) -> u64 {
    let groups_before = number.checked_div(size).unwrap_or(0);
    groups_before.saturating_add(1).saturating_mul(size)
}

impl Gate for Counting {
    fn before(&self, _id: NodeId, _place: Place) {
        let number = self.counts.begun.fetch_add(1, Ordering::SeqCst);
        if !self.is_let_through(number) {
            self.counts.given_up.fetch_add(1, Ordering::SeqCst);
        }
    }

    fn after(&self, _id: NodeId, _place: Place) {
        self.counts.done.fetch_add(1, Ordering::SeqCst);
    }
}
