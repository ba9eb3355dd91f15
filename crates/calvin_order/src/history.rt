//! The epochs that a sequencer closed, and those that it knows as decided.
ghost use Rattle.std.specs.Prelude.{◌≡◌, ◌+◌, [], ◌∷◌, ◌++◌, length, IsOk, OnOk, IsOkUnless, ◌<◌, ◌≤◌, ◌^◌, false, true, MatchOption, IfSome, nat_eq, ℕ};
ghost use Rattle.std.specs.List.{list_any};
ghost use Rattle.std.specs.Option.{option_copied, unwrap_or};
ghost use Rattle.calvin_types.specs.declared.limits.TheConstants.{MOST_REQUESTS, MOST_UNDECIDED};
ghost use Rattle.calvin_order.specs.Keeping.{closed_len};
ghost use Rattle.calvin_order.specs.Sequencing.{sequencing_from, closed_in, is_decided, next_epoch, undecided};

use calvin_types::{Batch, Fault};
use indexmap::{IndexMap, IndexSet};
use std::alloc::Global;
use std::marker::Model;

/// The batches that were closed, each with its epoch, in the order of closing, and the epochs that are known as decided,
/// in the order in which they were told.
#[derive(Drop)]
pub struct History<Args> {
    // none where no epoch is left from the beginning
    opening: Option<u64>,
    // the least epoch from the opening one on that is neither closed nor decided: none where all are
    next: Option<u64>,
    closed: IndexMap<u64, Batch<Args>>,
    decided: IndexSet<u64>,
    // how many requests of closed batches are undecided
    undecided: usize,
}

impl<Args> Model for History<Args> {
    ghost use Rattle.std.specs.Prelude.{◌^◌};
    ghost use Rattle.std.specs.Option.{unwrap_or};
    ghost use Rattle.std.specs.HashMap as maps;
    ghost use Rattle.std.specs.HashSet as sets;
    ghost use Rattle.std.specs.Coded.{codes};
    ghost use Rattle.std.specs.FinMap.{code};
    ghost use Rattle.calvin_order.specs.Keeping as keeping;

    ghost Value = { keeping.History Args };

    ghost coded = { Prim.hlevel (codes, code) };

    ghost view = { λ e. record { state = keeping.history_of (unwrap_or e.opening (2 ^ 64)) e.closed.entries e.decided.keys; closed_room = maps.spare e.closed; decided_room = sets.spare e.decided } };

    ghost invariant = { λ e. keeping.IsHistory (unwrap_or e.next (2 ^ 64)) e.undecided (keeping.history_of (unwrap_or e.opening (2 ^ 64)) e.closed.entries e.decided.keys) };
}

impl<Args: Copy> History<Args> {
    /// None is closed or decided. The first epoch is the opening one: none where all epochs are spent already.
    pub fn new(alloc: Global, opening: Option<u64>) -> History<Args>
        ensures { result.state ≡ sequencing_from (unwrap_or opening (2 ^ 64)) }
    {
        History {
            opening,
            next: opening,
            closed: IndexMap::new(alloc),
            decided: IndexSet::new(alloc),
            undecided: 0,
        }
    }

    /// The least epoch from the opening one on that is neither closed nor decided.
    pub fn next(&self) -> Option<u64>
        ensures { MatchOption result (next_epoch self.now.state ≡ 2 ^ 64) (λ epoch. epoch ≡ next_epoch self.now.state) }
    {
        self.next
    }

    /// The batch that was closed for an epoch.
    pub fn closed(&self, epoch: u64) -> Option<&Batch<Args>>
        ensures { option_copied result ≡ closed_in self.now.state.closed epoch }
    {
        self.closed.get(&epoch)
    }

    /// How many batches were closed.
    pub fn closings(&self) -> usize
        ensures { result ≡ length self.now.state.closed }
    {
        self.closed.len()
    }

    /// How many requests the batch has that was closed for an epoch.
    pub fn closed_len(&self, epoch: u64) -> usize
        ensures len { result ≡ closed_len self.now.state.closed epoch }
        ensures at_most { result ≤ MOST_REQUESTS }
    {
        match self.closed(epoch) {
            Some(batch) => batch.len(),
            None => 0,
        }
    }

    /// Whether an epoch is known as decided.
    pub fn is_decided(&self, epoch: u64) -> bool
        ensures decided { result ≡ is_decided self.now.state epoch }
        ensures settles { result ≡ false
            → undecided (λ e. list_any (nat_eq e) (self.now.state.decided
            ++ epoch ∷ [])) self.now.state.closed + closed_len self.now.state.closed epoch ≡ undecided
            (is_decided self.now.state) self.now.state.closed }
    {
        self.decided.contains(&epoch)
    }

    /// How many requests of closed batches are undecided.
    pub fn undecided(&self) -> usize
        ensures { result ≡ undecided (is_decided self.now.state) self.now.state.closed }
    {
        self.undecided
    }

    /// Room for one more closed epoch.
    pub fn reserve_closed(&mut self) -> Result<(), Fault>
        ensures ok { OnOk result (0 < self.new.closed_room) }
        ensures state { self.new.state ≡ self.old.state }
        ensures closed { self.old.closed_room ≤ self.new.closed_room }
        ensures decided { self.new.decided_room ≡ self.old.decided_room }
        ensures only { IsOkUnless result Fault.OutOfMemory }
        ensures succeeds { 0 < self.old.closed_room → IsOk result }
    {
        self.closed.reserve(1)?;
        Ok(())
    }

    /// Room for one more epoch that is known as decided.
    pub fn reserve_decided(&mut self) -> Result<(), Fault>
        ensures ok { OnOk result (0 < self.new.decided_room) }
        ensures state { self.new.state ≡ self.old.state }
        ensures decided { self.old.decided_room ≤ self.new.decided_room }
        ensures closed { self.new.closed_room ≡ self.old.closed_room }
        ensures only { IsOkUnless result Fault.OutOfMemory }
        ensures succeeds { 0 < self.old.decided_room → IsOk result }
    {
        self.decided.reserve(1)?;
        Ok(())
    }

    /// The next epoch is closed with a batch, for which there is room.
    pub fn close(&mut self, epoch: u64, batch: Batch<Args>)
        requires next { epoch ≡ next_epoch self.old.state }
        requires room { 0 < self.old.closed_room }
        requires few { undecided (is_decided self.old.state) self.old.state.closed ≤ MOST_UNDECIDED }
        ensures state { self.new.state ≡ record self.old.state { closed = self.old.state.closed ++ (epoch, batch) ∷ [] } }
        ensures decided { self.new.decided_room ≡ self.old.decided_room }
    {
        self.undecided += batch.len();
        let put: Result<_, _> = self.closed.insert(epoch, batch);
        let _before = put.unwrap();
        self.next = after(&self.decided, epoch);
    }

    /// An epoch is known as decided from now on. There is room for it.
    pub fn decide(&mut self, epoch: u64)
        requires new { is_decided self.old.state epoch ≡ false }
        requires room { 0 < self.old.decided_room }
        ensures state { self.new.state ≡ record self.old.state { decided = self.old.state.decided ++ epoch ∷ [] } }
        ensures closed { self.new.closed_room ≡ self.old.closed_room }
    {
        self.undecided -= self.closed_len(epoch);
        let put: Result<_, _> = self.decided.insert(epoch);
        let _new = put.unwrap();
        if self.next == Some(epoch) {
            self.next = after(&self.decided, epoch);
        }
    }
}

/// The least number from `first` on that isn't among these.
fn first_free(taken: &IndexSet<u64>, first: u64) -> Option<u64>
    ensures from { first ≤ unwrap_or result (2 ^ 64) }
    ensures passed { (e : ℕ) → first ≤ e → e < unwrap_or result (2 ^ 64) → list_any (nat_eq e) taken.now.keys ≡ true }
    ensures free { IfSome result (λ e. list_any (nat_eq e) taken.now.keys ≡ false) }
{
    for epoch in first..=u64::MAX {
        if !taken.contains(&epoch) {
            return Some(epoch);
        }
    }
    None
}

/// The least number past another that isn't among these.
fn after(taken: &IndexSet<u64>, epoch: u64) -> Option<u64>
    ensures from { epoch < unwrap_or result (2 ^ 64) }
    ensures passed { (e : ℕ) → epoch < e → e < unwrap_or result (2 ^ 64) → list_any (nat_eq e) taken.now.keys ≡ true }
    ensures free { IfSome result (λ e. list_any (nat_eq e) taken.now.keys ≡ false) }
{
    match epoch.checked_add(1) {
        Some(first) => first_free(taken, first),
        None => None,
    }
}
