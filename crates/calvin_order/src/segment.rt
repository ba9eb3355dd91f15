//! Requests that follow one another in the merged order.
ghost use Rattle.std.specs.Prelude.{◌≡◌, ◌+◌, ◌*◌, ◌<◌, ◌≤◌, ◌∷◌, [], length, drop, IfOk, IsOkUnless, MatchBool};
ghost use Rattle.calvin_order.specs.Merged.{numbered};
ghost use Rattle.calvin_order.specs.Walking.{placed};

use calvin_shared_txn::SharedTxn;
use calvin_types::{Fault, MOST_PARTITIONS, MOST_REQUESTS, Place, Shared, Txn};
use std::marker::Model;

/// One or more requests of an epoch that follow one another in the merged order, each at its place. They lie in memory that
/// is shared, as that of the batch in which they were agreed upon, and none is copied.
#[derive(Drop)]
pub struct MergedSegment<Args> {
    requests: Shared<Txn<Args>>,
    // how many of them were given already
    given: usize,
    // the place of the next one
    place: Place,
}

impl<Args> Model for MergedSegment<Args> {
    ghost use Rattle.std.specs.Prelude.{◌+◌, ◌-◌, ◌*◌, ◌<◌, ◌≤◌, length, drop};
    ghost use Rattle.calvin_types.specs.Codes.{coded_txn};
    ghost use Rattle.calvin_types.specs.Orders.{Order};
    ghost use Rattle.calvin_types.specs.declared.limits.TheConstants.{MOST_PARTITIONS, MOST_REQUESTS};
    ghost use Rattle.calvin_order.specs.Codes.{coded_placed};
    ghost use Rattle.calvin_order.specs.Merged.{numbered};

    ghost Value = { Order Args };

    ghost coded = { coded_placed (coded_txn Args.code) };

    ghost view = { λ s. numbered s.place.epoch s.place.n (drop s.given s.requests) };

    ghost invariant = { λ s. (s.given < length s.requests) × (s.place.n + (length s.requests - s.given) ≤ MOST_REQUESTS * MOST_PARTITIONS) };
}

impl<Args: Copy> MergedSegment<Args> {
    /// These requests, the first of them at a place: there is one, and no more than an epoch has places.
    pub fn new(place: Place, requests: Shared<Txn<Args>>) -> MergedSegment<Args>
        requires some { 0 < length requests }
        requires few { place.n + length requests ≤ MOST_REQUESTS * MOST_PARTITIONS }
        ensures { result ≡ numbered place.epoch place.n requests }
    {
        MergedSegment {
            requests,
            given: 0,
            place,
        }
    }

    /// The first request, at its place.
    pub fn first(&self) -> (Place, &Txn<Args>)
        ensures { self.now ≡ placed result ∷ drop 1 self.now }
    {
        (self.place, &self.requests.as_slice()[self.given])
    }

    /// The first request, at its place, in the memory in which it lies, which gets one more owner. It takes none, and is refused
    /// with `OutOfMemory` only where there are 2^63 - 1 owners.
    pub fn share_first(&self) -> Result<(Place, SharedTxn<Args>), Fault>
        ensures first { IfOk result (λ first. self.now ≡ first ∷ drop 1 self.now) }
        ensures only { IsOkUnless result Fault.OutOfMemory }
    {
        let requests = self.requests.share()?;
        Ok((self.place, SharedTxn::new(requests, self.given)))
    }

    /// Takes the first request out, and says so, if another one follows it. Else nothing changed.
    pub fn advance(&mut self) -> bool
        ensures some { 0 < length self.old }
        ensures rest { MatchBool result (self.new ≡ drop 1 self.old) ((drop 1 self.old ≡ []) × (self.new ≡ self.old)) }
    {
        let size = self.requests.as_slice().len();
        if self.given + 1 == size {
            return false;
        }
        self.given += 1;
        self.place.n += 1;
        true
    }
}
