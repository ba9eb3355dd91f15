//! The merged requests of a node that wait to be admitted.
ghost use Rattle.std.specs.Prelude.{◌≡◌, ◌-◌, ◌<◌, ◌≤◌, ◌++◌, ◌∷◌, [], length, drop, IfErr, IfOk, IsOkUnless, MatchOption, OnOk, OnErr};
ghost use Rattle.calvin_order.specs.Walking.{flat, placed};

use crate::segment::MergedSegment;
use calvin_shared_txn::SharedTxn;
use calvin_types::{Fault, Place, Txn};
use std::alloc::Global;
use std::collections::VecDeque;
use std::marker::Model;

/// Requests in the merged order, of one epoch or several, that are taken from the front. They lie where the batches have
/// them, and contracts see them as one list. Room for more of their segments can be reserved.
#[derive(Drop)]
pub struct PendingRequests<Args> {
    segments: VecDeque<MergedSegment<Args>>,
}

impl<Args> Model for PendingRequests<Args> {
    ghost use Rattle.std.specs.Prelude.{◌-◌};
    ghost use Rattle.std.specs.VecDeque.{deque_len, deque_capacity};
    ghost use Rattle.calvin_order.specs.Codes.{coded_waiting};
    ghost use Rattle.calvin_order.specs.Walking.{flat};
    ghost use Rattle.calvin_order.specs.Waiting.{Waiting};

    ghost Value = { Waiting Args };

    ghost coded = { coded_waiting Args.code };

    ghost view = { λ p. record { requests = flat p.segments.items; room = deque_capacity p.segments - deque_len p.segments } };
}

impl<Args: Copy> PendingRequests<Args> {
    /// No request.
    pub fn new(alloc: Global) -> PendingRequests<Args>
        ensures { result.requests ≡ [] }
    {
        PendingRequests {
            segments: VecDeque::new(alloc),
        }
    }

    /// The first request, at its place.
    pub fn first(&self) -> Option<(Place, &Txn<Args>)>
        ensures { MatchOption result (self.now.requests ≡ []) (λ first. self.now.requests ≡ placed first ∷ drop 1 self.now.requests) }
    {
        match self.segments.front() {
            Some(segment) => Some(segment.first()),
            None => None,
        }
    }

    /// The first request, at its place, in the memory in which it lies, which gets one more owner. It takes none, and is refused
    /// with `OutOfMemory` only where there are 2^63 - 1 owners.
    pub fn share_first(&self) -> Result<Option<(Place, SharedTxn<Args>)>, Fault>
        ensures first { IfOk result (λ given. MatchOption given (self.now.requests ≡ []) (λ first. self.now.requests ≡ first ∷ drop 1 self.now.requests)) }
        ensures only { IsOkUnless result Fault.OutOfMemory }
    {
        let Some(segment) = self.segments.front() else {
            return Ok(None);
        };
        let first = segment.share_first()?;
        Ok(Some(first))
    }

    /// Takes the first request out, if there is one.
    pub fn remove_first(&mut self)
        ensures { self.new.requests ≡ drop 1 self.old.requests }
    {
        let Some(segment) = self.segments.front_mut() else {
            return;
        };
        if segment.advance() {
            return;
        }
        let _last = self.segments.pop_front();
    }

    /// Room for so many more segments. Refused with `OutOfMemory`, and only where there is less room.
    pub fn reserve(&mut self, segments: usize) -> Result<(), Fault>
        ensures ok { OnOk result (segments ≤ self.new.room) }
        ensures requests { self.new.requests ≡ self.old.requests }
        ensures kept { self.old.room ≤ self.new.room }
        ensures refused { IfErr result (λ fault. (fault ≡ Fault.OutOfMemory) × (self.old.room < segments)) }
    {
        self.segments.reserve(segments)?;
        Ok(())
    }

    /// These requests come after the others. There is room for their segments.
    pub fn append(&mut self, more: Vec<MergedSegment<Args>>)
        requires { length more.items ≤ self.old.room }
        ensures { self.new.requests ≡ self.old.requests ++ flat more.items }
    {
        for segment in more {
            self.segments.push_back_reserved(segment);
        }
    }
}
