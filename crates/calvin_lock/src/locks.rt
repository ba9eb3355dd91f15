//! What a lock manager is.
ghost use Rattle.std.specs.Prelude.{◌≡◌, ◌≢◌, ◌↔◌, ◌⊎◌, IsTrue, IsOk, IfErr, IsErrOf, OnOk, OnErr, IsOkUnless};
ghost use Rattle.calvin_types.specs.declared.key_set.Sets.{Sets};
ghost use Rattle.calvin_types.specs.declared.place.Place.{Place};
ghost use Rattle.calvin_lock.specs.Ready.{IsReady, IsPast, IsFirstReady, IsOldest};
ghost use Rattle.calvin_lock.specs.Locking.{IsNoKey, no_locks, IsUpToLast, with_request, without};

use calvin_types::{Fault, KeySet, Place};
use std::alloc::Global;

/// A lock manager: the places that requested locks and haven't released them, with the keys that each reads and writes.
/// A place asks for shared locks on the keys that it only reads and for exclusive locks on those that it writes, also
/// where it reads them too. Locks are requested once for each place, in ascending order of the places, and each is
/// granted strictly in the order of the requests, so a place is ready as soon as no earlier unreleased one conflicts
/// with it (Thomson et al. 2012, section 3).
pub trait Locks {
    ghost use Rattle.calvin_lock.specs.Locking.{Locking};

    /// The unreleased places with their keys, and the last place requested.
    ghost kept: { Self → Locking };

    /// No place has requested locks.
    fn empty(alloc: Global) -> Self
        ensures { kept result ≡ no_locks };

    /// Requests the locks of a place: shared ones on the keys that it only reads, exclusive ones on those that it
    /// writes. Refused with `LocksOutOfOrder` where the place isn't greater than the last one requested; else with
    /// `NoKeys` where both sets are empty; else with `OutOfMemory` where a growth was refused.
    fn request(&mut self, place: Place, reads: &KeySet, writes: &KeySet) -> Result<(), Fault>
        ensures ok { OnOk result (kept self.new ≡ with_request place (record { reads = reads.now; writes = writes.now }) (kept self.old)) }
        ensures err { OnErr result (kept self.new ≡ kept self.old) }
        ensures in_order { OnOk result (IsPast (kept self.old).last place) }
        ensures out_of_order { IsErrOf result Fault.LocksOutOfOrder ↔ ¬ IsPast (kept self.old).last place }
        ensures no_keys { IsErrOf result Fault.NoKeys ↔ (IsPast (kept self.old).last place × IsNoKey reads.now writes.now) }
        ensures only { IfErr result (λ fault. (fault ≡ Fault.LocksOutOfOrder) ⊎ ((fault ≡ Fault.NoKeys) ⊎ (fault ≡ Fault.OutOfMemory))) };

    /// Whether a place holds all its locks: it is requested and unreleased, and conflicts with no earlier unreleased
    /// place on a key. It takes no memory.
    fn is_ready(&self, place: Place) -> bool
        ensures { IsTrue result ↔ IsReady (kept self.now).requested place };

    /// Releases the locks of a place. Refused with `NotHeld` where the place isn't ready, so also where it wasn't
    /// requested or was released already. It takes no memory.
    fn release(&mut self, place: Place) -> Result<(), Fault>
        ensures ok { OnOk result (kept self.new ≡ without place (kept self.old)) }
        ensures err { OnErr result (kept self.new ≡ kept self.old) }
        ensures held { IsOk result ↔ IsReady (kept self.old).requested place }
        ensures only { IsOkUnless result Fault.NotHeld };

    /// The least ready place, of those greater than `after` where one is given. It takes no memory.
    fn first_ready(&self, after: Option<Place>) -> Option<Place>
        ensures { IsFirstReady (kept self.now).requested after result };

    /// No requested place is past the last one. The call only says so, and does nothing.
    fn up_to_last(&self)
        ensures { IsUpToLast (kept self.now) };
}

/// The least unreleased place is always ready: so those that wait never wait for one another in a circle.
#[tactic(auto, using(crate::proofs::ReadyLaws::oldest_ready))]
pub fn oldest_is_ready<L: Locks>(locks: &L)
    ensures { (place : Place) → IsOldest (L.kept locks.now).requested place → IsReady (L.kept locks.now).requested place }
{}

/// A ready place stays ready when a later one is requested, and when another is released: so whoever holds its locks
/// keeps them until it releases them.
#[tactic(auto, using(crate::proofs::ReadyLaws::ready_without))]
pub fn ready_stays<L: Locks>(locks: &L)
    ensures requested { let l = L.kept locks.now in (q later : Place) (sets : Sets) → IsReady l.requested q → IsPast l.last later → IsReady (with_request later sets l).requested q }
    ensures released { let l = L.kept locks.now in (q other : Place) → IsReady l.requested q → q ≢ other → IsReady (without other l).requested q }
{
    locks.up_to_last();
}
