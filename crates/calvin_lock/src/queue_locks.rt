//! Locks as a queue for each key.
ghost use Rattle.std.specs.Prelude.{◌≡◌, List, [], true, false, None, OnOk, IsOkUnless};
ghost use Rattle.calvin_types.specs.declared.key.Key.{Key};
ghost use Rattle.calvin_types.specs.declared.place.Place.{Place};
ghost use Rattle.calvin_lock.specs.declared.queue.Kind.{Kind};
ghost use Rattle.calvin_lock.specs.declared.queue.Ask.{Ask};
ghost use Rattle.calvin_lock.specs.Queues.{asked, waits_of, queue_at, AreQueuesOrEmpty, HasRoomAt};
ghost use Rattle.calvin_lock.specs.Unreleased.{Among, IsUnreleased, HasPlace};

use crate::kept_sets::KeptSets;
use crate::list_locks::is_past;
use crate::locks::Locks;
use crate::queue::Kind;
use crate::queues::Queues;
use crate::unreleased::Unreleased;
use calvin_types::{Fault, KeySet, Place};
use std::alloc::Global;
use std::marker::Model;

/// Locks as a queue for each key that an unreleased place asks for, and for each unreleased place the number of its keys
/// that it waits for. A request and a release take expected time in proportion to the place's keys and to the keys that
/// others come to hold by it, and logarithmic time for each place that becomes ready or is released. `is_ready` takes
/// constant expected time, and `first_ready` logarithmic time. A request may come to a tidying, in time linear in the
/// unreleased places; so many requests come before the next that it adds a constant to each of them.
/// The hash has a fixed seed: keys that were chosen to collide make it slow and never wrong.
#[derive(Drop)]
pub struct QueueLocks {
    queues: Queues,
    unreleased: Unreleased,
    last: Option<Place>,
}

impl Model for QueueLocks {
    ghost use Rattle.std.specs.FinMap.{from_entries};
    ghost use Rattle.calvin_lock.specs.Locking.{Locking};
    ghost use Rattle.calvin_lock.specs.LocksCode.{coded_locking};
    ghost use Rattle.calvin_lock.specs.Queued.{requests_of, IsQueued};

    ghost Value = { Locking };

    ghost coded = { coded_locking };

    ghost view = { λ l. record { requested = from_entries (requests_of l.unreleased.places.entries); last = l.last } };

    ghost invariant = { λ l. IsQueued l.queues.queues.entries l.unreleased l.last };
}

/// Makes room for a place with these keys in each of its queues, and among the unreleased places.
fn reserve(
    queues: &mut Queues,
    unreleased: &mut Unreleased,
    reads: &KeySet,
    writes: &KeySet,
) -> Result<(), Fault>
    requires { IsUnreleased unreleased.old }
    ensures kept { IsUnreleased unreleased.new }
    ensures places { unreleased.new.places.entries ≡ unreleased.old.places.entries }
    ensures order { (q : Place) → Among unreleased.new.order.items q → Among unreleased.old.order.items q }
    ensures queues { (asks : Key → List Ask) → AreQueuesOrEmpty asks queues.old.queues.entries → AreQueuesOrEmpty asks queues.new.queues.entries }
    ensures waits { (q : Place) → waits_of q queues.new.queues.entries ≡ waits_of q queues.old.queues.entries }
    ensures others { (k : Key) → asked writes.now [] k ≡ false → asked reads.now writes.now k ≡ false → queue_at queues.old.queues.entries k ≡ None → queue_at queues.new.queues.entries k ≡ None }
    ensures place { OnOk result (HasPlace unreleased.new) }
    ensures writes { OnOk result ((k : Key) → asked writes.now [] k ≡ true → HasRoomAt queues.new.queues.entries k Kind.Exclusive) }
    ensures reads { OnOk result ((k : Key) → asked reads.now writes.now k ≡ true → HasRoomAt queues.new.queues.entries k Kind.Shared) }
    ensures only { IsOkUnless result Fault.OutOfMemory }
{
    unreleased.reserve()?;
    queues.reserve(writes, &KeySet::new(), Kind::Exclusive)?;
    queues.reserve(reads, writes, Kind::Shared)
}

impl Locks for QueueLocks {
    ghost kept = { λ l. l };

    fn empty(alloc: Global) -> QueueLocks {
        QueueLocks {
            queues: Queues::new(alloc),
            unreleased: Unreleased::new(alloc),
            last: None,
        }
    }

    fn request(&mut self, place: Place, reads: &KeySet, writes: &KeySet) -> Result<(), Fault> {
        if !is_past(self.last, place) {
            return Err(Fault::LocksOutOfOrder);
        }
        if reads.is_empty() && writes.is_empty() {
            return Err(Fault::NoKeys);
        }
        let sets = KeptSets::new(self.queues.alloc, reads, writes)?;
        if let Err(fault) = reserve(&mut self.queues, &mut self.unreleased, reads, writes) {
            self.queues.drop_all_empty(writes);
            self.queues.drop_all_empty(reads);
            return Err(fault);
        }
        let exclusive = self
            .queues
            .join(place, writes, &KeySet::new(), Kind::Exclusive);
        let shared = self.queues.join(place, reads, writes, Kind::Shared);
        let waits = exclusive + shared;
        self.unreleased.add(place, sets, waits);
        self.last = Some(place);
        Ok(())
    }

    fn is_ready(&self, place: Place) -> bool {
        self.unreleased.is_ready(place)
    }

    fn release(&mut self, place: Place) -> Result<(), Fault> {
        match self.unreleased.take(place) {
            Some(kept) => {
                let (reads, writes) = (kept.reads(), kept.writes());
                self.queues.leave(&mut self.unreleased, writes, &[]);
                self.queues.leave(&mut self.unreleased, reads, writes);
                drop(kept);
                Ok(())
            }
            None => Err(Fault::NotHeld),
        }
    }

    fn first_ready(&self, after: Option<Place>) -> Option<Place> {
        self.unreleased.first_ready(after)
    }

    fn up_to_last(&self) {
        let _last = self.last;
    }
}
