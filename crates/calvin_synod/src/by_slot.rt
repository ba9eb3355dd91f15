//! One value at most for each slot.
ghost use Rattle.std.specs.Prelude.{◌≡◌, ◌-◌, ◌<◌, ◌++◌, ◌∷◌, [], length, max, is_some, if◌then◌else◌, None, IsOk, OnOk, OnErr, IsOkUnless};
ghost use Rattle.std.specs.Option.{option_copied, ForSome};
ghost use Rattle.std.specs.FinMap as map;
ghost use Rattle.calvin_synod.specs.Roles.{promised};

use crate::attempt::{Attempt, Report};
use crate::vote::Recorded;
use calvin_types::{Ballot, Fault, RoomMap, Slot};
use std::alloc::Global;
use std::marker::Model;

/// At most one value for each slot. Room for some more can be reserved.
#[derive(Drop)]
pub struct BySlot<V> {
    values: RoomMap<Slot, V>,
}

impl<V> Model for BySlot<V> {
    ghost use Rattle.calvin_types.specs.Places.{slot_cmp};
    ghost use Rattle.calvin_types.specs.RoomMaps.{by};
    ghost use Rattle.calvin_synod.specs.States.{BySlot};
    ghost use Rattle.calvin_synod.specs.Codes.{coded_by_slot};

    ghost Value = { BySlot V };

    ghost coded = { coded_by_slot V.code };

    ghost view = { λ m. record { entries = by slot_cmp m.values; room = m.values.room } };
}

impl<V: Drop> BySlot<V> {
    pub fn new(alloc: Global) -> BySlot<V>
        ensures { result ≡ record { entries = map.empty; room = 0 } }
    {
        BySlot {
            values: RoomMap::new(alloc),
        }
    }

    pub fn get(&self, slot: Slot) -> Option<&V>
        ensures { option_copied result ≡ map.get self.now.entries slot }
    {
        self.values.get(slot)
    }

    /// Puts a value at a slot, in place of the one that is there.
    pub fn insert(&mut self, slot: Slot, value: V) -> Result<(), Fault>
        ensures put { OnOk result (self.new ≡ record { entries = map.insert self.old.entries slot value; room = self.old.room - 1 }) }
        ensures err { OnErr result (self.new ≡ self.old) }
        ensures only { IsOkUnless result Fault.OutOfMemory }
        ensures absent { OnErr result (map.get self.old.entries slot ≡ None) }
        ensures succeeds { 0 < self.old.room → IsOk result }
    {
        self.values.insert(slot, value)
    }

    /// Takes the value of a slot out.
    pub fn remove(&mut self, slot: Slot) -> Option<V>
        ensures value { result ≡ map.get self.old.entries slot }
        ensures removed { self.new ≡ record self.old { entries = map.remove self.old.entries slot } }
    {
        self.values.remove(slot)
    }

    /// Room for one more slot at least.
    pub fn reserve(&mut self) -> Result<(), Fault>
        ensures ok { OnOk result (self.new ≡ record self.old { room = max 1 self.old.room }) }
        ensures err { OnErr result (self.new ≡ self.old) }
        ensures only { IsOkUnless result Fault.OutOfMemory }
    {
        self.values.reserve(1)
    }
}

impl<B: Drop> BySlot<Recorded<B>> {
    /// Promises a ballot at a slot. A vote that is recorded stays. The first record of a slot takes room.
    pub fn promise(&mut self, slot: Slot, ballot: Ballot) -> Result<(), Fault>
        ensures promised { OnOk result (self.new.entries ≡ promised self.old.entries slot ballot) }
        ensures room { OnOk result (self.new.room ≡ (if is_some (map.get self.old.entries slot) then self.old.room else self.old.room - 1)) }
        ensures err { OnErr result (self.new ≡ self.old) }
        ensures only { IsOkUnless result Fault.OutOfMemory }
        ensures absent { OnErr result (map.get self.old.entries slot ≡ None) }
        ensures succeeds { 0 < self.old.room → IsOk result }
    {
        match self.values.get_mut(slot) {
            Some(recorded) => {
                recorded.promise = ballot;
                Ok(())
            }
            None => {
                self.insert(
                    slot,
                    Recorded {
                        promise: ballot,
                        vote: None,
                    },
                )?;
                Ok(())
            }
        }
    }
}

impl<B: Drop> BySlot<Attempt<B>> {
    /// Counts a report more for the attempt at a slot.
    pub fn count(&mut self, slot: Slot, report: Report<B>)
        requires few { ForSome (map.get self.old.entries slot) (λ t. length t.counted < 4) }
        ensures counted { ForSome (map.get self.old.entries slot) (λ t. self.new ≡ record self.old { entries = map.insert self.old.entries slot (record t { counted = t.counted ++ report ∷ [] }) }) }
    {
        let Some(attempt) = self.values.get_mut(slot) else {
            return;
        };
        attempt.counted.push(report);
    }
}
