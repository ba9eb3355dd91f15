//! Maps that can promise room.
ghost use Rattle.std.specs.Prelude.{◌≡◌, ◌-◌, ◌<◌, ◌≤◌, [], max, None, IsOk, OnOk, OnErr, IsOkUnless};
ghost use Rattle.std.specs.declared.cmp.Ordering.TheVariants.{Equal};
ghost use Rattle.std.specs.Borrow.{sem};
ghost use Rattle.std.specs.Option.{option_copied, option_copied_mut};
ghost use Rattle.std.specs.FinMap as map;
ghost use Rattle.calvin_types.specs.RoomMaps.{by};

use crate::fault::Fault;
use std::alloc::Global;
use std::collections::HashMap;
use std::hash::Hash;
use std::marker::Model;

/// A key of a map with room. Its order ties no two keys.
pub trait RoomKey: Ord + Hash + Copy {
    ghost exact: { (a b : Self) → Self.cmp a b ≡ Equal → a ≡ b };
}

/// At most one value for each key. Room for more keys can be reserved, so that a later insert isn't refused. In contracts
/// it is its entries, whose order doesn't count; what they are as a map, in the order of the keys, is what its calls say.
#[derive(Drop)]
pub struct RoomMap<K: Eq + Hash, V> {
    entries: HashMap<K, V>,
    room: usize,
}

impl<K: Eq + Hash, V> Model for RoomMap<K, V> {
    ghost use Rattle.std.specs.Prelude.{◌≤◌};
    ghost use Rattle.std.specs.HashMap.{spare};
    ghost use Rattle.calvin_types.specs.RoomMaps.{Roomy};
    ghost use Rattle.calvin_types.specs.Codes.{coded_roomy};

    ghost Value = { Roomy K V };

    ghost coded = { coded_roomy K.code V.code };

    ghost view = { λ m. record { list = m.entries.entries; room = m.room } };

    ghost invariant = { λ m. m.room ≤ spare m.entries };
}

impl<K: RoomKey, V: Drop> RoomMap<K, V> {
    ghost use Rattle.calvin_types.specs.RoomLends.{lends_at};

    /// No value, and room for none.
    pub fn new(alloc: Global) -> RoomMap<K, V>
        ensures { result ≡ record { list = []; room = 0 } }
    {
        RoomMap {
            entries: HashMap::new(alloc),
            room: 0,
        }
    }

    /// The value at a key.
    pub fn get(&self, key: K) -> Option<&V>
        ensures { option_copied result ≡ map.get (by K.cmp self.now) key }
    {
        self.entries.get(&key)
    }

    /// The value at a key, to be changed where it is. The room stays as it was.
    pub fn get_mut(&mut self, key: K) -> Option<&mut V>
        ensures* lends { sem 𝓛 (lends_at K.row V.row K.Hash K.cmp self.entry key result) }
        ensures value { option_copied_mut result ≡ map.get (by K.cmp self.old) key }
    {
        self.entries.get_mut(&key)
    }

    /// Puts a value at a key, in place of the one that is there. It takes room for one key, also where one is there.
    /// Refused with `OutOfMemory`, and only for a key that isn't there and found no room.
    pub fn insert(&mut self, key: K, value: V) -> Result<(), Fault>
        ensures ok { OnOk result (by K.cmp self.new ≡ map.insert (by K.cmp self.old) key value) }
        ensures room { OnOk result (self.new.room ≡ self.old.room - 1) }
        ensures err { OnErr result (self.new ≡ self.old) }
        ensures only { IsOkUnless result Fault.OutOfMemory }
        ensures absent { OnErr result (map.get (by K.cmp self.old) key ≡ None) }
        ensures succeeds { 0 < self.old.room → IsOk result }
    {
        match self.entries.insert(key, value) {
            Err(_) => Err(Fault::OutOfMemory),
            Ok(_) => {
                self.room = self.room.saturating_sub(1);
                Ok(())
            }
        }
    }

    /// Takes the value at a key out. The room stays as it was.
    pub fn remove(&mut self, key: K) -> Option<V>
        ensures value { result ≡ map.get (by K.cmp self.old) key }
        ensures removed { by K.cmp self.new ≡ map.remove (by K.cmp self.old) key }
        ensures room { self.new.room ≡ self.old.room }
    {
        self.entries.remove(&key)
    }

    /// Room for so many more keys at least. Refused with `OutOfMemory`.
    pub fn reserve(&mut self, keys: usize) -> Result<(), Fault>
        ensures ok { OnOk result (self.new.room ≡ max keys self.old.room) }
        ensures same { by K.cmp self.new ≡ by K.cmp self.old }
        ensures err { OnErr result (self.new ≡ self.old) }
        ensures only { IsOkUnless result Fault.OutOfMemory }
        ensures succeeds { keys ≤ self.old.room → IsOk result }
    {
        if self.room < keys {
            self.entries.reserve(keys)?;
            self.room = keys;
        }
        Ok(())
    }
}
