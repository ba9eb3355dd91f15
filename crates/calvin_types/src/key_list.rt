//! At most sixteen keys in a row, which need no memory of their own.
ghost use Rattle.std.specs.Prelude.{◌≡◌, ◌≤◌, ◌<◌, ◌+◌, [], ◌∷◌, ◌++◌, length, slice_get, slice_set};
ghost use Rattle.std.specs.List.{insert};

use crate::key::Key;
use crate::limits::MOST_KEYS;
use std::marker::Model;

/// At most sixteen keys, which contracts see as their list. Tables and numbers stand apart, so that a key takes nine
/// bytes and not sixteen; unused places are zero.
#[derive(Clone, Copy, Debug)]
pub(crate) struct KeyList {
    tables: [u8; MOST_KEYS],
    ids: [u64; MOST_KEYS],
    size: usize,
}

impl Model for KeyList {
    ghost use Rattle.std.specs.Prelude.{List, length};
    ghost use Rattle.calvin_types.specs.declared.key.Key.{Key};
    ghost use Rattle.calvin_types.specs.KeyList.{IsKeyList, keys_of, tables_of, ids_of};

    ghost Value = { List Key };

    ghost view = { λ s. keys_of s.tables s.ids s.size };

    ghost invariant = { λ s. IsKeyList s.tables s.ids s.size };

    ghost inverse = { λ ks. record { tables = tables_of ks; ids = ids_of ks; size = length ks } };

    ghost inverse_ok = { λ a h i. record { tables = h.tables_are i; ids = h.ids_are i; size = h.size_is i } };
}

impl PartialEq for KeyList {
    ghost use Rattle.calvin_types.specs.SameKeys.{same_keys};
    ghost use Rattle.calvin_types.specs.SameKeysLaws.{same_keys_per};

    ghost eq = { same_keys };

    ghost laws = { same_keys_per };

    fn eq(&self, other: &KeyList) -> bool {
        if self.len() != other.len() {
            return false;
        }
        for i in 0..self.len() {
            if self.at(i) != other.at(i) {
                return false;
            }
        }
        true
    }
}

impl Eq for KeyList {
    ghost use Rattle.calvin_types.specs.SameKeysLaws.{same_keys_equiv};

    ghost laws = { same_keys_equiv };
}

impl KeyList {
    /// No keys.
    pub(crate) fn new() -> KeyList
        ensures { result ≡ [] }
    {
        KeyList {
            tables: [0; MOST_KEYS],
            ids: [0; MOST_KEYS],
            size: 0,
        }
    }

    /// One key.
    pub(crate) fn of(key: Key) -> KeyList
        ensures { result ≡ key ∷ [] }
    {
        KeyList {
            tables: [key.table, 0, 0, 0, 0, 0, 0, 0, 0, 0, 0, 0, 0, 0, 0, 0],
            ids: [key.id, 0, 0, 0, 0, 0, 0, 0, 0, 0, 0, 0, 0, 0, 0, 0],
            size: 1,
        }
    }

    /// How many keys there are.
    pub(crate) fn len(&self) -> usize
        ensures len { result ≡ length self.now }
        ensures at_most { length self.now ≤ MOST_KEYS }
    {
        self.size
    }

    /// The key with `i` keys before it.
    pub(crate) fn at(&self, i: usize) -> Key
        requires { i < length self.now }
        ensures { slice_get self.now i ≡ Some result }
    {
        let size = self.size;
        prove!(i < size);
        Key {
            table: self.tables[i],
            id: self.ids[i],
        }
    }

    /// Puts a key at the end.
    pub(crate) fn push(&mut self, key: Key)
        requires { length self.old < MOST_KEYS }
        ensures { self.new ≡ self.old ++ key ∷ [] }
    {
        let size = self.size;
        self.tables[size] = key.table;
        self.ids[size] = key.id;
        self.size = size + 1;
    }

    /// Puts a key in place of the one with `i` keys before it.
    pub(crate) fn set(&mut self, i: usize, key: Key)
        requires { i < length self.old }
        ensures { self.new ≡ slice_set self.old i key }
    {
        let size = self.size;
        prove!(i < size);
        self.tables[i] = key.table;
        self.ids[i] = key.id;
    }

    /// Puts a key behind the first `i`, and moves those that follow by one.
    pub(crate) fn insert(&mut self, i: usize, key: Key)
        requires at_most { i ≤ length self.old }
        requires room { length self.old < MOST_KEYS }
        ensures { self.new ≡ insert self.old i key }
    {
        let mut carried = key;
        for j in i..self.len() {
            let next = self.at(j);
            self.set(j, carried);
            carried = next;
        }
        self.push(carried);
    }
}
