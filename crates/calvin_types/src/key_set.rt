//! Sets of at most sixteen keys, and the two sets that a request declares.
ghost use Rattle.std.specs.Prelude.{◌≡◌, ◌==◌, ℕ, ◌+◌, ◌<◌, ◌≤◌, ◌↔◌, [], ◌∷◌, length, IsTrue, false, nat_le, slice_get, ◌⊎◌, IfErr, IfOk, OnOk, OnErr, IsErr, IsErrOf, IsOkUnless, MatchOption};
ghost use Rattle.std.specs.List.{filter, list_any, list_all};
ghost use Rattle.calvin_types.specs.KeyPlaces.{IsThere, IsMissingAt};
ghost use Rattle.calvin_types.specs.Keys.{rises, has, insert_key, insert_all, are_distinct, takes, partition_of};
ghost use Rattle.calvin_types.specs.Participants.{site, is_local, local_keys};

use crate::config::Config;
use crate::fault::Fault;
use crate::key::Key;
use crate::key_list::KeyList;
use crate::limits::MOST_KEYS;
use std::marker::Model;

/// A set of at most sixteen keys, which contracts see as the list of its keys, rising. It stands in the value itself,
/// so copying it allocates nothing.
#[derive(Clone, Copy, Debug, PartialEq, Eq)]
pub struct KeySet {
    keys: KeyList,
}

impl Model for KeySet {
    ghost use Rattle.std.specs.Prelude.{List, length, IsTrue};
    ghost use Rattle.calvin_types.specs.declared.key.Key.{Key};
    ghost use Rattle.calvin_types.specs.Keys.{rises};

    ghost Value = { List Key };

    ghost view = { λ s. s.keys };

    ghost invariant = { λ s. IsTrue (rises s.keys) };

    ghost inverse = { λ ks. record { keys = ks } };
}

impl KeySet {
    /// The set of no key.
    pub fn new() -> KeySet
        ensures { result ≡ [] }
    {
        KeySet {
            keys: KeyList::new(),
        }
    }

    /// The set of one key.
    pub fn of(key: Key) -> KeySet
        ensures { result ≡ key ∷ [] }
    {
        KeySet {
            keys: KeyList::of(key),
        }
    }

    /// How many keys there are.
    pub fn len(&self) -> usize
        ensures len { result ≡ length self.now }
        ensures at_most { length self.now ≤ MOST_KEYS }
        ensures rising { IsTrue (rises self.now) }
    {
        self.keys.len()
    }

    /// Whether there is no key.
    pub fn is_empty(&self) -> bool
        ensures { IsTrue result ↔ (length self.now ≡ 0) }
    {
        self.keys.len() == 0
    }

    /// The key with `i` keys below it: `i` is below `len()`.
    pub fn at(&self, i: usize) -> Key
        requires { i < length self.now }
        ensures { slice_get self.now i ≡ Some result }
    {
        self.keys.at(i)
    }

    /// The key with `i` keys below it, if there is one.
    pub fn get(&self, i: usize) -> Option<Key>
        ensures { result ≡ slice_get self.now i }
    {
        if i < self.keys.len() {
            Some(self.keys.at(i))
        } else {
            None
        }
    }

    /// Whether the key is in the set.
    pub fn has(&self, key: Key) -> bool
        ensures { result ≡ has self.now key }
    {
        free_place(&self.keys, key).is_none()
    }

    /// Adds a key, unless it is there. Refused with `TooManyKeys` where it would be the seventeenth.
    pub fn insert(&mut self, key: Key) -> Result<(), Fault>
        ensures ok { OnOk result (self.new ≡ insert_key key self.old) }
        ensures err { OnErr result (self.new ≡ self.old) }
        ensures only { IsOkUnless result Fault.TooManyKeys }
        ensures full { IsErr result ↔ (MOST_KEYS < length (insert_key key self.old)) }
        ensures at_most { length self.new ≤ MOST_KEYS }
    {
        if let Some(i) = free_place(&self.keys, key) {
            if self.keys.len() == MOST_KEYS {
                return Err(Fault::TooManyKeys);
            }
            self.put(i, key);
        }
        Ok(())
    }

    /// Adds a key to fewer than sixteen, unless it is there. Keys that come in their order are each found at once to be
    /// above the others.
    #[inline(always)]
    pub fn grow(&mut self, key: Key)
        requires { length self.old < MOST_KEYS }
        ensures { self.new ≡ insert_key key self.old }
    {
        if is_above_all(&self.keys, key) {
            self.put_last(key);
        } else {
            self.grow_among(key);
        }
    }

    /// The same as `grow`, wherever the key goes. It stands apart, so that `grow` is put into its callers.
    #[inline(never)]
    fn grow_among(&mut self, key: Key)
        requires { length self.old < MOST_KEYS }
        ensures { self.new ≡ insert_key key self.old }
    {
        match free_place(&self.keys, key) {
            Some(i) => self.put(i, key),
            None => {}
        }
    }

    /// Adds a key and says so, where it isn't there yet and there are fewer than sixteen; else the set stays as it is.
    pub fn add(&mut self, key: Key) -> bool
        ensures whether { result ≡ takes key self.old }
        ensures added { IsTrue result → self.new ≡ insert_key key self.old }
        ensures kept { result ≡ false → self.new ≡ self.old }
        ensures at_most { length self.new ≤ MOST_KEYS }
    {
        match free_place(&self.keys, key) {
            Some(i) if self.keys.len() < MOST_KEYS => {
                self.put(i, key);
                true
            }
            _ => false,
        }
    }

    /// Adds a key as `add` does, for who gives the set up where the key can't be added: then no key is left. It looks from
    /// the greatest key on, and moves those above the new one as it passes them.
    pub fn add_or_clear(&mut self, key: Key) -> bool
        ensures whether { result ≡ takes key self.old }
        ensures added { IsTrue result → self.new ≡ insert_key key self.old }
        ensures cleared { result ≡ false → self.new ≡ [] }
        ensures at_most { length self.new ≤ MOST_KEYS }
    {
        if self.keys.len() < MOST_KEYS && put_from_end(&mut self.keys, key) {
            return true;
        }
        self.keys = KeyList::new();
        false
    }

    /// Puts a key that is missing at its place, for which there is room.
    fn put(&mut self, i: usize, key: Key)
        requires missing { IsMissingAt key self.old i }
        requires room { length self.old < MOST_KEYS }
        ensures { self.new ≡ insert_key key self.old }
    {
        self.keys.insert(i, key);
    }

    /// Puts a key that is above all others at the end, where there is room.
    #[inline(always)]
    fn put_last(&mut self, key: Key)
        requires missing { IsMissingAt key self.old (length self.old) }
        requires room { length self.old < MOST_KEYS }
        ensures { self.new ≡ insert_key key self.old }
    {
        self.keys.push(key);
    }

    /// The keys of both sets. Refused with `TooManyKeys` where these are more than sixteen.
    pub fn union(&self, other: &KeySet) -> Result<KeySet, Fault>
        ensures ok { IfOk result (λ all. all ≡ insert_all other.now self.now) }
        ensures only { IsOkUnless result Fault.TooManyKeys }
        ensures full { IsErr result ↔ (MOST_KEYS < length (insert_all other.now self.now)) }
    {
        let mut all = *self;
        let _size = all.len();
        for i in 0..other.len() {
            all.insert(other.at(i))?;
        }
        Ok(all)
    }

    /// The keys that a partition stores; none for a number that isn't a partition's.
    pub fn part(&self, config: &Config, partition: u8) -> KeySet
        ensures { result ≡ local_keys (site config.now.partitions partition) self.now }
    {
        let mut keys = KeyList::new();
        for i in 0..self.keys.len() {
            let key = self.keys.at(i);
            if config.partition_of(&key) == partition {
                keys.push(key);
            }
        }
        KeySet { keys }
    }

    /// The keys of a table.
    pub fn of_table(&self, table: u8) -> KeySet
        ensures keys { result ≡ filter (λ k. k.table == table) self.now }
        ensures at_most { length result ≤ MOST_KEYS }
    {
        let mut keys = KeyList::new();
        for i in 0..self.keys.len() {
            let key = self.keys.at(i);
            if key.table == table {
                keys.push(key);
            }
        }
        KeySet { keys }
    }

    /// Whether a partition stores one of the keys.
    pub fn has_local(&self, config: &Config, partition: u8) -> bool
        ensures { result ≡ list_any (is_local (site config.now.partitions partition)) self.now }
    {
        for i in 0..self.len() {
            if config.partition_of(&self.at(i)) == partition {
                return true;
            }
        }
        false
    }

    /// Whether no key is stored in a lower partition; so it is of the empty set.
    pub fn is_none_below(&self, config: &Config, partition: u8) -> bool
        ensures { result ≡ list_all (λ k. nat_le partition (partition_of config.now.partitions k)) self.now }
    {
        for i in 0..self.len() {
            if config.partition_of(&self.at(i)) < partition {
                return false;
            }
        }
        true
    }

    /// The set of distinct keys, in any order. Refused with `TooManyKeys` for more than sixteen keys, and with
    /// `Repeated` where one comes twice.
    pub fn from_slice(keys: &[Key]) -> Result<KeySet, Fault>
        ensures ok { IfOk result (λ all. all ≡ insert_all keys.now []) }
        ensures many { IsErrOf result Fault.TooManyKeys ↔ (MOST_KEYS < length keys.now) }
        ensures only { IfErr result (λ fault. (fault ≡ Fault.TooManyKeys) ⊎ (fault ≡ Fault.Repeated)) }
        ensures repeated { IsErrOf result Fault.Repeated ↔ ((length keys.now ≤ MOST_KEYS) × (are_distinct keys.now ≡ false)) }
    {
        if keys.len() > MOST_KEYS {
            return Err(Fault::TooManyKeys);
        }
        let mut all = KeySet::new();
        for &key in keys {
            let before = all.len();
            all.insert(key)?;
            if all.len() == before {
                return Err(Fault::Repeated);
            }
        }
        Ok(all)
    }
}

/// The place that a key would take, unless it is among the keys.
fn free_place(keys: &KeyList, key: Key) -> Option<usize>
    requires { IsTrue (rises keys.now) }
    ensures { MatchOption result (IsThere key keys.now) (IsMissingAt key keys.now) }
{
    for i in 0..keys.len() {
        let other = keys.at(i);
        if key <= other {
            return if key == other { None } else { Some(i) };
        }
    }
    Some(keys.len())
}

/// Whether a key is above all others, so that it would stand at the end.
#[inline(always)]
fn is_above_all(keys: &KeyList, key: Key) -> bool
    requires { IsTrue (rises keys.now) }
    ensures { IsTrue result → IsMissingAt key keys.now (length keys.now) }
{
    let size = keys.len();
    if size == 0 {
        return true;
    }
    keys.at(size - 1) < key
}

/// Puts a key among fewer than sixteen that rise, and says so, unless it is there; then any keys may be left.
fn put_from_end(keys: &mut KeyList, key: Key) -> bool
    requires rising { IsTrue (rises keys.old) }
    requires room { length keys.old < MOST_KEYS }
    ensures put { IsTrue result → keys.new ≡ insert_key key keys.old }
    ensures longer { IsTrue result → length (insert_key key keys.old) ≡ length keys.old + 1 }
    ensures there { result ≡ false → insert_key key keys.old ≡ keys.old }
{
    let mut i = keys.len();
    keys.push(key);
    while i > 0 {
        let other = keys.at(i - 1);
        if other <= key {
            if other == key {
                return false;
            }
            keys.set(i, key);
            return true;
        }
        keys.set(i, other);
        i -= 1;
    }
    keys.set(0, key);
    true
}

/// The keys that a request declares that it reads, and those that it writes (Thomson et al. 2012, section 3.2: a
/// transaction's read set and write set are known before it is ordered). A key may be in both.
#[derive(Clone, Copy, Debug, PartialEq, Eq)]
pub struct Sets {
    pub reads: KeySet,
    pub writes: KeySet,
}
