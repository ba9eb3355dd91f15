//! The rows that a request writes.
ghost use Rattle.std.specs.Prelude.{◌≡◌, [], ◌∷◌, ◌++◌, ◌<◌, ◌≤◌, ◌↔◌, true, false, length, slice_get, OnOk, OnErr, IsErrOf, IsOkUnless, MatchOption};
ghost use Rattle.calvin_app.specs.EntryPlaces.{IsUnwritten, IsWrittenAt};
ghost use Rattle.calvin_types.specs.Keys.{has, are_distinct};
ghost use Rattle.calvin_app.specs.Writing.{keys_of, with_write};

use calvin_types::{Fault, Few, Key, MOST_KEYS};
use std::alloc::AllocError;
use std::marker::Model;

/// At most sixteen distinct keys with rows, in the order of their first writing, which contracts see as the list of these
/// pairs.
pub struct Writes<Row> {
    pairs: Few<(Key, Row)>,
}

impl<Row> Model for Writes<Row> {
    ghost use Rattle.std.specs.Prelude.{◌≡◌, true, List};
    ghost use Rattle.calvin_types.specs.declared.key.Key.{Key};
    ghost use Rattle.calvin_types.specs.Keys.{are_distinct};
    ghost use Rattle.calvin_app.specs.Writing.{keys_of};

    ghost Value = { List (Key × Row) };

    ghost view = { λ a. a.pairs };

    ghost invariant = { λ a. are_distinct (keys_of a.pairs) ≡ true };

    ghost inverse = { λ ws. record { pairs = ws } };
}

impl<Row: Copy> Copy for Writes<Row> {}

impl<Row: Copy> Clone for Writes<Row> {
    ghost use Rattle.std.specs.Prelude.{◌≡◌, ⊤};

    ghost is_clone = { λ x y. y ≡ x };

    ghost is_infallible = { λ _. ⊤ };

    fn clone(&self) -> Result<Writes<Row>, AllocError> {
        Ok(*self)
    }
}

impl<Row: Copy> Writes<Row> {
    /// No writes.
    pub fn new() -> Writes<Row>
        ensures { result ≡ [] }
    {
        Writes { pairs: Few::new() }
    }

    /// One row under one key.
    pub fn of(key: Key, row: Row) -> Writes<Row>
        ensures { result ≡ (key, row) ∷ [] }
    {
        let mut pairs = Few::new();
        pairs.push((key, row));
        Writes { pairs }
    }

    /// Takes all writes out. Only the places that they took are cleared.
    pub fn clear(&mut self)
        ensures { self.new ≡ [] }
    {
        self.pairs.clear();
    }

    /// How many keys are written.
    pub fn len(&self) -> usize
        ensures len { result ≡ length self.now }
        ensures at_most { length self.now ≤ MOST_KEYS }
        ensures distinct { are_distinct (keys_of self.now) ≡ true }
    {
        self.pairs.len()
    }

    /// The key with `i` keys before it, and its row: `i` is below `len()`.
    pub fn at(&self, i: usize) -> (Key, Row)
        requires { i < length self.now }
        ensures { slice_get self.now i ≡ Some result }
    {
        self.pairs.at(i)
    }

    /// Writes a row, in place of the one that is written under this key already. Refused with `TooManyKeys` where the
    /// key would be the seventeenth.
    pub fn put(&mut self, key: Key, row: Row) -> Result<(), Fault>
        ensures ok { OnOk result (self.new ≡ with_write key row self.old) }
        ensures err { OnErr result (self.new ≡ self.old) }
        ensures only { IsOkUnless result Fault.TooManyKeys }
        ensures full { IsErrOf result Fault.TooManyKeys ↔ ((length self.old ≡ MOST_KEYS) × (has (keys_of self.old) key ≡ false)) }
    {
        match find_write(&self.pairs, key) {
            Some(i) => self.pairs.set(i, (key, row)),
            None => {
                if self.pairs.len() == MOST_KEYS {
                    return Err(Fault::TooManyKeys);
                }
                self.pairs.push((key, row));
            }
        }
        Ok(())
    }

    /// Writes a row under a key that isn't written yet, of fewer than sixteen.
    pub fn push(&mut self, key: Key, row: Row)
        requires room { length self.old < MOST_KEYS }
        requires absent { has (keys_of self.old) key ≡ false }
        ensures { self.new ≡ self.old ++ (key, row) ∷ [] }
    {
        self.pairs.push((key, row));
    }
}

/// The place of a key among writes.
fn find_write<Row: Copy>(pairs: &Few<(Key, Row)>, key: Key) -> Option<usize>
    ensures { MatchOption result (IsUnwritten key pairs.now) (IsWrittenAt key pairs.now) }
{
    for i in 0..pairs.len() {
        let (k, _row) = pairs.at(i);
        if key == k {
            return Some(i);
        }
    }
    None
}
