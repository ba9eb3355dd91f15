//! Rows in a hot table and a cold one.
ghost use Rattle.std.specs.Prelude.{◌≡◌, ◌-◌, ◌<◌, ◌≤◌, true, [], ◌∷◌, ◌++◌, length, max, IsOk, IfOk, OnOk, OnErr};
ghost use Rattle.std.specs.FinMap as map;
ghost use Rattle.calvin_types.specs.declared.limits.TheConstants.{MOST_KEYS};
ghost use Rattle.calvin_types.specs.Deeds.{Did};
ghost use Rattle.calvin_app.specs.Stores.{without};
ghost use Rattle.calvin_store.specs.Kept.{IsListed};
ghost use Rattle.calvin_store.specs.Tiers.{both, names_of, AreApart, is_hot_in, cool_in, cold_of};

use crate::snapshot::Snapshot;
use crate::table::RowTable;
use calvin_types::{Fault, Key, KeySet, Sets};
use std::alloc::{AllocError, Global};
use std::marker::Model;

/// Rows by key, each in a hot table or in a cold one that stands for rows on disk (Thomson et al. 2012, section 4). What a
/// key reads is the same in either.
#[derive(Drop)]
pub(crate) struct Tiers<Row> {
    hot: RowTable<Row>,
    cold: RowTable<Row>,
}

impl<Row> Model for Tiers<Row> {
    ghost use Rattle.calvin_store.specs.Tiers.{Tiered, coded_tiered, both, names_of, AreApart};

    ghost Value = { Tiered Row };

    ghost coded = { coded_tiered Row.code };

    ghost view = { λ t. record { rows = both t.hot.rows t.cold.rows; cold = names_of t.cold.rows; room = t.hot.room } };

    ghost invariant = { λ t. AreApart t.hot.rows t.cold.rows };
}

impl<Row: Copy> Tiers<Row> {
    /// No rows, and no room.
    pub fn new(alloc: Global) -> Tiers<Row>
        ensures { result ≡ record { rows = map.empty; cold = map.empty; room = 0 } }
    {
        Tiers {
            hot: RowTable::new(alloc),
            cold: RowTable::new(alloc),
        }
    }

    /// The rows of a snapshot, which are hot, and room for so many more.
    pub fn of(
        alloc: Global,
        snapshot: &Snapshot<Row>,
        room: usize,
    ) -> Result<Tiers<Row>, AllocError>
        ensures { IfOk result (λ t. t ≡ record { rows = snapshot.now; cold = map.empty; room = room }) }
    {
        let hot = RowTable::of(alloc, snapshot, room)?;
        Ok(Tiers {
            hot,
            cold: RowTable::new(alloc),
        })
    }

    /// How many keys have a row.
    pub fn len(&self) -> usize
        ensures { result ≡ map.len self.now.rows }
    {
        self.hot.len() + self.cold.len()
    }

    /// The row of a key, if it has one.
    pub fn get(&self, key: &Key) -> Option<Row>
        ensures { result ≡ map.get self.now.rows key.now }
    {
        if let Some(row) = self.hot.get(key) {
            return Some(row);
        }
        self.cold.get(key)
    }

    /// Whether a key has a row that isn't cold.
    pub fn is_hot(&self, key: &Key) -> bool
        ensures { result ≡ is_hot_in self.now key.now }
    {
        self.hot.get(key).is_some()
    }

    /// How many rows can be put without growing.
    pub fn room(&self) -> usize
        ensures { result ≡ self.now.room }
    {
        self.hot.room()
    }

    /// Makes room for `n` rows at least.
    pub fn reserve(&mut self, n: usize) -> Result<(), AllocError>
        ensures ok { OnOk result (self.new ≡ record self.old { room = max n self.old.room }) }
        ensures err { OnErr result (self.new ≡ self.old) }
        ensures succeeds { n ≤ self.old.room → IsOk result }
    {
        self.hot.reserve(n)
    }

    /// Puts a row under a key, which uses up room for one, and gives the row that the key had. The row is hot.
    pub fn put(&mut self, key: Key, row: Row) -> Option<Row>
        requires { 0 < self.old.room }
        ensures new { self.new ≡ record { rows = map.insert self.old.rows key row; cold = without self.old.cold (key ∷ []); room = self.old.room - 1 } }
        ensures had { result ≡ map.get self.old.rows key }
    {
        match self.hot.put(key, row) {
            Some(had) => Some(had),
            None => self.cold.take(&key),
        }
    }

    /// Each key that has a row, with its row, in no order that counts.
    pub fn pairs(&self, alloc: Global) -> Result<Vec<(Key, Row)>, AllocError>
        ensures { IfOk result (λ pairs. IsListed pairs.items self.now.rows) }
    {
        let mut pairs = self.hot.pairs(alloc)?;
        let mut cold = self.cold.pairs(alloc)?;
        pairs.append(&mut cold)?;
        Ok(pairs)
    }

    /// The rows of the keys of these sets come back from the cold table, where they are there. The room stays. Memory is
    /// asked for before the first row comes back, and only for the keys whose row is cold.
    pub fn warm(&mut self, sets: &Sets) -> Result<(), AllocError>
        ensures ok { OnOk result (self.new ≡ record self.old { cold = without self.old.cold (sets.now.reads ++ sets.now.writes) }) }
        ensures err { OnErr result (self.new ≡ self.old) }
        ensures succeeds { cold_of self.old.cold (sets.now.reads ++ sets.now.writes) ≡ [] → IsOk result }
    {
        let room = self.hot.room();
        let cold = count_cold(&self.cold, &sets.reads) + count_cold(&self.cold, &sets.writes);
        let Some(wanted) = room.checked_add(cold) else {
            return Err(AllocError);
        };
        self.hot.reserve(wanted)?;
        warm(&mut self.hot, &mut self.cold, &sets.reads);
        warm(&mut self.hot, &mut self.cold, &sets.writes);
        self.hot.limit_room(room);
        Ok(())
    }

    /// The row of a key goes to the cold table. Refused with `NoRow` where the key has no row that isn't cold; else with
    /// `OutOfMemory` where a growth was refused.
    pub fn cool(&mut self, key: &Key) -> Result<(), Fault>
        ensures { Did true result (cool_in key.now self.old) self.old self.new }
    {
        let Some(row) = self.hot.get(key) else {
            return Err(Fault::NoRow);
        };
        self.cold.reserve(1)?;
        self.hot.take(key);
        self.cold.put(*key, row);
        Ok(())
    }
}

/// How many of these keys have a cold row.
fn count_cold<Row: Copy>(cold: &RowTable<Row>, keys: &KeySet) -> usize
    ensures count { result ≡ length (cold_of (names_of cold.now.rows) keys.now) }
    ensures at_most { result ≤ MOST_KEYS }
{
    let mut count = 0;
    for i in 0..keys.len() {
        if cold.get(&keys.at(i)).is_some() {
            count += 1;
        }
    }
    count
}

/// The rows of these keys go from the cold table to the hot one, where they are there. There is room for each of these.
fn warm<Row: Copy>(hot: &mut RowTable<Row>, cold: &mut RowTable<Row>, keys: &KeySet)
    requires apart { AreApart hot.old.rows cold.old.rows }
    requires room { length (cold_of (names_of cold.old.rows) keys.now) ≤ hot.old.room }
    ensures apart { AreApart hot.new.rows cold.new.rows }
    ensures rows { both hot.new.rows cold.new.rows ≡ both hot.old.rows cold.old.rows }
    ensures cold { names_of cold.new.rows ≡ without (names_of cold.old.rows) keys.now }
    ensures room { hot.old.room - length (cold_of (names_of cold.old.rows) keys.now) ≤ hot.new.room }
{
    for i in 0..keys.len() {
        let key = keys.at(i);
        if let Some(row) = cold.take(&key) {
            hot.put(key, row);
        }
    }
}
