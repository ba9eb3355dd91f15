//! Rows in one hash map.
ghost use Rattle.std.specs.Prelude.{◌≡◌, ◌-◌, ◌^◌, ◌<◌, ◌≤◌, max, min, IsOk, IfOk, OnOk, OnErr};
ghost use Rattle.std.specs.FinMap as map;
ghost use Rattle.calvin_store.specs.Kept.{IsListed};

use crate::snapshot::Snapshot;
use calvin_types::Key;
use std::alloc::{AllocError, Global};
use std::collections::HashMap;
use std::marker::Model;

/// A table that is cleared keeps its memory where it has places for no more rows than this.
const MOST_PLACES_KEPT: usize = 64;

/// Rows by key, and room for more: a row is found or written in expected constant time. The hash has a fixed seed: keys
/// that were chosen to collide make it slow and never wrong.
#[derive(Drop)]
pub(crate) struct RowTable<Row> {
    rows: HashMap<Key, Row>,
    room: usize,
}

impl<Row> Model for RowTable<Row> {
    ghost use Rattle.std.specs.Prelude.{◌≤◌};
    ghost use Rattle.std.specs.FinMap.{from_entries};
    ghost use Rattle.std.specs.HashMap.{spare};
    ghost use Rattle.calvin_store.specs.Kept.{Kept, coded_kept};

    ghost Value = { Kept Row };

    ghost coded = { coded_kept Row.code };

    ghost view = { λ t. record { rows = from_entries t.rows.entries; room = t.room } };

    ghost invariant = { λ t. t.room ≤ spare t.rows };
}

impl<Row: Copy> RowTable<Row> {
    /// No rows, and no room.
    pub fn new(alloc: Global) -> RowTable<Row>
        ensures { result ≡ record { rows = map.empty; room = 0 } }
    {
        RowTable {
            rows: HashMap::new(alloc),
            room: 0,
        }
    }

    /// The rows of a snapshot, and room for so many more.
    pub fn of(
        alloc: Global,
        snapshot: &Snapshot<Row>,
        room: usize,
    ) -> Result<RowTable<Row>, AllocError>
        ensures { IfOk result (λ t. t ≡ record { rows = snapshot.now; room = room }) }
    {
        let mut rows: HashMap<Key, Row> = snapshot.pairs().iter().copied().collect(alloc)?;
        rows.reserve(room)?;
        Ok(RowTable { rows, room })
    }

    /// How many keys have a row.
    pub fn len(&self) -> usize
        ensures len { result ≡ map.len self.now.rows }
        ensures small { result < 2 ^ 63 }
    {
        self.rows.len()
    }

    /// The row of a key, if it has one.
    pub fn get(&self, key: &Key) -> Option<Row>
        ensures { result ≡ map.get self.now.rows key.now }
    {
        self.rows.get(key).copied()
    }

    /// How many rows can be put without growing.
    pub fn room(&self) -> usize
        ensures { result ≡ self.now.room }
    {
        self.room
    }

    /// Makes room for `n` rows at least.
    pub fn reserve(&mut self, n: usize) -> Result<(), AllocError>
        ensures ok { OnOk result (self.new ≡ record self.old { room = max n self.old.room }) }
        ensures err { OnErr result (self.new ≡ self.old) }
        ensures succeeds { n ≤ self.old.room → IsOk result }
    {
        if self.room < n {
            self.rows.reserve(n)?;
            self.room = n;
        }
        Ok(())
    }

    /// Keeps room for no more than `n` rows. No memory is given back.
    pub fn limit_room(&mut self, n: usize)
        ensures { self.new ≡ record self.old { room = min n self.old.room } }
    {
        if n < self.room {
            self.room = n;
        }
    }

    /// Puts a row under a key, which uses up room for one, and gives the row that the key had.
    pub fn put(&mut self, key: Key, row: Row) -> Option<Row>
        requires { 0 < self.old.room }
        ensures new { self.new ≡ record { rows = map.insert self.old.rows key row; room = self.old.room - 1 } }
        ensures had { result ≡ map.get self.old.rows key }
    {
        let put: Result<_, _> = self.rows.insert(key, row);
        let had = put.unwrap();
        self.room -= 1;
        had
    }

    /// Takes the row of a key out, if it has one. The room stays.
    pub fn take(&mut self, key: &Key) -> Option<Row>
        ensures new { self.new ≡ record self.old { rows = map.remove self.old.rows key.now } }
        ensures had { result ≡ map.get self.old.rows key.now }
    {
        self.rows.remove(key)
    }

    /// Takes all rows out. The room stays. Of the memory for many rows what isn't needed for the room is given back, if
    /// there is memory for the smaller table; else it is kept.
    pub fn clear(&mut self)
        ensures { self.new ≡ record self.old { rows = map.empty } }
    {
        self.rows.clear();
        if self.rows.capacity() > MOST_PLACES_KEPT {
            self.rows.shrink_to(self.room);
        }
    }

    /// Each key that has a row, with its row, in no order that counts.
    pub fn pairs(&self, alloc: Global) -> Result<Vec<(Key, Row)>, AllocError>
        ensures { IfOk result (λ pairs. IsListed pairs.items self.now.rows) }
    {
        self.rows
            .iter()
            .map(|(key, row)| (*key, *row))
            .collect(alloc)
    }
}
