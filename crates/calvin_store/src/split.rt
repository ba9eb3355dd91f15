//! A keeper with points of consistency.
ghost use Rattle.std.specs.Prelude.{◌≡◌, ◌-◌, ◌<◌, ◌≤◌, [], ◌∷◌};
ghost use Rattle.calvin_app.specs.Stores.{put_at};
ghost use Rattle.calvin_store.specs.Kept.{split_store};

use crate::rows::Rows;
use crate::snapshot::Snapshot;
use crate::table::RowTable;
use crate::versions::Versions;
use calvin_app::Writes;
use calvin_types::{Fault, Key, Place, Sets};
use std::alloc::Global;
use std::marker::Model;

/// Rows in one hash map, of which a copy can be made as of one place in the order while requests above it go on
/// (Thomson et al. 2012, section 5). While a point is open, a key that is written above it has two versions, and a second
/// table has the one before the point. A present row is found by one look-up whether a point is open or not; closing the
/// point takes time by the number of keys that have two versions.
#[derive(Drop)]
pub struct SplitRows<Row> {
    alloc: Global,
    table: RowTable<Row>,
    versions: Versions<Row>,
}

impl<Row> Model for SplitRows<Row> {
    ghost use Rattle.std.specs.Prelude.{min};
    ghost use Rattle.calvin_store.specs.Kept.{Split, coded_split};
    ghost use Rattle.calvin_store.specs.Versions.{point_at, AreBeside};

    ghost Value = { Split Row };

    ghost coded = { coded_split Row.code };

    ghost view = { λ s. record {
      rows = s.table.rows;
      point = point_at s.versions.epoch s.table.rows s.versions.before.rows;
      room = min s.table.room s.versions.before.room;
    } };

    ghost invariant = { λ s. AreBeside s.versions.epoch s.table.rows s.versions.before.rows };
}

impl<Row: Copy> SplitRows<Row> {
    /// Puts a row of the request at a place, and uses up room for one.
    fn put(&mut self, place: Place, key: Key, row: Row)
        requires { 0 < self.old.room }
        ensures store { split_store self.new ≡ put_at place ((key, row) ∷ []) (split_store self.old) }
        ensures room { self.old.room - 1 ≤ self.new.room }
    {
        let had = self.table.put(key, row);
        self.versions.note(place, key, row, had);
    }
}

impl<Row: Copy> Rows<Row> for SplitRows<Row> {
    ghost use Rattle.std.specs.Prelude.{true, false};
    ghost use Rattle.calvin_store.specs.Kept.{split_store};

    ghost store = { split_store };

    ghost room = { λ s. s.room };

    ghost points = { true };

    ghost cold = { false };

    fn empty(alloc: Global) -> SplitRows<Row> {
        SplitRows {
            alloc,
            table: RowTable::new(alloc),
            versions: Versions::new(alloc),
        }
    }

    fn len(&self) -> usize {
        self.table.len()
    }

    fn get(&self, key: &Key) -> Option<Row> {
        self.table.get(key)
    }

    fn room(&self) -> usize {
        self.table.room().min(self.versions.room())
    }

    fn reserve(&mut self, n: usize) -> Result<(), Fault> {
        self.table.reserve(n)?;
        self.versions.reserve(n)?;
        Ok(())
    }

    fn put_all(&mut self, place: Place, writes: &Writes<Row>) {
        for i in 0..writes.len() {
            let (key, row) = writes.at(i);
            self.put(place, key, row);
        }
    }

    fn snapshot(&self) -> Result<Snapshot<Row>, Fault> {
        let pairs = self.table.pairs(self.alloc)?;
        Snapshot::sorted(self.alloc, pairs)
    }

    fn load(&mut self, snapshot: &Snapshot<Row>) -> Result<(), Fault> {
        self.table = RowTable::of(self.alloc, snapshot, self.table.room())?;
        self.versions.close();
        Ok(())
    }

    fn mark(&mut self, epoch: u64) -> Result<(), Fault> {
        if self.versions.epoch().is_some() {
            return Err(Fault::PointOpen);
        }
        self.versions.open(epoch);
        Ok(())
    }

    fn marked(&self) -> Option<u64> {
        self.versions.epoch()
    }

    fn point(&self) -> Result<Snapshot<Row>, Fault> {
        if self.versions.epoch().is_none() {
            return Snapshot::new(self.alloc, Vec::new(self.alloc));
        }
        let mut pairs = self.table.pairs(self.alloc)?;
        self.versions.go_back(&mut pairs);
        Snapshot::sorted(self.alloc, pairs)
    }

    fn close_point(&mut self) -> Result<(), Fault> {
        self.versions.close();
        Ok(())
    }

    fn is_hot(&self, key: &Key) -> bool {
        self.get(key).is_some()
    }

    fn warm(&mut self, _sets: &Sets) -> Result<(), Fault> {
        Ok(())
    }

    fn cool(&mut self, key: &Key) -> Result<(), Fault> {
        if self.versions.epoch().is_some() {
            return Err(Fault::PointOpen);
        }
        if !self.is_hot(key) {
            return Err(Fault::NoRow);
        }
        Err(Fault::NoColdTable)
    }
}
