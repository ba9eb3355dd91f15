//! A keeper with points of consistency and a cold table.
ghost use Rattle.std.specs.Prelude.{◌≡◌, ◌-◌, ◌<◌, ◌≤◌, [], ◌∷◌};
ghost use Rattle.calvin_app.specs.Stores.{put_at};

use crate::rows::Rows;
use crate::snapshot::Snapshot;
use crate::tiers::Tiers;
use crate::versions::Versions;
use calvin_app::Writes;
use calvin_types::{Fault, Key, Place, Sets};
use std::alloc::Global;
use std::marker::Model;

/// Rows in two hash maps, a hot one and a cold one that stands for rows on disk (Thomson et al. 2012, section 4). What is
/// written or loaded is hot. A read or a write never waits: a cold row is read where it is, by a second look-up. There are
/// points as `SplitRows` has them, over the rows of both tables.
#[derive(Drop)]
pub struct ColdRows<Row> {
    alloc: Global,
    tiers: Tiers<Row>,
    versions: Versions<Row>,
}

impl<Row> Model for ColdRows<Row> {
    ghost use Rattle.std.specs.Prelude.{min};
    ghost use Rattle.calvin_store.specs.Kept.{Keeper, coded_keeper};
    ghost use Rattle.calvin_store.specs.Versions.{point_at, AreBeside};

    ghost Value = { Keeper Row };

    ghost coded = { coded_keeper Row.code };

    ghost view = { λ c. record {
      store = record { map = c.tiers.rows; point = point_at c.versions.epoch c.tiers.rows c.versions.before.rows; cold = c.tiers.cold };
      room = min c.tiers.room c.versions.before.room;
    } };

    ghost invariant = { λ c. AreBeside c.versions.epoch c.tiers.rows c.versions.before.rows };
}

impl<Row: Copy> ColdRows<Row> {
    /// Puts a row of the request at a place, and uses up room for one.
    fn put(&mut self, place: Place, key: Key, row: Row)
        requires { 0 < self.old.room }
        ensures store { self.new.store ≡ put_at place ((key, row) ∷ []) self.old.store }
        ensures room { self.old.room - 1 ≤ self.new.room }
    {
        let had = self.tiers.put(key, row);
        self.versions.note(place, key, row, had);
    }
}

impl<Row: Copy> Rows<Row> for ColdRows<Row> {
    ghost use Rattle.std.specs.Prelude.{true, false};

    ghost store = { λ s. s.store };

    ghost room = { λ s. s.room };

    ghost points = { true };

    ghost cold = { true };

    fn empty(alloc: Global) -> ColdRows<Row> {
        ColdRows {
            alloc,
            tiers: Tiers::new(alloc),
            versions: Versions::new(alloc),
        }
    }

    fn len(&self) -> usize {
        self.tiers.len()
    }

    fn get(&self, key: &Key) -> Option<Row> {
        self.tiers.get(key)
    }

    fn room(&self) -> usize {
        self.tiers.room().min(self.versions.room())
    }

    fn reserve(&mut self, n: usize) -> Result<(), Fault> {
        self.tiers.reserve(n)?;
        self.versions.reserve(n)?;
        Ok(())
    }

    fn put_all(&mut self, place: Place, writes: &Writes<Row>) {
        for i in 0..writes.len() {
            let (key, row) = writes.at(i);
            self.put(place, key, row);
        }
    }

    fn snapshot(&self) -> Result<Snapshot<Row>, Fault> {
        let pairs = self.tiers.pairs(self.alloc)?;
        Snapshot::sorted(self.alloc, pairs)
    }

    fn load(&mut self, snapshot: &Snapshot<Row>) -> Result<(), Fault> {
        self.tiers = Tiers::of(self.alloc, snapshot, self.tiers.room())?;
        self.versions.close();
        Ok(())
    }

    fn mark(&mut self, epoch: u64) -> Result<(), Fault> {
        if self.versions.epoch().is_some() {
            return Err(Fault::PointOpen);
        }
        self.versions.open(epoch);
        Ok(())
    }

    fn marked(&self) -> Option<u64> {
        self.versions.epoch()
    }

    fn point(&self) -> Result<Snapshot<Row>, Fault> {
        if self.versions.epoch().is_none() {
            return Snapshot::new(self.alloc, Vec::new(self.alloc));
        }
        let mut pairs = self.tiers.pairs(self.alloc)?;
        self.versions.go_back(&mut pairs);
        Snapshot::sorted(self.alloc, pairs)
    }

    fn close_point(&mut self) -> Result<(), Fault> {
        self.versions.close();
        Ok(())
    }

    fn is_hot(&self, key: &Key) -> bool {
        self.tiers.is_hot(key)
    }

    fn warm(&mut self, sets: &Sets) -> Result<(), Fault> {
        self.tiers.warm(sets)?;
        Ok(())
    }

    fn cool(&mut self, key: &Key) -> Result<(), Fault> {
        if self.versions.epoch().is_some() {
            return Err(Fault::PointOpen);
        }
        self.tiers.cool(key)
    }
}
