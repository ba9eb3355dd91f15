//! A keeper with all rows in one table.
use crate::rows::Rows;
use crate::snapshot::Snapshot;
use crate::table::RowTable;
use calvin_app::Writes;
use calvin_types::{Fault, Key, Place, Sets};
use std::alloc::Global;
use std::marker::Model;

/// Rows in one hash map: a row is found or written in expected constant time. A snapshot sorts the rows, and one is loaded
/// in expected linear time. The hash has a fixed seed: keys that were chosen to collide make it slow and never wrong.
#[derive(Drop)]
pub struct PlainRows<Row> {
    alloc: Global,
    table: RowTable<Row>,
}

impl<Row> Model for PlainRows<Row> {
    ghost use Rattle.calvin_store.specs.Kept.{Kept, coded_kept};

    ghost Value = { Kept Row };

    ghost coded = { coded_kept Row.code };

    ghost view = { λ p. p.table };
}

impl<Row: Copy> Rows<Row> for PlainRows<Row> {
    ghost use Rattle.std.specs.Prelude.{false};
    ghost use Rattle.calvin_app.specs.Stores.{loaded};

    ghost store = { λ p. loaded p.rows };

    ghost room = { λ p. p.room };

    ghost points = { false };

    ghost cold = { false };

    fn empty(alloc: Global) -> PlainRows<Row> {
        PlainRows {
            alloc,
            table: RowTable::new(alloc),
        }
    }

    fn len(&self) -> usize {
        self.table.len()
    }

    fn get(&self, key: &Key) -> Option<Row> {
        self.table.get(key)
    }

    fn room(&self) -> usize {
        self.table.room()
    }

    fn reserve(&mut self, n: usize) -> Result<(), Fault> {
        self.table.reserve(n)?;
        Ok(())
    }

    fn put_all(&mut self, _place: Place, writes: &Writes<Row>) {
        for i in 0..writes.len() {
            let (key, row) = writes.at(i);
            self.table.put(key, row);
        }
    }

    fn snapshot(&self) -> Result<Snapshot<Row>, Fault> {
        let pairs = self.table.pairs(self.alloc)?;
        Snapshot::sorted(self.alloc, pairs)
    }

    fn load(&mut self, snapshot: &Snapshot<Row>) -> Result<(), Fault> {
        self.table = RowTable::of(self.alloc, snapshot, self.table.room())?;
        Ok(())
    }

    fn mark(&mut self, _epoch: u64) -> Result<(), Fault> {
        Err(Fault::NoPoints)
    }

    fn marked(&self) -> Option<u64> {
        None
    }

    fn point(&self) -> Result<Snapshot<Row>, Fault> {
        Snapshot::new(self.alloc, Vec::new(self.alloc))
    }

    fn close_point(&mut self) -> Result<(), Fault> {
        Ok(())
    }

    fn is_hot(&self, key: &Key) -> bool {
        self.get(key).is_some()
    }

    fn warm(&mut self, _sets: &Sets) -> Result<(), Fault> {
        Ok(())
    }

    fn cool(&mut self, key: &Key) -> Result<(), Fault> {
        if !self.is_hot(key) {
            return Err(Fault::NoRow);
        }
        Err(Fault::NoColdTable)
    }
}
