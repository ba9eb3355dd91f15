//! A keeper of rows for lives in which memory is refused.
use calvin_app::Writes;
use calvin_store::{Rows, Snapshot};
use calvin_types::{Fault, Key, Place, Sets};
use std::alloc::Global;

/// The rows of another keeper, which loads a snapshot once there is memory for a byte too. Plain rows take what they load
/// although a growth was refused, and are refused only where the next one is refused too; these are refused by one.
#[derive(Drop)]
pub struct ScarceRows<S> {
    alloc: Global,
    rows: S,
}

impl<Row: Copy, S: Rows<Row>> Rows<Row> for ScarceRows<S> {
    ghost store = { λ s. S.store s.rows };

    ghost room = { λ s. S.room s.rows };

    ghost points = { S.points };

    ghost cold = { S.cold };

    fn empty(alloc: Global) -> ScarceRows<S> {
        ScarceRows {
            alloc,
            rows: S::empty(alloc),
        }
    }

    fn len(&self) -> usize {
        self.rows.len()
    }

    fn get(&self, key: &Key) -> Option<Row> {
        self.rows.get(key)
    }

    fn room(&self) -> usize {
        self.rows.room()
    }

    fn reserve(&mut self, n: usize) -> Result<(), Fault> {
        self.rows.reserve(n)
    }

    fn put_all(&mut self, place: Place, writes: &Writes<Row>) {
        self.rows.put_all(place, writes);
    }

    fn snapshot(&self) -> Result<Snapshot<Row>, Fault> {
        self.rows.snapshot()
    }

    fn load(&mut self, snapshot: &Snapshot<Row>) -> Result<(), Fault> {
        let _byte: Vec<u8> = Vec::with_capacity(self.alloc, 1)?;
        self.rows.load(snapshot)
    }

    fn mark(&mut self, epoch: u64) -> Result<(), Fault> {
        self.rows.mark(epoch)
    }

    fn marked(&self) -> Option<u64> {
        self.rows.marked()
    }

    fn point(&self) -> Result<Snapshot<Row>, Fault> {
        self.rows.point()
    }

    fn close_point(&mut self) -> Result<(), Fault> {
        self.rows.close_point()
    }

    fn is_hot(&self, key: &Key) -> bool {
        self.rows.is_hot(key)
    }

    fn warm(&mut self, sets: &Sets) -> Result<(), Fault> {
        self.rows.warm(sets)
    }

    fn cool(&mut self, key: &Key) -> Result<(), Fault> {
        self.rows.cool(key)
    }
}
