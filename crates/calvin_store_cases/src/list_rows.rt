//! A second keeper: the pairs in one list, by ascending key.
ghost use Rattle.std.specs.Prelude.{◌≡◌, ◌+◌, ◌<◌, ◌≤◌, IfOk, MatchResult};
ghost use Rattle.std.specs.FinMap as map;
ghost use Rattle.calvin_app.specs.EntryPlaces.{IsAt, IsMissingAt};

use calvin_app::Writes;
use calvin_store::{Rows, Snapshot};
use calvin_types::{Fault, Key, Place, Sets};
use std::alloc::{AllocError, Global};
use std::cmp::Ordering;
use std::marker::Model;

/// Rows in one list. A row is found, and put in, in time by the number of rows.
#[derive(Drop)]
pub struct ListRows<Row> {
    alloc: Global,
    pairs: Vec<(Key, Row)>,
    room: usize,
}

impl<Row> Model for ListRows<Row> {
    ghost use Rattle.std.specs.Prelude.{◌+◌, ◌≤◌, vec_len, vec_capacity};
    ghost use Rattle.calvin_app.specs.Entries.{shown, rising};
    ghost use Rattle.calvin_store.specs.Kept.{Kept, coded_kept};

    ghost Value = { Kept Row };

    ghost coded = { coded_kept Row.code };

    ghost view = { λ l. record { rows = shown l.pairs.items; room = l.room } };

    ghost invariant = { λ l. rising l.pairs.items × (vec_len l.pairs + l.room ≤ vec_capacity l.pairs) };
}

impl<Row: Copy> ListRows<Row> {
    /// Puts a row under a key. Only a key that has no row uses room up.
    fn put(&mut self, key: Key, row: Row)
        requires { 0 < self.old.room }
        ensures rows { self.new.rows ≡ map.insert self.old.rows key row }
        ensures room { self.old.room ≤ self.new.room + 1 }
    {
        match place_of(&self.pairs, key) {
            Ok(i) => self.pairs[i] = (key, row),
            Err(i) => {
                self.pairs.insert(i, (key, row)).unwrap();
                self.room -= 1;
            }
        }
    }
}

impl<Row: Copy> Rows<Row> for ListRows<Row> {
    ghost use Rattle.std.specs.Prelude.{false};
    ghost use Rattle.calvin_app.specs.Stores.{loaded};

    ghost store = { λ l. loaded l.rows };

    ghost room = { λ l. l.room };

    ghost points = { false };

    ghost cold = { false };

    fn empty(alloc: Global) -> ListRows<Row> {
        ListRows {
            alloc,
            pairs: Vec::new(alloc),
            room: 0,
        }
    }

    fn len(&self) -> usize {
        self.pairs.len()
    }

    fn get(&self, key: &Key) -> Option<Row> {
        for i in 0..self.pairs.len() {
            let (k, row) = self.pairs[i];
            if *key == k {
                return Some(row);
            }
        }
        None
    }

    fn room(&self) -> usize {
        self.room
    }

    fn reserve(&mut self, n: usize) -> Result<(), Fault> {
        if self.room < n {
            self.pairs.reserve(n)?;
            self.room = n;
        }
        Ok(())
    }

    fn put_all(&mut self, _place: Place, writes: &Writes<Row>) {
        for i in 0..writes.len() {
            let (key, row) = writes.at(i);
            self.put(key, row);
        }
    }

    fn snapshot(&self) -> Result<Snapshot<Row>, Fault> {
        let pairs = copy_of(self.alloc, &self.pairs)?;
        Snapshot::new(self.alloc, pairs)
    }

    fn load(&mut self, snapshot: &Snapshot<Row>) -> Result<(), Fault> {
        let mut pairs = copy_of(self.alloc, snapshot.pairs())?;
        pairs.reserve(self.room)?;
        self.pairs = pairs;
        Ok(())
    }

    fn mark(&mut self, _epoch: u64) -> Result<(), Fault> {
        Err(Fault::NoPoints)
    }

    fn marked(&self) -> Option<u64> {
        None
    }

    fn point(&self) -> Result<Snapshot<Row>, Fault> {
        Snapshot::new(self.alloc, Vec::new(self.alloc))
    }

    fn close_point(&mut self) -> Result<(), Fault> {
        Ok(())
    }

    fn is_hot(&self, key: &Key) -> bool {
        self.get(key).is_some()
    }

    fn warm(&mut self, _sets: &Sets) -> Result<(), Fault> {
        Ok(())
    }

    fn cool(&mut self, key: &Key) -> Result<(), Fault> {
        if !self.is_hot(key) {
            return Err(Fault::NoRow);
        }
        Err(Fault::NoColdTable)
    }
}

/// The place of a key, or the place that it would take.
fn place_of<Row: Copy>(pairs: &[(Key, Row)], key: Key) -> Result<usize, usize>
    ensures { MatchResult result (IsAt key pairs.now) (IsMissingAt key pairs.now) }
{
    for i in 0..pairs.len() {
        match key.cmp(&pairs[i].0) {
            Ordering::Less => return Err(i),
            Ordering::Equal => return Ok(i),
            Ordering::Greater => {}
        }
    }
    Err(pairs.len())
}

fn copy_of<Row: Copy>(alloc: Global, pairs: &[(Key, Row)]) -> Result<Vec<(Key, Row)>, AllocError>
    ensures { IfOk result (λ v. v.items ≡ pairs.now) }
{
    pairs.iter().copied().collect(alloc)
}
