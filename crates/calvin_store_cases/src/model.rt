//! What a keeper is, kept in the plainest way: an array with a place for each key, which takes no memory.
ghost use Rattle.std.specs.Prelude.{◌<◌};

use crate::calls::Call;
use calvin_app::Writes;
use calvin_store::Snapshot;
use calvin_types::{Fault, Key, KeySet, Place};

/// How many keys there are: few, so that calls meet at them.
pub(crate) const KEYS: usize = 24;

/// The rows of the keys by number.
type Held = [Option<u64>; KEYS];

/// What a keeper has beside its rows.
#[derive(Clone, Copy, PartialEq, Eq)]
pub(crate) enum Kind {
    Plain,
    WithPoints,
    WithPointsAndColdRows,
}

/// The rows, the epoch of the point that is open and its rows, none where none is open, and which keys are cold.
#[derive(Drop)]
pub(crate) struct Model {
    kind: Kind,
    rows: Held,
    epoch: Option<u64>,
    point: Held,
    cold: [bool; KEYS],
}

/// The key with a number: twelve of table 0, and then twelve of table 1.
pub(crate) fn key_of(number: usize) -> Key
    requires { number < KEYS }
{
    if number < 12 {
        Key {
            table: 0,
            id: number as u64,
        }
    } else {
        Key {
            table: 1,
            id: (number - 12) as u64,
        }
    }
}

/// The number of a key.
fn number_of(key: Key) -> usize
    ensures { result < KEYS }
{
    let id = (key.id % 12) as usize;
    if key.table == 0 { id } else { id + 12 }
}

/// Whether a snapshot has these rows, by ascending key.
fn are_rows(held: &Held, snapshot: &Snapshot<u64>) -> bool {
    let mut pairs = snapshot.pairs().iter().copied();
    for number in 0..KEYS {
        if let Some(row) = held[number] {
            if pairs.next() != Some((key_of(number), row)) {
                return false;
            }
        }
    }
    pairs.next().is_none()
}

impl Model {
    pub fn new(kind: Kind) -> Model {
        Model {
            kind,
            rows: [None; KEYS],
            epoch: None,
            point: [None; KEYS],
            cold: [false; KEYS],
        }
    }

    pub fn len(&self) -> usize {
        self.rows.iter().flatten().count()
    }

    pub fn get(&self, number: usize) -> Option<u64>
        requires { number < KEYS }
    {
        self.rows[number]
    }

    pub fn is_hot(&self, number: usize) -> bool
        requires { number < KEYS }
    {
        self.rows[number].is_some() && !self.cold[number]
    }

    pub fn marked(&self) -> Option<u64> {
        self.epoch
    }

    /// Whether a snapshot has the present rows.
    pub fn has_rows(&self, snapshot: &Snapshot<u64>) -> bool {
        are_rows(&self.rows, snapshot)
    }

    /// Whether a snapshot has the rows of the point, none where none is open.
    pub fn has_point(&self, snapshot: &Snapshot<u64>) -> bool {
        are_rows(&self.point, snapshot)
    }

    fn put(&mut self, place: Place, key: Key, row: u64) {
        let number = number_of(key);
        self.rows[number] = Some(row);
        self.cold[number] = false;
        if self.epoch.is_some_and(|epoch| place.epoch <= epoch) {
            self.point[number] = Some(row);
        }
    }

    fn put_all(&mut self, place: Place, writes: &Writes<u64>) {
        for i in 0..writes.len() {
            let (key, row) = writes.at(i);
            self.put(place, key, row);
        }
    }

    fn load(&mut self, snapshot: &Snapshot<u64>) {
        *self = Model::new(self.kind);
        for (key, row) in snapshot.pairs() {
            self.rows[number_of(*key)] = Some(*row);
        }
    }

    fn mark(&mut self, epoch: u64) -> Result<(), Fault> {
        if self.epoch.is_some() {
            return Err(Fault::PointOpen);
        }
        if self.kind == Kind::Plain {
            return Err(Fault::NoPoints);
        }
        self.epoch = Some(epoch);
        let rows = self.rows;
        self.point = rows;
        Ok(())
    }

    fn close_point(&mut self) {
        self.epoch = None;
        self.point = [None; KEYS];
    }

    fn warm(&mut self, keys: &KeySet) {
        for i in 0..keys.len() {
            self.cold[number_of(keys.at(i))] = false;
        }
    }

    fn cool(&mut self, key: Key) -> Result<(), Fault> {
        if self.epoch.is_some() {
            return Err(Fault::PointOpen);
        }
        let number = number_of(key);
        if !self.is_hot(number) {
            return Err(Fault::NoRow);
        }
        if self.kind != Kind::WithPointsAndColdRows {
            return Err(Fault::NoColdTable);
        }
        self.cold[number] = true;
        Ok(())
    }

    /// How a call ends with ample memory, and what it leaves.
    pub fn follow(&mut self, call: &Call, kept: &Snapshot<u64>) -> Result<(), Fault> {
        match call {
            Call::Keep | Call::KeepPoint | Call::Reserve(_) => {}
            Call::ReserveTooMuch => return Err(Fault::OutOfMemory),
            Call::Load => self.load(kept),
            Call::Mark(epoch) => return self.mark(*epoch),
            Call::ClosePoint => self.close_point(),
            Call::Warm(sets) => {
                self.warm(&sets.reads);
                self.warm(&sets.writes);
            }
            Call::Cool(key) => return self.cool(*key),
            Call::Write(place, writes) => self.put_all(*place, writes),
        }
        Ok(())
    }
}
