//! The versions of rows while a point is open.
ghost use Rattle.std.specs.Prelude.{◌≡◌, ◌+◌, ◌-◌, ◌<◌, ◌≤◌, [], ◌∷◌, max, Some, None, IsOk, OnOk, OnErr};
ghost use Rattle.std.specs.FinMap as map;
ghost use Rattle.calvin_app.specs.Rows.{Rows};
ghost use Rattle.calvin_app.specs.Stores.{put_point};
ghost use Rattle.calvin_store.specs.Versions.{point_at, AreBeside, before_pair, before_pairs};

use crate::table::RowTable;
use calvin_types::{Key, Place};
use std::alloc::{AllocError, Global};

/// The epoch at whose end a point of consistency is, if one is open, and before versions (Thomson et al. 2012, section 5).
/// The present rows stand elsewhere. Of a key that was written above the point the present row is the after version, and
/// here is what the key had before, be it no row. Of every other key the present row is both versions.
#[derive(Drop)]
pub(crate) struct Versions<Row> {
    epoch: Option<u64>,
    before: RowTable<Option<Row>>,
}

impl<Row: Copy> Versions<Row> {
    /// No point is open, and there is no room.
    pub fn new(alloc: Global) -> Versions<Row>
        ensures { result ≡ record { epoch = None; before = record { rows = map.empty; room = 0 } } }
    {
        Versions {
            epoch: None,
            before: RowTable::new(alloc),
        }
    }

    /// The epoch at whose end the point is, if one is open.
    pub fn epoch(&self) -> Option<u64>
        ensures { result ≡ self.now.epoch }
    {
        self.epoch
    }

    /// How many writes can be noted without growing.
    pub fn room(&self) -> usize
        ensures { result ≡ self.now.before.room }
    {
        self.before.room()
    }

    /// Makes room for `n` writes at least.
    pub fn reserve(&mut self, n: usize) -> Result<(), AllocError>
        ensures ok { OnOk result (self.new ≡ record self.old { before = record self.old.before { room = max n self.old.before.room } }) }
        ensures err { OnErr result (self.new ≡ self.old) }
        ensures succeeds { n ≤ self.old.before.room → IsOk result }
    {
        self.before.reserve(n)
    }

    /// Opens a point at the end of an epoch. The present rows are both versions.
    pub fn open(&mut self, epoch: u64)
        ensures { self.new ≡ record self.old { epoch = Some epoch } }
    {
        self.epoch = Some(epoch);
    }

    /// Closes the point. The before versions are gone, and the room stays.
    pub fn close(&mut self)
        ensures { self.new ≡ record { epoch = None; before = record self.old.before { rows = map.empty } } }
    {
        self.before.clear();
        self.epoch = None;
    }

    /// Notes that the request at a place wrote a row over what its key had. Up to the point the row is the before version
    /// too; above the point it is the after version alone, and the first such row leaves what the key had as the before
    /// version.
    pub fn note(&mut self, place: Place, key: Key, row: Row, had: Option<Row>)
        requires { 0 < self.old.before.room }
        ensures point { (rows : Rows Row) → map.get rows key ≡ had
            → point_at self.new.epoch (map.insert rows key row) self.new.before.rows ≡ put_point place ((key, row) ∷ [])
            (point_at self.old.epoch rows self.old.before.rows) }
        ensures beside { (rows : Rows Row) → AreBeside self.old.epoch rows self.old.before.rows → AreBeside self.new.epoch (map.insert rows key row) self.new.before.rows }
        ensures room { self.old.before.room - 1 ≤ self.new.before.room }
    {
        let Some(epoch) = self.epoch else {
            return;
        };
        let has_both = self.before.get(&key).is_some();
        if place.epoch <= epoch {
            if has_both {
                self.before.put(key, Some(row));
            }
        } else if !has_both {
            self.before.put(key, had);
        }
    }

    /// All present pairs become those of the point: each has its key's before version, and those that have none go.
    pub fn go_back(&self, pairs: &mut Vec<(Key, Row)>)
        ensures { pairs.new.items ≡ before_pairs self.now.before.rows pairs.old.items }
    {
        let mut left = 0;
        for i in 0..pairs.len() {
            let pair = pairs[i];
            if let Some(before) = self.pair_before(pair) {
                pairs[left] = before;
                left += 1;
            }
        }
        pairs.truncate(left);
    }

    /// The before version of a present pair, if it has one.
    fn pair_before(&self, pair: (Key, Row)) -> Option<(Key, Row)>
        ensures { result ≡ before_pair self.now.before.rows pair }
    {
        let (key, row) = pair;
        let had = self.before.get(&key).unwrap_or(Some(row))?;
        Some((key, had))
    }
}
