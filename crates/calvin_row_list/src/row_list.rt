//! Rows that stand in a list of just the room that they need.
ghost use Rattle.calvin_app.specs.Entries.{rising, shown};
ghost use Rattle.calvin_app.specs.Rows.{view};
ghost use Rattle.calvin_types.specs.declared.limits.TheConstants.{MOST_KEYS};
ghost use Rattle.std.specs.Prelude.{◌≡◌, ◌≤◌, length, max, IsOk, OnOk, OnErr, IsOkUnless};
ghost use Rattle.std.specs.FinMap as map;

use calvin_app::{Look, View};
use calvin_types::{Fault, Key, KeySet};
use std::alloc::Global;
use std::marker::Model;

/// Rows of at most sixteen keys, which contracts see as a finite map. They stand in memory of their own, for which room is
/// reserved, so that they take no more than they need, where a `View` has places for sixteen.
#[derive(Drop)]
pub struct RowList<Row> {
    entries: Vec<(Key, Row)>,
}

impl<Row> Model for RowList<Row> {
    ghost use Rattle.std.specs.Prelude.{vec_capacity};
    ghost use Rattle.calvin_app.specs.Entries.{shown};
    ghost use Rattle.calvin_row_list.specs.Listing.{Listing, IsListing, coded_listing};

    ghost Value = { Listing Row };

    ghost coded = { coded_listing Row.code };

    ghost view = { λ l. record { rows = shown l.entries.items; room = vec_capacity l.entries } };

    ghost invariant = { λ l. IsListing l.entries.items };
}

impl<Row: Copy> RowList<Row> {
    /// No rows, and room for none.
    pub fn new(alloc: Global) -> RowList<Row>
        ensures { result ≡ record { rows = map.empty; room = 0 } }
    {
        RowList {
            entries: Vec::new(alloc),
        }
    }

    /// Room for the rows of so many keys, those that are there among them, and no more than that where there was less.
    /// Refused with `OutOfMemory` where a growth was refused.
    pub fn reserve(&mut self, keys: usize) -> Result<(), Fault>
        ensures ok { OnOk result (self.new ≡ record self.old { room = max keys self.old.room }) }
        ensures err { OnErr result (self.new ≡ self.old) }
        ensures only { IsOkUnless result Fault.OutOfMemory }
        ensures succeeds { keys ≤ self.old.room → IsOk result }
    {
        let more = keys.saturating_sub(self.entries.len());
        self.entries.reserve_exact(more)?;
        Ok(())
    }

    /// Looks these keys up in turn, and puts the rows that they have in place of those that are there; keys without a row
    /// are left out. There is room for a row of each.
    pub fn read<L: Look<Row>>(&mut self, rows: &L, keys: &KeySet)
        requires { length keys.now ≤ self.old.room }
        ensures { self.new ≡ record self.old { rows = view (L.shown rows.now) keys.now } }
    {
        self.entries.clear();
        for i in 0..keys.len() {
            let key = keys.at(i);
            match rows.look(&key) {
                Some(row) => self.entries.push_reserved((key, row)),
                None => {}
            }
        }
    }

    /// The rows with their keys, which rise.
    pub fn entries(&self) -> &[(Key, Row)]
        ensures rows { shown result.now ≡ self.now.rows }
        ensures rising { rising result.now }
        ensures few { length result.now ≤ MOST_KEYS }
    {
        self.entries.as_slice()
    }

    /// The row of a key, if it has one.
    pub fn get(&self, key: &Key) -> Option<Row>
        ensures { result ≡ map.get self.now.rows key.now }
    {
        for i in 0..self.entries.len() {
            let (k, row) = self.entries[i];
            if *key == k {
                return Some(row);
            }
        }
        None
    }

    /// The rows as a view.
    pub fn view(&self) -> View<Row>
        ensures { result ≡ self.now.rows }
    {
        let mut view = View::new();
        self.put_into(&mut view);
        view
    }

    /// Puts the rows among those of a view, of which there are none yet, so that it needn't be made and moved.
    pub fn put_into(&self, view: &mut View<Row>)
        requires { view.old ≡ map.empty }
        ensures { view.new ≡ self.now.rows }
    {
        for i in 0..self.entries.len() {
            let (key, row) = self.entries[i];
            view.put(key, row);
        }
    }
}
