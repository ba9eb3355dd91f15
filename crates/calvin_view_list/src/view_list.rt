//! Views in a row, which take no more memory than their rows.
ghost use Rattle.calvin_app.specs.Entries.{rising, shown};
ghost use Rattle.calvin_view_list.specs.ViewLists.{begin};
ghost use Rattle.std.specs.FinMap as map;
ghost use Rattle.std.specs.Prelude.{◌≡◌, ◌+◌, ◌<◌, ◌≤◌, ◌++◌, [], ◌∷◌, length, take, slice_get, Some, IsOk, IsOkUnless, OnOk, MatchOption};
ghost use Rattle.calvin_types.specs.declared.limits.TheConstants.{MOST_KEYS};

use calvin_app::View;
use calvin_row_list::RowList;
use calvin_types::{Fault, Key, MOST_KEYS};
use std::alloc::Global;
use std::marker::Model;

/// Views in a row, numbered from 0, which contracts see as their list. The rows of all of them lie one after another, and of
/// each view where its rows end. Room for more can be reserved.
#[derive(Drop)]
pub struct ViewList<Row> {
    entries: Vec<(Key, Row)>,
    ends: Vec<usize>,
}

impl<Row> Model for ViewList<Row> {
    ghost use Rattle.std.specs.Prelude.{◌-◌, ◌/◌, min, vec_len, vec_capacity};
    ghost use Rattle.std.specs.Coded.{codes};
    ghost use Rattle.std.specs.FinMap.{code};
    ghost use Rattle.calvin_view_list.specs.ViewLists.{Views, views_of, AreViews};

    ghost Value = { Views Row };

    ghost coded = { Prim.hlevel (codes, code) };

    ghost view = { λ l. record {
      views = views_of l.entries.items 0 l.ends.items;
      room = min (vec_capacity l.ends - vec_len l.ends) ((vec_capacity l.entries - vec_len l.entries) / 16);
    } };

    ghost invariant = { λ l. AreViews l.entries.items 0 l.ends.items };
}

impl<Row: Copy> ViewList<Row> {
    /// No views, and room for none.
    pub fn new(alloc: Global) -> ViewList<Row>
        ensures { result ≡ record { views = []; room = 0 } }
    {
        ViewList {
            entries: Vec::new(alloc),
            ends: Vec::new(alloc),
        }
    }

    /// How many views there are.
    pub fn len(&self) -> usize
        ensures { result ≡ length self.now.views }
    {
        self.ends.len()
    }

    /// The view of a number: it is below `len()`.
    pub fn at(&self, number: usize) -> View<Row>
        requires { number < length self.now.views }
        ensures { slice_get self.now.views number ≡ Some result }
    {
        let from = begin_of(self.ends.as_slice(), number);
        let end = self.ends[number];
        let mut view = View::new();
        put_all(&mut view, &self.entries.as_slice()[from..end]);
        view
    }

    /// Makes room for so many more views. Refused with `OutOfMemory` where a growth was refused.
    pub fn reserve(&mut self, views: usize) -> Result<(), Fault>
        ensures ok { OnOk result (views ≤ self.new.room) }
        ensures views { self.new.views ≡ self.old.views }
        ensures room { self.old.room ≤ self.new.room }
        ensures only { IsOkUnless result Fault.OutOfMemory }
        ensures succeeds { views ≤ self.old.room → IsOk result }
    {
        self.ends.reserve(views)?;
        self.entries.reserve(views.saturating_mul(MOST_KEYS))?;
        Ok(())
    }

    /// One view more, for which there is room.
    pub fn push_reserved(&mut self, view: &View<Row>)
        requires { 0 < self.old.room }
        ensures views { self.new.views ≡ self.old.views ++ view.now ∷ [] }
        ensures room { self.old.room ≤ self.new.room + 1 }
    {
        for i in 0..view.len() {
            self.entries.push_reserved(view.at(i));
        }
        let end = self.entries.len();
        self.ends.push_reserved(end);
    }

    /// One view more, which has the rows of a list, and for which there is room.
    pub fn push_listed(&mut self, rows: &RowList<Row>)
        requires { 0 < self.old.room }
        ensures views { self.new.views ≡ self.old.views ++ rows.now.rows ∷ [] }
        ensures room { self.old.room ≤ self.new.room + 1 }
    {
        for entry in rows.entries() {
            self.entries.push_reserved(*entry);
        }
        let end = self.entries.len();
        self.ends.push_reserved(end);
    }

    /// Takes back the views after the first so many, of which there are at least so many.
    pub fn truncate(&mut self, views: usize)
        requires { views ≤ length self.old.views }
        ensures views { self.new.views ≡ take views self.old.views }
        ensures room { self.old.room ≤ self.new.room }
    {
        let end = begin_of(self.ends.as_slice(), views);
        self.ends.truncate(views);
        self.entries.truncate(end);
    }
}

/// Where the entries of the view of a number begin.
fn begin_of(ends: &[usize], number: usize) -> usize
    requires { number ≤ length ends.now }
    ensures { result ≡ begin 0 ends.now number }
{
    match number {
        0 => 0,
        _ => ends[number - 1],
    }
}

/// Puts these entries, whose keys rise, into a view that has no rows.
fn put_all<Row: Copy>(view: &mut View<Row>, entries: &[(Key, Row)])
    requires none { view.old ≡ map.empty }
    requires rising { rising entries.now }
    requires few { length entries.now ≤ MOST_KEYS }
    ensures { view.new ≡ shown entries.now }
{
    for i in 0..entries.len() {
        let entry = entries[i];
        view.put(entry.0, entry.1);
    }
}
