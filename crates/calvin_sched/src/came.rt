//! The rows that came from other partitions.
ghost use Rattle.std.specs.Prelude.{◌≡◌, ◌+◌, ◌-◌, ◌<◌, ◌≤◌, max, is_some, vec_len, vec_capacity, IsOk, OnOk, OnErr, IsOkUnless};
ghost use Rattle.std.specs.FinMap as map;
ghost use Rattle.std.specs.Ordering.{nat_cmp};
ghost use Rattle.calvin_types.specs.declared.limits.TheConstants.{MOST_KEYS};
ghost use Rattle.calvin_app.specs.Rows.{Rows};
ghost use Rattle.calvin_sched.specs.Arrivals.{from_of, rows_from, with_arrival, came_by};

use calvin_app::{App, View};
use calvin_types::{Fault, Key, MOST_KEYS};
use std::alloc::Global;
use std::marker::Model;

/// What came from a partition: one of its rows, or that it has none.
#[derive(Clone, Copy)]
enum Arrival<Row> {
    /// It has no rows, whatever came from it before.
    Nothing(u8),
    /// It has this row alone, whatever came from it before.
    First(u8, Key, Row),
    /// It has this row too.
    Further(u8, Key, Row),
}

impl<Row: Copy> Arrival<Row> {
    /// The partition from which it came.
    fn partition(&self) -> u8
        ensures { result ≡ from_of self.now }
    {
        match *self {
            Arrival::Nothing(from) => from,
            Arrival::First(from, _, _) => from,
            Arrival::Further(from, _, _) => from,
        }
    }
}

/// At most one view of each partition. The rows of all of them stand in one list, in the order in which they came. Room for the
/// views of some more partitions can be reserved, which is room for sixteen rows of each, as a `View` has. When the last of them
/// comes the rows move to memory of just their size, if there is some, and all that they had is given back; else they stay there.
#[derive(Drop)]
pub struct Came<A: App> {
    arrivals: Vec<Arrival<A::Row>>,
    room: usize,
}

impl<A: App> Model for Came<A> {
    ghost use Rattle.std.specs.Prelude.{◌+◌, ◌*◌, ◌≤◌, vec_len, vec_capacity};
    ghost use Rattle.std.specs.Coded.{codes};
    ghost use Rattle.std.specs.FinMap.{code};
    ghost use Rattle.calvin_types.specs.declared.limits.TheConstants.{MOST_KEYS};
    ghost use Rattle.calvin_sched.specs.Arrivals.{came_by};
    ghost use Rattle.calvin_sched.specs.Keeping as keeping;

    ghost Value = { keeping.Came A.Row };

    ghost coded = { Prim.hlevel (codes, code) };

    ghost view = { λ c. record { rows = came_by c.arrivals.items; room = c.room } };

    ghost invariant = { λ c. vec_len c.arrivals + c.room * MOST_KEYS ≤ vec_capacity c.arrivals };
}

impl<A: App> Came<A> {
    /// No rows, and room for none.
    pub fn new(alloc: Global) -> Came<A>
        ensures { result ≡ record { rows = map.empty; room = 0 } }
    {
        Came {
            arrivals: Vec::new(alloc),
            room: 0,
        }
    }

    /// Whether rows of a partition came.
    pub fn has(&self, partition: u8) -> bool
        ensures { result ≡ is_some (map.get self.now.rows partition) }
    {
        for i in 0..self.arrivals.len() {
            if self.arrivals[i].partition() == partition {
                return true;
            }
        }
        false
    }

    /// The row of a key among those that came from a partition, if it has one.
    pub fn row(&self, partition: u8, key: &Key) -> Option<A::Row>
        ensures { result ≡ map.get (rows_from self.now.rows partition) key.now }
    {
        let mut row = None;
        for i in 0..self.arrivals.len() {
            row = row_after(row, &self.arrivals[i], partition, key);
        }
        row
    }

    /// Puts the rows of a partition, in place of those that came from it before. There is room for them.
    pub fn insert(&mut self, partition: u8, view: &View<A::Row>)
        requires { 0 < self.old.room }
        ensures { self.new ≡ record { rows = map.insert self.old.rows partition view.now; room = self.old.room - 1 } }
    {
        push_view(&mut self.arrivals, partition, view);
        self.room -= 1;
        if self.room == 0 {
            self.fit();
        }
    }

    /// The rows move to memory of just their size, if there is some, and all that they had is given back; else they stay there. It
    /// isn't shrunk in place: what that leaves is too small for the room of another request.
    fn fit(&mut self)
        requires { self.old.room ≡ 0 }
        ensures { self.new ≡ self.old }
    {
        if self.arrivals.len() == self.arrivals.capacity() {
            return;
        }
        let alloc = *self.arrivals.allocator();
        let Ok(fitting) = Vec::from_slice(alloc, self.arrivals.as_slice()) else {
            return;
        };
        self.arrivals = fitting;
    }

    /// Room for the rows of so many partitions at least.
    pub fn reserve(&mut self, partitions: usize) -> Result<(), Fault>
        ensures ok { OnOk result (self.new ≡ record self.old { room = max partitions self.old.room }) }
        ensures err { OnErr result (self.new ≡ self.old) }
        ensures only { IsOkUnless result Fault.OutOfMemory }
        ensures succeeds { partitions ≤ self.old.room → IsOk result }
    {
        if partitions <= self.room {
            return Ok(());
        }
        self.arrivals
            .reserve_exact(partitions.saturating_mul(MOST_KEYS))?;
        self.room = partitions;
        Ok(())
    }
}

/// The row of a key among those of a partition, with one arrival more than where it was `before`.
fn row_after<Row: Copy>(
    before: Option<Row>,
    arrival: &Arrival<Row>,
    partition: u8,
    key: &Key,
) -> Option<Row>
    ensures { (came : map.FinMap nat_cmp (Rows Row)) → before ≡ map.get (rows_from came partition) key.now
        → result ≡ map.get (rows_from (with_arrival came arrival.now) partition) key.now }
{
    if arrival.partition() != partition {
        return before;
    }
    match *arrival {
        Arrival::Nothing(_) => None,
        Arrival::First(_, k, row) => if *key == k { Some(row) } else { None },
        Arrival::Further(_, k, row) => if *key == k { Some(row) } else { before },
    }
}

/// The rows of a partition are put behind all others, in place of those that came from it before. There is room for sixteen.
fn push_view<Row: Copy>(arrivals: &mut Vec<Arrival<Row>>, partition: u8, view: &View<Row>)
    requires { vec_len arrivals.old + MOST_KEYS ≤ vec_capacity arrivals.old }
    ensures rows { came_by arrivals.new.items ≡ map.insert (came_by arrivals.old.items) partition view.now }
    ensures len { vec_len arrivals.new ≤ vec_len arrivals.old + MOST_KEYS }
    ensures capacity { vec_capacity arrivals.new ≡ vec_capacity arrivals.old }
{
    if view.len() == 0 {
        arrivals.push_reserved(Arrival::Nothing(partition));
        return;
    }
    for i in 0..view.len() {
        let (key, row) = view.at(i);
        let arrival = if i == 0 {
            Arrival::First(partition, key, row)
        } else {
            Arrival::Further(partition, key, row)
        };
        arrivals.push_reserved(arrival);
    }
}
