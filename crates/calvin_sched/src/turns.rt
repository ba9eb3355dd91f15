//! The admitted requests by their places.
ghost use Rattle.std.specs.Prelude.{◌≡◌, ◌↔◌, ◌-◌, ◌<◌, None, max, IfSome, IsTrue, OnOk, OnErr, IsOkUnless, MatchOption};
ghost use Rattle.std.specs.Option.{ForSome, option_copied};
ghost use Rattle.std.specs.FinMap as map;
ghost use Rattle.calvin_types.specs.Participants.{site};
ghost use Rattle.calvin_types.specs.Places.{place_cmp};
ghost use Rattle.calvin_sched.specs.Keeping.{turns_of};
ghost use Rattle.calvin_sched.specs.Scheduling.{turn_done};
ghost use Rattle.calvin_sched.specs.Seating.{rising, IsAt, IsPastAll};
ghost use Rattle.calvin_sched.specs.Steps.{begun_turn, with_rows};
ghost use Rattle.calvin_sched.specs.declared.phase.Phase.TheVariants.{Done};

use crate::turn::Turn;
use calvin_app::{App, View};
use calvin_store::Rows;
use calvin_types::{Config, Fault, Place};
use std::alloc::Global;
use std::marker::Model;

/// At most one admitted request at each place. Room for one more can be reserved. They stand in the order of their places, in
/// which they are put, and most begin, are run and are finished; where partitions are few, rows come in it too. So one is looked for first
/// where one was looked for last, then where rows came last, and behind each of these. Any other is found in logarithmic time.
#[derive(Drop)]
pub struct Turns<A: App> {
    turns: Vec<(Place, Turn<A>)>,
    near: usize,
    near_came: usize,
    room: usize,
}

impl<A: App> Model for Turns<A> {
    ghost use Rattle.std.specs.Prelude.{◌-◌, ◌≤◌, vec_len, vec_capacity};
    ghost use Rattle.calvin_sched.specs.Keeping.{Seats};
    ghost use Rattle.calvin_sched.specs.Seating.{rising, seated};
    ghost use Rattle.std.specs.Coded.{codes};
    ghost use Rattle.std.specs.FinMap.{code};

    ghost Value = { Seats A.Args A.Row };

    ghost coded = { Prim.hlevel (codes, code) };

    ghost view = { λ t. record { kept = seated t.turns.items; room = t.room } };

    ghost invariant = { λ t. rising t.turns.items × (t.room ≤ vec_capacity t.turns - vec_len t.turns) };
}

/// Whether there is a request with so many before it, and it is at a place.
fn is_at<A: App>(turns: &[(Place, Turn<A>)], number: usize, place: Place) -> bool
    ensures { IsTrue result ↔ IsAt place turns.now number }
{
    match turns.get(number) {
        Some((other, _)) => *other == place,
        None => false,
    }
}

/// How many requests stand before the one at a place, where these are `near` or one more.
fn number_near<A: App>(turns: &[(Place, Turn<A>)], place: Place, near: usize) -> Option<usize>
    ensures { IfSome result (IsAt place turns.now) }
{
    if is_at(turns, near, place) {
        return Some(near);
    }
    let next = near.saturating_add(1);
    if is_at(turns, next, place) {
        return Some(next);
    }
    None
}

/// How many requests stand before the one at a place, if that is there, by a binary search.
fn search<A: App>(turns: &[(Place, Turn<A>)], place: Place) -> Option<usize>
    requires { rising turns.now }
    ensures { MatchOption result (map.find place_cmp place turns.now ≡ None) (IsAt place turns.now) }
{
    turns.binary_search_by_key(&place, |(other, _)| *other).ok()
}

/// How many requests stand before the one at a place, if that is there. It is looked for first with `near` before it or one
/// more, and then so with `other`.
fn number_of<A: App>(
    turns: &[(Place, Turn<A>)],
    place: Place,
    near: usize,
    other: usize,
) -> Option<usize>
    requires { rising turns.now }
    ensures { MatchOption result (map.find place_cmp place turns.now ≡ None) (IsAt place turns.now) }
{
    if let Some(number) = number_near(turns, place, near) {
        return Some(number);
    }
    if let Some(number) = number_near(turns, place, other) {
        return Some(number);
    }
    search(turns, place)
}

impl<A: App> Turns<A> {
    /// No request, and room for none.
    pub fn new(alloc: Global) -> Turns<A>
        ensures { result ≡ record { kept = map.empty; room = 0 } }
    {
        Turns {
            turns: Vec::new(alloc),
            near: 0,
            near_came: 0,
            room: 0,
        }
    }

    /// The request at a place.
    pub fn get(&self, place: Place) -> Option<&Turn<A>>
        ensures { option_copied result ≡ map.get self.now.kept place }
    {
        self.get_near(place, self.near)
    }

    /// The request at a place, which is looked for first with `near` before it or one more.
    fn get_near(&self, place: Place, near: usize) -> Option<&Turn<A>>
        ensures { option_copied result ≡ map.get self.now.kept place }
    {
        let number = number_of(&self.turns, place, near, self.near_came)?;
        let (_, turn) = &self.turns[number];
        Some(turn)
    }

    /// Has the request at a place, if there is one, found at once where it is looked for next.
    pub fn seek(&mut self, place: Place)
        ensures { self.new ≡ self.old }
    {
        if let Some(number) = number_of(&self.turns, place, self.near, self.near_came) {
            self.near = number;
        }
    }

    /// Has the request at a place, if there is one, found at once where rows come for it.
    pub fn seek_came(&mut self, place: Place)
        ensures { self.new ≡ self.old }
    {
        if let Some(number) = number_of(&self.turns, place, self.near_came, self.near) {
            self.near_came = number;
        }
    }

    /// Whether the request at a place is done; false where none is there. It is looked for first with `near` before it or one
    /// more.
    pub fn is_done(&self, place: Place, near: usize) -> bool
        ensures { result ≡ turn_done (map.get (turns_of self.now.kept) place) }
    {
        match self.get_near(place, near) {
            Some(turn) => turn.is_done(),
            None => false,
        }
    }

    /// Room for one more request at least.
    pub fn reserve(&mut self) -> Result<(), Fault>
        ensures ok { OnOk result (self.new ≡ record self.old { room = max 1 self.old.room }) }
        ensures err { OnErr result (self.new ≡ self.old) }
        ensures only { IsOkUnless result Fault.OutOfMemory }
    {
        if self.room == 0 {
            self.turns.reserve(1)?;
            self.room = 1;
        }
        Ok(())
    }

    /// Puts a request at a place past those of all others. There is room for it.
    pub fn insert(&mut self, place: Place, turn: Turn<A>)
        requires past { IsPastAll place self.old.kept }
        requires room { 0 < self.old.room }
        ensures { self.new ≡ record { kept = map.insert self.old.kept place turn; room = self.old.room - 1 } }
    {
        self.turns.push_reserved((place, turn));
        self.room -= 1;
    }

    /// The request at a place, if there is one, begins.
    pub fn begin<S: Rows<A::Row>>(&mut self, place: Place, config: &Config, partition: u8, rows: &S)
        ensures none { map.get self.old.kept place ≡ None → self.new ≡ self.old }
        ensures some { ForSome (map.get self.old.kept place)
            (λ k. self.new ≡ record self.old {
              kept = map.insert self.old.kept place
                  (record { turn = begun_turn (site config.now.partitions partition) (S.store rows.now).map k.turn; room = k.room });
            }) }
    {
        let Some(number) = number_of(&self.turns, place, self.near, self.near_came) else {
            return;
        };
        self.near = number;
        let (_, turn) = &mut self.turns[number];
        turn.begin(config, partition, rows);
    }

    /// Keeps rows of another partition for the request at a place, which is there and has room for them.
    pub fn receive(&mut self, place: Place, from: u8, rows: &View<A::Row>)
        requires { ForSome (map.get self.old.kept place) (λ k. 0 < k.room) }
        ensures { ForSome (map.get self.old.kept place) (λ k. self.new ≡ record
            self.old { kept = map.insert self.old.kept place (record { turn = with_rows from rows.now k.turn; room = k.room - 1 }) }) }
    {
        let Some(number) = number_of(&self.turns, place, self.near_came, self.near) else {
            return;
        };
        self.near_came = number;
        let (_, turn) = &mut self.turns[number];
        turn.receive(from, rows);
    }

    /// The request at a place, which is there, did all that it does here.
    pub fn finish(&mut self, place: Place)
        ensures { ForSome (map.get self.old.kept place) (λ k. self.new ≡ record self.old { kept = map.insert self.old.kept place (record { turn = record k.turn { phase = Done }; room = k.room }) }) }
    {
        let Some(number) = number_of(&self.turns, place, self.near, self.near_came) else {
            return;
        };
        self.near = number;
        let (_, turn) = &mut self.turns[number];
        turn.finish();
    }
}
