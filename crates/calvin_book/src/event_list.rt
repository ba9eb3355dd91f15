//! Events in little room.
ghost use Rattle.std.specs.Prelude.{◌≡◌, ◌<◌, [], ◌∷◌, ◌++◌, length, slice_get, IfOk, OnOk, IsOkUnless};
ghost use Rattle.calvin_types.specs.declared.fault.Fault.TheVariants.{OutOfMemory};

use crate::step::{Step, event_at, request_of, step_of};
use calvin_types::{Fault, Txn};
use calvin_world::Event;
use std::alloc::Global;
use std::marker::Model;

/// Events in the order in which they happened. The request that an event submits is kept apart from it, so that the others, of which
/// there are many for each request, take a twentieth of the bytes.
#[derive(Drop)]
pub struct EventList<Args: Copy> {
    steps: Vec<Step>,
    requests: Vec<Txn<Args>>,
}

impl<Args: Copy> Model for EventList<Args> {
    ghost use Rattle.std.specs.Prelude.{◌-◌, vec_len, vec_capacity};
    ghost use Rattle.std.specs.Coded.{codes};
    ghost use Rattle.std.specs.FinMap.{code};
    ghost use Rattle.calvin_book.specs.Kept.{Listed, events_of, AreEvents};

    ghost Value = { Listed Args };

    ghost coded = { Prim.hlevel (codes, code) };

    ghost view = { λ l. record {
      items = events_of l.requests.items l.steps.items;
      room = vec_capacity l.steps - vec_len l.steps;
      room_for_requests = vec_capacity l.requests - vec_len l.requests;
    } };

    ghost invariant = { λ l. AreEvents l.requests.items l.steps.items };
}

impl<Args: Copy> EventList<Args> {
    /// No events.
    pub(crate) fn new(alloc: Global) -> EventList<Args>
        ensures items { result.items ≡ [] }
    {
        EventList {
            steps: Vec::new(alloc),
            requests: Vec::new(alloc),
        }
    }

    /// How many they are.
    pub fn len(&self) -> usize
        ensures { result ≡ length self.now.items }
    {
        self.steps.len()
    }

    /// The event with so many before it, if there is one.
    pub fn get(&self, number: usize) -> Option<Event<Args>>
        ensures { result ≡ slice_get self.now.items number }
    {
        let step = self.steps.get(number)?;
        event_at(*step, self.requests.as_slice())
    }

    /// All of them in a list, whose items are in one piece of memory. Refused with `OutOfMemory` where there was no room for it.
    pub fn to_vec(&self, alloc: Global) -> Result<Vec<Event<Args>>, Fault>
        ensures ok { IfOk result (λ events. events.items ≡ self.now.items) }
        ensures only { IsOkUnless result OutOfMemory }
    {
        let mut events = Vec::with_capacity(alloc, self.len())?;
        for number in 0..self.len() {
            let Some(event) = self.get(number) else {
                return Ok(events);
            };
            events.push(event)?;
        }
        Ok(events)
    }

    /// Room for one more event at least. Refused with `OutOfMemory` where there was none.
    pub(crate) fn reserve(&mut self) -> Result<(), Fault>
        ensures items { self.new.items ≡ self.old.items }
        ensures room { OnOk result (0 < self.new.room) }
        ensures room_for_requests { OnOk result (0 < self.new.room_for_requests) }
        ensures only { IsOkUnless result OutOfMemory }
    {
        self.steps.reserve(1)?;
        self.requests.reserve(1)?;
        Ok(())
    }

    /// An event is the last one. There is room for it.
    pub(crate) fn push_reserved(&mut self, event: &Event<Args>)
        requires room { 0 < self.old.room }
        requires room_for_requests { 0 < self.old.room_for_requests }
        ensures items { self.new.items ≡ self.old.items ++ event.now ∷ [] }
    {
        let number = self.requests.len();
        self.steps.push_reserved(step_of(event, number));
        match request_of(event) {
            Some(txn) => self.requests.push_reserved(*txn),
            None => {}
        }
    }
}
