//! The unreleased places.
ghost use Rattle.std.specs.Prelude.{◌≡◌, ◌↔◌, ◌/◌, ◌<◌, ◌≤◌, false, [], length, vec_len, vec_capacity, cond, IsSome, IsTrue, OnOk, OnErr, IsOkUnless, Option, None, Some, MatchOption, ℕ};
ghost use Rattle.std.specs.Option.{option_map};
ghost use Rattle.calvin_types.specs.declared.place.Place.{Place};
ghost use Rattle.calvin_types.specs.Places.{IsBefore};
ghost use Rattle.calvin_lock.specs.Queues.{equal_places};
ghost use Rattle.calvin_lock.specs.Marks.{AreMarks, is_marked};
ghost use Rattle.calvin_lock.specs.Unreleased.{Among, Rises, pending_at, IsReadyIn, with_fewer, AreMarked, IsUnreleased, HasPlace, IsUpTo, IsFirstReadyIn};

use crate::kept_sets::KeptSets;
use crate::marks::Marks;
use crate::order::{count_up_to, number_of};
use calvin_types::{Fault, Place};
use indexmap::IndexMap;
use std::alloc::Global;

/// How many places there is room for at first, where there is any.
const LEAST_ORDER: usize = 64;

/// What is kept of an unreleased place: its keys, how many of them it waits for, and where it stood in order when it was
/// requested, which is where it is looked for first.
#[derive(Drop)]
pub(crate) struct Pending {
    pub sets: KeptSets,
    pub waits: usize,
    pub near: usize,
}

/// The unreleased places; and in rising order they and some that were released since, the places that wait for no key
/// marked by where they stand there, and where the one stood that was taken out last, from which the next is looked for. A
/// place is found in expected constant time, and a ready one, in logarithmic time.
/// The released ones are taken out of the order when it is full and they are at least three quarters of it: so it has room
/// for at most eight times as many places as were unreleased at once, or for a few.
#[derive(Drop)]
pub(crate) struct Unreleased {
    places: IndexMap<Place, Pending>,
    order: Vec<Place>,
    marks: Marks,
    last: usize,
}

/// Takes the released places out of a rising list.
fn keep_unreleased(order: &mut Vec<Place>, places: &IndexMap<Place, Pending>)
    requires { Rises order.old.items }
    ensures rises { Rises order.new.items }
    ensures listed { (q : Place) → Among order.new.items q ↔ (Among order.old.items q × IsSome (pending_at places.now.entries q)) }
    ensures len { vec_len order.new ≤ vec_len order.old }
    ensures capacity { vec_capacity order.new ≡ vec_capacity order.old }
{
    order.retain(|place| places.contains_key(place));
}

impl Unreleased {
    /// No place.
    pub(crate) fn new(alloc: Global) -> Unreleased
        ensures kept { IsUnreleased result }
        ensures places { result.places.entries ≡ [] }
        ensures order { result.order.items ≡ [] }
    {
        Unreleased {
            places: IndexMap::new(alloc),
            order: Vec::new(alloc),
            marks: Marks::new(alloc),
            last: 0,
        }
    }

    /// Makes room for one more place.
    pub(crate) fn reserve(&mut self) -> Result<(), Fault>
        requires { IsUnreleased self.old }
        ensures kept { IsUnreleased self.new }
        ensures places { self.new.places.entries ≡ self.old.places.entries }
        ensures order { (q : Place) → Among self.new.order.items q → Among self.old.order.items q }
        ensures ok { OnOk result (HasPlace self.new) }
        ensures only { IsOkUnless result Fault.OutOfMemory }
    {
        self.places.reserve(1)?;
        self.tidy();
        let more = match self.order.len() {
            0 => LEAST_ORDER,
            _ => 1,
        };
        self.order.reserve(more)?;
        self.widen()
    }

    /// Takes the released places out of the order where it is full and they are at least three quarters of it.
    fn tidy(&mut self)
        requires { IsUnreleased self.old }
        ensures kept { IsUnreleased self.new }
        ensures places { self.new.places ≡ self.old.places }
        ensures order { (q : Place) → Among self.new.order.items q → Among self.old.order.items q }
        ensures tidied { vec_capacity self.old.order ≤ vec_len self.old.order → length self.old.places.entries ≤ vec_len self.old.order / 4
            → (q : Place) → Among self.new.order.items q → IsSome (pending_at self.new.places.entries q) }
    {
        let taken = self.order.len();
        if taken < self.order.capacity() || taken / 4 < self.places.len() {
            return;
        }
        keep_unreleased(&mut self.order, &self.places);
        self.marks.unmark_all();
        self.mark_ready();
    }

    /// Makes room to mark one more place than there are in order.
    fn widen(&mut self) -> Result<(), Fault>
        requires { IsUnreleased self.old }
        ensures kept { IsUnreleased self.new }
        ensures places { self.new.places ≡ self.old.places }
        ensures order { self.new.order ≡ self.old.order }
        ensures ok { OnOk result (length self.new.order.items < self.new.marks.leaves) }
        ensures only { IsOkUnless result Fault.OutOfMemory }
    {
        if self.order.len() < self.marks.leaves {
            return Ok(());
        }
        self.marks.widen()?;
        self.mark_ready();
        Ok(())
    }

    /// Marks the places in order that wait for no key, where nothing is marked.
    fn mark_ready(&mut self)
        requires kept { AreMarks self.old.marks }
        requires unmarked { (i : ℕ) → is_marked self.old.marks i ≡ false }
        requires fits { length self.old.order.items ≤ self.old.marks.leaves }
        ensures kept { AreMarks self.new.marks }
        ensures leaves { self.new.marks.leaves ≡ self.old.marks.leaves }
        ensures marked { AreMarked self.new.marks self.old.order.items self.old.places.entries }
        ensures order { self.new.order ≡ self.old.order }
        ensures places { self.new.places ≡ self.old.places }
    {
        for i in 0..self.order.len() {
            if self.is_ready(self.order[i]) {
                self.marks.mark(i);
            }
        }
    }

    /// Adds a place past all in order, for which there is room.
    pub(crate) fn add(&mut self, place: Place, sets: KeptSets, waits: usize)
        requires kept { IsUnreleased self.old }
        requires room { HasPlace self.old }
        requires new { pending_at self.old.places.entries place ≡ None }
        requires last { (q : Place) → Among self.old.order.items q → IsBefore q place }
        ensures kept { IsUnreleased self.new }
        ensures places { (q : Place)
            → pending_at self.new.places.entries q ≡ cond (equal_places place q)
            (Some (record { sets = sets; waits = waits; near = vec_len self.old.order })) (pending_at self.old.places.entries q) }
        ensures order { IsUpTo self.new (Some place) }
    {
        let near = self.order.len();
        let added: Result<_, _> = self.places.insert(place, Pending { sets, waits, near });
        let _before = added.unwrap();
        self.order.push_reserved(place);
        if waits == 0 {
            self.marks.mark(near);
        }
    }

    /// A place waits for one key less.
    pub(crate) fn grant(&mut self, place: Place)
        requires { IsUnreleased self.old }
        ensures kept { IsUnreleased self.new }
        ensures places { (q : Place)
            → pending_at self.new.places.entries q ≡ cond (equal_places place q) (option_map with_fewer (pending_at self.old.places.entries q))
            (pending_at self.old.places.entries q) }
        ensures order { self.new.order.items ≡ self.old.order.items }
    {
        if let Some(pending) = self.places.get_mut(&place) {
            if pending.waits > 0 {
                pending.waits -= 1;
                if pending.waits == 0 {
                    if let Some(number) = number_of(self.order.as_slice(), place, pending.near) {
                        self.marks.mark(number);
                    }
                }
            }
        }
    }

    /// Takes a ready place out, and gives its keys; of another place nothing changes.
    pub(crate) fn take(&mut self, place: Place) -> Option<KeptSets>
        requires { IsUnreleased self.old }
        ensures kept { IsUnreleased self.new }
        ensures taken { MatchOption result ((¬ IsReadyIn self.old.places.entries place)
            × (self.new.places.entries ≡ self.old.places.entries)) (λ sets. ((n : ℕ)
            × (pending_at self.old.places.entries place ≡ Some (record { sets = sets; waits = 0; near = n })))
            × ((q : Place) → pending_at self.new.places.entries q ≡ cond (equal_places place q) None (pending_at self.old.places.entries q))) }
        ensures order { self.new.order.items ≡ self.old.order.items }
    {
        let (at, _, pending) = self.places.get_full(&place)?;
        if pending.waits > 0 {
            return None;
        }
        let number = number_of(self.order.as_slice(), place, pending.near)?;
        let (_, taken) = self.places.swap_remove_index(at)?;
        self.marks.unmark(number);
        self.last = number;
        Some(taken.sets)
    }

    /// Whether a place is unreleased and waits for no key.
    pub(crate) fn is_ready(&self, place: Place) -> bool
        ensures { IsTrue result ↔ IsReadyIn self.now.places.entries place }
    {
        match self.places.get(&place) {
            Some(pending) => pending.waits == 0,
            None => false,
        }
    }

    /// The least ready place, of those greater than `after` where one is given.
    pub(crate) fn first_ready(&self, after: Option<Place>) -> Option<Place>
        requires { IsUnreleased self.now }
        ensures { IsFirstReadyIn self.now.places.entries after result }
    {
        let from = match after {
            Some(after) => count_up_to(self.order.as_slice(), after, self.last),
            None => 0,
        };
        let number = self.marks.next(from)?;
        Some(self.order[number])
    }
}
