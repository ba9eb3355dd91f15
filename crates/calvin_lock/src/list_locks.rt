//! Locks as one list.
ghost use Rattle.std.specs.Prelude.{◌≡◌, ◌<◌, ◌↔◌, T, IsTrue, IsSome, IfSome, MatchOption, length};
ghost use Rattle.std.specs.FinMap.{find, is_sorted, from_entries};
ghost use Rattle.calvin_types.specs.Places.{place_cmp};
ghost use Rattle.calvin_lock.specs.Ready.{IsReady, IsPast};
ghost use Rattle.calvin_lock.specs.ListOrder.{IsFree, IsAt};

use crate::conflict::conflict;
use crate::locks::Locks;
use calvin_types::{Fault, KeySet, Place, Sets};
use std::alloc::Global;
use std::marker::Model;

/// Locks as one list of the unreleased places with their keys, in the order of their requests, which is searched in that
/// order. A request, which is at its end, takes constant time; the other calls take time in proportion to what is
/// unreleased, and `first_ready` to its square.
#[derive(Drop)]
pub struct ListLocks {
    unreleased: Vec<(Place, Sets)>,
    last: Option<Place>,
}

impl Model for ListLocks {
    ghost use Rattle.std.specs.FinMap.{from_entries};
    ghost use Rattle.calvin_lock.specs.Locking.{Locking};
    ghost use Rattle.calvin_lock.specs.LocksCode.{coded_locking};
    ghost use Rattle.calvin_lock.specs.ListOrder.{IsInOrder};

    ghost Value = { Locking };

    ghost coded = { coded_locking };

    ghost view = { λ l. record { requested = from_entries l.unreleased.items; last = l.last } };

    ghost invariant = { λ l. IsInOrder l.unreleased.items l.last };
}

impl Locks for ListLocks {
    ghost kept = { λ l. l };

    fn empty(alloc: Global) -> ListLocks {
        ListLocks {
            unreleased: Vec::new(alloc),
            last: None,
        }
    }

    fn request(&mut self, place: Place, reads: &KeySet, writes: &KeySet) -> Result<(), Fault> {
        if !is_past(self.last, place) {
            return Err(Fault::LocksOutOfOrder);
        }
        if reads.is_empty() && writes.is_empty() {
            return Err(Fault::NoKeys);
        }
        let sets = Sets {
            reads: *reads,
            writes: *writes,
        };
        self.unreleased.push((place, sets))?;
        self.last = Some(place);
        Ok(())
    }

    fn is_ready(&self, place: Place) -> bool {
        ready_position(&self.unreleased, place).is_some()
    }

    fn release(&mut self, place: Place) -> Result<(), Fault> {
        match ready_position(&self.unreleased, place) {
            Some(i) => {
                let _released = self.unreleased.remove(i);
                Ok(())
            }
            None => Err(Fault::NotHeld),
        }
    }

    fn up_to_last(&self) {
        let _last = self.last;
    }

    fn first_ready(&self, after: Option<Place>) -> Option<Place> {
        for i in 0..self.unreleased.len() {
            let (place, _) = self.unreleased[i];
            if is_past(after, place) && is_free(&self.unreleased, i) {
                return Some(place);
            }
        }
        None
    }
}

/// Whether a place is greater than another, where there is one.
pub(crate) fn is_past(after: Option<Place>, place: Place) -> bool
    ensures { IsTrue result ↔ IsPast after place }
{
    match after {
        Some(after) => after < place,
        None => true,
    }
}

/// Whether no earlier request of a list conflicts with the one that has `i` before it.
fn is_free(requests: &[(Place, Sets)], i: usize) -> bool
    requires { i < length requests.now }
    ensures { IsTrue result ↔ IsFree requests.now i }
{
    let sets = &requests[i].1;
    for j in 0..i {
        if conflict(&requests[j].1, sets) {
            return false;
        }
    }
    true
}

/// How many requests of a list are before that of a place.
fn position_of(requests: &[(Place, Sets)], place: Place) -> Option<usize>
    ensures { MatchOption result (find place_cmp place requests.now ≡ None) (IsAt requests.now place) }
{
    for i in 0..requests.len() {
        let (at, _) = requests[i];
        if at == place {
            return Some(i);
        }
    }
    None
}

/// How many requests of a list in order are before that of a place, if it is ready.
fn ready_position(requests: &[(Place, Sets)], place: Place) -> Option<usize>
    requires { T (is_sorted place_cmp requests.now) }
    ensures ready { IsSome result ↔ IsReady (from_entries requests.now) place }
    ensures at { IfSome result (IsAt requests.now place) }
{
    let i = position_of(requests, place)?;
    if is_free(requests, i) { Some(i) } else { None }
}
