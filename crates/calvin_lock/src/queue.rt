//! The queue of one key.
ghost use Rattle.std.specs.Prelude.{◌≡◌, ◌+◌, ◌<◌, ◌++◌, List, [], ◌∷◌, OnOk, IsOkUnless, MatchOption, if◌then◌else◌};
ghost use Rattle.std.specs.VecDeque.{deque_len};
ghost use Rattle.calvin_types.specs.declared.place.Place.{Place};
ghost use Rattle.calvin_lock.specs.declared.queue.TheConstants.{MOST_IN_A_QUEUE};
ghost use Rattle.calvin_lock.specs.Queues.{admits, with_holder, without_holder, holder_count, Fits, HasRoom, IsQueueOf, IsSettled, IsQueueAt, place_is, is_of, waits_in};

use calvin_types::{Fault, Place};
use std::alloc::Global;
use std::collections::VecDeque;

/// The most places that a key's queue takes: more than there is memory for, so that their number can be counted.
pub(crate) const MOST_IN_A_QUEUE: usize = 1 << 60;

/// How a place asks for a key: shared by those that only read it, exclusive by one that writes it.
#[derive(Clone, Copy, Debug)]
pub(crate) enum Kind {
    Shared,
    Exclusive,
}

/// A place that asks for a key.
#[derive(Clone, Copy, Debug)]
pub(crate) struct Ask {
    pub place: Place,
    pub kind: Kind,
}

/// Who holds a key: so many that share it, or one that doesn't.
#[derive(Clone, Copy, Debug)]
pub(crate) enum Holders {
    Shared(usize),
    Exclusive,
}

impl Holders {
    /// How many share the key.
    fn count(self) -> usize
        ensures { result ≡ holder_count self }
    {
        match self {
            Holders::Shared(n) => n,
            Holders::Exclusive => 0,
        }
    }

    /// Whether one that asks so may hold the key beside them.
    fn admits(self, kind: Kind) -> bool
        ensures { result ≡ admits self kind }
    {
        match (self, kind) {
            (Holders::Shared(_), Kind::Shared) => true,
            (Holders::Shared(n), Kind::Exclusive) => n == 0,
            (Holders::Exclusive, _) => false,
        }
    }

    /// With one more, which they admit.
    fn with(self, kind: Kind) -> Holders
        requires { holder_count self < MOST_IN_A_QUEUE }
        ensures { result ≡ with_holder self kind }
    {
        match (self, kind) {
            (Holders::Shared(n), Kind::Shared) => Holders::Shared(n + 1),
            (_, _) => Holders::Exclusive,
        }
    }

    /// With one less.
    fn without(self) -> Holders
        ensures { result ≡ without_holder self }
    {
        match self {
            Holders::Shared(n) => Holders::Shared(n.saturating_sub(1)),
            Holders::Exclusive => Holders::Shared(0),
        }
    }
}

/// The unreleased places that ask for one key: those at the front, which hold it, as their number, and those that wait
/// behind them, in rising order.
#[derive(Drop)]
pub(crate) struct Queue {
    holders: Holders,
    waiting: VecDeque<Ask>,
}

impl Queue {
    /// The queue of no place.
    pub(crate) fn new(alloc: Global) -> Queue
        ensures queue { IsQueueAt [] (Some result) }
        ensures waiting { result.waiting.items ≡ [] }
    {
        Queue {
            holders: Holders::Shared(0),
            waiting: VecDeque::new(alloc),
        }
    }

    /// Whether no place holds the key.
    pub(crate) fn is_free(&self) -> bool
        ensures { result ≡ admits self.now.holders Kind.Exclusive }
    {
        self.holders.admits(Kind::Exclusive)
    }

    /// Makes room for one more place, which asks so.
    pub(crate) fn reserve(&mut self, kind: Kind) -> Result<(), Fault>
        ensures holders { self.new.holders ≡ self.old.holders }
        ensures waiting { self.new.waiting.items ≡ self.old.waiting.items }
        ensures len { deque_len self.new.waiting ≡ deque_len self.old.waiting }
        ensures room { (other : Kind) → HasRoom self.old other → HasRoom self.new other }
        ensures ok { OnOk result (HasRoom self.new kind) }
        ensures only { IsOkUnless result Fault.OutOfMemory }
    {
        let free = MOST_IN_A_QUEUE.saturating_sub(self.waiting.len());
        if self.holders.count() >= free {
            return Err(Fault::OutOfMemory);
        }
        if self.waiting.len() > 0 || !self.holders.admits(kind) {
            self.waiting.reserve(1)?;
        }
        Ok(())
    }

    /// Adds a place at the end, and says whether it holds the key at once.
    pub(crate) fn join(&mut self, ask: Ask) -> bool
        requires { HasRoom self.old ask.kind }
        ensures queue { (asks : List Ask) → IsQueueAt asks (Some self.old) → IsQueueAt (asks ++ ask ∷ []) (Some self.new) }
        ensures waiting { (q : Place) → waits_in q self.new.waiting.items ≡ waits_in q self.old.waiting.items + (if result then 0 else is_of q ask) }
    {
        let waiting = self.waiting.len();
        if waiting == 0 && self.holders.admits(ask.kind) {
            self.holders = self.holders.with(ask.kind);
            return true;
        }
        self.waiting.push_back_reserved(ask);
        false
    }

    /// One that holds the key leaves.
    pub(crate) fn leave(&mut self)
        ensures holders { self.new.holders ≡ without_holder self.old.holders }
        ensures waiting { self.new.waiting ≡ self.old.waiting }
    {
        self.holders = self.holders.without();
    }

    /// Lets the place that waits first hold the key, if those who hold it admit it.
    pub(crate) fn grant_next(&mut self) -> Option<Place>
        requires { Fits self.old }
        ensures fits { Fits self.new }
        ensures queue { (asks : List Ask) → IsQueueOf asks self.old.holders self.old.waiting.items → IsQueueOf asks self.new.holders self.new.waiting.items }
        ensures waiting { MatchOption result (self.new ≡ self.old) (λ p. (q : Place) → waits_in q self.old.waiting.items ≡ place_is q p + waits_in q self.new.waiting.items) }
        ensures settled { MatchOption result (IsSettled self.new.holders self.new.waiting.items) (λ p. deque_len self.new.waiting < deque_len self.old.waiting) }
    {
        let first = *self.waiting.front()?;
        if !self.holders.admits(first.kind) {
            return None;
        }
        let _first = self.waiting.pop_front();
        self.holders = self.holders.with(first.kind);
        Some(first.place)
    }
}
