//! The pen of a history, marks of it, and the whole.
ghost use Rattle.std.specs.Prelude.{◌≡◌, ◌++◌, ◌∷◌, [], IfSome, MatchBool};
ghost use mathlib.Core.List.{IsPrefix};

use crate::law::{Add, End, Law, Naming, Nothing};
use logbook::{Offer, Seen, Word};
use std::marker::{Model, PhantomData};

/// Who has it writes the history, and knows all that was written. To a contract it is the events so far, in their order.
#[derive(Drop)]
pub struct Pen<E, J: Naming> {
    /// The length of the log, as threads share it.
    pub(crate) head: Word<Option<E>, u64, Law>,
    /// The same length, as this pen left it.
    pub(crate) count: u64,
    pub(crate) seen: Seen<Option<E>, u64, Law>,
    pub(crate) of: PhantomData<J>,
}

impl<E, J: Naming> Model for Pen<E, J> {
    ghost use Rattle.std.specs.Prelude.{◌≡◌, List, length};
    ghost use Rattle.calvin_chronicle.specs.Histories.{events_of, as_log};
    ghost use Rattle.calvin_chronicle.specs.Rules.{head_of};

    ghost Value = { List E };

    ghost view = { λ p. events_of p.seen.log };

    ghost invariant = { λ p. (p.count ≡ length p.seen.log) × (p.seen.book ≡ J.book) × (p.head ≡ head_of J.book) × (p.seen.log ≡ as_log (events_of p.seen.log)) };
}

/// How far the history had come at some time. To a contract it is the events until then. At run time it is nothing.
#[derive(Drop)]
pub struct Mark<E, J: Naming> {
    seen: Seen<Option<E>, u64, Law>,
    of: PhantomData<J>,
}

impl<E, J: Naming> Model for Mark<E, J> {
    ghost use Rattle.std.specs.Prelude.{◌≡◌, List};
    ghost use Rattle.calvin_chronicle.specs.Histories.{events_of};

    ghost Value = { List E };

    ghost view = { λ m. events_of m.seen.log };

    ghost invariant = { λ m. m.seen.book ≡ J.book };
}

/// The history has ended: nothing is written after it. To a contract it is all its events. At run time it is nothing.
#[derive(Drop)]
pub struct Whole<E, J: Naming> {
    seen: Seen<Option<E>, u64, Law>,
    of: PhantomData<J>,
}

impl<E, J: Naming> Model for Whole<E, J> {
    ghost use Rattle.std.specs.Prelude.{◌≡◌, ◌++◌, ◌∷◌, [], List, None};
    ghost use Rattle.calvin_chronicle.specs.Histories.{events_of, as_log};

    ghost Value = { List E };

    ghost view = { λ w. events_of w.seen.log };

    ghost invariant = { λ w. (w.seen.book ≡ J.book) × (w.seen.log ≡ as_log (events_of w.seen.log) ++ None ∷ []) };
}

impl<E, J: Naming> Mark<E, J> {
    /// Another mark of the same events.
    pub fn again(&self) -> Mark<E, J>
        ensures { result ≡ self.now }
    {
        Mark {
            seen: self.seen.again(),
            of: PhantomData,
        }
    }
}

impl<E, J: Naming> Pen<E, J> {
    /// A mark of the history so far.
    pub fn mark(&self) -> Mark<E, J>
        ensures { result ≡ self.now }
    {
        Mark {
            seen: self.seen.again(),
            of: PhantomData,
        }
    }

    /// Writes an event after all others. False, and nothing is written, where another hand wrote into the history since this pen
    /// did, or where no number is left, after 2^64 - 1 events. A history has one pen, so there is no other hand; no clause says so.
    pub fn write(&mut self, event: &E) -> bool
        ensures { MatchBool result (self.new ≡ self.old ++ event.now ∷ []) (self.new ≡ self.old) }
    {
        let count = self.count;
        if count == u64::MAX {
            return false;
        }
        let mut seen = self.seen.again();
        let mut offer: Offer<Option<E>, u64, Law, Nothing> = seen.plain::<Nothing, E, Add>(event);
        let mut right = seen.no_pen();
        let found = self
            .head
            .compare_exchange::<Add, Nothing>(count, count + 1, &mut seen, &mut offer, &mut right);
        if found != count {
            return false;
        }
        self.count = count + 1;
        self.seen = seen;
        true
    }

    /// Ends the history, after which nothing can be written. None, and the pen is gone, where `write` would be false.
    pub fn end(self) -> Option<Whole<E, J>>
        ensures { IfSome result (λ w. w ≡ self) }
    {
        let Pen {
            head,
            count,
            mut seen,
            of,
        } = self;
        if count == u64::MAX {
            return None;
        }
        let mut offer: Offer<Option<E>, u64, Law, Nothing> = seen.plain::<Nothing, (), End>(&());
        let mut right = seen.no_pen();
        let found = head.compare_exchange::<Add, Nothing>(
            count,
            count + 1,
            &mut seen,
            &mut offer,
            &mut right,
        );
        if found != count {
            return None;
        }
        Some(Whole { seen, of })
    }
}

impl<E, J: Naming> Whole<E, J> {
    /// Each mark of the history is of a beginning of it. At run time nothing is done.
    pub fn covers(&self, mark: &Mark<E, J>)
        ensures { IsPrefix mark.now self.now }
    {
        let mut both = self.seen.again();
        both.learn(&mark.seen);
    }
}
