//! The pen of a node's history, marks of it, and the whole.
ghost use Rattle.std.specs.Prelude.{◌≡◌, ◌<◌, ◌++◌, ◌∷◌, [], IfSome, MatchBool};
ghost use mathlib.Core.List.{IsPrefix};

use crate::law::{Add, End, Entry, Law, Naming, NodeEvent, Nothing};
use logbook::{Offer, Seen, Word};
use std::marker::{Model, PhantomData};

/// Who has it writes the history of its node, and knows all that was written there. To a contract it is the node and its events so
/// far, in their order.
#[derive(Drop)]
pub struct Pen<E, J: Naming> {
    /// The length of the node's history, as threads share it.
    pub(crate) head: Word<Entry<E>, u64, Law>,
    pub(crate) node: u64,
    /// The same length, as this pen left it.
    pub(crate) count: u64,
    pub(crate) seen: Seen<Entry<E>, u64, Law>,
    pub(crate) of: PhantomData<J>,
}

impl<E, J: Naming> Model for Pen<E, J> {
    ghost use Rattle.std.specs.Prelude.{ℕ, ◌≡◌, ◌<◌, List, length};
    ghost use Rattle.calvin_chronicles.specs.Histories.{events_of, as_log, part_at, nodes_of};
    ghost use Rattle.calvin_chronicles.specs.Rules.{head_of};

    ghost Value = { ℕ × List E };

    ghost view = { λ p. (p.node, events_of (part_at p.node p.seen.log)) };

    ghost invariant = { λ p. (p.count ≡ length (part_at p.node p.seen.log)) × (p.seen.book ≡ J.book) × (p.head ≡ head_of J.book p.node)
        × (part_at p.node p.seen.log ≡ as_log (events_of (part_at p.node p.seen.log))) × (nodes_of p.seen.log ≡ J.nodes) × (p.node < J.nodes) };
}

/// How far the history of a node had come at some time. To a contract it is the node and its events until then. At run time it is
/// the node.
#[derive(Drop)]
pub struct Mark<E, J: Naming> {
    node: u64,
    seen: Seen<Entry<E>, u64, Law>,
    of: PhantomData<J>,
}

impl<E, J: Naming> Model for Mark<E, J> {
    ghost use Rattle.std.specs.Prelude.{ℕ, ◌≡◌, ◌<◌, List};
    ghost use Rattle.calvin_chronicles.specs.Histories.{events_of, part_at};

    ghost Value = { ℕ × List E };

    ghost view = { λ m. (m.node, events_of (part_at m.node m.seen.log)) };

    ghost invariant = { λ m. (m.seen.book ≡ J.book) × (m.node < J.nodes) };
}

/// The history of a node has ended: nothing is written after it. To a contract it is the node and all its events. At run time it is
/// the node.
#[derive(Drop)]
pub struct Whole<E, J: Naming> {
    node: u64,
    seen: Seen<Entry<E>, u64, Law>,
    of: PhantomData<J>,
}

impl<E, J: Naming> Model for Whole<E, J> {
    ghost use Rattle.std.specs.Prelude.{ℕ, ◌≡◌, ◌<◌, ◌++◌, ◌∷◌, [], List, None};
    ghost use Rattle.calvin_chronicles.specs.Histories.{events_of, as_log, part_at};

    ghost Value = { ℕ × List E };

    ghost view = { λ w. (w.node, events_of (part_at w.node w.seen.log)) };

    ghost invariant = { λ w. (w.seen.book ≡ J.book) × (part_at w.node w.seen.log ≡ as_log (events_of (part_at w.node w.seen.log)) ++ None ∷ []) × (w.node < J.nodes) };
}

impl<E, J: Naming> Mark<E, J> {
    /// The node of whose history it is a mark.
    pub fn node(&self) -> u64
        ensures is { result ≡ self.now.0 }
        ensures below { result < J.nodes }
    {
        self.node
    }

    /// Another mark of the same events.
    pub fn again(&self) -> Mark<E, J>
        ensures { result ≡ self.now }
    {
        Mark {
            node: self.node,
            seen: self.seen.again(),
            of: PhantomData,
        }
    }
}

impl<E, J: Naming> Pen<E, J> {
    /// The node whose history it writes.
    pub fn node(&self) -> u64
        ensures is { result ≡ self.now.0 }
        ensures below { result < J.nodes }
    {
        self.node
    }

    /// A mark of the node's history so far.
    pub fn mark(&self) -> Mark<E, J>
        ensures { result ≡ self.now }
    {
        Mark {
            node: self.node,
            seen: self.seen.again(),
            of: PhantomData,
        }
    }

    /// Writes an event after all others of the node. False, and nothing is written, where another hand wrote into the node's
    /// history since this pen did, or where no number is left, after 2^64 - 1 events of the node. A node has one pen, so there is
    /// no other hand; no clause says so. What is written of other nodes meanwhile makes no difference.
    pub fn write(&mut self, event: &E) -> bool
        ensures { MatchBool result (self.new ≡ (self.old.0, self.old.1 ++ event.now ∷ [])) (self.new ≡ self.old) }
    {
        let count = self.count;
        if count == u64::MAX {
            return false;
        }
        let it = NodeEvent {
            node: self.node,
            event,
        };
        let mut seen = self.seen.again();
        let mut offer: Offer<Entry<E>, u64, Law, Nothing> = seen.plain::<
            Nothing,
            NodeEvent<E>,
            Add,
        >(&it);
        let mut right = seen.no_pen();
        let found = self
            .head
            .compare_exchange::<Add, Nothing>(count, count + 1, &mut seen, &mut offer, &mut right);
        if found != count {
            return false;
        }
        self.count = count + 1;
        self.seen = seen;
        true
    }

    /// Ends the node's history, after which nothing of the node can be written. None, and the pen is gone, where `write` would be
    /// false.
    pub fn end(self) -> Option<Whole<E, J>>
        ensures { IfSome result (λ w. w ≡ self) }
    {
        let Pen {
            head,
            node,
            count,
            mut seen,
            of,
        } = self;
        if count == u64::MAX {
            return None;
        }
        let mut offer: Offer<Entry<E>, u64, Law, Nothing> = seen.plain::<Nothing, u64, End>(&node);
        let mut right = seen.no_pen();
        let found = head.compare_exchange::<Add, Nothing>(
            count,
            count + 1,
            &mut seen,
            &mut offer,
            &mut right,
        );
        if found != count {
            return None;
        }
        Some(Whole { node, seen, of })
    }
}

impl<E, J: Naming> Whole<E, J> {
    /// The node whose history has ended.
    pub fn node(&self) -> u64
        ensures is { result ≡ self.now.0 }
        ensures below { result < J.nodes }
    {
        self.node
    }

    /// Each mark of the node's history is of a beginning of it. At run time nothing is done.
    pub fn covers(&self, mark: &Mark<E, J>)
        requires { mark.now.0 ≡ self.now.0 }
        ensures { IsPrefix mark.now.1 self.now.1 }
    {
        let mut both = self.seen.again();
        both.learn(&mark.seen);
    }
}
