//! The law of the log that has the histories, and which histories they are.
use logbook::{Gain, Opening, Plain, Play, Rule};
use std::marker::Brand;

/// An entry of the log: how many nodes there are, which the first entry says; an event that happened at a node; or the end of a
/// node's history.
pub(crate) enum Entry<E> {
    Nodes(u64),
    Did(u64, E),
    Ended(u64),
}

/// The log only grows, and nothing of a node stands after the end of that node's history.
pub(crate) struct Law;

impl<E> Rule<Entry<E>, u64> for Law {
    ghost use Rattle.std.specs.Prelude.{[], ◌∷◌};
    ghost use base.Fml.{ftrue};
    ghost use Rattle.calvin_chronicles.specs.declared.law.Entry.TheVariants.{Nodes};
    ghost use Rattle.calvin_chronicles.specs.Rules.{IsKept};

    ghost holds = { λ cells log. IsKept cells log };

    ghost first = { Nodes 0 ∷ [] };

    ghost hinted = { λ n log. Unit {0} };

    ghost shows = { λ log. [] };

    ghost keeps = { λ names log. ftrue };

    ghost moves = { λ ask before after answer. Unit {0} };
}

/// The log of so many nodes, before anything is written.
pub(crate) struct Row;

impl<E> Opening<(), Entry<E>> for Row {
    ghost use Rattle.std.specs.Prelude.{[], ◌∷◌};
    ghost use Rattle.calvin_chronicles.specs.declared.law.Entry.TheVariants.{Nodes};

    ghost log = { λ nodes unit. Nodes nodes ∷ [] };
}

/// Whoever writes gains nothing by it.
pub(crate) struct Nothing;

impl<E> Gain<Entry<E>, u64> for Nothing {
    ghost use base.Fml.{ftrue};

    ghost after = { λ names about answer. ftrue };
}

/// A step that adds an entry, and as an offer the one that adds an event.
pub(crate) struct Add;

impl<E> Play<Entry<E>, u64> for Add {
    ghost use Rattle.calvin_chronicles.specs.Rules.{Adds};

    ghost then = { Adds };
}

/// An event and the node at which it happened.
#[derive(Drop)]
pub(crate) struct NodeEvent<'a, E> {
    pub(crate) node: u64,
    pub(crate) event: &'a E,
}

impl<'a, E> Plain<NodeEvent<'a, E>, Entry<E>, u64> for Add {
    ghost use Rattle.std.specs.Prelude.{None};
    ghost use Rattle.calvin_chronicles.specs.declared.law.Entry.TheVariants.{Did};

    ghost ask = { λ it. Did it.node it.event.now };

    ghost state = { λ it. None };
}

/// The offer that adds the end of a node's history.
pub(crate) struct End;

impl<E> Plain<u64, Entry<E>, u64> for End {
    ghost use Rattle.std.specs.Prelude.{None};
    ghost use Rattle.calvin_chronicles.specs.declared.law.Entry.TheVariants.{Ended};

    ghost ask = { λ node. Ended node };

    ghost state = { λ node. None };
}

/// Which histories they are, and of how many nodes. Pens, their marks and their wholes have it in their type, so that a mark of
/// other histories never passes for one of these. Each call of a program picks it for a proof; at run time nothing of it is there.
pub trait Naming: Send + Sync {
    ghost use Rattle.std.specs.Prelude.{ℕ};
    ghost use Rattle.logbook.specs.Pages.{Book};

    ghost book: { Book };

    ghost nodes: { ℕ };
}

/// What a call passes that picks its histories.
impl Naming for Brand {
    ghost book = { record { number = 0; log_name = 0; cells_name = 0 } };

    ghost nodes = { 0 };
}
