//! Histories before anything is written, and the pens that weren't taken yet.
ghost use Rattle.std.specs.Prelude.{◌≡◌, ◌<◌, ◌+◌, []};

use crate::law::{Entry, Law, Naming, Row};
use crate::pen::Pen;
use logbook::{Seen, Start, Word};
use std::marker::{Model, PhantomData};

/// Histories of nodes, in which nothing was written. To a contract it is which histories they are, and their number.
#[derive(Drop)]
pub struct Opened<E> {
    nodes: usize,
    seen: Seen<Entry<E>, u64, Law>,
    rights: logbook::Pens,
}

impl<E> Model for Opened<E> {
    ghost use Rattle.std.specs.Prelude.{ℕ, ◌≡◌, ◌∷◌, []};
    ghost use Rattle.std.specs.Coded.{coded×, coded_ℕ};
    ghost use Rattle.logbook.specs.Pages.{Book, book_coded};
    ghost use Rattle.calvin_chronicles.specs.declared.law.Entry.TheVariants.{Nodes};

    ghost Value = { Book × ℕ };

    ghost coded = { coded× book_coded coded_ℕ };

    ghost view = { λ o. (o.seen.book, o.nodes) };

    ghost invariant = { λ o. (o.seen.log ≡ Nodes o.nodes ∷ []) × (o.rights.book ≡ o.seen.book) × (o.rights.next ≡ 0) × (o.rights.left ≡ o.nodes) };
}

impl<E> Opened<E> {
    /// New histories of so many nodes, which are numbered from 0 on. No clause says which histories they are, as they are others at
    /// each call: a caller takes that from what is returned.
    pub fn new(nodes: usize) -> Opened<E>
        ensures { result.1 ≡ nodes }
    {
        let (seen, rights) = Seen::<Entry<E>, u64, Law>::open_row::<(), Row>(
            &(),
            Start::alone(),
            nodes,
        );
        Opened {
            nodes,
            seen,
            rights,
        }
    }

    /// The pens that write them, one for each node. None of them was taken yet.
    pub fn named<J: Naming>(self) -> Pens<E, J>
        requires { (self.0 ≡ J.book) × (self.1 ≡ J.nodes) }
        ensures { result ≡ 0 }
    {
        let Opened {
            nodes: _,
            seen,
            rights,
        } = self;
        Pens {
            next: 0,
            seen,
            rights,
            of: PhantomData,
        }
    }
}

/// The pens that weren't taken yet. They are taken in the order of their nodes. To a contract it is the node of the next one, so
/// how many were taken.
#[derive(Drop)]
pub struct Pens<E, J: Naming> {
    next: u64,
    seen: Seen<Entry<E>, u64, Law>,
    rights: logbook::Pens,
    of: PhantomData<J>,
}

impl<E, J: Naming> Model for Pens<E, J> {
    ghost use Rattle.std.specs.Prelude.{ℕ, ◌≡◌, ◌<◌, ◌+◌, ◌^◌, ◌∷◌, []};
    ghost use Rattle.calvin_chronicles.specs.declared.law.Entry.TheVariants.{Nodes};

    ghost Value = { ℕ };

    ghost view = { λ p. p.next };

    ghost invariant = { λ p. (p.seen.log ≡ Nodes J.nodes ∷ []) × (p.seen.book ≡ J.book) × (p.rights.book ≡ J.book) × (p.rights.next ≡ p.next)
        × (p.rights.next + p.rights.left ≡ J.nodes) × (J.nodes < 2 ^ 64) };
}

impl<E, J: Naming> Pens<E, J> {
    /// The pen of the next node. There is one for each node: `left` says that it wasn't taken yet.
    pub fn take(&mut self) -> Pen<E, J>
        requires left { self.old < J.nodes }
        ensures pen { result ≡ (self.old, []) }
        ensures next { self.new ≡ self.old + 1 }
    {
        let mut right = self.rights.take();
        let node = self.next;
        self.next = node + 1;
        Pen {
            head: Word::tracked(0, &mut right),
            node,
            count: 0,
            seen: self.seen.again(),
            of: PhantomData,
        }
    }
}
