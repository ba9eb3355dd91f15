//! What a cluster leaves.
ghost use Rattle.std.specs.Prelude.{◌≡◌, IfSome};
ghost use mathlib.Core.List.{IsPrefix};
ghost use Rattle.calvin_book.specs.Receipts.{IsSubmitted, IsAnswered};

use crate::receipt::{Founding, Ticket, Told};
use calvin_app::App;
use calvin_book::{Book, reply_stays, submission_stays};
use calvin_chronicle::{Mark, Whole};
use calvin_lock::Locks;
use calvin_store::Rows;
use calvin_world::Event;
use std::marker::Model;

/// The book that a cluster leaves, whose history has ended. To a contract it is the book.
#[derive(Drop)]
pub struct Stopped<A: App + Drop, L: Locks + Drop, S: Rows<A::Row> + Drop, J: Founding> {
    pub(crate) book: Book<A, L, S>,
    pub(crate) whole: Whole<Event<A::Args>, J>,
}

impl<A: App + Drop, L: Locks + Drop, S: Rows<A::Row> + Drop, J: Founding> Model
    for Stopped<A, L, S, J> {
    ghost use Rattle.std.specs.Prelude.{◌≡◌};
    ghost use Rattle.std.specs.Coded.{codes};
    ghost use Rattle.std.specs.FinMap.{code};
    ghost use Rattle.calvin_book.specs.Books.{Log};

    ghost Value = { Log A.Args };

    ghost coded = { Prim.hlevel (codes, code) };

    ghost view = { λ s. s.book };

    ghost invariant = { λ s. (s.whole ≡ s.book.events) × (s.book.config ≡ J.config) };
}

impl<A: App + Drop, L: Locks + Drop, S: Rows<A::Row> + Drop, J: Founding> Stopped<A, L, S, J> {
    /// The book.
    pub fn book(&self) -> &Book<A, L, S>
        ensures { result.now ≡ self.now }
    {
        &self.book
    }

    /// The book alone.
    pub fn into_book(self) -> Book<A, L, S>
        ensures { result ≡ self }
    {
        let Stopped { book, whole: _ } = self;
        book
    }

    /// What was marked is a beginning of the book.
    pub fn begins(&self, mark: &Mark<Event<A::Args>, J>)
        ensures { IsPrefix mark.now self.now.events }
    {
        self.whole.covers(mark);
    }

    /// What a ticket of this cluster states holds of the book.
    pub fn ticket(&self, ticket: &Ticket<A, J>)
        ensures { IsSubmitted A.meaning self.now ticket.now }
    {
        submission_stays::<A::Args, A::Row, A::Reply>();
        self.whole.covers(&ticket.mark);
    }

    /// What a caller was told by this cluster holds of the book.
    pub fn told(&self, told: &Told<A, J>)
        ensures { IfSome told.now.report (λ a. IsAnswered A.meaning self.now a) }
    {
        submission_stays::<A::Args, A::Row, A::Reply>();
        reply_stays::<A::Args, A::Row, A::Reply>();
        if let Some(report) = &told.report {
            self.whole.covers(&report.asked);
            self.whole.covers(&report.mark);
        }
    }
}
