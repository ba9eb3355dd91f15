//! Receipts: what they state is of the book that the cluster leaves, whatever happens meanwhile.
ghost use Rattle.std.specs.Prelude.{◌≡◌, None};
ghost use Rattle.calvin_cluster_desk.specs.Receipts.{told_epoch};

use calvin_app::App;
use calvin_book::{Answered, Submission};
use calvin_chronicle::{Mark, Naming};
use calvin_world::Event;
use std::marker::{Brand, Model};

/// Which history a book is written into, and what its store was opened with. Each call of a program picks them for a proof; at
/// run time nothing of it is there.
pub trait Founding: Naming {
    ghost use Rattle.calvin_order.specs.Configs.{Config};

    ghost config: { Config };
}

impl Founding for Brand {
    ghost use Rattle.std.specs.Prelude.{None};
    ghost use Rattle.calvin_order.specs.Configs.{store_config};

    ghost config = { store_config 0 0 0 None };
}

/// A receipt of a submission: it was made, at a node whose next epoch was above the one that its caller had been told of.
#[derive(Drop)]
pub struct Ticket<A: App, J: Founding> {
    pub(crate) submission: Submission<A::Args>,
    pub(crate) mark: Mark<Event<A::Args>, J>,
}

impl<A: App, J: Founding> Model for Ticket<A, J> {
    ghost use Rattle.calvin_book.specs.declared.receipt.Submission.{Submission};
    ghost use Rattle.calvin_book.specs.Receipts.{IsSubmitted};

    ghost Value = { Submission A.Args };

    ghost view = { λ t. t.submission };

    ghost invariant = { λ t. IsSubmitted A.meaning (record { config = J.config; events = t.mark }) t.submission };
}

impl<A: App, J: Founding> Ticket<A, J> {
    /// The submission: the number of its event, its node and request, and the epoch that its caller had been told of.
    pub fn submission(&self) -> &Submission<A::Args>
        ensures { result.now ≡ self.now }
    {
        &self.submission
    }
}

/// A receipt of an answer: the submission was made, and the first reply to it after that is this one.
#[derive(Drop)]
pub struct Report<A: App, J: Founding> {
    pub(crate) answered: Answered<A::Args, A::Reply>,
    /// What had happened when the request was submitted,
    pub(crate) asked: Mark<Event<A::Args>, J>,
    /// and when it was found answered.
    pub(crate) mark: Mark<Event<A::Args>, J>,
}

impl<A: App, J: Founding> Model for Report<A, J> {
    ghost use Rattle.calvin_book.specs.declared.receipt.Answered.{Answered};
    ghost use Rattle.calvin_book.specs.Receipts.{IsSubmitted};
    ghost use Rattle.calvin_cluster_desk.specs.Receipts.{IsReplied};

    ghost Value = { Answered A.Args A.Reply };

    ghost view = { λ r. r.answered };

    ghost invariant = { λ r. IsSubmitted A.meaning (record { config = J.config; events = r.asked }) r.answered.submission
        × IsReplied A.meaning (record { config = J.config; events = r.mark }) r.answered };
}

/// What a caller was told: nothing yet, or what an answer tells, that it and all up to an epoch happened. A caller hands it in with
/// its next request, which is then run after that epoch.
#[derive(Drop)]
pub struct Told<A: App, J: Founding> {
    pub report: Option<Report<A, J>>,
}

impl<A: App, J: Founding> Told<A, J> {
    /// Nothing yet.
    pub fn new() -> Told<A, J>
        ensures { result.report ≡ None }
    {
        Told { report: None }
    }

    /// The epoch that the caller was told of, if any.
    pub fn epoch(&self) -> Option<u64>
        ensures { result ≡ told_epoch self.now.report }
    {
        match &self.report {
            Some(report) => Some(report.answered.told),
            None => None,
        }
    }
}
