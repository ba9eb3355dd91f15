//! A ballot under way at its proposer.
ghost use Rattle.std.specs.Prelude.{◌≡◌, ◌<◌, ◌++◌, ◌∷◌, [], length, IfOk, IsOkUnless};
ghost use Rattle.calvin_synod.specs.Roles as roles;

use crate::highest::higher;
use crate::vote::Vote;
use calvin_types::{Ballot, Fault};
use std::alloc::Global;
use std::marker::Model;

/// A promise that came: whose it is, and the vote that it reports.
#[derive(Drop)]
pub struct Report<B> {
    pub from: u8,
    pub vote: Option<Vote<B>>,
}

/// Reports, in the order in which they came. Room for four is there from the first on: a majority of seven.
#[derive(Drop)]
pub struct Reports<B> {
    items: Vec<Report<B>>,
}

impl<B> Model for Reports<B> {
    ghost use Rattle.std.specs.Prelude.{List, ◌≤◌, vec_capacity};
    ghost use Rattle.calvin_synod.specs.declared.attempt.Report.{Report};

    ghost Value = { List (Report B) };

    ghost view = { λ r. r.items.items };

    ghost invariant = { λ r. 4 ≤ vec_capacity r.items };
}

impl<B: Drop> Reports<B> {
    pub fn new(alloc: Global) -> Result<Reports<B>, Fault>
        ensures none { IfOk result (λ r. r ≡ []) }
        ensures only { IsOkUnless result Fault.OutOfMemory }
    {
        let items = Vec::with_capacity(alloc, 4)?;
        Ok(Reports { items })
    }

    /// The reports, in the order in which they came.
    pub fn as_slice(&self) -> &[Report<B>]
        ensures { result.now ≡ self.now }
    {
        self.items.as_slice()
    }

    /// One report more.
    pub fn push(&mut self, report: Report<B>)
        requires { length self.old < 4 }
        ensures { self.new ≡ self.old ++ report ∷ [] }
    {
        self.items.push(report).unwrap();
    }

    /// The vote of the greatest ballot that is reported.
    fn into_highest(self) -> Option<Vote<B>>
        ensures { result ≡ roles.highest self }
    {
        let mut items = self.items;
        let mut best = None;
        while let Some(report) = items.pop() {
            best = higher(report.vote, best);
        }
        best
    }
}

/// A ballot under way: its number, the batch to propose where no vote is reported, and the reports that are counted.
#[derive(Drop)]
pub struct Attempt<B> {
    pub ballot: Ballot,
    pub own: B,
    pub counted: Reports<B>,
}

impl<B: Drop> Attempt<B> {
    /// What is to be accepted: the batch of the highest vote reported, else the own one.
    pub fn into_batch(self) -> B
        ensures { result ≡ roles.batch_of self.own self.counted }
    {
        let Attempt { own, counted, .. } = self;
        match counted.into_highest() {
            Some(vote) => vote.batch,
            None => own,
        }
    }
}
