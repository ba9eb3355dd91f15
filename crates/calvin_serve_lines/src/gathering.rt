//! The requests of the epoch to come.
ghost use Rattle.std.specs.Prelude.{◌≡◌, ◌++◌, ◌∷◌, [], ℕ, List, Ok, true, false, length, IfOk, OnOk, OnErr, IsOkUnless};
ghost use Rattle.calvin_journal.specs.Lines.{has_break};
ghost use Rattle.calvin_script.specs.Scripts.{all_listed};
ghost use Rattle.calvin_serve_lines.specs.Asking.{Asked};
ghost use Rattle.calvin_serve_lines.specs.Epochs.{epoch_in};
ghost use Rattle.calvin_serve_lines.specs.Gathered.{gathered, has_room, is_empty, batches_of};

use crate::asked::Asked;
use crate::group::Group;
use crate::written::Written;
use calvin_script::{Epoch, Kept, Operation};
use calvin_types::{Fault, MOST_REQUESTS};
use std::alloc::Global;
use std::marker::Model;

/// The requests that wait for the epoch to come, at most 256 a group. To contracts it is the requests of each group from 0 on, in
/// the order in which they came.
#[derive(Drop)]
pub struct Gathering<Op: Operation> {
    groups: Vec<Group<Op>>,
}

impl<Op: Operation> Model for Gathering<Op> {
    ghost use Rattle.std.specs.Prelude.{◌<◌, ◌^◌, List, length};
    ghost use Rattle.calvin_script.specs.declared.contents.Request.{Request};

    ghost Value = { List (List (Request Op)) };

    ghost view = { λ g. g.groups.items };

    ghost invariant = { λ g. length g.groups.items < 2 ^ 8 };
}

impl<Op: Operation> Gathering<Op> {
    /// None waits yet for a group of these partitions. Refused only for want of memory.
    #[tactic(auto, using(crate::proofs::Lists::once_more))]
    pub fn new(alloc: Global, partitions: u8) -> Result<Gathering<Op>, Fault>
        ensures ok { IfOk result (λ g. g ≡ gathered partitions []) }
        ensures size { IfOk result (λ g. length g ≡ partitions) }
        ensures only { IsOkUnless result Fault.OutOfMemory }
    {
        let mut groups = Vec::with_capacity(alloc, partitions as usize)?;
        for _group in 0..partitions {
            groups.push(Group::new(alloc))?;
        }
        Ok(Gathering { groups })
    }

    /// Whether a request can be added for the group: it is one of the partitions, and fewer than 256 wait for it.
    pub fn has_room(&self, group: u8) -> bool
        ensures { result ≡ has_room self.now group }
    {
        match self.groups.get(group as usize) {
            Some(group) => group.len() < MOST_REQUESTS,
            None => false,
        }
    }

    /// Whether no request waits.
    pub fn is_empty(&self) -> bool
        ensures { result ≡ is_empty self.now }
    {
        for group in &self.groups {
            if !group.is_empty() {
                return false;
            }
        }
        true
    }

    /// Adds a request behind those that wait for its group. Refused only for want of memory; then nothing changed.
    #[tactic(auto, using(crate::proofs::Gathers::gathers))]
    pub fn add(&mut self, asked: Asked<Op>) -> Result<(), Fault>
        requires room { has_room self.old asked.group ≡ true }
        ensures ok { OnOk result ((partitions : ℕ) → (before : List (Asked Op)) → self.old ≡ gathered partitions before
            → self.new ≡ gathered partitions (before ++ asked ∷ [])) }
        ensures size { length self.new ≡ length self.old }
        ensures err { OnErr result (self.new ≡ self.old) }
        ensures only { IsOkUnless result Fault.OutOfMemory }
    {
        let group = asked.group() as usize;
        self.groups[group].add(asked)
    }

    /// The line of the epoch for a journal, without a line feed, and the epoch itself: the batches of the groups that have
    /// requests, in ascending order. Refused only for want of memory.
    #[tactic(auto, using(crate::proofs::Batches::batches_fit))]
    pub fn into_epoch(self, alloc: Global) -> Result<(Vec<u8>, Epoch<Kept<Op>>), Fault>
        ensures reads { IfOk result (λ p. epoch_in Op.grammar (length self) p.0.items ≡ Ok (batches_of self)) }
        ensures epoch { IfOk result (λ p. all_listed p.1 ≡ batches_of self) }
        ensures one_line { IfOk result (λ p. has_break p.0.items ≡ false) }
        ensures only { IsOkUnless result Fault.OutOfMemory }
    {
        let mut written = Written::new(alloc, self.groups.len())?;
        let mut number = 0;
        for group in self.groups {
            written = written.with_group(alloc, number, group)?;
            number += 1;
        }
        written.into_line(alloc)
    }
}
