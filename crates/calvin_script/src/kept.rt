//! Requests as a script keeps them.
ghost use Rattle.std.specs.Prelude.{◌≡◌, false, option_map};
ghost use Rattle.calvin_types.specs.Submitting.{has_key, is_taken};
ghost use Rattle.calvin_script.specs.Keeping.{request_kept};

use crate::operation::Operation;
use calvin_types::{KeySet, MOST_ATTEMPTS, RequestId, Sets, Txn};
use std::marker::Model;

/// A request of a script, which contracts see with its sets. Where none were declared they follow from its operation and
/// take no room here.
#[derive(Drop)]
pub struct Kept<Op: Operation> {
    id: RequestId,
    attempt: u8,
    args: Op,
    declared: Option<Box<Sets>>,
}

impl<Op: Operation> Model for Kept<Op> {
    ghost use Rattle.std.specs.Prelude.{option_map};
    ghost use Rattle.calvin_script.specs.declared.contents.Request.{Request};
    ghost use Rattle.calvin_script.specs.Keeping.{request_kept};

    ghost Value = { Request Op };

    ghost view = { λ k. request_kept Op.grammar k.id k.attempt k.args (option_map (λ b. b.value) k.declared) };
}

impl<Op: Operation> Kept<Op> {
    /// The request of this name. Where no sets are declared it has those that its operation needs where no row is known.
    pub fn new(id: RequestId, attempt: u8, args: Op, declared: Option<Box<Sets>>) -> Kept<Op>
        ensures { result ≡ request_kept Op.grammar id attempt args (option_map (λ b. b.value) declared) }
    {
        Kept {
            id,
            attempt,
            args,
            declared,
        }
    }

    /// Its name.
    pub fn id(&self) -> RequestId
        ensures { result ≡ self.now.txn.id }
    {
        self.id
    }

    /// Whether its sets were declared. If not they are those that its operation needs where no row is known.
    pub fn is_declared(&self) -> bool
        ensures declared { result ≡ self.now.is_declared }
        ensures first { result ≡ false → self.now.txn.sets ≡ Op.grammar.first_needs self.now.txn.args }
    {
        self.declared.is_some()
    }

    /// Whether it has a key.
    fn has_key(&self) -> bool
        ensures { result ≡ has_key self.now.txn.sets }
    {
        match &self.declared {
            Some(sets) => !(sets.reads.is_empty() && sets.writes.is_empty()),
            None => self.args.has_first_key(),
        }
    }

    /// Whether a sequencer takes it.
    pub fn is_taken(&self) -> bool
        ensures { result ≡ is_taken self.now.txn }
    {
        self.has_key() && 1 <= self.attempt && self.attempt <= MOST_ATTEMPTS
    }

    /// Its operation.
    pub fn args(&self) -> &Op
        ensures { result.now ≡ self.now.txn.args }
    {
        &self.args
    }

    /// Puts its sets in place of those that are there.
    pub fn put_sets(&self, sets: &mut Sets)
        ensures { sets.new ≡ self.now.txn.sets }
    {
        match &self.declared {
            Some(declared) => *sets = **declared,
            None => {
                *sets = Sets {
                    reads: KeySet::new(),
                    writes: KeySet::new(),
                };
                self.args.add_first_sets(sets);
            }
        }
    }

    /// Puts the keys that it reads in place of those that are there.
    pub fn put_reads(&self, reads: &mut KeySet)
        ensures { reads.new ≡ self.now.txn.sets.reads }
    {
        match &self.declared {
            Some(declared) => *reads = declared.reads,
            None => {
                *reads = KeySet::new();
                self.args.add_first_reads(reads);
            }
        }
    }

    /// The request with its sets.
    pub fn txn(&self) -> Txn<Op>
        ensures { result ≡ self.now.txn }
    {
        let mut sets = Sets {
            reads: KeySet::new(),
            writes: KeySet::new(),
        };
        self.put_sets(&mut sets);
        Txn {
            id: self.id,
            attempt: self.attempt,
            args: self.args,
            sets,
        }
    }
}
