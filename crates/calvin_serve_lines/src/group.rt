//! The requests that wait for a group.
ghost use Rattle.std.specs.Prelude.{◌≡◌, ◌<◌, ◌≤◌, ◌==◌, ◌++◌, ◌∷◌, [], Some, true, length, IfOk, OnOk, OnErr, IsOkUnless};
ghost use Rattle.serde_json.specs.Data.{items_depth};
ghost use Rattle.serde_json.specs.View.{items_view};
ghost use Rattle.calvin_types.specs.declared.limits.TheConstants.{MOST_REQUESTS};
ghost use Rattle.calvin_script.specs.Requests.{request};
ghost use Rattle.calvin_script.specs.Scripts.{are_taken};
ghost use Rattle.calvin_script.specs.Spelling.{each};
ghost use Rattle.calvin_serve_lines.specs.declared.limits.TheConstants.{MOST_LEVELS};

use crate::asked::Asked;
use calvin_script::{Kept, Operation};
use calvin_types::{Fault, MOST_REQUESTS};
use serde_json::Value;
use std::alloc::Global;
use std::marker::Model;

/// The requests that wait for a group, at most 256, in the order in which they came.
#[derive(Drop)]
pub(crate) struct Group<Op: Operation> {
    waiting: Vec<Asked<Op>>,
}

impl<Op: Operation> Model for Group<Op> {
    ghost use Rattle.std.specs.Prelude.{◌≤◌, List, length, map};
    ghost use Rattle.calvin_types.specs.declared.limits.TheConstants.{MOST_REQUESTS};
    ghost use Rattle.calvin_script.specs.declared.contents.Request.{Request};

    ghost Value = { List (Request Op) };

    ghost view = { λ g. map (λ a. a.request) g.waiting.items };

    ghost invariant = { λ g. length g.waiting.items ≤ MOST_REQUESTS };
}

impl<Op: Operation> Group<Op> {
    /// None waits yet.
    pub(crate) fn new(alloc: Global) -> Group<Op>
        ensures { result ≡ [] }
    {
        Group {
            waiting: Vec::new(alloc),
        }
    }

    pub(crate) fn is_empty(&self) -> bool
        ensures { result ≡ (length self.now == 0) }
    {
        self.waiting.is_empty()
    }

    /// How many wait.
    pub(crate) fn len(&self) -> usize
        ensures len { result ≡ length self.now }
        ensures few { length self.now ≤ MOST_REQUESTS }
    {
        self.waiting.len()
    }

    /// Adds a request behind those that wait.
    pub(crate) fn add(&mut self, asked: Asked<Op>) -> Result<(), Fault>
        requires room { length self.old < MOST_REQUESTS }
        ensures ok { OnOk result (self.new ≡ self.old ++ asked.request ∷ []) }
        ensures err { OnErr result (self.new ≡ self.old) }
        ensures only { IsOkUnless result Fault.OutOfMemory }
    {
        self.waiting.push(asked)?;
        Ok(())
    }

    /// The JSON of each request, and the requests.
    #[tactic(auto, using(crate::proofs::Spells::each_with, crate::proofs::Spells::depth_with, crate::proofs::Spells::taken_with))]
    pub(crate) fn into_parts(self, alloc: Global) -> Result<(Vec<Value>, Vec<Kept<Op>>), Fault>
        ensures requests { IfOk result (λ p. p.1.items ≡ self) }
        ensures spelled { IfOk result (λ p. each (request Op.grammar) (items_view p.0.items) ≡ Some self) }
        ensures shallow { IfOk result (λ p. items_depth (items_view p.0.items) ≤ MOST_LEVELS) }
        ensures taken { IfOk result (λ _. are_taken self ≡ true) }
        ensures few { length self ≤ MOST_REQUESTS }
        ensures only { IsOkUnless result Fault.OutOfMemory }
    {
        let mut json = Vec::with_capacity(alloc, self.waiting.len())?;
        let mut requests = Vec::with_capacity(alloc, self.waiting.len())?;
        for asked in self.waiting {
            let (request, spelled) = asked.into_parts();
            json.push(spelled)?;
            requests.push(request)?;
        }
        Ok((json, requests))
    }
}
