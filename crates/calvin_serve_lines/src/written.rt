//! An epoch beside the JSON that lists it.
ghost use Rattle.std.specs.Prelude.{◌≡◌, ◌++◌, [], true, false, ℕ, Ok, IfOk, IsOkUnless};
ghost use Rattle.serde_json.specs.View.{view, items_view};
ghost use Rattle.calvin_journal.specs.Lines.{has_break};
ghost use Rattle.calvin_script.specs.Scripts.{all_listed, groups_fit};
ghost use Rattle.calvin_serve_lines.specs.Epochs.{epoch_in};
ghost use Rattle.calvin_serve_lines.specs.Gathered.{batch_if};
ghost use Rattle.calvin_serve_lines.specs.BatchJson.{batch_data};

use crate::group::Group;
use calvin_script::{Epoch, GroupBatch, Kept, Operation};
use calvin_types::Fault;
use serde_json::{Map, Value, put};
use std::alloc::{AllocError, Global};
use std::marker::Model;

/// The batches of an epoch, and the JSON of each.
#[derive(Drop)]
pub(crate) struct Written<Op: Operation> {
    json: Vec<Value>,
    batches: Vec<GroupBatch<Kept<Op>>>,
}

impl<Op: Operation> Model for Written<Op> {
    ghost use Rattle.std.specs.Prelude.{List, map};
    ghost use Rattle.serde_json.specs.View.{items_view};
    ghost use Rattle.calvin_script.specs.Scripts.{Listed, listed};
    ghost use Rattle.calvin_serve_lines.specs.BatchJson.{IsSpelled};

    ghost Value = { List (Listed Op) };

    ghost view = { λ w. map listed w.batches.items };

    ghost invariant = { λ w. IsSpelled Op.grammar (items_view w.json.items) (map listed w.batches.items) };
}

/// The JSON of a batch: `{"group":G,"txns":[..]}`.
fn batch_json(alloc: Global, group: u8, requests: Vec<Value>) -> Result<Value, AllocError>
    ensures { IfOk result (λ v. view v ≡ batch_data group (items_view requests.items)) }
{
    let mut members = Map::new(alloc);
    put(&mut members, alloc, "group", Value::from(group))?;
    put(&mut members, alloc, "txns", Value::Array(requests))?;
    Ok(Value::Object(members))
}

impl<Op: Operation> Written<Op> {
    /// No batch, with room for so many.
    pub(crate) fn new(alloc: Global, most: usize) -> Result<Written<Op>, Fault>
        ensures ok { IfOk result (λ w. w ≡ []) }
        ensures only { IsOkUnless result Fault.OutOfMemory }
    {
        Ok(Written {
            json: Vec::with_capacity(alloc, most)?,
            batches: Vec::with_capacity(alloc, most)?,
        })
    }

    /// With the batch of a group behind, if a request waits for it.
    #[tactic(auto, using(crate::proofs::Spells::each_with, crate::proofs::Spells::depth_with, crate::proofs::Spells::batch_spelled, crate::proofs::Spells::batch_depth, crate::proofs::Batches::no_batch, crate::proofs::Batches::one_batch))]
    pub(crate) fn with_group(
        mut self,
        alloc: Global,
        number: u8,
        group: Group<Op>,
    ) -> Result<Written<Op>, Fault>
        ensures ok { IfOk result (λ w. w ≡ self ++ batch_if number group) }
        ensures only { IsOkUnless result Fault.OutOfMemory }
    {
        if group.is_empty() {
            return Ok(self);
        }
        let (json, requests) = group.into_parts(alloc)?;
        self.json.push(batch_json(alloc, number, json)?)?;
        self.batches.push(GroupBatch {
            group: number,
            requests,
        })?;
        Ok(self)
    }

    /// The line that lists the batches, and the epoch that they are.
    #[tactic(auto, using(crate::proofs::Spells::line_read, crate::proofs::Breaks::one_line))]
    pub(crate) fn into_line(self, alloc: Global) -> Result<(Vec<u8>, Epoch<Kept<Op>>), Fault>
        ensures reads { IfOk result (λ p. (partitions : ℕ) → groups_fit partitions self ≡ true
            → epoch_in Op.grammar partitions p.0.items ≡ Ok self) }
        ensures epoch { IfOk result (λ p. all_listed p.1 ≡ self) }
        ensures one_line { IfOk result (λ p. has_break p.0.items ≡ false) }
        ensures only { IsOkUnless result Fault.OutOfMemory }
    {
        let line = Value::Array(self.json).to_vec(alloc)?;
        let epoch = Epoch {
            batches: self.batches,
        };
        Ok((line, epoch))
    }
}
