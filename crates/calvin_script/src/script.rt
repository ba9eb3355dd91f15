//! Batches, epochs and the whole script.
ghost use Rattle.std.specs.Prelude.{◌≡◌, ◌<◌, map, nat_eq, option_map};
ghost use Rattle.std.specs.List.{list_all, list_any};
ghost use Rattle.std.specs.Option.{ForSome};
ghost use Rattle.serde_json.specs.View.{view};
ghost use Rattle.calvin_types.specs.Limits.{IsInRange};
ghost use Rattle.calvin_types.specs.declared.limits.TheConstants.{MOST_EPOCHS};
ghost use Rattle.calvin_script.specs.Scripts.{are_taken, listed, all_listed, batch_of, contents, groups_fit, script, script_of};
ghost use Rattle.calvin_script.specs.Gives.{Gives};

use crate::contents::{Epoch, GroupBatch, Script};
use crate::fields::{between, first_woven, has_only, u8_of};
use crate::kept::Kept;
use crate::list::{Spelled, list_of};
use crate::operation::Operation;
use calvin_types::{Config, Fault, MOST_PARTITIONS, MOST_REQUESTS};
use serde_json::Value;
use std::alloc::Global;

/// Whether a sequencer takes each of the requests.
fn are_taken<Op: Operation>(requests: &[Kept<Op>]) -> bool
    ensures { result ≡ are_taken requests.now }
{
    for request in requests {
        if !request.is_taken() {
            return false;
        }
    }
    true
}

impl<Op: Operation> GroupBatch<Kept<Op>> {
    /// The batch of these requests for a group: none of more than 256, nor with one that no sequencer takes.
    pub fn new(group: u8, requests: Vec<Kept<Op>>) -> Option<GroupBatch<Kept<Op>>>
        ensures { option_map listed result ≡ batch_of group requests.items }
    {
        if requests.len() > MOST_REQUESTS || !are_taken(&requests) {
            return None;
        }
        Some(GroupBatch { group, requests })
    }
}

impl<Op: Operation> Spelled for GroupBatch<Kept<Op>> {
    ghost use Rattle.calvin_script.specs.Scripts.{Listed, listed, batch};

    ghost Meaning = { Listed Op };

    ghost meaning = { listed };

    ghost spelled = { batch Op.grammar };

    #[tactic(auto, unfolding(crate::specs::Scripts::batch))]
    fn push_json(
        alloc: Global,
        mut value: Value,
        found: &mut Vec<GroupBatch<Kept<Op>>>,
    ) -> Result<(), Fault> {
        if !has_only(&value, &["group", "txns"]) {
            return Err(Fault::BadScript);
        }
        let group = value.get("group").ok_or(Fault::BadScript)?;
        let group = u8_of(group).ok_or(Fault::BadScript)?;
        let requests = value.get_mut("txns").ok_or(Fault::BadScript)?.take();
        let requests = list_of(alloc, requests)?;
        let batch = GroupBatch::new(group, requests).ok_or(Fault::BadScript)?;
        found.push(batch)?;
        Ok(())
    }
}

impl<Op: Operation> Spelled for Epoch<Kept<Op>> {
    ghost use Rattle.std.specs.Prelude.{List};
    ghost use Rattle.calvin_script.specs.Spelling.{list};
    ghost use Rattle.calvin_script.specs.Scripts.{Listed, all_listed, batch};

    ghost Meaning = { List (Listed Op) };

    ghost meaning = { all_listed };

    ghost spelled = { list (batch Op.grammar) };

    fn push_json(
        alloc: Global,
        value: Value,
        found: &mut Vec<Epoch<Kept<Op>>>,
    ) -> Result<(), Fault> {
        let batches = list_of(alloc, value)?;
        found.push(Epoch { batches })?;
        Ok(())
    }
}

fn lists<Op: Operation>(batches: &[GroupBatch<Kept<Op>>], group: u8) -> bool
    ensures { result ≡ list_any (λ c. nat_eq c.group group) (map listed batches.now) }
{
    for batch in batches {
        if batch.group == group {
            return true;
        }
    }
    false
}

/// Whether each group is one of the partitions, and none is listed twice.
fn groups_fit<Op: Operation>(partitions: u8, batches: &[GroupBatch<Kept<Op>>]) -> bool
    ensures { result ≡ groups_fit partitions (map listed batches.now) }
{
    for (i, batch) in batches.iter().enumerate() {
        if batch.group >= partitions || lists(&batches[i + 1..], batch.group) {
            return false;
        }
    }
    true
}

fn all_groups_fit<Op: Operation>(partitions: u8, epochs: &[Epoch<Kept<Op>>]) -> bool
    ensures { result ≡ list_all (groups_fit partitions) (map all_listed epochs.now) }
{
    for epoch in epochs {
        if !groups_fit(partitions, &epoch.batches) {
            return false;
        }
    }
    true
}

impl<Op: Operation> Script<Kept<Op>> {
    /// The script of these epochs, for so many partitions, 1 to 16, and with this first woven epoch, below 2^48: none that lists a
    /// batch for a group that is no partition, or two for one group in an epoch.
    pub fn new(
        partitions: u8,
        woven_from: Option<u64>,
        epochs: Vec<Epoch<Kept<Op>>>,
    ) -> Option<Script<Kept<Op>>>
        requires in_range { IsInRange partitions 1 }
        requires woven_in_range { ForSome woven_from (λ epoch. epoch < MOST_EPOCHS) }
        ensures { option_map contents result ≡ script_of partitions woven_from (map all_listed epochs.items) }
    {
        if !all_groups_fit(partitions, &epochs) {
            return None;
        }
        Some(Script {
            partitions,
            woven_from,
            epochs,
        })
    }

    /// What a store of so many replicas, 1 to 7, is opened with to run the script: without delay.
    #[inline(always)]
    pub fn config(&self, replicas: u8) -> Config
        requires { IsInRange self.now.partitions replicas }
        ensures partitions { result.partitions ≡ self.now.partitions }
        ensures replicas { result.replicas ≡ replicas }
        ensures delay { result.delay ≡ 0 }
        ensures woven_from { result.woven_from ≡ self.now.woven_from }
    {
        Config {
            partitions: self.partitions,
            replicas,
            delay: 0,
            woven_from: self.woven_from,
        }
    }
}

/// The script that a piece of JSON spells. Refused with `BadScript` where it spells none, and with `OutOfMemory`.
#[tactic(auto, unfolding(crate::specs::Scripts::script))]
pub(crate) fn script_of<Op: Operation>(
    alloc: Global,
    mut value: Value,
) -> Result<Script<Kept<Op>>, Fault>
    ensures { Gives contents result (script Op.grammar (view value)) }
{
    if !has_only(&value, &["partitions", "app", "woven_from", "epochs"]) {
        return Err(Fault::BadScript);
    }
    let partitions = value.get("partitions").ok_or(Fault::BadScript)?;
    let partitions = between(1, MOST_PARTITIONS, partitions).ok_or(Fault::BadScript)?;
    let app = value.get("app").ok_or(Fault::BadScript)?;
    let app = app.as_str().ok_or(Fault::BadScript)?;
    if app != Op::app_name() {
        return Err(Fault::BadScript);
    }
    let woven_from = first_woven(value.get("woven_from")).ok_or(Fault::BadScript)?;
    let epochs = value.get_mut("epochs").ok_or(Fault::BadScript)?.take();
    let epochs = list_of(alloc, epochs)?;
    Script::new(partitions, woven_from, epochs).ok_or(Fault::BadScript)
}
