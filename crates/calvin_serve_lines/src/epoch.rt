//! From a line of a journal to an epoch.
ghost use Rattle.std.specs.Prelude.{◌≡◌, map};
ghost use Rattle.calvin_types.specs.Limits.{IsInRange};
ghost use Rattle.serde_json.specs.View.{view};
ghost use Rattle.calvin_script.specs.Gives.{Gives};
ghost use Rattle.calvin_script.specs.Reading.{Reads};
ghost use Rattle.calvin_script.specs.Scripts.{listed, all_listed};
ghost use Rattle.calvin_serve_lines.specs.Epochs.{fitting, epoch_of, epoch_in};

use calvin_script::{Document, Epoch, GroupBatch, Kept, Operation, Script, list_of};
use calvin_types::Fault;
use serde_json::Value;
use std::alloc::Global;

/// The epoch of these batches, where each group is one of the partitions and none is listed twice, as in a script.
fn fitting<Op: Operation>(
    alloc: Global,
    partitions: u8,
    batches: Vec<GroupBatch<Kept<Op>>>,
) -> Result<Epoch<Kept<Op>>, Fault>
    requires in_range { IsInRange partitions 1 }
    ensures { Gives all_listed result (fitting partitions (map listed batches.items)) }
{
    let mut epochs = Vec::with_capacity(alloc, 1)?;
    epochs.push(Epoch { batches })?;
    let mut script = Script::new(partitions, None, epochs).ok_or(Fault::BadScript)?;
    script.epochs.pop().ok_or(Fault::BadScript)
}

/// The epoch that a piece of JSON lists.
fn epoch_of<Op: Operation>(
    alloc: Global,
    partitions: u8,
    value: Value,
) -> Result<Epoch<Kept<Op>>, Fault>
    requires in_range { IsInRange partitions 1 }
    ensures { Gives all_listed result (epoch_of Op.grammar partitions (view value)) }
{
    let batches = list_of(alloc, value)?;
    fitting(alloc, partitions, batches)
}

/// The epoch that a line of a journal lists, as a script lists one: `[{"group":G,"txns":[TXN, ..]}, ..]`.
///
/// Refused with `BadJson` where the line is no JSON; with `BadScript` where it has another form, a batch has more than 256 requests
/// or one that no sequencer takes, or a group is no partition or listed twice; and with `OutOfMemory`.
#[tactic(auto, unfolding(crate::specs::Epochs::epoch_in))]
pub fn read_epoch<Op: Operation>(
    alloc: Global,
    partitions: u8,
    line: &[u8],
) -> Result<Epoch<Kept<Op>>, Fault>
    requires in_range { IsInRange partitions 1 }
    ensures { Reads all_listed result (epoch_in Op.grammar partitions line.now) }
{
    let value = Document::read(alloc, line)?.into_value();
    epoch_of(alloc, partitions, value)
}
