//! What becomes of a batch that is decided: it is held, and the sequencer of its group is told.
ghost use Rattle.std.specs.Prelude.{◌≡◌, ◌<◌, ◌==◌, true, if◌then◌else◌, OnOk, IsOkUnless};
ghost use Rattle.calvin_order.specs.Keeping.{can_decide};
ghost use Rattle.calvin_order.specs.Merging.{with_batch};
ghost use Rattle.calvin_order.specs.Sequencing.{decide};

use calvin_order::{Merge, Sequencer};
use calvin_types::{Batch, Fault, Slot};

/// Makes room, so that `keep`, made next for this slot, needs no memory. Refused with `OutOfMemory` where a growth was
/// refused.
pub fn make_room<Args: Copy>(
    merge: &mut Merge<Args>,
    sequencer: &mut Sequencer<Args>,
    own: u8,
    slot: Slot,
) -> Result<(), Fault>
    ensures room { OnOk result (0 < merge.new.room) }
    ensures told { OnOk result (slot.group ≡ own → can_decide sequencer.new slot.epoch ≡ true) }
    ensures merge { merge.new ≡ record merge.old { room = merge.new.room } }
    ensures sequencing { sequencer.new.sequencing ≡ sequencer.old.sequencing }
    ensures delay { sequencer.new.delay ≡ sequencer.old.delay }
    ensures only { IsOkUnless result Fault.OutOfMemory }
{
    merge.reserve_hold()?;
    if slot.group == own {
        sequencer.reserve_decided(slot.epoch)?;
    }
    Ok(())
}

/// Holds the batch of a slot, and tells the sequencer where the group is its own. There is room.
pub fn keep<Args: Copy>(
    merge: &mut Merge<Args>,
    sequencer: &mut Sequencer<Args>,
    own: u8,
    slot: Slot,
    batch: Batch<Args>,
)
    requires room { 0 < merge.old.room }
    requires told { slot.group ≡ own → can_decide sequencer.old slot.epoch ≡ true }
    ensures held { merge.new ≡ with_batch slot batch merge.old }
    ensures sequencing { sequencer.new.sequencing ≡ (if slot.group == own then decide slot.epoch batch sequencer.old.sequencing else sequencer.old.sequencing) }
    ensures delay { sequencer.new.delay ≡ sequencer.old.delay }
{
    if slot.group == own {
        let _told = sequencer.decided(slot.epoch, &batch);
    }
    let _held = merge.hold(slot, batch);
}
