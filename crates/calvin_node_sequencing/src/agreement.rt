//! What a layer does that its group may agree on its batches.
ghost use Rattle.std.specs.Prelude.{true};
ghost use Rattle.calvin_node_acts.specs.Acting as acting;
ghost use Rattle.calvin_node_acts.specs.Layers.{LayerDid, IsOf};

use crate::layer::SequencingLayer;
use calvin_app::App;
use calvin_node_packets::Outbox;
use calvin_types::{Fault, Slot};

impl<A: App> SequencingLayer<A> {
    /// Begins a new ballot for the batch that the sequencer closed for an epoch ("Paxos Made Simple", section 2.2, phase 1a).
    /// Refused with `RoundsSpent` where there is no greater round, with `NotClosed` where no batch was closed for the epoch
    /// since the last restart, with `Decided` where the slot's batch is held, else with `OutOfMemory` where a growth was
    /// refused or the batch can have no more owners.
    pub fn propose(&mut self, epoch: u64, outbox: &mut Outbox<A>) -> Result<(), Fault>
        ensures did { LayerDid true result (λ n. acting.propose n.config epoch n.state) self.old self.new outbox.old.packets outbox.new.packets }
        ensures of { IsOf self.old self.new }
    {
        let slot = Slot {
            epoch,
            group: self.id.partition,
        };
        self.member.prepare_to_all(slot)?;
        let Some(batch) = self.sequencer.closed(epoch) else {
            return Err(Fault::NotClosed);
        };
        if self.merge.held(slot).is_some() {
            return Err(Fault::Decided);
        }
        let _none = outbox.post_ballot(&mut self.member, &self.config, self.id, slot, batch)?;
        Ok(())
    }
}
