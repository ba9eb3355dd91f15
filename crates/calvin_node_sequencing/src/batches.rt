//! The batches that a layer holds, tells, and asks for.
ghost use Rattle.std.specs.Prelude.{◌≡◌, ◌&&◌, [], nat_lt, true};
ghost use Rattle.std.specs.Option.{option_copied};
ghost use Rattle.std.specs.FinMap as map;
ghost use Rattle.calvin_node_acts.specs.Acting as acting;
ghost use Rattle.calvin_node_acts.specs.Handling as handling;
ghost use Rattle.calvin_node_acts.specs.Layers.{LayerDid, IsOf};

use crate::layer::SequencingLayer;
use calvin_app::App;
use calvin_node_acts::{keep, make_room};
use calvin_node_packets::{Address, Content, Outbox, Packet};
use calvin_types::{Batch, Fault, NodeId, Slot};

impl<A: App> SequencingLayer<A> {
    /// The batch that is held for a slot.
    pub fn held(&self, slot: Slot) -> Option<&Batch<A::Args>>
        ensures { option_copied result ≡ map.get self.now.held slot }
    {
        self.merge.held(slot)
    }

    /// The batch of a slot is decided: it is held (Thomson et al. 2012, section 3.1). Refused with `Known` where one is, else
    /// with `OutOfMemory` where a growth was refused or the batch can have no more owners.
    pub fn on_decided(&mut self, slot: Slot, batch: &Batch<A::Args>) -> Result<(), Fault>
        ensures did { LayerDid {Row = A.Row} {Reply = A.Reply} true result (λ n. handling.on_decided slot batch.now n.state (map.get n.state.held slot)) self.old self.new [] [] }
        ensures of { IsOf self.old self.new }
    {
        if self.merge.held(slot).is_some() {
            return Err(Fault::Known);
        }
        let batch = batch.copy()?;
        let own = self.id.partition;
        make_room(&mut self.merge, &mut self.sequencer, own, slot)?;
        keep(&mut self.merge, &mut self.sequencer, own, slot, batch);
        Ok(())
    }

    /// The batch of a slot is told to a node that asks for it. Refused with `NoBatch` where none is held, else with
    /// `OutOfMemory` where a growth was refused or the batch can have no more owners.
    pub fn on_ask_batch(
        &self,
        from: NodeId,
        slot: Slot,
        outbox: &mut Outbox<A>,
    ) -> Result<(), Fault>
        ensures did { LayerDid true result (λ n. handling.on_ask_batch from slot n.state (map.get n.state.held slot)) self.now self.now outbox.old.packets outbox.new.packets }
    {
        let Some(batch) = self.merge.held(slot) else {
            return Err(Fault::NoBatch);
        };
        let batch = batch.copy()?;
        outbox.push(Packet {
            from: self.id,
            to: Address::AtNode(from),
            content: Content::Decided(slot, batch),
        })
    }

    /// Whether there is such a node, and such a slot.
    fn is_there(&self, of: NodeId, slot: Slot) -> bool
        ensures { result ≡ (nat_lt of.replica self.now.config.replicas && nat_lt of.partition self.now.config.partitions && nat_lt slot.group self.now.config.partitions) }
    {
        of.replica < self.config.replicas
            && of.partition < self.config.partitions
            && slot.group < self.config.partitions
    }

    /// Asks a node for the batch of a slot. Refused with `NoNode` where there is no such node or group, with `Known` where the
    /// batch is held, else with `OutOfMemory` where a growth was refused.
    pub fn ask_batch(&self, slot: Slot, of: NodeId, outbox: &mut Outbox<A>) -> Result<(), Fault>
        ensures did { LayerDid true result (λ n. acting.ask_batch n.config slot of n.state) self.now self.now outbox.old.packets outbox.new.packets }
    {
        if !self.is_there(of, slot) {
            return Err(Fault::NoNode);
        }
        if self.merge.held(slot).is_some() {
            return Err(Fault::Known);
        }
        outbox.push(Packet {
            from: self.id,
            to: Address::AtNode(of),
            content: Content::AskBatch(slot),
        })
    }
}
