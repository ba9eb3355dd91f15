//! What a layer makes of the messages of its group's synods.
ghost use Rattle.std.specs.Prelude.{◌≡◌, None, false, true};
ghost use Rattle.std.specs.FinMap as map;
ghost use Rattle.calvin_synod.specs.Cases as cases;
ghost use Rattle.calvin_synod.specs.Cases.{message_grows};
ghost use Rattle.calvin_synod.specs.Roles.{completes, knows};
ghost use Rattle.calvin_synod.specs.declared.message.Message.TheVariants.{Accepted};
ghost use Rattle.calvin_node_packets.specs.declared.packet.Content.TheVariants.{Synod};
ghost use Rattle.calvin_node_acts.specs.Handling as handling;
ghost use Rattle.calvin_node_packets.specs.Letters.{given_by};
ghost use Rattle.calvin_node_acts.specs.Layers.{LayerDid, IsOf};

use crate::layer::SequencingLayer;
use calvin_app::App;
use calvin_node_acts::{keep, make_room};
use calvin_node_packets::Outbox;
use calvin_synod::Message;
use calvin_types::{Ballot, Batch, Fault, NodeId, Slot};

impl<A: App> SequencingLayer<A> {
    /// A message of the synods. Refused with `NotMine` where its slot is of another group, with `NotCurrent` for a promise or a
    /// refusal of a ballot that is no news, with `Known` for a vote that is known or whose batch is held; else with
    /// `OutOfMemory` where a growth was refused or a batch can have no more owners, but for no news of a greater promise.
    pub fn on_synod(
        &mut self,
        from: NodeId,
        message: &Message<Batch<A::Args>>,
        outbox: &mut Outbox<A>,
    ) -> Result<(), Fault>
        ensures did { LayerDid (message_grows message.now) result (λ n. handling.handle_content n.config from (Synod message.now) n.state) self.old self.new outbox.old.packets outbox.new.packets }
        ensures of { IsOf self.old self.new }
    {
        if message.slot().group != self.id.partition {
            return Err(Fault::NotMine);
        }
        self.on_message(from.replica, message, outbox)
    }

    /// A message of the own group's synods.
    fn on_message(
        &mut self,
        from: u8,
        message: &Message<Batch<A::Args>>,
        outbox: &mut Outbox<A>,
    ) -> Result<(), Fault>
        ensures did { LayerDid (message_grows message.now) result (λ n. handling.on_synod n.config from message.now n.state) self.old self.new outbox.old.packets outbox.new.packets }
        ensures of { IsOf self.old self.new }
    {
        match message {
            Message::Accepted {
                slot,
                ballot,
                batch,
            } => self.on_vote(from, message, *slot, *ballot, batch, outbox),
            Message::Prepare { .. }
            | Message::Promise { .. }
            | Message::Accept { .. }
            | Message::Refused { .. } => self.on_letter(from, message, outbox),
        }
    }

    /// A message with which no batch is decided: the synod does what it says, and its answers are sent.
    fn on_letter(
        &mut self,
        from: u8,
        message: &Message<Batch<A::Args>>,
        outbox: &mut Outbox<A>,
    ) -> Result<(), Fault>
        requires { given_by (cases.handle self.old.config.replicas from message.now self.old.synod) ≡ None }
        ensures did { LayerDid (message_grows message.now) result (λ n. handling.by_synod n.config n.state
            (cases.handle n.config.replicas from message.now n.state.synod)) self.old self.new outbox.old.packets outbox.new.packets }
        ensures of { IsOf self.old self.new }
    {
        let _none = outbox.post_answer(&mut self.member, &self.config, self.id, from, message)?;
        Ok(())
    }

    /// A vote counts, unless a batch is held for its slot. Refused with `Known` where one is, or the vote is counted already.
    fn on_vote(
        &mut self,
        from: u8,
        vote: &Message<Batch<A::Args>>,
        slot: Slot,
        ballot: Ballot,
        batch: &Batch<A::Args>,
        outbox: &mut Outbox<A>,
    ) -> Result<(), Fault>
        requires { vote.now ≡ Accepted slot ballot batch.now }
        ensures did { LayerDid true result (λ n. handling.on_vote n.config from (Accepted slot ballot batch.now) n.state (map.get n.state.held slot))
            self.old self.new outbox.old.packets outbox.new.packets }
        ensures of { IsOf self.old self.new }
    {
        if self.merge.held(slot).is_some() {
            return Err(Fault::Known);
        }
        if self.member.completes(from, slot, ballot)? {
            return self.on_last_vote(from, vote, slot, ballot, batch, outbox);
        }
        self.on_letter(from, vote, outbox)
    }

    /// A vote with which a majority has voted: the batch is held, and the other nodes of the own replica are told.
    fn on_last_vote(
        &mut self,
        from: u8,
        vote: &Message<Batch<A::Args>>,
        slot: Slot,
        ballot: Ballot,
        batch: &Batch<A::Args>,
        outbox: &mut Outbox<A>,
    ) -> Result<(), Fault>
        requires vote { vote.now ≡ Accepted slot ballot batch.now }
        requires free { map.get self.old.held slot ≡ None }
        requires new { knows self.old.synod.learner from slot ballot ≡ false }
        requires last { completes self.old.config.replicas self.old.synod.learner slot ballot ≡ true }
        ensures did { LayerDid true result (λ n. handling.by_synod n.config n.state
            (cases.accepted n.config.replicas from n.state.synod slot ballot batch.now)) self.old self.new outbox.old.packets outbox.new.packets }
        ensures of { IsOf self.old self.new }
    {
        let decided = batch.copy()?;
        let own = self.id.partition;
        make_room(&mut self.merge, &mut self.sequencer, own, slot)?;
        let _given = outbox.post_answer(&mut self.member, &self.config, self.id, from, vote)?;
        keep(&mut self.merge, &mut self.sequencer, own, slot, decided);
        Ok(())
    }
}
