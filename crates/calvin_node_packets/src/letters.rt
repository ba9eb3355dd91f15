//! What a replica's part in the synods of its group is asked to do, and what its node sends with that.
ghost use Rattle.std.specs.Prelude.{◌≡◌, ◌++◌, not, ◌==◌, Some, None, false, true, OnOk, OnErr, IsOkUnless};
ghost use Rattle.calvin_synod.specs.Cases as cases;
ghost use Rattle.calvin_synod.specs.Cases.{message_grows};
ghost use Rattle.calvin_synod.specs.Roles.{completes, knows};
ghost use Rattle.calvin_synod.specs.declared.message.Message.TheVariants.{Accepted};
ghost use Rattle.calvin_node_packets.specs.Letters.{MemberSent, given_by};
ghost use Rattle.calvin_node_packets.specs.Packets as packets;
ghost use Rattle.calvin_node_packets.specs.Packets.{telling};

use crate::outbox::Outbox;
use crate::packet::Content;
use calvin_app::App;
use calvin_synod::{Given, Member, Message};
use calvin_types::{Ballot, Batch, Config, Fault, Few, NodeId, Slot};

impl<A: App> Outbox<A> {
    /// Begins a new ballot for a slot, with a batch to propose ("Paxos Made Simple", section 2.2, phase 1a), and sends what the
    /// synod sends for it. Refused with `RoundsSpent` where there is no greater round, else with `OutOfMemory` where a growth
    /// was refused or the batch can have no more owners: then nothing changed.
    pub fn post_ballot(
        &mut self,
        member: &mut Member<A::Args>,
        config: &Config,
        me: NodeId,
        slot: Slot,
        batch: &Batch<A::Args>,
    ) -> Result<Given<Batch<A::Args>>, Fault>
        ensures did { MemberSent true result (cases.propose member.old.me slot batch.now member.old.replica)
            config.now.replicas config.now.partitions me member.old member.new self.old.packets self.new.packets }
    {
        let mail = member.prepare_to_all(slot)?;
        let batch = batch.copy()?;
        let sent = self.len();
        self.post(config.replicas, me, mail)?;
        match member.propose(slot, batch) {
            Ok(given) => Ok(given),
            Err(fault) => {
                self.take_back(sent);
                Err(fault)
            }
        }
    }

    /// Does what a message from a replica of the group says, and sends what the synod answers; where a batch is decided with
    /// it, the other nodes of the own replica are told that batch. Refused with the message's own refusal, else with
    /// `OutOfMemory` where a growth was refused or a batch can have no more owners: then nothing changed.
    pub fn post_answer(
        &mut self,
        member: &mut Member<A::Args>,
        config: &Config,
        me: NodeId,
        from: u8,
        message: &Message<Batch<A::Args>>,
    ) -> Result<Given<Batch<A::Args>>, Fault>
        ensures did { MemberSent (message_grows message.now)
            result (cases.handle member.old.size from message.now member.old.replica)
            config.now.replicas config.now.partitions me member.old member.new self.old.packets self.new.packets }
    {
        if let Message::Accepted {
            slot,
            ballot,
            batch,
        } = message
        {
            if member.completes(from, *slot, *ballot)? {
                return self.post_decided(member, config, me, from, message, *slot, *ballot, batch);
            }
        }
        self.post_letters(member, config, me, from, message)
    }

    /// A message with which no batch is decided.
    fn post_letters(
        &mut self,
        member: &mut Member<A::Args>,
        config: &Config,
        me: NodeId,
        from: u8,
        message: &Message<Batch<A::Args>>,
    ) -> Result<Given<Batch<A::Args>>, Fault>
        requires { given_by (cases.handle member.old.size from message.now member.old.replica) ≡ None }
        ensures did { MemberSent (message_grows message.now)
            result (cases.handle member.old.size from message.now member.old.replica)
            config.now.replicas config.now.partitions me member.old member.new self.old.packets self.new.packets }
    {
        let answer = member.answer(from, message)?;
        let message = message.copy()?;
        let sent = self.len();
        self.post(config.replicas, me, answer)?;
        match member.take(from, message) {
            Ok(given) => Ok(given),
            Err(fault) => {
                self.take_back(sent);
                Err(fault)
            }
        }
    }

    /// A vote with which a majority has voted: the other nodes of the own replica are told the batch.
    fn post_decided(
        &mut self,
        member: &mut Member<A::Args>,
        config: &Config,
        me: NodeId,
        from: u8,
        vote: &Message<Batch<A::Args>>,
        slot: Slot,
        ballot: Ballot,
        batch: &Batch<A::Args>,
    ) -> Result<Given<Batch<A::Args>>, Fault>
        requires vote { vote.now ≡ Accepted slot ballot batch.now }
        requires new { knows member.old.replica.learner from slot ballot ≡ false }
        requires last { completes member.old.size member.old.replica.learner slot ballot ≡ true }
        ensures did { MemberSent true result (cases.accepted member.old.size from member.old.replica slot ballot batch.now)
            config.now.replicas config.now.partitions me member.old member.new self.old.packets self.new.packets }
    {
        let vote = vote.copy()?;
        let sent = self.len();
        self.tell_decided(config, me, slot, batch)?;
        match member.take(from, vote) {
            Ok(given) => Ok(given),
            Err(fault) => {
                self.take_back(sent);
                Err(fault)
            }
        }
    }

    /// Tells the other nodes of the own replica the batch that is decided for a slot. Refused with `OutOfMemory` where a growth
    /// was refused or the batch can have no more owners: then nothing is sent.
    fn tell_decided(
        &mut self,
        config: &Config,
        me: NodeId,
        slot: Slot,
        batch: &Batch<A::Args>,
    ) -> Result<(), Fault>
        ensures told { OnOk result (self.new.packets ≡ self.old.packets ++ telling config.now.partitions me (Some (slot, batch.now))) }
        ensures err { OnErr result (self.new.packets ≡ self.old.packets) }
        ensures only { IsOkUnless result Fault.OutOfMemory }
    {
        let content = Content::Decided(slot, batch.copy()?);
        self.post_to_each(me, me.replica, &content, &others(config, me.partition))
    }
}

/// Whether a partition is another one than the own.
fn is_other(partition: u8, own: u8) -> bool
    ensures { result ≡ not (partition == own) }
{
    partition != own
}

/// The other partitions, ascending.
fn others(config: &Config, own: u8) -> Few<u8>
    ensures { result ≡ packets.others config.now.partitions own }
{
    let mut partitions = Few::new();
    for partition in 0..config.partitions {
        if is_other(partition, own) {
            partitions.push(partition);
        }
    }
    partitions
}
