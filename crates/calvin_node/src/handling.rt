//! What a node makes of a packet.
ghost use Rattle.std.specs.Prelude.{[], ◌++◌, false, true};
ghost use Rattle.calvin_store.specs.Points.{warm_grows};
ghost use Rattle.calvin_sched.specs.Scheduling.{turn_at};
ghost use Rattle.calvin_sched.specs.Steps as steps;
ghost use Rattle.calvin_node_packets.specs.declared.packet.Content.TheVariants.{Warm};
ghost use Rattle.calvin_node_acts.specs.Growing.{content_grows};
ghost use Rattle.calvin_node_acts.specs.Handling as handling;
ghost use Rattle.calvin_node_acts.specs.NodeStates.{site_of};
ghost use Rattle.calvin_node_acts.specs.Running.{NodeDid};

use crate::node::Node;
use calvin_app::{App, View};
use calvin_lock::Locks;
use calvin_node_packets::{Address, Content, Outbox, Packet};
use calvin_store::Rows;
use calvin_types::{Fault, NodeId, Place, Sets};

impl<A: App, L: Locks + Drop, S: Rows<A::Row> + Drop> Node<A, L, S> {
    /// A packet reaches the node, and what it says is done. Refused with `NotMine` where it is for another node or a client, is
    /// an answer, or is a message of another group's synods; with `NotCurrent` for a promise or a refusal of a ballot that
    /// is no news, with `Known` for a vote or a batch that is known, with `NoBatch` where the batch that is asked for isn't
    /// held, with `NotAwaited` for rows that aren't awaited, with `NotServed` where rows are asked for that were not read
    /// here; else with `OutOfMemory` where a growth was refused or a batch can have no more owners, but for no news of a
    /// greater promise, no rows that come, and no warming of keys of which none has a cold row.
    pub fn handle(
        &mut self,
        packet: &Packet<A::Args, A::Row, A::Reply>,
        outbox: &mut Outbox<A>,
    ) -> Result<(), Fault>
        ensures did { NodeDid (content_grows self.old.config packet.now.content self.old.state)
            result (handling.handle self.old.config packet.now self.old.state) self.old self.new outbox.old.packets outbox.new.packets }
    {
        if !packet.to.is_for(self.layer.id()) {
            return Err(Fault::NotMine);
        }
        self.handle_content(packet.from, &packet.content, outbox)
    }

    /// What a node tells this one is done.
    fn handle_content(
        &mut self,
        from: NodeId,
        content: &Content<A::Args, A::Row, A::Reply>,
        outbox: &mut Outbox<A>,
    ) -> Result<(), Fault>
        ensures did { NodeDid (content_grows self.old.config content.now self.old.state)
            result (handling.handle_content self.old.config from content.now self.old.state) self.old self.new outbox.old.packets outbox.new.packets }
    {
        match content {
            Content::Synod(message) => self.layer.on_synod(from, message, outbox),
            Content::Decided(slot, batch) => self.layer.on_decided(*slot, batch),
            Content::AskBatch(slot) => self.layer.on_ask_batch(from, *slot, outbox),
            Content::Reads(place, rows) => self.on_reads(from.partition, *place, rows),
            Content::AskReads(place) => self.on_ask_reads(from, *place, outbox),
            Content::Warm(sets) => self.on_warm(sets),
            Content::Replies(..) => Err(Fault::NotMine),
        }
    }

    /// The rows that another partition read for the request at a place are kept (section 3.2: remote reads). Refused with
    /// `NotAwaited` where they aren't awaited. It is never refused for memory.
    fn on_reads(&mut self, from: u8, place: Place, rows: &View<A::Row>) -> Result<(), Fault>
        ensures did { NodeDid {Reply = A.Reply} false result (handling.by_scheduler self.old.state
            (steps.on_reads (site_of self.old.config.partitions self.old.state) place from rows.now self.old.state.scheduler))
            self.old self.new [] [] }
    {
        self.scheduler.due_is_undone();
        self.scheduler.on_reads(place, from, rows)
    }

    /// The rows that were read here for the request at a place are sent again to a node that asks for them. Refused with
    /// `NotServed` where it reads no key here, isn't admitted, or has not begun.
    fn on_ask_reads(&self, from: NodeId, place: Place, outbox: &mut Outbox<A>) -> Result<(), Fault>
        ensures did { NodeDid true result (handling.on_ask_reads self.now.config from place self.now.state
            (turn_at self.now.state.scheduler place)) self.now self.now outbox.old.packets outbox.new.packets }
    {
        self.scheduler.due_is_undone();
        if !self.scheduler.reads_here(place) {
            return Err(Fault::NotServed);
        }
        let rows = self.scheduler.served(place)?;
        outbox.push(Packet {
            from: self.layer.id(),
            to: Address::AtNode(from),
            content: Content::Reads(place, rows),
        })
    }

    /// The rows of these keys come back from the cold table, where they are there (section 4). Refused with `OutOfMemory` where
    /// there is such a table, one of these keys has its row there, and a growth was refused.
    fn on_warm(&mut self, sets: &Sets) -> Result<(), Fault>
        ensures did { NodeDid {Reply = A.Reply} (warm_grows self.old.config.cold (sets.now.reads ++ sets.now.writes) self.old.state.scheduler.store)
            result (handling.handle_content self.old.config self.old.state.id (Warm sets.now) self.old.state) self.old self.new [] [] }
    {
        self.scheduler.due_is_undone();
        self.scheduler.warm(sets)
    }
}
