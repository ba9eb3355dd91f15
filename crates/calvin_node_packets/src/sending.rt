//! The packets of one event.
ghost use Rattle.std.specs.Prelude.{◌≡◌, ◌++◌, ◌≤◌, [], ◌∷◌, length, take, IsOk, IsOkUnless, OnOk, OnErr};
ghost use Rattle.calvin_synod.specs.Cases as cases;
ghost use Rattle.calvin_synod.specs.Deeds.{letters_of};
ghost use Rattle.calvin_node_packets.specs.declared.packet.Address.TheVariants.{AtNode};
ghost use Rattle.calvin_node_packets.specs.declared.packet.Content.TheVariants.{Reads};
ghost use Rattle.calvin_node_packets.specs.Packets.{to_each, to_replicas, synod_packets, participants, warm_packets};

use crate::outbox::Outbox;
use crate::packet::{Address, Content, Packet};
use calvin_app::App;
use calvin_row_list::RowList;
use calvin_synod::Mail;
use calvin_types::{Batch, Config, Fault, Few, MOST_KEYS, NodeId, Place, Sets, Txn};

impl<A: App> Outbox<A> {
    /// Sends what a synod sends, in a group of so many replicas. Refused with `OutOfMemory` where a growth was refused, or a
    /// batch can have no more owners: then nothing is sent.
    pub fn post(&mut self, size: u8, from: NodeId, mail: Mail<Batch<A::Args>>) -> Result<(), Fault>
        ensures sent { OnOk result (self.new.packets ≡ self.old.packets ++ synod_packets size from (letters_of mail)) }
        ensures err { OnErr result (self.new.packets ≡ self.old.packets) }
        ensures only { IsOkUnless result Fault.OutOfMemory }
        ensures succeeds { letters_of mail ≡ cases.Silent → IsOk result }
    {
        match mail {
            Mail::Nothing => Ok(()),
            Mail::ToOne(to, message) => {
                let to = Address::AtNode(NodeId {
                    replica: to,
                    partition: from.partition,
                });
                let content = Content::Synod(message);
                self.push(Packet { from, to, content })
            }
            Mail::ToAll(message) => {
                let sent = self.len();
                let content = Content::Synod(message);
                match self.post_to_all(size, from, &content) {
                    Ok(()) => Ok(()),
                    Err(fault) => {
                        self.take_back(sent);
                        Err(fault)
                    }
                }
            }
        }
    }

    /// Sends a copy of this to a node. Refused with `OutOfMemory` where a growth was refused, or a batch can have no more
    /// owners: then nothing is sent.
    fn post_copy(
        &mut self,
        from: NodeId,
        to: NodeId,
        content: &Content<A::Args, A::Row, A::Reply>,
    ) -> Result<(), Fault>
        ensures sent { OnOk result (self.new.packets ≡ self.old.packets ++ record { from = from; to = AtNode to; content = content.now } ∷ []) }
        ensures err { OnErr result (self.new.packets ≡ self.old.packets) }
        ensures only { IsOkUnless result Fault.OutOfMemory }
    {
        let content = content.copy()?;
        let to = Address::AtNode(to);
        self.push(Packet { from, to, content })
    }

    /// Sends this to each replica of the sender's group. Where it is refused, some may have been sent.
    fn post_to_all(
        &mut self,
        size: u8,
        from: NodeId,
        content: &Content<A::Args, A::Row, A::Reply>,
    ) -> Result<(), Fault>
        ensures sent { OnOk result (self.new.packets ≡ self.old.packets ++ to_replicas size from content.now) }
        ensures kept { take (length self.old.packets) self.new.packets ≡ self.old.packets }
        ensures longer { length self.old.packets ≤ length self.new.packets }
        ensures only { IsOkUnless result Fault.OutOfMemory }
    {
        for replica in 0..size {
            let to = NodeId {
                replica,
                partition: from.partition,
            };
            self.post_copy(from, to, content)?;
        }
        Ok(())
    }

    /// Sends the same to each of these partitions of a replica. Refused with `OutOfMemory` where a growth was refused, or a
    /// batch can have no more owners: then nothing is sent.
    pub fn post_to_each(
        &mut self,
        from: NodeId,
        replica: u8,
        content: &Content<A::Args, A::Row, A::Reply>,
        partitions: &Few<u8>,
    ) -> Result<(), Fault>
        ensures sent { OnOk result (self.new.packets ≡ self.old.packets ++ to_each from replica content.now partitions.now) }
        ensures err { OnErr result (self.new.packets ≡ self.old.packets) }
        ensures only { IsOkUnless result Fault.OutOfMemory }
    {
        let sent = self.len();
        match self.post_copies(from, replica, content, partitions) {
            Ok(()) => Ok(()),
            Err(fault) => {
                self.take_back(sent);
                Err(fault)
            }
        }
    }

    /// Sends a copy to each. Where it is refused, some may have been sent.
    fn post_copies(
        &mut self,
        from: NodeId,
        replica: u8,
        content: &Content<A::Args, A::Row, A::Reply>,
        partitions: &Few<u8>,
    ) -> Result<(), Fault>
        ensures sent { OnOk result (self.new.packets ≡ self.old.packets ++ to_each from replica content.now partitions.now) }
        ensures kept { take (length self.old.packets) self.new.packets ≡ self.old.packets }
        ensures longer { length self.old.packets ≤ length self.new.packets }
        ensures only { IsOkUnless result Fault.OutOfMemory }
    {
        for i in 0..partitions.len() {
            let to = NodeId {
                replica,
                partition: partitions.at(i),
            };
            self.post_copy(from, to, content)?;
        }
        Ok(())
    }

    /// Sends the rows that were read for the request at a place to these partitions of the sender's replica. There is room.
    pub fn post_reads(
        &mut self,
        from: NodeId,
        place: Place,
        rows: &RowList<A::Row>,
        partitions: &Few<u8>,
    )
        requires { length partitions.now ≤ self.old.room }
        ensures { self.new.packets ≡ self.old.packets ++ to_each from from.replica (Reads place rows.now.rows) partitions.now }
    {
        for i in 0..partitions.len() {
            let to = Address::AtNode(NodeId {
                replica: from.replica,
                partition: partitions.at(i),
            });
            self.push_rows(from, to, place, rows);
        }
    }

    /// Tells the partitions of the sender's replica that store a declared key of a request to have the rows of these keys in
    /// memory. There is room.
    pub fn post_warm(&mut self, config: &Config, from: NodeId, txn: &Txn<A::Args>)
        requires { MOST_KEYS ≤ self.old.room }
        ensures { self.new.packets ≡ self.old.packets ++ warm_packets config.now.partitions from txn.now (participants config.now.partitions txn.now) }
    {
        for partition in 0..config.partitions {
            if txn.is_participant(config, partition) {
                let to = Address::AtNode(NodeId {
                    replica: from.replica,
                    partition,
                });
                let content = Content::Warm(Sets {
                    reads: txn.sets.reads.part(config, partition),
                    writes: txn.sets.writes.part(config, partition),
                });
                self.push_reserved(Packet { from, to, content });
            }
        }
    }
}
