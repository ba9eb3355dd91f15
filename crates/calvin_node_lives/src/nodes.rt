//! Nodes side by side, and the list of all that they sent.
use crate::alike::{have_sent_same, tell_same};
use crate::scarce::ScarceRows;
use crate::shown::{Letter, Packed, is_letter, key};
use crate::step::Step;
use calvin_app::{Kv, KvRequest};
use calvin_lock::QueueLocks;
use calvin_node::{Act, Durable, Node};
use calvin_node_packets::Outbox;
use calvin_store::{PlainRows, Rows};
use calvin_types::{Config, Fault, NodeId, Place, Slot};
use std::alloc::Global;

/// A node that runs numbers by key, whose rows are plain ones that are refused a load by one growth.
pub(crate) type ScarceNode = Node<Kv, QueueLocks, ScarceRows<PlainRows<u64>>>;

/// All nodes, numbered from 0 replica by replica, and all packets that they sent, numbered from 0.
#[derive(Drop)]
pub struct Nodes {
    alloc: Global,
    config: Config,
    nodes: Vec<ScarceNode>,
    sent: Outbox<Kv>,
}

/// Adds the nodes of a replica.
fn add_replica(
    alloc: Global,
    config: &Config,
    replica: u8,
    nodes: &mut Vec<ScarceNode>,
) -> Result<(), Fault> {
    for partition in 0..config.partitions {
        let id = NodeId { replica, partition };
        nodes.push(Node::new(alloc, config, id))?;
    }
    Ok(())
}

impl Nodes {
    /// No event has happened yet.
    pub fn new(alloc: Global, config: Config) -> Result<Nodes, Fault> {
        let mut nodes = Vec::new(alloc);
        for replica in 0..config.replicas {
            add_replica(alloc, &config, replica, &mut nodes)?;
        }
        let sent = Outbox::new(alloc);
        Ok(Nodes {
            alloc,
            config,
            nodes,
            sent,
        })
    }

    /// The nodes end, and what they took of memory is given back. A test that lets them go out of scope is longer to prove, by
    /// what it takes to give each of their parts back.
    pub fn end(self) {}

    /// All packets.
    pub fn packets(&self) -> &Outbox<Kv> {
        &self.sent
    }

    /// Hands a packet to the node that it is for.
    fn hand_over(&mut self, packet: &Packed) -> Result<(), Fault> {
        for node in self.nodes.iter_mut() {
            if packet.to.is_for(node.id()) {
                return node.handle(packet, &mut self.sent);
            }
        }
        Err(Fault::NotMine)
    }

    /// Delivers the packet of a number.
    fn deliver(&mut self, number: usize) -> Result<(), Fault> {
        let Some(packet) = self.sent.copy(number)? else {
            return Err(Fault::NoPacket);
        };
        let outcome = self.hand_over(&packet);
        drop(packet);
        outcome
    }

    /// The request at a place of a node is run beside the node, which then takes what came of it.
    fn finish(&mut self, number: usize, place: Place) -> Result<(), Fault> {
        let Some(node) = self.nodes.get_mut(number) else {
            return Err(Fault::NoNode);
        };
        let computed = node.job(place)?.compute(&Kv);
        node.take_computed(&computed, &mut self.sent)
    }

    /// One more node, opened from a durable record; where that is refused, the record is handed back.
    fn open(&mut self, id: NodeId, record: Durable<Kv>) -> Result<(), (Fault, Durable<Kv>)> {
        match Node::from_durable(self.alloc, &self.config, id, record) {
            Ok(node) => {
                // There is memory for it, where one was taken out before.
                drop(self.nodes.push(node));
                Ok(())
            }
            Err(refused) => Err(refused),
        }
    }

    /// The last node is opened anew from its durable record, under this configuration. Where that is refused, it is opened as it
    /// was, from the record that was handed back.
    pub fn reopen_under(&mut self, config: Config) -> Result<(), Fault> {
        let Some(node) = self.nodes.pop() else {
            return Err(Fault::NoNode);
        };
        let id = node.id();
        let before = self.config;
        self.config = config;
        match self.open(id, node.into_durable()) {
            Ok(()) => Ok(()),
            Err((fault, record)) => {
                self.config = before;
                // Where this is refused too, a node is missing, which whoever compares the nodes sees.
                drop(self.open(id, record));
                Err(fault)
            }
        }
    }

    /// Copies all packets to an outbox, with memory for so many more.
    fn copy_packets(&self, sent: &mut Outbox<Kv>, room: usize) -> Result<(), Fault> {
        sent.reserve(self.packets().len().saturating_add(room))?;
        for number in 0..self.packets().len() {
            if let Some(packet) = self.packets().copy(number)? {
                sent.push(packet)?;
            }
        }
        Ok(())
    }

    /// The outbox has all packets, as before, and memory for so many more, if for four at least. A refusal leaves it.
    pub(crate) fn leave_room(&mut self, room: usize) -> Result<(), Fault> {
        let mut sent = Outbox::new(self.alloc);
        self.copy_packets(&mut sent, room)?;
        self.sent = sent;
        Ok(())
    }

    /// Whether the same packets were sent as by others, and each node tells the same as the other of its number: of what lives
    /// of nodes use, the epochs 0 to 2, the groups 0 and 1, the first place of each epoch, and the keys 1 and 2.
    pub(crate) fn is_alike(&self, others: &Nodes) -> bool {
        self.nodes.len() == others.nodes.len()
            && have_sent_same(self.packets(), others.packets())
            && self
                .nodes
                .iter()
                .zip(others.nodes.iter())
                .all(|(one, other)| tell_same(one, other))
    }

    /// One of a node's own events happens.
    fn act(&mut self, number: usize, act: &Act<KvRequest>) -> Result<(), Fault> {
        let Some(node) = self.nodes.get_mut(number) else {
            return Err(Fault::NoNode);
        };
        node.act(act, &Kv, &mut self.sent)
    }

    /// An event happens.
    pub fn step(&mut self, step: &Step) -> Result<(), Fault> {
        match step {
            Step::Own(node, act) => self.act(*node, act),
            Step::Deliver(number) => self.deliver(*number),
            Step::Finish(node, place) => self.finish(*node, *place),
            Step::Reopen => self.reopen_under(self.config),
        }
    }

    /// The epoch at whose end a node stands, and how many rows it has. There is none where no node has the number.
    pub fn stands(&self, number: usize) -> Option<(Option<u64>, usize)> {
        let node = self.nodes.get(number)?;
        Some((node.stands_at(), node.rows().len()))
    }

    /// The row that a node has for the key of a number. There is none where no node has its number either.
    pub fn row(&self, number: usize, id: u64) -> Option<u64> {
        self.nodes.get(number)?.rows().get(&key(id))
    }

    /// How many requests are queued at a node.
    pub fn queued(&self, number: usize) -> Option<usize> {
        Some(self.nodes.get(number)?.queued())
    }

    /// Whether two nodes hold a batch for a slot, and the same.
    pub fn hold_same(&self, one: usize, other: usize, slot: Slot) -> bool {
        match (self.nodes.get(one), self.nodes.get(other)) {
            (Some(one), Some(other)) => {
                one.held(slot).is_some() && one.held(slot) == other.held(slot)
            }
            _ => false,
        }
    }

    /// Whether the packet of a number is this message, from one replica to another, where there is one partition.
    pub fn has_told(&self, number: usize, from: u8, to: u8, letter: &Letter) -> bool {
        is_letter(&self.sent, number, from, to, letter)
    }

    /// Whether a replica has sent this message to each of three, with the packets from a number on, where there is one
    /// partition.
    pub fn has_told_all(&self, first: usize, from: u8, letter: &Letter) -> bool {
        for to in 0..3 {
            if !self.has_told(first.saturating_add(usize::from(to)), from, to, letter) {
                return false;
            }
        }
        true
    }
}
