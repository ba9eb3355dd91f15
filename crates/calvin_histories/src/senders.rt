//! The packets of each sender, by their numbers among all.
ghost use Rattle.std.specs.Prelude.{◌≡◌, ℕ, List, length, take, [], ◌∷◌, ◌++◌, ◌*◌, IfOk, OnOk, OnErr, IsTrue, IsOkUnless, MatchOption, slice_get};
ghost use Rattle.calvin_types.specs.declared.place.NodeId.{NodeId};
ghost use Rattle.calvin_world.specs.Worlds.{index_of};
ghost use Rattle.calvin_histories.specs.Positions.{AreListed, IsListed, IsAt, senders_of, next_name};

use calvin_app::App;
use calvin_node_packets::Outbox;
use calvin_types::{Config, Fault, NodeId};
use calvin_world::PacketName;
use std::alloc::Global;
use std::marker::Model;

/// The numbers of the packets of one sender, in order.
#[derive(Drop)]
struct Numbers {
    numbers: Vec<usize>,
}

impl Model for Numbers {
    ghost use Rattle.std.specs.Prelude.{List, ℕ};

    ghost Value = { List ℕ };

    ghost view = { λ n. n.numbers.items };
}

impl Numbers {
    /// None.
    fn new(alloc: Global) -> Numbers
        ensures { result ≡ [] }
    {
        Numbers {
            numbers: Vec::new(alloc),
        }
    }

    /// One more. Refused with `OutOfMemory` alone.
    fn push(&mut self, number: usize) -> Result<(), Fault>
        ensures ok { OnOk result (self.new ≡ self.old ++ number ∷ []) }
        ensures err { OnErr result (self.new ≡ self.old) }
        ensures only { IsOkUnless result Fault.OutOfMemory }
    {
        self.numbers.push(number)?;
        Ok(())
    }

    /// How many there are.
    fn len(&self) -> usize
        ensures { result ≡ length self.now }
    {
        self.numbers.len()
    }

    /// The one that has so many before it, if there is one.
    fn get(&self, at: usize) -> Option<usize>
        ensures { result ≡ slice_get self.now at }
    {
        self.numbers.get(at).copied()
    }
}

/// The numbers of the packets that each node of a store has sent, so that one is found by its name.
#[derive(Drop)]
pub(crate) struct Senders {
    partitions: u8,
    lists: Vec<Numbers>,
    /// How many packets are listed.
    listed: usize,
}

impl Senders {
    /// No packet is listed. Refused with `OutOfMemory` alone.
    pub fn new(alloc: Global, config: &Config) -> Result<Senders, Fault>
        ensures listed { IfOk result (λ s. (s.listed ≡ 0) × AreListed s.partitions s.lists.items []) }
        ensures nodes { IfOk result (λ s. (s.partitions ≡ config.now.partitions) × (length s.lists.items ≡ config.now.replicas * config.now.partitions)) }
        ensures only { IsOkUnless result Fault.OutOfMemory }
    {
        let nodes = config.replicas as usize * config.partitions as usize;
        let mut lists = Vec::new(alloc);
        for node in 0..nodes {
            let _ = node;
            lists.push(Numbers::new(alloc))?;
        }
        Ok(Senders {
            partitions: config.partitions,
            lists,
            listed: 0,
        })
    }

    /// Where a node's list stands, if it has one.
    fn place(&self, id: NodeId) -> Option<usize>
        ensures { MatchOption result (IsListed self.now.partitions self.now.lists.items id → ⊥) (λ at. (at ≡ index_of self.now.partitions id) × IsListed self.now.partitions self.now.lists.items id) }
    {
        if id.partition >= self.partitions {
            return None;
        }
        let at = id.replica as usize * self.partitions as usize + id.partition as usize;
        if at >= self.lists.len() {
            return None;
        }
        Some(at)
    }

    /// The packet of a number, the next one, is from this node. Refused with `OutOfMemory` alone.
    pub fn note(&mut self, sender: NodeId, number: usize) -> Result<(), Fault>
        ensures same { (self.new.partitions ≡ self.old.partitions) × (length self.new.lists.items ≡ length self.old.lists.items) }
        ensures listed { OnOk result ((senders : List NodeId) → length senders ≡ number → AreListed self.old.partitions self.old.lists.items senders
            → AreListed self.old.partitions self.new.lists.items (senders ++ sender ∷ [])) }
        ensures only { IsOkUnless result Fault.OutOfMemory }
    {
        let Some(at) = self.place(sender) else {
            return Ok(());
        };
        self.lists[at].push(number)
    }

    /// Lists the packets that aren't, among all that were sent. Refused with `OutOfMemory` alone.
    pub fn note_all<A: App>(&mut self, packets: &Outbox<A>) -> Result<(), Fault>
        ensures listed { OnOk result (AreListed self.old.partitions self.old.lists.items (take self.old.listed (senders_of packets.now.packets))
            → (self.new.listed ≡ length packets.now.packets) × AreListed self.new.partitions self.new.lists.items (senders_of packets.now.packets)) }
        ensures only { IsOkUnless result Fault.OutOfMemory }
    {
        for number in self.listed..packets.len() {
            self.note(packets.sender(number), number)?;
        }
        self.listed = packets.len();
        Ok(())
    }

    /// Whether packets of this node are listed.
    pub fn lists(&self, sender: NodeId) -> bool
        ensures { IsTrue result → IsListed self.now.partitions self.now.lists.items sender }
    {
        self.place(sender).is_some()
    }

    /// The name of the packet that a node sends next.
    pub fn next_name(&self, sender: NodeId) -> PacketName
        requires { IsListed self.now.partitions self.now.lists.items sender }
        ensures { (senders : List NodeId) → AreListed self.now.partitions self.now.lists.items senders → result ≡ next_name senders sender }
    {
        match self.place(sender) {
            Some(at) => PacketName {
                sender,
                number: self.lists[at].len(),
            },
            None => PacketName { sender, number: 0 },
        }
    }

    /// The number of the packet with a name, among those that are listed, if packets of its sender are.
    pub fn find(&self, name: PacketName) -> Option<usize>
        ensures { IsListed self.now.partitions self.now.lists.items name.sender → (senders : List NodeId)
            → AreListed self.now.partitions self.now.lists.items senders
            → MatchOption result ((number : ℕ) → IsAt senders name number → ⊥) (IsAt senders name) }
    {
        let at = self.place(name.sender)?;
        self.lists[at].get(name.number)
    }
}
