//! Packets by their names.
ghost use Rattle.std.specs.Prelude.{ℕ, MatchOption};
ghost use Rattle.calvin_world.specs.Names.{IsNamed};

use crate::world::World;
use calvin_app::App;
use calvin_lock::Locks;
use calvin_node_packets::Outbox;
use calvin_store::Rows;
use calvin_types::NodeId;

/// A packet's name: the node that sent it, and how many packets that node had sent before. What other nodes send doesn't change
/// it, as it does a packet's number among all.
#[derive(Clone, Copy, Debug, PartialEq, Eq)]
pub struct PacketName {
    pub sender: NodeId,
    /// From 0.
    pub number: usize,
}

impl<A: App + Drop, L: Locks + Drop, S: Rows<A::Row> + Drop> World<A, L, S> {
    /// The number of the packet with a name, if it was sent.
    pub fn named(&self, name: PacketName) -> Option<usize>
        ensures { MatchOption result ((number : ℕ) → IsNamed self.now.packets name number → ⊥) (IsNamed self.now.packets name) }
    {
        number_of(self.packets(), name)
    }
}

/// The number of the packet with a name, among packets in the order in which they were sent.
fn number_of<A: App>(packets: &Outbox<A>, name: PacketName) -> Option<usize>
    ensures { MatchOption result ((number : ℕ) → IsNamed packets.now.packets name number → ⊥) (IsNamed packets.now.packets name) }
{
    let mut before = 0;
    for at in 0..packets.len() {
        if packets.sender(at) == name.sender {
            if before == name.number {
                return Some(at);
            }
            before += 1;
        }
    }
    None
}
