//! Which event an entry of a history is.
ghost use Rattle.std.specs.Prelude.{◌≡◌, ℕ, MatchOption, Some};
ghost use Rattle.calvin_world.specs.declared.event.Event.{Event};
ghost use Rattle.calvin_world.specs.Names.{IsNamed};
ghost use Rattle.calvin_histories.specs.Histories.{entry_of};
ghost use Rattle.calvin_histories.specs.Positions.{AreListed, senders_of};
ghost use Rattle.calvin_histories.specs.declared.entry.Entry.TheVariants.{Came};

use crate::entry::Entry;
use crate::same::is_packet_at;
use crate::senders::Senders;
use calvin_app::App;
use calvin_lock::Locks;
use calvin_node_packets::Packet;
use calvin_store::Rows;
use calvin_types::NodeId;
use calvin_world::{Event, PacketName, World};

/// The event of a world that is this entry at a node, if there is one.
pub(crate) fn event_of<A: App + Drop, L: Locks + Drop, S: Rows<A::Row> + Drop>(
    world: &World<A, L, S>,
    senders: &Senders,
    id: NodeId,
    entry: &Entry<A::Args, A::Row, A::Reply>,
) -> Option<Event<A::Args>>
    requires listed { AreListed senders.now.partitions senders.now.lists.items (senders_of world.now.packets) }
    ensures { MatchOption result ((event : Event A.Args) → entry_of world.now event ≡ Some (id, entry.now)
        → ⊥) (λ event. (entry_of world.now event ≡ Some (id, entry.now))
        × ((other : Event A.Args) → entry_of world.now other ≡ Some (id, entry.now) → other ≡ event)) }
{
    match entry {
        Entry::Own(act) => Some(Event::At(id, *act)),
        Entry::Came(name, packet) => delivery_of(world, senders, id, *name, packet),
    }
}

/// The delivery of a packet to a node, if it was sent under this name, and is for that node.
fn delivery_of<A: App + Drop, L: Locks + Drop, S: Rows<A::Row> + Drop>(
    world: &World<A, L, S>,
    senders: &Senders,
    id: NodeId,
    name: PacketName,
    packet: &Packet<A::Args, A::Row, A::Reply>,
) -> Option<Event<A::Args>>
    requires listed { AreListed senders.now.partitions senders.now.lists.items (senders_of world.now.packets) }
    ensures { MatchOption result ((event : Event A.Args) → entry_of world.now event ≡ Some (id, Came name packet.now)
        → ⊥) (λ event. (entry_of world.now event ≡ Some (id, Came name packet.now))
        × ((other : Event A.Args) → entry_of world.now other ≡ Some (id, Came name packet.now) → other ≡ event)) }
{
    let Some(number) = number_of(world, senders, name) else {
        return None;
    };
    let packets = world.packets();
    let Some(to) = packets.address(number) else {
        return None;
    };
    if !to.is_for(id) {
        return None;
    }
    if !is_packet_at(packets, number, packet) {
        return None;
    }
    Some(Event::Deliver(number))
}

/// The number of the packet with a name, if it was sent.
fn number_of<A: App + Drop, L: Locks + Drop, S: Rows<A::Row> + Drop>(
    world: &World<A, L, S>,
    senders: &Senders,
    name: PacketName,
) -> Option<usize>
    requires listed { AreListed senders.now.partitions senders.now.lists.items (senders_of world.now.packets) }
    ensures { MatchOption result ((number : ℕ) → IsNamed world.now.packets name number → ⊥) (IsNamed world.now.packets name) }
{
    if senders.lists(name.sender) {
        senders.find(name)
    } else {
        world.named(name)
    }
}
