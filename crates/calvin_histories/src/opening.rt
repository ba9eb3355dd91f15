//! The nodes of a book, each for a lock of its own.
ghost use Rattle.std.specs.Prelude.{◌≡◌, ◌<◌, ◌+◌, [], ◌∷◌, ◌++◌, length, take, IfOk, IfErr, OnOk, IsOkUnless, slice_get};
ghost use Rattle.calvin_order.specs.Configs.{config_of};
ghost use Rattle.calvin_book.specs.Books.{world_after};
ghost use Rattle.calvin_histories.specs.Histories.{coming, entry_of};
ghost use Rattle.calvin_histories.specs.Locked.{IsNoEntry, AreLockedOf};
ghost use Rattle.calvin_histories.specs.Positions.{AreThere, AreNamed};

use crate::entry::Entry;
use crate::locked::LockedNode;
use crate::senders::Senders;
use calvin_app::App;
use calvin_book::Book;
use calvin_lock::Locks;
use calvin_node_packets::{Address, Outbox};
use calvin_store::Rows;
use calvin_types::{Config, Fault, NodeId};
use calvin_world::{Event, PacketName, World, id_at};
use std::alloc::Global;

/// The nodes of a book that was opened with this configuration, replica by replica, each with the history that is the book's part
/// at it: what stands under the locks of a store that goes on from the book. The book's events happen at them once more. Refused
/// with `OutOfMemory` alone.
pub fn lock_nodes<A: App + Drop, L: Locks + Drop, S: Rows<A::Row> + Drop>(
    alloc: Global,
    config: &Config,
    app: &A,
    book: &Book<A, L, S>,
) -> Result<Vec<LockedNode<A, L, S>>, Fault>
    requires config { book.now.config ≡ config_of config.now S.points S.cold }
    ensures nodes { IfOk result (λ nodes. AreLockedOf A.meaning book.now nodes.items) }
    ensures only { IsOkUnless result Fault.OutOfMemory }
{
    let names = names_of(alloc, config, book.world().packets())?;
    let mut nodes = new_nodes(alloc, config)?;
    for number in 0..book.events().len() {
        happen_again(config, app, book, &names, number, &mut nodes)?;
    }
    Ok(nodes)
}

/// The nodes of a store in which nothing happened. Refused with `OutOfMemory` alone.
fn new_nodes<A: App + Drop, L: Locks + Drop, S: Rows<A::Row> + Drop>(
    alloc: Global,
    config: &Config,
) -> Result<Vec<LockedNode<A, L, S>>, Fault>
    ensures new { IfOk result (λ nodes. AreLockedOf A.meaning (record { config = config_of config.now S.points S.cold; events = [] }) nodes.items) }
    ensures only { IsOkUnless result Fault.OutOfMemory }
{
    let number = config.replicas as usize * config.partitions as usize;
    let mut nodes = Vec::new(alloc);
    for at in 0..number {
        nodes.push(LockedNode::new(alloc, config, id_at(config, at)))?;
    }
    Ok(nodes)
}

/// The name of each packet, by its number among all. Refused with `OutOfMemory` alone.
fn names_of<A: App>(
    alloc: Global,
    config: &Config,
    packets: &Outbox<A>,
) -> Result<Vec<PacketName>, Fault>
    requires there { AreThere config.now.replicas config.now.partitions packets.now.packets }
    ensures names { IfOk result (λ names. AreNamed packets.now.packets names.items) }
    ensures only { IsOkUnless result Fault.OutOfMemory }
{
    let mut senders = Senders::new(alloc, config)?;
    let mut names = Vec::new(alloc);
    for number in 0..packets.len() {
        let sender = packets.sender(number);
        names.push(senders.next_name(sender))?;
        senders.note(sender, number)?;
    }
    Ok(names)
}

/// The book's event of a number happens at its node, at which those before it happened. Refused with `OutOfMemory` alone.
fn happen_again<A: App + Drop, L: Locks + Drop, S: Rows<A::Row> + Drop>(
    config: &Config,
    app: &A,
    book: &Book<A, L, S>,
    names: &[PacketName],
    number: usize,
    nodes: &mut Vec<LockedNode<A, L, S>>,
) -> Result<(), Fault>
    requires config { book.now.config ≡ config_of config.now S.points S.cold }
    requires names { AreNamed (world_after A.meaning book.now.config book.now.events).packets names.now }
    requires there { number < length book.now.events }
    requires before { AreLockedOf A.meaning (record { config = book.now.config; events = take number book.now.events }) nodes.old.items }
    ensures after { OnOk result (AreLockedOf A.meaning (record { config = book.now.config; events = take (number + 1) book.now.events }) nodes.new.items) }
    ensures only { IsOkUnless result Fault.OutOfMemory }
{
    let event = book.events().get(number).unwrap();
    let Some((id, entry)) = entry_at(book.world(), names, &event)? else {
        return Ok(());
    };
    let at = id.replica as usize * config.partitions as usize + id.partition as usize;
    live_on(&mut nodes[at], app, entry)
}

/// The node of an event, and what the event is to it, if it is an event of a node. Refused with `OutOfMemory` alone.
fn entry_at<A: App + Drop, L: Locks + Drop, S: Rows<A::Row> + Drop>(
    world: &World<A, L, S>,
    names: &[PacketName],
    event: &Event<A::Args>,
) -> Result<Option<(NodeId, Entry<A::Args, A::Row, A::Reply>)>, Fault>
    requires names { AreNamed world.now.packets names.now }
    ensures entry { IfOk result (λ entry. entry ≡ entry_of world.now event.now) }
    ensures only { IsOkUnless result Fault.OutOfMemory }
{
    match event {
        Event::At(id, act) => Ok(Some((*id, Entry::Own(*act)))),
        Event::Deliver(number) => came_at::<A>(world.packets(), names, *number),
    }
}

/// The node to which the packet of a number comes, and the packet with its name, if it is for a node. Refused with `OutOfMemory`
/// alone.
fn came_at<A: App>(
    packets: &Outbox<A>,
    names: &[PacketName],
    number: usize,
) -> Result<Option<(NodeId, Entry<A::Args, A::Row, A::Reply>)>, Fault>
    requires names { AreNamed packets.now.packets names.now }
    ensures entry { IfOk result (λ entry. entry ≡ coming packets.now.packets number (slice_get packets.now.packets number)) }
    ensures only { IsOkUnless result Fault.OutOfMemory }
{
    let Some(name) = names.get(number) else {
        return Ok(None);
    };
    let Some(to) = packets.address(number) else {
        return Ok(None);
    };
    let Address::AtNode(id) = to else {
        return Ok(None);
    };
    let copy = packets.copy(number)?;
    let Some(packet) = copy else {
        return Ok(None);
    };
    Ok(Some((id, Entry::Came(*name, packet))))
}

/// An entry comes next at a node. Refused as its event is, or with `OutOfMemory`.
fn live_on<A: App + Drop, L: Locks + Drop, S: Rows<A::Row> + Drop>(
    node: &mut LockedNode<A, L, S>,
    app: &A,
    entry: Entry<A::Args, A::Row, A::Reply>,
) -> Result<(), Fault>
    ensures ok { OnOk result (node.new ≡ record node.old { history = node.old.history ++ entry ∷ [] }) }
    ensures only { IfErr result (IsNoEntry A.meaning node.old entry) }
{
    match entry {
        Entry::Own(act) => node.act(&act, app),
        Entry::Came(name, packet) => match node.receive(name, packet) {
            Ok(()) => Ok(()),
            Err((fault, _packet)) => Err(fault),
        },
    }
}
