//! The nodes of a book, each with its own history.
ghost use Rattle.std.specs.Prelude.{◌≡◌};

use crate::checks::same;
use crate::giving_back::{give_back, give_back_history, give_back_nodes};
use crate::made::{FIRST_NODE, KvBook, KvEntry, KvHistory, SECOND_NODE, config, name};
use calvin_app::{Kv, KvRequest};
use calvin_histories::{Entry, StoreNode, lock_nodes};
use calvin_node::Act;
use calvin_node_packets::Content;
use calvin_synod::Message;
use calvin_types::{Config, Fault, NodeId};
use calvin_world::{Event, PacketName};
use std::alloc::Global;
use std::test::Fail;

/// What an entry is.
#[derive(Clone, Copy, Debug, PartialEq, Eq)]
enum Seen {
    Own(Act<KvRequest>),
    Asked(PacketName),
    Promised(PacketName),
    Other,
}

/// A node's name, and what its entries are.
type Shown = (NodeId, Vec<Seen>);

fn kind_of(entry: &KvEntry) -> Seen {
    match entry {
        Entry::Own(act) => Seen::Own(*act),
        Entry::Came(name, packet) => match &packet.content {
            Content::Synod(Message::Prepare { .. }) => Seen::Asked(*name),
            Content::Synod(Message::Promise { .. }) => Seen::Promised(*name),
            _ => Seen::Other,
        },
    }
}

fn kinds_of(alloc: Global, history: &KvHistory) -> Result<Vec<Seen>, Fault> {
    let mut all = Vec::new(alloc);
    for at in 0..history.len() {
        if let Some(entry) = history.get(at) {
            all.push(kind_of(entry))?;
        }
    }
    Ok(all)
}

fn entries_of(alloc: Global, node: StoreNode<Kv>) -> Result<Vec<Seen>, Fault> {
    let history = node.into_history();
    let entries = kinds_of(alloc, &history);
    give_back_history(history);
    entries
}

/// Shows nodes, the last one first.
fn apart(alloc: Global, nodes: &mut Vec<StoreNode<Kv>>) -> Result<Vec<Shown>, Fault> {
    let mut all = Vec::new(alloc);
    for _ in 0..nodes.len() {
        if let Some(node) = nodes.pop() {
            let id = node.id();
            all.push((id, entries_of(alloc, node)?))?;
        }
    }
    Ok(all)
}

/// Shows nodes, the last one first, and gives them back.
fn shown(alloc: Global, mut nodes: Vec<StoreNode<Kv>>) -> Result<Vec<Shown>, Fault> {
    let all = apart(alloc, &mut nodes);
    give_back_nodes(nodes);
    all
}

/// The first node asks the second one for a promise, and it comes.
fn ask(book: &mut KvBook) -> Result<(), Fault>
    ensures { book.new.config ≡ book.old.config }
{
    book.apply(&Event::At(FIRST_NODE, Act::Close))?;
    book.apply(&Event::At(FIRST_NODE, Act::Propose(0)))?;
    book.apply(&Event::Deliver(1))?;
    book.apply(&Event::Deliver(2))
}

/// The promise is the third packet that was sent, and the first one of its sender.
#[test]
fn two_nodes(rt: HostRuntime) -> Result<(), Fail> {
    let alloc = rt.alloc();
    let config = config(2)?;
    let second = vec![in alloc; Seen::Asked(name(FIRST_NODE, 1))]?;
    let first = vec![in alloc;
        Seen::Own(Act::Close),
        Seen::Own(Act::Propose(0)),
        Seen::Promised(name(SECOND_NODE, 0)),
    ]?;
    let wanted = vec![in alloc; (SECOND_NODE, second), (FIRST_NODE, first)]?;
    let mut book = KvBook::new(alloc, &config, Kv)?;
    let asked = ask(&mut book);
    let nodes = lock_nodes(alloc, &config, &Kv, &book);
    give_back(book);
    same(&rt, asked, Ok(()));
    same(&rt, shown(alloc, nodes?)?, wanted);
    Ok(())
}

fn new_node(alloc: Global, replica: u8, partition: u8) -> Shown {
    let id = NodeId { replica, partition };
    (id, Vec::new(alloc))
}

/// Nothing happened at two replicas of two partitions.
#[test]
fn four_new_nodes(rt: HostRuntime) -> Result<(), Fail> {
    let alloc = rt.alloc();
    let config = Config::new(2, 2)?;
    let wanted = vec![in alloc;
        new_node(alloc, 1, 1),
        new_node(alloc, 1, 0),
        new_node(alloc, 0, 1),
        new_node(alloc, 0, 0),
    ]?;
    let book = KvBook::new(alloc, &config, Kv)?;
    let nodes = lock_nodes(alloc, &config, &Kv, &book);
    give_back(book);
    same(&rt, shown(alloc, nodes?)?, wanted);
    Ok(())
}
