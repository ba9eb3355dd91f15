//! Nodes with their histories, which hand packets to one another by name.
use crate::checks::same;
use crate::giving_back::give_back_node;
use crate::made::{FIRST_NODE, KvPacket, SECOND_NODE, config, name, prepare, promise};
use calvin_app::Kv;
use calvin_histories::StoreNode;
use calvin_node::Act;
use calvin_types::Fault;
use calvin_world::PacketName;
use std::process::Abort;
use std::test::Fail;

/// Why a packet isn't taken, if it isn't.
fn refused(node: &mut StoreNode<Kv>, name: PacketName, packet: KvPacket) -> Option<Fault> {
    match node.receive(name, packet) {
        Ok(()) => None,
        Err((fault, _packet)) => Some(fault),
    }
}

/// One node asks the other one for a promise. What is refused is no entry.
fn check_promised(
    rt: &impl Abort,
    first: &mut StoreNode<Kv>,
    second: &mut StoreNode<Kv>,
) -> Result<(), Fault> {
    same(rt, (first.id(), second.id()), (FIRST_NODE, SECOND_NODE));
    same(
        rt,
        refused(first, name(SECOND_NODE, 0), promise()),
        Some(Fault::NotCurrent),
    );
    same(rt, first.act(&Act::Propose(0), &Kv), Err(Fault::NotClosed));
    same(rt, first.len(), 0);
    first.act(&Act::Close, &Kv)?;
    first.act(&Act::Propose(0), &Kv)?;
    same(rt, (first.len(), first.sent().len()), (2, 2));
    same(rt, refused(second, name(FIRST_NODE, 1), prepare()), None);
    same(rt, (second.len(), second.sent().len()), (1, 1));
    same(
        rt,
        refused(second, name(SECOND_NODE, 0), promise()),
        Some(Fault::NotMine),
    );
    same(rt, refused(first, name(SECOND_NODE, 0), promise()), None);
    same(rt, (first.len(), first.sent().len()), (3, 2));
    Ok(())
}

#[test]
fn promised(rt: HostRuntime) -> Result<(), Fail> {
    let config = config(2)?;
    let mut first = StoreNode::new(rt.alloc(), &config, FIRST_NODE);
    let mut second = StoreNode::new(rt.alloc(), &config, SECOND_NODE);
    let ended = check_promised(&rt, &mut first, &mut second);
    give_back_node(first);
    give_back_node(second);
    Ok(ended?)
}
