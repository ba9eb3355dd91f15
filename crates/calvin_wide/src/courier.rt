//! What couriers do.
use crate::board::Outgoing;
use crate::gate::{Inside, WideGate};
use crate::hall::Hall;
use calvin_app::App;
use calvin_lock::Locks;
use calvin_store::Rows;
use calvin_types::NodeId;
use calvin_wide_desk::{Letter, WideFounding};
use calvin_world::PacketName;
use crossbeam_channel::Receiver;
use std::sync::Wait;

/// So many letters a courier brings before what came of them is sent on.
const MOST_AT_ONCE: usize = 64;

/// Brings letters until the store has stopped.
pub(crate) fn carry<A, L, S, G, J, R>(
    rt: &R,
    hall: &Hall<A, L, S, G, J>,
    letters: &Receiver<(NodeId, Letter)>,
)
where
    A: App + Drop,
    L: Locks + Drop,
    S: Rows<A::Row> + Drop,
    G: WideGate<A, L, S>,
    J: WideFounding,
    R: Wait,
{
    for _ in rt.forever() {
        let Ok(first) = letters.recv(rt) else {
            return;
        };
        bring_some(rt, hall, letters, first);
    }
}

/// Brings a letter, and others that are there, and sends on what came of them.
fn bring_some<A, L, S, G, J, R>(
    rt: &R,
    hall: &Hall<A, L, S, G, J>,
    letters: &Receiver<(NodeId, Letter)>,
    first: (NodeId, Letter),
)
where
    A: App + Drop,
    L: Locks + Drop,
    S: Rows<A::Row> + Drop,
    G: WideGate<A, L, S>,
    J: WideFounding,
    R: Wait,
{
    let mut outgoing = hall.nothing();
    bring(rt, hall, first, &mut outgoing);
    let mut done = 1_usize;
    for _ in 1..MOST_AT_ONCE {
        let Ok(next) = letters.try_recv(rt) else {
            break;
        };
        bring(rt, hall, next, &mut outgoing);
        done = done.saturating_add(1);
    }
    hall.go_on(rt, &outgoing, done);
}

/// Brings a letter to its node.
fn bring<A, L, S, G, J, R>(
    rt: &R,
    hall: &Hall<A, L, S, G, J>,
    letter: (NodeId, Letter),
    outgoing: &mut Outgoing,
)
where
    A: App + Drop,
    L: Locks + Drop,
    S: Rows<A::Row> + Drop,
    G: WideGate<A, L, S>,
    J: WideFounding,
    R: Wait,
{
    match letter.1 {
        Letter::Packet(name) => deliver(rt, hall, letter.0, name, outgoing),
        Letter::Closed(epochs) => close_up_to(rt, hall, letter.0, epochs, outgoing),
    }
}

/// A packet comes to a node: it is copied where it was sent, under the lock of the node that sent it, and taken under that of the
/// other.
fn deliver<A, L, S, G, J, R>(
    rt: &R,
    hall: &Hall<A, L, S, G, J>,
    to: NodeId,
    name: PacketName,
    outgoing: &mut Outgoing,
)
where
    A: App + Drop,
    L: Locks + Drop,
    S: Rows<A::Row> + Drop,
    G: WideGate<A, L, S>,
    J: WideFounding,
    R: Wait,
{
    let Some(packet) = hall.packet(rt, name) else {
        return;
    };
    let Some(cell) = hall.cell(to) else {
        return;
    };
    let mut slot = cell.post.lock(rt);
    if let Some(post) = &mut *slot {
        post.deliver(name, packet, &Inside { gate: &hall.gate });
        hall.gather(cell, post, outgoing);
    }
}

/// A node is told that so many epochs were closed.
fn close_up_to<A, L, S, G, J, R>(
    rt: &R,
    hall: &Hall<A, L, S, G, J>,
    to: NodeId,
    epochs: u64,
    outgoing: &mut Outgoing,
)
where
    A: App + Drop,
    L: Locks + Drop,
    S: Rows<A::Row> + Drop,
    G: WideGate<A, L, S>,
    J: WideFounding,
    R: Wait,
{
    let Some(cell) = hall.cell(to) else {
        return;
    };
    let mut slot = cell.post.lock(rt);
    if let Some(post) = &mut *slot {
        post.close_up_to(epochs, &Inside { gate: &hall.gate });
        hall.gather(cell, post, outgoing);
    }
}
