//! The messages of a group's synods about epoch 0. There is one partition, so a node is named by its replica.
use crate::checks::same;
use crate::events::{KvWorld, node};
use calvin_app::KvRequest;
use calvin_lock::Locks;
use calvin_node_packets::{Address, Sent};
use calvin_synod::Message;
use calvin_types::{Ballot, Batch, Slot};
use std::process::Abort;

/// The slot of the messages.
pub(crate) const SLOT: Slot = Slot { epoch: 0, group: 0 };

type Letter = Message<Batch<KvRequest>>;

/// The ballot of a round and a replica.
fn at(round: u32, replica: u8) -> Ballot {
    Ballot { round, replica }
}

/// A prepare of a ballot.
pub(crate) fn prepare(round: u32, replica: u8) -> Letter {
    Message::Prepare {
        slot: SLOT,
        ballot: at(round, replica),
    }
}

/// A promise of a ballot, which reports no vote.
pub(crate) fn promise(round: u32, replica: u8) -> Letter {
    Message::Promise {
        slot: SLOT,
        ballot: at(round, replica),
        vote: None,
    }
}

/// A refusal of a replica's ballot of round 1, for a promise of that round.
pub(crate) fn refused(replica: u8, promised: u8) -> Letter {
    Message::Refused {
        slot: SLOT,
        ballot: at(1, replica),
        promise: at(1, promised),
    }
}

/// A vote for a batch in a replica's ballot of round 1.
pub(crate) fn accepted(replica: u8, batch: Batch<KvRequest>) -> Letter {
    Message::Accepted {
        slot: SLOT,
        ballot: at(1, replica),
        batch,
    }
}

/// Whether the packet of a number is this message, from one replica to another.
fn is_letter<L: Locks + Drop>(
    world: &KvWorld<L>,
    number: usize,
    from: u8,
    to: u8,
    letter: &Letter,
) -> bool {
    let packets = world.packets();
    let is_said = match packets.sent(number) {
        Some(Sent::Synod(said)) => said == letter,
        _ => false,
    };
    is_said
        && number < packets.len()
        && packets.sender(number) == node(from, 0)
        && packets.address(number) == Some(Address::AtNode(node(to, 0)))
}

/// The packet of this number is this message, from one replica to another.
pub(crate) fn check_letter<L: Locks + Drop>(
    rt: &impl Abort,
    world: &KvWorld<L>,
    number: usize,
    from: u8,
    to: u8,
    letter: Letter,
) {
    let is_sent = is_letter(world, number, from, to, &letter);
    same(rt, (number, is_sent), (number, true));
}

/// The packets from this number on are this message, from one replica to each of three.
pub(crate) fn check_letters<L: Locks + Drop>(
    rt: &impl Abort,
    world: &KvWorld<L>,
    first: usize,
    from: u8,
    letter: Letter,
) {
    for to in 0..3 {
        let number = first.saturating_add(usize::from(to));
        let is_sent = is_letter(world, number, from, to, &letter);
        same(rt, (number, is_sent), (number, true));
    }
}
