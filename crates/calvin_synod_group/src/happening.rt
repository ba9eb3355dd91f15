//! What an event makes of the replicas of a group, and of its packets.
ghost use Rattle.std.specs.Prelude.{List, Ok, true, false};
ghost use Rattle.calvin_types.specs.declared.txn.Txn.{Txn};
ghost use Rattle.calvin_synod.specs.Cases as cases;
ghost use Rattle.calvin_synod_group.specs.declared.packet.Packet.{Packet};
ghost use Rattle.calvin_synod_group.specs.declared.event.GroupEvent.TheVariants.{Propose, Deliver, Restart};
ghost use Rattle.calvin_synod_group.specs.Groups.{Step};
ghost use Rattle.calvin_synod.specs.Cases.{message_grows};
ghost use Rattle.calvin_synod.specs.Deeds.{Sends, Did};
ghost use Rattle.calvin_synod_group.specs.Deeds.{IsGroup, group_of, ended, Posted};

use crate::packet::Packet;
use crate::sending::post;
use calvin_synod::{Given, Mail, Member, Message};
use calvin_types::{Batch, Fault, Slot};

/// A replica begins a new ballot for a slot, with a batch to propose. Refused with `NoNode` where there is no such
/// replica, else with `RoundsSpent` where there is no greater round, else with `OutOfMemory`.
pub fn propose<Args: Copy>(
    members: &mut [Member<Args>],
    packets: &mut Vec<Packet<Batch<Args>>>,
    size: u8,
    replica: u8,
    slot: Slot,
    batch: &Batch<Args>,
) -> Result<Given<Batch<Args>>, Fault>
    requires { IsGroup size members.old }
    ensures step { Step (group_of members.old packets.old.items) (Propose replica slot batch.now) (ended result) (group_of members.new packets.new.items) }
    ensures same { IsGroup size members.new }
{
    let at = replica as usize;
    if at >= members.len() {
        return Err(Fault::NoNode);
    }
    let mail = members[at].prepare_to_all(slot)?;
    let batch = batch.copy()?;
    post_and_propose(&mut members[at], packets, size, replica, mail, slot, batch)
}

/// The packet of a number reaches the replica that it is for, and stays. Refused with `NoPacket` where there is no such
/// packet, else with `NoNode` where there is no such replica, else with the message's own refusal, else with
/// `OutOfMemory`.
pub fn deliver<Args: Copy>(
    members: &mut [Member<Args>],
    packets: &mut Vec<Packet<Batch<Args>>>,
    size: u8,
    number: usize,
) -> Result<Given<Batch<Args>>, Fault>
    requires { IsGroup size members.old }
    ensures step { Step (group_of members.old packets.old.items) (Deliver number) (ended result) (group_of members.new packets.new.items) }
    ensures same { IsGroup size members.new }
{
    let Some(packet) = packets.get(number) else {
        return Err(Fault::NoPacket);
    };
    let to = packet.to;
    let from = packet.from;
    let at = to as usize;
    if at >= members.len() {
        return Err(Fault::NoNode);
    }
    let mail = members[at].answer(from, &packet.message)?;
    let message = packet.message.copy()?;
    post_and_take(&mut members[at], packets, size, to, mail, from, message)
}

/// A replica restarts. Refused with `NoNode` where there is no such replica.
pub fn restart<Args: Copy>(
    members: &mut [Member<Args>],
    size: u8,
    replica: u8,
) -> Result<Given<Batch<Args>>, Fault>
    requires { IsGroup size members.old }
    ensures step { (packets : List (Packet (List (Txn Args)))) → Step (group_of members.old packets) (Restart replica) (ended result) (group_of members.new packets) }
    ensures same { IsGroup size members.new }
{
    let at = replica as usize;
    if at >= members.len() {
        return Err(Fault::NoNode);
    }
    members[at].restart();
    Ok(None)
}

/// Sends what a replica sends where it begins a new ballot, and lets it begin it. Refused with `OutOfMemory` where a
/// growth was refused or a batch can have no more owners: then nothing is sent.
fn post_and_propose<Args: Copy>(
    member: &mut Member<Args>,
    packets: &mut Vec<Packet<Batch<Args>>>,
    size: u8,
    replica: u8,
    mail: Mail<Batch<Args>>,
    slot: Slot,
    batch: Batch<Args>,
) -> Result<Given<Batch<Args>>, Fault>
    requires { Sends false (Ok mail) (cases.propose member.old.me slot batch member.old.replica) }
    ensures did { Did true result (cases.propose member.old.me slot batch member.old.replica) member.old member.new }
    ensures posted { Posted packets.old.items size replica mail result packets.new.items }
{
    let sent = packets.len();
    post(packets, size, replica, mail)?;
    match member.propose(slot, batch) {
        Ok(given) => Ok(given),
        Err(fault) => {
            packets.truncate(sent);
            Err(fault)
        }
    }
}

/// Sends what a replica sends where it takes a message, and lets it take it. Refused with `OutOfMemory` where a growth
/// was refused or a batch can have no more owners: then nothing is sent.
fn post_and_take<Args: Copy>(
    member: &mut Member<Args>,
    packets: &mut Vec<Packet<Batch<Args>>>,
    size: u8,
    replica: u8,
    mail: Mail<Batch<Args>>,
    from: u8,
    message: Message<Batch<Args>>,
) -> Result<Given<Batch<Args>>, Fault>
    requires { Sends (message_grows message) (Ok mail) (cases.handle member.old.size from message member.old.replica) }
    ensures did { Did (message_grows message) result (cases.handle member.old.size from message member.old.replica) member.old member.new }
    ensures posted { Posted packets.old.items size replica mail result packets.new.items }
{
    let sent = packets.len();
    post(packets, size, replica, mail)?;
    match member.take(from, message) {
        Ok(given) => Ok(given),
        Err(fault) => {
            packets.truncate(sent);
            Err(fault)
        }
    }
}
