//! What a replica sends, as packets.
ghost use Rattle.std.specs.Prelude.{◌≡◌, ◌++◌, length, take, IsOk, IsOkUnless, OnOk, OnErr};
ghost use Rattle.calvin_synod.specs.Cases as cases;
ghost use Rattle.calvin_synod_group.specs.Groups.{packets_of};
ghost use Rattle.calvin_synod.specs.Deeds.{letters_of};

use crate::packet::Packet;
use calvin_synod::{Mail, Message};
use calvin_types::{Batch, Fault};

/// Sends what a replica has to send, in a group of this size. Refused with `OutOfMemory` where there was no room, or a
/// batch can have no more owners: then nothing is sent.
pub fn post<Args: Copy>(
    packets: &mut Vec<Packet<Batch<Args>>>,
    size: u8,
    from: u8,
    mail: Mail<Batch<Args>>,
) -> Result<(), Fault>
    ensures sent { OnOk result (packets.new.items ≡ packets.old.items ++ packets_of size from (letters_of mail)) }
    ensures err { OnErr result (packets.new.items ≡ packets.old.items) }
    ensures only { IsOkUnless result Fault.OutOfMemory }
    ensures succeeds { letters_of mail ≡ cases.Silent → IsOk result }
{
    match mail {
        Mail::Nothing => Ok(()),
        Mail::ToOne(to, message) => {
            packets.push(Packet { from, to, message })?;
            Ok(())
        }
        Mail::ToAll(message) => {
            let sent = packets.len();
            match post_to_all(packets, size, from, &message) {
                Ok(()) => Ok(()),
                Err(fault) => {
                    packets.truncate(sent);
                    Err(fault)
                }
            }
        }
    }
}

/// Sends one packet to each replica. Where it is refused, some may have been sent.
fn post_to_all<Args: Copy>(
    packets: &mut Vec<Packet<Batch<Args>>>,
    size: u8,
    from: u8,
    message: &Message<Batch<Args>>,
) -> Result<(), Fault>
    ensures sent { OnOk result (packets.new.items ≡ packets.old.items ++ packets_of size from (cases.ToAll message.now)) }
    ensures kept { take (length packets.old.items) packets.new.items ≡ packets.old.items }
    ensures only { IsOkUnless result Fault.OutOfMemory }
{
    for to in 0..size {
        let message = message.copy()?;
        packets.push(Packet { from, to, message })?;
    }
    Ok(())
}
