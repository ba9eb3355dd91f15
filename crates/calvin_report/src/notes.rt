//! The packets that reply, noted by their places.
ghost use Rattle.std.specs.Prelude.{◌≡◌, IfOk, IsOkUnless};
ghost use Rattle.std.specs.List.{All};
ghost use Rattle.std.specs.Option.{option_to_list};
ghost use Rattle.std.specs.FinMap.{entries, from_entries};
ghost use Rattle.calvin_types.specs.Places.{place_cmp};
ghost use Rattle.calvin_report.specs.Notes.{reply_at, noted, IsNote, AreApart, AreInOrder};
ghost use Rattle.calvin_report.specs.Replies.{replied};

use crate::replies::Replies;
use calvin_app::{Answer, App};
use calvin_node_packets::Outbox;
use calvin_types::{Fault, Place, RequestId};
use std::alloc::Global;
use std::collections::HashSet;

/// The packets of which each is the first to reply at its place, in the order in which they were sent: the place, and the
/// packet's number. Refused with `OutOfMemory` where a growth was refused.
pub(crate) fn notes_of<A: App>(
    alloc: Global,
    packets: &Outbox<A>,
) -> Result<Vec<(Place, usize)>, Fault>
    ensures first { IfOk result (λ notes. entries (from_entries {R = place_cmp} (noted packets.now.packets notes.items)) ≡ entries (replied packets.now.packets)) }
    ensures each { IfOk result (λ notes. All (IsNote packets.now.packets) notes.items) }
    ensures apart { IfOk result (λ notes. AreApart notes.items) }
    ensures only { IsOkUnless result Fault.OutOfMemory }
{
    let mut places = HashSet::new(alloc);
    let mut notes = Vec::new(alloc);
    for number in 0..packets.len() {
        let Some((place, _id, _attempt)) = packets.reply(number) else {
            continue;
        };
        let is_first = places.insert(place)?;
        if is_first {
            notes.push((place, number))?;
        }
    }
    Ok(notes)
}

/// What the packet of a number replies, if it does.
fn reply_of<A: App>(
    packets: &Outbox<A>,
    number: usize,
) -> Option<(Place, (RequestId, Answer<A::Reply>))>
    ensures { option_to_list result ≡ reply_at packets.now.packets number }
{
    let (place, id, _attempt) = packets.reply(number)?;
    let answer = packets.answer(number)?;
    Some((place, (id, answer)))
}

/// What is replied at each place by the packet that is noted there, in the order of the places. Refused with `OutOfMemory`
/// where a growth was refused.
pub(crate) fn first_replies<A: App>(
    alloc: Global,
    packets: &Outbox<A>,
    notes: &[(Place, usize)],
) -> Result<Replies<A::Reply>, Fault>
    requires each { All (IsNote packets.now.packets) notes.now }
    requires order { AreInOrder notes.now }
    ensures ok { IfOk result (λ replies. replies.items ≡ entries (from_entries {R = place_cmp} (noted packets.now.packets notes.now))) }
    ensures only { IsOkUnless result Fault.OutOfMemory }
{
    let mut replies = Vec::new(alloc);
    for i in 0..notes.len() {
        let (_place, number) = notes[i];
        let Some(reply) = reply_of(packets, number) else {
            continue;
        };
        replies.push(reply)?;
    }
    Ok(replies)
}
