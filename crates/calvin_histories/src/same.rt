//! Whether two packets are the same.
ghost use Rattle.std.specs.Prelude.{◌≡◌, MatchBool, Some, slice_get};
ghost use Rattle.calvin_node_packets.specs.Sendings.{content_of};
ghost use Rattle.calvin_node_packets.specs.declared.packet.Content.TheVariants.{Synod, Decided, AskBatch, Reads, AskReads, Warm, Replies};

use crate::same_message::{is_same_batch, is_same_message};
use crate::same_values::{is_same_answer, is_same_sets, is_same_view};
use calvin_app::{Answer, App, View};
use calvin_node_packets::{Address, Content, Outbox, Packet, Sent};
use calvin_synod::Message;
use calvin_types::{Batch, Place, RequestId, Sets, Slot};

/// Whether the packet of a number is this one: it is from the same sender, for the same receiver, and says the same.
pub(crate) fn is_packet_at<A: App>(
    packets: &Outbox<A>,
    number: usize,
    packet: &Packet<A::Args, A::Row, A::Reply>,
) -> bool
    ensures { MatchBool result (slice_get packets.now.packets number ≡ Some packet.now) (slice_get packets.now.packets number ≡ Some packet.now → ⊥) }
{
    let Some(to) = packets.address(number) else {
        return false;
    };
    if packets.sender(number) != packet.from {
        return false;
    }
    if !is_same_address(to, packet.to) {
        return false;
    }
    let Some(sent) = packets.sent(number) else {
        return false;
    };
    is_same_content::<A>(&sent, &packet.content)
}

/// Whether two addresses are of one receiver.
fn is_same_address(one: Address, other: Address) -> bool
    ensures { MatchBool result (one ≡ other) (one ≡ other → ⊥) }
{
    match one {
        Address::AtNode(id) => match other {
            Address::AtNode(node) => id == node,
            Address::AtClient(_) => false,
        },
        Address::AtClient(client) => match other {
            Address::AtNode(_) => false,
            Address::AtClient(number) => client == number,
        },
    }
}

/// Whether two packets say the same.
fn is_same_content<A: App>(
    sent: &Sent<'_, A::Args, A::Row, A::Reply>,
    other: &Content<A::Args, A::Row, A::Reply>,
) -> bool
    ensures { MatchBool result (content_of sent.now ≡ other.now) (content_of sent.now ≡ other.now → ⊥) }
{
    match sent {
        Sent::Synod(message) => is_synod::<A>(other, message),
        Sent::Decided(slot, batch) => is_decided::<A>(other, *slot, batch),
        Sent::AskBatch(slot) => is_ask_batch::<A>(other, *slot),
        Sent::Reads(place, rows) => is_reads::<A>(other, *place, rows),
        Sent::AskReads(place) => is_ask_reads::<A>(other, *place),
        Sent::Warm(sets) => is_warm::<A>(other, sets),
        Sent::Replies(place, id, attempt, answer) => {
            is_reply::<A>(other, *place, *id, *attempt, answer)
        }
    }
}

/// Whether it is this message of a synod.
fn is_synod<A: App>(
    content: &Content<A::Args, A::Row, A::Reply>,
    message: &Message<Batch<A::Args>>,
) -> bool
    ensures { MatchBool result (content.now ≡ Synod message.now) (content.now ≡ Synod message.now → ⊥) }
{
    match content {
        Content::Synod(own) => is_same_message::<A>(own, message),
        _ => false,
    }
}

/// Whether it tells this batch of this slot.
fn is_decided<A: App>(
    content: &Content<A::Args, A::Row, A::Reply>,
    slot: Slot,
    batch: &Batch<A::Args>,
) -> bool
    ensures { MatchBool result (content.now ≡ Decided slot batch.now) (content.now ≡ Decided slot batch.now → ⊥) }
{
    match content {
        Content::Decided(at, own) => *at == slot && is_same_batch::<A>(own, batch),
        _ => false,
    }
}

/// Whether it asks for the batch of this slot.
fn is_ask_batch<A: App>(content: &Content<A::Args, A::Row, A::Reply>, slot: Slot) -> bool
    ensures { MatchBool result (content.now ≡ AskBatch slot) (content.now ≡ AskBatch slot → ⊥) }
{
    match content {
        Content::AskBatch(at) => *at == slot,
        _ => false,
    }
}

/// Whether it has these rows for this place.
fn is_reads<A: App>(
    content: &Content<A::Args, A::Row, A::Reply>,
    place: Place,
    rows: &View<A::Row>,
) -> bool
    ensures { MatchBool result (content.now ≡ Reads place rows.now) (content.now ≡ Reads place rows.now → ⊥) }
{
    match content {
        Content::Reads(at, own) => *at == place && is_same_view::<A>(own, rows),
        _ => false,
    }
}

/// Whether it asks for the rows of this place.
fn is_ask_reads<A: App>(content: &Content<A::Args, A::Row, A::Reply>, place: Place) -> bool
    ensures { MatchBool result (content.now ≡ AskReads place) (content.now ≡ AskReads place → ⊥) }
{
    match content {
        Content::AskReads(at) => *at == place,
        _ => false,
    }
}

/// Whether it wants the rows of these keys in memory.
fn is_warm<A: App>(content: &Content<A::Args, A::Row, A::Reply>, sets: &Sets) -> bool
    ensures { MatchBool result (content.now ≡ Warm sets.now) (content.now ≡ Warm sets.now → ⊥) }
{
    match content {
        Content::Warm(own) => is_same_sets(own, sets),
        _ => false,
    }
}

/// Whether it is this reply.
fn is_reply<A: App>(
    content: &Content<A::Args, A::Row, A::Reply>,
    place: Place,
    id: RequestId,
    attempt: u8,
    answer: &Answer<A::Reply>,
) -> bool
    ensures { MatchBool result (content.now ≡ Replies place id attempt answer.now) (content.now ≡ Replies place id attempt answer.now → ⊥) }
{
    match content {
        Content::Replies(at, name, tried, own) => {
            (*at, *name, *tried) == (place, id, attempt) && is_same_answer::<A>(own, answer)
        }
        _ => false,
    }
}
