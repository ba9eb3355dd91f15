//! The reply to a request, among what was sent.
ghost use Rattle.std.specs.Prelude.{◌≡◌, drop, slice_get};
ghost use Rattle.std.specs.Option.{option_and_then};
ghost use Rattle.calvin_book.specs.Replies as replies;

use calvin_app::{Answer, App};
use calvin_node_packets::Outbox;
use calvin_types::{Place, RequestId};

/// The first reply to a request among the packets from a number on.
pub fn first_reply<A: App>(
    id: RequestId,
    attempt: u8,
    packets: &Outbox<A>,
    from: usize,
) -> Option<(Place, Answer<A::Reply>)>
    ensures { result ≡ replies.first_reply id attempt (drop from packets.now.packets) }
{
    for i in from..packets.len() {
        let reply = reply_at(id, attempt, packets, i);
        if reply.is_some() {
            return reply;
        }
    }
    None
}

/// The place and the answer, where the packet of a number is a reply to the request.
pub fn reply_at<A: App>(
    id: RequestId,
    attempt: u8,
    packets: &Outbox<A>,
    number: usize,
) -> Option<(Place, Answer<A::Reply>)>
    ensures { result ≡ option_and_then (λ packet. replies.reply_in id attempt packet.content) (slice_get packets.now.packets number) }
{
    let (place, name, tried) = packets.reply(number)?;
    if name.client != id.client || name.number != id.number || tried != attempt {
        return None;
    }
    let answer = packets.answer(number)?;
    Some((place, answer))
}
