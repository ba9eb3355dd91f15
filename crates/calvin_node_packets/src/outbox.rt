//! What a node sends.
ghost use Rattle.std.specs.Prelude.{◌≡◌, ◌+◌, ◌-◌, ◌<◌, ◌≤◌, ◌++◌, [], ◌∷◌, false, true, length, take, Some, None, slice_get, slice_set, IfOk, IsOk, IsOkUnless, OnOk, OnErr, MatchOption};
ghost use Rattle.std.specs.Option.{ForSome, option_map, option_and_then};
ghost use Rattle.calvin_node_packets.specs.Packets.{CanBePut, IsLent, answered, replied, tells_batch};
ghost use Rattle.calvin_node_packets.specs.Sendings.{content_of};
ghost use Rattle.calvin_node_packets.specs.declared.packet.Content.TheVariants.{Reads, Replies};
ghost use Rattle.calvin_node_packets.specs.declared.packet.Packet.{Packet};

use crate::keeping::{cut, is_plain, listed, put_in, sent_of, store, taken_out};
use crate::kept::{Kept, KeptContent};
use crate::packet::{Address, Packet};
use crate::sent::Sent;
use calvin_app::{Answer, App};
use calvin_row_list::RowList;
use calvin_types::{Fault, NodeId, Place, RequestId, Sets};
use calvin_view_list::ViewList;
use std::alloc::Global;
use std::marker::Model;
use std::mem;

/// Packets in the order in which they are sent. A call that sends appends to those that are there; where it is refused they
/// are as before. A packet takes no more room than what it says needs.
#[derive(Drop)]
pub struct Outbox<A: App> {
    kept: Vec<Kept<A::Args>>,
    rows: ViewList<A::Row>,
    sets: Vec<Sets>,
    answers: Vec<Answer<A::Reply>>,
}

impl<A: App> Model for Outbox<A> {
    ghost use Rattle.std.specs.Coded.{codes};
    ghost use Rattle.std.specs.FinMap.{code};
    ghost use Rattle.std.specs.Prelude.{◌-◌, length, map, min, vec_len, vec_capacity};
    ghost use Rattle.calvin_node_packets.specs.Keeping.{AreKept, counts, none, restored};
    ghost use Rattle.calvin_node_packets.specs.Packets.{Outgoing};

    ghost Value = { Outgoing A.Args A.Row A.Reply };

    ghost coded = { Prim.hlevel (codes, code) };

    ghost view = { λ o. record {
      packets = map (restored (record { rows = o.rows.views; sets = o.sets.items; answers = o.answers.items })) o.kept.items;
      room = min (min (vec_capacity o.kept - vec_len o.kept) o.rows.room) (min (vec_capacity o.sets - vec_len o.sets) (vec_capacity o.answers - vec_len o.answers));
    } };

    ghost invariant = { λ o. AreKept o.kept.items none (counts (record { rows = o.rows.views; sets = o.sets.items; answers = o.answers.items })) };
}

impl<A: App> Outbox<A> {
    /// Nothing is sent, and there is room for no packet.
    pub fn new(alloc: Global) -> Outbox<A>
        ensures { result ≡ record { packets = []; room = 0 } }
    {
        Outbox {
            kept: Vec::new(alloc),
            rows: ViewList::new(alloc),
            sets: Vec::new(alloc),
            answers: Vec::new(alloc),
        }
    }

    /// How many packets there are.
    pub fn len(&self) -> usize
        ensures { result ≡ length self.now.packets }
    {
        self.kept.len()
    }

    /// The sender of the packet of a number: it is below `len()`.
    pub fn sender(&self, number: usize) -> NodeId
        requires { number < length self.now.packets }
        ensures { option_map (λ packet. packet.from) (slice_get self.now.packets number) ≡ Some result }
    {
        self.kept[number].from
    }

    /// Whom the packet of a number is for, if there is one.
    pub fn address(&self, number: usize) -> Option<Address>
        ensures { result ≡ option_map (λ packet. packet.to) (slice_get self.now.packets number) }
    {
        match self.kept.get(number) {
            Some(kept) => Some(kept.to),
            None => None,
        }
    }

    /// What the packet of a number says, if there is one.
    pub fn sent(&self, number: usize) -> Option<Sent<'_, A::Args, A::Row, A::Reply>>
        ensures { option_map content_of result ≡ option_map (λ packet. packet.content) (slice_get self.now.packets number) }
    {
        match self.kept.get(number) {
            Some(kept) => Some(sent_of::<A>(
                &kept.content,
                &self.rows,
                self.sets.as_slice(),
                self.answers.as_slice(),
            )),
            None => None,
        }
    }

    /// The place, the name and the attempt of the request that the packet of a number replies to, if it does.
    pub fn reply(&self, number: usize) -> Option<(Place, RequestId, u8)>
        ensures { result ≡ option_and_then (λ packet. replied packet.content) (slice_get self.now.packets number) }
    {
        match &self.kept.get(number)?.content {
            KeptContent::Replies(place, id, attempt, _) => Some((*place, *id, *attempt)),
            _ => None,
        }
    }

    /// The answer of the packet of a number, if it is a reply.
    pub fn answer(&self, number: usize) -> Option<Answer<A::Reply>>
        ensures { result ≡ option_and_then (λ packet. answered packet.content) (slice_get self.now.packets number) }
    {
        match &self.kept.get(number)?.content {
            KeptContent::Replies(_, _, _, at) => Some(self.answers[*at]),
            _ => None,
        }
    }

    /// A copy of the packet of a number, if there is one. Refused with `OutOfMemory` where its batch can have no more owners.
    pub fn copy(&self, number: usize) -> Result<Option<Packet<A::Args, A::Row, A::Reply>>, Fault>
        ensures ok { IfOk result (λ packet. packet ≡ slice_get self.now.packets number) }
        ensures only { IsOkUnless result Fault.OutOfMemory }
        ensures succeeds { ForSome (slice_get self.now.packets number) (λ packet. tells_batch packet.content ≡ false) → IsOk result }
    {
        let Some(kept) = self.kept.get(number) else {
            return Ok(None);
        };
        let sent = sent_of::<A>(
            &kept.content,
            &self.rows,
            self.sets.as_slice(),
            self.answers.as_slice(),
        );
        let content = sent.copy()?;
        Ok(Some(Packet {
            from: kept.from,
            to: kept.to,
            content,
        }))
    }

    /// Takes the packet of a number out, for who handles it: until it is put back another one stands in its place, unless it
    /// has rows, sets or an answer. There is none where no packet has the number, and then nothing changed.
    pub fn lend(&mut self, number: usize) -> Option<Packet<A::Args, A::Row, A::Reply>>
        ensures { MatchOption result ((slice_get self.old.packets number ≡ None) × (self.new.packets ≡ self.old.packets)) (IsLent self.old.packets self.new.packets number) }
    {
        if number >= self.kept.len() {
            return None;
        }
        let from = self.kept[number].from;
        let to = self.kept[number].to;
        let kept = &self.kept[number].content;
        if !is_plain(kept) {
            let sets = self.sets.as_slice();
            let answers = self.answers.as_slice();
            let content = listed::<A>(kept, &self.rows, sets, answers);
            return Some(Packet { from, to, content });
        }
        let first = Place { epoch: 0, n: 0 };
        let lent = mem::replace(&mut self.kept[number].content, KeptContent::AskReads(first));
        let content = taken_out(lent);
        Some(Packet { from, to, content })
    }

    /// Puts a packet that was taken out in the place of its number. A packet stands there: one that has neither rows nor sets nor
    /// an answer, if this one has none, and else this very one.
    pub fn put_back(&mut self, number: usize, packet: Packet<A::Args, A::Row, A::Reply>)
        requires { CanBePut self.old.packets number packet }
        ensures { self.new.packets ≡ slice_set self.old.packets number packet }
    {
        let Packet { from, to, content } = packet;
        if let Some(content) = put_in(content) {
            let other = mem::replace(&mut self.kept[number], Kept { from, to, content });
            drop(other);
        }
    }

    /// Makes room for so many more packets. Refused with `OutOfMemory` where a growth was refused.
    pub fn reserve(&mut self, packets: usize) -> Result<(), Fault>
        ensures ok { OnOk result (packets ≤ self.new.room) }
        ensures packets { self.new.packets ≡ self.old.packets }
        ensures room { self.old.room ≤ self.new.room }
        ensures only { IsOkUnless result Fault.OutOfMemory }
        ensures succeeds { packets ≤ self.old.room → IsOk result }
    {
        self.kept.reserve(packets)?;
        self.rows.reserve(packets)?;
        self.sets.reserve(packets)?;
        self.answers.reserve(packets)?;
        Ok(())
    }

    /// One packet more. Refused with `OutOfMemory` where there is no room and a growth was refused: the packet is given up.
    pub fn push(&mut self, packet: Packet<A::Args, A::Row, A::Reply>) -> Result<(), Fault>
        ensures ok { OnOk result (self.new.packets ≡ self.old.packets ++ packet ∷ []) }
        ensures room { self.old.room ≤ self.new.room + 1 }
        ensures err { OnErr result (self.new.packets ≡ self.old.packets) }
        ensures only { IsOkUnless result Fault.OutOfMemory }
        ensures succeeds { 0 < self.old.room → IsOk result }
    {
        self.reserve(1)?;
        self.push_reserved(packet);
        Ok(())
    }

    /// One packet more, for which there is room.
    pub fn push_reserved(&mut self, packet: Packet<A::Args, A::Row, A::Reply>)
        requires { 0 < self.old.room }
        ensures packets { self.new.packets ≡ self.old.packets ++ packet ∷ [] }
        ensures room { self.old.room ≤ self.new.room + 1 }
    {
        let Packet { from, to, content } = packet;
        let content = store::<A>(&mut self.rows, &mut self.sets, &mut self.answers, content);
        self.kept.push_reserved(Kept { from, to, content });
    }

    /// One packet more, with the rows of a list, which were read for the request at a place. There is room. No `Content` is made
    /// of them.
    pub(crate) fn push_rows(
        &mut self,
        from: NodeId,
        to: Address,
        place: Place,
        rows: &RowList<A::Row>,
    )
        requires { 0 < self.old.room }
        ensures packets { self.new.packets ≡ self.old.packets ++ record { from = from; to = to; content = Reads place rows.now.rows } ∷ [] }
        ensures room { self.old.room ≤ self.new.room + 1 }
    {
        let number = self.rows.len();
        self.rows.push_listed(rows);
        let content = KeptContent::Reads(place, number);
        self.kept.push_reserved(Kept { from, to, content });
    }

    /// One packet more, which replies to the attempt of a request that was run at a place. There is room. No `Content` is made of
    /// the answer.
    pub fn push_answer(
        &mut self,
        from: NodeId,
        to: Address,
        place: Place,
        id: RequestId,
        attempt: u8,
        answer: Answer<A::Reply>,
    )
        requires { 0 < self.old.room }
        ensures packets { self.new.packets ≡ self.old.packets ++ record { from = from; to = to; content = Replies place id attempt answer } ∷ [] }
        ensures room { self.old.room ≤ self.new.room + 1 }
    {
        let number = self.answers.len();
        self.answers.push_reserved(answer);
        let content = KeptContent::Replies(place, id, attempt, number);
        self.kept.push_reserved(Kept { from, to, content });
    }

    /// Takes the last packet back, if there is one.
    fn drop_last(&mut self)
        ensures packets { self.new.packets ≡ take (length self.old.packets - 1) self.old.packets }
        ensures room { self.old.room ≤ self.new.room }
    {
        let Some(last) = self.kept.pop() else {
            return;
        };
        cut::<A>(
            &mut self.rows,
            &mut self.sets,
            &mut self.answers,
            &last.content,
        );
        drop(last);
    }

    /// Takes back what was sent after the first so many packets, of which there are at least so many.
    pub fn take_back(&mut self, first: usize)
        requires { first ≤ length self.old.packets }
        ensures packets { self.new.packets ≡ take first self.old.packets }
        ensures room { self.old.room ≤ self.new.room }
    {
        while self.kept.len() > first {
            self.drop_last();
        }
    }
}
