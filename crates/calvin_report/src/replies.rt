//! The lines of replies.
ghost use Rattle.std.specs.Prelude.{◌≡◌, ◌++◌, OnOk, IfOk, IsOkUnless};
ghost use Rattle.std.specs.FinMap.{entries};
ghost use Rattle.calvin_report.specs.Replies.{replied, is_told, of_epochs, reply_lines};

use crate::notes::{first_replies, notes_of};
use calvin_app::{Answer, App};
use calvin_node_packets::Outbox;
use calvin_text::{Printed, push_line};
use calvin_types::{Fault, Place, RequestId};
use std::alloc::{AllocError, Global};

/// What was replied at each place, in the order of the places: the name of the request, and its answer.
pub type Replies<R> = Vec<(Place, (RequestId, Answer<R>))>;

/// The epochs whose replies are told.
#[derive(Clone, Copy, Debug, PartialEq, Eq)]
pub enum Epochs {
    /// All.
    All,
    /// Those up to this one, or none.
    UpTo(Option<u64>),
}

impl Epochs {
    /// Whether the replies of an epoch are told.
    pub fn has(self, epoch: u64) -> bool
        ensures { result ≡ is_told self epoch }
    {
        match self {
            Epochs::All => true,
            Epochs::UpTo(last) => last.is_some_and(|last| epoch <= last),
        }
    }
}

/// What was replied at each place in all these packets: where several replies were sent at a place, the first of them. Only these
/// are noted and sorted by their places, and copied. Refused with `OutOfMemory` where a growth was refused.
pub fn replies_of<A: App>(alloc: Global, packets: &Outbox<A>) -> Result<Replies<A::Reply>, Fault>
    ensures ok { IfOk result (λ replies. replies.items ≡ entries (replied packets.now.packets)) }
    ensures only { IsOkUnless result Fault.OutOfMemory }
{
    let mut notes = notes_of(alloc, packets)?;
    notes.sort_by_key(|note| note.0)?;
    first_replies(alloc, packets, notes.as_slice())
}

/// Adds a line for each place of the epochs at which something was replied, in the order of places.
pub fn push_replies<R: Printed + Copy>(
    text: &mut Vec<u8>,
    replies: &Replies<R>,
    epochs: Epochs,
) -> Result<(), AllocError>
    ensures { OnOk result (text.new.items ≡ text.old.items ++ reply_lines R.printed (of_epochs epochs replies.now.items)) }
{
    for (place, (id, answer)) in replies.iter() {
        if epochs.has(place.epoch) {
            push_line(text, *place, *id, answer)?;
        }
    }
    Ok(())
}
