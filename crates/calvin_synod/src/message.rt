//! What the replicas of a group tell one another.
ghost use Rattle.std.specs.Prelude.{◌≡◌, false, IfOk, IsOk, IsOkUnless};
ghost use Rattle.calvin_synod.specs.Cases.{has_batch, message_grows, slot_of};

use crate::vote::Vote;
use calvin_types::{Ballot, Batch, Fault, Slot};

/// A message about one slot ("Paxos Made Simple", section 2.2, phases 1a, 1b, 2a and 2b).
#[derive(Clone, Debug, Drop, PartialEq, Eq)]
pub enum Message<B> {
    /// Phase 1a: asks for a promise.
    Prepare {
        slot: Slot,
        ballot: Ballot,
    },
    /// Phase 1b: promises the ballot, and reports the vote of the greatest ballot cast before, if there is one.
    Promise {
        slot: Slot,
        ballot: Ballot,
        vote: Option<Vote<B>>,
    },
    /// Phase 2a: asks for a vote.
    Accept {
        slot: Slot,
        ballot: Ballot,
        batch: B,
    },
    /// A prepare or an accept isn't answered, since of this promise.
    Refused {
        slot: Slot,
        ballot: Ballot,
        promise: Ballot,
    },
    /// Phase 2b: a vote was cast.
    Accepted {
        slot: Slot,
        ballot: Ballot,
        batch: B,
    },
}

impl<Args: Copy> Message<Batch<Args>> {
    /// The slot that it is about.
    pub fn slot(&self) -> Slot
        ensures { result ≡ slot_of self.now }
    {
        match self {
            Message::Prepare { slot, .. }
            | Message::Promise { slot, .. }
            | Message::Accept { slot, .. }
            | Message::Refused { slot, .. }
            | Message::Accepted { slot, .. } => *slot,
        }
    }

    /// A copy, whose batch, if it has one, shares the memory. Refused with `OutOfMemory` where the batch can have no more
    /// owners.
    pub fn copy(&self) -> Result<Message<Batch<Args>>, Fault>
        ensures ok { IfOk result (λ m. m ≡ self.now) }
        ensures only { IsOkUnless result Fault.OutOfMemory }
        ensures succeeds { message_grows self.now ≡ false → IsOk result }
        ensures no_batch { has_batch self.now ≡ false → IsOk result }
    {
        Ok(self.clone()?)
    }
}
