//! Whether two messages of a synod are the same, with their batches.
ghost use Rattle.std.specs.Prelude.{◌≡◌, MatchBool};
ghost use Rattle.calvin_synod.specs.declared.message.Message.TheVariants.{Prepare, Promise, Accept, Refused, Accepted};

use calvin_app::App;
use calvin_synod::{Message, Vote};
use calvin_types::{Ballot, Batch, Slot};

/// Whether two messages are the same.
pub(crate) fn is_same_message<A: App>(
    one: &Message<Batch<A::Args>>,
    other: &Message<Batch<A::Args>>,
) -> bool
    ensures { MatchBool result (one.now ≡ other.now) (one.now ≡ other.now → ⊥) }
{
    match one {
        Message::Prepare { slot, ballot } => is_prepare::<A>(other, *slot, *ballot),
        Message::Promise { slot, ballot, vote } => is_promise::<A>(other, *slot, *ballot, vote),
        Message::Accept {
            slot,
            ballot,
            batch,
        } => is_accept::<A>(other, *slot, *ballot, batch),
        Message::Refused {
            slot,
            ballot,
            promise,
        } => is_refused::<A>(other, *slot, *ballot, *promise),
        Message::Accepted {
            slot,
            ballot,
            batch,
        } => is_accepted::<A>(other, *slot, *ballot, batch),
    }
}

/// Whether two batches have the same requests, in the same order.
pub(crate) fn is_same_batch<A: App>(one: &Batch<A::Args>, other: &Batch<A::Args>) -> bool
    ensures { MatchBool result (one.now ≡ other.now) (one.now ≡ other.now → ⊥) }
{
    *one == *other
}

/// Whether two votes are the same, or there is none of both.
fn is_same_vote<A: App>(
    one: &Option<Vote<Batch<A::Args>>>,
    other: &Option<Vote<Batch<A::Args>>>,
) -> bool
    ensures { MatchBool result (one.now ≡ other.now) (one.now ≡ other.now → ⊥) }
{
    match one {
        Some(vote) => match other {
            Some(cast) => {
                vote.ballot == cast.ballot && is_same_batch::<A>(&vote.batch, &cast.batch)
            }
            None => false,
        },
        None => other.is_none(),
    }
}

/// Whether it asks for a promise of this ballot.
fn is_prepare<A: App>(message: &Message<Batch<A::Args>>, slot: Slot, ballot: Ballot) -> bool
    ensures { MatchBool result (message.now ≡ Prepare slot ballot) (message.now ≡ Prepare slot ballot → ⊥) }
{
    match message {
        Message::Prepare {
            slot: at,
            ballot: by,
        } => { (*at, *by) == (slot, ballot) }
        _ => false,
    }
}

/// Whether it promises this ballot, with this vote.
fn is_promise<A: App>(
    message: &Message<Batch<A::Args>>,
    slot: Slot,
    ballot: Ballot,
    vote: &Option<Vote<Batch<A::Args>>>,
) -> bool
    ensures { MatchBool result (message.now ≡ Promise slot ballot vote.now) (message.now ≡ Promise slot ballot vote.now → ⊥) }
{
    match message {
        Message::Promise {
            slot: at,
            ballot: by,
            vote: own,
        } => { (*at, *by) == (slot, ballot) && is_same_vote::<A>(own, vote) }
        _ => false,
    }
}

/// Whether it asks for this vote.
fn is_accept<A: App>(
    message: &Message<Batch<A::Args>>,
    slot: Slot,
    ballot: Ballot,
    batch: &Batch<A::Args>,
) -> bool
    ensures { MatchBool result (message.now ≡ Accept slot ballot batch.now) (message.now ≡ Accept slot ballot batch.now → ⊥) }
{
    match message {
        Message::Accept {
            slot: at,
            ballot: by,
            batch: own,
        } => { (*at, *by) == (slot, ballot) && is_same_batch::<A>(own, batch) }
        _ => false,
    }
}

/// Whether it says that a ballot isn't answered since of this promise.
fn is_refused<A: App>(
    message: &Message<Batch<A::Args>>,
    slot: Slot,
    ballot: Ballot,
    promise: Ballot,
) -> bool
    ensures { MatchBool result (message.now ≡ Refused slot ballot promise) (message.now ≡ Refused slot ballot promise → ⊥) }
{
    match message {
        Message::Refused {
            slot: at,
            ballot: by,
            promise: own,
        } => { (*at, *by, *own) == (slot, ballot, promise) }
        _ => false,
    }
}

/// Whether it tells of this vote.
fn is_accepted<A: App>(
    message: &Message<Batch<A::Args>>,
    slot: Slot,
    ballot: Ballot,
    batch: &Batch<A::Args>,
) -> bool
    ensures { MatchBool result (message.now ≡ Accepted slot ballot batch.now) (message.now ≡ Accepted slot ballot batch.now → ⊥) }
{
    match message {
        Message::Accepted {
            slot: at,
            ballot: by,
            batch: own,
        } => { (*at, *by) == (slot, ballot) && is_same_batch::<A>(own, batch) }
        _ => false,
    }
}
