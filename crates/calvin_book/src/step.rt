//! An event without the request that it submits.
ghost use Rattle.std.specs.Prelude.{◌≡◌, List, Some};
ghost use Rattle.std.specs.Option.{option_copied};
ghost use Rattle.calvin_types.specs.declared.txn.Txn.{Txn};
ghost use Rattle.calvin_world.specs.declared.event.Event.TheVariants.{At};
ghost use Rattle.calvin_book.specs.Kept as kept;
ghost use Rattle.calvin_book.specs.Kept.{event_of, HasRequest};

use calvin_node::Act;
use calvin_types::{Key, NodeId, Place, Slot, Txn};
use calvin_world::Event;

/// An event, in which a number stands for the request that it submits, if it submits one.
#[derive(Clone, Copy)]
pub(crate) enum Step {
    Submit(NodeId, usize),
    SubmitCold(NodeId, usize),
    Cool(NodeId, Key),
    Close(NodeId),
    Merge(NodeId),
    Lock(NodeId),
    Restart(NodeId),
    Propose(NodeId, u64),
    Snapshot(NodeId, u64),
    Mark(NodeId, u64),
    Begin(NodeId, Place),
    Finish(NodeId, Place),
    AskForReads(NodeId, Place, u8),
    AskForBatch(NodeId, Slot, NodeId),
    Deliver(usize),
}

/// The request that an event submits, if it submits one.
pub(crate) fn request_of<Args>(event: &Event<Args>) -> Option<&Txn<Args>>
    ensures { option_copied result ≡ kept.request_of event.now }
{
    match event {
        Event::At(_, Act::Submit(txn)) => Some(txn),
        Event::At(_, Act::SubmitCold(txn)) => Some(txn),
        _ => None,
    }
}

/// An event's step, where the request that it submits, if it submits one, has this number.
pub(crate) fn step_of<Args>(event: &Event<Args>, number: usize) -> Step
    ensures { (txns : List (Txn Args)) → HasRequest txns number event.now → event_of txns result ≡ Some event.now }
{
    match event {
        Event::At(id, act) => step_at(*id, act, number),
        Event::Deliver(packet) => Step::Deliver(*packet),
    }
}

/// The step of a node's own event.
fn step_at<Args>(id: NodeId, act: &Act<Args>, number: usize) -> Step
    ensures { (txns : List (Txn Args)) → HasRequest txns number (At id act.now) → event_of txns result ≡ Some (At id act.now) }
{
    match act {
        Act::Submit(_) => Step::Submit(id, number),
        Act::SubmitCold(_) => Step::SubmitCold(id, number),
        Act::Cool(key) => Step::Cool(id, *key),
        Act::Close => Step::Close(id),
        Act::Merge => Step::Merge(id),
        Act::Lock => Step::Lock(id),
        Act::Restart => Step::Restart(id),
        Act::Propose(epoch) => Step::Propose(id, *epoch),
        Act::Snapshot(epoch) => Step::Snapshot(id, *epoch),
        Act::Mark(epoch) => Step::Mark(id, *epoch),
        Act::Begin(place) => Step::Begin(id, *place),
        Act::Finish(place) => Step::Finish(id, *place),
        Act::AskForReads(place, replica) => Step::AskForReads(id, *place, *replica),
        Act::AskForBatch(slot, other) => Step::AskForBatch(id, *slot, *other),
    }
}

/// The event of a step, with the requests by their numbers, if its request is there.
pub(crate) fn event_at<Args: Copy>(step: Step, txns: &[Txn<Args>]) -> Option<Event<Args>>
    ensures { result ≡ event_of txns.now step }
{
    let (id, act) = match step {
        Step::Submit(id, number) => (id, Act::Submit(*txns.get(number)?)),
        Step::SubmitCold(id, number) => (id, Act::SubmitCold(*txns.get(number)?)),
        Step::Cool(id, key) => (id, Act::Cool(key)),
        Step::Close(id) => (id, Act::Close),
        Step::Merge(id) => (id, Act::Merge),
        Step::Lock(id) => (id, Act::Lock),
        Step::Restart(id) => (id, Act::Restart),
        Step::Propose(id, epoch) => (id, Act::Propose(epoch)),
        Step::Snapshot(id, epoch) => (id, Act::Snapshot(epoch)),
        Step::Mark(id, epoch) => (id, Act::Mark(epoch)),
        Step::Begin(id, place) => (id, Act::Begin(place)),
        Step::Finish(id, place) => (id, Act::Finish(place)),
        Step::AskForReads(id, place, replica) => (id, Act::AskForReads(place, replica)),
        Step::AskForBatch(id, slot, other) => (id, Act::AskForBatch(slot, other)),
        Step::Deliver(number) => return Some(Event::Deliver(number)),
    };
    Some(Event::At(id, act))
}
