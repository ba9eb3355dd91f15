//! How events are written.
ghost use Rattle.std.specs.Prelude.{◌≡◌, option_map};
ghost use Rattle.serde_json.specs.View.{view};
ghost use Rattle.calvin_script.specs.Numbers.{one_number};
ghost use Rattle.calvin_script.specs.Gives.{Gives};
ghost use Rattle.calvin_script_events.specs.EventForms.{node_of, place_of, slot_of, node, epoch, cooled, place, place_and_replica, slot_and_node, act_of, act_alone, act_named, submit, act_at, event_of, event};

use crate::event::{ListedAct, ListedEvent};
use calvin_script::{
    Kept, KeyForm, Operation, Spelled, WholeKey, epoch_of, one_number, u8_of, u32_of,
};
use calvin_types::{Fault, Key, NodeId, Place, Slot};
use serde_json::Value;
use std::alloc::Global;

#[tactic(auto, unfolding(crate::specs::EventForms::node_of))]
fn node_of(replica: &Value, partition: &Value) -> Option<NodeId>
    ensures { result ≡ node_of (view replica.now) (view partition.now) }
{
    let replica = u8_of(replica)?;
    let partition = u8_of(partition)?;
    Some(NodeId { replica, partition })
}

#[tactic(auto, unfolding(crate::specs::EventForms::place_of))]
fn place_of(epoch: &Value, n: &Value) -> Option<Place>
    ensures { result ≡ place_of (view epoch.now) (view n.now) }
{
    let epoch = epoch_of(epoch)?;
    let n = u32_of(n)?;
    Some(Place { epoch, n })
}

#[tactic(auto, unfolding(crate::specs::EventForms::slot_of))]
fn slot_of(epoch: &Value, group: &Value) -> Option<Slot>
    ensures { result ≡ slot_of (view epoch.now) (view group.now) }
{
    let epoch = epoch_of(epoch)?;
    let group = u8_of(group)?;
    Some(Slot { epoch, group })
}

/// The node that an event is at.
#[tactic(auto, unfolding(crate::specs::EventForms::node))]
fn node(value: &Value) -> Option<NodeId>
    ensures { result ≡ node (view value.now) }
{
    node_of(value.get(1)?, value.get(2)?)
}

/// The epoch of an event that has nothing else behind its node.
#[tactic(auto, unfolding(crate::specs::EventForms::epoch))]
fn epoch(value: &Value) -> Option<u64>
    ensures { result ≡ epoch (view value.now) }
{
    if value.get(4).is_some() {
        return None;
    }
    epoch_of(value.get(3)?)
}

/// The key of an event that has nothing else behind its node.
#[tactic(auto, unfolding(crate::specs::EventForms::cooled))]
fn cooled(value: &Value) -> Option<Key>
    ensures { result ≡ cooled (view value.now) }
{
    if value.get(4).is_some() {
        return None;
    }
    WholeKey::key_of(value.get(3)?)
}

/// The place of an event that has nothing else behind its node.
#[tactic(auto, unfolding(crate::specs::EventForms::place))]
fn place(value: &Value) -> Option<Place>
    ensures { result ≡ place (view value.now) }
{
    if value.get(5).is_some() {
        return None;
    }
    place_of(value.get(3)?, value.get(4)?)
}

/// The place for which reads are asked, and the replica that is asked.
#[tactic(auto, unfolding(crate::specs::EventForms::place_and_replica))]
fn place_and_replica(value: &Value) -> Option<(Place, u8)>
    ensures { result ≡ place_and_replica (view value.now) }
{
    if value.get(6).is_some() {
        return None;
    }
    let place = place_of(value.get(3)?, value.get(4)?)?;
    let replica = u8_of(value.get(5)?)?;
    Some((place, replica))
}

/// The slot of which the batch is asked, and the node that is asked.
#[tactic(auto, unfolding(crate::specs::EventForms::slot_and_node))]
fn slot_and_node(value: &Value) -> Option<(Slot, NodeId)>
    ensures { result ≡ slot_and_node (view value.now) }
{
    if value.get(7).is_some() {
        return None;
    }
    let slot = slot_of(value.get(3)?, value.get(4)?)?;
    let of = node_of(value.get(5)?, value.get(6)?)?;
    Some((slot, of))
}

/// The event that has nothing behind its node, by its name.
#[tactic(auto, unfolding(crate::specs::EventForms::act_alone))]
fn act_alone<Op: Operation>(name: &str, value: &Value) -> Option<ListedAct<Kept<Op>>>
    ensures { option_map act_of result ≡ act_alone name.now (view value.now) }
{
    if value.get(3).is_some() {
        return None;
    }
    if name == "close" {
        Some(ListedAct::Close)
    } else if name == "merge" {
        Some(ListedAct::Merge)
    } else if name == "lock" {
        Some(ListedAct::Lock)
    } else if name == "restart" {
        Some(ListedAct::Restart)
    } else {
        None
    }
}

/// The event of a node that has no request, by its name.
#[tactic(auto, unfolding(crate::specs::EventForms::act_named))]
fn act_named<Op: Operation>(name: &str, value: &Value) -> Option<ListedAct<Kept<Op>>>
    ensures { option_map act_of result ≡ act_named name.now (view value.now) }
{
    if name == "propose" {
        return Some(ListedAct::Propose(epoch(value)?));
    }
    if name == "snapshot" {
        return Some(ListedAct::Snapshot(epoch(value)?));
    }
    if name == "mark" {
        return Some(ListedAct::Mark(epoch(value)?));
    }
    if name == "cool" {
        return Some(ListedAct::Cool(cooled(value)?));
    }
    if name == "begin" {
        return Some(ListedAct::Begin(place(value)?));
    }
    if name == "finish" {
        return Some(ListedAct::Finish(place(value)?));
    }
    if name == "askreads" {
        let (place, replica) = place_and_replica(value)?;
        return Some(ListedAct::AskForReads(place, replica));
    }
    if name == "askbatch" {
        let (slot, of) = slot_and_node(value)?;
        return Some(ListedAct::AskForBatch(slot, of));
    }
    act_alone(name, value)
}

/// The request that is submitted.
#[tactic(auto, unfolding(crate::specs::EventForms::submit))]
fn submitted<Op: Operation>(alloc: Global, value: &Value) -> Result<Box<Kept<Op>>, Fault>
    ensures { Gives (λ r. r.value) result (submit Op.grammar (view value.now)) }
{
    if value.get(4).is_some() {
        return Err(Fault::BadScript);
    }
    let txn = value.get(3).ok_or(Fault::BadScript)?;
    let request = Kept::read(alloc, txn)?;
    let request = Box::new(alloc, request)?;
    Ok(request)
}

/// What happens at a node, by its name.
#[tactic(auto, unfolding(crate::specs::EventForms::act_at))]
fn act_at<Op: Operation>(
    alloc: Global,
    name: &str,
    value: &Value,
) -> Result<ListedAct<Kept<Op>>, Fault>
    ensures { Gives act_of result (act_at Op.grammar name.now (view value.now)) }
{
    if name == "submit" {
        let request = submitted(alloc, value)?;
        return Ok(ListedAct::Submit(request));
    }
    if name == "submitcold" {
        let request = submitted(alloc, value)?;
        return Ok(ListedAct::SubmitCold(request));
    }
    act_named(name, value).ok_or(Fault::BadScript)
}

/// The packet that is delivered, by its number.
fn delivered(value: &Value) -> Option<usize>
    ensures { result ≡ one_number (view value.now) }
{
    let number = one_number(value)?;
    Some(number as usize)
}

/// The event that a piece of JSON spells. Refused with `BadScript` where it spells none, and with `OutOfMemory`.
#[tactic(auto, unfolding(crate::specs::EventForms::event))]
fn event<Op: Operation>(alloc: Global, value: &Value) -> Result<ListedEvent<Kept<Op>>, Fault>
    ensures { Gives event_of result (event Op.grammar (view value.now)) }
{
    let name = value.get(0).ok_or(Fault::BadScript)?;
    let name = name.as_str().ok_or(Fault::BadScript)?;
    if name == "deliver" {
        let number = delivered(value).ok_or(Fault::BadScript)?;
        return Ok(ListedEvent::Deliver(number));
    }
    let id = node(value).ok_or(Fault::BadScript)?;
    let act = act_at(alloc, name, value)?;
    Ok(ListedEvent::At(id, act))
}

impl<Op: Operation> Spelled for ListedEvent<Kept<Op>> {
    ghost use Rattle.calvin_world.specs.declared.event.Event.{Event};
    ghost use Rattle.calvin_script_events.specs.EventForms.{event_of, event};

    ghost Meaning = { Event Op };

    ghost meaning = { event_of };

    ghost spelled = { event Op.grammar };

    fn push_json(
        alloc: Global,
        value: Value,
        found: &mut Vec<ListedEvent<Kept<Op>>>,
    ) -> Result<(), Fault> {
        let event = event(alloc, &value)?;
        found.push(event)?;
        Ok(())
    }
}
