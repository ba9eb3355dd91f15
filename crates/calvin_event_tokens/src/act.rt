//! What happens at a node, read from tokens.
ghost use Rattle.std.specs.Prelude.{IfSome};
ghost use Rattle.calvin_script_events.specs.EventForms.{epoch, cooled, place, place_and_replica, slot_and_node, submit, act_of, act_at};
ghost use Rattle.calvin_event_tokens.specs.Behind.{SpellsBehindNode};

use calvin_script::{Kept, WholeKey};
use calvin_script_events::ListedAct;
use calvin_script_tokens::{
    KeyTokens, OperationTokens, closes_array, epoch_value, is_same, request_at, u8_value, u32_value,
};
use calvin_types::{Key, NodeId, Place, Slot};
use json::Reader;
use std::alloc::Global;

/// The epoch of an event that has nothing else behind its node.
#[tactic(auto, using(crate::proofs::Numbers::epoch_spelled))]
fn epoch(reader: &mut Reader<'_>) -> Option<u64>
    ensures { IfSome result (λ e. SpellsBehindNode epoch 0 reader.old e reader.new) }
{
    let epoch = epoch_value(reader)?;
    closes_array(reader)?;
    Some(epoch)
}

/// The key of an event that has nothing else behind its node.
#[tactic(auto, using(crate::proofs::Numbers::cooled_spelled))]
fn cooled(reader: &mut Reader<'_>) -> Option<Key>
    ensures { IfSome result (λ k. SpellsBehindNode cooled 1 reader.old k reader.new) }
{
    let key = WholeKey::key_at(reader)?;
    closes_array(reader)?;
    Some(key)
}

/// The place of an event that has nothing else behind its node.
#[tactic(auto, using(crate::proofs::Numbers::place_spelled))]
fn place(reader: &mut Reader<'_>) -> Option<Place>
    ensures { IfSome result (λ p. SpellsBehindNode place 0 reader.old p reader.new) }
{
    let epoch = epoch_value(reader)?;
    let n = u32_value(reader)?;
    closes_array(reader)?;
    Some(Place { epoch, n })
}

/// The place for which reads are asked, and the replica that is asked.
#[tactic(auto, using(crate::proofs::Numbers::place_and_replica_spelled))]
fn place_and_replica(reader: &mut Reader<'_>) -> Option<(Place, u8)>
    ensures { IfSome result (λ a. SpellsBehindNode place_and_replica 0 reader.old a reader.new) }
{
    let epoch = epoch_value(reader)?;
    let n = u32_value(reader)?;
    let replica = u8_value(reader)?;
    closes_array(reader)?;
    Some((Place { epoch, n }, replica))
}

/// The slot of which the batch is asked, and the node that is asked.
#[tactic(auto, using(crate::proofs::Numbers::slot_and_node_spelled))]
fn slot_and_node(reader: &mut Reader<'_>) -> Option<(Slot, NodeId)>
    ensures { IfSome result (λ a. SpellsBehindNode slot_and_node 0 reader.old a reader.new) }
{
    let epoch = epoch_value(reader)?;
    let group = u8_value(reader)?;
    let replica = u8_value(reader)?;
    let partition = u8_value(reader)?;
    closes_array(reader)?;
    Some((Slot { epoch, group }, NodeId { replica, partition }))
}

/// The request that is submitted. It stands apart, so that what reads the other events stays small.
#[inline(never)]
#[tactic(auto, using(crate::proofs::Numbers::submit_spelled))]
fn submitted<Op: OperationTokens>(alloc: Global, reader: &mut Reader<'_>) -> Option<Box<Kept<Op>>>
    ensures { IfSome result (λ r. SpellsBehindNode (submit Op.grammar) 122 reader.old r.value reader.new) }
{
    let request = request_at(alloc, reader)?;
    closes_array(reader)?;
    Box::new(alloc, request).ok()
}

/// The event that has nothing behind its node, by its name.
#[tactic(auto, using(crate::proofs::Acts::close_spelled, crate::proofs::Acts::merge_spelled, crate::proofs::Acts::lock_spelled, crate::proofs::Acts::restart_spelled))]
fn act_alone<Op: OperationTokens>(
    name: &str,
    reader: &mut Reader<'_>,
) -> Option<ListedAct<Kept<Op>>>
    ensures { IfSome result (λ a. SpellsBehindNode (act_at Op.grammar name.now) 122 reader.old (act_of a) reader.new) }
{
    closes_array(reader)?;
    if is_same(name, "lock") {
        return Some(ListedAct::Lock);
    }
    if is_same(name, "merge") {
        return Some(ListedAct::Merge);
    }
    if is_same(name, "close") {
        return Some(ListedAct::Close);
    }
    if is_same(name, "restart") {
        return Some(ListedAct::Restart);
    }
    None
}

/// The event of a node that has no request, by its name.
#[tactic(auto, using(crate::proofs::Acts::propose_spelled, crate::proofs::Acts::snapshot_spelled, crate::proofs::Acts::mark_spelled, crate::proofs::Acts::cool_spelled, crate::proofs::Acts::begin_spelled, crate::proofs::Acts::finish_spelled, crate::proofs::Acts::askreads_spelled, crate::proofs::Acts::askbatch_spelled))]
fn act_named<Op: OperationTokens>(
    name: &str,
    reader: &mut Reader<'_>,
) -> Option<ListedAct<Kept<Op>>>
    ensures { IfSome result (λ a. SpellsBehindNode (act_at Op.grammar name.now) 122 reader.old (act_of a) reader.new) }
{
    if is_same(name, "begin") {
        return Some(ListedAct::Begin(place(reader)?));
    }
    if is_same(name, "finish") {
        return Some(ListedAct::Finish(place(reader)?));
    }
    if is_same(name, "propose") {
        return Some(ListedAct::Propose(epoch(reader)?));
    }
    if is_same(name, "snapshot") {
        return Some(ListedAct::Snapshot(epoch(reader)?));
    }
    if is_same(name, "mark") {
        return Some(ListedAct::Mark(epoch(reader)?));
    }
    if is_same(name, "cool") {
        return Some(ListedAct::Cool(cooled(reader)?));
    }
    if is_same(name, "askreads") {
        let (place, replica) = place_and_replica(reader)?;
        return Some(ListedAct::AskForReads(place, replica));
    }
    if is_same(name, "askbatch") {
        let (slot, of) = slot_and_node(reader)?;
        return Some(ListedAct::AskForBatch(slot, of));
    }
    act_alone(name, reader)
}

/// What happens at a node, by its name.
#[tactic(auto, using(crate::proofs::Acts::submit_spelled, crate::proofs::Acts::submitcold_spelled))]
pub(crate) fn act_at<Op: OperationTokens>(
    alloc: Global,
    name: &str,
    reader: &mut Reader<'_>,
) -> Option<ListedAct<Kept<Op>>>
    ensures { IfSome result (λ a. SpellsBehindNode (act_at Op.grammar name.now) 122 reader.old (act_of a) reader.new) }
{
    if is_same(name, "submit") {
        return Some(ListedAct::Submit(submitted(alloc, reader)?));
    }
    if is_same(name, "submitcold") {
        return Some(ListedAct::SubmitCold(submitted(alloc, reader)?));
    }
    act_named(name, reader)
}
