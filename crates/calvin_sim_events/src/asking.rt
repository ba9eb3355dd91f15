//! What is tried again where packets alone don't bring every node to the last epoch: ballots, batches and rows.
ghost use Rattle.std.specs.Prelude.{◌≡◌, ℕ, suc, OnOk, OnErr, IsOkUnless, ◌⊎◌};
ghost use Rattle.calvin_sim_events.specs.declared.schedule.Restarts.TheVariants.{Never};
ghost use Rattle.calvin_report.specs.Reports.{is_lost};
ghost use Rattle.calvin_sim_events.specs.Passes.{IsPass, Passes};
ghost use Rattle.calvin_sim_events.specs.Quiet.{everyone, LeadsQuietly, LeadsToWant};

use crate::schedule::Schedule;
use crate::stepping::{happen_at, sent};
use crate::working::{Crew, ready_after};
use calvin_app::App;
use calvin_node::Act;
use calvin_report::is_lost;
use calvin_types::{Config, Fault, NodeId, Slot};
use calvin_world::StoreWorld;
use std::alloc::Global;

/// So many times packets are delivered until nothing moves, and what is missing is asked for.
const MOST_PASSES: u32 = 64;

/// The node of a group in replica 0, which never restarts.
fn first_of(group: u8) -> NodeId {
    NodeId {
        replica: 0,
        partition: group,
    }
}

/// Whether a node stands at the end of so many epochs.
fn stands<A: App + Drop>(world: &StoreWorld<A>, id: NodeId, epochs: u64) -> bool {
    let Some(node) = world.node(id) else {
        return false;
    };
    match node.stands_at() {
        Some(epoch) => epoch >= epochs.saturating_sub(1),
        None => epochs == 0,
    }
}

/// Whether every node stands at the end of so many epochs, but for those of the replica whose packets are lost.
fn all_stand<A: App + Drop>(
    world: &StoreWorld<A>,
    crew: &Crew,
    epochs: u64,
    lost: Option<u8>,
) -> bool {
    for seat in &crew.seats {
        if !is_lost(lost, seat.id.replica) && !stands(world, seat.id, epochs) {
            return false;
        }
    }
    true
}

/// Whether a node holds the batch of a slot.
fn holds<A: App + Drop>(world: &StoreWorld<A>, id: NodeId, slot: Slot) -> bool {
    match world.node(id) {
        Some(node) => node.held(slot).is_some(),
        None => false,
    }
}

/// A new ballot is begun for each batch of an epoch that isn't decided.
#[tactic(auto, using(crate::proofs::Leading::quiet_here, crate::proofs::Leading::quiet_then, crate::proofs::Leading::want_then))]
fn propose_epoch<A: App + Drop>(
    world: &mut StoreWorld<A>,
    partitions: u8,
    epoch: u64,
) -> Result<(), Fault>
    ensures quiet { OnOk result (LeadsQuietly A.meaning Never everyone world.old world.new) }
    ensures want { OnErr result (LeadsToWant A.meaning Never everyone world.old world.new) }
    ensures only { IsOkUnless result Fault.OutOfMemory }
{
    for group in 0..partitions {
        let _outcome = happen_at(world, first_of(group), Act::Propose(epoch))?;
    }
    Ok(())
}

/// A node asks replica 0 for the batches of an epoch that it doesn't hold, and replica 0 does.
#[tactic(auto, using(crate::proofs::Leading::quiet_here, crate::proofs::Leading::quiet_then, crate::proofs::Leading::want_then))]
fn ask_for_epoch<A: App + Drop>(
    world: &mut StoreWorld<A>,
    id: NodeId,
    partitions: u8,
    epoch: u64,
) -> Result<(), Fault>
    ensures quiet { OnOk result (LeadsQuietly A.meaning Never everyone world.old world.new) }
    ensures want { OnErr result (LeadsToWant A.meaning Never everyone world.old world.new) }
    ensures only { IsOkUnless result Fault.OutOfMemory }
{
    for group in 0..partitions {
        let slot = Slot { epoch, group };
        let of = first_of(group);
        if holds(world, of, slot) {
            let _outcome = happen_at(world, id, Act::AskForBatch(slot, of))?;
        }
    }
    Ok(())
}

/// A node asks replica 0 for the rows that it awaits.
#[tactic(auto, using(crate::proofs::Leading::quiet_here, crate::proofs::Leading::quiet_then, crate::proofs::Leading::want_then))]
fn ask_for_rows<A: App + Drop>(world: &mut StoreWorld<A>, id: NodeId) -> Result<(), Fault>
    ensures quiet { OnOk result (LeadsQuietly A.meaning Never everyone world.old world.new) }
    ensures want { OnErr result (LeadsToWant A.meaning Never everyone world.old world.new) }
    ensures only { IsOkUnless result Fault.OutOfMemory }
{
    let mut after = None;
    for _ in 0..u64::MAX {
        let Some(place) = ready_after(world, id, after) else {
            break;
        };
        let _outcome = happen_at(world, id, Act::AskForReads(place, 0))?;
        after = Some(place);
    }
    Ok(())
}

/// A node asks for all that it lacks of so many epochs.
#[tactic(auto, using(crate::proofs::Leading::quiet_here, crate::proofs::Leading::quiet_then, crate::proofs::Leading::want_then, crate::proofs::Leading::quiet_then_ok, crate::proofs::Leading::want_then_err))]
fn ask_at<A: App + Drop>(
    world: &mut StoreWorld<A>,
    id: NodeId,
    partitions: u8,
    epochs: u64,
) -> Result<(), Fault>
    ensures quiet { OnOk result (LeadsQuietly A.meaning Never everyone world.old world.new) }
    ensures want { OnErr result (LeadsToWant A.meaning Never everyone world.old world.new) }
    ensures only { IsOkUnless result Fault.OutOfMemory }
{
    for epoch in 0..epochs {
        ask_for_epoch(world, id, partitions, epoch)?;
    }
    ask_for_rows(world, id)
}

/// Ballots are begun for all batches that aren't decided, and each node asks for all that it lacks of so many epochs.
#[tactic(auto, using(crate::proofs::Leading::quiet_here, crate::proofs::Leading::quiet_then, crate::proofs::Leading::want_then))]
fn ask<A: App + Drop>(world: &mut StoreWorld<A>, crew: &Crew, epochs: u64) -> Result<(), Fault>
    ensures quiet { OnOk result (LeadsQuietly A.meaning Never everyone world.old world.new) }
    ensures want { OnErr result (LeadsToWant A.meaning Never everyone world.old world.new) }
    ensures only { IsOkUnless result Fault.OutOfMemory }
{
    let partitions = crew.config.partitions;
    for epoch in 0..epochs {
        propose_epoch(world, partitions, epoch)?;
    }
    for seat in &crew.seats {
        ask_at(world, seat.id, partitions, epochs)?;
    }
    Ok(())
}

/// How a pass ended.
#[derive(Clone, Copy)]
enum Round {
    /// Every node stands at the last epoch.
    AllStand,
    /// Something was asked for.
    Asked,
}

/// Packets are delivered and nodes work until nothing moves; then, where the schedule has it so, each packet that was there at the
/// beginning is delivered again; then each node asks for what it lacks, unless all stand at the end of so many epochs.
#[tactic(auto, using(crate::proofs::Leading::quiet_here, crate::proofs::Leading::quiet_then, crate::proofs::Leading::want_then))]
fn pass<A: App + Drop>(
    world: &mut StoreWorld<A>,
    crew: &mut Crew,
    epochs: u64,
    schedule: &Schedule,
) -> Result<Round, Fault>
    ensures pass { OnOk result (IsPass A.meaning schedule.now.repeats (is_lost schedule.now.lost) world.old world.new) }
    ensures want { OnErr result (LeadsToWant A.meaning Never (is_lost schedule.now.lost) world.old world.new) }
    ensures only { IsOkUnless result Fault.OutOfMemory }
{
    let packets = sent(world);
    crew.work_on(world, schedule.lost)?;
    crew.deliver_again(world, packets, schedule)?;
    if all_stand(world, crew, epochs, schedule.lost) {
        return Ok(Round::AllStand);
    }
    ask(world, crew, epochs)?;
    Ok(Round::Asked)
}

/// Packets are delivered, nodes work on and ask until every node stands at the end of so many epochs, but for those of the replica
/// whose packets are lost, or 64 passes have gone by. No node restarts. `config` is what the world was opened with. Refused with
/// `OutOfMemory` alone, as soon as an event is, or before any.
#[tactic(auto, using(crate::proofs::Leading::quiet_here, crate::proofs::Leading::quiet_then, crate::proofs::Leading::want_then))]
pub fn bring_on<A: App + Drop>(
    alloc: Global,
    world: &mut StoreWorld<A>,
    config: &Config,
    epochs: u64,
    schedule: &Schedule,
) -> Result<(), Fault>
    ensures passes { OnOk result ((more : ℕ) × Passes A.meaning schedule.now.repeats (is_lost schedule.now.lost) (suc more) world.old world.new) }
    ensures want { OnErr result ((world.new ≡ world.old) ⊎ LeadsToWant A.meaning Never (is_lost schedule.now.lost) world.old world.new) }
    ensures only { IsOkUnless result Fault.OutOfMemory }
{
    let mut crew = Crew::new(alloc, config)?;
    for _ in 0..MOST_PASSES {
        if let Round::AllStand = pass(world, &mut crew, epochs, schedule)? {
            break;
        }
    }
    Ok(())
}
