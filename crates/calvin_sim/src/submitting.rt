//! The submissions of a script.
ghost use Rattle.std.specs.Prelude.{◌≡◌, ◌≢◌, ◌+◌, ◌≤◌, ◌<◌, true, ℕ, length, map, OnOk, IsOkUnless};
ghost use Rattle.calvin_types.specs.declared.limits.TheConstants.{MOST_EPOCHS, MOST_UNDECIDED};
ghost use Rattle.calvin_order.specs.Configs.{Config};
ghost use Rattle.calvin_script.specs.Scripts.{all_listed, are_taken, contents, requests_of};
ghost use Rattle.calvin_sim.specs.Simulations.{submitting, submitting_epoch, submissions, fits, AllDone, AllTaken};
ghost use Rattle.calvin_sim.specs.Sequencers.{IsOpen, AreOpen};
ghost use Rattle.calvin_world.specs.Worlds.{opening};

use calvin_app::App;
use calvin_node::Act;
use calvin_script::{Epoch, Kept, Operation, Script, requests_of};
use calvin_types::{Fault, NodeId};
use calvin_world::{Event, StoreWorld};

/// The node at which the requests of a group are submitted: that of replica 0.
fn sequencer_of(group: u8) -> NodeId
    ensures { result ≡ record { replica = 0; partition = group } }
{
    NodeId {
        replica: 0,
        partition: group,
    }
}

/// Submits the requests of a batch at the group's node, and closes it there.
fn submit_batch<A: App + Drop>(
    world: &mut StoreWorld<A>,
    group: u8,
    requests: &[Kept<A::Args>],
) -> Result<(), Fault>
where
    A::Args: Operation,
    ensures done { OnOk result (AllDone A.meaning world.old (submitting group requests.now) world.new) }
    ensures only { (n e : ℕ) → IsOpen world.old group n e → are_taken requests.now ≡ true → n + length requests.now ≤ MOST_UNDECIDED → e < MOST_EPOCHS → IsOkUnless result Fault.OutOfMemory }
{
    let id = sequencer_of(group);
    for request in requests {
        world.step(&Event::At(id, Act::Submit(request.txn())))?;
    }
    world.step(&Event::At(id, Act::Close))
}

/// Submits the batches of an epoch, and closes the epoch for each group.
fn submit_epoch<A: App + Drop>(
    world: &mut StoreWorld<A>,
    partitions: u8,
    epoch: &Epoch<Kept<A::Args>>,
) -> Result<(), Fault>
where
    A::Args: Operation,
    ensures done { OnOk result (AllDone A.meaning world.old (submitting_epoch partitions (all_listed epoch.now)) world.new) }
    ensures only { (n : ℕ → ℕ) (e : ℕ) → AreOpen world.old partitions n e → ((g : ℕ) → g < partitions → are_taken (requests_of g (all_listed epoch.now)) ≡ true)
        → ((g : ℕ) → g < partitions → n g + length (requests_of g (all_listed epoch.now)) ≤ MOST_UNDECIDED) → e < MOST_EPOCHS → IsOkUnless result Fault.OutOfMemory }
{
    for group in 0..partitions {
        submit_batch(world, group, requests_of(epoch, group))?;
    }
    Ok(())
}

/// Submits all batches of a script to a new world, epoch by epoch.
pub(crate) fn submit_all<A: App + Drop>(
    world: &mut StoreWorld<A>,
    script: &Script<Kept<A::Args>>,
) -> Result<(), Fault>
where
    A::Args: Operation,
    requires opened { world.old ≡ opening world.old.config }
    requires there { 0 < world.old.config.replicas }
    requires partitions { world.old.config.partitions ≡ script.now.partitions }
    requires taken { AllTaken (contents script.now) }
    requires fits { fits (contents script.now) ≡ true }
    ensures done { OnOk result (AllDone A.meaning world.old (submissions (contents script.now)) world.new) }
    ensures only { IsOkUnless result Fault.OutOfMemory }
{
    for epoch in &script.epochs {
        submit_epoch(world, script.partitions, epoch)?;
    }
    Ok(())
}
