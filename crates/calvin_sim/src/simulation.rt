//! A script is run in a world.
ghost use Rattle.std.specs.Prelude.{◌≡◌, false, true, IfOk, OnOk, IsOkUnless};
ghost use Rattle.calvin_script.specs.Scripts.{contents};
ghost use Rattle.calvin_world.specs.Worlds.{opening};
ghost use Rattle.calvin_sim.specs.Simulations.{AllTaken, config_under, fits, IsSimulation};

use crate::submitting::submit_all;
use calvin_app::App;
use calvin_script::{Kept, Operation, Script};
use calvin_sim_events::{Schedule, bring_on, draw_events};
use calvin_types::Fault;
use calvin_world::StoreWorld;
use std::alloc::Global;

/// The submissions of a script happen in a new world, then as many drawn events as the schedule says, then the passes that bring
/// every node to the last epoch. None of them ends for want of memory.
/// Refused with `OutOfMemory` alone.
fn play<A: App + Drop>(
    alloc: Global,
    world: &mut StoreWorld<A>,
    script: &Script<Kept<A::Args>>,
    schedule: &Schedule,
) -> Result<(), Fault>
where
    A::Args: Operation,
    requires new { world.old ≡ opening (config_under schedule.now (contents script.now)) }
    requires taken { AllTaken (contents script.now) }
    requires fits { fits (contents script.now) ≡ true }
    ensures ok { OnOk result (IsSimulation A.meaning schedule.now (contents script.now) world.new) }
    ensures only { IsOkUnless result Fault.OutOfMemory }
{
    let config = *world.config();
    let epochs = script.epochs.len() as u64;
    submit_all(world, script)?;
    draw_events(world, &config, epochs, schedule)?;
    bring_on(alloc, world, &config, epochs, schedule)?;
    Ok(())
}

/// Submits a script to a new world, and lets as many drawn events happen as the schedule says, and then passes of those that bring
/// every node to the last epoch, but for the nodes whose packets the schedule loses. Nodes restart in drawn events alone, and there
/// only those that the schedule lets restart; where it repeats packets, each pass does. The script
/// fits (`fits`), and a sequencer takes each of its requests, as it does where the script was read (`read_is_taken`). Refused with
/// `OutOfMemory` alone, as soon as an event is: at success none was.
pub fn simulate<A: App + Drop>(
    alloc: Global,
    app: A,
    script: &Script<Kept<A::Args>>,
    schedule: &Schedule,
) -> Result<StoreWorld<A>, Fault>
where
    A::Args: Operation,
    requires taken { AllTaken (contents script.now) }
    requires fits { fits (contents script.now) ≡ true }
    ensures ok { IfOk result (IsSimulation A.meaning schedule.now (contents script.now)) }
    ensures only { IsOkUnless result Fault.OutOfMemory }
{
    let config = script.config(schedule.replicas);
    let mut world = StoreWorld::<A>::new(alloc, &config, app)?;
    match play(alloc, &mut world, script, schedule) {
        Ok(()) => Ok(world),
        Err(fault) => Err(fault),
    }
}
