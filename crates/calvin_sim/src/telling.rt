//! What is told of a simulation.
ghost use Rattle.std.specs.Prelude.{◌≡◌, ◌++◌, false, true, IfOk, IsOkUnless};
ghost use Rattle.std.specs.FinMap.{entries};
ghost use Rattle.calvin_script.specs.Scripts.{contents};
ghost use Rattle.calvin_text.specs.Texts.{finished_at};
ghost use Rattle.calvin_report.specs.declared.replies.Epochs.TheVariants.{UpTo};
ghost use Rattle.calvin_report.specs.Replies.{replied, of_epochs, reply_lines};
ghost use Rattle.calvin_report.specs.Reports.{is_lost, least_kept};
ghost use Rattle.calvin_sim.specs.Simulations.{AllTaken, fits, IsSimulation};
ghost use Rattle.calvin_sim.specs.Telling.{IsToldUpTo};

use crate::simulation::simulate;
use calvin_app::App;
use calvin_report::{Epochs, finished_but, push_replies, replies_of, told_is_serial};
use calvin_script::{Kept, Operation, Script};
use calvin_sim_events::Schedule;
use calvin_text::{Printed, push_last};
use calvin_types::Fault;
use calvin_world::StoreWorld;
use std::alloc::Global;

/// The lines of the replies of the epochs up to the last one at whose end every node stands whose packets aren't lost, and that
/// epoch. Refused with `OutOfMemory` alone.
fn text_of<A: App + Drop>(
    alloc: Global,
    world: &StoreWorld<A>,
    lost: Option<u8>,
) -> Result<Vec<u8>, Fault>
where
    A::Reply: Printed,
    ensures text { IfOk result (λ text. text.items ≡ reply_lines A.Reply.printed
        (of_epochs (UpTo (least_kept (is_lost lost) world.now)) (entries (replied world.now.packets)))
        ++ finished_at (least_kept (is_lost lost) world.now)) }
    ensures only { IsOkUnless result Fault.OutOfMemory }
{
    let last = finished_but(world, lost);
    let replies = replies_of(alloc, world.packets())?;
    let mut text = Vec::new(alloc);
    push_replies(&mut text, &replies, Epochs::UpTo(last))?;
    push_last(&mut text, last)?;
    Ok(text)
}

/// Runs a script in a new world, as `simulate` does, and tells the replies of the epochs that every node finished whose packets
/// aren't lost: they are those of the serial run of the batches that were chosen. Refused with `OutOfMemory` alone.
pub fn simulate_and_tell<A: App + Drop>(
    alloc: Global,
    app: A,
    script: &Script<Kept<A::Args>>,
    schedule: &Schedule,
) -> Result<(StoreWorld<A>, Vec<u8>), Fault>
where
    A::Args: Operation,
    A::Reply: Printed,
    requires taken { AllTaken (contents script.now) }
    requires fits { fits (contents script.now) ≡ true }
    ensures simulated { IfOk result (λ r. IsSimulation A.meaning schedule.now (contents script.now) r.0) }
    ensures told { IfOk result (λ r. IsToldUpTo A.meaning A.Reply.printed r.0 (least_kept (is_lost schedule.now.lost) r.0) r.1.items) }
    ensures only { IsOkUnless result Fault.OutOfMemory }
{
    told_is_serial::<A>();
    let world = simulate(alloc, app, script, schedule)?;
    let text = text_of(alloc, &world, schedule.lost)?;
    Ok((world, text))
}
