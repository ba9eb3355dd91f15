//! Engines that are refused memory: nothing is written then, and the same call with memory tells what its case says. A test of an
//! engine, `nothing_refused`, shows that with ample memory nothing is refused. `rt try --test --fail-alloc N` refuses the Nth
//! allocation of a test: for each N, from 1 until `nothing_refused` has passed for many in turn, `refused_once` has to pass
//! (`tools/check_refusals`).
use crate::giving_back::give_back;
use crate::scripts::same;
use calvin_check::check;
use calvin_cluster::Open;
use calvin_edge::{MemorySink, MemorySource, Tally};
use calvin_run::{Team, run};
use calvin_serial::{UndeclaredSets, serial};
use calvin_sim::{Simulated, sim};
use calvin_sim_events::Schedule;
use calvin_types::Fault;
use std::alloc::Global;
use std::process::Abort;
use std::sync::Wait;
use std::thread::Threads;

/// More bytes than any case writes: a sink with room for so many is refused nothing.
const MOST_BYTES: usize = 1000;

/// Which engine runs a script.
#[derive(Clone, Copy)]
pub(crate) enum Engine {
    Serial(UndeclaredSets),
    Check,
    Sim(Schedule),
    Run(Team),
}

/// A world is given back.
fn give_back_world(world: Simulated) {
    drop(world);
}

/// What an engine writes of a script.
fn write<R: Threads + Wait + Copy + Send + Sync + 'static>(
    rt: R,
    alloc: Global,
    engine: &Engine,
    script: &str,
    output: &mut MemorySink,
) -> Result<(), Fault> {
    let mut input = MemorySource::new(script.as_bytes());
    match engine {
        Engine::Serial(sets) => serial(alloc, *sets, &mut input, output),
        Engine::Check => check(alloc, &mut input, output),
        Engine::Sim(schedule) => {
            give_back_world(sim(alloc, schedule, &mut input, output)?);
            Ok(())
        }
        Engine::Run(team) => {
            give_back(run(rt, alloc, team, Open, &mut input, output)?);
            Ok(())
        }
    }
}

/// A sink with room for all that a case writes, if not at once then with memory, and how often that was refused.
fn roomy(alloc: Global) -> Result<(MemorySink, u32), Fault> {
    let (taken, refused) = match Vec::with_capacity(alloc, MOST_BYTES) {
        Ok(taken) => (taken, 0),
        Err(_) => (Vec::with_capacity(alloc, MOST_BYTES)?, 1),
    };
    let failures = Tally::new();
    Ok((MemorySink { taken, failures }, refused))
}

/// An engine runs a script, if not at once then with memory: a refusal leaves nothing written, and what is written in the end is
/// this text. Says how often memory was refused.
fn endure<R: Threads + Wait + Abort + Copy + Send + Sync + 'static>(
    rt: R,
    alloc: Global,
    engine: &Engine,
    script: &str,
    text: &str,
) -> Result<u32, Fault> {
    let (mut output, mut refused) = roomy(alloc)?;
    let mut ended = write(rt, alloc, engine, script, &mut output);
    if ended == Err(Fault::OutOfMemory) {
        same(&rt, output.taken.len(), 0);
        refused = refused.saturating_add(1);
        ended = write(rt, alloc, engine, script, &mut output);
    }
    same(&rt, ended, Ok(()));
    same(&rt, output.taken.as_slice(), text.as_bytes());
    drop(output);
    Ok(refused)
}

/// The same of scripts, one after another.
pub(crate) fn endure_all<R: Threads + Wait + Abort + Copy + Send + Sync + 'static>(
    rt: R,
    alloc: Global,
    engine: &Engine,
    cases: &[(&str, &str)],
) -> Result<u32, Fault> {
    let mut refused: u32 = 0;
    for (script, text) in cases {
        refused = refused.saturating_add(endure(rt, alloc, engine, script, text)?);
    }
    Ok(refused)
}
