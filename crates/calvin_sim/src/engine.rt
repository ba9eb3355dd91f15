//! The engine `sim`: a script in, the text of its run in a whole world out.
ghost use Rattle.std.specs.Prelude.{◌≡◌, ◌≢◌, ◌+◌, ◌<◌, ℕ, List, length, take, IfOk, IfErr, IfSome, IsErrOf, Ok};
ghost use Rattle.std.specs.Result.{result_err};
ghost use Rattle.std.specs.Io.KnownBytes.{Appends};
ghost use Rattle.calvin_edge.specs.Answering.{Refuses};
ghost use Rattle.calvin_edge.specs.Devices.{LeavesAsTold};
ghost use Rattle.calvin_script.specs.Applications.{app_script_from};
ghost use Rattle.calvin_script.specs.Reading.{and_then, script_from, Reads};
ghost use Rattle.calvin_script.specs.Scripts.{contents};
ghost use Rattle.calvin_sim.specs.Engine.{fitting, fitting_in, sim_script, IsRun, IsSimText, IsSimFault};
ghost use Rattle.calvin_sim.specs.Simulations.{AllTaken};

use crate::fitting::fits;
use crate::telling::simulate_and_tell;
use calvin_app::{App, Kv};
use calvin_edge::{Sink, Source, read_all, write_all};
use calvin_once::Once;
use calvin_script::{AppScript, Kept, Operation, Script};
use calvin_script_tokens::read_script;
use calvin_sim_events::Schedule;
use calvin_stock::{Stock, stock_once};
use calvin_text::Printed;
use calvin_types::Fault;
use calvin_world::StoreWorld;
use std::alloc::Global;

/// The world in which a script was run, of the application that the script names.
#[derive(Drop)]
pub enum Simulated {
    Kv(StoreWorld<Kv>),
    Stock(StoreWorld<Stock>),
    Once(StoreWorld<Once<Stock>>),
}

/// What came of a script: its world, and the text of it.
#[derive(Drop)]
struct Told {
    world: Simulated,
    text: Vec<u8>,
}

/// Runs a script for an application. Refused with `BadScript` where it doesn't fit, and else with `OutOfMemory` alone.
fn run_script<A: App + Drop>(
    alloc: Global,
    app: A,
    script: &Script<Kept<A::Args>>,
    schedule: &Schedule,
) -> Result<(StoreWorld<A>, Vec<u8>), Fault>
where
    A::Args: Operation,
    A::Reply: Printed,
    requires taken { AllTaken (contents script.now) }
    ensures run { IfOk result (λ r. (bytes : List ℕ) → script_from A.Args.grammar bytes ≡ Ok (contents script.now)
        → IsRun A.meaning A.Args.grammar A.Reply.printed schedule.now bytes r.0 r.1.items) }
    ensures fits { Reads (λ r. tt) result (fitting (contents script.now)) }
{
    if !fits(script) {
        return Err(Fault::BadScript);
    }
    simulate_and_tell(alloc, app, script, schedule)
}

/// Runs the bytes of a script for the application that it names. They are given back before it is run.
fn run_bytes(alloc: Global, bytes: Vec<u8>, schedule: &Schedule) -> Result<Told, Fault>
    ensures told { IfOk result (λ told. IsSimText schedule.now bytes.items told.world told.text.items) }
    ensures fits { Reads (λ told. tt) result (and_then (app_script_from bytes.items) fitting_in) }
{
    match read_script(alloc, bytes)? {
        AppScript::Kv(script) => {
            let (world, text) = run_script(alloc, Kv, &script, schedule)?;
            Ok(Told {
                world: Simulated::Kv(world),
                text,
            })
        }
        AppScript::Stock(script) => {
            let (world, text) = run_script(alloc, Stock, &script, schedule)?;
            Ok(Told {
                world: Simulated::Stock(world),
                text,
            })
        }
        AppScript::Once(script) => {
            let (world, text) = run_script(alloc, stock_once(), &script, schedule)?;
            Ok(Told {
                world: Simulated::Once(world),
                text,
            })
        }
    }
}

/// Reads a script to the end of the source, runs it in a world under a schedule, and writes a line for each request of the epochs
/// at whose end every node stands whose packets the schedule doesn't lose, and then the last of them. The world is given back. The whole text is built before any of it
/// is written.
pub fn sim<S: Source, K: Sink>(
    alloc: Global,
    schedule: &Schedule,
    source: &mut S,
    sink: &mut K,
) -> Result<Simulated, Fault>
    // What is written is the text of the world that is given back, to which the script that was read led under the schedule.
    ensures ok { IfOk result (λ world. IfSome (S.left source.old) (λ bytes. (text : List ℕ)
        × IsSimText schedule.now bytes world text × Appends (K.taken sink.old) (K.taken sink.new) text)) }
    // Which fault it is: no other one comes, and a script is refused with its own.
    ensures only { IfErr result IsSimFault }
    ensures refused { IfErr result (λ fault. IfSome (S.left source.old) (λ bytes. Refuses fault (sim_script bytes))) }
    // Nothing is written, but where writing fails.
    ensures untouched { IfErr result (λ fault. fault ≢ Fault.WriteFailed → sink.new ≡ sink.old) }
    ensures beginning { IsErrOf result Fault.WriteFailed → IfSome (S.left source.old) (λ bytes. (world : Simulated) × (text : List ℕ)
        × IsSimText schedule.now bytes world text × (n : ℕ) × (n < length text) × Appends (K.taken sink.old) (K.taken sink.new) (take n text)) }
    // How far it read, and which device failed.
    ensures devices { LeavesAsTold S.Source K.Sink source.old source.new sink.old sink.new (result_err result) }
{
    let bytes = read_all(alloc, source)?;
    let told = run_bytes(alloc, bytes, schedule)?;
    write_all(sink, &told.text)?;
    Ok(told.world)
}
