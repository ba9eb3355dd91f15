//! The engine `run`: a script in, the text of its run in a cluster out.
ghost use Rattle.std.specs.Prelude.{◌≡◌, ◌≢◌, ◌+◌, ◌<◌, ℕ, List, length, take, IfOk, IfErr, IfSome, IsErrOf, Ok};
ghost use Rattle.std.specs.Result.{result_err};
ghost use Rattle.std.specs.Io.KnownBytes.{Appends};
ghost use Rattle.calvin_edge.specs.Devices.{LeavesAsTold};
ghost use Rattle.calvin_order.specs.Configs.{store_config};
ghost use Rattle.calvin_script.specs.Applications.{app_script_from};
ghost use Rattle.calvin_script.specs.Reading.{and_then};
ghost use Rattle.calvin_script.specs.Scripts.{contents};
ghost use Rattle.calvin_book.specs.Books.{world_after};
ghost use Rattle.calvin_sim.specs.Engine.{fitting, fitting_in, sim_script};
ghost use Rattle.calvin_sim.specs.Simulations.{submissions, AllTaken};
ghost use Rattle.calvin_sim.specs.Telling.{IsTold};
ghost use Rattle.calvin_run.specs.Engine.{Begins, IsRunText, Runs, IsRunFault, RefusesRun};

use crate::team::Team;
use crate::telling::run_and_tell;
use calvin_app::{App, Kv};
use calvin_book::StoreBook;
use calvin_cluster::Gate;
use calvin_edge::{Sink, Source, read_all, write_all};
use calvin_once::Once;
use calvin_script::{AppScript, Kept, Operation, Script};
use calvin_script_tokens::read_script;
use calvin_sim::fits;
use calvin_stock::{Stock, stock_once};
use calvin_text::Printed;
use calvin_types::Fault;
use std::alloc::Global;
use std::sync::Wait;
use std::thread::Threads;

/// The book that a cluster left in which a script was run, or that its nodes' histories were assembled to, of the application that the
/// script names.
#[derive(Drop)]
pub enum Ran {
    Kv(StoreBook<Kv>),
    Stock(StoreBook<Stock>),
    Once(StoreBook<Once<Stock>>),
}

/// What came of a script: the book, and the text of it.
#[derive(Drop)]
struct Told {
    book: Ran,
    text: Vec<u8>,
}

/// Runs a script for an application. Refused with `BadScript` where it doesn't fit, and else as `run_and_tell` is.
fn run_script<A, G, R>(
    rt: R,
    alloc: Global,
    app: A,
    script: &Script<Kept<A::Args>>,
    team: &Team,
    gate: G,
) -> Result<(StoreBook<A>, Vec<u8>), Fault>
where
    A: App + Copy + Drop + Send + Sync + 'static,
    A::Args: Operation + Send + Sync + 'static,
    A::Row: Send + Sync + 'static,
    A::Reply: Printed + Send + Sync + 'static,
    G: Gate + 'static,
    R: Threads + Wait + Copy + Send + Sync + 'static,
    requires taken { AllTaken (contents script.now) }
    ensures config { IfOk result (λ r. r.0.config ≡ store_config script.now.partitions team.now.replicas 0 script.now.woven_from) }
    ensures begins { IfOk result (λ r. Begins A.meaning r.0.config (submissions (contents script.now)) r.0.events team.now.wide) }
    ensures told { IfOk result (λ r. IsTold A.meaning A.Reply.printed (world_after A.meaning r.0.config r.0.events) r.1.items) }
    ensures fits { Runs team.now.wide result (fitting (contents script.now)) }
{
    if !fits(script) {
        return Err(Fault::BadScript);
    }
    run_and_tell(rt, alloc, app, script, team, gate)
}

/// Runs the bytes of a script for the application that it names. They are given back before it is run.
fn run_bytes<G, R>(
    rt: R,
    alloc: Global,
    bytes: Vec<u8>,
    team: &Team,
    gate: G,
) -> Result<Told, Fault>
where
    G: Gate + 'static,
    R: Threads + Wait + Copy + Send + Sync + 'static,
    ensures told { IfOk result (λ told. IsRunText team.now.replicas team.now.wide bytes.items told.book told.text.items) }
    ensures fits { Runs team.now.wide result (and_then (app_script_from bytes.items) fitting_in) }
{
    match read_script(alloc, bytes)? {
        AppScript::Kv(script) => {
            let (book, text) = run_script(rt, alloc, Kv, &script, team, gate)?;
            Ok(Told {
                book: Ran::Kv(book),
                text,
            })
        }
        AppScript::Stock(script) => {
            let (book, text) = run_script(rt, alloc, Stock, &script, team, gate)?;
            Ok(Told {
                book: Ran::Stock(book),
                text,
            })
        }
        AppScript::Once(script) => {
            let (book, text) = run_script(rt, alloc, stock_once(), &script, team, gate)?;
            Ok(Told {
                book: Ran::Once(book),
                text,
            })
        }
    }
}

/// Reads a script to the end of the source, submits and closes its batches in a book, lets a cluster of so many workers bring all nodes
/// of so many replicas to the last epoch, and writes a line for each request of the epochs at whose end every node stands, and then the
/// last of them. A worker calls the gate before and after it runs a request. The book that the cluster leaves is given back; where the
/// team is wide, the one of the list that the histories of the cluster's nodes are assembled to. The whole text is built before any of
/// it is written. Refused as the engine `sim` is, with `Closed` or `NotEnded` where the cluster is, and with `NoRun` where the team is
/// wide and no list gives the histories.
pub fn run<S, K, G, R>(
    rt: R,
    alloc: Global,
    team: &Team,
    gate: G,
    source: &mut S,
    sink: &mut K,
) -> Result<Ran, Fault>
where
    S: Source,
    K: Sink,
    G: Gate + 'static,
    R: Threads + Wait + Copy + Send + Sync + 'static,
    // What is written is the text of the book that is given back, which begins with the submissions of the script that was read, at
    // each node where the team is wide.
    ensures ok { IfOk result (λ book. IfSome (S.left source.old) (λ bytes. (text : List ℕ)
        × IsRunText team.now.replicas team.now.wide bytes book text × Appends (K.taken sink.old) (K.taken sink.new) text)) }
    // Which fault it is: no other one comes, and a script is refused with its own.
    ensures only { IfErr result (IsRunFault team.now.wide) }
    ensures refused { IfErr result (λ fault. IfSome (S.left source.old) (λ bytes. RefusesRun team.now.wide fault (sim_script bytes))) }
    // Nothing is written, but where writing fails.
    ensures untouched { IfErr result (λ fault. fault ≢ Fault.WriteFailed → sink.new ≡ sink.old) }
    ensures beginning { IsErrOf result Fault.WriteFailed → IfSome (S.left source.old) (λ bytes. (book : Ran) × (text : List ℕ)
        × IsRunText team.now.replicas team.now.wide bytes book text × (n : ℕ) × (n < length text) × Appends (K.taken sink.old) (K.taken sink.new) (take n text)) }
    // How far it read, and which device failed.
    ensures devices { LeavesAsTold S.Source K.Sink source.old source.new sink.old sink.new (result_err result) }
{
    let bytes = read_all(alloc, source)?;
    let told = run_bytes(rt, alloc, bytes, team, gate)?;
    write_all(sink, &told.text)?;
    Ok(told.book)
}
