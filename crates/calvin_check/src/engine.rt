//! The engine `check`: a script of events in, what they make of a world out.
ghost use Rattle.std.specs.Prelude.{◌≡◌, ◌≢◌, ◌+◌, true, false, map, option_map, string_bytes, IfOk, IfErr, OnOk, IfSome, Ok, Err, IsErrOf, IsOkUnless};
ghost use Rattle.std.specs.Result.{result_err};
ghost use Rattle.std.specs.Io.KnownBytes.{Appends};
ghost use Rattle.calvin_edge.specs.Answering.{HasText, HasBeginning, Refuses};
ghost use Rattle.calvin_edge.specs.Devices.{LeavesAsTold};
ghost use Rattle.calvin_script.specs.Reading.{and_then, json, Reads};
ghost use Rattle.calvin_script_events.specs.EventScripts.{world_contents};
ghost use Rattle.calvin_check.specs.Checks.{report, told_behind, answer_lines, are_expected, is_as_expected, report_in, check_text, IsExpected, IsCheckFault};

use crate::expecting::are_lines;
use crate::running::run_events;
use calvin_app::{App, Kv};
use calvin_edge::{Sink, Source, read_all, write_all};
use calvin_event_tokens::{AppEventScript, read_event_script};
use calvin_lock::Locks;
use calvin_report::{Epochs, finished, push_nodes, push_replies, replies_of};
use calvin_script::{Kept, Operation};
use calvin_script_events::EventScript;
use calvin_stock::{Stock, stock_once};
use calvin_store::Rows;
use calvin_text::{Printed, push_last};
use calvin_types::Fault;
use calvin_world::{StoreWorld, World};
use std::alloc::Global;
use std::mem;

/// What is told of a script.
#[derive(Drop)]
struct Report {
    text: Vec<u8>,
    /// Whether the answers are the ones that the script expects, where it expects any.
    is_expected: bool,
}

/// Adds a line for each node of a world, one for each place at which something was replied, and the last line. Answers whether
/// the lines of the replies and the last one are the texts that are expected, where any are.
fn tell_world<A: App + Drop, L: Locks + Drop, S: Rows<A::Row> + Drop>(
    alloc: Global,
    world: &World<A, L, S>,
    expect: &Option<Vec<String>>,
    text: &mut Vec<u8>,
) -> Result<bool, Fault>
where
    A::Reply: Printed,
    ensures told { OnOk result (text.new.items ≡ told_behind A.Reply.printed text.old.items world.now) }
    ensures expected { IfOk result (λ are. are ≡ are_expected (option_map (λ v. map string_bytes v.items) expect.now) (answer_lines A.Reply.printed world.now)) }
    ensures only { IsOkUnless result Fault.OutOfMemory }
{
    push_nodes(text, world)?;
    let replies = replies_of(alloc, world.packets())?;
    push_replies(text, &replies, Epochs::All)?;
    let last = finished(world);
    push_last(text, last)?;
    match expect {
        None => Ok(true),
        Some(texts) => are_lines(alloc, &replies, last, texts),
    }
}

/// What is told of a script for an application. The world stays in memory: who runs one ends thereafter, and to give back many
/// small pieces one by one takes a twentieth of the whole run.
fn report_of<A: App + Drop>(
    alloc: Global,
    app: A,
    script: &EventScript<Kept<A::Args>>,
) -> Result<Report, Fault>
where
    A::Args: Operation,
    A::Reply: Printed,
    ensures told { IfOk result (λ r. (r.text.items ≡ report A.Reply.printed A.meaning (world_contents script.now))
        × (r.is_expected ≡ is_as_expected A.Reply.printed A.meaning (world_contents script.now))) }
    ensures only { IsOkUnless result Fault.OutOfMemory }
{
    let mut world = StoreWorld::<A>::new(alloc, &script.config, app)?;
    let mut text = Vec::new(alloc);
    run_events(&mut world, &script.events, &mut text)?;
    let told = tell_world(alloc, &world, &script.expect, &mut text);
    mem::forget(world);
    let is_expected = told?;
    Ok(Report { text, is_expected })
}

/// What is told of the bytes of a script, for the application that it names.
#[tactic(auto, using(crate::proofs::Told::refused))]
fn report_in(alloc: Global, bytes: Vec<u8>) -> Result<Report, Fault>
    ensures { Reads (λ r. (r.text.items, r.is_expected)) result (and_then (json bytes.items) report_in) }
{
    match read_event_script(alloc, bytes)? {
        AppEventScript::Kv(script) => report_of(alloc, Kv, &script),
        AppEventScript::Stock(script) => report_of(alloc, Stock, &script),
        AppEventScript::Once(script) => report_of(alloc, stock_once(), &script),
    }
}

/// Reads a script of events to the end of the source, lets them happen in a world, and writes how each ended, then a line for
/// each node, then one for each place at which something was replied, and the last line. The whole text is built before any of
/// it is written. Refused with `NotExpected` where the script expects other answers: then the whole text is written, too.
pub fn check<S: Source, K: Sink>(alloc: Global, source: &mut S, sink: &mut K) -> Result<(), Fault>
    // What is written is the text of what was read, whose answers are as expected.
    ensures ok { OnOk result (IfSome (S.left source.old) (λ bytes. IsExpected true bytes × HasText (check_text bytes)
        (λ text. Appends (K.taken sink.old) (K.taken sink.new) text))) }
    ensures unexpected { IsErrOf result Fault.NotExpected → IfSome (S.left source.old) (λ bytes. IsExpected false bytes × HasText (check_text bytes)
        (λ text. Appends (K.taken sink.old) (K.taken sink.new) text)) }
    // Which fault it is: no other one comes, and a script is refused with its own.
    ensures only { IfErr result IsCheckFault }
    ensures refused { IfErr result (λ fault. fault ≢ Fault.NotExpected → IfSome (S.left source.old) (λ bytes.
        Refuses fault (check_text bytes))) }
    // Nothing is written, but where writing fails and where other answers are expected.
    ensures untouched { IfErr result (λ fault. fault ≢ Fault.WriteFailed → fault ≢ Fault.NotExpected → sink.new ≡ sink.old) }
    ensures beginning { IsErrOf result Fault.WriteFailed → IfSome (S.left source.old) (λ bytes.
        HasBeginning (check_text bytes) (K.taken sink.old) (K.taken sink.new)) }
    // How far it read, and which device failed.
    ensures devices { LeavesAsTold S.Source K.Sink source.old source.new sink.old sink.new (result_err result) }
{
    let bytes = read_all(alloc, source)?;
    let report = report_in(alloc, bytes)?;
    write_all(sink, &report.text)?;
    if !report.is_expected {
        return Err(Fault::NotExpected);
    }
    Ok(())
}
