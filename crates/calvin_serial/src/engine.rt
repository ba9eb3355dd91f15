//! The engine `serial`: a script in, the text of its serial run out.
ghost use Rattle.std.specs.Prelude.{◌≡◌, ◌≢◌, ◌+◌, ◌<◌, IfOk, IfErr, OnOk, IfSome, Ok, Err, IsErrOf, IsOkUnless};
ghost use Rattle.std.specs.Result.{result_err};
ghost use Rattle.std.specs.Io.KnownBytes.{Appends};
ghost use Rattle.calvin_edge.specs.Answering.{HasText, HasBeginning, Refuses};
ghost use Rattle.calvin_edge.specs.Devices.{LeavesAsTold};
ghost use Rattle.calvin_script.specs.Scripts.{contents};
ghost use Rattle.calvin_script.specs.Applications.{app_script_from};
ghost use Rattle.calvin_script.specs.Reading.{and_then, Reads};
ghost use Rattle.calvin_serial.specs.FirstSets.{NeedsFirst};
ghost use Rattle.calvin_serial.specs.Engine.{text_of, text_in, serial_text, IsSerialFault};

use crate::scouted::push_scouted_epoch;
use crate::text::push_epoch;
use crate::undeclared::UndeclaredSets;
use calvin_app::{Answer, Kv, Serial, Settles, View, Writes};
use calvin_edge::{MOST_BYTES, Sink, Source, read_all, write_all};
use calvin_script::{AppScript, Kept, Operation, Script};
use calvin_script_tokens::read_script;
use calvin_stock::{Stock, stock_once};
use calvin_text::{Printed, push_finished};
use calvin_types::Fault;
use std::alloc::Global;
use std::mem;

/// The bytes that a text has room for from the start; a longer one grows. A smaller one takes no more of the memory that
/// it asks for than it fills.
const FIRST_ROOM: usize = MOST_BYTES;

/// The rows that there is room for from the start; more of them take room for twice as many each time.
const FIRST_ROWS: usize = 8_192;

/// The text of the serial run of a script.
fn text_of<A: Settles + Copy + Drop>(
    alloc: Global,
    app: A,
    script: &Script<Kept<A::Args>>,
    sets: UndeclaredSets,
) -> Result<Vec<u8>, Fault>
where
    A::Args: Operation,
    A::Reply: Printed,
    requires { NeedsFirst A.Args.grammar A.meaning }
    ensures text { IfOk result (λ text. text_of A.meaning A.Reply.printed sets (contents script.now) ≡ Ok text.items) }
    ensures only { IsOkUnless result Fault.OutOfMemory }
{
    let mut store = Serial::new(alloc, app);
    store.reserve(FIRST_ROWS)?;
    let mut text = Vec::with_capacity(alloc, FIRST_ROOM)?;
    let mut seen = View::new();
    let mut answer = Answer::Changed;
    let mut writes = Writes::new();
    for epoch in 0..script.epochs.len() {
        match sets {
            UndeclaredSets::First => push_epoch(
                &mut store,
                script,
                epoch,
                &mut seen,
                &mut answer,
                &mut writes,
                &mut text,
            )?,
            UndeclaredSets::Scouted => {
                push_scouted_epoch(alloc, &app, &mut store, script, epoch, &mut text)?
            }
        }
    }
    push_finished(&mut text, script.epochs.len())?;
    Ok(text)
}

/// The text for a script, for an application. The script stays in memory: who runs one ends thereafter, and to give back many
/// small pieces one by one takes up to a thirteenth of the whole run.
fn text_for<A: Settles + Copy + Drop>(
    alloc: Global,
    app: A,
    script: Script<Kept<A::Args>>,
    sets: UndeclaredSets,
) -> Result<Vec<u8>, Fault>
where
    A::Args: Operation,
    A::Reply: Printed,
    requires { NeedsFirst A.Args.grammar A.meaning }
    ensures { Reads (λ text. text.items) result (text_of A.meaning A.Reply.printed sets (contents script)) }
{
    let text = text_of(alloc, app, &script, sets);
    mem::forget(script);
    text
}

/// The text for the bytes of a script, for the application that it names. The bytes are given back before the script is run.
fn answer(alloc: Global, bytes: Vec<u8>, sets: UndeclaredSets) -> Result<Vec<u8>, Fault>
    ensures { Reads (λ text. text.items) result (and_then (app_script_from bytes.items) (text_in sets)) }
{
    match read_script(alloc, bytes)? {
        AppScript::Kv(script) => text_for(alloc, Kv, script, sets),
        AppScript::Stock(script) => text_for(alloc, Stock, script, sets),
        AppScript::Once(script) => text_for(alloc, stock_once(), script, sets),
    }
}

/// Reads a script to the end of the source, runs the merged order of its epochs one request at a time on no rows, and
/// writes a line for each request and then the last epoch. The whole text is built before any of it is written. It is
/// made for a program that ends thereafter: what a script of the usual form took in memory isn't given back.
pub fn serial<S: Source, K: Sink>(
    alloc: Global,
    sets: UndeclaredSets,
    source: &mut S,
    sink: &mut K,
) -> Result<(), Fault>
    // What is written is the text of what was read.
    ensures ok { OnOk result (IfSome (S.left source.old) (λ bytes. HasText (serial_text sets bytes)
        (λ text. Appends (K.taken sink.old) (K.taken sink.new) text))) }
    // Which fault it is: no other one comes, and a script is refused with its own.
    ensures only { IfErr result IsSerialFault }
    ensures refused { IfErr result (λ fault. IfSome (S.left source.old) (λ bytes.
        Refuses fault (serial_text sets bytes))) }
    // Nothing is written, but where writing fails.
    ensures untouched { IfErr result (λ fault. fault ≢ Fault.WriteFailed → sink.new ≡ sink.old) }
    ensures beginning { IsErrOf result Fault.WriteFailed → IfSome (S.left source.old) (λ bytes.
        HasBeginning (serial_text sets bytes) (K.taken sink.old) (K.taken sink.new)) }
    // How far it read, and which device failed.
    ensures devices { LeavesAsTold S.Source K.Sink source.old source.new sink.old sink.new (result_err result) }
{
    let bytes = read_all(alloc, source)?;
    let text = answer(alloc, bytes, sets)?;
    write_all(sink, &text)?;
    Ok(())
}
