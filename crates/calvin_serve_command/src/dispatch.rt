//! What a line of `serve` runs, and how that ends.
ghost use Rattle.std.specs.Prelude.{◌≡◌, ◌≢◌, ◌⊎◌, map, codes, OnOk, IfErr, IfSome, false};
ghost use Rattle.calvin_ending.specs.Statuses.{IsStatus};
ghost use Rattle.calvin_ending.specs.Telling.{Tells};
ghost use Rattle.calvin_serial.specs.FirstSets.{NeedsFirst};
ghost use Rattle.calvin_journal.specs.Lines.{has_break};
ghost use Rattle.calvin_serve_command.specs.declared.order.Order.{Order as TheOrder};
ghost use Rattle.calvin_serve_command.specs.Line.{IsTaken, IsAsked, IsHelpLine, IsBadLine, is_serve_line};
ghost use Rattle.calvin_serve_command.specs.Services.{Does, DoesFor};
ghost use Rattle.calvin_serve_command.specs.Compacting.{Leaves, LeavesFor};
ghost use Rattle.calvin_serve_command.specs.Endings.{Ends, EndsBy};

use crate::compacting::serve_anew;
use crate::heading::heading;
use crate::journals::Journals;
use crate::order::{Order, Task};
use crate::serving::serve_journal;
use crate::wishes::{Refusal, Wish, parse};
use calvin_app::{Kv, Settles};
use calvin_edge::{Sink, Source};
use calvin_ending::{end_with, print_help, refuse_line};
use calvin_journal_log::{Access, Log};
use calvin_script::{AppName, Operation};
use calvin_serve_recovery::replay;
use calvin_serve_rows::StoredRow;
use calvin_stock::{Stock, stock_once};
use calvin_text::Printed;
use calvin_types::Fault;
use std::alloc::Global;
use std::convert::AsStr;

/// Whether a line, the program's name first, is for `serve`.
pub fn is_serve_line<W: AsStr>(words: &[W]) -> bool
    ensures { result ≡ is_serve_line (map W.text words.now) }
{
    match words.get(1) {
        Some(word) => word.as_str() == "serve",
        None => false,
    }
}

/// Runs a line of `serve`, and answers its status: 0 where all went well, 2 where the line is refused or the journal is none of
/// this kind, 4 for want of memory, 5 where a device or the journal failed. The line on standard error may fail to be written;
/// the status stays.
pub fn serve_command<W, L, J, S, K, E>(
    alloc: Global,
    words: &[W],
    journals: &mut J,
    input: &mut S,
    output: &mut K,
    error: &mut E,
) -> u8
where
    W: AsStr,
    L: Log + Drop,
    J: Journals<L>,
    S: Source,
    K: Sink,
    E: Sink,
    ensures statuses { IsStatus result }
    // What is asked for is done, where the status is 0, and no device failed; else standard error is told why, and the device failed
    // that is told.
    ensures serve { IsTaken (map W.text words.now) → (asked : TheOrder) → IsAsked (map W.text words.now) asked → (order : TheOrder) × IsAsked (map W.text words.now) order
        × Ends order (J.found journals.old) (J.found journals.new) (S.left input.old) (K.taken output.old) (K.taken output.new) (E.taken error.old)
        (E.taken error.new) (E.failures error.old) (E.failures error.new)
        (S.failures input.old) (S.failures input.new) (K.failures output.old) (K.failures output.new) result }
    // A line that clap refuses, and one that asks for help, read nothing and open no journal.
    ensures idle { ¬ IsTaken (map W.text words.now) → (input.new ≡ input.old) × (journals.new ≡ journals.old) }
    // A line that asks for help isn't refused, and a bad line is, unless memory runs out.
    ensures help { IsHelpLine (map W.text words.now) → result ≢ 2 }
    ensures bad { IsBadLine (map W.text words.now) → (result ≡ 2) ⊎ (result ≡ 4) }
    ensures told_bad_line { ¬ IsTaken (map W.text words.now) → result ≡ 2
        → Tells (E.taken error.old) (E.taken error.new) (E.failures error.old) (E.failures error.new) (codes "calvin: bad line\n") }
{
    match parse(alloc, words) {
        Ok(Wish::Serve(order)) => match run_order(alloc, &order, journals, input, output) {
            Ok(()) => 0,
            Err(fault) => end_with(fault, error),
        },
        Ok(Wish::Help(help)) => print_help(alloc, &help, output, error),
        Err(Refusal::BadLine) => refuse_line(error),
        Err(Refusal::OutOfMemory) => end_with(Fault::OutOfMemory, error),
    }
}

/// Opens the journal that is asked for, and does with it what is asked for.
fn run_order<L: Log + Drop, J: Journals<L>, S: Source, K: Sink>(
    alloc: Global,
    order: &Order<'_>,
    journals: &mut J,
    input: &mut S,
    output: &mut K,
) -> Result<(), Fault>
    ensures ok { OnOk result (IfSome (J.found journals.old order.now.name.now) (λ disk. IfSome (S.left input.old) (λ bytes.
        Does order.now disk.seen bytes (K.taken output.old) (K.taken output.new)))) }
    ensures no_failure { OnOk result ((S.failures input.new ≡ S.failures input.old) × (K.failures output.new ≡ K.failures output.old)) }
    ensures blame { IfErr result (λ f. EndsBy f (S.failures input.old) (S.failures input.new) (K.failures output.old) (K.failures output.new)) }
    ensures leaves { Leaves order.now (J.found journals.old order.now.name.now) (J.found journals.new order.now.name.now) }
{
    let Ok(heading) = heading(alloc, order.application, &order.setting) else {
        return Err(Fault::OutOfMemory);
    };
    let access = match order.task {
        Task::Serve | Task::Compact => Access::Add,
        Task::Replay => Access::Read,
    };
    let log = match journals.open(alloc, order.name, &heading, access) {
        Ok(log) => log,
        Err(fault) => return Err(fault),
    };
    match order.application {
        AppName::Kv => run_for(alloc, Kv, order, &heading, journals, log, input, output),
        AppName::Stock => run_for(alloc, Stock, order, &heading, journals, log, input, output),
        AppName::Once => run_for(
            alloc,
            stock_once(),
            order,
            &heading,
            journals,
            log,
            input,
            output,
        ),
    }
}

/// The same for an application.
fn run_for<A: Settles + Copy + Drop, L: Log + Drop, J: Journals<L>, S: Source, K: Sink>(
    alloc: Global,
    app: A,
    order: &Order<'_>,
    heading: &[u8],
    journals: &mut J,
    log: L,
    input: &mut S,
    output: &mut K,
) -> Result<(), Fault>
where
    A::Args: Operation,
    A::Reply: Printed,
    A::Row: StoredRow,
    requires first { NeedsFirst A.Args.grammar A.meaning }
    requires one_line { has_break heading.now ≡ false }
    requires log { L.told log ≡ J.found journals.old order.now.name.now }
    ensures ok { OnOk result (IfSome (L.told log) (λ disk. IfSome (S.left input.old) (λ bytes.
        DoesFor A.meaning A.Reply.printed A.Row.form A.Args.grammar order.now.setting heading.now order.now.task disk.seen bytes (K.taken output.old) (K.taken output.new)))) }
    ensures no_failure { OnOk result ((S.failures input.new ≡ S.failures input.old) × (K.failures output.new ≡ K.failures output.old)) }
    ensures blame { IfErr result (λ f. EndsBy f (S.failures input.old) (S.failures input.new) (K.failures output.old) (K.failures output.new)) }
    ensures leaves { LeavesFor A.meaning A.Reply.printed A.Row.form A.Args.grammar order.now.setting heading.now order.now.task
        (J.found journals.old order.now.name.now) (J.found journals.new order.now.name.now) }
{
    let ended = match order.task {
        Task::Serve => serve_journal(alloc, app, order.setting, heading, log, input, output),
        Task::Compact => serve_anew(
            alloc,
            app,
            order.setting,
            heading,
            journals,
            order.name,
            log,
            input,
            output,
        ),
        Task::Replay => replay(alloc, app, order.setting, log, heading, output),
    };
    match ended {
        Ok(_) => Ok(()),
        Err(refused) => Err(refused.fault),
    }
}
