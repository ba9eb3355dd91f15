//! A service from its journal to its last line.
ghost use Rattle.std.specs.Prelude.{◌≡◌, ◌≢◌, ◌+◌, ◌++◌, ◌⊎◌, ℕ, false, take, IfOk, IfErr, OnOk, OnErr, IfSome, option_map};
ghost use Rattle.std.specs.Io.KnownBytes.{Appends};
ghost use Rattle.calvin_types.specs.declared.fault.Fault.TheVariants.{OutOfMemory, EpochsSpent, NotAJournal, JournalFailed, ReadFailed, WriteFailed};
ghost use Rattle.calvin_serial.specs.FirstSets.{NeedsFirst};
ghost use Rattle.calvin_text.specs.Texts.{finished};
ghost use Rattle.calvin_journal.specs.Lines.{has_break};
ghost use Rattle.calvin_journal.specs.Journals.{Becomes};
ghost use Rattle.calvin_serve_recovery.specs.Recovered.{IsNoJournal};
ghost use Rattle.calvin_serve_command.specs.declared.order.Task.TheVariants.{Serve};
ghost use Rattle.calvin_serve_command.specs.Services.{Served, Stops};

use calvin_app::Settles;
use calvin_edge::{Sink, Source, write_all};
use calvin_journal::Refused;
use calvin_journal_log::Log;
use calvin_script::Operation;
use calvin_serve::serve;
use calvin_serve_desk::{Desk, Setting};
use calvin_serve_recovery::recover;
use calvin_serve_rows::StoredRow;
use calvin_text::{Printed, push_last};
use calvin_types::Fault;
use std::alloc::Global;

/// Opens the journal that a log has, with this heading, answers the requests of an input over it to its end, and prints the last
/// epoch.
///
/// Refused, what went out is a beginning of what is told of turns whose epochs every crash leaves in the journal; beside them it
/// may have the epoch that came next.
pub fn serve_journal<A: Settles + Copy + Drop, L: Log + Drop, S: Source, K: Sink>(
    alloc: Global,
    app: A,
    setting: Setting,
    heading: &[u8],
    log: L,
    source: &mut S,
    sink: &mut K,
) -> Result<L, Refused<L>>
where
    A::Args: Operation,
    A::Reply: Printed,
    A::Row: StoredRow,
    requires first { NeedsFirst A.Args.grammar A.meaning }
    requires one_line { has_break heading.now ≡ false }
    ensures ok { OnOk result (IfSome (L.told log) (λ disk. IfSome (S.left source.old) (λ bytes.
        Served A.meaning A.Reply.printed A.Row.form A.Args.grammar setting heading.now Serve disk.seen bytes (K.taken sink.old) (K.taken sink.new)))) }
    ensures stopped { IfErr result (λ r. IfSome (L.told log) (λ disk. IfSome (S.left source.old) (λ bytes.
        Stops A.meaning A.Reply.printed A.Row.form A.Args.grammar setting heading.now Serve disk bytes (K.taken sink.old) (L.told r.log) (K.taken sink.new)))) }
    ensures only { IfErr result (λ r. (r.fault ≡ OutOfMemory) ⊎ (r.fault ≡ NotAJournal) ⊎ (r.fault ≡ JournalFailed) ⊎ (r.fault ≡ EpochsSpent)
        ⊎ (r.fault ≡ ReadFailed) ⊎ (r.fault ≡ WriteFailed)) }
    ensures no_journal { IfErr result (λ r. r.fault ≡ NotAJournal → IfSome (L.told log) (λ disk. IsNoJournal A.Row.form A.Args.grammar setting.partitions heading.now disk.seen)) }
    // Which device failed, and that none did but the one that is told.
    ensures failed { IfErr result (λ r. r.fault ≡ JournalFailed → L.failures r.log ≡ L.failures log + 1) }
    ensures read_failed { IfErr result (λ r. r.fault ≡ ReadFailed → S.failures source.new ≡ S.failures source.old + 1) }
    ensures read_well { IfErr result (λ r. r.fault ≢ ReadFailed → S.failures source.new ≡ S.failures source.old) }
    ensures write_failed { IfErr result (λ r. r.fault ≡ WriteFailed → K.failures sink.new ≡ K.failures sink.old + 1) }
    ensures wrote_well { IfErr result (λ r. r.fault ≢ WriteFailed → K.failures sink.new ≡ K.failures sink.old) }
    ensures no_failure { IfOk result (λ left. (L.failures left ≡ L.failures log) × (S.failures source.new ≡ S.failures source.old) × (K.failures sink.new ≡ K.failures sink.old)) }
{
    match recover(alloc, app, setting, log, heading) {
        Ok(desk) => match serve(alloc, desk, source, sink) {
            Ok(desk) => finish(alloc, desk, sink),
            Err(refused) => Err(refused),
        },
        Err(refused) => Err(refused),
    }
}

/// Prints the last epoch.
pub(crate) fn finish<A: Settles + Drop, L: Log + Drop, K: Sink>(
    alloc: Global,
    desk: Desk<A, L>,
    sink: &mut K,
) -> Result<L, Refused<L>>
where
    A::Args: Operation,
    A::Reply: Printed,
    ensures ok { OnOk result (Appends (K.taken sink.old) (K.taken sink.new) (finished desk.epoch)) }
    ensures err { OnErr result ((n : ℕ) × Appends (K.taken sink.old) (K.taken sink.new) (take n (finished desk.epoch))) }
    ensures left { IfErr result (λ r. Becomes (option_map (λ ls. (ls, ls)) desk.lines) (L.told r.log)) }
    ensures only { IfErr result (λ r. (r.fault ≡ OutOfMemory) ⊎ (r.fault ≡ WriteFailed)) }
    ensures write_failed { IfErr result (λ r. r.fault ≡ WriteFailed → K.failures sink.new ≡ K.failures sink.old + 1) }
    ensures wrote_well { IfErr result (λ r. r.fault ≢ WriteFailed → K.failures sink.new ≡ K.failures sink.old) }
    ensures no_failure { IfOk result (λ log. (L.failures log ≡ desk.failures) × (K.failures sink.new ≡ K.failures sink.old)) }
{
    let last = desk.epoch().checked_sub(1);
    let log = desk.into_log();
    let mut text = Vec::new(alloc);
    if push_last(&mut text, last).is_err() {
        let fault = Fault::OutOfMemory;
        return Err(Refused { fault, log });
    }
    match write_all(sink, &text) {
        Ok(()) => Ok(log),
        Err(_) => {
            let fault = Fault::WriteFailed;
            Err(Refused { fault, log })
        }
    }
}
