//! A service of a journal that is first written anew, to begin with the rows in which its epochs end.
ghost use Rattle.std.specs.Prelude.{◌≡◌, ◌≢◌, ◌+◌, ◌⊎◌, ℕ, List, false, IfOk, IfErr, OnOk, OnErr, IfSome, option_map};
ghost use Rattle.calvin_types.specs.declared.fault.Fault.TheVariants.{OutOfMemory, EpochsSpent, NotAJournal, JournalInUse, JournalFailed, ReadFailed, WriteFailed};
ghost use Rattle.calvin_serial.specs.FirstSets.{NeedsFirst};
ghost use Rattle.calvin_journal.specs.Lines.{has_break, text};
ghost use Rattle.calvin_journal.specs.Journals.{synced, Becomes};
ghost use Rattle.calvin_serve_command.specs.declared.order.Task.TheVariants.{Compact};
ghost use Rattle.calvin_serve_command.specs.Services.{IsAnew, Served, Stops};
ghost use Rattle.calvin_serve_command.specs.Compacting.{IsCompacted, IsCompactedOf};

use crate::journals::Journals;
use crate::serving::finish;
use calvin_app::Settles;
use calvin_edge::{Sink, Source};
use calvin_journal::Refused;
use calvin_journal_log::Log;
use calvin_script::Operation;
use calvin_serve::serve;
use calvin_serve_compaction::compact;
use calvin_serve_desk::{Desk, Setting};
use calvin_serve_recovery::recover;
use calvin_serve_rows::StoredRow;
use calvin_text::Printed;
use calvin_types::Fault;
use std::alloc::Global;

/// Opens the journal that the log of a name has, with this heading, has it begin with the rows in which its epochs end, answers the
/// requests of an input over it to its end, and prints the last epoch.
///
/// What stands under the name is replaced by a whole journal, or, refused, maybe not at all, and then nothing went out. Refused, what went out is a beginning of what is told
/// of turns whose epochs every crash leaves in the log that is handed back; beside them it may have the epoch that came next. It
/// is the former log where the journal wasn't replaced, or it isn't sure that it was.
pub fn serve_anew<A: Settles + Copy + Drop, L: Log + Drop, J: Journals<L>, S: Source, K: Sink>(
    alloc: Global,
    app: A,
    setting: Setting,
    heading: &[u8],
    journals: &mut J,
    name: &str,
    log: L,
    source: &mut S,
    sink: &mut K,
) -> Result<L, Refused<L>>
where
    A::Args: Operation,
    A::Reply: Printed,
    A::Row: StoredRow,
    requires first { NeedsFirst A.Args.grammar A.meaning }
    requires one_line { has_break heading.now ≡ false }
    ensures ok { OnOk result (IfSome (L.told log) (λ disk. IfSome (S.left source.old) (λ bytes.
        Served A.meaning A.Reply.printed A.Row.form A.Args.grammar setting heading.now Compact disk.seen bytes (K.taken sink.old) (K.taken sink.new)))) }
    ensures stopped { IfErr result (λ r. IfSome (L.told log) (λ disk. IfSome (S.left source.old) (λ bytes.
        Stops A.meaning A.Reply.printed A.Row.form A.Args.grammar setting heading.now Compact disk bytes (K.taken sink.old) (L.told r.log) (K.taken sink.new)))) }
    ensures replaced { OnOk result (IfSome (L.told log) (λ disk. IfSome (J.found journals.new name.now) (
        IsCompactedOf A.meaning A.Reply.printed A.Row.form A.Args.grammar setting heading.now disk.seen))) }
    ensures whole { OnErr result (((J.found journals.new name.now ≡ J.found journals.old name.now) × (K.taken sink.new ≡ K.taken sink.old)) ⊎ IfSome (L.told log) (λ disk.
        IfSome (J.found journals.new name.now) (IsCompactedOf A.meaning A.Reply.printed A.Row.form A.Args.grammar setting heading.now disk.seen))) }
    ensures only { IfErr result (λ r. (r.fault ≡ OutOfMemory) ⊎ (r.fault ≡ NotAJournal) ⊎ (r.fault ≡ JournalInUse) ⊎ (r.fault ≡ JournalFailed)
        ⊎ (r.fault ≡ EpochsSpent) ⊎ (r.fault ≡ ReadFailed) ⊎ (r.fault ≡ WriteFailed)) }
    // A call of the journals was refused, or one of a log.
    ensures failed { IfErr result (λ r. r.fault ≡ JournalFailed → (J.failures journals.new ≡ J.failures journals.old + 1)
        ⊎ ((before left : L) × (L.failures left ≡ L.failures before + 1))) }
    ensures read_failed { IfErr result (λ r. r.fault ≡ ReadFailed → S.failures source.new ≡ S.failures source.old + 1) }
    ensures read_well { IfErr result (λ r. r.fault ≢ ReadFailed → S.failures source.new ≡ S.failures source.old) }
    ensures write_failed { IfErr result (λ r. r.fault ≡ WriteFailed → K.failures sink.new ≡ K.failures sink.old + 1) }
    ensures wrote_well { IfErr result (λ r. r.fault ≢ WriteFailed → K.failures sink.new ≡ K.failures sink.old) }
    ensures no_failure { OnOk result ((S.failures source.new ≡ S.failures source.old) × (K.failures sink.new ≡ K.failures sink.old)) }
{
    match recover(alloc, app, setting, log, heading) {
        Ok(desk) => match write_anew(alloc, heading, journals, name, desk) {
            Ok(anew) => match serve(alloc, anew, source, sink) {
                Ok(desk) => finish(alloc, desk, sink),
                Err(refused) => Err(refused),
            },
            Err(refused) => Err(refused),
        },
        Err(refused) => Err(refused),
    }
}

/// Has the journal of a name begin with the rows of its desk.
///
/// Refused, the log that is handed back is the former one, with all its lines.
fn write_anew<A: Settles + Drop, L: Log + Drop, J: Journals<L>>(
    alloc: Global,
    heading: &[u8],
    journals: &mut J,
    name: &str,
    desk: Desk<A, L>,
) -> Result<Desk<A, L>, Refused<L>>
where
    A::Args: Operation,
    A::Reply: Printed,
    A::Row: StoredRow,
    requires one_line { has_break heading.now ≡ false }
    ensures ok { IfOk result (λ anew. IsAnew A.Row.form heading.now desk anew) }
    ensures replaced { OnOk result (IfSome (J.found journals.new name.now) (IsCompacted A.Row.form heading.now desk)) }
    ensures counted { IfOk result (λ anew. (begun : L) × (anew.failures ≡ L.failures begun)) }
    ensures left { IfErr result (λ r. Becomes (option_map (λ ls. (ls, ls)) desk.lines) (L.told r.log)) }
    ensures whole { OnErr result ((J.found journals.new name.now ≡ J.found journals.old name.now)
        ⊎ IfSome (J.found journals.new name.now) (IsCompacted A.Row.form heading.now desk)) }
    ensures only { IfErr result (λ r. (r.fault ≡ OutOfMemory) ⊎ (r.fault ≡ NotAJournal) ⊎ (r.fault ≡ JournalInUse) ⊎ (r.fault ≡ JournalFailed)) }
    // A call of the journals was refused, or one of the new log, where it isn't memory that ran out.
    ensures refused { IfErr result (λ r. r.fault ≢ OutOfMemory → (J.failures journals.new ≡ J.failures journals.old + 1)
        ⊎ ((begun left : L) × (L.failures left ≡ L.failures begun + 1))) }
{
    let begun = match journals.begin_anew(alloc, name, heading) {
        Ok(log) => log,
        Err(fault) => return Err(stop(desk, fault)),
    };
    let journal = match compact(alloc, heading, &desk, begun) {
        Ok(journal) => journal,
        Err(refused) => return Err(stop(desk, refused.fault)),
    };
    match journals.replace(alloc, name, journal.log()) {
        Ok(()) => Ok(desk.over(journal)),
        Err(fault) => Err(stop(desk, fault)),
    }
}

/// The end, for this reason. The log has the desk's lines.
fn stop<A: Settles + Drop, L: Log + Drop>(desk: Desk<A, L>, fault: Fault) -> Refused<L>
where
    A::Args: Operation,
    A::Reply: Printed,
    ensures fault { result.fault ≡ fault }
    ensures left { Becomes (option_map (λ ls. (ls, ls)) desk.lines) (L.told result.log) }
{
    Refused {
        fault,
        log: desk.into_log(),
    }
}
