//! What the epochs of a journal were answered, out.
ghost use Rattle.std.specs.Prelude.{◌≡◌, ◌≢◌, ◌<◌, ◌+◌, ◌⊎◌, ℕ, Err, false, length, take, IfOk, IfErr, OnOk, OnErr, IfSome};
ghost use Rattle.std.specs.Io.KnownBytes.{Appends};
ghost use Rattle.calvin_types.specs.declared.fault.Fault.{Fault as SomeFault};
ghost use Rattle.calvin_types.specs.declared.fault.Fault.TheVariants.{OutOfMemory, NotAJournal, JournalFailed, EpochsSpent, WriteFailed};
ghost use Rattle.calvin_types.specs.declared.limits.TheConstants.{MOST_EPOCHS};
ghost use Rattle.calvin_text.specs.Texts.{finished};
ghost use Rattle.calvin_serial.specs.FirstSets.{NeedsFirst};
ghost use Rattle.calvin_journal_log.specs.Disks.{Leads};
ghost use Rattle.calvin_journal.specs.Lines.{has_break};
ghost use Rattle.calvin_serve_recovery.specs.Recovered.{epochs_of, IsNoJournal, IsTooLong, Keeps, HasItsLines, Prints, PrintsInPart};
ghost use Rattle.calvin_serve_recovery.specs.Beginnings.{start_at};
ghost use Rattle.calvin_serve_recovery.specs.Runs.{PrintsAll, PrintsSome, StandsAs};

use crate::replaying::Replaying;
use crate::starting::{Started, find_start};
use calvin_app::Settles;
use calvin_edge::{Sink, write_all};
use calvin_journal::{Opening, Refused};
use calvin_journal_log::Log;
use calvin_script::Operation;
use calvin_serve_desk::{Setting, answered_as_a_script};
use calvin_serve_rows::StoredRow;
use calvin_text::{Printed, push_finished};
use calvin_types::Fault;
use std::alloc::Global;

/// Prints what the epochs of the journal that a log has, with this heading, were answered: they are run one after another, from the
/// rows that the journal begins with, if it begins with any, and the answers of each go out before the next one is read. The last
/// line tells the last epoch. A journal that isn't there yet begins; a torn last line is none, and is left.
///
/// Refused as `recover` is, and with `WriteFailed` where the sink refuses a write. Then what went out is a beginning of what the
/// first so many epochs were answered.
pub fn replay<A: Settles + Copy + Drop, L: Log + Drop, K: Sink>(
    alloc: Global,
    app: A,
    setting: Setting,
    log: L,
    heading: &[u8],
    sink: &mut K,
) -> Result<L, Refused<L>>
where
    A::Args: Operation,
    A::Reply: Printed,
    A::Row: StoredRow,
    requires first { NeedsFirst A.Args.grammar A.meaning }
    requires one_line { has_break heading.now ≡ false }
    ensures ok { OnOk result (IfSome (L.told log) (λ disk. Prints A.meaning A.Reply.printed A.Row.form A.Args.grammar setting heading.now
        disk.seen (K.taken sink.old) (K.taken sink.new))) }
    ensures err { OnErr result ((K.taken sink.new ≡ K.taken sink.old) ⊎ IfSome (L.told log) (λ disk. PrintsInPart A.meaning A.Reply.printed A.Row.form
        A.Args.grammar setting heading.now disk.seen (K.taken sink.old) (K.taken sink.new))) }
    ensures left { IfOk result (λ left. Leads (Keeps heading.now) (L.told log) (L.told left)) }
    ensures any_moment { IfErr result (λ r. Leads (Keeps heading.now) (L.told log) (L.told r.log)) }
    ensures no_journal { IfErr result (λ r. r.fault ≡ NotAJournal → IfSome (L.told log) (λ disk. IsNoJournal A.Row.form A.Args.grammar setting.partitions heading.now disk.seen)) }
    ensures as_it_was { IfErr result (λ r. r.fault ≡ NotAJournal → Leads HasItsLines (L.told log) (L.told r.log)) }
    ensures spent { IfErr result (λ r. r.fault ≡ EpochsSpent → IfSome (L.told log) (λ disk. IsTooLong A.Row.form heading.now disk.seen)) }
    ensures only { IfErr result (λ r. (r.fault ≡ OutOfMemory) ⊎ (r.fault ≡ NotAJournal) ⊎ (r.fault ≡ JournalFailed) ⊎ (r.fault ≡ EpochsSpent)
        ⊎ (r.fault ≡ WriteFailed)) }
    ensures failed { IfErr result (λ r. r.fault ≡ JournalFailed → L.failures r.log ≡ L.failures log + 1) }
    ensures write_failed { IfErr result (λ r. r.fault ≡ WriteFailed → K.failures sink.new ≡ K.failures sink.old + 1) }
    ensures wrote_well { IfErr result (λ r. r.fault ≢ WriteFailed → K.failures sink.new ≡ K.failures sink.old) }
    ensures no_failure { IfOk result (λ left. (L.failures left ≡ L.failures log) × (K.failures sink.new ≡ K.failures sink.old)) }
{
    // So what goes out is the text of a script.
    answered_as_a_script::<A::Args, A::Row, A::Reply>();
    match Opening::begin(alloc, log, heading) {
        Ok(opening) => match find_start(alloc, app, opening) {
            Ok(started) => print_all(alloc, app, setting, started, sink),
            Err(refused) => Err(refused),
        },
        Err(refused) => Err(refused),
    }
}

/// Runs the epochs ahead, one after another, from where they begin, and prints what they were answered.
fn print_all<A: Settles + Copy + Drop, L: Log + Drop, K: Sink>(
    alloc: Global,
    app: A,
    setting: Setting,
    started: Started<A, L>,
    sink: &mut K,
) -> Result<L, Refused<L>>
where
    A::Args: Operation,
    A::Reply: Printed,
    requires first { NeedsFirst A.Args.grammar A.meaning }
    ensures ok { OnOk result (IfSome started.opening.lines (λ lines. PrintsAll A.meaning A.Reply.printed A.Args.grammar setting
        (start_at started.epoch started.store) lines (K.taken sink.old) (K.taken sink.new))) }
    ensures err { OnErr result (IfSome started.opening.lines (λ lines. PrintsSome A.meaning A.Reply.printed A.Args.grammar setting
        (start_at started.epoch started.store) lines (K.taken sink.old) (K.taken sink.new))) }
    ensures left { IfOk result (λ left. StandsAs started.opening.lines (L.told left)) }
    ensures any_moment { IfErr result (λ r. StandsAs started.opening.lines (L.told r.log)) }
    ensures no_epoch { IfErr result (λ r. r.fault ≡ NotAJournal → IfSome started.opening.lines (λ lines. (fault : SomeFault)
        × (epochs_of A.Args.grammar setting.partitions lines.ahead ≡ Err fault))) }
    ensures spent { IfErr result (λ r. r.fault ≡ EpochsSpent → IfSome started.opening.lines (λ lines. MOST_EPOCHS < started.epoch + length lines.ahead)) }
    ensures only { IfErr result (λ r. (r.fault ≡ OutOfMemory) ⊎ (r.fault ≡ NotAJournal) ⊎ (r.fault ≡ JournalFailed) ⊎ (r.fault ≡ EpochsSpent)
        ⊎ (r.fault ≡ WriteFailed)) }
    ensures failed { IfErr result (λ r. r.fault ≡ JournalFailed → L.failures r.log ≡ started.opening.failures + 1) }
    ensures write_failed { IfErr result (λ r. r.fault ≡ WriteFailed → K.failures sink.new ≡ K.failures sink.old + 1) }
    ensures wrote_well { IfErr result (λ r. r.fault ≢ WriteFailed → K.failures sink.new ≡ K.failures sink.old) }
    ensures no_failure { IfOk result (λ left. (L.failures left ≡ started.opening.failures) × (K.failures sink.new ≡ K.failures sink.old)) }
{
    let mut replaying = Replaying::new(alloc, app, setting, started);
    let mut text = Vec::new(alloc);
    'epochs: loop {
        match replaying.run_next(alloc, &mut text) {
            Ok(true) => {}
            Ok(false) => return print_last(replaying, &mut text, sink),
            Err(fault) => return Err(replaying.stop(fault)),
        }
        match write_all(sink, &text) {
            Ok(()) => {}
            Err(_) => return Err(replaying.stop(Fault::WriteFailed)),
        }
    }
}

/// Prints the last line of a journal whose epochs were run.
fn print_last<A: Settles + Copy + Drop, L: Log + Drop, K: Sink>(
    replaying: Replaying<A, L>,
    text: &mut Vec<u8>,
    sink: &mut K,
) -> Result<L, Refused<L>>
where
    A::Args: Operation,
    A::Reply: Printed,
    ensures ok { OnOk result (Appends (K.taken sink.old) (K.taken sink.new) (finished replaying.epoch)) }
    ensures err { OnErr result ((n : ℕ) × Appends (K.taken sink.old) (K.taken sink.new) (take n (finished replaying.epoch))) }
    ensures left { IfOk result (λ left. StandsAs replaying.opening.lines (L.told left)) }
    ensures any_moment { IfErr result (λ r. StandsAs replaying.opening.lines (L.told r.log)) }
    ensures only { IfErr result (λ r. (r.fault ≡ OutOfMemory) ⊎ (r.fault ≡ WriteFailed)) }
    ensures write_failed { IfErr result (λ r. r.fault ≡ WriteFailed → K.failures sink.new ≡ K.failures sink.old + 1) }
    ensures wrote_well { IfErr result (λ r. r.fault ≢ WriteFailed → K.failures sink.new ≡ K.failures sink.old) }
    ensures no_failure { IfOk result (λ left. (L.failures left ≡ replaying.opening.failures) × (K.failures sink.new ≡ K.failures sink.old)) }
{
    text.clear();
    match push_finished(text, replaying.epoch as usize) {
        Ok(()) => match write_all(sink, text) {
            Ok(()) => Ok(replaying.into_log()),
            Err(_) => Err(replaying.stop(Fault::WriteFailed)),
        },
        Err(_) => Err(replaying.stop(Fault::OutOfMemory)),
    }
}
