//! From a journal to a desk.
ghost use Rattle.std.specs.Prelude.{◌≡◌, ◌<◌, ◌+◌, ◌⊎◌, Err, false, length, IfOk, IfErr, IfSome};
ghost use Rattle.calvin_types.specs.declared.fault.Fault.{Fault as SomeFault};
ghost use Rattle.calvin_types.specs.declared.fault.Fault.TheVariants.{OutOfMemory, NotAJournal, JournalFailed, EpochsSpent};
ghost use Rattle.calvin_types.specs.declared.limits.TheConstants.{MOST_EPOCHS};
ghost use Rattle.calvin_serial.specs.FirstSets.{NeedsFirst};
ghost use Rattle.calvin_journal_log.specs.Disks.{Leads};
ghost use Rattle.calvin_journal.specs.Lines.{has_break};
ghost use Rattle.calvin_serve_recovery.specs.Recovered.{epochs_of, IsNoJournal, IsTooLong, Keeps, HasItsLines, Recovers};
ghost use Rattle.calvin_serve_recovery.specs.Beginnings.{start_at};
ghost use Rattle.calvin_serve_recovery.specs.Runs.{RunsAll, StandsAs};

use crate::replaying::Replaying;
use crate::starting::{Started, find_start};
use calvin_app::Settles;
use calvin_journal::{Opening, Refused};
use calvin_journal_log::Log;
use calvin_script::Operation;
use calvin_serve_desk::{Desk, Setting};
use calvin_serve_rows::StoredRow;
use calvin_text::Printed;
use calvin_types::Fault;
use std::alloc::Global;

/// The desk of the journal that a log has, with this heading: all its epochs are run one after another, from the rows that the
/// journal begins with, if it begins with any. A torn last line is cut off, and a journal that isn't there yet begins.
///
/// `NotAJournal` where the log has no journal with this heading: a whole line of it is no epoch, or its first one tells rows that
/// don't stand behind it, each key once; `JournalFailed` where the log refuses a call; `EpochsSpent` where an epoch has a number
/// that isn't below 2^48; and `OutOfMemory`. Refused, no whole line is lost, and none was added but, maybe, the heading; at
/// `NotAJournal` the log has the lines that it had.
pub fn recover<A: Settles + Copy + Drop, L: Log + Drop>(
    alloc: Global,
    app: A,
    setting: Setting,
    log: L,
    heading: &[u8],
) -> Result<Desk<A, L>, Refused<L>>
where
    A::Args: Operation,
    A::Reply: Printed,
    A::Row: StoredRow,
    requires first { NeedsFirst A.Args.grammar A.meaning }
    requires one_line { has_break heading.now ≡ false }
    ensures ok { IfOk result (λ desk. IfSome (L.told log) (λ disk. Recovers A.meaning A.Reply.printed A.Row.form A.Args.grammar setting heading.now disk.seen desk)) }
    ensures no_failure { IfOk result (λ desk. desk.failures ≡ L.failures log) }
    ensures no_journal { IfErr result (λ r. r.fault ≡ NotAJournal → IfSome (L.told log) (λ disk. IsNoJournal A.Row.form A.Args.grammar setting.partitions heading.now disk.seen)) }
    ensures as_it_was { IfErr result (λ r. r.fault ≡ NotAJournal → Leads HasItsLines (L.told log) (L.told r.log)) }
    ensures spent { IfErr result (λ r. r.fault ≡ EpochsSpent → IfSome (L.told log) (λ disk. IsTooLong A.Row.form heading.now disk.seen)) }
    ensures any_moment { IfErr result (λ r. Leads (Keeps heading.now) (L.told log) (L.told r.log)) }
    ensures only { IfErr result (λ r. (r.fault ≡ OutOfMemory) ⊎ (r.fault ≡ NotAJournal) ⊎ (r.fault ≡ JournalFailed) ⊎ (r.fault ≡ EpochsSpent)) }
    ensures failed { IfErr result (λ r. r.fault ≡ JournalFailed → L.failures r.log ≡ L.failures log + 1) }
{
    match Opening::begin(alloc, log, heading) {
        Ok(opening) => match find_start(alloc, app, opening) {
            Ok(started) => run_all(alloc, app, setting, started),
            Err(refused) => Err(refused),
        },
        Err(refused) => Err(refused),
    }
}

/// Runs the epochs ahead, one after another, from where they begin.
fn run_all<A: Settles + Copy + Drop, L: Log + Drop>(
    alloc: Global,
    app: A,
    setting: Setting,
    started: Started<A, L>,
) -> Result<Desk<A, L>, Refused<L>>
where
    A::Args: Operation,
    A::Reply: Printed,
    requires first { NeedsFirst A.Args.grammar A.meaning }
    ensures ok { IfOk result (λ desk. IfSome started.opening.lines (λ lines. RunsAll A.meaning A.Reply.printed A.Args.grammar setting
        (start_at started.epoch started.store) lines desk)) }
    ensures no_failure { IfOk result (λ desk. desk.failures ≡ started.opening.failures) }
    ensures no_epoch { IfErr result (λ r. r.fault ≡ NotAJournal → IfSome started.opening.lines (λ lines. (fault : SomeFault)
        × (epochs_of A.Args.grammar setting.partitions lines.ahead ≡ Err fault))) }
    ensures spent { IfErr result (λ r. r.fault ≡ EpochsSpent → IfSome started.opening.lines (λ lines. MOST_EPOCHS < started.epoch + length lines.ahead)) }
    ensures any_moment { IfErr result (λ r. StandsAs started.opening.lines (L.told r.log)) }
    ensures only { IfErr result (λ r. (r.fault ≡ OutOfMemory) ⊎ (r.fault ≡ NotAJournal) ⊎ (r.fault ≡ JournalFailed) ⊎ (r.fault ≡ EpochsSpent)) }
    ensures failed { IfErr result (λ r. r.fault ≡ JournalFailed → L.failures r.log ≡ started.opening.failures + 1) }
{
    let mut replaying = Replaying::new(alloc, app, setting, started);
    let mut text = Vec::new(alloc);
    'epochs: loop {
        match replaying.run_next(alloc, &mut text) {
            Ok(true) => {}
            Ok(false) => return replaying.finish(),
            Err(fault) => return Err(replaying.stop(fault)),
        }
    }
}
