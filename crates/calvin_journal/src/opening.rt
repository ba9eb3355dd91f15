//! A journal that is read from what a crash left.
ghost use Rattle.std.specs.Prelude.{◌≡◌, ◌+◌, ◌≤◌, ◌∷◌, ◌++◌, [], ℕ, List, true, false, length, drop, None, IfOk, IfErr, OnOk, OnErr, IfSome, option_map, ◌⊎◌};
ghost use Rattle.std.specs.Option.{ForSome};
ghost use Rattle.calvin_journal_log.specs.Disks.{Leads, Synced, SyncedInPart};
ghost use Rattle.calvin_types.specs.declared.fault.Fault.TheVariants.{OutOfMemory, NotAJournal, JournalFailed};
ghost use Rattle.calvin_journal.specs.Lines.{has_break};
ghost use Rattle.calvin_journal.specs.Journals.{synced, epochs_in, Becomes, ClosedAt, ClosedInPart, OpensInPart};
ghost use Rattle.calvin_journal.specs.Readings.{Opens, Hands, HandsOut, part_at};

use crate::adding::{add_synced, with_feed};
use crate::journal::Journal;
use crate::reader::Reader;
use crate::refused::Refused;
use calvin_journal_log::{Log, LogFailed};
use calvin_types::Fault;
use std::alloc::Global;
use std::marker::Model;

/// A journal whose lines are read one by one. It is synced before any of them is handed out, so that what rests on one may be
/// told at once. To contracts it is the lines that were handed out, the heading first, and those ahead, where the log tells its
/// bytes.
#[derive(Drop)]
pub struct Opening<L: Log + Drop> {
    reader: Reader<L>,
}

impl<L: Log + Drop> Model for Opening<L> {
    ghost use Rattle.std.specs.Prelude.{◌≡◌, take, option_map, IfSome};
    ghost use Rattle.calvin_journal.specs.Lines.{lines_of, text};
    ghost use Rattle.calvin_journal.specs.Readings.{Progress, lines_at, part_at};

    ghost Value = { Progress };

    ghost view = { λ o. record { lines = option_map (λ disk. lines_at (part_at o.reader.done disk)) (L.told o.reader.log); failures = L.failures o.reader.log } };

    ghost invariant = { λ o. IfSome (L.told o.reader.log) (λ disk. take o.reader.done disk.seen ≡ text (lines_of (take o.reader.done disk.seen))) };
}

impl<L: Log + Drop> Opening<L> {
    /// Begins to read the journal that a log has: what stands there is synced, and its first line has to be the heading. A log
    /// with a beginning of the heading alone, or with nothing, gets the whole heading.
    ///
    /// `NotAJournal` where it is anything else. Then the log has what it had.
    pub fn begin(alloc: Global, log: L, heading: &[u8]) -> Result<Opening<L>, Refused<L>>
        requires one_line { has_break heading.now ≡ false }
        ensures ok { IfOk result (λ o. IfSome (L.told log) (λ disk. Opens heading.now disk.seen o.lines)) }
        ensures untold { IfOk result (λ o. L.told log ≡ None → o.lines ≡ None) }
        ensures no_failure { IfOk result (λ o. o.failures ≡ L.failures log) }
        ensures no_journal { IfErr result (λ r. r.fault ≡ NotAJournal → IfSome (L.told log) (λ disk. epochs_in heading.now disk.seen ≡ None)) }
        ensures as_it_was { IfErr result (λ r. r.fault ≡ NotAJournal → L.told r.log ≡ option_map (λ disk. synced disk.seen) (L.told log)) }
        ensures any_moment { IfErr result (λ r. Leads (OpensInPart heading.now) (L.told log) (L.told r.log)) }
        ensures failed { IfErr result (λ r. r.fault ≡ JournalFailed → L.failures r.log ≡ L.failures log + 1) }
        ensures only { IfErr result (λ r. (r.fault ≡ OutOfMemory) ⊎ (r.fault ≡ NotAJournal) ⊎ (r.fault ≡ JournalFailed)) }
    {
        let log = settle(log)?;
        let mut reader = Reader::new(alloc, log, 0);
        let mut line = Vec::new(alloc);
        match reader.next_line(alloc, &mut line) {
            Ok(true) => headed(reader, &line, heading),
            Ok(false) => begun(alloc, reader, heading),
            Err(fault) => Err(Refused {
                fault,
                log: reader.log,
            }),
        }
    }

    /// Puts the next line in place of what `line` has, without its line feed, and says whether there was one. A line that isn't
    /// whole is none.
    pub fn next_line(&mut self, alloc: Global, line: &mut Vec<u8>) -> Result<bool, Fault>
        ensures line { IfOk result (λ more. more ≡ true → HandsOut line.new.items self.old.lines self.new.lines) }
        ensures one_line { IfOk result (λ more. more ≡ true → has_break line.new.items ≡ false) }
        ensures end { IfOk result (λ more. more ≡ false → IfSome self.old.lines (λ old. old.ahead ≡ [])) }
        ensures stays { IfOk result (λ more. more ≡ false → self.new.lines ≡ self.old.lines) }
        ensures err { OnErr result (self.new.lines ≡ self.old.lines) }
        ensures only { IfErr result (λ f. (f ≡ OutOfMemory) ⊎ (f ≡ JournalFailed)) }
        ensures failed { IfErr result (λ f. f ≡ JournalFailed → self.new.failures ≡ self.old.failures + 1) }
        ensures not_failed { IfErr result (λ f. f ≡ OutOfMemory → self.new.failures ≡ self.old.failures) }
        ensures no_failure { OnOk result (self.new.failures ≡ self.old.failures) }
    {
        self.reader.next_line(alloc, line)
    }

    /// Puts the line that comes next in place of what `line` has, as `next_line` does, and doesn't hand it out: whoever asks
    /// again has it again.
    pub fn peek_line(&mut self, alloc: Global, line: &mut Vec<u8>) -> Result<bool, Fault>
        ensures line { IfOk result (λ more. more ≡ true → IfSome self.old.lines (λ lines. (rest : List (List ℕ)) × (lines.ahead ≡ line.new.items ∷ rest))) }
        ensures one_line { IfOk result (λ more. more ≡ true → has_break line.new.items ≡ false) }
        ensures end { IfOk result (λ more. more ≡ false → IfSome self.old.lines (λ lines. lines.ahead ≡ [])) }
        ensures same { self.new.lines ≡ self.old.lines }
        ensures only { IfErr result (λ f. (f ≡ OutOfMemory) ⊎ (f ≡ JournalFailed)) }
        ensures failed { IfErr result (λ f. f ≡ JournalFailed → self.new.failures ≡ self.old.failures + 1) }
        ensures not_failed { IfErr result (λ f. f ≡ OutOfMemory → self.new.failures ≡ self.old.failures) }
        ensures no_failure { OnOk result (self.new.failures ≡ self.old.failures) }
    {
        self.reader.peek_line(alloc, line)
    }

    /// The journal, when all its lines were handed out. What stands behind them, a line that a crash has torn, is cut off, and
    /// the log is synced.
    pub fn finish(self) -> Result<Journal<L>, Refused<L>>
        requires at_the_end { ForSome self.lines (λ lines. lines.ahead ≡ []) }
        ensures ok { IfOk result (λ j. j ≡ record { lines = option_map (λ lines. lines.done) self.lines; failures = self.failures }) }
        ensures any_moment { IfErr result (λ r. Becomes (option_map (λ lines. (lines.done, lines.done)) self.lines) (L.told r.log)) }
        ensures failed { IfErr result (λ r. (r.fault ≡ JournalFailed) × (L.failures r.log ≡ self.failures + 1)) }
    {
        let reader = self.reader;
        let size = reader.done;
        let mut log = reader.log;
        match close(&mut log, size) {
            Ok(()) => Ok(Journal::new(log)),
            Err(failed) => {
                let fault = Fault::from(failed);
                Err(Refused { fault, log })
            }
        }
    }

    /// The log, as it was found. Whatever crashes, its file has the lines that were handed out and those ahead.
    pub fn into_log(self) -> L
        ensures any_moment { Becomes (option_map (λ lines. (lines.done ++ lines.ahead, lines.done ++ lines.ahead)) self.lines) (L.told result) }
        ensures failures { L.failures result ≡ self.failures }
    {
        self.reader.log
    }
}

/// Syncs a log that was found.
fn settle<L: Log + Drop>(log: L) -> Result<L, Refused<L>>
    ensures ok { IfOk result (λ new. Leads Synced (L.told log) (L.told new)) }
    ensures no_failure { IfOk result (λ new. L.failures new ≡ L.failures log) }
    ensures part { IfErr result (λ r. Leads SyncedInPart (L.told log) (L.told r.log)) }
    ensures failed { IfErr result (λ r. (r.fault ≡ JournalFailed) × (L.failures r.log ≡ L.failures log + 1)) }
{
    let mut log = log;
    match log.sync() {
        Ok(()) => Ok(log),
        Err(failed) => {
            let fault = Fault::from(failed);
            Err(Refused { fault, log })
        }
    }
}

/// A journal of which the first whole line was read, whatever it is.
fn headed<L: Log + Drop>(
    reader: Reader<L>,
    line: &[u8],
    heading: &[u8],
) -> Result<Opening<L>, Refused<L>>
    requires handed { ForSome (L.told reader.log) (λ disk. Hands line.now (part_at 0 disk) (part_at reader.done disk)) }
    requires one_line { has_break line.now ≡ false }
    ensures ok { IfOk result (λ o. IfSome (L.told reader.log) (λ disk. Opens heading.now disk.seen o.lines)) }
    ensures untold { IfOk result (λ o. L.told reader.log ≡ None → o.lines ≡ None) }
    ensures same_failures { IfOk result (λ o. o.failures ≡ L.failures reader.log) }
    ensures no_journal { IfErr result (λ r. (r.fault ≡ NotAJournal)
        × IfSome (L.told reader.log) (λ disk. epochs_in heading.now disk.seen ≡ None)) }
    ensures same_log { IfErr result (λ r. r.log ≡ reader.log) }
{
    if line != heading {
        return Err(Refused {
            fault: Fault::NotAJournal,
            log: reader.log,
        });
    }
    Ok(Opening { reader })
}

/// A log that has no whole line and is read to its end: it gets what it lacks of the heading.
fn begun<L: Log + Drop>(
    alloc: Global,
    reader: Reader<L>,
    heading: &[u8],
) -> Result<Opening<L>, Refused<L>>
    requires at_the_end { ForSome (L.told reader.log) (λ disk. drop reader.start reader.read.items ≡ disk.seen) }
    requires no_line { has_break (drop reader.start reader.read.items) ≡ false }
    requires one_line { has_break heading.now ≡ false }
    ensures ok { IfOk result (λ o. IfSome (L.told reader.log) (λ disk. Opens heading.now disk.seen o.lines)) }
    ensures untold { IfOk result (λ o. L.told reader.log ≡ None → o.lines ≡ None) }
    ensures same_failures { IfOk result (λ o. o.failures ≡ L.failures reader.log) }
    ensures no_journal { IfErr result (λ r. r.fault ≡ NotAJournal → (r.log ≡ reader.log)
        × IfSome (L.told reader.log) (λ disk. epochs_in heading.now disk.seen ≡ None)) }
    ensures any_moment { IfErr result (λ r. Leads (OpensInPart heading.now) (L.told reader.log) (L.told r.log)) }
    ensures only { IfErr result (λ r. (r.fault ≡ OutOfMemory) ⊎ (r.fault ≡ NotAJournal) ⊎ (r.fault ≡ JournalFailed)) }
    ensures failed { IfErr result (λ r. r.fault ≡ JournalFailed → L.failures r.log ≡ L.failures reader.log + 1) }
{
    let Ok(text) = with_feed(alloc, heading) else {
        return Err(Refused {
            fault: Fault::OutOfMemory,
            log: reader.log,
        });
    };
    if !heading.starts_with(reader.ahead()) {
        return Err(Refused {
            fault: Fault::NotAJournal,
            log: reader.log,
        });
    }
    let size = reader.ahead().len();
    let mut log = reader.log;
    if let Err(failed) = add_synced(&mut log, &text[size..]) {
        let fault = Fault::from(failed);
        return Err(Refused { fault, log });
    }
    let reader = Reader::new(alloc, log, text.len());
    Ok(Opening { reader })
}

/// Cuts a log behind its first so many bytes, and syncs it.
fn close<L: Log>(log: &mut L, size: usize) -> Result<(), LogFailed>
    requires synced { ForSome (L.told log.old) (λ disk. disk ≡ synced disk.seen) }
    requires within { ForSome (L.told log.old) (λ disk. size ≤ length disk.seen) }
    ensures ok { OnOk result (Leads (ClosedAt size) (L.told log.old) (L.told log.new)) }
    ensures part { OnErr result (Leads (ClosedInPart size) (L.told log.old) (L.told log.new)) }
    ensures failed { OnErr result (L.failures log.new ≡ L.failures log.old + 1) }
    ensures no_failure { OnOk result (L.failures log.new ≡ L.failures log.old) }
{
    log.cut(size)?;
    log.sync()?;
    Ok(())
}
