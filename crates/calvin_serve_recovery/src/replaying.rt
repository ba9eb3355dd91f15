//! A journal that is run.
ghost use Rattle.std.specs.Prelude.{◌≡◌, ◌≢◌, ◌≤◌, ◌+◌, ◌⊎◌, [], List, Ok, Err, true, false, IfOk, IfErr, OnOk, OnErr, IfSome, option_map};
ghost use Rattle.std.specs.Option.{ForSome};
ghost use Rattle.calvin_types.specs.declared.fault.Fault.{Fault as SomeFault};
ghost use Rattle.calvin_types.specs.declared.fault.Fault.TheVariants.{OutOfMemory, NotAJournal, JournalFailed, EpochsSpent};
ghost use Rattle.calvin_types.specs.declared.limits.TheConstants.{MOST_EPOCHS};
ghost use Rattle.calvin_script.specs.Scripts.{Listed};
ghost use Rattle.calvin_serial.specs.FirstSets.{NeedsFirst};
ghost use Rattle.calvin_serve_lines.specs.Epochs.{epoch_in};
ghost use Rattle.calvin_serve_desk.specs.Epochs.{epoch_answers};
ghost use Rattle.calvin_serve_recovery.specs.Runs.{RunsNext, IsSameJournal, StandsAs, BeginsWithNoEpoch, HasMore};

use crate::starting::Started;
use calvin_app::{Serial, Settles};
use calvin_journal::{Opening, Refused};
use calvin_journal_log::Log;
use calvin_script::Operation;
use calvin_serve_desk::{Desk, Setting, run_epoch};
use calvin_serve_lines::read_epoch;
use calvin_text::Printed;
use calvin_types::{Fault, MOST_EPOCHS};
use std::alloc::Global;

/// A journal that is read line by line, and the rows where the epochs that were handed out leave them, run one after another from
/// what the journal begins with.
#[derive(Drop)]
pub(crate) struct Replaying<A: Settles + Copy + Drop, L: Log + Drop> {
    app: A,
    pub(crate) setting: Setting,
    pub(crate) store: Serial<A>,
    /// The number of the next epoch.
    pub(crate) epoch: u64,
    pub(crate) opening: Opening<L>,
    /// The line that was handed out last.
    line: Vec<u8>,
    pub(crate) ghost in_range: { epoch ≤ MOST_EPOCHS },
}

impl<A: Settles + Copy + Drop, L: Log + Drop> Replaying<A, L>
where
    A::Args: Operation,
    A::Reply: Printed,
{
    /// A journal of which no epoch was run.
    pub(crate) fn new(
        alloc: Global,
        app: A,
        setting: Setting,
        started: Started<A, L>,
    ) -> Replaying<A, L>
        ensures setting { result.setting ≡ setting }
        ensures rows { result.store ≡ started.store }
        ensures epoch { result.epoch ≡ started.epoch }
        ensures opening { result.opening ≡ started.opening }
    {
        Replaying {
            app,
            setting,
            store: started.store,
            epoch: started.epoch,
            opening: started.opening,
            line: Vec::new(alloc),
        }
    }

    /// Runs the next epoch, and puts the lines of its answers in place of what `text` has. Says whether there was one.
    ///
    /// `NotAJournal` where the next line is no epoch, and `EpochsSpent` where there is one more behind the number 2^48 - 1.
    pub(crate) fn run_next(&mut self, alloc: Global, text: &mut Vec<u8>) -> Result<bool, Fault>
        requires first { NeedsFirst A.Args.grammar A.meaning }
        ensures epoch { IfOk result (λ more. more ≡ true → RunsNext A.meaning A.Reply.printed A.Args.grammar self.old.setting
            self.old.opening.lines self.old.epoch self.old.store self.new.opening.lines self.new.epoch self.new.store text.new.items) }
        ensures end { IfOk result (λ more. more ≡ false → IfSome self.old.opening.lines (λ lines. lines.ahead ≡ [])) }
        ensures stays { IfOk result (λ more. more ≡ false → (self.new.opening.lines ≡ self.old.opening.lines)
            × (self.new.epoch ≡ self.old.epoch) × (self.new.store ≡ self.old.store)) }
        ensures setting { self.new.setting ≡ self.old.setting }
        ensures err { OnErr result (IsSameJournal self.old.opening.lines self.new.opening.lines) }
        ensures no_epoch { IfErr result (λ f. f ≡ NotAJournal → IfSome self.old.opening.lines (λ lines.
            BeginsWithNoEpoch A.Args.grammar self.old.setting.partitions lines.ahead)) }
        ensures spent { IfErr result (λ f. f ≡ EpochsSpent → (MOST_EPOCHS ≤ self.old.epoch)
            × IfSome self.old.opening.lines (λ lines. HasMore lines.ahead)) }
        ensures only { IfErr result (λ f. (f ≡ OutOfMemory) ⊎ (f ≡ NotAJournal) ⊎ (f ≡ JournalFailed) ⊎ (f ≡ EpochsSpent)) }
        ensures failed { IfErr result (λ f. f ≡ JournalFailed → self.new.opening.failures ≡ self.old.opening.failures + 1) }
        ensures not_failed { IfErr result (λ f. f ≢ JournalFailed → self.new.opening.failures ≡ self.old.opening.failures) }
        ensures no_failure { OnOk result (self.new.opening.failures ≡ self.old.opening.failures) }
    {
        match self.opening.next_line(alloc, &mut self.line) {
            Ok(true) => match self.run_line(alloc, text) {
                Ok(()) => Ok(true),
                Err(fault) => Err(fault),
            },
            Ok(false) => Ok(false),
            Err(fault) => Err(fault),
        }
    }

    /// Runs the epoch that the line lists which was handed out last.
    fn run_line(&mut self, alloc: Global, text: &mut Vec<u8>) -> Result<(), Fault>
        requires first { NeedsFirst A.Args.grammar A.meaning }
        ensures ok { OnOk result ((epoch : List (Listed A.Args))
            × (epoch_in A.Args.grammar self.old.setting.partitions self.old.line.items ≡ Ok epoch)
            × (epoch_answers A.meaning A.Reply.printed self.old.setting self.old.epoch self.old.store epoch ≡ Ok (self.new.store, text.new.items))
            × (self.new.epoch ≡ self.old.epoch + 1)) }
        ensures no_epoch { IfErr result (λ f. f ≡ NotAJournal → (fault : SomeFault)
            × (epoch_in A.Args.grammar self.old.setting.partitions self.old.line.items ≡ Err fault)) }
        ensures spent { IfErr result (λ f. f ≡ EpochsSpent → MOST_EPOCHS ≤ self.old.epoch) }
        ensures only { IfErr result (λ f. (f ≡ OutOfMemory) ⊎ (f ≡ NotAJournal) ⊎ (f ≡ EpochsSpent)) }
        ensures opening { self.new.opening ≡ self.old.opening }
        ensures setting { self.new.setting ≡ self.old.setting }
    {
        if self.epoch >= MOST_EPOCHS {
            return Err(Fault::EpochsSpent);
        }
        let epoch = match read_epoch(alloc, self.setting.partitions, &self.line) {
            Ok(epoch) => epoch,
            Err(Fault::OutOfMemory) => return Err(Fault::OutOfMemory),
            Err(_) => return Err(Fault::NotAJournal),
        };
        text.clear();
        match run_epoch(
            alloc,
            &self.app,
            &self.setting,
            &mut self.store,
            self.epoch,
            &epoch,
            text,
        ) {
            Ok(()) => {
                self.epoch += 1;
                Ok(())
            }
            Err(_) => Err(Fault::OutOfMemory),
        }
    }

    /// The desk of a journal whose lines were all handed out. What stands behind them is cut off.
    pub(crate) fn finish(self) -> Result<Desk<A, L>, Refused<L>>
        requires at_the_end { ForSome self.opening.lines (λ lines. lines.ahead ≡ []) }
        ensures ok { IfOk result (λ desk. desk ≡ record {
          setting = self.setting;
          lines = option_map (λ lines. lines.done) self.opening.lines;
          failures = self.opening.failures;
          epoch = self.epoch;
          rows = self.store;
        }) }
        ensures any_moment { IfErr result (λ r. StandsAs self.opening.lines (L.told r.log)) }
        ensures failed { IfErr result (λ r. (r.fault ≡ JournalFailed) × (L.failures r.log ≡ self.opening.failures + 1)) }
    {
        match self.opening.finish() {
            Ok(journal) => Ok(Desk::new(self.app, self.setting, self.store, self.epoch, journal)),
            Err(refused) => Err(refused),
        }
    }

    /// The log, as it was found.
    pub(crate) fn into_log(self) -> L
        ensures any_moment { StandsAs self.opening.lines (L.told result) }
        ensures failures { L.failures result ≡ self.opening.failures }
    {
        self.opening.into_log()
    }

    /// The end, for this reason. The log is as it was found.
    pub(crate) fn stop(self, fault: Fault) -> Refused<L>
        ensures fault { result.fault ≡ fault }
        ensures any_moment { StandsAs self.opening.lines (L.told result.log) }
        ensures failures { L.failures result.log ≡ self.opening.failures }
    {
        Refused {
            fault,
            log: self.into_log(),
        }
    }
}
