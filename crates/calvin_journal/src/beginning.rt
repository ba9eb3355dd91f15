//! A journal that is written as a whole.
ghost use Rattle.std.specs.Prelude.{◌≡◌, ◌+◌, ◌∷◌, ◌++◌, [], false, IfOk, IfErr, option_map, ◌⊎◌};
ghost use Rattle.std.specs.Option.{ForSome};
ghost use Rattle.calvin_types.specs.declared.fault.Fault.TheVariants.{OutOfMemory, JournalFailed};
ghost use Rattle.calvin_journal.specs.Lines.{has_break};
ghost use Rattle.calvin_journal.specs.Journals.{synced};

use crate::adding::{add_synced, put_line};
use crate::journal::Journal;
use crate::refused::Refused;
use calvin_journal_log::Log;
use calvin_types::Fault;
use std::alloc::Global;
use std::marker::Model;

/// As soon as so many bytes of whole lines are gathered they are written.
const PIECE: usize = 65_536;

/// A journal that is written as a whole, line by line, to a log that had no bytes, with little more in memory than its longest
/// line. Nothing of it is sure to outlive a crash until it is finished. To contracts it is its lines so far, where the log tells
/// its bytes.
#[derive(Drop)]
pub struct Beginning<L: Log + Drop> {
    log: L,
    /// The text of lines that wasn't written yet.
    gathered: Vec<u8>,
}

impl<L: Log + Drop> Model for Beginning<L> {
    ghost use Rattle.std.specs.Prelude.{◌++◌, option_map, IfSome};
    ghost use Rattle.calvin_journal.specs.Lines.{lines_of};
    ghost use Rattle.calvin_journal.specs.Journals.{IsGathered};
    ghost use Rattle.calvin_journal.specs.Readings.{Standing};

    ghost Value = { Standing };

    ghost view = { λ b. record { lines = option_map (λ disk. lines_of (disk.seen ++ b.gathered.items)) (L.told b.log); failures = L.failures b.log } };

    ghost invariant = { λ b. IfSome (L.told b.log) (IsGathered b.gathered.items) };
}

impl<L: Log + Drop> Beginning<L> {
    /// A journal with no line yet, on a log with no bytes.
    pub fn new(alloc: Global, log: L) -> Beginning<L>
        requires no_bytes { ForSome (L.told log) (λ disk. disk ≡ synced []) }
        ensures { result ≡ record { lines = option_map (λ _. []) (L.told log); failures = L.failures log } }
    {
        let gathered = Vec::new(alloc);
        Beginning { log, gathered }
    }

    /// Adds a line behind those that there are.
    ///
    /// Refused, the journal is gone, and whatever was written of it is of no use: `OutOfMemory` where there is no room for the
    /// line and its line feed, `JournalFailed` where the log refused.
    pub fn add(self, line: &[u8]) -> Result<Beginning<L>, Refused<L>>
        requires one_line { has_break line.now ≡ false }
        ensures ok { IfOk result (λ b. b ≡ record { lines = option_map (λ ls. ls ++ line.now ∷ []) self.lines; failures = self.failures }) }
        ensures only { IfErr result (λ r. (r.fault ≡ OutOfMemory) ⊎ (r.fault ≡ JournalFailed)) }
        ensures failed { IfErr result (λ r. r.fault ≡ JournalFailed → L.failures r.log ≡ self.failures + 1) }
        ensures not_failed { IfErr result (λ r. r.fault ≡ OutOfMemory → L.failures r.log ≡ self.failures) }
    {
        let mut log = self.log;
        let mut gathered = self.gathered;
        let Ok(()) = put_line(&mut gathered, line) else {
            let fault = Fault::OutOfMemory;
            return Err(Refused { fault, log });
        };
        if gathered.len() < PIECE {
            return Ok(Beginning { log, gathered });
        }
        match log.append(&gathered) {
            Ok(()) => {
                gathered.clear();
                Ok(Beginning { log, gathered })
            }
            Err(failed) => {
                let fault = Fault::from(failed);
                Err(Refused { fault, log })
            }
        }
    }

    /// The journal, whose lines outlive every crash from now on.
    ///
    /// Refused with `JournalFailed` where the log refused; then the journal is gone.
    pub fn finish(self) -> Result<Journal<L>, Refused<L>>
        ensures ok { IfOk result (λ j. j ≡ record { lines = self.lines; failures = self.failures }) }
        ensures failed { IfErr result (λ r. (r.fault ≡ JournalFailed) × (L.failures r.log ≡ self.failures + 1)) }
    {
        let mut log = self.log;
        match add_synced(&mut log, &self.gathered) {
            Ok(()) => Ok(Journal::new(log)),
            Err(failed) => {
                let fault = Fault::from(failed);
                Err(Refused { fault, log })
            }
        }
    }

    /// The log, on which whatever was written of the journal is of no use.
    pub fn into_log(self) -> L
        ensures { L.failures result ≡ self.failures }
    {
        self.log
    }
}
