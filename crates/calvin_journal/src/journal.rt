//! A journal that stands open.
ghost use Rattle.std.specs.Prelude.{◌≡◌, ◌+◌, ◌∷◌, ◌++◌, [], false, IfOk, IfErr, option_map, ◌⊎◌};
ghost use Rattle.std.specs.Option.{ForSome};
ghost use Rattle.calvin_types.specs.declared.fault.Fault.TheVariants.{OutOfMemory, JournalFailed};
ghost use Rattle.calvin_journal.specs.Lines.{has_break, lines_of, text};
ghost use Rattle.calvin_journal.specs.Journals.{synced, Becomes};

use crate::adding::{add_synced, with_feed};
use crate::refused::Refused;
use calvin_journal_log::Log;
use calvin_types::Fault;
use std::alloc::Global;
use std::marker::Model;

/// A log of whole lines, all of which outlive every crash. To contracts it is its lines, the heading first, where the log tells
/// its bytes.
#[derive(Drop)]
pub struct Journal<L: Log + Drop> {
    log: L,
}

impl<L: Log + Drop> Model for Journal<L> {
    ghost use Rattle.std.specs.Prelude.{◌≡◌, option_map, IfSome};
    ghost use Rattle.calvin_journal.specs.Lines.{lines_of, text};
    ghost use Rattle.calvin_journal.specs.Journals.{synced};
    ghost use Rattle.calvin_journal.specs.Readings.{Standing};

    ghost Value = { Standing };

    ghost view = { λ j. record { lines = option_map (λ disk. lines_of disk.seen) (L.told j.log); failures = L.failures j.log } };

    ghost invariant = { λ j. IfSome (L.told j.log) (λ disk. disk ≡ synced (text (lines_of disk.seen))) };
}

impl<L: Log + Drop> Journal<L> {
    /// A journal of a log of whole lines that is synced.
    pub(crate) fn new(log: L) -> Journal<L>
        requires whole { ForSome (L.told log) (λ disk. disk ≡ synced (text (lines_of disk.seen))) }
        ensures { result ≡ record { lines = option_map (λ disk. lines_of disk.seen) (L.told log); failures = L.failures log } }
    {
        Journal { log }
    }

    /// Adds a line. When it answers well the line outlives every crash; only then may anything be told that rests on it.
    ///
    /// Refused, the journal is gone, and after each crash its file has the lines from before, and then maybe this one.
    /// `OutOfMemory` where there is no room for the line and its line feed; then nothing was written.
    pub fn add(self, alloc: Global, line: &[u8]) -> Result<Journal<L>, Refused<L>>
        requires one_line { has_break line.now ≡ false }
        ensures ok { IfOk result (λ j. j ≡ record { lines = option_map (λ ls. ls ++ line.now ∷ []) self.lines; failures = self.failures }) }
        ensures any_moment { IfErr result (λ r. Becomes (option_map (λ ls. (ls, ls ++ line.now ∷ [])) self.lines) (L.told r.log)) }
        ensures only { IfErr result (λ r. (r.fault ≡ OutOfMemory) ⊎ (r.fault ≡ JournalFailed)) }
        ensures failed { IfErr result (λ r. r.fault ≡ JournalFailed → L.failures r.log ≡ self.failures + 1) }
        ensures not_failed { IfErr result (λ r. r.fault ≡ OutOfMemory
            → (L.failures r.log ≡ self.failures) × (L.told r.log ≡ option_map (λ ls. synced (text ls)) self.lines)) }
    {
        let mut log = self.log;
        let Ok(text) = with_feed(alloc, line) else {
            let fault = Fault::OutOfMemory;
            return Err(Refused { fault, log });
        };
        match add_synced(&mut log, &text) {
            Ok(()) => Ok(Journal { log }),
            Err(failed) => {
                let fault = Fault::from(failed);
                Err(Refused { fault, log })
            }
        }
    }

    /// The log, where it stands.
    pub fn log(&self) -> &L
        ensures told { L.told result.now ≡ option_map (λ ls. synced (text ls)) self.now.lines }
        ensures failures { L.failures result.now ≡ self.now.failures }
    {
        &self.log
    }

    /// The log. Whatever crashes, its file has these lines and nothing else.
    pub fn into_log(self) -> L
        ensures any_moment { Becomes (option_map (λ ls. (ls, ls)) self.lines) (L.told result) }
        ensures told { L.told result ≡ option_map (λ ls. synced (text ls)) self.lines }
        ensures failures { L.failures result ≡ self.failures }
    {
        self.log
    }
}
