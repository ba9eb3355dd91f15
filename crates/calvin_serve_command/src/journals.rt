//! What opens the log of a journal, and puts another in its place.
ghost use Rattle.std.specs.Prelude.{◌≡◌, ◌+◌, ◌⊎◌, ℕ, List, [], None, Option, IfOk, IfErr, OnOk, OnErr, IfSome};
ghost use Rattle.std.specs.Option.{is_some};
ghost use Rattle.calvin_journal_log.specs.Disks.{Disk};
ghost use Rattle.calvin_journal_log.specs.Files.{IsFileFault};
ghost use Rattle.calvin_journal.specs.Journals.{synced};

use calvin_edge::Tally;
use calvin_journal_log::{Access, FileId, FileLog, Log};
use calvin_types::Fault;
use std::alloc::Global;

/// Opens the log of a journal by its name.
pub trait Journals<L: Log + Drop> {
    /// What the log of a name tells of its bytes, where it tells them.
    ghost found: { Self → List ℕ → Option Disk };

    /// How many calls were refused.
    ghost failures: { Self → ℕ };

    /// Opens the log that has this name, or makes it where the journal is to be added to.
    ///
    /// `NotAJournal` where what stands there can't be a journal with this heading, `JournalInUse` where it is open already,
    /// `JournalFailed` where it can't be opened, and `OutOfMemory`.
    fn open(
        &mut self,
        alloc: Global,
        name: &str,
        heading: &[u8],
        access: Access,
    ) -> Result<L, Fault>
        ensures log { IfOk result (λ log. L.told log ≡ found self.old name.now) }
        ensures same { found self.new name.now ≡ found self.old name.now }
        ensures counts_no_success { OnOk result (failures self.new ≡ failures self.old) }
        ensures counts_a_refusal { OnErr result (failures self.new ≡ failures self.old + 1) }
        ensures only { IfErr result IsFileFault };

    /// Opens a log of no bytes, in which the journal of this name can be written anew. What stands under the name stays.
    ///
    /// Refused as `open` is, for what stands where the new one is to be written.
    fn begin_anew(&mut self, alloc: Global, name: &str, heading: &[u8]) -> Result<L, Fault>
        ensures empty { IfOk result (λ log. IfSome (L.told log) (λ disk. disk ≡ synced [])) }
        ensures told { IfOk result (λ log. is_some (L.told log) ≡ is_some (found self.old name.now)) }
        ensures same { found self.new name.now ≡ found self.old name.now }
        ensures counts_no_success { OnOk result (failures self.new ≡ failures self.old) }
        ensures counts_a_refusal { OnErr result (failures self.new ≡ failures self.old + 1) }
        ensures only { IfErr result IsFileFault };

    /// Puts a log that was begun so in place of the one with this name, whole or, refused, maybe not at all.
    fn replace(&mut self, alloc: Global, name: &str, log: &L) -> Result<(), Fault>
        ensures whole { OnOk result (found self.new name.now ≡ L.told log.now) }
        ensures either { OnErr result ((found self.new name.now ≡ found self.old name.now) ⊎ (found self.new name.now ≡ L.told log.now)) }
        ensures counts_no_success { OnOk result (failures self.new ≡ failures self.old) }
        ensures counts_a_refusal { OnErr result (failures self.new ≡ failures self.old + 1) }
        ensures only { IfErr result IsFileFault };
}

/// Journals in files of the system, whose names are paths.
#[derive(Drop)]
pub struct FileJournals {
    rt: HostRuntime,
    /// Which file was opened last.
    opened: Option<FileId>,
    failures: Tally,
}

impl FileJournals {
    /// The files of this system.
    pub fn new(rt: HostRuntime) -> FileJournals {
        FileJournals {
            rt,
            opened: None,
            failures: Tally::new(),
        }
    }

    /// Counts a refusal, if this is one.
    fn count<T: Drop>(&mut self, answer: Result<T, Fault>) -> Result<T, Fault>
        ensures same { result ≡ answer }
        ensures counts_no_success { OnOk result (self.new.failures ≡ self.old.failures) }
        ensures counts_a_refusal { OnErr result (self.new.failures ≡ self.old.failures + 1) }
    {
        if answer.is_err() {
            self.failures.raise();
        }
        answer
    }
}

impl Journals<FileLog> for FileJournals {
    ghost found = { λ _ _. None };

    ghost failures = { λ f. f.failures };

    fn open(
        &mut self,
        alloc: Global,
        name: &str,
        heading: &[u8],
        access: Access,
    ) -> Result<FileLog, Fault> {
        let opened = FileLog::open(self.rt, alloc, name, heading, access);
        let log = self.count(opened)?;
        let id = self.count(log.id())?;
        self.opened = Some(id);
        Ok(log)
    }

    fn begin_anew(&mut self, alloc: Global, name: &str, heading: &[u8]) -> Result<FileLog, Fault> {
        let begun = FileLog::beside(self.rt, alloc, name, heading);
        self.count(begun)
    }

    fn replace(&mut self, alloc: Global, name: &str, log: &FileLog) -> Result<(), Fault> {
        let replaced = match self.opened {
            Some(old) => log.replace(self.rt, alloc, name, old),
            None => Err(Fault::JournalFailed),
        };
        self.count(replaced)
    }
}
