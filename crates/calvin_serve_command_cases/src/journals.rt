//! Journals in memory, and what a line of words does with one.
ghost use Rattle.std.specs.Prelude.{◌≡◌, Some, IfOk};
ghost use Rattle.calvin_journal_log.specs.Memory.{disk_of};
ghost use Rattle.calvin_journal_log.specs.Files.{IsFileFault};

use crate::checks::same;
use calvin_edge::{FailingSource, MemorySink, Tally};
use calvin_journal_log::{Access, MemoryLog};
use calvin_serve_command::{Journals, serve_command};
use calvin_types::Fault;
use std::alloc::{AllocError, Global};
use std::process::Abort;

/// One journal, whichever name it is asked for by; or none, for this reason.
#[derive(Drop)]
pub(crate) struct OneJournal {
    /// What stands there.
    pub log: MemoryLog,
    pub refused: Option<Fault>,
    /// Why nothing can be written anew beside it, or replace it.
    pub blocked: Option<Fault>,
    pub fixed: Option<Fault>,
    /// For what it was opened last.
    pub access: Option<Access>,
    pub failures: Tally,
}

/// A refusal for one of the reasons that a file has.
fn refusal(fault: Fault) -> Fault
    ensures { IsFileFault result }
{
    match fault {
        Fault::NotAJournal => Fault::NotAJournal,
        Fault::JournalInUse => Fault::JournalInUse,
        _ => Fault::JournalFailed,
    }
}

/// A log with the same bytes.
fn copy_of(alloc: Global, log: &MemoryLog) -> Result<MemoryLog, AllocError>
    ensures { IfOk result (λ copy. disk_of copy ≡ disk_of log.now) }
{
    let mut copy = MemoryLog::new(log.bytes.as_slice().to_vec(alloc)?);
    copy.size = log.size;
    copy.synced = log.synced;
    Ok(copy)
}

impl Journals<MemoryLog> for OneJournal {
    ghost found = { λ j _. Some (disk_of j.log) };

    ghost failures = { λ j. j.failures };

    fn open(
        &mut self,
        alloc: Global,
        _name: &str,
        _heading: &[u8],
        access: Access,
    ) -> Result<MemoryLog, Fault> {
        self.access = Some(access);
        if let Some(fault) = self.refused {
            self.failures.raise();
            return Err(refusal(fault));
        }
        match copy_of(alloc, &self.log) {
            Ok(log) => Ok(log),
            Err(_) => {
                self.failures.raise();
                Err(Fault::OutOfMemory)
            }
        }
    }

    fn begin_anew(
        &mut self,
        alloc: Global,
        _name: &str,
        _heading: &[u8],
    ) -> Result<MemoryLog, Fault> {
        match self.blocked {
            Some(fault) => {
                self.failures.raise();
                Err(refusal(fault))
            }
            None => Ok(MemoryLog::new(Vec::new(alloc))),
        }
    }

    fn replace(&mut self, alloc: Global, _name: &str, log: &MemoryLog) -> Result<(), Fault> {
        if let Some(fault) = self.fixed {
            self.failures.raise();
            return Err(refusal(fault));
        }
        match copy_of(alloc, log) {
            Ok(copy) => {
                self.log = copy;
                Ok(())
            }
            Err(_) => {
                self.failures.raise();
                Err(Fault::OutOfMemory)
            }
        }
    }
}

/// What came of a line of words.
#[derive(Drop)]
pub(crate) struct Ended {
    pub status: u8,
    pub output: Vec<u8>,
    pub error: Vec<u8>,
    pub access: Option<Access>,
    /// What stands under the journal's name, as far as nothing was added since it was opened.
    pub log: MemoryLog,
}

/// Runs a line of words over a journal and an input.
pub(crate) fn run(alloc: Global, words: &[&str], mut journal: OneJournal, input: &[u8]) -> Ended {
    let mut source = FailingSource::new(input);
    let mut output = MemorySink::new(alloc);
    let mut error = MemorySink::new(alloc);
    let status = serve_command(
        alloc,
        words,
        &mut journal,
        &mut source,
        &mut output,
        &mut error,
    );
    Ended {
        status,
        output: output.taken,
        error: error.taken,
        access: journal.access,
        log: journal.log,
    }
}

/// A journal with these bytes.
pub(crate) fn journal(alloc: Global, bytes: &[u8]) -> OneJournal {
    OneJournal {
        log: MemoryLog::new(bytes.to_vec(alloc).unwrap_or(Vec::new(alloc))),
        refused: None,
        blocked: None,
        fixed: None,
        access: None,
        failures: Tally::new(),
    }
}

/// The words are run over a journal with these bytes and an input, and this is printed, with status 0 and nothing on standard
/// error.
pub(crate) fn prints(
    rt: &impl Abort,
    alloc: Global,
    words: &[&str],
    bytes: &[u8],
    input: &[u8],
    text: &[u8],
) {
    let ended = run(alloc, words, journal(alloc, bytes), input);
    same(rt, (input, ended.output.as_slice()), (input, text));
    same(rt, (input, ended.error.as_slice()), (input, b"".as_slice()));
    same(rt, (input, ended.status), (input, 0));
}

/// The words are refused so, and nothing is printed.
pub(crate) fn refuses(
    rt: &impl Abort,
    alloc: Global,
    words: &[&str],
    journal: OneJournal,
    status: u8,
    told: &[u8],
) {
    let ended = run(
        alloc,
        words,
        journal,
        b"{\"client\":2,\"number\":1,\"op\":[\"put\",1,7]}\n",
    );
    same(rt, (told, ended.output.as_slice()), (told, b"".as_slice()));
    same(rt, (told, ended.error.as_slice()), (told, told));
    same(rt, (told, ended.status), (told, status));
}
