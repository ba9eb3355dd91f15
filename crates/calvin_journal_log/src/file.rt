//! A log in a file of the system.
ghost use Rattle.std.specs.Prelude.{◌≡◌, ◌≢◌, ◌+◌, ◌≤◌, true, false, None, IfOk, IfErr, IsOk, IsErr, OnOk, OnErr};
ghost use Rattle.std.specs.Io.{ReadsAtMost};
ghost use Rattle.std.specs.IoError.{error_kind};
ghost use Rattle.calvin_journal_log.specs.Files.{IsFileFault};

use crate::anew::{begin_anew, is_headed, is_regular, lock, put_in_place, write_anew};
use crate::log::{Log, LogFailed};
use crate::names::{
    FileId, has_one_name, id_of, is_aside, is_special, names_of, stands_at, sync_folder,
};
use calvin_edge::{OutputSink, Tally, write_all};
use calvin_types::Fault;
use std::alloc::Global;
use std::fs::{self, File, OpenOptions};
use std::io;
use std::io::ErrorKind;
use std::os::unix::fs::FileExt;

/// The most times that one read is tried while signals interrupt it, as often as std tries.
const MOST_TRIES: u64 = u64::MAX;

/// A file that is open for this process alone. To contracts it tells no bytes: none can say which a file of the system has.
#[derive(Drop)]
pub struct FileLog {
    file: OutputSink<File>,
    failures: Tally,
}

/// For what a journal's file is opened.
#[derive(Clone, Copy, Debug, PartialEq, Eq)]
pub enum Access {
    /// To read the journal that is there.
    Read,
    /// To add to it, too; a journal that isn't there yet begins.
    Add,
}

impl FileLog {
    /// Opens the file at a path, as a journal with this heading, and locks it. The file and its name outlive a crash from then
    /// on. A journal that is to be added to is written anew, beside the old file under its name with `.anew` behind it, which it
    /// then replaces: systems forget that a sync of the old one failed. So no journal has a name that ends in `.anew`, and what
    /// a process that was cut off has left there is removed: a file that nobody has locked, and which begins with the heading's
    /// line or is a beginning of it.
    ///
    /// `NotAJournal` where the path ends in `.anew`, or leads to a file whose name does; where something else than a file stands
    /// there, for which nothing is waited; or a file that doesn't begin with the heading's line, nor is a beginning of it.
    /// `JournalInUse` where another process has locked the file, or the one beside it. `JournalFailed` where the system refuses;
    /// where nothing stands there that could be read; and, where the journal is to be added to, if anything stands beside it
    /// that wasn't left so, or if its file has a second name, under which the old journal would go on. And `OutOfMemory`. Then a
    /// file that was there is left as it was.
    pub fn open(
        rt: HostRuntime,
        alloc: Global,
        path: &str,
        heading: &[u8],
        access: Access,
    ) -> Result<FileLog, Fault>
        ensures only { IfErr result IsFileFault }
    {
        if is_aside(path) || is_special(&rt, path) {
            return Err(Fault::NotAJournal);
        }
        let file = open_file(&rt, path, access)?;
        let names = names_of(&rt, alloc, path)?;
        lock(&file)?;
        if !stands_at(&rt, &file, names.real.as_str())? {
            return Err(Fault::JournalInUse);
        }
        if !is_headed(alloc, &file, heading)? {
            return Err(Fault::NotAJournal);
        }
        let file = match access {
            Access::Read => file,
            Access::Add if !has_one_name(&file)? => return Err(Fault::JournalFailed),
            Access::Add => write_anew(&rt, alloc, &names, heading, &file)?,
        };
        if file.sync_all().is_err() || !sync_folder(&rt, path) {
            return Err(Fault::JournalFailed);
        }
        Ok(FileLog::of(file))
    }

    /// A log with no bytes yet in a file of its own, beside the journal at a path, which `replace` puts in the journal's place.
    /// It is locked, and has the permissions of the journal's file. The caller has the journal open, to be added to, and keeps it
    /// so until the place is taken: it is the journal's lock that says who may write beside it. A file that was left beside the
    /// journal is removed first, as `open` does.
    ///
    /// `NotAJournal` where the path leads to a file whose name ends in `.anew`; `JournalInUse` where another process, or this
    /// one, has the file beside the journal locked; `JournalFailed` where the system refuses, where no file stands at the path,
    /// or something stands beside it that isn't to be removed; and `OutOfMemory`.
    pub fn beside(
        rt: HostRuntime,
        alloc: Global,
        path: &str,
        heading: &[u8],
    ) -> Result<FileLog, Fault>
        ensures only { IfErr result IsFileFault }
    {
        let names = names_of(&rt, alloc, path)?;
        let Ok(about) = fs::metadata(&rt, names.real.as_str()) else {
            return Err(Fault::JournalFailed);
        };
        if !about.is_file() {
            return Err(Fault::JournalFailed);
        }
        let aside = names.aside.as_str();
        let file = begin_anew(&rt, alloc, aside, heading, about.permissions())?;
        Ok(FileLog::of(file))
    }

    /// Which file the log is in. `JournalFailed` where the system doesn't say.
    pub fn id(&self) -> Result<FileId, Fault>
        ensures only { IfErr result IsFileFault }
    {
        id_of(&self.file.writer)
    }

    /// Has a log that was begun `beside` the journal at a path take its place: the file is synced, replaces that of the journal,
    /// which is to be the old one still, under its name, and the name outlives a crash from then on. A crash leaves the old journal there or the new one, each as a
    /// whole.
    ///
    /// `JournalFailed` where the system refuses, where another file than the old one stands at the path, or none, or the old one
    /// has a second name, and where this log isn't the one beside it; and `OutOfMemory`. Where the system refused, the old journal may stand there or the new one. `NotAJournal` where the path leads
    /// to a file whose name ends in `.anew`.
    pub fn replace(
        &self,
        rt: HostRuntime,
        alloc: Global,
        path: &str,
        old: FileId,
    ) -> Result<(), Fault>
        ensures only { IfErr result IsFileFault }
    {
        let names = names_of(&rt, alloc, path)?;
        put_in_place(&rt, &self.file.writer, old, &names)
    }

    /// The log of a file that is locked.
    fn of(file: File) -> FileLog
        ensures no_failure { result.failures ≡ 0 }
    {
        FileLog {
            file: OutputSink::new(file),
            failures: Tally::new(),
        }
    }

    /// Counts a refusal, if the system has refused.
    fn answer(&mut self, done: bool) -> Result<(), LogFailed>
        ensures counts_no_success { OnOk result (self.new.failures ≡ self.old.failures) }
        ensures counts_a_refusal { OnErr result (self.new.failures ≡ self.old.failures + 1) }
        ensures ok { done ≡ true → IsOk result }
        ensures refused { done ≡ false → IsErr result }
    {
        if done {
            return Ok(());
        }
        self.failures.raise();
        Err(LogFailed)
    }
}

/// Opens the regular file at a path, which is made where it isn't there and is to be added to.
fn open_file(rt: &HostRuntime, path: &str, access: Access) -> Result<File, Fault>
    ensures only { IfErr result IsFileFault }
{
    let opened = OpenOptions::new()
        .read(true)
        .append(access == Access::Add)
        .create(access == Access::Add)
        .open(rt, path);
    let Ok(file) = opened else {
        return Err(Fault::JournalFailed);
    };
    if !is_regular(&file)? {
        return Err(Fault::NotAJournal);
    }
    Ok(file)
}

/// One read at an offset, tried again while a signal interrupts it.
pub(crate) fn read_uninterrupted(file: &File, at: usize, buffer: &mut [u8]) -> io::Result<usize>
    ensures bound { ReadsAtMost result buffer.new }
    ensures far { IfOk result (λ n. at + n ≤ usize.MAX) }
    ensures tried_again { IfErr result (λ e. error_kind e ≢ ErrorKind.Interrupted) }
{
    let room = buffer.len().min(usize::MAX - at);
    for _ in 0..MOST_TRIES {
        match file.read_at(&mut buffer[..room], at as u64) {
            Ok(n) => return Ok(n),
            Err(e) => {
                if e.kind() != ErrorKind::Interrupted {
                    return Err(e);
                }
            }
        }
    }
    Err(io::Error::from(ErrorKind::TimedOut))
}

impl Log for FileLog {
    ghost told = { λ _. None };

    ghost failures = { λ f. f.failures };

    ghost in_order = { λ _. tt };

    fn read_at(&mut self, at: usize, buffer: &mut [u8]) -> Result<usize, LogFailed> {
        match read_uninterrupted(&self.file.writer, at, buffer) {
            Ok(n) => Ok(n),
            Err(_) => {
                self.failures.raise();
                Err(LogFailed)
            }
        }
    }

    fn append(&mut self, bytes: &[u8]) -> Result<(), LogFailed> {
        let written = write_all(&mut self.file, bytes);
        self.answer(written.is_ok())
    }

    fn sync(&mut self) -> Result<(), LogFailed> {
        let synced = self.file.writer.sync_data();
        self.answer(synced.is_ok())
    }

    fn cut(&mut self, size: usize) -> Result<(), LogFailed> {
        let cut = self.file.writer.set_len(size as u64);
        self.answer(cut.is_ok())
    }
}
