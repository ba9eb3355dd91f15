//! How the file of a journal is written anew: beside it, under a name that no journal has, and then in its place.
ghost use Rattle.std.specs.Prelude.{IfErr};
ghost use Rattle.calvin_journal_log.specs.Files.{IsFileFault};

use crate::file::read_uninterrupted;
use crate::names::{FileId, Names, id_of, is_still, stands_at, sync_folder};
use calvin_edge::{OutputSink, write_all};
use calvin_types::Fault;
use std::alloc::Global;
use std::fs::{self, File, OpenOptions, Permissions, TryLockError};

/// The most bytes that are read at once.
const BLOCK: usize = 65_536;

/// Whether a file is a regular one, which has an end and can be cut.
pub(crate) fn is_regular(file: &File) -> Result<bool, Fault>
    ensures { IfErr result IsFileFault }
{
    match file.metadata() {
        Ok(about) => Ok(about.is_file()),
        Err(_) => Err(Fault::JournalFailed),
    }
}

/// Locks a file for this process alone, until it is closed.
pub(crate) fn lock(file: &File) -> Result<(), Fault>
    ensures { IfErr result IsFileFault }
{
    match file.try_lock() {
        Ok(()) => Ok(()),
        Err(TryLockError::WouldBlock) => Err(Fault::JournalInUse),
        Err(TryLockError::Error(_)) => Err(Fault::JournalFailed),
    }
}

/// Whether a file begins with a heading's line, or is a beginning of it.
pub(crate) fn is_headed(alloc: Global, file: &File, heading: &[u8]) -> Result<bool, Fault>
    ensures { IfErr result IsFileFault }
{
    let mut line = heading.to_vec(alloc)?;
    line.push(b'\n')?;
    let found = beginning(alloc, file, line.len())?;
    Ok(found.starts_with(&line) || line.starts_with(&found))
}

/// The first bytes of a file, so many or more, where it has so many.
fn beginning(alloc: Global, file: &File, wanted: usize) -> Result<Vec<u8>, Fault>
    ensures { IfErr result IsFileFault }
{
    let mut found = Vec::new(alloc);
    let mut block = [0u8; BLOCK];
    'blocks: for _ in 0..wanted {
        let Ok(n) = read_uninterrupted(file, found.len(), &mut block) else {
            return Err(Fault::JournalFailed);
        };
        found.extend_from_slice(&block[..n])?;
        if n == 0 || found.len() >= wanted {
            return Ok(found);
        }
    }
    Ok(found)
}

/// Removes what stands where a journal is written anew, if it is what a process that was cut off can have left there: a file
/// that nobody has locked, and which begins with the heading's line or is a beginning of it. Anything else is left as it is:
/// `JournalInUse` where another process has locked it, and else `JournalFailed`.
fn clear(rt: &HostRuntime, alloc: Global, aside: &str, heading: &[u8]) -> Result<(), Fault>
    ensures { IfErr result IsFileFault }
{
    match fs::symlink_metadata(rt, aside) {
        Ok(about) if about.is_file() => {}
        Ok(_) => return Err(Fault::JournalFailed),
        Err(_) => return Ok(()),
    }
    let Ok(left) = File::open(rt, aside) else {
        return Err(Fault::JournalFailed);
    };
    lock(&left)?;
    if !is_headed(alloc, &left, heading)? || fs::remove_file(rt, aside).is_err() {
        return Err(Fault::JournalFailed);
    }
    Ok(())
}

/// A new file with no bytes where a journal is written anew, which has these permissions and is locked. What was left there is
/// cleared first.
pub(crate) fn begin_anew(
    rt: &HostRuntime,
    alloc: Global,
    aside: &str,
    heading: &[u8],
    permissions: Permissions,
) -> Result<File, Fault>
    ensures { IfErr result IsFileFault }
{
    clear(rt, alloc, aside, heading)?;
    let opened = OpenOptions::new()
        .read(true)
        .append(true)
        .create_new(true)
        .open(rt, aside);
    let Ok(new) = opened else {
        return Err(Fault::JournalFailed);
    };
    match lock(&new) {
        Ok(()) if new.set_permissions(permissions).is_ok() => Ok(new),
        Ok(()) => {
            let _ = fs::remove_file(rt, aside);
            Err(Fault::JournalFailed)
        }
        Err(fault) => Err(fault),
    }
}

/// Has a file that was written beside a journal take its place, for good: it is synced, gets the journal's name, and then the
/// folder is synced. `JournalFailed` where the system refuses, where another file than this one stands beside the journal, or
/// another than the old one in its place.
pub(crate) fn put_in_place(
    rt: &HostRuntime,
    new: &File,
    old: FileId,
    names: &Names,
) -> Result<(), Fault>
    ensures { IfErr result IsFileFault }
{
    let is_there = stands_at(rt, new, names.aside.as_str())?;
    if !is_there || new.sync_all().is_err() || !is_still(rt, names.real.as_str(), old) {
        return Err(Fault::JournalFailed);
    }
    if fs::rename(rt, names.aside.as_str(), names.real.as_str()).is_err() {
        return Err(Fault::JournalFailed);
    }
    match sync_folder(rt, names.real.as_str()) {
        true => Ok(()),
        false => Err(Fault::JournalFailed),
    }
}

/// A copy of a journal's file, locked and synced, which replaces it.
pub(crate) fn write_anew(
    rt: &HostRuntime,
    alloc: Global,
    names: &Names,
    heading: &[u8],
    old: &File,
) -> Result<File, Fault>
    ensures { IfErr result IsFileFault }
{
    let Ok(about) = old.metadata() else {
        return Err(Fault::JournalFailed);
    };
    let aside = names.aside.as_str();
    let new = begin_anew(rt, alloc, aside, heading, about.permissions())?;
    match copy(old, new) {
        Ok(new) => {
            put_in_place(rt, &new, id_of(old)?, names)?;
            Ok(new)
        }
        Err(fault) => {
            let _ = fs::remove_file(rt, aside);
            Err(fault)
        }
    }
}

/// Copies a file's bytes to a new one.
fn copy(old: &File, new: File) -> Result<File, Fault>
    ensures { IfErr result IsFileFault }
{
    let mut sink = OutputSink::new(new);
    let mut block = [0u8; BLOCK];
    let mut at = 0;
    'blocks: for _ in 0..u64::MAX {
        let Ok(n) = read_uninterrupted(old, at, &mut block) else {
            return Err(Fault::JournalFailed);
        };
        if n == 0 {
            return Ok(sink.writer);
        }
        if write_all(&mut sink, &block[..n]).is_err() {
            return Err(Fault::JournalFailed);
        }
        at += n;
    }
    Err(Fault::JournalFailed)
}
