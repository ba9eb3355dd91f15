//! The names of a journal's file: where it stands, and where it is written anew.
ghost use Rattle.std.specs.Prelude.{IfErr};
ghost use Rattle.calvin_journal_log.specs.Files.{IsFileFault};

use calvin_types::Fault;
use std::alloc::Global;
use std::fs::{self, File};
use std::os::unix::fs::MetadataExt;
use std::path::Path;

/// The name beside a journal under which it is written anew ends so. No journal has such a name.
const ANEW: &str = ".anew";

/// Where a journal's file stands, whatever links lead there, and the name beside it under which it is written anew.
#[derive(Drop)]
pub(crate) struct Names {
    pub(crate) real: String,
    pub(crate) aside: String,
}

/// Whether a path ends in a name that no journal has.
pub(crate) fn is_aside(path: &str) -> bool {
    path.ends_with(ANEW)
}

/// The names of the file that stands at a path. `NotAJournal` where its own name is one that no journal has, whatever the path
/// calls it, and `JournalFailed` where nothing stands there.
pub(crate) fn names_of(rt: &HostRuntime, alloc: Global, path: &str) -> Result<Names, Fault>
    ensures { IfErr result IsFileFault }
{
    let Ok(found) = fs::canonicalize(rt, path) else {
        return Err(Fault::JournalFailed);
    };
    let Some(found) = found.to_str() else {
        return Err(Fault::JournalFailed);
    };
    if is_aside(found) {
        return Err(Fault::NotAJournal);
    }
    let mut real = String::new(alloc);
    real.push_str(found)?;
    let mut aside = String::new(alloc);
    aside.push_str(found)?;
    aside.push_str(ANEW)?;
    Ok(Names { real, aside })
}

/// Which file it is, whatever its names are.
#[derive(Clone, Copy, Debug, PartialEq, Eq)]
pub struct FileId {
    device: u64,
    inode: u64,
}

/// Which file this is. `JournalFailed` where the system doesn't say.
pub(crate) fn id_of(file: &File) -> Result<FileId, Fault>
    ensures { IfErr result IsFileFault }
{
    match file.metadata() {
        Ok(about) => Ok(FileId {
            device: about.dev(),
            inode: about.ino(),
        }),
        Err(_) => Err(Fault::JournalFailed),
    }
}

/// Whether a path still leads to this file, and the file has no other name: it may have been moved since it was opened, and
/// another one put in its place.
pub(crate) fn is_still(rt: &HostRuntime, path: &str, id: FileId) -> bool {
    match fs::metadata(rt, path) {
        Ok(about) => about.dev() == id.device && about.ino() == id.inode && about.nlink() <= 1,
        Err(_) => false,
    }
}

/// Whether something stands at a path that is neither a file nor a folder. Whoever opens a pipe may wait for its other end.
pub(crate) fn is_special(rt: &HostRuntime, path: &str) -> bool {
    match fs::metadata(rt, path) {
        Ok(about) => !about.is_file() && !about.is_dir(),
        Err(_) => false,
    }
}

/// Whether a file is the one that stands at a path: another process may have replaced it before it was locked.
pub(crate) fn stands_at(rt: &HostRuntime, file: &File, path: &str) -> Result<bool, Fault>
    ensures { IfErr result IsFileFault }
{
    let Ok(here) = file.metadata() else {
        return Err(Fault::JournalFailed);
    };
    match fs::metadata(rt, path) {
        Ok(there) => Ok(here.dev() == there.dev() && here.ino() == there.ino()),
        Err(_) => Err(Fault::JournalFailed),
    }
}

/// Whether a file has one name alone. Under a second one the old file would stand on when it is replaced under the first.
pub(crate) fn has_one_name(file: &File) -> Result<bool, Fault>
    ensures { IfErr result IsFileFault }
{
    match file.metadata() {
        Ok(about) => Ok(about.nlink() <= 1),
        Err(_) => Err(Fault::JournalFailed),
    }
}

/// Has the name of a file outlive a crash, and says whether the system did so.
pub(crate) fn sync_folder(rt: &HostRuntime, path: &str) -> bool {
    let folder = match Path::new(path).parent() {
        Some(parent) => parent.to_str().unwrap_or("."),
        None => ".",
    };
    let folder = if folder.is_empty() { "." } else { folder };
    match File::open(rt, folder) {
        Ok(folder) => folder.sync_all().is_ok(),
        Err(_) => false,
    }
}
