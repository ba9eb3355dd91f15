//! Journals in files.
use crate::checks::same;
use crate::journals::{HEADING, WHOLE_HEADING, open, or_fault};
use calvin_journal_log::{Access, FileLog, Log};
use calvin_types::Fault;
use std::fs;
use std::test::Fail;

/// The log of the file of a name, which is to be added to.
fn file_of(rt: HostRuntime, name: &str) -> Result<FileLog, Fault> {
    FileLog::open(rt, rt.alloc(), name, HEADING, Access::Add)
}

#[test]
fn a_journal_in_a_file_comes_back(rt: HostRuntime) -> Result<(), Fail> {
    let name = "journal-that-comes-back";
    let _ = fs::remove_file(&rt, name);
    let opened = or_fault(open(rt.alloc(), file_of(rt, name)?))?;
    same(&rt, opened.text.len(), 0);
    let journal = or_fault(opened.journal.add(rt.alloc(), b"one"))?;
    let journal = or_fault(journal.add(rt.alloc(), b"two"))?;
    same(&rt, file_of(rt, name).err(), Some(Fault::JournalInUse));
    let mut log = journal.into_log();
    log.append(b"torn")?;
    drop(log);
    let bytes = fs::read(&rt, name)?;
    same(
        &rt,
        bytes.as_slice(),
        b"{\"calvin\":1,\"app\":\"kv\"}\none\ntwo\ntorn".as_slice(),
    );
    let opened = or_fault(open(rt.alloc(), file_of(rt, name)?))?;
    same(&rt, opened.text.as_slice(), b"one\ntwo\n".as_slice());
    let journal = or_fault(opened.journal.add(rt.alloc(), b"three"))?;
    drop(journal);
    let bytes = fs::read(&rt, name)?;
    same(
        &rt,
        bytes.as_slice(),
        b"{\"calvin\":1,\"app\":\"kv\"}\none\ntwo\nthree\n".as_slice(),
    );
    fs::remove_file(&rt, name)?;
    Ok(())
}

#[test]
fn what_is_no_journal_is_left_as_it_was(rt: HostRuntime) -> Result<(), Fail> {
    let name = "no-journal";
    fs::write(&rt, name, b"some text\nof mine")?;
    same(&rt, file_of(rt, name).err(), Some(Fault::NotAJournal));
    let bytes = fs::read(&rt, name)?;
    same(&rt, bytes.as_slice(), b"some text\nof mine".as_slice());
    fs::remove_file(&rt, name)?;
    same(
        &rt,
        file_of(rt, "/dev/full").err(),
        Some(Fault::NotAJournal),
    );
    same(&rt, file_of(rt, ".").err(), Some(Fault::JournalFailed));
    same(
        &rt,
        file_of(rt, "no-folder/journal").err(),
        Some(Fault::JournalFailed),
    );
    Ok(())
}

#[test]
fn a_journal_is_written_anew_where_it_is_to_be_added_to(rt: HostRuntime) -> Result<(), Fail> {
    let name = "journal-anew";
    let aside = "journal-anew.anew";
    fs::write(&rt, name, b"{\"calvin\":1")?;
    fs::write(&rt, aside, b"what is no beginning of the journal")?;
    same(&rt, file_of(rt, name).err(), Some(Fault::JournalFailed));
    fs::write(&rt, aside, b"{\"cal")?;
    drop(file_of(rt, name)?);
    let bytes = fs::read(&rt, name)?;
    same(&rt, bytes.as_slice(), b"{\"calvin\":1".as_slice());
    same(&rt, fs::read(&rt, aside).is_err(), true);
    let opened = or_fault(open(rt.alloc(), file_of(rt, name)?))?;
    drop(opened.journal);
    let bytes = fs::read(&rt, name)?;
    same(&rt, bytes.as_slice(), WHOLE_HEADING);
    fs::remove_file(&rt, name)?;
    Ok(())
}

#[test]
fn a_journal_that_is_only_read_is_not_made(rt: HostRuntime) -> Result<(), Fail> {
    let name = "journal-that-is-not-there";
    let found = FileLog::open(rt, rt.alloc(), name, HEADING, Access::Read);
    same(&rt, found.err(), Some(Fault::JournalFailed));
    same(&rt, fs::read(&rt, name).is_err(), true);
    Ok(())
}
