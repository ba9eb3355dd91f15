//! Files of journals that are written anew: which names no journal has, and what stands beside one.
ghost use Rattle.std.specs.Prelude.{◌≡◌, None, Option};

use crate::checks::same;
use crate::journals::{HEADING, WHOLE_HEADING, open, or_fault};
use calvin_journal::Beginning;
use calvin_journal_log::{Access, FileLog};
use calvin_types::Fault;
use std::fs;
use std::os::unix::fs::symlink;
use std::test::Fail;

/// Why the file of a name isn't opened, if it isn't.
fn refusal(rt: HostRuntime, name: &str, access: Access) -> Option<Fault> {
    FileLog::open(rt, rt.alloc(), name, HEADING, access).err()
}

#[test]
fn no_journal_has_a_name_that_ends_so(rt: HostRuntime) -> Result<(), Fail> {
    let name = "no-journal.anew";
    same(
        &rt,
        refusal(rt, name, Access::Add),
        Some(Fault::NotAJournal),
    );
    same(
        &rt,
        refusal(rt, name, Access::Read),
        Some(Fault::NotAJournal),
    );
    same(&rt, fs::read(&rt, name).is_err(), true);
    fs::write(&rt, name, WHOLE_HEADING)?;
    let link = "link-to-no-journal";
    let _ = fs::remove_file(&rt, link);
    symlink(&rt, name, link)?;
    same(
        &rt,
        refusal(rt, link, Access::Add),
        Some(Fault::NotAJournal),
    );
    same(
        &rt,
        refusal(rt, link, Access::Read),
        Some(Fault::NotAJournal),
    );
    let beside = FileLog::beside(rt, rt.alloc(), link, HEADING);
    same(&rt, beside.err(), Some(Fault::NotAJournal));
    let bytes = fs::read(&rt, name)?;
    same(&rt, bytes.as_slice(), WHOLE_HEADING);
    fs::remove_file(&rt, link)?;
    fs::remove_file(&rt, name)?;
    Ok(())
}

/// The other name would go on to name the old file.
#[test]
fn a_journal_of_two_names_is_only_read(rt: HostRuntime) -> Result<(), Fail> {
    let (name, other) = ("journal-of-two-names", "its-other-name");
    let _ = fs::remove_file(&rt, other);
    fs::write(&rt, name, WHOLE_HEADING)?;
    fs::hard_link(&rt, name, other)?;
    for name in [name, other] {
        same(
            &rt,
            refusal(rt, name, Access::Add),
            Some(Fault::JournalFailed),
        );
        same(&rt, refusal(rt, name, Access::Read), None);
    }
    fs::remove_file(&rt, other)?;
    same(&rt, refusal(rt, name, Access::Add), None);
    fs::remove_file(&rt, name)?;
    Ok(())
}

/// What a process that was cut off has left beside a journal: a beginning of any journal of this heading.
#[test]
fn what_was_cut_off_is_removed(rt: HostRuntime) -> Result<(), Fail> {
    let (name, aside) = ("journal-beside", "journal-beside.anew");
    let whole = b"{\"calvin\":1,\"app\":\"kv\"}\none\n".as_slice();
    fs::write(&rt, name, whole)?;
    let left: [&[u8]; 4] = [
        b"",
        b"{\"calvin\":1,",
        b"{\"calvin\":1,\"app\":\"kv\"}\n",
        b"{\"calvin\":1,\"app\":\"kv\"}\nother li",
    ];
    for bytes in left {
        fs::write(&rt, aside, bytes)?;
        same(&rt, refusal(rt, name, Access::Read), None);
        same(&rt, fs::read(&rt, aside)?.len(), bytes.len());
        same(&rt, refusal(rt, name, Access::Add), None);
        same(&rt, fs::read(&rt, aside).is_err(), true);
    }
    let other = b"{\"calvin\":1,\"app\":\"kw\"}\n".as_slice();
    fs::write(&rt, aside, other)?;
    same(
        &rt,
        refusal(rt, name, Access::Add),
        Some(Fault::JournalFailed),
    );
    let beside = FileLog::beside(rt, rt.alloc(), name, HEADING);
    same(&rt, beside.err(), Some(Fault::JournalFailed));
    same(&rt, fs::read(&rt, aside)?.as_slice(), other);
    fs::remove_file(&rt, aside)?;
    let beside = FileLog::beside(rt, rt.alloc(), name, HEADING)?;
    same(
        &rt,
        refusal(rt, name, Access::Add),
        Some(Fault::JournalInUse),
    );
    drop(beside);
    same(&rt, refusal(rt, name, Access::Add), None);
    same(&rt, fs::read(&rt, name)?.as_slice(), whole);
    fs::remove_file(&rt, name)?;
    Ok(())
}

#[test]
fn a_journal_is_replaced_by_the_one_beside_it(rt: HostRuntime) -> Result<(), Fail> {
    let (name, aside) = ("journal-replaced", "journal-replaced.anew");
    let alloc = rt.alloc();
    fs::write(&rt, name, b"{\"calvin\":1,\"app\":\"kv\"}\none\ntwo\n")?;
    let old = FileLog::open(rt, alloc, name, HEADING, Access::Add)?;
    let id = old.id()?;
    same(
        &rt,
        old.replace(rt, alloc, name, id).err(),
        Some(Fault::JournalFailed),
    );
    let beside = FileLog::beside(rt, alloc, name, HEADING)?;
    let beginning = or_fault(Beginning::new(alloc, beside).add(HEADING))?;
    let beginning = or_fault(beginning.add(b"three"))?;
    let journal = or_fault(beginning.finish())?;
    let wanted = b"{\"calvin\":1,\"app\":\"kv\"}\nthree\n".as_slice();
    same(&rt, fs::read(&rt, aside)?.as_slice(), wanted);
    same(
        &rt,
        old.replace(rt, alloc, name, id).err(),
        Some(Fault::JournalFailed),
    );
    let new = journal.into_log();
    // Another file stands there now, and then the old one again.
    fs::rename(&rt, name, "journal-moved")?;
    fs::write(&rt, name, b"{\"calvin\":1,\"app\":\"kv\"}\n")?;
    same(
        &rt,
        new.replace(rt, alloc, name, id).err(),
        Some(Fault::JournalFailed),
    );
    fs::rename(&rt, "journal-moved", name)?;
    new.replace(rt, alloc, name, id)?;
    same(&rt, fs::read(&rt, aside).is_err(), true);
    same(&rt, fs::read(&rt, name)?.as_slice(), wanted);
    drop(old);
    same(
        &rt,
        refusal(rt, name, Access::Read),
        Some(Fault::JournalInUse),
    );
    drop(new);
    let opened = or_fault(open(alloc, FileLog::open(rt, alloc, name, HEADING, Access::Add)?))?;
    same(&rt, opened.text.as_slice(), b"three\n".as_slice());
    drop(opened);
    fs::remove_file(&rt, name)?;
    let gone = FileLog::beside(rt, alloc, name, HEADING);
    same(&rt, gone.err(), Some(Fault::JournalFailed));
    Ok(())
}
