//! Journals that begin with rows.
use crate::checks::same;
use crate::journals::{HEADING, found, recovered, setting};
use calvin_app::Kv;
use calvin_edge::{FailingSink, MemorySink};
use calvin_journal_log::MemoryLog;
use calvin_serve_desk::Desk;
use calvin_serve_lines::read_epoch;
use calvin_serve_recovery::replay;
use calvin_types::Fault;
use std::alloc::Global;
use std::process::Abort;
use std::test::Fail;

/// Two rows in which three epochs ended, behind the heading.
const ROWS: &[u8] = b"{\"partitions\":2}\n[\"rows\",3,2]\n[0,1,13]\n[0,2,40]\n";

/// Two epochs more.
const EPOCHS: &[u8] =
    b"[{\"group\":0,\"txns\":[{\"client\":2,\"number\":4,\"op\":[\"add\",1,2]}]}]\n\
    [{\"group\":1,\"txns\":[{\"client\":1,\"number\":2,\"op\":[\"get\",[1,2]]}]}]\n";

/// What these were answered.
const ANSWERED: &[u8] = b"3.0 2:4 value 15\n4.0 1:2 value 15 value 40\nfinished 4\n";

/// A desk of so many epochs has these bytes in its log, and tells both rows in one epoch more.
fn check(
    rt: &impl Abort,
    alloc: Global,
    desk: Desk<Kv, MemoryLog>,
    epochs: u64,
    bytes: &[u8],
    answer: &str,
) -> Result<(), Fault> {
    same(rt, desk.epoch(), epochs);
    let line = b"[{\"group\":1,\"txns\":[{\"client\":1,\"number\":9,\"op\":[\"get\",[1,2]]}]}]";
    let epoch = read_epoch(alloc, 2, line)?;
    let mut text = Vec::new(alloc);
    match desk.commit(alloc, line, &epoch, &mut text) {
        Ok(desk) => {
            let log = desk.into_log();
            same(rt, text.as_slice(), answer.as_bytes());
            let mut longer = bytes.to_vec(alloc)?;
            longer.extend_from_slice(line)?;
            longer.push(b'\n')?;
            same(rt, log.left(0), longer.as_slice());
            Ok(())
        }
        Err(refused) => Err(refused.fault),
    }
}

#[test]
fn epochs_are_run_again_on_rows(rt: HostRuntime) -> Result<(), Fail> {
    let alloc = rt.alloc();
    let mut whole = ROWS.to_vec(alloc)?;
    whole.extend_from_slice(EPOCHS)?;
    match recovered(alloc, found(alloc, ROWS, EPOCHS)?) {
        Ok(desk) => check(&rt, alloc, desk, 5, &whole, "5.0 1:9 value 15 value 40\n")?,
        Err(refused) => return Err(refused.fault.into()),
    }
    match recovered(alloc, found(alloc, ROWS, b"")?) {
        Ok(desk) => check(&rt, alloc, desk, 3, ROWS, "3.0 1:9 value 13 value 40\n")?,
        Err(refused) => return Err(refused.fault.into()),
    }
    Ok(())
}

#[test]
fn a_store_begins_at_an_epoch_with_no_row(rt: HostRuntime) -> Result<(), Fail> {
    let alloc = rt.alloc();
    let bytes = b"{\"partitions\":2}\n[\"rows\",7,0]\n";
    match recovered(alloc, found(alloc, bytes, b"")?) {
        Ok(desk) => check(&rt, alloc, desk, 7, bytes, "7.0 1:9 none none\n")?,
        Err(refused) => return Err(refused.fault.into()),
    }
    Ok(())
}

/// A journal with the heading and these lines is printed so, and then refused so, if it is; what a crash leaves is what was found.
fn print(
    rt: &impl Abort,
    alloc: Global,
    front: &[u8],
    rest: &[u8],
    text: &[u8],
    refused: Option<Fault>,
) -> Result<(), Fault> {
    let log = found(alloc, front, rest)?;
    let bytes = log.bytes.to_vec(alloc)?;
    let mut sink = MemorySink::new(alloc);
    let (log, fault) = match replay(alloc, Kv, setting(), log, HEADING, &mut sink) {
        Ok(log) => (log, None),
        Err(refused) => (refused.log, Some(refused.fault)),
    };
    same(rt, sink.taken.as_slice(), text);
    same(rt, fault, refused);
    same(rt, log.left(0), bytes.as_slice());
    Ok(())
}

#[test]
fn epochs_behind_rows_are_printed(rt: HostRuntime) -> Result<(), Fail> {
    let alloc = rt.alloc();
    print(&rt, alloc, ROWS, EPOCHS, ANSWERED, None)?;
    // A torn last line is none.
    print(&rt, alloc, ROWS, b"[{\"group\":0", b"finished 2\n", None)?;
    print(&rt, alloc, ROWS, b"", b"finished 2\n", None)?;
    print(
        &rt,
        alloc,
        HEADING,
        b"\n[\"rows\",0,0]\n",
        b"finished none\n",
        None,
    )?;
    print(
        &rt,
        alloc,
        HEADING,
        b"\n[\"rows\",0,0]\n[]\n",
        b"finished 0\n",
        None,
    )?;
    Ok(())
}

#[test]
fn the_last_epoch_has_a_number_below_2_48(rt: HostRuntime) -> Result<(), Fail> {
    let alloc = rt.alloc();
    let last = b"\n[\"rows\",281474976710655,0]\n[]\n";
    print(
        &rt,
        alloc,
        HEADING,
        last,
        b"finished 281474976710655\n",
        None,
    )?;
    let none_left = b"\n[\"rows\",281474976710656,0]\n";
    print(
        &rt,
        alloc,
        HEADING,
        none_left,
        b"finished 281474976710655\n",
        None,
    )?;
    let one_more = b"\n[\"rows\",281474976710656,0]\n[]\n";
    print(&rt, alloc, HEADING, one_more, b"", Some(Fault::EpochsSpent))?;
    let above = b"\n[\"rows\",281474976710657,0]\n";
    print(&rt, alloc, HEADING, above, b"", Some(Fault::NotAJournal))?;
    Ok(())
}

/// A journal with the heading and these lines is refused as none, nothing is printed, and the log is as it was.
fn refuse(rt: &impl Abort, alloc: Global, lines: &[u8]) -> Result<(), Fault> {
    print(rt, alloc, HEADING, lines, b"", Some(Fault::NotAJournal))?;
    match recovered(alloc, found(alloc, HEADING, lines)?) {
        Ok(desk) => same(rt, desk.epoch(), u64::MAX),
        Err(refused) => {
            same(rt, refused.fault, Fault::NotAJournal);
            let log = found(alloc, HEADING, lines)?;
            same(rt, refused.log.left(0), log.bytes.as_slice());
            same(rt, refused.log.bytes.len(), log.bytes.len());
        }
    }
    Ok(())
}

#[test]
fn too_few_rows_are_refused(rt: HostRuntime) -> Result<(), Fail> {
    let alloc = rt.alloc();
    refuse(&rt, alloc, b"\n[\"rows\",3,2]\n")?;
    refuse(&rt, alloc, b"\n[\"rows\",3,2]\n[0,1,13]\n")?;
    // The second row is torn.
    refuse(&rt, alloc, b"\n[\"rows\",3,2]\n[0,1,13]\n[0,2,40]")?;
    // An epoch is no row.
    refuse(&rt, alloc, b"\n[\"rows\",3,2]\n[0,1,13]\n[]\n")?;
    refuse(&rt, alloc, b"\n[\"rows\",0,18446744073709551615]\n")?;
    Ok(())
}

#[test]
fn rows_of_one_key_are_refused(rt: HostRuntime) -> Result<(), Fail> {
    let alloc = rt.alloc();
    refuse(&rt, alloc, b"\n[\"rows\",3,2]\n[0,1,13]\n[0,1,13]\n")?;
    refuse(
        &rt,
        alloc,
        b"\n[\"rows\",3,3]\n[0,1,13]\n[0,2,40]\n[0,1,14]\n[]\n",
    )?;
    Ok(())
}

#[test]
fn a_row_that_is_none_is_refused(rt: HostRuntime) -> Result<(), Fail> {
    let alloc = rt.alloc();
    refuse(&rt, alloc, b"\n[\"rows\",3,1]\n[0,1]\n")?;
    refuse(&rt, alloc, b"\n[\"rows\",3,1]\n[0,1,-1]\n")?;
    refuse(&rt, alloc, b"\n[\"rows\",3,1]\n[256,1,13]\n")?;
    refuse(&rt, alloc, b"\n[\"rows\",3,1]\nno row\n")?;
    Ok(())
}

#[test]
fn a_start_or_a_row_is_no_epoch(rt: HostRuntime) -> Result<(), Fail> {
    let alloc = rt.alloc();
    // One row more than is told, and rows of which nothing is told.
    refuse(&rt, alloc, b"\n[\"rows\",3,1]\n[0,1,13]\n[0,2,40]\n")?;
    refuse(&rt, alloc, b"\n[0,1,13]\n")?;
    refuse(&rt, alloc, b"\n[\"rows\",3,0]\n[\"rows\",3,0]\n")?;
    refuse(&rt, alloc, b"\n[\"row\",3,0]\n")?;
    let behind = b"\n[]\n[\"rows\",1,0]\n";
    print(&rt, alloc, HEADING, behind, b"", Some(Fault::NotAJournal))?;
    Ok(())
}

#[test]
fn no_row_is_lost_where_a_log_refuses_a_call(rt: HostRuntime) -> Result<(), Fail> {
    let alloc = rt.alloc();
    let mut whole = 0usize;
    for calls in 0..8 {
        let mut log = found(alloc, ROWS, b"torn")?;
        log.calls = calls;
        match recovered(alloc, log) {
            Ok(desk) => {
                same(&rt, desk.epoch(), 3);
                whole = whole.saturating_add(1);
            }
            Err(refused) => {
                same(&rt, refused.fault, Fault::JournalFailed);
                same(&rt, refused.log.left(0).starts_with(ROWS), true);
                same(&rt, refused.log.failures.is_raised(), true);
            }
        }
    }
    same(&rt, whole > 0, true);
    Ok(())
}

#[test]
fn a_beginning_is_printed_of_epochs_behind_rows(rt: HostRuntime) -> Result<(), Fail> {
    for bytes in 0..ANSWERED.len() {
        let log = found(rt.alloc(), ROWS, EPOCHS)?;
        let mut sink = FailingSink::new(rt.alloc());
        sink.bytes = bytes;
        match replay(rt.alloc(), Kv, setting(), log, HEADING, &mut sink) {
            Ok(_) => same(&rt, bytes, usize::MAX),
            Err(refused) => {
                same(&rt, refused.fault, Fault::WriteFailed);
                same(&rt, refused.log.left(0).starts_with(ROWS), true);
            }
        }
        same(&rt, sink.taken.as_slice(), &ANSWERED[..bytes]);
    }
    Ok(())
}
