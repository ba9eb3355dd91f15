//! Journals that are opened again.
use crate::checks::same;
use crate::journals::{HEADING, THREE, found, recovered};
use calvin_app::Kv;
use calvin_journal_log::MemoryLog;
use calvin_serve_desk::Desk;
use calvin_serve_lines::read_epoch;
use calvin_types::Fault;
use std::alloc::Global;
use std::process::Abort;
use std::test::Fail;

/// A desk of so many epochs has these bytes in its log, and answers one epoch more so.
fn check(
    rt: &impl Abort,
    alloc: Global,
    desk: Desk<Kv, MemoryLog>,
    epochs: u64,
    bytes: &[u8],
    answer: &str,
) -> Result<(), Fault> {
    same(rt, desk.epoch(), epochs);
    let line = b"[{\"group\":1,\"txns\":[{\"client\":1,\"number\":9,\"op\":[\"get\",[1]]}]}]";
    let epoch = read_epoch(alloc, 2, line)?;
    let mut text = Vec::new(alloc);
    match desk.commit(alloc, line, &epoch, &mut text) {
        Ok(desk) => {
            let log = desk.into_log();
            same(rt, text.as_slice(), answer.as_bytes());
            let mut longer = bytes.to_vec(alloc)?;
            longer.extend_from_slice(line)?;
            longer.push(b'\n')?;
            same(rt, log.left(0), longer.as_slice());
            Ok(())
        }
        Err(refused) => Err(refused.fault),
    }
}

#[test]
fn three_epochs_are_run_again(rt: HostRuntime) -> Result<(), Fail> {
    let log = found(rt.alloc(), THREE, b"")?;
    match recovered(rt.alloc(), log) {
        Ok(desk) => check(&rt, rt.alloc(), desk, 3, THREE, "3.0 1:9 value 13\n")?,
        Err(refused) => return Err(refused.fault.into()),
    }
    Ok(())
}

#[test]
fn a_torn_last_line_is_cut_off(rt: HostRuntime) -> Result<(), Fail> {
    let torn = b"[{\"group\":0,\"txns\":[{\"client\":2,\"number\":4,\"op\":[\"add\",1,100]}]}]";
    for size in 0..torn.len() {
        let log = found(rt.alloc(), THREE, &torn[..size])?;
        match recovered(rt.alloc(), log) {
            Ok(desk) => check(&rt, rt.alloc(), desk, 3, THREE, "3.0 1:9 value 13\n")?,
            Err(refused) => return Err(refused.fault.into()),
        }
    }
    Ok(())
}

#[test]
fn a_journal_that_is_not_there_begins(rt: HostRuntime) -> Result<(), Fail> {
    let mut headed = HEADING.to_vec(rt.alloc())?;
    headed.push(b'\n')?;
    for size in 0..headed.len() {
        let log = found(rt.alloc(), &headed[..size], b"")?;
        match recovered(rt.alloc(), log) {
            Ok(desk) => check(&rt, rt.alloc(), desk, 0, &headed, "0.0 1:9 none\n")?,
            Err(refused) => return Err(refused.fault.into()),
        }
    }
    Ok(())
}

/// These bytes are refused as no journal, and the log is as it was.
fn refuse(rt: &impl Abort, alloc: Global, front: &[u8], rest: &[u8]) -> Result<(), Fault> {
    let log = found(alloc, front, rest)?;
    match recovered(alloc, log) {
        Ok(desk) => same(rt, desk.epoch(), u64::MAX),
        Err(refused) => {
            same(rt, refused.fault.number(), 93);
            let log = found(alloc, front, rest)?;
            same(rt, refused.log.left(0), log.bytes.as_slice());
            same(rt, refused.log.bytes.len(), log.bytes.len());
        }
    }
    Ok(())
}

#[test]
fn another_heading_is_refused(rt: HostRuntime) -> Result<(), Fail> {
    refuse(&rt, rt.alloc(), b"{\"partitions\":3}\n", b"")?;
    refuse(&rt, rt.alloc(), b"{\"partitions\":2} \n", b"")?;
    refuse(&rt, rt.alloc(), b"\n", THREE)?;
    refuse(&rt, rt.alloc(), b"{\"partitions\":3", b"")?;
    Ok(())
}

#[test]
fn a_line_that_is_no_epoch_is_refused(rt: HostRuntime) -> Result<(), Fail> {
    refuse(&rt, rt.alloc(), THREE, b"no epoch\n")?;
    refuse(&rt, rt.alloc(), THREE, b"\n")?;
    refuse(&rt, rt.alloc(), THREE, b"{}\n[]\n")?;
    // A group that is no partition, and one that is listed twice.
    refuse(&rt, rt.alloc(), THREE, b"[{\"group\":2,\"txns\":[]}]\n[]\n")?;
    refuse(
        &rt,
        rt.alloc(),
        THREE,
        b"[{\"group\":1,\"txns\":[]},{\"group\":1,\"txns\":[]}]\ntorn",
    )?;
    Ok(())
}
