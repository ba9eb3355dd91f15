//! What the epochs of journals were answered.
use crate::checks::same;
use crate::journals::{HEADING, THREE, THREE_ANSWERED, found, setting};
use calvin_app::Kv;
use calvin_edge::MemorySink;
use calvin_journal_log::MemoryLog;
use calvin_serve_recovery::replay;
use calvin_types::Fault;
use std::alloc::Global;
use std::process::Abort;
use std::test::Fail;

/// A log's journal is printed so, and then refused so, if it is; what a crash leaves is what was found.
fn check(
    rt: &impl Abort,
    alloc: Global,
    log: MemoryLog,
    text: &[u8],
    refused: Option<Fault>,
) -> Result<(), Fault> {
    let bytes = log.bytes.to_vec(alloc)?;
    let mut sink = MemorySink::new(alloc);
    let (log, fault) = match replay(alloc, Kv, setting(), log, HEADING, &mut sink) {
        Ok(log) => (log, None),
        Err(refused) => (refused.log, Some(refused.fault)),
    };
    same(rt, sink.taken.as_slice(), text);
    same(rt, fault, refused);
    same(rt, log.left(0), bytes.as_slice());
    Ok(())
}

#[test]
fn three_epochs_are_printed(rt: HostRuntime) -> Result<(), Fail> {
    let log = found(rt.alloc(), THREE, b"")?;
    check(&rt, rt.alloc(), log, THREE_ANSWERED, None)?;
    Ok(())
}

#[test]
fn a_torn_last_line_is_none(rt: HostRuntime) -> Result<(), Fail> {
    let log = found(rt.alloc(), THREE, b"[{\"group\":0,\"txns\":[]}]")?;
    check(&rt, rt.alloc(), log, THREE_ANSWERED, None)?;
    Ok(())
}

#[test]
fn a_journal_without_an_epoch_is_printed(rt: HostRuntime) -> Result<(), Fail> {
    let log = found(rt.alloc(), HEADING, b"\n")?;
    check(&rt, rt.alloc(), log, b"finished none\n", None)?;
    let log = found(rt.alloc(), HEADING, b"\n[]\n")?;
    check(&rt, rt.alloc(), log, b"finished 0\n", None)?;
    Ok(())
}

#[test]
fn nothing_is_printed_of_another_journal(rt: HostRuntime) -> Result<(), Fail> {
    let log = found(rt.alloc(), b"{\"partitions\":3}\n", b"[]\n")?;
    check(&rt, rt.alloc(), log, b"", Some(Fault::NotAJournal))?;
    Ok(())
}

#[test]
fn it_stops_at_a_line_that_is_no_epoch(rt: HostRuntime) -> Result<(), Fail> {
    let log = found(rt.alloc(), THREE, b"no epoch\n[]\n")?;
    let text = b"0.0 2:1 done\n1.0 2:2 value 8\n1.1 1:1 value 8\n2.0 2:3 value 13\n";
    check(&rt, rt.alloc(), log, text, Some(Fault::NotAJournal))?;
    Ok(())
}
