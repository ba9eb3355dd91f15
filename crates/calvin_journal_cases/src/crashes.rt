//! What is left of a journal after a refusal at each call, torn at each byte, and a crash that leaves each number of bytes.
use crate::checks::{holds, same};
use crate::journals::{WHOLE_HEADING, found, open};
use calvin_journal_log::{Log, LogFailed, MemoryLog};
use calvin_types::Fault;
use std::alloc::{AllocError, Global};
use std::test::Fail;

/// The lines that are added, one after another.
const LINES: [&[u8]; 3] = [b"one", b"", b"three"];

/// The text of none of them, of the first, and so on.
const TEXTS: [&[u8]; 4] = [b"", b"one\n", b"one\n\n", b"one\n\nthree\n"];

/// What came of a journal: how many lines were added and answered well, and its log.
#[derive(Drop)]
struct Served {
    answered: usize,
    log: MemoryLog,
}

/// Opens a journal and adds the lines to it, until a call is refused.
fn serve(alloc: Global, log: MemoryLog) -> Served {
    let mut journal = match open(alloc, log) {
        Ok(opened) => opened.journal,
        Err(refused) => {
            return Served {
                answered: 0,
                log: refused.log,
            };
        }
    };
    for (answered, line) in LINES.into_iter().enumerate() {
        match journal.add(alloc, line) {
            Ok(next) => journal = next,
            Err(refused) => {
                let log = refused.log;
                return Served { answered, log };
            }
        }
    }
    Served {
        answered: LINES.len(),
        log: journal.into_log(),
    }
}

/// How many of the lines a log has after a crash that leaves so many bytes more than it has to.
fn lines_left(alloc: Global, log: &MemoryLog, more: usize) -> Result<Option<usize>, AllocError> {
    let left = found(alloc, log.left(more))?;
    match open(alloc, left) {
        Ok(opened) => Ok(
            TEXTS
                .iter()
                .position(|text| *text == opened.text.as_slice()),
        ),
        Err(_) => Ok(None),
    }
}

#[test]
fn a_refusal_loses_no_line_that_was_answered(rt: HostRuntime) -> Result<(), Fail> {
    let mut is_served_whole = false;
    for calls in 0..15 {
        for torn in 0..WHOLE_HEADING.len() + 2 {
            let mut log = found(rt.alloc(), b"")?;
            log.calls = calls;
            log.torn = torn;
            let served = serve(rt.alloc(), log);
            let under_way = served.answered.saturating_add(1).min(LINES.len());
            if served.answered == LINES.len() {
                is_served_whole = true;
            }
            for more in 0..served.log.bytes.len() + 1 {
                let lines = lines_left(rt.alloc(), &served.log, more)?;
                let is_between = matches!(lines, Some(n) if served.answered <= n && n <= under_way);
                same(
                    &rt,
                    (calls, torn, more, is_between),
                    (calls, torn, more, true),
                );
            }
        }
    }
    holds(&rt, is_served_whole);
    Ok(())
}

/// The journal of two lines, one of them torn, is opened once more and refused at each call.
#[test]
fn a_refusal_while_a_journal_is_opened_loses_no_line(rt: HostRuntime) -> Result<(), Fail> {
    let bytes = b"{\"calvin\":1,\"app\":\"kv\"}\none\n\nthr";
    for calls in 0..6 {
        let mut log = found(rt.alloc(), bytes)?;
        log.calls = calls;
        match open(rt.alloc(), log) {
            Ok(_) => same(&rt, (calls, 5 <= calls), (calls, true)),
            Err(refused) => {
                same(&rt, (calls, refused.fault), (calls, Fault::JournalFailed));
                same(&rt, refused.log.left(usize::MAX), bytes.as_slice());
                holds(&rt, refused.log.failures.is_raised());
            }
        }
    }
    Ok(())
}

/// Cuts a log where it has so many bytes.
fn cut_within(log: &mut MemoryLog, size: usize) -> Result<(), LogFailed> {
    if log.size < size {
        return Err(LogFailed);
    }
    log.cut(size)
}

/// Bytes that were cut off may come back, until the log is synced.
#[test]
fn cut_bytes_may_come_back_until_the_next_sync(rt: HostRuntime) -> Result<(), Fail> {
    let mut log = found(rt.alloc(), b"abcdef")?;
    log.sync()?;
    cut_within(&mut log, 4)?;
    same(&rt, log.left(0), b"abcd".as_slice());
    same(&rt, log.left(2), b"abcdef".as_slice());
    let mut buffer = [0u8; 8];
    same(&rt, log.read_at(1, &mut buffer)?, 3);
    same(&rt, &buffer[..3], b"bcd".as_slice());
    log.sync()?;
    same(&rt, log.left(2), b"abcd".as_slice());
    log.append(b"xy")?;
    same(&rt, log.left(0), b"abcd".as_slice());
    same(&rt, log.left(1), b"abcdx".as_slice());
    same(&rt, log.left(9), b"abcdxy".as_slice());
    Ok(())
}
