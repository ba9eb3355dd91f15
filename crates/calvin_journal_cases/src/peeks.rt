//! Lines that are looked at before they are handed out.
use crate::checks::{holds, same};
use crate::journals::{HEADING, found, or_fault};
use calvin_journal::Opening;
use calvin_types::Fault;
use std::test::Fail;

/// The journal of two lines, one of them empty, and a torn one.
const BYTES: &[u8] = b"{\"calvin\":1,\"app\":\"kv\"}\none\n\nthr";

/// One sync and one read come before the first line, and one read more at the end; whoever looks there again reads again.
#[test]
fn a_line_that_is_looked_at_stays_ahead(rt: HostRuntime) -> Result<(), Fail> {
    let alloc = rt.alloc();
    let mut opening = or_fault(Opening::begin(alloc, found(alloc, BYTES)?, HEADING))?;
    let mut line = b"what was there".to_vec(alloc)?;
    for wanted in [b"one".as_slice(), b""] {
        for _ in 0..3 {
            same(&rt, opening.peek_line(alloc, &mut line)?, true);
            same(&rt, line.as_slice(), wanted);
        }
        line.push(b'x')?;
        same(&rt, opening.next_line(alloc, &mut line)?, true);
        same(&rt, line.as_slice(), wanted);
    }
    same(&rt, opening.peek_line(alloc, &mut line)?, false);
    same(&rt, opening.peek_line(alloc, &mut line)?, false);
    same(&rt, opening.next_line(alloc, &mut line)?, false);
    let log = opening.into_log();
    same(&rt, usize::MAX - log.calls, 5);
    same(&rt, log.bytes.as_slice(), BYTES);
    holds(&rt, !log.failures.is_raised());
    Ok(())
}

/// A read that is refused hands nothing out, and the next one begins where it did.
#[test]
fn a_refused_look_hands_out_nothing(rt: HostRuntime) -> Result<(), Fail> {
    let alloc = rt.alloc();
    let mut log = found(alloc, BYTES)?;
    log.calls = 2;
    let mut opening = or_fault(Opening::begin(alloc, log, HEADING))?;
    let mut line = Vec::new(alloc);
    for wanted in [b"one".as_slice(), b""] {
        same(&rt, opening.peek_line(alloc, &mut line)?, true);
        same(&rt, opening.next_line(alloc, &mut line)?, true);
        same(&rt, line.as_slice(), wanted);
    }
    for _ in 0..2 {
        let looked = opening.peek_line(alloc, &mut line);
        same(&rt, looked.err(), Some(Fault::JournalFailed));
    }
    holds(&rt, opening.into_log().failures.is_raised());
    Ok(())
}

#[test]
fn a_line_longer_than_a_block_is_looked_at_whole(rt: HostRuntime) -> Result<(), Fail> {
    let alloc = rt.alloc();
    let mut bytes = b"{\"calvin\":1,\"app\":\"kv\"}\n".to_vec(alloc)?;
    for _ in 0..200_000 {
        bytes.push(b'x')?;
    }
    bytes.extend_from_slice(b"\nshort\n")?;
    let mut opening = or_fault(Opening::begin(alloc, found(alloc, &bytes)?, HEADING))?;
    let mut line = Vec::new(alloc);
    same(&rt, opening.peek_line(alloc, &mut line)?, true);
    same(&rt, line.len(), 200_000);
    same(&rt, opening.next_line(alloc, &mut line)?, true);
    same(&rt, line.len(), 200_000);
    same(&rt, opening.peek_line(alloc, &mut line)?, true);
    same(&rt, line.as_slice(), b"short".as_slice());
    Ok(())
}
