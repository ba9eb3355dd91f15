//! Logs that refuse a call, each number of calls, and sinks that refuse a write, at each byte.
use crate::checks::same;
use crate::journals::{HEADING, THREE, THREE_ANSWERED, found, recovered, setting};
use calvin_app::Kv;
use calvin_edge::FailingSink;
use calvin_serve_recovery::replay;
use calvin_types::Fault;
use std::test::Fail;

#[test]
fn no_line_is_lost_where_a_log_refuses_a_call(rt: HostRuntime) -> Result<(), Fail> {
    let mut whole = 0usize;
    for calls in 0..8 {
        let mut log = found(rt.alloc(), THREE, b"torn")?;
        log.calls = calls;
        match recovered(rt.alloc(), log) {
            Ok(desk) => {
                same(&rt, desk.epoch(), 3);
                whole = whole.saturating_add(1);
            }
            Err(refused) => {
                same(&rt, refused.fault, Fault::JournalFailed);
                same(&rt, refused.log.left(0).starts_with(THREE), true);
                same(&rt, refused.log.failures.is_raised(), true);
            }
        }
    }
    same(&rt, whole > 0, true);
    Ok(())
}

#[test]
fn a_beginning_is_printed_where_a_sink_refuses_a_write(rt: HostRuntime) -> Result<(), Fail> {
    for bytes in 0..THREE_ANSWERED.len() {
        let log = found(rt.alloc(), THREE, b"")?;
        let mut sink = FailingSink::new(rt.alloc());
        sink.bytes = bytes;
        match replay(rt.alloc(), Kv, setting(), log, HEADING, &mut sink) {
            Ok(_) => same(&rt, bytes, usize::MAX),
            Err(refused) => {
                same(&rt, refused.fault, Fault::WriteFailed);
                same(&rt, refused.log.left(0), THREE);
            }
        }
        same(&rt, sink.taken.as_slice(), &THREE_ANSWERED[..bytes]);
    }
    Ok(())
}
