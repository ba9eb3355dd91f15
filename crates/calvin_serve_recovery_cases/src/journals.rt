//! The journals of the tests.
use calvin_app::Kv;
use calvin_journal::Refused;
use calvin_journal_log::MemoryLog;
use calvin_serial::UndeclaredSets;
use calvin_serve_desk::{Desk, Setting};
use calvin_serve_recovery::recover;
use std::alloc::{AllocError, Global};

/// The heading of the journals.
pub(crate) const HEADING: &[u8] = b"{\"partitions\":2}";

/// Three epochs of a store of two partitions, behind the heading.
pub(crate) const THREE: &[u8] = b"{\"partitions\":2}\n\
    [{\"group\":0,\"txns\":[{\"client\":2,\"number\":1,\"op\":[\"put\",1,7]}]}]\n\
    [{\"group\":0,\"txns\":[{\"client\":2,\"number\":2,\"op\":[\"add\",1,1]}]},\
    {\"group\":1,\"txns\":[{\"client\":1,\"number\":1,\"op\":[\"get\",[1]]}]}]\n\
    [{\"group\":0,\"txns\":[{\"client\":2,\"number\":3,\"op\":[\"add\",1,5]}]}]\n";

/// What they were answered.
pub(crate) const THREE_ANSWERED: &[u8] =
    b"0.0 2:1 done\n1.0 2:2 value 8\n1.1 1:1 value 8\n2.0 2:3 value 13\nfinished 2\n";

/// The setting of the journals.
pub(crate) fn setting() -> Setting {
    Setting {
        partitions: 2,
        sets: UndeclaredSets::First,
    }
}

/// A log that was found with the bytes of two texts, one behind the other, all of which are kept.
pub(crate) fn found(alloc: Global, front: &[u8], rest: &[u8]) -> Result<MemoryLog, AllocError> {
    let mut bytes = front.to_vec(alloc)?;
    bytes.extend_from_slice(rest)?;
    let size = bytes.len();
    let mut log = MemoryLog::new(bytes);
    log.synced = size;
    Ok(log)
}

/// The desk of a log's journal.
pub(crate) fn recovered(
    alloc: Global,
    log: MemoryLog,
) -> Result<Desk<Kv, MemoryLog>, Refused<MemoryLog>> {
    recover(alloc, Kv, setting(), log, HEADING)
}
