//! The desks of the tests.
ghost use Rattle.std.specs.Prelude.{◌≡◌, [], false};
ghost use Rattle.calvin_journal_log.specs.Memory.{disk_of};
ghost use Rattle.calvin_journal.specs.Lines.{has_break};
ghost use Rattle.calvin_journal.specs.Journals.{synced};

use calvin_app::{Kv, Serial};
use calvin_journal::{Beginning, Journal, Refused};
use calvin_journal_log::MemoryLog;
use calvin_serial::UndeclaredSets;
use calvin_serve_desk::{Desk, Setting};
use calvin_serve_lines::read_epoch;
use calvin_types::Fault;
use std::alloc::Global;

/// The heading of the journals.
pub(crate) const HEADING: &[u8] = b"{\"partitions\":2}";

/// The journal of three epochs, behind which the rows 1, 2 and 3 are 10, 20 and 34.
pub(crate) const THREE: &[u8] = b"{\"partitions\":2}\n\
    [{\"group\":1,\"txns\":[{\"client\":1,\"number\":1,\"op\":[\"put\",3,30]}]}]\n\
    [{\"group\":0,\"txns\":[{\"client\":2,\"number\":1,\"op\":[\"put\",2,20]}]}]\n\
    [{\"group\":1,\"txns\":[{\"client\":1,\"number\":2,\"op\":[\"add\",3,4]},\
    {\"client\":1,\"number\":3,\"op\":[\"put\",1,10]}]}]\n";

/// A log with no bytes, whose calls fail behind so many.
pub(crate) fn empty_log(alloc: Global, calls: usize) -> MemoryLog
    ensures { disk_of result ≡ synced [] }
{
    let mut log = MemoryLog::new(Vec::new(alloc));
    log.calls = calls;
    log
}

/// The fault of what was refused.
pub(crate) fn or_fault<T>(answer: Result<T, Refused<MemoryLog>>) -> Result<T, Fault> {
    match answer {
        Ok(value) => Ok(value),
        Err(refused) => Err(refused.fault),
    }
}

/// A desk of no epoch.
pub(crate) fn new_desk(alloc: Global) -> Result<Desk<Kv, MemoryLog>, Fault> {
    let setting = Setting {
        partitions: 2,
        sets: UndeclaredSets::First,
    };
    let beginning = Beginning::new(alloc, empty_log(alloc, usize::MAX));
    let journal: Journal<MemoryLog> = or_fault(or_fault(beginning.add(HEADING))?.finish())?;
    Ok(Desk::new(Kv, setting, Serial::new(alloc, Kv), 0, journal))
}

/// The desk of one epoch more, whose answers are added to a text.
pub(crate) fn after(
    alloc: Global,
    desk: Desk<Kv, MemoryLog>,
    line: &[u8],
    text: &mut Vec<u8>,
) -> Result<Desk<Kv, MemoryLog>, Fault>
    requires { has_break line.now ≡ false }
{
    let epoch = read_epoch(alloc, 2, line)?;
    or_fault(desk.commit(alloc, line, &epoch, text))
}

/// The desk of the three epochs.
pub(crate) fn desk_of_three(alloc: Global) -> Result<Desk<Kv, MemoryLog>, Fault> {
    let first = b"[{\"group\":1,\"txns\":[{\"client\":1,\"number\":1,\"op\":[\"put\",3,30]}]}]";
    let second = b"[{\"group\":0,\"txns\":[{\"client\":2,\"number\":1,\"op\":[\"put\",2,20]}]}]";
    let third = b"[{\"group\":1,\"txns\":[{\"client\":1,\"number\":2,\"op\":[\"add\",3,4]},\
        {\"client\":1,\"number\":3,\"op\":[\"put\",1,10]}]}]";
    let mut text = Vec::new(alloc);
    let desk = after(alloc, new_desk(alloc)?, first, &mut text)?;
    let desk = after(alloc, desk, second, &mut text)?;
    after(alloc, desk, third, &mut text)
}
