//! Journals that are written as a whole.
ghost use Rattle.std.specs.Prelude.{◌≡◌, []};
ghost use Rattle.calvin_journal_log.specs.Memory.{disk_of};
ghost use Rattle.calvin_journal.specs.Journals.{synced};

use crate::checks::{holds, same};
use crate::journals::{HEADING, WHOLE_HEADING, found, has_break, open, or_fault};
use calvin_journal::{Beginning, Journal, Refused};
use calvin_journal_log::MemoryLog;
use calvin_types::Fault;
use std::alloc::Global;
use std::test::Fail;

/// How many of the long lines there are, and how long each is. The third one fills the first piece that is written.
const LINES: usize = 5;

const SIZE: usize = 30_000;

/// A log with no bytes, whose calls fail behind so many.
fn empty_log(alloc: Global, calls: usize, torn: usize) -> MemoryLog
    ensures { disk_of result ≡ synced [] }
{
    let mut log = MemoryLog::new(Vec::new(alloc));
    log.calls = calls;
    log.torn = torn;
    log
}

/// Writes the journal of a heading and of a line so many times.
fn write(
    alloc: Global,
    log: MemoryLog,
    line: &[u8],
    times: usize,
) -> Result<Journal<MemoryLog>, Refused<MemoryLog>>
    requires { disk_of log ≡ synced [] }
{
    let mut beginning = Beginning::new(alloc, log).add(HEADING)?;
    if !has_break(line) {
        for _ in 0..times {
            beginning = beginning.add(line)?;
        }
    }
    beginning.finish()
}

#[test]
fn a_journal_of_a_few_lines_is_one_piece(rt: HostRuntime) -> Result<(), Fail> {
    let alloc = rt.alloc();
    let log = empty_log(alloc, 2, 0);
    let beginning = or_fault(Beginning::new(alloc, log).add(HEADING))?;
    let beginning = or_fault(beginning.add(b"one"))?;
    let beginning = or_fault(beginning.add(b""))?;
    let beginning = or_fault(beginning.add(b"three"))?;
    let journal = or_fault(beginning.finish())?;
    let log = journal.into_log();
    let wanted = b"{\"calvin\":1,\"app\":\"kv\"}\none\n\nthree\n".as_slice();
    same(&rt, log.bytes.as_slice(), wanted);
    same(&rt, log.left(0), wanted);
    same(&rt, (log.calls, log.size), (0, wanted.len()));
    holds(&rt, !log.failures.is_raised());
    Ok(())
}

#[test]
fn a_journal_of_no_line_is_empty(rt: HostRuntime) -> Result<(), Fail> {
    let alloc = rt.alloc();
    let journal = or_fault(Beginning::new(alloc, empty_log(alloc, 2, 0)).finish())?;
    let log = journal.into_log();
    same(&rt, (log.bytes.len(), log.synced, log.calls), (0, 0, 0));
    Ok(())
}

/// Two appends, of three long lines and of two, and one sync: refused at each of them, torn or not, nothing comes of it.
#[test]
fn a_long_journal_is_written_piece_by_piece(rt: HostRuntime) -> Result<(), Fail> {
    let alloc = rt.alloc();
    let line = vec![in alloc; b'x'; SIZE]?;
    let first = WHOLE_HEADING.len() + 3 * (SIZE + 1);
    let whole = WHOLE_HEADING.len() + LINES * (SIZE + 1);
    let sizes = [(7, 0), (first + 7, 0), (whole, 0), (whole, whole)];
    for (calls, (size, synced)) in sizes.into_iter().enumerate() {
        let log = empty_log(alloc, calls, 7);
        let (is_whole, log) = match write(alloc, log, &line, LINES) {
            Ok(journal) => (true, journal.into_log()),
            Err(refused) => {
                same(&rt, (calls, refused.fault), (calls, Fault::JournalFailed));
                (false, refused.log)
            }
        };
        same(&rt, (calls, is_whole), (calls, calls == 3));
        same(
            &rt,
            (calls, log.bytes.len(), log.synced),
            (calls, size, synced),
        );
        same(&rt, log.failures.is_raised(), !is_whole);
    }
    Ok(())
}

#[test]
fn a_long_journal_comes_back(rt: HostRuntime) -> Result<(), Fail> {
    let alloc = rt.alloc();
    let line = vec![in alloc; b'x'; SIZE]?;
    let log = empty_log(alloc, usize::MAX, 0);
    let log = or_fault(write(alloc, log, &line, LINES))?.into_log();
    let opened = or_fault(open(alloc, found(alloc, log.left(0))?))?;
    same(&rt, opened.text.len(), LINES * (SIZE + 1));
    let second = opened.text.get(SIZE..SIZE + 3);
    same(&rt, second, Some(b"\nxx".as_slice()));
    same(&rt, opened.text.last(), Some(&b'\n'));
    Ok(())
}
