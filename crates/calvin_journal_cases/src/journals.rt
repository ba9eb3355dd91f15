//! Journals in memory: what they begin with, what comes back, and what is no journal.
ghost use Rattle.std.specs.Prelude.{◌≡◌};
ghost use Rattle.calvin_journal.specs.Lines.{has_break};

use crate::checks::{holds, same};
use calvin_journal::{Journal, Opening, Refused};
use calvin_journal_log::{Log, MemoryLog};
use calvin_types::Fault;
use std::alloc::{AllocError, Global};
use std::test::Fail;

/// The heading of the journals here.
pub(crate) const HEADING: &[u8] = b"{\"calvin\":1,\"app\":\"kv\"}";

/// The heading with its line feed.
pub(crate) const WHOLE_HEADING: &[u8] = b"{\"calvin\":1,\"app\":\"kv\"}\n";

/// A journal that was opened, and its lines behind the heading, each with a line feed.
#[derive(Drop)]
pub(crate) struct Opened<L: Log + Drop> {
    pub(crate) journal: Journal<L>,
    pub(crate) text: Vec<u8>,
}

/// Opens a journal, and reads all its lines.
pub(crate) fn open<L: Log + Drop>(alloc: Global, log: L) -> Result<Opened<L>, Refused<L>> {
    let mut opening = Opening::begin(alloc, log, HEADING)?;
    let mut text = Vec::new(alloc);
    let mut line = Vec::new(alloc);
    for _ in 0..u64::MAX {
        match opening.next_line(alloc, &mut line) {
            Ok(true) => {}
            Ok(false) => {
                let journal = opening.finish()?;
                return Ok(Opened { journal, text });
            }
            Err(fault) => {
                let log = opening.into_log();
                return Err(Refused { fault, log });
            }
        }
        if put_line(&mut text, &line).is_err() {
            break;
        }
    }
    let fault = Fault::OutOfMemory;
    let log = opening.into_log();
    Err(Refused { fault, log })
}

fn put_line(text: &mut Vec<u8>, line: &[u8]) -> Result<(), AllocError> {
    text.extend_from_slice(line)?;
    text.push(b'\n')?;
    Ok(())
}

/// What came of a call, or why there is none.
pub(crate) fn or_fault<T, L: Log + Drop>(answer: Result<T, Refused<L>>) -> Result<T, Fault> {
    match answer {
        Ok(value) => Ok(value),
        Err(refused) => Err(refused.fault),
    }
}

/// Whether a line feed is among bytes.
pub(crate) fn has_break(bytes: &[u8]) -> bool
    ensures { result ≡ has_break bytes.now }
{
    bytes.contains(&b'\n')
}

/// A log in memory that was found with these bytes.
pub(crate) fn found(alloc: Global, bytes: &[u8]) -> Result<MemoryLog, AllocError> {
    Ok(MemoryLog::new(bytes.to_vec(alloc)?))
}

#[test]
fn a_new_journal_has_its_heading(rt: HostRuntime) -> Result<(), Fail> {
    for have in 0..WHOLE_HEADING.len() + 1 {
        let log = found(rt.alloc(), &WHOLE_HEADING[..have])?;
        let opened = or_fault(open(rt.alloc(), log))?;
        same(&rt, (have, opened.text.len()), (have, 0));
        let log = opened.journal.into_log();
        same(&rt, (have, log.bytes.as_slice()), (have, WHOLE_HEADING));
        same(
            &rt,
            (log.size, log.synced),
            (WHOLE_HEADING.len(), WHOLE_HEADING.len()),
        );
        holds(&rt, !log.failures.is_raised());
    }
    Ok(())
}

#[test]
fn lines_come_back(rt: HostRuntime) -> Result<(), Fail> {
    let log = found(rt.alloc(), b"")?;
    let mut journal = or_fault(open(rt.alloc(), log))?.journal;
    for line in [b"one".as_slice(), b"", b"[{\"group\":0,\"txns\":[]}]"] {
        journal = or_fault(journal.add(rt.alloc(), line))?;
    }
    let log = journal.into_log();
    same(&rt, log.left(0), log.bytes.as_slice());
    let opened = or_fault(open(rt.alloc(), found(rt.alloc(), log.left(0))?))?;
    same(
        &rt,
        opened.text.as_slice(),
        b"one\n\n[{\"group\":0,\"txns\":[]}]\n",
    );
    Ok(())
}

#[test]
fn a_line_longer_than_a_block_comes_back(rt: HostRuntime) -> Result<(), Fail> {
    let long = vec![in rt.alloc(); b'x'; 200_000]?;
    let log = found(rt.alloc(), b"")?;
    let journal = or_fault(open(rt.alloc(), log))?.journal;
    holds(&rt, !has_break(&long));
    let journal = match has_break(&long) {
        true => journal,
        false => or_fault(journal.add(rt.alloc(), &long))?,
    };
    let journal = or_fault(journal.add(rt.alloc(), b"short"))?;
    let opened = or_fault(open(rt.alloc(), journal.into_log()))?;
    same(&rt, opened.text.len(), 200_007);
    let end = opened.text.get(200_000..);
    same(&rt, end, Some(b"\nshort\n".as_slice()));
    Ok(())
}

/// Cut at each byte, the whole lines are left, and what is torn is gone.
#[test]
fn a_torn_line_is_cut_off(rt: HostRuntime) -> Result<(), Fail> {
    let whole = b"{\"calvin\":1,\"app\":\"kv\"}\none\n\nthree\n";
    for size in WHOLE_HEADING.len()..whole.len() + 1 {
        let opened = or_fault(open(rt.alloc(), found(rt.alloc(), &whole[..size])?))?;
        let lines: &[u8] = match size {
            0..=27 => b"",
            28 => b"one\n",
            29..=34 => b"one\n\n",
            _ => b"one\n\nthree\n",
        };
        same(&rt, (size, opened.text.as_slice()), (size, lines));
        let log = opened.journal.into_log();
        same(
            &rt,
            (size, log.left(0)),
            (size, &whole[..WHOLE_HEADING.len() + lines.len()]),
        );
        same(&rt, (size, log.size), (size, log.synced));
    }
    Ok(())
}

#[test]
fn other_files_are_left_as_they_were(rt: HostRuntime) -> Result<(), Fail> {
    let rows: [&[u8]; 7] = [
        b"x",
        b"\n",
        b"{\"calvin\":1,\"app\":\"kv\"} ",
        b"{\"calvin\":1,\"app\":\"kw\"}\none\n",
        b"{\"calvin\":1,\"app\":\"kv\"}\r\n",
        b"\n{\"calvin\":1,\"app\":\"kv\"}\n",
        b"\x7fELF\x00\x00\n\x01",
    ];
    for (number, row) in rows.into_iter().enumerate() {
        match open(rt.alloc(), found(rt.alloc(), row)?) {
            Ok(_) => same(&rt, number, rows.len()),
            Err(refused) => {
                same(&rt, (number, refused.fault), (number, Fault::NotAJournal));
                same(&rt, (number, refused.log.bytes.as_slice()), (number, row));
            }
        }
    }
    Ok(())
}
