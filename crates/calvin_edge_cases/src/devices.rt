//! Scripts in and texts out, over devices that give and take as many bytes as they are told, and fail where they are
//! told.
use crate::checks::{holds, same};
use calvin_edge::{
    FailingSink, FailingSource, InputSource, MOST_BYTES, MemorySink, MemorySource, OutputSink,
    ReadFailed, Tally, WriteFailed, WriteFailure, complaint, read_all, write_all,
};
use calvin_types::Fault;
use std::io;
use std::io::{ErrorKind, Read, Write};
use std::mem::size_of;
use std::process::Abort;
use std::test::Fail;

const TEXT: &[u8] = b"0.0 8:1 none\n0.1 7:1 done\nfinished 0\n";

const NEVER: usize = usize::MAX;

fn crosses_threads<T: Send + Sync>(_one: &T) {}

#[test]
fn a_tally_takes_one_byte(rt: HostRuntime) {
    let mut tally = Tally::new();
    holds(&rt, !tally.is_raised());
    tally.raise();
    tally.raise();
    holds(&rt, tally.is_raised());
    same(&rt, size_of::<Tally>(), 1);
    crosses_threads(&tally);
}

#[test]
fn a_source_is_read_to_its_end(rt: HostRuntime) -> Result<(), Fail> {
    let mut source = MemorySource::new(TEXT);
    same(&rt, read_all(rt.alloc(), &mut source)?.as_slice(), TEXT);
    same(&rt, read_all(rt.alloc(), &mut source)?.len(), 0);
    for most in [1, 7, NEVER] {
        let mut source = FailingSource {
            most,
            ..FailingSource::new(TEXT)
        };
        let text = read_all(rt.alloc(), &mut source)?;
        same(&rt, (most, text.as_slice()), (most, TEXT));
        holds(&rt, !source.failures.is_raised());
    }
    Ok(())
}

#[test]
fn a_refused_read_is_told(rt: HostRuntime) {
    let long = TEXT.len();
    let rows = [
        (0, NEVER, 1, 0),
        (1, NEVER, 1, 1),
        (5, NEVER, 2, 10),
        (long, NEVER, 1, long),
        (NEVER, 0, NEVER, 0),
        (NEVER, 1, NEVER, 1),
        (NEVER, 10, 3, 10),
        (NEVER, long, NEVER, long),
        (NEVER, NEVER, 0, 0),
    ];
    for (calls, bytes, most, given) in rows {
        let mut source = FailingSource {
            calls,
            bytes,
            most,
            ..FailingSource::new(TEXT)
        };
        let found = read_all(rt.alloc(), &mut source);
        same(&rt, found.err(), Some(Fault::ReadFailed));
        same(
            &rt,
            (calls, bytes, source.left),
            (calls, bytes, &TEXT[given..]),
        );
        holds(&rt, source.failures.is_raised());
    }
}

#[test]
fn nothing_is_read_past_one_byte_too_many(rt: HostRuntime) -> Result<(), Fail> {
    let rows = [
        (MOST_BYTES, None),
        (MOST_BYTES + 1, Some(Fault::ScriptTooLong)),
        (MOST_BYTES + 9, Some(Fault::ScriptTooLong)),
    ];
    for (long, fault) in rows {
        let bytes = vec![in rt.alloc(); b' '; long]?;
        for most in [1000, 65_536, NEVER] {
            let mut source = FailingSource {
                most,
                ..FailingSource::new(&bytes)
            };
            let text = read_all(rt.alloc(), &mut source);
            same(&rt, source.left.len(), long.saturating_sub(MOST_BYTES + 1));
            holds(&rt, !source.failures.is_raised());
            match text {
                Ok(text) => same(&rt, text.as_slice(), bytes.as_slice()),
                Err(refused) => same(&rt, (long, Some(refused)), (long, fault)),
            }
        }
        same(
            &rt,
            read_all(rt.alloc(), &mut MemorySource::new(&bytes)).err(),
            fault,
        );
    }
    Ok(())
}

#[test]
fn a_text_is_written_whole(rt: HostRuntime) -> Result<(), Fail> {
    let mut sink = MemorySink::new(rt.alloc());
    for text in [TEXT, b"", b"more"] {
        same(&rt, write_all(&mut sink, text), Ok(()));
    }
    same(&rt, sink.taken.len(), TEXT.len() + 4);
    holds(&rt, !sink.failures.is_raised());
    for most in [1, 7, NEVER] {
        let mut sink = FailingSink {
            most,
            ..FailingSink::new(rt.alloc())
        };
        same(&rt, write_all(&mut sink, TEXT), Ok(()));
        same(&rt, (most, sink.taken.as_slice()), (most, TEXT));
        holds(&rt, !sink.failures.is_raised());
    }
    Ok(())
}

#[test]
fn a_failed_write_is_told(rt: HostRuntime) {
    let long = TEXT.len();
    let rows = [
        (0, NEVER, 1, 0),
        (1, NEVER, 1, 1),
        (5, NEVER, 2, 10),
        (long - 1, NEVER, 1, long - 1),
        (NEVER, 0, NEVER, 0),
        (NEVER, 1, NEVER, 1),
        (NEVER, 10, 3, 10),
        (NEVER, long - 1, NEVER, long - 1),
        (NEVER, NEVER, 0, 0),
    ];
    for failure in [WriteFailure::Refused, WriteFailure::TakesNone] {
        for (calls, bytes, most, out) in rows {
            let mut sink = FailingSink {
                calls,
                bytes,
                most,
                failure,
                ..FailingSink::new(rt.alloc())
            };
            same(&rt, write_all(&mut sink, TEXT), Err(WriteFailed));
            same(
                &rt,
                (failure, calls, bytes, sink.taken.as_slice()),
                (failure, calls, bytes, &TEXT[..out]),
            );
            holds(&rt, sink.failures.is_raised());
        }
    }
}

/// Gives or takes a byte at each second call, and says at the others that a signal came between, until it has moved
/// `until` bytes: from then on it fails.
#[derive(Drop)]
struct Signalled {
    bytes: Vec<u8>,
    moved: usize,
    until: usize,
    is_quiet: bool,
}

impl Signalled {
    fn new(bytes: Vec<u8>, until: usize) -> Signalled {
        Signalled {
            bytes,
            moved: 0,
            until,
            is_quiet: false,
        }
    }

    fn turn(&mut self) -> io::Result<()> {
        self.is_quiet = !self.is_quiet;
        if !self.is_quiet {
            return Ok(());
        }
        Err(io::Error::from(if self.moved < self.until {
            ErrorKind::Interrupted
        } else {
            ErrorKind::Other
        }))
    }
}

impl Read for Signalled {
    fn read(&mut self, buf: &mut [u8]) -> io::Result<usize> {
        self.turn()?;
        if buf.is_empty() || self.moved >= self.bytes.len() {
            return Ok(0);
        }
        buf[0] = self.bytes[self.moved];
        self.moved += 1;
        Ok(1)
    }
}

impl Write for Signalled {
    fn write(&mut self, buf: &[u8]) -> io::Result<usize> {
        self.turn()?;
        if buf.is_empty() || self.moved >= 30 {
            return Ok(0);
        }
        self.bytes.push(buf[0])?;
        self.moved += 1;
        Ok(1)
    }

    fn flush(&mut self) -> io::Result<()> {
        Ok(())
    }
}

#[test]
fn an_interrupted_read_is_tried_again(rt: HostRuntime) -> Result<(), Fail> {
    for (until, is_whole) in [(NEVER, true), (20, false), (0, false)] {
        let bytes = Vec::from_slice(rt.alloc(), TEXT)?;
        let mut source = InputSource::new(Signalled::new(bytes, until));
        match read_all(rt.alloc(), &mut source) {
            Ok(text) => same(&rt, text.as_slice(), TEXT),
            Err(fault) => same(&rt, fault, Fault::ReadFailed),
        }
        same(&rt, source.failures.is_raised(), !is_whole);
        same(&rt, source.reader.moved, TEXT.len().min(until));
    }
    Ok(())
}

#[test]
fn an_interrupted_write_is_tried_again(rt: HostRuntime) -> Result<(), Fail> {
    let rows = [
        (20, NEVER, 20),
        (30, NEVER, 30),
        (31, NEVER, 30),
        (20, 7, 7),
        (1, 0, 0),
    ];
    for (long, until, out) in rows {
        let mut sink = OutputSink::new(Signalled::new(Vec::new(rt.alloc()), until));
        let written = write_all(&mut sink, &TEXT[..long]);
        same(
            &rt,
            (long, until, written.is_ok()),
            (long, until, out == long),
        );
        same(&rt, sink.writer.bytes.as_slice(), &TEXT[..out]);
        same(&rt, sink.failures.is_raised(), out < long);
    }
    Ok(())
}

#[test]
fn a_complaint_has_the_number_and_the_name(rt: HostRuntime) {
    for (fault, line) in [
        (Fault::OutOfMemory, "calvin: 1 OutOfMemory\n"),
        (Fault::TooManyAttempts, "calvin: 32 TooManyAttempts\n"),
        (Fault::ScriptTooLong, "calvin: 92 ScriptTooLong\n"),
        (Fault::NotExpected, "calvin: 100 NotExpected\n"),
        (Fault::from(ReadFailed), "calvin: 95 ReadFailed\n"),
        (Fault::from(WriteFailed), "calvin: 96 WriteFailed\n"),
    ] {
        same(&rt, complaint(fault).as_str(), line);
    }
}
