//! Devices over std's readers and writers, whose bytes are told where theirs are.
ghost use Rattle.std.specs.Prelude.{◌≡◌, ◌≢◌, IfErr};
ghost use Rattle.std.specs.Io.{ReadsAtMost, WritesAtMost};
ghost use Rattle.std.specs.Io.KnownBytes.{ReadConsumes, WriteAppends};
ghost use Rattle.std.specs.IoError.{error_kind};

use crate::sink::{Sink, WriteFailed};
use crate::source::{ReadFailed, Source};
use crate::tally::Tally;
use std::io;
use std::io::{ErrorKind, Read, Write};

/// The most times that one call is tried while signals interrupt it, as often as std tries.
const MOST_TRIES: u64 = u64::MAX;

/// A reader of std's, as standard input or a file, read with no buffer between. A read that a signal interrupts is
/// tried again, and after `u64::MAX` tries it is refused. A reader that has failed may be read again.
#[derive(Drop)]
pub struct InputSource<R: Read + Drop> {
    /// The reader.
    pub reader: R,
    /// The reads that were refused.
    pub failures: Tally,
}

impl<R: Read + Drop> InputSource<R> {
    /// A source of what the reader gives from here on.
    pub fn new(reader: R) -> InputSource<R>
        ensures reader { result.reader ≡ reader }
        ensures no_failure { result.failures ≡ 0 }
    {
        InputSource {
            reader,
            failures: Tally::new(),
        }
    }
}

impl<R: Read + Drop> Source for InputSource<R> {
    ghost left = { λ s. R.remaining s.reader };

    ghost failures = { λ s. s.failures };

    fn read(&mut self, buffer: &mut [u8]) -> Result<usize, ReadFailed> {
        match read_uninterrupted(&mut self.reader, buffer) {
            Ok(n) => Ok(n),
            Err(_) => {
                self.failures.raise();
                Err(ReadFailed)
            }
        }
    }
}

/// One read, tried again while a signal interrupts it.
fn read_uninterrupted<R: Read>(reader: &mut R, buffer: &mut [u8]) -> io::Result<usize>
    ensures bound { ReadsAtMost result buffer.new }
    ensures bytes { ReadConsumes (R.remaining reader.old) (R.remaining reader.new) result buffer.new }
    ensures tried_again { IfErr result (λ e. error_kind e ≢ ErrorKind.Interrupted) }
{
    for _ in 0..MOST_TRIES {
        match reader.read(buffer) {
            Ok(n) => return Ok(n),
            Err(e) => {
                if e.kind() != ErrorKind::Interrupted {
                    return Err(e);
                }
            }
        }
    }
    Err(io::Error::from(ErrorKind::TimedOut))
}

/// A writer of std's. Its bytes go where its own `write` puts them, at once: over standard output, standard error or a
/// file they are out as the call returns, since those keep none back. A writer that keeps bytes back, as `BufWriter`,
/// has to be flushed by its owner. A write that a signal interrupts is tried again, and after `u64::MAX` tries it is
/// refused. A write that takes none is refused.
#[derive(Drop)]
pub struct OutputSink<W: Write + Drop> {
    /// The writer.
    pub writer: W,
    /// The writes that were refused.
    pub failures: Tally,
}

impl<W: Write + Drop> OutputSink<W> {
    /// A sink whose bytes go to the writer, behind those that it has.
    pub fn new(writer: W) -> OutputSink<W>
        ensures writer { result.writer ≡ writer }
        ensures no_failure { result.failures ≡ 0 }
    {
        OutputSink {
            writer,
            failures: Tally::new(),
        }
    }
}

impl<W: Write + Drop> Sink for OutputSink<W> {
    ghost taken = { λ s. W.contents s.writer };

    ghost failures = { λ s. s.failures };

    fn write(&mut self, bytes: &[u8]) -> Result<usize, WriteFailed> {
        match write_uninterrupted(&mut self.writer, bytes) {
            Ok(0) | Err(_) => {
                self.failures.raise();
                Err(WriteFailed)
            }
            Ok(n) => Ok(n),
        }
    }
}

/// One write, tried again while a signal interrupts it.
fn write_uninterrupted<W: Write>(writer: &mut W, bytes: &[u8]) -> io::Result<usize>
    ensures bound { WritesAtMost result bytes.now }
    ensures bytes { WriteAppends (W.contents writer.old) (W.contents writer.new) result bytes.now }
    ensures tried_again { IfErr result (λ e. error_kind e ≢ ErrorKind.Interrupted) }
{
    for _ in 0..MOST_TRIES {
        match writer.write(bytes) {
            Ok(n) => return Ok(n),
            Err(e) => {
                if e.kind() != ErrorKind::Interrupted {
                    return Err(e);
                }
            }
        }
    }
    Err(io::Error::from(ErrorKind::TimedOut))
}
