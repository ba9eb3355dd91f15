//! Devices over memory.
ghost use Rattle.std.specs.Prelude.{◌≡◌, ◌+◌, ◌<◌, ◌≤◌, zero, Some, Ok, IfOk, OnOk, OnErr, length, min, vec_len, vec_capacity};
ghost use Rattle.std.specs.Io.KnownBytes.{ReadConsumes, WriteAppends};

use crate::sink::{Sink, WriteFailed};
use crate::source::{ReadFailed, Source};
use crate::tally::Tally;
use std::alloc::Global;

/// Bytes in memory, borrowed from their owner. Reading them never fails, and gives as many as there is room for.
#[derive(Clone, Copy, Debug)]
pub struct MemorySource<'a> {
    /// The bytes still to come.
    pub left: &'a [u8],
}

impl<'a> MemorySource<'a> {
    /// A source of these bytes.
    pub fn new(bytes: &'a [u8]) -> MemorySource<'a>
        ensures { result.left.now ≡ bytes.now }
    {
        MemorySource { left: bytes }
    }
}

impl Source for MemorySource<'_> {
    ghost left = { λ s. Some s.left.now };

    ghost failures = { λ _. 0 };

    fn read(&mut self, buffer: &mut [u8]) -> Result<usize, ReadFailed>
        ensures as_many { result ≡ Ok (min (length self.old.left.now) (length buffer.old)) }
        ensures bound { IfOk result (λ n. n ≤ length buffer.new) }
        ensures bytes { ReadConsumes (Some self.old.left.now) (Some self.new.left.now) result buffer.new }
        // The trait's clauses on failures, of a source that has none.
        ensures counts_no_success { OnOk result (zero ≡ 0) }
        ensures counts_a_refusal { OnErr result (zero ≡ 1) }
    {
        let n = self.left.len().min(buffer.len());
        let (front, rest) = self.left.split_at(n);
        buffer[..n].copy_from_slice(front);
        self.left = rest;
        Ok(n)
    }
}

/// A list that grows by the bytes it is given, all of them at each write. A write is refused only where there is no
/// memory for it.
#[derive(Debug, Drop)]
pub struct MemorySink {
    /// The bytes that were taken.
    pub taken: Vec<u8>,
    /// The writes that were refused.
    pub failures: Tally,
}

impl MemorySink {
    /// A sink that has taken nothing, and allocates nothing before its first write.
    pub fn new(alloc: Global) -> MemorySink
        ensures empty { vec_len result.taken ≡ 0 }
        ensures no_failure { result.failures ≡ 0 }
    {
        MemorySink {
            taken: Vec::new(alloc),
            failures: Tally::new(),
        }
    }
}

impl Sink for MemorySink {
    ghost taken = { λ s. Some s.taken.items };

    ghost failures = { λ s. s.failures };

    fn write(&mut self, bytes: &[u8]) -> Result<usize, WriteFailed>
        ensures all { IfOk result (λ n. n ≡ length bytes.now) }
        ensures bytes { WriteAppends (Some self.old.taken.items) (Some self.new.taken.items) result bytes.now }
        ensures full { OnErr result (vec_capacity self.old.taken < vec_len self.old.taken + length bytes.now) }
        ensures counts_no_success { OnOk result (self.new.failures ≡ self.old.failures) }
        ensures counts_a_refusal { OnErr result (self.new.failures ≡ self.old.failures + 1) }
    {
        match self.taken.extend_from_slice(bytes) {
            Ok(()) => Ok(bytes.len()),
            Err(_) => {
                self.failures.raise();
                Err(WriteFailed)
            }
        }
    }
}
