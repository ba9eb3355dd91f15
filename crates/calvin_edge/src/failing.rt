//! Devices over memory that fail at a stated call or byte, for tests.
ghost use Rattle.std.specs.Prelude.{◌≡◌, ◌+◌, ◌≤◌, ◌<◌, Some, IfOk, OnOk, OnErr, IsOk, IsErr, length, min, vec_len, vec_capacity};
ghost use Rattle.std.specs.Io.KnownBytes.{ReadConsumes, WriteAppends};

use crate::sink::{Sink, WriteFailed};
use crate::source::{ReadFailed, Source};
use crate::tally::Tally;
use std::alloc::Global;

/// Bytes in memory of which a number of calls give a number of bytes, after which reads fail. A new one never fails:
/// set the fields to say when it does.
#[derive(Debug, Drop)]
pub struct FailingSource<'a> {
    /// The bytes still to come.
    pub left: &'a [u8],
    /// The calls that don't fail.
    pub calls: usize,
    /// The bytes that come before a failure. At the length of `left` the end itself fails.
    pub bytes: usize,
    /// The most bytes that one call gives. At 0 each call fails.
    pub most: usize,
    /// The reads that were refused.
    pub failures: Tally,
}

impl<'a> FailingSource<'a> {
    /// A source of these bytes, with no failure in sight.
    pub fn new(bytes: &'a [u8]) -> FailingSource<'a>
        ensures left { result.left.now ≡ bytes.now }
        ensures calls { result.calls ≡ usize.MAX }
        ensures bytes { result.bytes ≡ usize.MAX }
        ensures most { result.most ≡ usize.MAX }
        ensures no_failure { result.failures ≡ 0 }
    {
        FailingSource {
            left: bytes,
            calls: usize::MAX,
            bytes: usize::MAX,
            most: usize::MAX,
            failures: Tally::new(),
        }
    }
}

impl Source for FailingSource<'_> {
    ghost left = { λ s. Some s.left.now };

    ghost failures = { λ s. s.failures };

    fn read(&mut self, buffer: &mut [u8]) -> Result<usize, ReadFailed>
        ensures bound { IfOk result (λ n. n ≤ length buffer.new) }
        ensures bytes { ReadConsumes (Some self.old.left.now) (Some self.new.left.now) result buffer.new }
        ensures counts_no_success { OnOk result (self.new.failures ≡ self.old.failures) }
        ensures counts_a_refusal { OnErr result (self.new.failures ≡ self.old.failures + 1) }
        // A refused read leaves the limits as they are, so all later reads are refused too.
        ensures refused { OnErr result (self.new ≡ record self.old { failures = self.old.failures + 1 }) }
        ensures gives { 0 < min self.old.calls (min self.old.bytes self.old.most) → IsOk result }
        ensures gives_only_then { OnOk result (0 < min self.old.calls (min self.old.bytes self.old.most)) }
        ensures one_call_less { OnOk result (self.new.calls + 1 ≡ self.old.calls) }
        ensures bytes_less { IfOk result (λ n. self.new.bytes + n ≡ self.old.bytes) }
        ensures as_many { IfOk result (λ n. n ≡ min (length self.old.left.now)
            (min (length buffer.old) (min self.old.bytes self.old.most))) }
        ensures same_most { self.new.most ≡ self.old.most }
    {
        if self.calls == 0 || self.bytes == 0 || self.most == 0 {
            self.failures.raise();
            return Err(ReadFailed);
        }
        let room = buffer.len().min(self.bytes).min(self.most);
        let n = self.left.len().min(room);
        let (front, rest) = self.left.split_at(n);
        buffer[..n].copy_from_slice(front);
        self.left = rest;
        self.calls -= 1;
        self.bytes -= n;
        Ok(n)
    }
}

/// How a write of a `FailingSink` fails.
#[derive(Clone, Copy, Debug, PartialEq, Eq)]
pub enum WriteFailure {
    /// It is refused.
    Refused,
    /// It takes no byte, and answers 0.
    TakesNone,
}

/// A list that takes a number of bytes in a number of calls, after which writes fail. A new one fails only for want of
/// memory: set the fields to say when else it does.
#[derive(Debug, Drop)]
pub struct FailingSink {
    /// The bytes that were taken.
    pub taken: Vec<u8>,
    /// The calls that don't fail.
    pub calls: usize,
    /// The bytes that are taken before a failure.
    pub bytes: usize,
    /// The most bytes that one call takes. At 0 each call fails.
    pub most: usize,
    /// How a write fails, but for want of memory, which is always a refusal.
    pub failure: WriteFailure,
    /// The writes that failed.
    pub failures: Tally,
}

impl FailingSink {
    /// A sink that has taken nothing, with no failure in sight.
    pub fn new(alloc: Global) -> FailingSink
        ensures empty { vec_len result.taken ≡ 0 }
        ensures calls { result.calls ≡ usize.MAX }
        ensures bytes { result.bytes ≡ usize.MAX }
        ensures most { result.most ≡ usize.MAX }
        ensures failure { result.failure ≡ WriteFailure.Refused }
        ensures no_failure { result.failures ≡ 0 }
    {
        FailingSink {
            taken: Vec::new(alloc),
            calls: usize::MAX,
            bytes: usize::MAX,
            most: usize::MAX,
            failure: WriteFailure::Refused,
            failures: Tally::new(),
        }
    }

    /// Counts a failure, and answers as the sink's failures do.
    fn fail(&mut self) -> Result<usize, WriteFailed>
        ensures counted { self.new ≡ record self.old { failures = self.old.failures + 1 } }
        ensures refused { self.old.failure ≡ WriteFailure.Refused → IsErr result }
        ensures none { self.old.failure ≡ WriteFailure.TakesNone → result ≡ Ok 0 }
    {
        self.failures.raise();
        match self.failure {
            WriteFailure::Refused => Err(WriteFailed),
            WriteFailure::TakesNone => Ok(0),
        }
    }
}

impl Sink for FailingSink {
    ghost taken = { λ s. Some s.taken.items };

    ghost failures = { λ s. s.failures };

    fn write(&mut self, bytes: &[u8]) -> Result<usize, WriteFailed>
        ensures bound { IfOk result (λ n. n ≤ length bytes.now) }
        ensures bytes { WriteAppends (Some self.old.taken.items) (Some self.new.taken.items) result bytes.now }
        ensures counts_no_success { IfOk result (λ n. 0 < n → self.new.failures ≡ self.old.failures) }
        ensures counts_none_taken { IfOk result (λ n. n ≡ 0 → self.new.failures ≡ self.old.failures + 1) }
        ensures counts_a_refusal { OnErr result (self.new.failures ≡ self.old.failures + 1) }
        ensures stops { min self.old.calls (min self.old.bytes self.old.most) ≡ 0
            → self.new.failures ≡ self.old.failures + 1 }
        ensures takes_none { min self.old.calls (min self.old.bytes self.old.most) ≡ 0
            → self.old.failure ≡ WriteFailure.TakesNone → result ≡ Ok 0 }
        ensures refuses { self.old.failure ≡ WriteFailure.Refused → IfOk result (λ n. 0 < n) }
        ensures one_call_less { IfOk result (λ n. 0 < n → self.new.calls + 1 ≡ self.old.calls) }
        ensures bytes_less { IfOk result (λ n. self.new.bytes + n ≡ self.old.bytes) }
        ensures as_many { 0 < min self.old.calls (min self.old.bytes self.old.most)
            → IfOk result (λ n. n ≡ min (length bytes.now) (min self.old.bytes self.old.most)) }
        ensures full { 0 < min (length bytes.now) (min self.old.calls (min self.old.bytes self.old.most))
            → OnErr result (vec_capacity self.old.taken
            < vec_len self.old.taken + min (length bytes.now) (min self.old.bytes self.old.most)) }
        // A failed write leaves the limits as they are, so once they are reached all later writes fail too.
        ensures refused { OnErr result (self.new
            ≡ record self.old { taken = self.new.taken; failures = self.old.failures + 1 }) }
        ensures none_taken { IfOk result (λ n. n ≡ 0
            → self.new ≡ record self.old { failures = self.old.failures + 1 }) }
        ensures same_most { self.new.most ≡ self.old.most }
        ensures same_failure { self.new.failure ≡ self.old.failure }
    {
        let n = bytes.len().min(self.bytes).min(self.most);
        if self.calls == 0 || n == 0 {
            return self.fail();
        }
        if self.taken.extend_from_slice(&bytes[..n]).is_err() {
            self.failures.raise();
            return Err(WriteFailed);
        }
        self.calls -= 1;
        self.bytes -= n;
        Ok(n)
    }
}
