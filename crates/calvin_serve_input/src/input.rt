//! An input that is cut into lines.
ghost use Rattle.std.specs.Prelude.{◌≡◌, ◌<◌, ◌≤◌, ◌∷◌, ◌++◌, ℕ, List, [], true, false, length, take, IfOk, IfErr, OnOk, OnErr, ◌⊎◌, ◌+◌, ◌≢◌};
ghost use Rattle.std.specs.Io.KnownBytes.{Consumes, IsAtEnd, Keeps};
ghost use Rattle.calvin_journal.specs.Lines.{has_break};
ghost use Rattle.calvin_serve_input.specs.Inputs.{coming};

use calvin_edge::{ReadFailed, Source};
use memchr::memchr;
use std::alloc::{AllocError, Global};
use std::marker::Model;
use std::mem;

/// The most bytes of one read: as many as a pipe holds.
const BLOCK: usize = 65_536;

/// The lines of an input as they come. A line is kept to so many bytes, and what it has behind them is passed over: so no line,
/// however long, takes more memory. To contracts it is how many these are, the beginning of the next line, and what was read
/// behind it.
#[derive(Drop)]
pub struct Input {
    most: usize,
    /// The beginning of the next line, as far as it is kept.
    begin: Vec<u8>,
    /// Bytes that were read. Those from `start` to `end` weren't handed out yet.
    block: Vec<u8>,
    start: usize,
    end: usize,
}

impl Model for Input {
    ghost use Rattle.std.specs.Prelude.{◌≡◌, ◌≤◌, ◌<◌, false, length, take, drop};
    ghost use Rattle.calvin_journal.specs.Lines.{has_break};
    ghost use Rattle.calvin_serve_input.specs.Inputs.{Held};

    ghost Value = { Held };

    ghost view = { λ i. record { most = i.most; begin = i.begin.items; ahead = drop i.start (take i.end i.block.items) } };

    ghost invariant = { λ i. (0 < i.most) × (length i.begin.items ≤ i.most) × (has_break i.begin.items ≡ false)
        × (i.start ≤ i.end) × (i.end ≤ length i.block.items) × (0 < length i.block.items) };
}

impl Input {
    /// An input of which nothing was read, whose lines are kept to so many bytes, at least one.
    pub fn new(alloc: Global, most: usize) -> Result<Input, AllocError>
        requires { 0 < most }
        ensures { IfOk result (λ i. i ≡ record { most = most; begin = []; ahead = [] }) }
    {
        Ok(Input {
            most,
            begin: Vec::new(alloc),
            block: block_of(alloc)?,
            start: 0,
            end: 0,
        })
    }

    /// Puts the next line in place of what `line` has, as far as it is kept, if its line feed was read, and says whether it was.
    /// Refused only for want of memory; then nothing changed but `line`.
    pub fn next_line(&mut self, line: &mut Vec<u8>) -> Result<bool, AllocError>
        ensures line { IfOk result (λ more. more ≡ true → (left : List ℕ) → coming self.old left ≡ line.new.items ∷ coming self.new left) }
        ensures none { IfOk result (λ more. more ≡ false → (self.new.ahead ≡ []) × ((left : List ℕ) → coming self.old left ≡ coming self.new left)) }
        ensures shorter { IfOk result (λ more. more ≡ true → length self.new.ahead < length self.old.ahead) }
        ensures most { self.new.most ≡ self.old.most }
        ensures err { OnErr result (self.new ≡ self.old) }
    {
        let ahead = &self.block[self.start..self.end];
        match memchr(b'\n', ahead) {
            Some(at) => {
                extend(&mut self.begin, self.most, &ahead[..at])?;
                mem::swap(line, &mut self.begin);
                self.begin.clear();
                self.start += at + 1;
                Ok(true)
            }
            None => {
                extend(&mut self.begin, self.most, ahead)?;
                self.start = self.end;
                Ok(false)
            }
        }
    }

    /// Reads on, where all that was read is in lines that were handed out, or in the beginning of the next one. Says whether
    /// there was more.
    pub fn read<S: Source>(&mut self, source: &mut S) -> Result<bool, ReadFailed>
        requires none { self.old.ahead ≡ [] }
        ensures ok { OnOk result ((self.new.most ≡ self.old.most) × (self.new.begin ≡ self.old.begin) × Consumes (S.left source.old) (S.left source.new) self.new.ahead) }
        ensures more { IfOk result (λ more. more ≡ true → 0 < length self.new.ahead) }
        ensures end { IfOk result (λ more. more ≡ false → (self.new.ahead ≡ []) × IsAtEnd (S.left source.new)) }
        ensures err { OnErr result ((self.new ≡ self.old) × Keeps (S.left source.old) (S.left source.new)) }
        ensures failed { OnErr result (S.failures source.new ≡ S.failures source.old + 1) }
        ensures not_failed { OnOk result (S.failures source.new ≡ S.failures source.old) }
    {
        self.start = 0;
        self.end = 0;
        let n = source.read(&mut self.block)?;
        self.end = n;
        Ok(0 < n)
    }

    /// Puts what stands behind the last line feed in place of what `line` has, where all is read, and says whether it is a line.
    pub fn last_line(&mut self, line: &mut Vec<u8>) -> bool
        requires none { self.old.ahead ≡ [] }
        ensures line { result ≡ true → coming self.old [] ≡ line.new.items ∷ [] }
        ensures none { result ≡ false → coming self.old [] ≡ [] }
        ensures empty { (self.new.begin ≡ []) × (self.new.ahead ≡ []) }
    {
        if self.begin.is_empty() {
            return false;
        }
        mem::swap(line, &mut self.begin);
        self.begin.clear();
        true
    }
}

/// Adds bytes as far as there are at most so many then.
fn extend(line: &mut Vec<u8>, most: usize, bytes: &[u8]) -> Result<(), AllocError>
    requires fits { length line.old.items ≤ most }
    ensures ok { OnOk result (line.new.items ≡ take most (line.old.items ++ bytes.now)) }
    ensures err { OnErr result (line.new.items ≡ line.old.items) }
{
    let room = most - line.len();
    line.extend_from_slice(&bytes[..room.min(bytes.len())])?;
    Ok(())
}

/// A block of zeros.
fn block_of(alloc: Global) -> Result<Vec<u8>, AllocError>
    ensures { IfOk result (λ block. length block.items ≡ BLOCK) }
{
    let mut block = Vec::new(alloc);
    block.resize(BLOCK, 0)?;
    Ok(block)
}
