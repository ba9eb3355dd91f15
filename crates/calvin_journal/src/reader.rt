//! A log that is read line by line.
ghost use Rattle.std.specs.Prelude.{◌≡◌, ◌+◌, ◌-◌, ◌≤◌, ◌<◌, ◌∷◌, ◌++◌, [], true, false, length, drop, IfOk, IfErr, OnOk, OnErr, IfSome, ◌⊎◌};
ghost use Rattle.std.specs.Option.{ForSome};
ghost use Rattle.std.below.core.specs.declared.int.usize.TheConstants.{MAX};
ghost use Rattle.calvin_types.specs.declared.fault.Fault.TheVariants.{OutOfMemory, JournalFailed};
ghost use Rattle.calvin_journal.specs.Lines.{has_break};
ghost use Rattle.calvin_journal.specs.Readings.{IsStill, IsRead, BeginsWith, part_at, Hands};

use calvin_journal_log::Log;
use calvin_types::Fault;
use memchr::memchr;
use std::alloc::{AllocError, Global};

/// The most bytes of one read.
const BLOCK: usize = 65_536;

/// A synced log that is read line by line, with little more in memory than its longest line.
#[derive(Drop)]
pub(crate) struct Reader<L: Log + Drop> {
    pub(crate) log: L,
    /// How many bytes were handed out.
    pub(crate) done: usize,
    /// Bytes that were read. Those from `start` on weren't handed out yet.
    pub(crate) read: Vec<u8>,
    pub(crate) start: usize,
    pub(crate) ghost start_fits: { start ≤ length read.items },
    pub(crate) ghost read_fits: { done + (length read.items - start) ≤ MAX },
    pub(crate) ghost is_read: { ForSome (L.told log) (IsRead done (drop start read.items)) },
}

impl<L: Log + Drop> Reader<L> {
    /// A reader of the bytes of a synced log behind the first so many.
    pub(crate) fn new(alloc: Global, log: L, done: usize) -> Reader<L>
        requires synced { ForSome (L.told log) IsStill }
        requires within { ForSome (L.told log) (λ disk. done ≤ length disk.seen) }
        ensures log { result.log ≡ log }
        ensures done { result.done ≡ done }
    {
        Reader {
            log,
            done,
            read: Vec::new(alloc),
            start: 0,
        }
    }

    /// The bytes that were read and not handed out.
    pub(crate) fn ahead(&self) -> &[u8]
        ensures { result.now ≡ drop self.now.start self.now.read.items }
    {
        &self.read[self.start..]
    }

    /// Puts the next whole line in place of what `line` has, without its line feed, and says whether there was one. At the
    /// end all bytes that weren't handed out are read.
    pub(crate) fn next_line(&mut self, alloc: Global, line: &mut Vec<u8>) -> Result<bool, Fault>
        ensures line { IfOk result (λ more. more ≡ true → IfSome (L.told self.old.log)
            (λ disk. Hands line.new.items (part_at self.old.done disk) (part_at self.new.done disk))) }
        ensures one_line { IfOk result (λ more. more ≡ true → has_break line.new.items ≡ false) }
        ensures end { IfOk result (λ more. more ≡ false → IfSome (L.told self.old.log)
            (λ disk. (drop self.new.start self.new.read.items ≡ drop self.old.done disk.seen))) }
        ensures no_line { IfOk result (λ more. more ≡ false → has_break (drop self.new.start self.new.read.items) ≡ false) }
        ensures stays { IfOk result (λ more. more ≡ false → self.new.done ≡ self.old.done) }
        ensures err { OnErr result (self.new.done ≡ self.old.done) }
        ensures told { L.told self.new.log ≡ L.told self.old.log }
        ensures only { IfErr result (λ f. (f ≡ OutOfMemory) ⊎ (f ≡ JournalFailed)) }
        ensures failed { IfErr result (λ f. f ≡ JournalFailed → L.failures self.new.log ≡ L.failures self.old.log + 1) }
        ensures not_failed { IfErr result (λ f. f ≡ OutOfMemory → L.failures self.new.log ≡ L.failures self.old.log) }
        ensures no_failure { OnOk result (L.failures self.new.log ≡ L.failures self.old.log) }
    {
        if !self.peek_line(alloc, line)? {
            return Ok(false);
        }
        let size = line.len() + 1;
        self.start += size;
        self.done += size;
        Ok(true)
    }

    /// Puts the next whole line in place of what `line` has, as `next_line` does, and doesn't hand it out.
    pub(crate) fn peek_line(&mut self, alloc: Global, line: &mut Vec<u8>) -> Result<bool, Fault>
        ensures found { IfOk result (λ more. more ≡ true → BeginsWith line.new.items (drop self.new.start self.new.read.items)) }
        ensures line { IfOk result (λ more. more ≡ true → IfSome (L.told self.old.log)
            (λ disk. BeginsWith line.new.items (drop self.old.done disk.seen))) }
        ensures one_line { IfOk result (λ more. more ≡ true → has_break line.new.items ≡ false) }
        ensures end { IfOk result (λ more. more ≡ false → IfSome (L.told self.old.log)
            (λ disk. (drop self.new.start self.new.read.items ≡ drop self.old.done disk.seen))) }
        ensures no_line { IfOk result (λ more. more ≡ false → has_break (drop self.new.start self.new.read.items) ≡ false) }
        ensures same { self.new.done ≡ self.old.done }
        ensures told { L.told self.new.log ≡ L.told self.old.log }
        ensures only { IfErr result (λ f. (f ≡ OutOfMemory) ⊎ (f ≡ JournalFailed)) }
        ensures failed { IfErr result (λ f. f ≡ JournalFailed → L.failures self.new.log ≡ L.failures self.old.log + 1) }
        ensures not_failed { IfErr result (λ f. f ≡ OutOfMemory → L.failures self.new.log ≡ L.failures self.old.log) }
        ensures no_failure { OnOk result (L.failures self.new.log ≡ L.failures self.old.log) }
    {
        while !self.copy_line(line)? {
            if !self.fill(alloc)? {
                return Ok(false);
            }
        }
        Ok(true)
    }

    /// The same of the bytes that were read already.
    fn copy_line(&self, line: &mut Vec<u8>) -> Result<bool, AllocError>
        ensures line { IfOk result (λ more. more ≡ true → BeginsWith line.new.items (drop self.now.start self.now.read.items)) }
        ensures one_line { IfOk result (λ more. more ≡ true → has_break line.new.items ≡ false) }
        ensures no_line { IfOk result (λ more. more ≡ false → has_break (drop self.now.start self.now.read.items) ≡ false) }
    {
        let ahead = self.ahead();
        let Some(at) = memchr(b'\n', ahead) else {
            return Ok(false);
        };
        line.clear();
        line.extend_from_slice(&ahead[..at])?;
        Ok(true)
    }

    /// Reads on, and says whether there was more.
    fn fill(&mut self, alloc: Global) -> Result<bool, Fault>
        ensures same { self.new.done ≡ self.old.done }
        ensures told { L.told self.new.log ≡ L.told self.old.log }
        ensures more { IfOk result (λ more. more ≡ true → length (drop self.old.start self.old.read.items)
            < length (drop self.new.start self.new.read.items)) }
        ensures end { IfOk result (λ more. more ≡ false → IfSome (L.told self.old.log)
            (λ disk. drop self.new.start self.new.read.items ≡ drop self.old.done disk.seen)) }
        ensures no_more { IfOk result (λ more. more ≡ false → drop self.new.start self.new.read.items
            ≡ drop self.old.start self.old.read.items) }
        ensures only { IfErr result (λ f. (f ≡ OutOfMemory) ⊎ (f ≡ JournalFailed)) }
        ensures failed { IfErr result (λ f. f ≡ JournalFailed → L.failures self.new.log ≡ L.failures self.old.log + 1) }
        ensures not_failed { IfErr result (λ f. f ≡ OutOfMemory → L.failures self.new.log ≡ L.failures self.old.log) }
        ensures no_failure { OnOk result (L.failures self.new.log ≡ L.failures self.old.log) }
    {
        let ahead = self.ahead().to_vec(alloc)?;
        let mut block = [0u8; BLOCK];
        let n = self.log.read_at(self.done + ahead.len(), &mut block)?;
        self.read = ahead;
        self.start = 0;
        self.read.extend_from_slice(&block[..n])?;
        Ok(0 < n)
    }
}
