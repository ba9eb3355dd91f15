//! A log in memory, for tests.
ghost use Rattle.std.specs.Prelude.{◌≡◌, ◌+◌, ◌-◌, ◌≤◌, ◌<◌, ◌++◌, ◌⊎◌, length, take, drop, min, vec_len, vec_capacity, IfOk, OnOk, OnErr, IsOk, IsErr, IfSome, Some};

use crate::log::{Log, LogFailed};
use calvin_edge::Tally;

/// Bytes in memory that stand for a file and for what a crash leaves of it. A new one never fails, but for want of memory:
/// set the fields to say when it does.
#[derive(Debug, Drop)]
pub struct MemoryLog {
    /// All bytes that a crash may leave.
    pub bytes: Vec<u8>,
    /// How many of them stand there. More are left where some were cut off since the last sync.
    pub size: usize,
    /// How many of them every crash leaves.
    pub synced: usize,
    /// The calls that don't fail. All later ones do.
    pub calls: usize,
    /// How many bytes a refused append adds all the same, of those that it is given.
    pub torn: usize,
    /// The calls that were refused.
    pub failures: Tally,
    pub ghost synced_stand: { synced ≤ size },
    pub ghost size_fits: { size ≤ length bytes.items },
}

impl MemoryLog {
    ghost use Rattle.calvin_journal_log.specs.Disks.{MayLeave};
    ghost use Rattle.calvin_journal_log.specs.Memory.{disk_of};

    /// A log that was found with these bytes, of which none is known to outlive a crash, with no failure in sight.
    pub fn new(bytes: Vec<u8>) -> MemoryLog
        ensures bytes { result.bytes.items ≡ bytes.items }
        ensures size { result.size ≡ vec_len bytes }
        ensures none_is_synced { result.synced ≡ 0 }
        ensures calls { result.calls ≡ usize.MAX }
        ensures torn { result.torn ≡ 0 }
        ensures no_failure { result.failures ≡ 0 }
    {
        let size = bytes.len();
        MemoryLog {
            bytes,
            size,
            synced: 0,
            calls: usize::MAX,
            torn: 0,
            failures: Tally::new(),
        }
    }

    /// What a crash leaves that leaves so many bytes more than it has to, as far as there are.
    pub fn left(&self, more: usize) -> &[u8]
        ensures bytes { result.now ≡ take (self.now.synced + more) self.now.bytes.items }
        ensures may_leave { MayLeave (disk_of self.now) result.now }
    {
        let end = self.bytes.len().min(self.synced.saturating_add(more));
        &self.bytes[..end]
    }
}

impl Log for MemoryLog {
    ghost use Rattle.std.specs.Option.{ForSome};
    ghost use Rattle.calvin_journal_log.specs.Disks.{IsSettled, Leads, Appended, AppendedInPart, Synced, SyncedInPart, CutTo, CutInPart};
    ghost use Rattle.calvin_journal_log.specs.Memory.{disk_of};
    ghost use Rattle.calvin_journal_log.specs.Beginnings.{takes_in_order};

    ghost told = { λ m. Some (disk_of m) };

    ghost failures = { λ m. m.failures };

    ghost in_order = { λ m. takes_in_order m.synced m.size m.bytes.items m.synced_stand };

    fn read_at(&mut self, at: usize, buffer: &mut [u8]) -> Result<usize, LogFailed>
        ensures bound { IfOk result (λ n. n ≤ length buffer.new) }
        ensures far { IfOk result (λ n. at + n ≤ usize.MAX) }
        ensures bytes { IfOk result (λ n. take n buffer.new ≡ take n (drop at (take self.old.size self.old.bytes.items))) }
        ensures end { IfOk result (λ n. n ≡ 0 → 0 < length buffer.new → length (take self.old.size self.old.bytes.items) ≤ at) }
        ensures same { Some (disk_of self.new) ≡ Some (disk_of self.old) }
        ensures counts_no_success { OnOk result (self.new.failures ≡ self.old.failures) }
        ensures counts_a_refusal { OnErr result (self.new.failures ≡ self.old.failures + 1) }
        ensures gives { 0 < self.old.calls → IsOk result }
        ensures gives_only_then { self.old.calls ≡ 0 → IsErr result }
        ensures one_call_less { OnOk result (self.new.calls + 1 ≡ self.old.calls) }
        ensures as_many { IfOk result (λ n. n ≡ min (self.old.size - at) (length buffer.old)) }
    {
        if self.calls == 0 {
            self.failures.raise();
            return Err(LogFailed);
        }
        self.calls -= 1;
        if self.size <= at {
            return Ok(0);
        }
        let ahead = &self.bytes[at..self.size];
        let n = ahead.len().min(buffer.len());
        buffer[..n].copy_from_slice(&ahead[..n]);
        Ok(n)
    }

    fn append(&mut self, bytes: &[u8]) -> Result<(), LogFailed>
        requires settled { ForSome (Some (disk_of self.old)) IsSettled }
        ensures whole { OnOk result (Leads (Appended bytes.now) (Some (disk_of self.old)) (Some (disk_of self.new))) }
        ensures part { OnErr result (Leads (AppendedInPart bytes.now) (Some (disk_of self.old)) (Some (disk_of self.new))) }
        ensures counts_no_success { OnOk result (self.new.failures ≡ self.old.failures) }
        ensures counts_a_refusal { OnErr result (self.new.failures ≡ self.old.failures + 1) }
        ensures stops { self.old.calls ≡ 0 → IsErr result }
        ensures one_call_less { OnOk result (self.new.calls + 1 ≡ self.old.calls) }
        ensures full { 0 < self.old.calls → OnErr result (vec_capacity self.old.bytes < vec_len self.old.bytes + length bytes.now) }
        ensures torn { self.old.calls ≡ 0 → vec_len self.old.bytes + min self.old.torn (length bytes.now) ≤ vec_capacity self.old.bytes
            → self.new.bytes.items ≡ self.old.bytes.items ++ take (min self.old.torn (length bytes.now)) bytes.now }
    {
        if self.calls == 0 {
            let torn = self.torn.min(bytes.len());
            return self.fail_to_append(&bytes[..torn]);
        }
        if self.bytes.extend_from_slice(bytes).is_err() {
            self.failures.raise();
            return Err(LogFailed);
        }
        self.calls -= 1;
        self.size = self.bytes.len();
        Ok(())
    }

    fn sync(&mut self) -> Result<(), LogFailed>
        ensures whole { OnOk result (Leads Synced (Some (disk_of self.old)) (Some (disk_of self.new))) }
        ensures part { OnErr result (Leads SyncedInPart (Some (disk_of self.old)) (Some (disk_of self.new))) }
        ensures counts_no_success { OnOk result (self.new.failures ≡ self.old.failures) }
        ensures counts_a_refusal { OnErr result (self.new.failures ≡ self.old.failures + 1) }
        ensures gives { 0 < self.old.calls → IsOk result }
        ensures gives_only_then { self.old.calls ≡ 0 → IsErr result }
        ensures one_call_less { OnOk result (self.new.calls + 1 ≡ self.old.calls) }
    {
        if self.calls == 0 {
            self.failures.raise();
            return Err(LogFailed);
        }
        self.calls -= 1;
        self.bytes.truncate(self.size);
        self.synced = self.size;
        Ok(())
    }

    fn cut(&mut self, size: usize) -> Result<(), LogFailed>
        requires within { ForSome (Some (disk_of self.old)) (λ disk. size ≤ length disk.seen) }
        ensures whole { OnOk result (Leads (CutTo size) (Some (disk_of self.old)) (Some (disk_of self.new))) }
        ensures part { OnErr result (Leads (CutInPart size) (Some (disk_of self.old)) (Some (disk_of self.new))) }
        ensures counts_no_success { OnOk result (self.new.failures ≡ self.old.failures) }
        ensures counts_a_refusal { OnErr result (self.new.failures ≡ self.old.failures + 1) }
        ensures gives { 0 < self.old.calls → IsOk result }
        ensures gives_only_then { self.old.calls ≡ 0 → IsErr result }
        ensures one_call_less { OnOk result (self.new.calls + 1 ≡ self.old.calls) }
    {
        if self.calls == 0 {
            self.failures.raise();
            return Err(LogFailed);
        }
        self.calls -= 1;
        self.synced = self.synced.min(size);
        self.size = size;
        Ok(())
    }
}

impl MemoryLog {
    /// Adds bytes, as far as there is memory for them, and refuses.
    fn fail_to_append(&mut self, torn: &[u8]) -> Result<(), LogFailed>
        requires settled { self.old.size ≡ vec_len self.old.bytes }
        ensures refused { IsErr result }
        ensures counted { self.new.failures ≡ self.old.failures + 1 }
        ensures same_synced { self.new.synced ≡ self.old.synced }
        ensures size { self.new.size ≡ vec_len self.new.bytes }
        ensures no_more { (self.new.bytes.items ≡ self.old.bytes.items ++ torn.now) ⊎ (self.new.bytes.items ≡ self.old.bytes.items) }
        ensures torn { vec_len self.old.bytes + length torn.now ≤ vec_capacity self.old.bytes
            → self.new.bytes.items ≡ self.old.bytes.items ++ torn.now }
    {
        self.failures.raise();
        if self.bytes.extend_from_slice(torn).is_ok() {
            self.size = self.bytes.len();
        }
        Err(LogFailed)
    }
}
