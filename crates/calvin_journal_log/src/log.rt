//! A file that grows at its end.
ghost use Rattle.std.specs.Prelude.{◌≡◌, ◌+◌, ◌≤◌, ◌<◌, ℕ, length, take, drop, Option, IfOk, OnOk, OnErr, IfSome};
ghost use Rattle.std.specs.Option.{ForSome};
ghost use Rattle.calvin_journal_log.specs.Disks.{Disk, IsInOrder, IsSettled, Leads, Appended, AppendedInPart, Synced, SyncedInPart, CutTo, CutInPart};

use calvin_types::Fault;

/// A call of a log was refused. What it was to do may be done in part.
#[derive(Clone, Copy, Debug, PartialEq, Eq)]
pub struct LogFailed;

impl From<LogFailed> for Fault {
    ghost use Rattle.calvin_types.specs.declared.fault.Fault.TheVariants.{JournalFailed};

    ghost from_gives = { λ _ e. e ≡ JournalFailed };

    fn from(_failed: LogFailed) -> Fault {
        Fault::JournalFailed
    }
}

/// Where a journal is kept: bytes that grow at their end.
///
/// What was synced outlives a crash of the process and of the machine; of what was written since, a crash leaves a
/// beginning. A crash during a call leaves no less than what is kept before the call, and no more than may be there after it,
/// as if the call had been refused. After a refusal a log isn't to be written to again: systems forget that a sync failed.
pub trait Log {
    /// What the log tells of its bytes, where it tells them.
    ghost told: { Self → Option Disk };

    /// How many calls were refused.
    ghost failures: { Self → ℕ };

    /// Moves bytes from an offset on to the front of the buffer, and answers how many they are. It may give fewer than there
    /// is room for, and gives none only at the end of the log or where the buffer has no room. What stands behind them in
    /// the buffer is of no account.
    fn read_at(&mut self, at: usize, buffer: &mut [u8]) -> Result<usize, LogFailed>
        ensures bound { IfOk result (λ n. n ≤ length buffer.new) }
        ensures far { IfOk result (λ n. at + n ≤ usize.MAX) }
        ensures bytes { IfOk result (λ n. IfSome (told self.old) (λ disk. take n buffer.new ≡ take n (drop at disk.seen))) }
        ensures end { IfOk result (λ n. n ≡ 0 → 0 < length buffer.new
            → IfSome (told self.old) (λ disk. length disk.seen ≤ at)) }
        ensures same { told self.new ≡ told self.old }
        ensures counts_no_success { OnOk result (failures self.new ≡ failures self.old) }
        ensures counts_a_refusal { OnErr result (failures self.new ≡ failures self.old + 1) };

    /// Adds bytes at the end. Refused, a beginning of them may be there.
    fn append(&mut self, bytes: &[u8]) -> Result<(), LogFailed>
        requires settled { ForSome (told self.old) IsSettled }
        ensures whole { OnOk result (Leads (Appended bytes.now) (told self.old) (told self.new)) }
        ensures part { OnErr result (Leads (AppendedInPart bytes.now) (told self.old) (told self.new)) }
        ensures counts_no_success { OnOk result (failures self.new ≡ failures self.old) }
        ensures counts_a_refusal { OnErr result (failures self.new ≡ failures self.old + 1) };

    /// Has every crash from now on leave what stands there, and nothing that was cut off.
    fn sync(&mut self) -> Result<(), LogFailed>
        ensures whole { OnOk result (Leads Synced (told self.old) (told self.new)) }
        ensures part { OnErr result (Leads SyncedInPart (told self.old) (told self.new)) }
        ensures counts_no_success { OnOk result (failures self.new ≡ failures self.old) }
        ensures counts_a_refusal { OnErr result (failures self.new ≡ failures self.old + 1) };

    /// Cuts off what stands behind the first so many bytes. Until the next sync a crash may leave it all the same.
    fn cut(&mut self, size: usize) -> Result<(), LogFailed>
        requires within { ForSome (told self.old) (λ disk. size ≤ length disk.seen) }
        ensures whole { OnOk result (Leads (CutTo size) (told self.old) (told self.new)) }
        ensures part { OnErr result (Leads (CutInPart size) (told self.old) (told self.new)) }
        ensures counts_no_success { OnOk result (failures self.new ≡ failures self.old) }
        ensures counts_a_refusal { OnErr result (failures self.new ≡ failures self.old + 1) };

    /// What is kept is a beginning of what is seen, and that of what may be left at most.
    ghost in_order: { (log : Self) → IfSome (told log) IsInOrder };
}
