//! Bytes that come in.
ghost use Rattle.std.specs.Prelude.{◌≡◌, ◌+◌, ◌≤◌, ℕ, List, Option, length, IfOk, OnOk, OnErr};
ghost use Rattle.std.specs.Io.KnownBytes.{ReadConsumes};

use calvin_types::Fault;

/// A read was refused. No byte was taken from the source.
#[derive(Clone, Copy, Debug, PartialEq, Eq)]
pub struct ReadFailed;

/// Where bytes come from. The source lends nothing and keeps no hold on the buffer.
pub trait Source {
    /// The bytes still to come, where the source tells them.
    ghost left: { Self → Option (List ℕ) };

    /// How many reads were refused.
    ghost failures: { Self → ℕ };

    /// Moves the next bytes to the front of the buffer, and answers how many they are. It may give fewer than there is
    /// room for, and gives none only at the end of the bytes or where the buffer has no room. What stands behind them
    /// in the buffer is of no account.
    fn read(&mut self, buffer: &mut [u8]) -> Result<usize, ReadFailed>
        ensures bound { IfOk result (λ n. n ≤ length buffer.new) }
        ensures bytes { ReadConsumes (left self.old) (left self.new) result buffer.new }
        ensures counts_no_success { OnOk result (failures self.new ≡ failures self.old) }
        ensures counts_a_refusal { OnErr result (failures self.new ≡ failures self.old + 1) };
}

impl From<ReadFailed> for Fault {
    ghost use Rattle.calvin_types.specs.declared.fault.Fault.TheVariants.{ReadFailed};

    ghost from_gives = { λ _ e. e ≡ ReadFailed };

    fn from(_failed: ReadFailed) -> Fault {
        Fault::ReadFailed
    }
}
