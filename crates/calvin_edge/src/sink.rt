//! Bytes that go out.
ghost use Rattle.std.specs.Prelude.{◌≡◌, ◌+◌, ◌≤◌, ◌<◌, ℕ, List, Option, length, IfOk, OnErr};
ghost use Rattle.std.specs.Io.KnownBytes.{WriteAppends};

use calvin_types::Fault;

/// A write was refused, or took no byte. Of that write no byte is out.
#[derive(Clone, Copy, Debug, PartialEq, Eq)]
pub struct WriteFailed;

/// Where bytes go.
pub trait Sink {
    /// The bytes that are out, where the sink tells them.
    ghost taken: { Self → Option (List ℕ) };

    /// How many writes were refused, or took no byte.
    ghost failures: { Self → ℕ };

    /// Takes bytes from the front of `bytes`, of which there must be at least one, and answers how many it took. It may
    /// take fewer than there are. A write that takes none counts as a failure.
    fn write(&mut self, bytes: &[u8]) -> Result<usize, WriteFailed>
        requires not_empty { 0 < length bytes.now }
        ensures bound { IfOk result (λ n. n ≤ length bytes.now) }
        ensures bytes { WriteAppends (taken self.old) (taken self.new) result bytes.now }
        ensures counts_no_success { IfOk result (λ n. 0 < n → failures self.new ≡ failures self.old) }
        ensures counts_none_taken { IfOk result (λ n. n ≡ 0 → failures self.new ≡ failures self.old + 1) }
        ensures counts_a_refusal { OnErr result (failures self.new ≡ failures self.old + 1) };
}

impl From<WriteFailed> for Fault {
    ghost use Rattle.calvin_types.specs.declared.fault.Fault.TheVariants.{WriteFailed};

    ghost from_gives = { λ _ e. e ≡ WriteFailed };

    fn from(_failed: WriteFailed) -> Fault {
        Fault::WriteFailed
    }
}
