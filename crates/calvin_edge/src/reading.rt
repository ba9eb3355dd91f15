//! The whole of a script, in.
ghost use Rattle.std.specs.Prelude.{◌≡◌, ◌≢◌, ◌+◌, ◌≤◌, ◌<◌, ℕ, length, take, drop, vec_len, IfOk, IfErr, OnOk, OnErr, IsErrOf, ◌⊎◌};
ghost use Rattle.std.specs.Io.KnownBytes.{Consumes, IsAtEnd, Keeps};
ghost use Rattle.calvin_edge.specs.Devices.{ConsumesSome};

use crate::source::{ReadFailed, Source};
use calvin_types::Fault;
use std::alloc::{AllocError, Global};

/// The most bytes that a script may have.
pub const MOST_BYTES: usize = 1_048_576;

/// The most bytes of one read.
const BLOCK: usize = 4_096;

/// All the bytes of a source, to its end.
///
/// `ReadFailed` where a read is refused; `ScriptTooLong` as soon as one byte more than `MOST_BYTES` was read, and
/// nothing past that byte is; `OutOfMemory` where the text can't grow, and then no read was refused. At a refusal the
/// bytes that were read are gone. A short text touches no more of the memory that it asks for than it fills.
pub fn read_all<S: Source>(alloc: Global, source: &mut S) -> Result<Vec<u8>, Fault>
    ensures most { IfOk result (λ text. length text.items ≤ MOST_BYTES) }
    ensures whole { IfOk result (λ text. Consumes (S.left source.old) (S.left source.new) text.items) }
    ensures end { OnOk result (IsAtEnd (S.left source.new)) }
    ensures too_long { IsErrOf result Fault.ScriptTooLong
        → ConsumesSome (S.left source.old) (S.left source.new) (MOST_BYTES + 1) }
    ensures no_more { (n : ℕ) × (n ≤ MOST_BYTES + 1)
        × ConsumesSome (S.left source.old) (S.left source.new) n }
    ensures failed { IsErrOf result Fault.ReadFailed → S.failures source.new ≡ S.failures source.old + 1 }
    ensures not_failed { result ≢ Err Fault.ReadFailed → S.failures source.new ≡ S.failures source.old }
    ensures only { IfErr result (λ f. (f ≡ Fault.OutOfMemory) ⊎ (f ≡ Fault.ScriptTooLong) ⊎ (f ≡ Fault.ReadFailed)) }
{
    let mut text = Vec::with_capacity(alloc, MOST_BYTES + 1)?;
    let mut block = [0; BLOCK];
    'text: while text.len() <= MOST_BYTES {
        let room = (MOST_BYTES + 1 - text.len()).min(BLOCK);
        let n = source.read(&mut block[..room])?;
        if n == 0 {
            return Ok(text);
        }
        text.extend_from_slice(&block[..n])?;
    }
    Err(Fault::ScriptTooLong)
}
