//! The whole of a text, out.
ghost use Rattle.std.specs.Prelude.{◌≡◌, ◌+◌, ◌<◌, ℕ, length, take, OnOk, OnErr};
ghost use Rattle.std.specs.Io.KnownBytes.{Appends};

use crate::sink::{Sink, WriteFailed};

/// Writes all of the bytes, in as many writes as the sink wants. It stops at the first write that is refused or takes
/// none: then a proper beginning of the bytes is out, and no more was tried.
pub fn write_all<K: Sink>(sink: &mut K, bytes: &[u8]) -> Result<(), WriteFailed>
    ensures whole { OnOk result (Appends (K.taken sink.old) (K.taken sink.new) bytes.now) }
    ensures no_failure { OnOk result (K.failures sink.new ≡ K.failures sink.old) }
    ensures beginning { OnErr result ((n : ℕ) × (n < length bytes.now)
        × Appends (K.taken sink.old) (K.taken sink.new) (take n bytes.now)) }
    ensures one_failure { OnErr result (K.failures sink.new ≡ K.failures sink.old + 1) }
{
    let mut out = 0;
    while out < bytes.len() {
        let n = sink.write(&bytes[out..])?;
        if n == 0 {
            return Err(WriteFailed);
        }
        out += n;
    }
    Ok(())
}
