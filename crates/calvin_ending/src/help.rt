//! Help that was asked for.
ghost use Rattle.std.specs.Prelude.{◌≡◌, ◌≢◌, ◌+◌, ◌⊎◌};
ghost use Rattle.calvin_edge.specs.Complaints.{complaint};
ghost use Rattle.calvin_ending.specs.Telling.{Tells};

use crate::ending::end_with;
use calvin_edge::{Sink, write_all};
use calvin_types::Fault;
use clap::Error;
use std::alloc::Global;

/// Writes clap's help, and answers the status.
pub fn print_help<K: Sink, E: Sink>(
    alloc: Global,
    help: &Error,
    output: &mut K,
    error: &mut E,
) -> u8
    ensures statuses { (result ≡ 0) ⊎ (result ≡ 4) ⊎ (result ≡ 5) }
    ensures silent { result ≡ 0 → error.new ≡ error.old }
    ensures failed { result ≡ 5 → K.failures output.new ≡ K.failures output.old + 1 }
    ensures wrote_well { result ≢ 5 → K.failures output.new ≡ K.failures output.old }
    ensures untouched { result ≡ 4 → output.new ≡ output.old }
    ensures told_memory { result ≡ 4 → Tells (E.taken error.old) (E.taken error.new) (E.failures error.old) (E.failures error.new) (complaint Fault.OutOfMemory) }
    ensures told_writing { result ≡ 5 → Tells (E.taken error.old) (E.taken error.new) (E.failures error.old) (E.failures error.new) (complaint Fault.WriteFailed) }
{
    match help.to_string(alloc) {
        Ok(text) => match write_all(output, text.as_bytes()) {
            Ok(()) => 0,
            Err(_) => end_with(Fault::WriteFailed, error),
        },
        Err(_) => end_with(Fault::OutOfMemory, error),
    }
}
