//! How a command ends: its status, and the line on standard error.
ghost use Rattle.std.specs.Prelude.{◌≡◌, ◌≢◌, ◌↔◌, codes};
ghost use Rattle.calvin_edge.specs.Complaints.{complaint};
ghost use Rattle.calvin_ending.specs.Telling.{Tells};
ghost use Rattle.calvin_ending.specs.Statuses.{status_of};

use calvin_edge::{Sink, complaint, write_all};
use calvin_types::Fault;
use std::io::ErrorKind;

/// The exit status of a fault.
fn status_of(fault: Fault) -> u8
    ensures { result ≡ status_of fault }
{
    match fault {
        Fault::OutOfMemory => 4,
        Fault::JournalInUse | Fault::ReadFailed | Fault::WriteFailed | Fault::JournalFailed => 5,
        Fault::NotExpected | Fault::Closed | Fault::NoRun | Fault::NotEnded => 3,
        Fault::TooManyKeys
        | Fault::Repeated
        | Fault::BadConfig
        | Fault::TooLong
        | Fault::LocksOutOfOrder
        | Fault::AdmittedOutOfOrder
        | Fault::NoKeys
        | Fault::NotHeld
        | Fault::RoundsSpent
        | Fault::NotCurrent
        | Fault::Known
        | Fault::NoBatch
        | Fault::QueueFull
        | Fault::EmptySets
        | Fault::TooManyAttempts
        | Fault::EpochsSpent
        | Fault::NotComplete
        | Fault::NotClosed
        | Fault::Decided
        | Fault::NotReady
        | Fault::Begun
        | Fault::NotAwaited
        | Fault::ReadsMissing
        | Fault::NotCollected
        | Fault::StaleJob
        | Fault::NotServed
        | Fault::NothingToLock
        | Fault::NotAtEnd
        | Fault::Older
        | Fault::NotMine
        | Fault::PointTooLate
        | Fault::PointOpen
        | Fault::NoRow
        | Fault::NoPoints
        | Fault::NoColdTable
        | Fault::OrderChanged
        | Fault::NoNode
        | Fault::NoPacket
        | Fault::TooManyTries
        | Fault::TooWide
        | Fault::Unsettled
        | Fault::Stale
        | Fault::BadWorkers
        | Fault::BadJson
        | Fault::BadScript
        | Fault::ScriptTooLong
        | Fault::NotAJournal => 2,
    }
}

/// Tells a fault, and answers the status.
pub fn end_with<E: Sink>(fault: Fault, error: &mut E) -> u8
    ensures status { result ≡ status_of fault }
    ensures told { Tells (E.taken error.old) (E.taken error.new) (E.failures error.old) (E.failures error.new) (complaint fault) }
{
    let _ = write_all(error, complaint(fault).as_bytes());
    status_of(fault)
}

/// Tells that the line is bad, and answers the status.
pub fn refuse_line<E: Sink>(error: &mut E) -> u8
    ensures status { result ≡ 2 }
    ensures told { Tells (E.taken error.old) (E.taken error.new) (E.failures error.old) (E.failures error.new) (codes "calvin: bad line\n") }
{
    let _ = write_all(error, "calvin: bad line\n".as_bytes());
    2
}

/// Ends a command whose words can't be had, and answers the status. `OutOfMemory` is want of memory; any other cause, as a
/// word that isn't UTF-8, makes the line a bad one.
pub fn refuse_words<E: Sink>(why: ErrorKind, error: &mut E) -> u8
    ensures memory { (result ≡ 4) ↔ (why ≡ ErrorKind.OutOfMemory) }
    ensures bad { (result ≡ 2) ↔ (why ≢ ErrorKind.OutOfMemory) }
    ensures told_memory { result ≡ 4 → Tells (E.taken error.old) (E.taken error.new) (E.failures error.old) (E.failures error.new) (complaint Fault.OutOfMemory) }
    ensures told_bad_line { result ≡ 2 → Tells (E.taken error.old) (E.taken error.new) (E.failures error.old) (E.failures error.new) (codes "calvin: bad line\n") }
{
    match why {
        ErrorKind::OutOfMemory => end_with(Fault::OutOfMemory, error),
        _ => refuse_line(error),
    }
}
