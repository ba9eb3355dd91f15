//! What a call may refuse with.
ghost use Rattle.std.specs.Prelude.{◌≡◌, ◌≤◌, length};
ghost use Rattle.calvin_types.specs.Faults.{number_of, name_of};

use std::alloc::{AllocError, AllocFailed};
use std::fmt::{self, Display, Formatter, Write};
use thiserror::Error;

/// Why a call was refused. Unless the call says otherwise, a refusal leaves the value that it was asked of as it was.
/// Programs tell refusals apart by their numbers; shown as an error, one has its name alone.
#[derive(Clone, Copy, Debug, PartialEq, Eq, Error)]
pub enum Fault {
    /// There was no memory for what the call had to make or to grow.
    OutOfMemory = 1,
    /// A set of keys, or a request's writes, would have more than sixteen keys.
    TooManyKeys = 2,
    /// A key stands twice in a list that is to be a set.
    Repeated = 3,
    /// A number of partitions or of replicas is out of range: there are 1 to 16 partitions and 1 to 7 replicas.
    BadConfig = 4,
    /// A batch would have more than 256 requests.
    TooLong = 5,
    /// Locks were requested at a place that isn't above the last one requested.
    LocksOutOfOrder = 10,
    /// Locks were requested on no key.
    NoKeys = 11,
    /// The locks of a place aren't held: they weren't requested, were released already, or are still waited for.
    NotHeld = 12,
    /// A new ballot's round would be above 2^32 - 1.
    RoundsSpent = 20,
    /// A promise isn't for the ballot under way, or is counted; or a refusal names no greater round.
    NotCurrent = 21,
    /// The vote is counted, or the slot's batch is known.
    Known = 22,
    /// No batch is held for the slot.
    NoBatch = 23,
    /// 4,096 requests of a sequencer are queued, held back, or closed and undecided.
    QueueFull = 30,
    /// A request declares no key.
    EmptySets = 31,
    /// The number of an attempt is 0 or above 8.
    TooManyAttempts = 32,
    /// The next epoch would be above 2^48 - 1.
    EpochsSpent = 33,
    /// The batch of a group isn't held yet.
    NotComplete = 34,
    /// The epoch wasn't closed at this node since it started.
    NotClosed = 35,
    /// The batch of the slot is held already.
    Decided = 36,
    /// A request is admitted at a place that isn't above the last one, or of an epoch that a loaded snapshot covers.
    AdmittedOutOfOrder = 40,
    /// The place wasn't admitted or isn't ready; of a job, it wasn't begun or is done.
    NotReady = 41,
    /// The place is begun or done.
    Begun = 42,
    /// No rows of this place are awaited from the partition.
    NotAwaited = 43,
    /// Rows of another partition haven't come yet.
    ReadsMissing = 44,
    /// The place wasn't begun, is done, or lacks rows of another partition.
    NotCollected = 45,
    /// The request or the view of a job isn't the one that stands here.
    StaleJob = 46,
    /// No rows were served at the place since the node started.
    NotServed = 47,
    /// No merged request waits for its locks to be requested.
    NothingToLock = 48,
    /// The node doesn't stand at the end of the epoch.
    NotAtEnd = 50,
    /// The record has a snapshot of this or a later epoch.
    Older = 51,
    /// A packet is for another node or a client, or its message is of another group.
    NotMine = 52,
    /// A request of a later epoch is done here, or the epoch is below a loaded snapshot's.
    PointTooLate = 53,
    /// A point is open.
    PointOpen = 54,
    /// No row outside the cold table has the key.
    NoRow = 55,
    /// The keeper of rows has no points.
    NoPoints = 56,
    /// The keeper of rows has no cold table.
    NoColdTable = 57,
    /// A record was made under another order of requests.
    OrderChanged = 58,
    /// There is no such node or group.
    NoNode = 60,
    /// No packet has the number.
    NoPacket = 61,
    /// The eighth attempt at a request was answered `Changed`.
    TooManyTries = 70,
    /// An application needs sixteen keys, or the last table, and leaves no room for kept replies.
    TooWide = 71,
    /// The sets of a request still change after sixteen looks at rows.
    Unsettled = 72,
    /// The node's next epoch isn't above the epoch that the caller was told of.
    Stale = 80,
    /// The cluster is halted.
    Closed = 81,
    /// No list of events gives these histories.
    NoRun = 82,
    /// A number of workers is out of range: there are 1 to 16.
    BadWorkers = 83,
    /// A part of the cluster is still in use.
    NotEnded = 84,
    /// The bytes of a script aren't JSON.
    BadJson = 90,
    /// The JSON doesn't have the form of a script.
    BadScript = 91,
    /// A script is longer than 1,048,576 bytes.
    ScriptTooLong = 92,
    /// It is no file, or one that doesn't begin as a journal of this kind does, or a whole line of it is no epoch.
    NotAJournal = 93,
    /// Another process has the file open as its journal.
    JournalInUse = 94,
    /// The reader failed.
    ReadFailed = 95,
    /// The writer failed, or took no byte.
    WriteFailed = 96,
    /// A journal's file wasn't opened, or refused a call. It isn't to be asked again: what a refused sync leaves on the disk
    /// isn't known.
    JournalFailed = 97,
    /// What came out isn't what the script expects.
    NotExpected = 100,
}

impl Display for Fault {
    fn fmt<W: Write>(&self, f: &mut Formatter<W>) -> fmt::Result {
        f.write_str(self.name())
    }
}

impl Fault {
    /// Its number, by which programs tell refusals apart.
    pub fn number(self) -> u8
        ensures { result ≡ number_of self }
    {
        self as u8
    }

    /// Its name, as messages print it. Locks and admission share a name, since a place out of order is the cause of
    /// both.
    pub fn name(self) -> &'static str
        ensures name { result.now ≡ name_of self }
        ensures short { length result.now ≤ 20 }
    {
        match self {
            Fault::OutOfMemory => "OutOfMemory",
            Fault::TooManyKeys => "TooManyKeys",
            Fault::Repeated => "Repeated",
            Fault::BadConfig => "BadConfig",
            Fault::TooLong => "TooLong",
            Fault::LocksOutOfOrder | Fault::AdmittedOutOfOrder => "OutOfOrder",
            Fault::NoKeys => "NoKeys",
            Fault::NotHeld => "NotHeld",
            Fault::RoundsSpent => "RoundsSpent",
            Fault::NotCurrent => "NotCurrent",
            Fault::Known => "Known",
            Fault::NoBatch => "NoBatch",
            Fault::QueueFull => "QueueFull",
            Fault::EmptySets => "EmptySets",
            Fault::TooManyAttempts => "TooManyAttempts",
            Fault::EpochsSpent => "EpochsSpent",
            Fault::NotComplete => "NotComplete",
            Fault::NotClosed => "NotClosed",
            Fault::Decided => "Decided",
            Fault::NotReady => "NotReady",
            Fault::Begun => "Begun",
            Fault::NotAwaited => "NotAwaited",
            Fault::ReadsMissing => "ReadsMissing",
            Fault::NotCollected => "NotCollected",
            Fault::StaleJob => "StaleJob",
            Fault::NotServed => "NotServed",
            Fault::NothingToLock => "NothingToLock",
            Fault::NotAtEnd => "NotAtEnd",
            Fault::Older => "Older",
            Fault::NotMine => "NotMine",
            Fault::PointTooLate => "PointTooLate",
            Fault::PointOpen => "PointOpen",
            Fault::NoRow => "NoRow",
            Fault::NoPoints => "NoPoints",
            Fault::NoColdTable => "NoColdTable",
            Fault::OrderChanged => "OrderChanged",
            Fault::NoNode => "NoNode",
            Fault::NoPacket => "NoPacket",
            Fault::TooManyTries => "TooManyTries",
            Fault::TooWide => "TooWide",
            Fault::Unsettled => "Unsettled",
            Fault::Stale => "Stale",
            Fault::Closed => "Closed",
            Fault::NoRun => "NoRun",
            Fault::BadWorkers => "BadWorkers",
            Fault::NotEnded => "NotEnded",
            Fault::BadJson => "BadJson",
            Fault::BadScript => "BadScript",
            Fault::ScriptTooLong => "ScriptTooLong",
            Fault::NotAJournal => "NotAJournal",
            Fault::JournalInUse => "JournalInUse",
            Fault::ReadFailed => "ReadFailed",
            Fault::WriteFailed => "WriteFailed",
            Fault::JournalFailed => "JournalFailed",
            Fault::NotExpected => "NotExpected",
        }
    }
}

impl From<AllocError> for Fault {
    ghost use Rattle.calvin_types.specs.declared.fault.Fault.TheVariants.{OutOfMemory};

    ghost from_gives = { λ _ e. e ≡ OutOfMemory };

    fn from(_refused: AllocError) -> Fault {
        Fault::OutOfMemory
    }
}

impl<T: Drop> From<AllocFailed<T>> for Fault {
    ghost use Rattle.calvin_types.specs.declared.fault.Fault.TheVariants.{OutOfMemory};

    ghost from_gives = { λ _ e. e ≡ OutOfMemory };

    fn from(_refused: AllocFailed<T>) -> Fault {
        Fault::OutOfMemory
    }
}
