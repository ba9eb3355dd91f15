//! The events of a node that no packet brings.
use calvin_types::{Key, NodeId, Place, Slot, Txn};

/// One of a node's own events. Places are those of the merged order; epochs count from 0.
#[derive(Clone, Copy, Debug, PartialEq, Eq)]
pub enum Act<Args> {
    /// A client's request joins the sequencer's queue.
    Submit(Txn<Args>),
    /// The same for a request that may touch cold rows: it is held back for as many closings as the delay, while they are
    /// warmed (Thomson et al. 2012, section 4: rows on disk).
    SubmitCold(Txn<Args>),
    /// The row of a key goes to the cold table.
    Cool(Key),
    /// The sequencer closes its next batch (section 3.1: an epoch ends).
    Close,
    /// The batches of the next epoch are merged.
    Merge,
    /// The next merged request asks for its locks.
    Lock,
    /// The node loses all but its durable record, and comes back from it.
    Restart,
    /// A new ballot is begun for the closed batch of an epoch.
    Propose(u64),
    /// The rows at the end of an epoch become the record's snapshot (section 5).
    Snapshot(u64),
    /// A point of consistency is opened at the end of an epoch (section 5).
    Mark(u64),
    /// The request at a place has its locks, and reads.
    Begin(Place),
    /// The request at a place is run, and writes.
    Finish(Place),
    /// Rows that are awaited for the request at a place are asked of a replica.
    AskForReads(Place, u8),
    /// The batch of a slot is asked of a node.
    AskForBatch(Slot, NodeId),
}
