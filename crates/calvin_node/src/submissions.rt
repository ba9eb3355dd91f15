//! What reaches a node's sequencer, the batches that it closes, and the ballots that it begins for them.
ghost use Rattle.std.specs.Prelude.{[], true};
ghost use Rattle.calvin_node_acts.specs.Acting as acting;
ghost use Rattle.calvin_node_acts.specs.Running.{NodeDid};

use crate::node::Node;
use calvin_app::App;
use calvin_lock::Locks;
use calvin_node_packets::Outbox;
use calvin_store::Rows;
use calvin_types::{Fault, Txn};

impl<A: App, L: Locks + Drop, S: Rows<A::Row> + Drop> Node<A, L, S> {
    /// A client's request joins the sequencer's queue. Refused with `QueueFull` where 4,096 requests are queued, held back, or
    /// closed and undecided, with `EmptySets` where it declares no key, with `TooManyAttempts` where its attempt isn't 1 to
    /// 8, else with `OutOfMemory` where a growth was refused.
    pub fn submit(&mut self, txn: Txn<A::Args>) -> Result<(), Fault>
        ensures did { NodeDid {Reply = A.Reply} true result (acting.submit txn self.old.state) self.old self.new [] [] }
    {
        self.layer.submit(txn)
    }

    /// A client's request that may touch cold rows is held back for as many closings as the configuration's delay, and joins
    /// the queue at once where that is 0, while the partitions of the replica that store its keys are told to have their
    /// rows in memory (section 4: rows on disk). Refused as `submit` is.
    pub fn submit_cold(&mut self, txn: Txn<A::Args>, outbox: &mut Outbox<A>) -> Result<(), Fault>
        ensures did { NodeDid true result (acting.submit_cold self.old.config txn self.old.state) self.old self.new outbox.old.packets outbox.new.packets }
    {
        self.layer.submit_cold(txn, outbox)
    }

    /// The sequencer closes the batch of its next epoch (Thomson et al. 2012, section 3.1: an epoch ends): the requests at the
    /// queue's front, 256 or all if there are fewer. Requests that were held back for as many closings as the delay join the
    /// queue's end then. Refused with `EpochsSpent` where that epoch is 2^48 or more, else with `OutOfMemory` where a growth was refused.
    pub fn close(&mut self) -> Result<(), Fault>
        ensures did { NodeDid {Reply = A.Reply} true result (acting.close self.old.config self.old.state) self.old self.new [] [] }
    {
        self.layer.close()
    }

    /// Begins a new ballot for the batch that the sequencer closed for an epoch ("Paxos Made Simple", section 2.2, phase 1a).
    /// Refused with `RoundsSpent` where there is no greater round, with `NotClosed` where no batch was closed for the epoch
    /// since the last restart, with `Decided` where the slot's batch is held, else with `OutOfMemory` where a growth was
    /// refused or the batch can have no more owners.
    pub fn propose(&mut self, epoch: u64, outbox: &mut Outbox<A>) -> Result<(), Fault>
        ensures did { NodeDid true result (acting.propose self.old.config epoch self.old.state) self.old self.new outbox.old.packets outbox.new.packets }
    {
        self.layer.propose(epoch, outbox)
    }
}
