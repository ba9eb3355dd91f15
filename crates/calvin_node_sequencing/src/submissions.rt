//! What reaches a sequencer, and the batches that it closes.
ghost use Rattle.std.specs.Prelude.{[], true};
ghost use Rattle.calvin_node_acts.specs.Acting as acting;
ghost use Rattle.calvin_node_acts.specs.Layers.{LayerDid, IsOf};

use crate::layer::SequencingLayer;
use calvin_app::App;
use calvin_node_packets::Outbox;
use calvin_types::{Fault, MOST_KEYS, Txn};

impl<A: App> SequencingLayer<A> {
    /// A client's request joins the sequencer's queue. Refused with `QueueFull` where 4,096 requests are queued, held back, or
    /// closed and undecided, with `EmptySets` where it declares no key, with `TooManyAttempts` where its attempt isn't 1 to
    /// 8, else with `OutOfMemory` where a growth was refused.
    pub fn submit(&mut self, txn: Txn<A::Args>) -> Result<(), Fault>
        ensures did { LayerDid {Row = A.Row} {Reply = A.Reply} true result (λ n. acting.submit txn n.state) self.old self.new [] [] }
        ensures of { IsOf self.old self.new }
    {
        self.sequencer.submit(txn)
    }

    /// A client's request that may touch cold rows is held back for as many closings as the configuration's delay, and joins
    /// the queue at once where that is 0, while the partitions of the replica that store its keys are told to have their
    /// rows in memory (section 4: rows on disk). Refused as `submit` is.
    pub fn submit_cold(&mut self, txn: Txn<A::Args>, outbox: &mut Outbox<A>) -> Result<(), Fault>
        ensures did { LayerDid true result (λ n. acting.submit_cold n.config txn n.state) self.old self.new outbox.old.packets outbox.new.packets }
        ensures of { IsOf self.old self.new }
    {
        self.sequencer.check_submit(&txn)?;
        outbox.reserve(MOST_KEYS)?;
        self.sequencer.submit_cold(txn)?;
        outbox.post_warm(&self.config, self.id, &txn);
        Ok(())
    }

    /// The sequencer closes the batch of its next epoch (Thomson et al. 2012, section 3.1: an epoch ends): the requests at the
    /// queue's front, 256 or all if there are fewer. Requests that were held back for as many closings as the delay join the
    /// queue's end then. Refused with `EpochsSpent` where that epoch is 2^48 or more, else with `OutOfMemory` where a growth was refused.
    pub fn close(&mut self) -> Result<(), Fault>
        ensures did { LayerDid {Row = A.Row} {Reply = A.Reply} true result (λ n. acting.close n.config n.state) self.old self.new [] [] }
        ensures of { IsOf self.old self.new }
    {
        let _epoch = self.sequencer.close()?;
        Ok(())
    }
}
