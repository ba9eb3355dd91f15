//! The order: the batches that a layer holds are merged, epoch after epoch.
ghost use Rattle.std.specs.Prelude.{◌≡◌, ◌^◌, ◌<◌, ◌≤◌, ◌↔◌, ◌⊎◌, suc, length, IfOk, IfErr, IsSome, IsErrOf, OnOk, MatchOption};
ghost use Rattle.calvin_order.specs.Configs.{merged};
ghost use Rattle.calvin_order.specs.Merged.{joined};
ghost use Rattle.calvin_order.specs.Merging.{HoldsAll, batch_at};
ghost use Rattle.calvin_order.specs.Walking.{flat};

use crate::layer::SequencingLayer;
use calvin_app::App;
use calvin_order::{BatchSource, MergedSegment};
use calvin_types::{Fault, Slot, Txn};

impl<A: App> SequencingLayer<A> {
    /// The epoch that is merged next. There is none once epoch 2^64 - 1 was.
    pub fn next_to_merge(&self) -> Option<u64>
        ensures next { MatchOption result (self.now.merged_epochs ≡ 2 ^ 64) (λ epoch. epoch ≡ self.now.merged_epochs) }
        ensures complete { HoldsAll self.now.held self.now.merged_epochs self.now.config.partitions → IsSome result }
    {
        self.merge.next()
    }

    /// The requests of the epoch that is merged next, the n-th one at the place (epoch, n): whole batches by ascending group,
    /// or woven ones (Thomson et al. 2012, section 3.1). They come in segments, which lie where the batches have them. Refused with `NotComplete` where a group's batch isn't held for that
    /// epoch, as always once no epoch is left; else with `OutOfMemory` where there is a request and a growth was refused.
    pub fn next_segments(&self) -> Result<Vec<MergedSegment<A::Args>>, Fault>
        ensures merged { IfOk result (λ v. flat v.items ≡ merged self.now.config (batch_at self.now.held) self.now.merged_epochs) }
        ensures fewer { IfOk result (λ v. length v.items ≤ length (joined (batch_at self.now.held) self.now.merged_epochs self.now.config.partitions)) }
        ensures complete { OnOk result (HoldsAll self.now.held self.now.merged_epochs self.now.config.partitions) }
        ensures not_complete { IsErrOf result Fault.NotComplete ↔ ¬ HoldsAll self.now.held self.now.merged_epochs self.now.config.partitions }
        ensures only { IfErr result (λ fault. (fault ≡ Fault.NotComplete)
            ⊎ ((fault ≡ Fault.OutOfMemory) × (0 < length (joined (batch_at self.now.held) self.now.merged_epochs self.now.config.partitions)))) }
    {
        self.merge.next_segments()
    }

    /// Counts the epoch that is merged next as merged, and goes on to the one after. Each group's batch has to be held for it, as
    /// it is once `next_segments` succeeded. Batches stay held.
    pub fn pass_epoch(&mut self)
        requires { HoldsAll self.old.held self.old.merged_epochs self.old.config.partitions }
        ensures { self.new ≡ record self.old { merged_epochs = suc self.old.merged_epochs } }
    {
        let _passed = self.merge.pass_epoch();
    }
}

/// The batch that is held for each slot: none is copied.
impl<A: App> BatchSource<Txn<A::Args>> for SequencingLayer<A> {
    ghost assignment = { λ l. batch_at l.held };

    fn requests(&self, slot: Slot) -> &[Txn<A::Args>] {
        self.merge.requests(slot)
    }
}
