//! The merge of one node.
ghost use Rattle.std.specs.Prelude.{◌≡◌, ◌^◌, ◌<◌, ◌≤◌, ◌↔◌, ◌⊎◌, suc, length, max, is_none, IfOk, IfErr, IsOk, IsSome, IsNone, IsErrOf, OnOk, OnErr, IsOkUnless, MatchOption};
ghost use Rattle.std.specs.Option.{option_copied, unwrap_or};
ghost use Rattle.std.specs.FinMap as map;
ghost use Rattle.calvin_types.specs.Orders.{Rises};
ghost use Rattle.calvin_order.specs.Configs.{merged, order_config, OrdersRise};
ghost use Rattle.calvin_order.specs.Merged.{joined};
ghost use Rattle.calvin_order.specs.Merging.{held_by, with_batch, without_epoch, IsComplete, IsReady};
ghost use Rattle.calvin_order.specs.Walking.{flat};

use crate::held::Held;
use crate::segment::MergedSegment;
use crate::walk::BatchSource;
use calvin_types::{Batch, Config, Fault, Place, Slot, Txn};
use std::alloc::Global;
use std::marker::Model;
use std::mem;

/// At most one batch for each slot, and the epoch that is taken next (Thomson et al. 2012, section 3.1: each node joins
/// the batches of all sequencers, in one order).
#[derive(Drop)]
pub struct Merge<Args> {
    alloc: Global,
    config: Config,
    next: Option<u64>,
    held: Held<Args>,
    ready: Vec<(Place, Txn<Args>)>,
}

impl<Args> Model for Merge<Args> {
    ghost use Rattle.std.specs.Prelude.{◌^◌, vec_capacity};
    ghost use Rattle.std.specs.Option.{unwrap_or};
    ghost use Rattle.calvin_order.specs.Configs.{order_config};
    ghost use Rattle.calvin_order.specs.Merging.{Merging, IsMerge};
    ghost use Rattle.calvin_order.specs.Codes.{coded_merging};

    ghost Value = { Merging Args };

    ghost coded = { coded_merging Args.code };

    ghost view = { λ m. record { config = order_config m.config; next = unwrap_or m.next (2 ^ 64); held = m.held.batches; room = m.held.room; ready = vec_capacity m.ready } };

    ghost invariant = { λ m. IsMerge m.held.batches m.ready.items };
}

impl<Args: Copy> Merge<Args> {
    /// A merge of as many groups as there are partitions: nothing is held, and epoch 0 is next.
    pub fn new(alloc: Global, config: &Config) -> Merge<Args>
        ensures { result ≡ record { config = order_config config.now; next = 0; held = map.empty; room = 0; ready = 0 } }
    {
        Merge::from_epoch(alloc, config, Some(0))
    }

    /// A merge that goes on after what was restored: nothing is held, and `first` is the next epoch. No epoch is left
    /// where it is none, as after epoch 2^64 - 1.
    pub fn from_epoch(alloc: Global, config: &Config, first: Option<u64>) -> Merge<Args>
        ensures { result ≡ record { config = order_config config.now; next = unwrap_or first (2 ^ 64); held = map.empty; room = 0; ready = 0 } }
    {
        Merge {
            alloc,
            config: *config,
            next: first,
            held: Held::new(alloc),
            ready: Vec::new(alloc),
        }
    }

    /// Holds the batch that was decided for a slot, of any epoch and group, and answers true. Where the slot has a
    /// batch already nothing changes, and the answer is false. Refused with `OutOfMemory` where the slot has none and a
    /// growth was refused: the batch is given up.
    pub fn hold(&mut self, slot: Slot, batch: Batch<Args>) -> Result<bool, Fault>
        ensures new { IfOk result (λ new. new ≡ is_none (map.get self.old.held slot)) }
        ensures held { OnOk result (self.new ≡ with_batch slot batch self.old) }
        ensures err { OnErr result (self.new ≡ self.old) }
        ensures only { IsOkUnless result Fault.OutOfMemory }
        ensures absent { OnErr result (IsNone (map.get self.old.held slot)) }
        ensures succeeds { 0 < self.old.room → IsOk result }
    {
        if self.held.get(slot).is_some() {
            return Ok(false);
        }
        self.held.insert(slot, batch)?;
        Ok(true)
    }

    /// Makes room, so that `hold`, made next, isn't refused. Refused with `OutOfMemory` where there is no room and a
    /// growth was refused.
    pub fn reserve_hold(&mut self) -> Result<(), Fault>
        ensures ok { OnOk result (self.new ≡ record self.old { room = max 1 self.old.room }) }
        ensures err { OnErr result (self.new ≡ self.old) }
        ensures only { IsOkUnless result Fault.OutOfMemory }
        ensures succeeds { 0 < self.old.room → IsOk result }
    {
        self.held.reserve()?;
        Ok(())
    }

    /// The batch that is held for a slot.
    pub fn held(&self, slot: Slot) -> Option<&Batch<Args>>
        ensures { option_copied result ≡ map.get self.now.held slot }
    {
        self.held.get(slot)
    }

    /// The epoch that is taken next. There is none once epoch 2^64 - 1 was taken.
    pub fn next(&self) -> Option<u64>
        ensures next { MatchOption result (self.now.next ≡ 2 ^ 64) (λ epoch. epoch ≡ self.now.next) }
        ensures complete { IsComplete self.now → IsSome result }
    {
        self.next
    }

    /// The next epoch, where a batch of each group is held for it.
    fn complete(&self) -> Option<u64>
        ensures { MatchOption result (¬ IsComplete self.now) (λ epoch. IsComplete self.now × (epoch ≡ self.now.next)) }
    {
        let epoch = self.next?;
        if self.held.has_all(epoch, self.config.partitions) {
            Some(epoch)
        } else {
            None
        }
    }

    /// Goes on to the next epoch as `take_epoch` does, for a caller who reads the requests where they stand: none is
    /// copied. Refused with `NotComplete` where a group's batch isn't held for that epoch, as always once no epoch is
    /// left. Batches stay held.
    pub fn pass_epoch(&mut self) -> Result<(), Fault>
        ensures next { OnOk result (self.new ≡ record self.old { next = suc self.old.next }) }
        ensures complete { OnOk result (IsComplete self.old) }
        ensures not_complete { IsErrOf result Fault.NotComplete ↔ ¬ IsComplete self.old }
        ensures only { IsOkUnless result Fault.NotComplete }
        ensures err { OnErr result (self.new ≡ self.old) }
    {
        let Some(epoch) = self.complete() else {
            return Err(Fault::NotComplete);
        };
        self.next = epoch.checked_add(1);
        Ok(())
    }

    /// Discards the batches that are held for an epoch, for a caller who doesn't need them again: else what is held grows
    /// with the epochs. A batch that comes again for one of their slots is held again.
    pub fn discard_epoch(&mut self, epoch: u64)
        ensures { self.new ≡ record self.old { held = without_epoch epoch self.old.config.partitions self.old.held } }
    {
        self.held.remove_all(epoch, self.config.partitions);
    }

    /// The requests of the next epoch, the n-th one at the place (epoch, n): whole batches by ascending group, or, from the
    /// first woven epoch on, the first requests of all groups, then the second ones, and so on. Refused with `NotComplete`
    /// where a group's batch isn't held for that epoch, as always once no epoch is left; else with `OutOfMemory` where a
    /// growth was refused. Batches stay held.
    pub fn take_epoch(&mut self) -> Result<Vec<(Place, Txn<Args>)>, Fault>
        ensures merged { IfOk result (λ v. v.items ≡ merged self.old.config (held_by self.old) self.old.next) }
        ensures rising { IfOk result (λ v. Rises v.items) }
        ensures next { OnOk result (self.new ≡ record self.old { next = suc self.old.next; ready = 0 }) }
        ensures complete { OnOk result (IsComplete self.old) }
        ensures not_complete { IsErrOf result Fault.NotComplete ↔ ¬ IsComplete self.old }
        ensures only { IfErr result (λ fault. (fault ≡ Fault.NotComplete) ⊎ (fault ≡ Fault.OutOfMemory)) }
        ensures err { OnErr result (self.new ≡ self.old) }
        ensures reserved { IsReady self.old → IsOkUnless result Fault.NotComplete }
    {
        let Some(epoch) = self.complete() else {
            return Err(Fault::NotComplete);
        };
        self.ready
            .reserve(self.held.count(epoch, self.config.partitions))?;
        let mut requests = mem::replace(&mut self.ready, Vec::new(self.alloc));
        self.held.append_all(epoch, &self.config, &mut requests);
        self.next = epoch.checked_add(1);
        Ok(requests)
    }

    /// The requests of the next epoch in the order in which `take_epoch` gives them, for a caller who goes on with
    /// `pass_epoch` once it has found room for them: nothing is taken, and where batches are joined none is copied. Refused as
    /// `take_epoch` is, and with `OutOfMemory` only where there is a request.
    pub fn next_segments(&self) -> Result<Vec<MergedSegment<Args>>, Fault>
        ensures merged { IfOk result (λ v. flat v.items ≡ merged self.now.config (held_by self.now) self.now.next) }
        ensures fewer { IfOk result (λ v. length v.items ≤ length (joined (held_by self.now) self.now.next self.now.config.partitions)) }
        ensures complete { OnOk result (IsComplete self.now) }
        ensures not_complete { IsErrOf result Fault.NotComplete ↔ ¬ IsComplete self.now }
        ensures only { IfErr result (λ fault. (fault ≡ Fault.NotComplete) ⊎ ((fault ≡ Fault.OutOfMemory) × (0 < length (joined (held_by self.now) self.now.next self.now.config.partitions)))) }
    {
        let Some(epoch) = self.complete() else {
            return Err(Fault::NotComplete);
        };
        self.held.segments(self.alloc, epoch, &self.config)
    }

    /// Makes room for what is held for the next epoch, so that `take_epoch`, made next, isn't refused with
    /// `OutOfMemory`. Refused with that where there is no room and a growth was refused.
    pub fn reserve_take_epoch(&mut self) -> Result<(), Fault>
        ensures ready { OnOk result (IsReady self.new) }
        ensures ok { OnOk result (self.new ≡ record self.old { ready = self.new.ready }) }
        ensures kept { self.old.ready ≤ self.new.ready }
        ensures err { OnErr result (self.new ≡ self.old) }
        ensures only { IsOkUnless result Fault.OutOfMemory }
        ensures succeeds { IsReady self.old → IsOk result }
    {
        if let Some(epoch) = self.next {
            self.ready
                .reserve(self.held.count(epoch, self.config.partitions))?;
        }
        Ok(())
    }
}

/// The batch that is held for each slot: none is copied.
impl<Args: Copy> BatchSource<Txn<Args>> for Merge<Args> {
    ghost assignment = { held_by };

    fn requests(&self, slot: Slot) -> &[Txn<Args>] {
        self.held.requests(slot)
    }
}

/// The places of a merged order rise: what any node gives, epoch after epoch, is one order of places.
pub fn orders_rise<Args>()
    ensures { OrdersRise Args }
{}
