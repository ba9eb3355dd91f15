//! Batches by their slots.
ghost use Rattle.std.specs.Prelude.{◌≡◌, ◌+◌, ◌*◌, ◌-◌, ◌<◌, ◌≤◌, ◌↔◌, ◌++◌, [], length, max, is_none, IfErr, IfOk, IsOk, IsNone, IsTrue, OnOk, OnErr, IsOkUnless, vec_len, vec_capacity, if◌then◌else◌};
ghost use Rattle.std.specs.Option.{option_copied};
ghost use Rattle.std.specs.FinMap as map;
ghost use Rattle.calvin_order.specs.Configs.{merged, order_config, together};
ghost use Rattle.calvin_order.specs.Merged.{joined, numbered};
ghost use Rattle.calvin_order.specs.Merging.{batch_at, HoldsAll, without_epoch};
ghost use Rattle.calvin_order.specs.Walking.{flat};

use crate::segment::MergedSegment;
use crate::walk::{BatchSource, EpochRequests, count_requests, is_woven};
use calvin_types::{
    Batch, Config, Fault, MOST_PARTITIONS, MOST_REQUESTS, Place, RoomMap, Shared, Slot, Txn,
};
use std::alloc::Global;
use std::marker::Model;

/// At most one batch for each slot. Room for some more can be reserved.
#[derive(Drop)]
pub struct Held<Args> {
    batches: RoomMap<Slot, Batch<Args>>,
}

impl<Args> Model for Held<Args> {
    ghost use Rattle.calvin_types.specs.Places.{slot_cmp};
    ghost use Rattle.calvin_types.specs.RoomMaps.{by};
    ghost use Rattle.calvin_order.specs.Merging.{Holding};
    ghost use Rattle.calvin_order.specs.Codes.{coded_holding};

    ghost Value = { Holding Args };

    ghost coded = { coded_holding Args.code };

    ghost view = { λ h. record { batches = by slot_cmp h.batches; room = h.batches.room } };
}

impl<Args: Copy> Held<Args> {
    /// No batch, and room for none.
    pub fn new(alloc: Global) -> Held<Args>
        ensures { result ≡ record { batches = map.empty; room = 0 } }
    {
        Held {
            batches: RoomMap::new(alloc),
        }
    }

    /// The batch for a slot.
    pub fn get(&self, slot: Slot) -> Option<&Batch<Args>>
        ensures { option_copied result ≡ map.get self.now.batches slot }
    {
        self.batches.get(slot)
    }

    /// One more batch, whose slot has none.
    pub fn insert(&mut self, slot: Slot, batch: Batch<Args>) -> Result<(), Fault>
        ensures held { OnOk result (self.new ≡ record { batches = map.insert self.old.batches slot batch; room = self.old.room - 1 }) }
        ensures err { OnErr result (self.new ≡ self.old) }
        ensures only { IsOkUnless result Fault.OutOfMemory }
        ensures succeeds { 0 < self.old.room → IsOk result }
    {
        self.batches.insert(slot, batch)
    }

    /// Room for one more batch at least.
    pub fn reserve(&mut self) -> Result<(), Fault>
        ensures ok { OnOk result (self.new ≡ record self.old { room = max 1 self.old.room }) }
        ensures err { OnErr result (self.new ≡ self.old) }
        ensures only { IsOkUnless result Fault.OutOfMemory }
        ensures succeeds { 0 < self.old.room → IsOk result }
    {
        self.batches.reserve(1)
    }

    /// Discards the batch for a slot, if there is one.
    fn remove(&mut self, slot: Slot)
        ensures { self.new ≡ record self.old { batches = map.remove self.old.batches slot } }
    {
        let _discarded = self.batches.remove(slot);
    }

    /// Discards the groups' batches for an epoch.
    #[tactic(auto, using(crate::proofs::Ranges::without_none, crate::proofs::Ranges::without_next))]
    pub fn remove_all(&mut self, epoch: u64, groups: u8)
        ensures { self.new ≡ record self.old { batches = without_epoch epoch groups self.old.batches } }
    {
        for group in 0..groups {
            self.remove(Slot { epoch, group });
        }
    }

    /// Whether each group has a batch for an epoch.
    pub fn has_all(&self, epoch: u64, groups: u8) -> bool
        ensures { IsTrue result ↔ HoldsAll self.now.batches epoch groups }
    {
        for group in 0..groups {
            if self.get(Slot { epoch, group }).is_none() {
                return false;
            }
        }
        true
    }

    /// How many requests the groups' batches for an epoch have.
    pub fn count(&self, epoch: u64, groups: u8) -> usize
        ensures count { result ≡ length (joined (batch_at self.now.batches) epoch groups) }
        ensures at_most { result ≤ MOST_REQUESTS * groups }
    {
        count_requests(self, epoch, groups)
    }

    /// Appends the groups' requests for an epoch, each with its place.
    pub fn append_all(&self, epoch: u64, config: &Config, out: &mut Vec<(Place, Txn<Args>)>)
        requires empty { out.old.items ≡ [] }
        requires room { length (joined (batch_at self.now.batches) epoch config.now.partitions) ≤ vec_capacity out.old }
        ensures { out.new.items ≡ merged (order_config config.now) (batch_at self.now.batches) epoch }
    {
        for (place, txn) in EpochRequests::new(self, epoch, config) {
            out.push_reserved((place, *txn));
        }
    }

    /// The groups' requests for an epoch, each at its place: where batches are joined, in the memory of the batches. Refused
    /// with `OutOfMemory`, and only where there is a request.
    pub fn segments(
        &self,
        alloc: Global,
        epoch: u64,
        config: &Config,
    ) -> Result<Vec<MergedSegment<Args>>, Fault>
        ensures merged { IfOk result (λ v. flat v.items ≡ merged (order_config config.now) (batch_at self.now.batches) epoch) }
        ensures fewer { IfOk result (λ v. length v.items ≤ length (joined (batch_at self.now.batches) epoch config.now.partitions)) }
        ensures refused { IfErr result (λ fault. (fault ≡ Fault.OutOfMemory) × (0 < length (joined (batch_at self.now.batches) epoch config.now.partitions))) }
    {
        if is_woven(config, epoch) {
            self.woven_segment(alloc, epoch, config)
        } else {
            self.joined_segments(alloc, epoch, config.partitions)
        }
    }

    /// One segment for each batch that has a request.
    fn joined_segments(
        &self,
        alloc: Global,
        epoch: u64,
        groups: u8,
    ) -> Result<Vec<MergedSegment<Args>>, Fault>
        requires { groups ≤ MOST_PARTITIONS }
        ensures joined { IfOk result (λ v. flat v.items ≡ numbered epoch 0 (joined (batch_at self.now.batches) epoch groups)) }
        ensures fewer { IfOk result (λ v. length v.items ≤ length (joined (batch_at self.now.batches) epoch groups)) }
        ensures refused { IfErr result (λ fault. (fault ≡ Fault.OutOfMemory) × (0 < length (joined (batch_at self.now.batches) epoch groups))) }
    {
        let mut segments = Vec::new(alloc);
        let mut n = 0;
        for group in 0..groups {
            n = self.push_segment(Slot { epoch, group }, n, &mut segments)?;
        }
        Ok(segments)
    }

    /// Appends the batch of a slot, whose first request has this number, where it has a request. Answers the number of the
    /// request behind it.
    fn push_segment(
        &self,
        slot: Slot,
        n: u32,
        out: &mut Vec<MergedSegment<Args>>,
    ) -> Result<u32, Fault>
        requires before { n ≤ MOST_REQUESTS * slot.group }
        requires group { slot.group < MOST_PARTITIONS }
        ensures next { IfOk result (λ next. next ≡ n + length (batch_at self.now.batches slot)) }
        ensures few { IfOk result (λ next. next ≤ n + MOST_REQUESTS) }
        ensures fewer { OnOk result (length out.new.items ≤ length out.old.items + length (batch_at self.now.batches slot)) }
        ensures segments { OnOk result (flat out.new.items ≡ flat out.old.items ++ numbered slot.epoch n (batch_at self.now.batches slot)) }
        ensures refused { IfErr result (λ fault. (fault ≡ Fault.OutOfMemory) × (0 < length (batch_at self.now.batches slot))) }
    {
        let Some(batch) = self.get(slot) else {
            return Ok(n);
        };
        let size = batch.len();
        if size == 0 {
            return Ok(n);
        }
        let place = Place {
            epoch: slot.epoch,
            n,
        };
        out.push(MergedSegment::new(place, batch.share()?))?;
        Ok(n + size as u32)
    }

    /// One segment of all requests, where there is one: they are copied in their order.
    fn woven_segment(
        &self,
        alloc: Global,
        epoch: u64,
        config: &Config,
    ) -> Result<Vec<MergedSegment<Args>>, Fault>
        ensures merged { IfOk result (λ v. flat v.items ≡ merged (order_config config.now) (batch_at self.now.batches) epoch) }
        ensures fewer { IfOk result (λ v. length v.items ≤ length (joined (batch_at self.now.batches) epoch config.now.partitions)) }
        ensures refused { IfErr result (λ fault. (fault ≡ Fault.OutOfMemory) × (0 < length (joined (batch_at self.now.batches) epoch config.now.partitions))) }
    {
        let mut segments = Vec::new(alloc);
        let count = self.count(epoch, config.partitions);
        if count == 0 {
            return Ok(segments);
        }
        let mut requests = Vec::with_capacity(alloc, count)?;
        self.copy_all(epoch, config, &mut requests);
        let requests = Shared::new(alloc, requests)?;
        segments.push(MergedSegment::new(Place { epoch, n: 0 }, requests))?;
        Ok(segments)
    }

    /// Appends the groups' requests for an epoch in their order.
    fn copy_all(&self, epoch: u64, config: &Config, out: &mut Vec<Txn<Args>>)
        requires empty { out.old.items ≡ [] }
        requires room { length (joined (batch_at self.now.batches) epoch config.now.partitions) ≤ vec_capacity out.old }
        ensures { out.new.items ≡ together (order_config config.now) (batch_at self.now.batches) epoch }
    {
        for (_, txn) in EpochRequests::new(self, epoch, config) {
            out.push_reserved(*txn);
        }
    }
}

impl<Args: Copy> BatchSource<Txn<Args>> for Held<Args> {
    ghost assignment = { λ h. batch_at h.batches };

    fn requests(&self, slot: Slot) -> &[Txn<Args>] {
        match self.get(slot) {
            Some(batch) => {
                let _size = batch.len();
                batch.as_slice()
            }
            None => &[],
        }
    }
}
