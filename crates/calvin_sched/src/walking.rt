//! An epoch is merged whose requests are looked at where its batches lie.
ghost use Rattle.std.specs.Prelude.{◌≡◌, ◌⊎◌, ◌++◌, ◌+◌, ◌==◌, ◌≤◌, ◌<◌, ◌^◌, length, OnOk, OnErr, IfErr};
ghost use Rattle.calvin_types.specs.Participants.{site};
ghost use Rattle.calvin_sched.specs.Standing.{local_places};
ghost use Rattle.calvin_sched.specs.Progress.{HasReserved};

use crate::progress::Progress;
use calvin_order::{BatchSource, EpochRequests};
use calvin_types::{Config, Fault, Txn};

impl Progress {
    /// Whether an epoch is the next one.
    pub fn is_at(&self, epoch: u64) -> bool
        ensures { result ≡ (epoch == self.now.merged) }
    {
        u128::from(epoch) == self.merged
    }

    /// Room for the places of these requests, of which there are no more than `most`: for so many, or, where there is no
    /// memory for that, for those with a key that is stored in a partition.
    pub fn reserve_for_walk<Args: Copy, B: BatchSource<Txn<Args>>>(
        &mut self,
        most: usize,
        requests: EpochRequests<'_, Txn<Args>, B>,
        config: &Config,
        partition: u8,
    ) -> Result<(), Fault>
        requires reserved { HasReserved self.old }
        requires most { length requests ≤ most }
        ensures merged { self.new.merged ≡ self.old.merged }
        ensures done { self.new.done ≡ self.old.done }
        ensures due { self.new.due.items ≡ self.old.due.items }
        ensures reserved { HasReserved self.new }
        ensures ok { OnOk result (length (local_places (site config.now.partitions partition) requests.entry) ≤ self.new.room) }
        ensures err { OnErr result (self.new.room ≡ self.old.room) }
        ensures refused { IfErr result (λ fault. (fault ≡ Fault.OutOfMemory) × (self.old.room < length (local_places (site config.now.partitions partition) requests.entry))) }
    {
        match self.reserve_places(most) {
            Ok(()) => Ok(()),
            Err(_) => self.reserve_places(count_local(requests, config, partition)),
        }
    }

    /// An epoch is merged and has these requests: the places of those with a key that is stored in the partition are due.
    /// The room that was reserved for them is taken.
    pub fn merge_walk<Args: Copy, B: BatchSource<Txn<Args>>>(
        &mut self,
        epoch: u64,
        requests: EpochRequests<'_, Txn<Args>, B>,
        config: &Config,
        partition: u8,
    )
        requires reserved { HasReserved self.old }
        requires room { length (local_places (site config.now.partitions partition) requests) ≤ self.old.room }
        ensures merged { self.new.merged ≡ epoch + 1 }
        ensures done { self.new.done ≡ self.old.done }
        ensures due { self.new.due.items ≡ self.old.due.items ++ local_places (site config.now.partitions partition) requests.entry }
        ensures room { self.new.room ≡ 0 }
        ensures reserved { HasReserved self.new }
    {
        self.merged = u128::from(epoch) + 1;
        self.room = 0;
        for (place, txn) in requests {
            if txn.is_participant(config, partition) {
                self.due.push_back_reserved(place);
            }
        }
    }
}

/// How many requests have a key that is stored in a partition.
fn count_local<Args: Copy, B: BatchSource<Txn<Args>>>(
    requests: EpochRequests<'_, Txn<Args>, B>,
    config: &Config,
    partition: u8,
) -> usize
    requires { length requests < 2 ^ 64 }
    ensures { result ≡ length (local_places (site config.now.partitions partition) requests.entry) }
{
    let mut count = 0;
    for (_, txn) in requests {
        if txn.is_participant(config, partition) {
            count += 1;
        }
    }
    count
}
