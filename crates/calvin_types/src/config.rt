//! How many partitions and replicas a store has, for how long requests for cold rows are held back, and from when on batches
//! are woven.
ghost use Rattle.std.specs.Prelude.{◌≡◌, ◌<◌, ◌≤◌, ◌↔◌, Some, None, IfOk, IsOk, IsOkUnless};
ghost use Rattle.std.specs.Option.{ForSome};
ghost use Rattle.calvin_types.specs.Keys.{partition_of};
ghost use Rattle.calvin_types.specs.Limits.{IsInRange};
ghost use Rattle.calvin_types.specs.declared.limits.TheConstants.{MOST_DELAY, MOST_EPOCHS};

use crate::fault::Fault;
use crate::key::Key;
use crate::limits::{MOST_DELAY, MOST_EPOCHS, MOST_PARTITIONS, MOST_REPLICAS};

/// The numbers of partitions (1 to 16) and of replicas (1 to 7), and the delay: for how many closings (0 to 16) a request that
/// may touch cold rows is held back. Each replica holds every partition, each on a node of its own (Thomson et al. 2012,
/// section 3; section 4: requests for rows on disk are delayed). Then the first epoch (0 to 2^48 - 1) whose batches are woven,
/// if there is one: from it on the first requests of all groups come first, then the second ones, and so on.
#[derive(Clone, Copy, Debug, PartialEq, Eq)]
pub struct Config {
    pub partitions: u8,
    pub replicas: u8,
    pub delay: u8,
    pub woven_from: Option<u64>,
    ghost in_range: { IsInRange partitions replicas },
    ghost delay_in_range: { delay ≤ MOST_DELAY },
    ghost woven_in_range: { ForSome woven_from (λ epoch. epoch < MOST_EPOCHS) },
}

impl Config {
    /// The configuration with these numbers, without delay, in which no batch is woven. Refused with `BadConfig` where either
    /// is outside its range.
    pub fn new(partitions: u8, replicas: u8) -> Result<Config, Fault>
        ensures partitions { IfOk result (λ c. c.partitions ≡ partitions) }
        ensures replicas { IfOk result (λ c. c.replicas ≡ replicas) }
        ensures delay { IfOk result (λ c. c.delay ≡ 0) }
        ensures woven_from { IfOk result (λ c. c.woven_from ≡ None) }
        ensures ok { IsOk result ↔ IsInRange partitions replicas }
        ensures only { IsOkUnless result Fault.BadConfig }
    {
        if partitions == 0
            || partitions > MOST_PARTITIONS
            || replicas == 0
            || replicas > MOST_REPLICAS
        {
            return Err(Fault::BadConfig);
        }
        Ok(Config {
            partitions,
            replicas,
            delay: 0,
            woven_from: None,
        })
    }

    /// The same configuration with this delay. Refused with `BadConfig` where it is more than 16 closings.
    pub fn with_delay(self, delay: u8) -> Result<Config, Fault>
        ensures partitions { IfOk result (λ c. c.partitions ≡ self.partitions) }
        ensures replicas { IfOk result (λ c. c.replicas ≡ self.replicas) }
        ensures delay { IfOk result (λ c. c.delay ≡ delay) }
        ensures woven_from { IfOk result (λ c. c.woven_from ≡ self.woven_from) }
        ensures ok { IsOk result ↔ (delay ≤ MOST_DELAY) }
        ensures only { IsOkUnless result Fault.BadConfig }
    {
        if delay > MOST_DELAY {
            return Err(Fault::BadConfig);
        }
        Ok(Config {
            partitions: self.partitions,
            replicas: self.replicas,
            delay,
            woven_from: self.woven_from,
        })
    }

    /// The same configuration, in which batches are woven from this epoch on. Refused with `BadConfig` where it is above
    /// 2^48 - 1, the last epoch.
    pub fn with_woven(self, epoch: u64) -> Result<Config, Fault>
        ensures partitions { IfOk result (λ c. c.partitions ≡ self.partitions) }
        ensures replicas { IfOk result (λ c. c.replicas ≡ self.replicas) }
        ensures delay { IfOk result (λ c. c.delay ≡ self.delay) }
        ensures woven_from { IfOk result (λ c. c.woven_from ≡ Some epoch) }
        ensures ok { IsOk result ↔ (epoch < MOST_EPOCHS) }
        ensures only { IsOkUnless result Fault.BadConfig }
    {
        if epoch >= MOST_EPOCHS {
            return Err(Fault::BadConfig);
        }
        Ok(Config {
            partitions: self.partitions,
            replicas: self.replicas,
            delay: self.delay,
            woven_from: Some(epoch),
        })
    }

    /// The partition that stores a key: the remainder of the key's number, whatever its table, so that rows of several
    /// tables with one number lie together.
    pub fn partition_of(&self, key: &Key) -> u8
        ensures partition { result ≡ partition_of self.now.partitions key.now }
        ensures there { result < self.now.partitions }
    {
        (key.id % self.partitions as u64) as u8
    }
}
