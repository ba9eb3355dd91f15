//! A request with its declared sets.
ghost use Rattle.std.specs.Prelude.{◌≡◌};
ghost use Rattle.calvin_types.specs.Participants.{site, has_local_key, is_least, is_active};
ghost use Rattle.calvin_types.specs.Submitting.{has_key, is_attempt};

use crate::config::Config;
use crate::key_set::Sets;
use crate::limits::MOST_ATTEMPTS;
use crate::place::RequestId;

/// A request: its name, the number of the attempt (1 to 8, counted from 1), the application's arguments, and the
/// declared sets. A new attempt is made where the declared sets turn out not to be those that the request needs.
#[derive(Clone, Copy, Debug, PartialEq, Eq)]
pub struct Txn<Args> {
    pub id: RequestId,
    pub attempt: u8,
    pub args: Args,
    pub sets: Sets,
}

impl<Args: Copy> Txn<Args> {
    /// Whether a key is declared. A request without one has no partition to run it, so no sequencer takes it
    /// (`EmptySets`).
    pub fn has_key(&self) -> bool
        ensures { result ≡ has_key self.now.sets }
    {
        !(self.sets.reads.is_empty() && self.sets.writes.is_empty())
    }

    /// Whether the attempt is one of those that an issuer makes. No sequencer takes another (`TooManyAttempts`).
    pub fn is_in_time(&self) -> bool
        ensures { result ≡ is_attempt self.now.attempt }
    {
        1 <= self.attempt && self.attempt <= MOST_ATTEMPTS
    }

    /// Whether a partition takes part: it stores a declared key (Thomson et al. 2012, section 3.2: a participant).
    pub fn is_participant(&self, config: &Config, partition: u8) -> bool
        ensures { result ≡ has_local_key (site config.now.partitions partition) self.now }
    {
        self.sets.reads.has_local(config, partition)
            || self.sets.writes.has_local(config, partition)
    }

    /// Whether a partition is the participant of least number. A request that declares no key has none.
    pub fn is_least_participant(&self, config: &Config, partition: u8) -> bool
        ensures { result ≡ is_least (site config.now.partitions partition) self.now }
    {
        self.is_participant(config, partition)
            && self.sets.reads.is_none_below(config, partition)
            && self.sets.writes.is_none_below(config, partition)
    }

    /// Whether a partition runs the request: it stores a key that is written, or is the least participant, so that a
    /// request that only reads has one that answers it. All active partitions compute the same answer (Thomson et al.
    /// 2012, section 3.2: active participants store a key of the write set, the others are passive).
    pub fn is_active(&self, config: &Config, partition: u8) -> bool
        ensures { result ≡ is_active (site config.now.partitions partition) self.now }
    {
        self.sets.writes.has_local(config, partition)
            || self.is_least_participant(config, partition)
    }
}
