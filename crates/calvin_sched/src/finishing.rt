//! The part of what a job writes that is stored here.
ghost use Rattle.std.specs.Prelude.{◌≡◌, IsTrue};
ghost use Rattle.calvin_types.specs.Participants.{site};
ghost use Rattle.calvin_sched.specs.Scheduling.{local_writes};

use calvin_app::{App, Writes};
use calvin_types::Config;

/// Whether all writes have keys that are stored in a partition.
pub(crate) fn are_local<A: App>(writes: &Writes<A::Row>, config: &Config, partition: u8) -> bool
    ensures { IsTrue result → writes.now ≡ local_writes (site config.now.partitions partition) writes.now }
{
    for i in 0..writes.len() {
        let (key, _row) = writes.at(i);
        if config.partition_of(&key) != partition {
            return false;
        }
    }
    true
}

/// The writes whose keys are stored in a partition.
pub(crate) fn local_part<A: App>(
    writes: &Writes<A::Row>,
    config: &Config,
    partition: u8,
) -> Writes<A::Row>
    ensures { result ≡ local_writes (site config.now.partitions partition) writes.now }
{
    let mut part = Writes::new();
    for i in 0..writes.len() {
        let (key, row) = writes.at(i);
        if config.partition_of(&key) == partition {
            part.push(key, row);
        }
    }
    part
}
