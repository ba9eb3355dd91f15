//! The partitions that a request's keys are stored in, found in one pass over the keys.
ghost use Rattle.std.specs.Prelude.{◌≡◌, ◌<◌, ℕ, false, List, ◌++◌, slice_index_or};
ghost use Rattle.std.specs.List.{list_any};
ghost use Rattle.calvin_types.specs.declared.key.Key.{Key};
ghost use Rattle.calvin_types.specs.Participants.{site, is_local, is_active};
ghost use Rattle.calvin_sched.specs.Sites.{IsLeastOf};

use calvin_types::{Config, KeySet, MOST_PARTITIONS, Txn};

/// As many partitions as there may be.
const SITES: usize = MOST_PARTITIONS as usize;

/// Of each partition whether it stores a key of some set, and the least of those that do, if there is a key.
#[derive(Drop)]
struct Storers {
    stores: [bool; SITES],
    least: Option<u8>,
}

/// The partitions that store the keys of a set.
fn storers_of(keys: &KeySet, config: &Config) -> Storers
    ensures stores { (p : ℕ) → p < SITES → slice_index_or result.stores p false ≡ list_any (is_local (site config.now.partitions p)) keys.now }
    ensures least { IsLeastOf config.now.partitions keys.now result.least }
{
    let mut stores = [false; SITES];
    let mut least = None;
    for i in 0..keys.len() {
        let partition = config.partition_of(&keys.at(i));
        stores[partition as usize] = true;
        least = lesser(least, Some(partition));
    }
    Storers { stores, least }
}

/// Of each partition whether it stores a key of a set.
pub(crate) fn storing(keys: &KeySet, config: &Config) -> [bool; SITES]
    ensures { (p : ℕ) → p < SITES → slice_index_or result p false ≡ list_any (is_local (site config.now.partitions p)) keys.now }
{
    storers_of(keys, config).stores
}

/// Of each partition whether it runs a request: it stores a key that is written, or is the least participant.
pub(crate) fn running<Args: Copy>(txn: &Txn<Args>, config: &Config) -> [bool; SITES]
    ensures { (p : ℕ) → p < SITES → slice_index_or result p false ≡ is_active (site config.now.partitions p) txn.now }
{
    let reads = storers_of(&txn.sets.reads, config);
    let writes = storers_of(&txn.sets.writes, config);
    let mut runs = writes.stores;
    match lesser(reads.least, writes.least) {
        Some(least) => runs[least as usize] = true,
        None => {}
    }
    runs
}

/// The lesser of two partitions, of which either or both may be missing.
fn lesser(a: Option<u8>, b: Option<u8>) -> Option<u8>
    ensures { (partitions : ℕ) (xs ys : List Key) → IsLeastOf partitions xs a → IsLeastOf partitions ys b → IsLeastOf partitions (xs ++ ys) result }
{
    match a {
        None => b,
        Some(x) => match b {
            None => a,
            Some(y) => Some(if y < x { y } else { x }),
        },
    }
}
