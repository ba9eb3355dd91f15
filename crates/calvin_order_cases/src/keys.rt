//! The worked case `limits` of the sets, the limits of configurations, and which partitions store a key and take part.
use crate::checks::same;
use calvin_types::{Config, Fault, Key, KeySet, RequestId, Sets, Txn};
use std::alloc::{AllocError, Global};
use std::test::Fail;

/// The key of rank `rank`, of eight in each table.
fn key(rank: u64) -> Key {
    Key {
        table: (rank / 8 % 32) as u8,
        id: rank % 8,
    }
}

/// A key of table 0.
fn plain(id: u64) -> Key {
    Key { table: 0, id }
}

/// The set of keys of table 0 with these numbers.
fn plain_set(alloc: Global, ids: &[u64]) -> Result<KeySet, Fault> {
    let mut keys = Vec::new(alloc);
    for &id in ids {
        keys.push(plain(id))?;
    }
    KeySet::from_slice(&keys)
}

/// The keys of rank `from` up to `to`, without the last.
fn ranked(alloc: Global, from: u64, to: u64) -> Result<Vec<Key>, AllocError> {
    let mut keys = Vec::new(alloc);
    for rank in from..to {
        keys.push(key(rank))?;
    }
    Ok(keys)
}

/// The number of a refusal, or 0 where the call is taken.
pub(crate) fn refusal<T>(answer: &Result<T, Fault>) -> u8 {
    match answer {
        Ok(_) => 0,
        Err(fault) => fault.number(),
    }
}

/// The refusal of the first keys, so many, and of the very first so many times more.
fn refused(alloc: Global, distinct: u64, again: u64) -> Result<u8, AllocError> {
    let mut keys = ranked(alloc, 0, distinct)?;
    for _i in 0..again {
        keys.push(key(0))?;
    }
    Ok(refusal(&KeySet::from_slice(&keys)))
}

#[test]
fn limits(rt: HostRuntime) -> Result<(), Fail> {
    for (distinct, again, want) in [
        (0, 0, 0),
        (1, 0, 0),
        (16, 0, 0),
        (17, 0, 2),
        (1, 1, 3),
        (15, 1, 3),
        (16, 1, 2),
        (2, 15, 2),
    ] {
        same(
            &rt,
            (distinct, again, refused(rt.alloc(), distinct, again)?),
            (distinct, again, want),
        );
    }
    Ok(())
}

#[test]
fn configurations(rt: HostRuntime) -> Result<(), Fail> {
    for (partitions, replicas, want) in [
        (1, 1, 0),
        (16, 7, 0),
        (0, 1, 4),
        (1, 0, 4),
        (17, 1, 4),
        (1, 8, 4),
        (0, 0, 4),
        (255, 255, 4),
    ] {
        let config = Config::new(partitions, replicas);
        same(
            &rt,
            (partitions, replicas, refusal(&config)),
            (partitions, replicas, want),
        );
    }
    Ok(())
}

#[test]
fn partitions_of_keys(rt: HostRuntime) -> Result<(), Fail> {
    for (partitions, key, want) in [
        (1, plain(9), 0),
        (3, plain(7), 1),
        (3, Key { table: 200, id: 7 }, 1),
        (16, plain(15), 15),
        (16, plain(16), 0),
        (16, plain(u64::MAX), 15),
    ] {
        let config = Config::new(partitions, 2)?;
        same(
            &rt,
            (key, partitions, config.partition_of(&key)),
            (key, partitions, want),
        );
    }
    Ok(())
}

/// A request that reads and writes keys of table 0.
pub(crate) fn txn(alloc: Global, reads: &[u64], writes: &[u64]) -> Result<Txn<u64>, Fault> {
    Ok(Txn {
        id: RequestId {
            client: 7,
            number: 1,
        },
        attempt: 1,
        args: 5,
        sets: Sets {
            reads: plain_set(alloc, reads)?,
            writes: plain_set(alloc, writes)?,
        },
    })
}

/// What a partition is to a request.
#[derive(Clone, Copy, Debug, PartialEq, Eq)]
enum Role {
    /// No participant.
    Absent,
    /// A participant that isn't active.
    Passive,
    /// An active participant, not the least one.
    Active,
    /// The least participant, which is active.
    Least,
    /// None of these, which is wrong.
    Mixed,
}

/// The role of one of four partitions.
fn role_of(txn: &Txn<u64>, config: &Config, partition: u8) -> Role {
    match (
        txn.is_participant(config, partition),
        txn.is_active(config, partition),
        txn.is_least_participant(config, partition),
    ) {
        (false, false, false) => Role::Absent,
        (true, false, false) => Role::Passive,
        (true, true, false) => Role::Active,
        (true, true, true) => Role::Least,
        _ => Role::Mixed,
    }
}

/// The roles of four partitions in a request that reads and writes these keys.
fn roles(alloc: Global, reads: &[u64], writes: &[u64]) -> Result<[Role; 4], Fault> {
    let config = Config::new(4, 1)?;
    let txn = txn(alloc, reads, writes)?;
    Ok([
        role_of(&txn, &config, 0),
        role_of(&txn, &config, 1),
        role_of(&txn, &config, 2),
        role_of(&txn, &config, 3),
    ])
}

#[test]
fn participants_where_nothing_is_written(rt: HostRuntime) -> Result<(), Fail> {
    for (reads, want) in [
        (
            [9, 2].as_slice(),
            [Role::Absent, Role::Least, Role::Passive, Role::Absent],
        ),
        // It declares nothing.
        (&[], [Role::Absent; 4]),
    ] {
        same(&rt, (reads, roles(rt.alloc(), reads, &[])?), (reads, want));
    }
    Ok(())
}

#[test]
fn participants_of_a_single_key(rt: HostRuntime) -> Result<(), Fail> {
    let want = [Role::Absent, Role::Absent, Role::Least, Role::Absent];
    for (reads, writes) in [([].as_slice(), [6].as_slice()), (&[6], &[6])] {
        same(
            &rt,
            (reads, writes, roles(rt.alloc(), reads, writes)?),
            (reads, writes, want),
        );
    }
    Ok(())
}

#[test]
fn participants_that_read_and_write(rt: HostRuntime) -> Result<(), Fail> {
    for (reads, writes, want) in [
        // It writes above the least partition, with and without reading in a third one.
        (
            [0, 7].as_slice(),
            [7].as_slice(),
            [Role::Least, Role::Absent, Role::Absent, Role::Active],
        ),
        (
            &[1, 2, 3],
            &[3],
            [Role::Absent, Role::Least, Role::Passive, Role::Active],
        ),
        // It writes in the least partition and reads above.
        (
            &[3],
            &[4],
            [Role::Least, Role::Absent, Role::Absent, Role::Passive],
        ),
    ] {
        same(
            &rt,
            (reads, writes, roles(rt.alloc(), reads, writes)?),
            (reads, writes, want),
        );
    }
    Ok(())
}
