//! Two lock managers side by side, where a request for locks that is refused for want of memory is made once more: until then the one
//! is like the other. With ample memory nothing is refused. `rt try --test --fail-alloc N` refuses the Nth allocation of a test: for
//! each N, from 1 until `nothing_refused` has passed for many in turn, `refused_once` has to pass (`tools/check_refusals`).
use crate::checks::same;
use crate::kv::{key, set};
use calvin_lock::{ListLocks, Locks, QueueLocks};
use calvin_types::{Fault, KeySet, Place};
use std::alloc::Global;
use std::process::Abort;
use std::test::Fail;

/// So many places ask for locks.
const PLACES: u32 = 24;

fn place(n: u32) -> Place {
    Place { epoch: 0, n }
}

/// The keys that a place reads, and those that it writes: each place reads a key that the fifth one after it reads too, and writes
/// one that the seventh one after it writes. Each second place reads two keys and writes three besides, which are read and written by
/// the tenth and the fourteenth one after it: so many keys take memory of their own.
fn keys(n: u32) -> Result<(KeySet, KeySet), Fault> {
    let shared = u64::from(n % 5);
    let written = u64::from(n % 7).saturating_add(10);
    if n % 2 == 0 {
        return Ok((set(&[shared])?, set(&[written])?));
    }
    let (mut reads, mut writes) = (set(&[shared])?, set(&[written])?);
    for more in [50, 60] {
        reads.insert(key(shared.saturating_add(more)))?;
    }
    for more in [10, 20, 30] {
        writes.insert(key(written.saturating_add(more)))?;
    }
    Ok((reads, writes))
}

/// The lock managers tell the same.
fn check_alike<L: Locks>(rt: &impl Abort, one: &L, other: &L) {
    for n in 0..PLACES {
        let (found, wanted) = (one.is_ready(place(n)), other.is_ready(place(n)));
        same(rt, (n, found), (n, wanted));
    }
    same(rt, one.first_ready(None), other.first_ready(None));
}

/// A place asks for its locks, if not at once then with memory. Says how often it was refused in either.
fn endure<L: Locks>(rt: &impl Abort, one: &mut L, other: &mut L, n: u32) -> Result<u32, Fault> {
    let (reads, writes) = keys(n)?;
    let mut refused: u32 = 0;
    let mut ended = one.request(place(n), &reads, &writes);
    if ended == Err(Fault::OutOfMemory) {
        check_alike(rt, one, other);
        refused = 1;
        ended = one.request(place(n), &reads, &writes);
    }
    same(rt, (n, ended), (n, Ok(())));
    let mut beside = other.request(place(n), &reads, &writes);
    if beside == Err(Fault::OutOfMemory) {
        refused = refused.saturating_add(1);
        beside = other.request(place(n), &reads, &writes);
    }
    same(rt, (n, beside), (n, Ok(())));
    check_alike(rt, one, other);
    Ok(refused)
}

/// All places ask for their locks. The first seven write keys that no place before them writes; each other one waits for the seventh
/// before it. In the end they give their locks back in turn.
fn lock_all<L: Locks>(rt: &impl Abort, one: &mut L, other: &mut L) -> Result<u32, Fault> {
    let mut refused: u32 = 0;
    for n in 0..PLACES {
        refused = refused.saturating_add(endure(rt, one, other, n)?);
        same(rt, (n, one.is_ready(place(n))), (n, n < 7));
    }
    for n in 0..PLACES {
        same(rt, one.first_ready(None), Some(place(n)));
        same(rt, (n, one.release(place(n))), (n, Ok(())));
        same(rt, (n, other.release(place(n))), (n, Ok(())));
        check_alike(rt, one, other);
    }
    same(rt, one.first_ready(None), None);
    Ok(refused)
}

fn endured_by<L: Locks + Drop>(rt: &impl Abort, alloc: Global) -> Result<u32, Fault> {
    let mut one = L::empty(alloc);
    let mut other = L::empty(alloc);
    let refused = lock_all(rt, &mut one, &mut other);
    drop(other);
    drop(one);
    refused
}

/// How many requests for locks were refused.
fn endured(rt: &impl Abort, alloc: Global) -> Result<u32, Fault> {
    let at_lists = endured_by::<ListLocks>(rt, alloc)?;
    Ok(at_lists.saturating_add(endured_by::<QueueLocks>(rt, alloc)?))
}

#[test]
fn nothing_refused(rt: HostRuntime) -> Result<(), Fail> {
    same(&rt, endured(&rt, rt.alloc())?, 0);
    Ok(())
}

#[test]
fn refused_once(rt: HostRuntime) -> Result<(), Fail> {
    same(&rt, endured(&rt, rt.alloc())? <= 1, true);
    Ok(())
}
