//! What a merge holds and gives, with exact numbers, and each public call once.
use crate::checks::same;
use calvin_order::{EpochRequests, Merge};
use calvin_types::{Batch, Config, Fault, KeySet, Place, RequestId, Sets, Slot, Txn};
use std::alloc::Global;
use std::process::Abort;
use std::test::Fail;

/// A request that is told from others by its number.
pub(crate) fn txn(number: u32) -> Txn<u32> {
    Txn {
        id: RequestId { client: 7, number },
        attempt: 1,
        args: number,
        sets: Sets {
            reads: KeySet::new(),
            writes: KeySet::new(),
        },
    }
}

fn batch(alloc: Global, numbers: &[u32]) -> Result<Batch<u32>, Fault> {
    let mut txns = Vec::new(alloc);
    for number in numbers {
        txns.push(txn(*number))?;
    }
    Batch::new(alloc, txns)
}

fn merge_of(alloc: Global, partitions: u8) -> Result<Merge<u32>, Fault> {
    Ok(Merge::new(alloc, &Config::new(partitions, 1)?))
}

/// What holding a batch of requests of these numbers answers.
fn held(
    alloc: Global,
    merge: &mut Merge<u32>,
    epoch: u64,
    group: u8,
    numbers: &[u32],
) -> Result<bool, Fault> {
    merge.hold(Slot { epoch, group }, batch(alloc, numbers)?)
}

/// A batch of requests of these numbers comes to be held.
pub(crate) fn hold(
    rt: &impl Abort,
    alloc: Global,
    merge: &mut Merge<u32>,
    epoch: u64,
    group: u8,
    numbers: &[u32],
) {
    let is_new = held(alloc, merge, epoch, group, numbers);
    same(rt, (epoch, group, is_new), (epoch, group, Ok(true)));
}

/// What was taken are requests of these numbers, at the places of an epoch in turn.
fn check_taken(rt: &impl Abort, taken: &[(Place, Txn<u32>)], epoch: u64, numbers: &[u32]) {
    same(rt, taken.len(), numbers.len());
    let mut n = 0;
    for (number, (place, txn)) in numbers.iter().zip(taken.iter()) {
        same(rt, *place, Place { epoch, n });
        same(rt, txn.id.number, *number);
        n = n.saturating_add(1);
    }
}

/// Takes the next epoch, and compares the places and the numbers of its requests.
pub(crate) fn gives(rt: &impl Abort, merge: &mut Merge<u32>, epoch: u64, numbers: &[u32]) {
    same(rt, merge.next(), Some(epoch));
    match merge.take_epoch() {
        Ok(taken) => check_taken(rt, &taken, epoch, numbers),
        Err(fault) => same(rt, Err(fault), Ok(epoch)),
    }
}

/// The next epoch can't be taken, since a batch is missing.
fn lacks(rt: &impl Abort, merge: &mut Merge<u32>) {
    let taken = merge.take_epoch().map(|taken| taken.len());
    same(rt, taken, Err(Fault::NotComplete));
}

#[test]
fn groups_ascend(rt: HostRuntime) -> Result<(), Fail> {
    let alloc = rt.alloc();
    let mut merge = merge_of(alloc, 3)?;
    hold(&rt, alloc, &mut merge, 0, 2, &[5, 4]);
    hold(&rt, alloc, &mut merge, 0, 0, &[9, 1]);
    hold(&rt, alloc, &mut merge, 0, 1, &[3]);
    gives(&rt, &mut merge, 0, &[9, 1, 3, 5, 4]);
    drop(merge);
    Ok(())
}

/// Goes along the requests of an epoch where they stand, and compares their places and numbers.
pub(crate) fn shows(
    rt: &impl Abort,
    merge: &Merge<u32>,
    config: &Config,
    epoch: u64,
    numbers: &[u32],
) {
    let mut n = 0;
    for (place, txn) in EpochRequests::new(merge, epoch, config) {
        same(rt, place, Place { epoch, n });
        same(rt, Some(&txn.id.number), numbers.get(n as usize));
        n = n.saturating_add(1);
    }
    same(rt, n as usize, numbers.len());
}

#[test]
fn requests_where_they_stand(rt: HostRuntime) -> Result<(), Fail> {
    let alloc = rt.alloc();
    let config = Config::new(2, 1)?;
    let mut merge = merge_of(alloc, 2)?;
    hold(&rt, alloc, &mut merge, 0, 1, &[5, 4]);
    shows(&rt, &merge, &config, 0, &[5, 4]);
    same(&rt, merge.pass_epoch(), Err(Fault::NotComplete));
    hold(&rt, alloc, &mut merge, 0, 0, &[9]);
    hold(&rt, alloc, &mut merge, 1, 0, &[7]);
    shows(&rt, &merge, &config, 0, &[9, 5, 4]);
    same(&rt, merge.pass_epoch(), Ok(()));
    same(&rt, merge.next(), Some(1));
    shows(&rt, &merge, &config, 1, &[7]);
    shows(&rt, &merge, &config, 2, &[]);
    drop(merge);
    Ok(())
}

#[test]
fn batches_discarded(rt: HostRuntime) -> Result<(), Fail> {
    let alloc = rt.alloc();
    let mut merge = merge_of(alloc, 2)?;
    hold(&rt, alloc, &mut merge, 0, 0, &[9]);
    hold(&rt, alloc, &mut merge, 0, 1, &[5, 4]);
    hold(&rt, alloc, &mut merge, 0, 2, &[3]);
    hold(&rt, alloc, &mut merge, 1, 0, &[7]);
    same(&rt, merge.pass_epoch(), Ok(()));
    for (epoch, group) in [(0, 0), (0, 1), (0, 2), (1, 0)] {
        same(&rt, merge.held(Slot { epoch, group }).is_some(), true);
    }
    merge.discard_epoch(0);
    for (epoch, group, there) in [(0, 0, false), (0, 1, false), (0, 2, true), (1, 0, true)] {
        same(&rt, merge.held(Slot { epoch, group }).is_some(), there);
    }
    same(&rt, merge.next(), Some(1));
    hold(&rt, alloc, &mut merge, 0, 1, &[6]);
    same(&rt, held(alloc, &mut merge, 0, 1, &[5]), Ok(false));
    drop(merge);
    Ok(())
}

#[test]
fn an_empty_batch(rt: HostRuntime) -> Result<(), Fail> {
    let alloc = rt.alloc();
    let mut merge = merge_of(alloc, 2)?;
    hold(&rt, alloc, &mut merge, 0, 0, &[]);
    hold(&rt, alloc, &mut merge, 0, 1, &[8]);
    gives(&rt, &mut merge, 0, &[8]);
    hold(&rt, alloc, &mut merge, 1, 0, &[]);
    hold(&rt, alloc, &mut merge, 1, 1, &[]);
    gives(&rt, &mut merge, 1, &[]);
    drop(merge);
    Ok(())
}

#[test]
fn a_missing_batch(rt: HostRuntime) -> Result<(), Fail> {
    let alloc = rt.alloc();
    let mut merge = merge_of(alloc, 2)?;
    hold(&rt, alloc, &mut merge, 0, 0, &[1]);
    hold(&rt, alloc, &mut merge, 1, 1, &[2]);
    hold(&rt, alloc, &mut merge, 0, 2, &[3]);
    same(&rt, merge.reserve_take_epoch(), Ok(()));
    lacks(&rt, &mut merge);
    same(&rt, merge.next(), Some(0));
    hold(&rt, alloc, &mut merge, 0, 1, &[4]);
    gives(&rt, &mut merge, 0, &[1, 4]);
    drop(merge);
    Ok(())
}

#[test]
fn several_epochs(rt: HostRuntime) -> Result<(), Fail> {
    let alloc = rt.alloc();
    let mut merge = merge_of(alloc, 2)?;
    for (epoch, group, number) in [
        (2, 1, 6),
        (1, 0, 3),
        (0, 1, 2),
        (2, 0, 5),
        (1, 1, 4),
        (0, 0, 1),
    ] {
        hold(&rt, alloc, &mut merge, epoch, group, &[number]);
    }
    gives(&rt, &mut merge, 0, &[1, 2]);
    gives(&rt, &mut merge, 1, &[3, 4]);
    gives(&rt, &mut merge, 2, &[5, 6]);
    same(&rt, merge.next(), Some(3));
    lacks(&rt, &mut merge);
    drop(merge);
    Ok(())
}

/// No epoch is left, though one is held.
fn is_spent(rt: &impl Abort, merge: &mut Merge<u32>) {
    same(rt, merge.next(), None);
    same(rt, merge.pass_epoch(), Err(Fault::NotComplete));
}

#[test]
fn past_the_last_epoch(rt: HostRuntime) -> Result<(), Fail> {
    let alloc = rt.alloc();
    let config = Config::new(1, 1)?;
    let mut last = Merge::from_epoch(alloc, &config, Some(u64::MAX));
    hold(&rt, alloc, &mut last, u64::MAX, 0, &[1]);
    gives(&rt, &mut last, u64::MAX, &[1]);
    is_spent(&rt, &mut last);
    drop(last);
    let mut spent = Merge::from_epoch(alloc, &config, None);
    hold(&rt, alloc, &mut spent, u64::MAX, 0, &[1]);
    is_spent(&rt, &mut spent);
    drop(spent);
    Ok(())
}

/// A batch is held for an epoch, and taken, for which room was reserved.
fn hold_reserved(
    rt: &impl Abort,
    alloc: Global,
    merge: &mut Merge<u32>,
    epoch: u64,
) -> Result<(), Fault> {
    let numbers = batch(alloc, &[1, 2, 3])?;
    merge.reserve_hold()?;
    same(rt, merge.hold(Slot { epoch, group: 0 }, numbers), Ok(true));
    merge.reserve_take_epoch()?;
    gives(rt, merge, epoch, &[1, 2, 3]);
    Ok(())
}

#[test]
fn reserved(rt: HostRuntime) -> Result<(), Fail> {
    let mut merge = merge_of(rt.alloc(), 1)?;
    for epoch in 0..40 {
        let held = hold_reserved(&rt, rt.alloc(), &mut merge, epoch);
        same(&rt, (epoch, held), (epoch, Ok(())));
    }
    drop(merge);
    Ok(())
}

/// A batch comes to be held where memory is refused once: then nothing is held, and the same call made again does its work.
fn hold_refused_once(
    rt: &impl Abort,
    merge: &mut Merge<u32>,
    held: Batch<u32>,
) -> Result<(), Fault> {
    let again = held.copy()?;
    let slot = Slot { epoch: 0, group: 0 };
    if let Err(fault) = merge.hold(slot, held) {
        same(rt, fault.number(), 1);
        same(rt, merge.held(slot).is_none(), true);
        same(rt, merge.hold(slot, again), Ok(true));
    }
    Ok(())
}

/// An epoch is taken where memory is refused once: then it still is the next one, and is taken when that is tried again.
fn take_refused_once(rt: &impl Abort, merge: &mut Merge<u32>, numbers: &[u32]) {
    if let Err(fault) = merge.reserve_take_epoch() {
        same(rt, fault.number(), 1);
    }
    match merge.take_epoch() {
        Ok(taken) => check_taken(rt, &taken, 0, numbers),
        Err(fault) => {
            same(rt, fault.number(), 1);
            gives(rt, merge, 0, numbers);
        }
    }
}

/// Where memory is refused once, nothing has changed, and the same call made again does its work.
#[test]
fn refused_once(rt: HostRuntime) -> Result<(), Fail> {
    let alloc = rt.alloc();
    let numbers = [1, 2, 3];
    let whole = batch(alloc, &numbers).or_else(|_fault| batch(alloc, &numbers))?;
    let mut merge = merge_of(alloc, 1)?;
    let held = hold_refused_once(&rt, &mut merge, whole);
    if held.is_ok() {
        take_refused_once(&rt, &mut merge, &numbers);
    }
    drop(merge);
    held?;
    Ok(())
}

#[test]
fn law(_rt: HostRuntime) {
    calvin_order::orders_rise::<u32>();
}
