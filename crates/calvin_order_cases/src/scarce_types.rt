//! What is shared, requests and batches among it, and maps with room, where what is refused for want of memory is asked for once
//! more. With ample memory nothing is refused. `rt try --test --fail-alloc N` refuses the Nth allocation of a test: for each N, from
//! 1 until `nothing_refused` has passed for many in turn, `refused_once` has to pass (`tools/check_refusals`).
use crate::checks::same;
use crate::keys::refusal;
use crate::merge::txn;
use calvin_shared_txn::SharedTxn;
use calvin_types::{Batch, Fault, RoomMap, Shared, Slot, Txn};
use std::alloc::Global;
use std::process::Abort;
use std::test::Fail;

/// So many values are put in a map.
const VALUES: u64 = 40;

type Values = RoomMap<Slot, u64>;

fn list_of(alloc: Global, numbers: &[u32]) -> Result<Vec<Txn<u32>>, Fault> {
    let mut txns = Vec::new(alloc);
    for number in numbers {
        txns.push(txn(*number))?;
    }
    Ok(txns)
}

/// A list of requests of these numbers, made once more where that was refused, and how often it was.
fn listed(alloc: Global, numbers: &[u32]) -> Result<(Vec<Txn<u32>>, u32), Fault> {
    match list_of(alloc, numbers) {
        Err(Fault::OutOfMemory) => Ok((list_of(alloc, numbers)?, 1)),
        made => Ok((made?, 0)),
    }
}

/// The requests have these numbers.
fn check_numbers(rt: &impl Abort, txns: &[Txn<u32>], numbers: &[u32]) {
    same(rt, txns.len(), numbers.len());
    for (found, number) in txns.iter().zip(numbers.iter()) {
        same(rt, found.id.number, *number);
    }
}

/// A batch of requests of these numbers, made once more of another list where that was refused, and how often it was.
pub(crate) fn batched(alloc: Global, numbers: &[u32]) -> Result<(Batch<u32>, u32), Fault> {
    let (txns, refused) = listed(alloc, numbers)?;
    match Batch::new(alloc, txns) {
        Err(Fault::OutOfMemory) => {
            let (txns, once_more) = listed(alloc, numbers)?;
            let batch = Batch::new(alloc, txns)?;
            Ok((batch, refused.saturating_add(once_more).saturating_add(1)))
        }
        made => Ok((made?, refused)),
    }
}

/// A batch has its requests, and so has another owner of it.
fn batch_endured(rt: &impl Abort, alloc: Global) -> Result<u32, Fault> {
    let (batch, refused) = batched(alloc, &[1, 2, 3])?;
    check_numbers(rt, batch.as_slice(), &[1, 2, 3]);
    let other = batch.copy()?;
    same(rt, batch == other, true);
    drop(other);
    drop(batch);
    Ok(refused)
}

/// What is to be shared is handed back where that is refused, and is then shared.
fn shared_endured(rt: &impl Abort, alloc: Global) -> Result<u32, Fault> {
    let (txns, mut refused) = listed(alloc, &[4, 5])?;
    let shared = match Shared::new(alloc, txns) {
        Ok(shared) => shared,
        Err(failed) => {
            refused = refused.saturating_add(1);
            check_numbers(rt, failed.value.as_slice(), &[4, 5]);
            Shared::new(alloc, failed.value)?
        }
    };
    check_numbers(rt, shared.as_slice(), &[4, 5]);
    drop(shared);
    Ok(refused)
}

/// A request that is copied, if not at once then with memory, is the same.
fn shared_txn_endured(rt: &impl Abort, alloc: Global) -> Result<u32, Fault> {
    let (one, refused) = match SharedTxn::of(alloc, &txn(6)) {
        Err(Fault::OutOfMemory) => (SharedTxn::of(alloc, &txn(6))?, 1),
        made => (made?, 0),
    };
    same(rt, one.get().id.number, 6);
    Ok(refused)
}

fn slot(epoch: u64) -> Slot {
    Slot { epoch, group: 0 }
}

/// A map has so many values, and no other one.
fn check_values(rt: &impl Abort, map: &Values, values: u64) {
    for epoch in 0..VALUES {
        let wanted = if epoch < values { Some(epoch) } else { None };
        same(rt, (epoch, map.get(slot(epoch)).copied()), (epoch, wanted));
    }
}

/// The next value is put in a map, if not at once then with memory. Says how often it was refused.
fn put(rt: &impl Abort, map: &mut Values, value: u64) -> u32 {
    if refusal(&map.insert(slot(value), value)) == 0 {
        return 0;
    }
    check_values(rt, map, value);
    same(rt, map.insert(slot(value), value), Ok(()));
    1
}

/// There comes to be room for some values, if not at once then with memory. Says how often it was refused.
fn leave_room(rt: &impl Abort, map: &mut Values, values: u64) -> u32 {
    if refusal(&map.reserve(100)) == 0 {
        return 0;
    }
    check_values(rt, map, values);
    same(rt, map.reserve(100), Ok(()));
    1
}

fn fill(rt: &impl Abort, map: &mut Values) -> u32 {
    let mut refused: u32 = 0;
    for value in 0..VALUES {
        refused = refused.saturating_add(put(rt, map, value));
    }
    check_values(rt, map, VALUES);
    refused = refused.saturating_add(leave_room(rt, map, VALUES));
    check_values(rt, map, VALUES);
    refused
}

/// How many calls were refused.
fn endured(rt: &impl Abort, alloc: Global) -> Result<u32, Fault> {
    let at_batch = batch_endured(rt, alloc)?;
    let at_shared = shared_endured(rt, alloc)?.saturating_add(shared_txn_endured(rt, alloc)?);
    let mut map: Values = RoomMap::new(alloc);
    let at_map = fill(rt, &mut map);
    drop(map);
    Ok(at_batch.saturating_add(at_shared).saturating_add(at_map))
}

#[test]
fn nothing_refused(rt: HostRuntime) -> Result<(), Fail> {
    same(&rt, endured(&rt, rt.alloc())?, 0);
    Ok(())
}

#[test]
fn refused_once(rt: HostRuntime) -> Result<(), Fail> {
    same(&rt, endured(&rt, rt.alloc())? <= 1, true);
    Ok(())
}
