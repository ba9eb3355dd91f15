//! Two sequencers and two merges side by side, where what is refused for want of memory is asked for once more: until then the one is
//! like the other. With ample memory nothing is refused. `rt try --test --fail-alloc N` refuses the Nth allocation of a test: for
//! each N, from 1 until `nothing_refused` has passed for many in turn, `refused_once` has to pass (`tools/check_refusals`).
use crate::checks::same;
use crate::merge::txn;
use crate::scarce_types::batched;
use calvin_order::{Merge, Sequencer};
use calvin_types::{Batch, Config, Fault, Key, KeySet, Place, Sets, Slot, Txn};
use std::alloc::Global;
use std::process::Abort;
use std::test::Fail;

/// So many epochs are closed.
const EPOCHS: u64 = 4;

/// What is called of a sequencer.
#[derive(Clone, Copy, Debug, PartialEq, Eq)]
enum Call {
    Submit(u32),
    SubmitCold(u32),
    Close,
    /// The batch that is handed in is that of an epoch.
    Decided(u64),
    ReserveSubmit,
    ReserveSubmitCold,
    ReserveClose,
    ReserveDecided(u64),
}

/// A request with a key.
fn keyed(number: u32) -> Txn<u32> {
    Txn {
        sets: Sets {
            reads: KeySet::of(Key { table: 0, id: 1 }),
            writes: KeySet::new(),
        },
        ..txn(number)
    }
}

fn make(sequencer: &mut Sequencer<u32>, batch: &Batch<u32>, called: Call) -> Result<(), Fault> {
    match called {
        Call::Submit(number) => sequencer.submit(keyed(number)),
        Call::SubmitCold(number) => sequencer.submit_cold(keyed(number)),
        Call::Close => sequencer.close().map(|_epoch| ()),
        Call::Decided(epoch) => sequencer.decided(epoch, batch),
        Call::ReserveSubmit => sequencer.reserve_submit(),
        Call::ReserveSubmitCold => sequencer.reserve_submit_cold(),
        Call::ReserveClose => sequencer.reserve_close(),
        Call::ReserveDecided(epoch) => sequencer.reserve_decided(epoch),
    }
}

/// The sequencers tell the same of themselves.
fn check_alike(rt: &impl Abort, one: &Sequencer<u32>, other: &Sequencer<u32>) {
    same(rt, one.next_epoch(), other.next_epoch());
    same(rt, one.queued(), other.queued());
    same(rt, one.held_back(), other.held_back());
    for epoch in 0..EPOCHS {
        same(rt, one.closed(epoch) == other.closed(epoch), true);
    }
}

/// A call is made of a sequencer, if not at once then with memory: where it is refused the sequencer is like the other one, and then
/// like that one after the same call. Says how often it was refused.
fn endure(
    rt: &impl Abort,
    one: &mut Sequencer<u32>,
    other: &mut Sequencer<u32>,
    batch: &Batch<u32>,
    called: Call,
) -> u32 {
    let mut refused: u32 = 0;
    let mut ended = make(one, batch, called);
    if ended == Err(Fault::OutOfMemory) {
        check_alike(rt, one, other);
        refused = 1;
        ended = make(one, batch, called);
    }
    same(rt, (called, ended), (called, Ok(())));
    let mut beside = make(other, batch, called);
    if beside == Err(Fault::OutOfMemory) {
        refused = refused.saturating_add(1);
        beside = make(other, batch, called);
    }
    same(rt, (called, beside), (called, Ok(())));
    check_alike(rt, one, other);
    refused
}

/// Ten requests are queued and two held back for a closing; of the decided batch of epoch 0 nine are missing, which are closed
/// again in epoch 1, before the two and one more.
fn calls() -> [Call; 26] {
    [
        Call::ReserveSubmit,
        Call::Submit(1),
        Call::ReserveSubmitCold,
        Call::SubmitCold(21),
        Call::SubmitCold(22),
        Call::Submit(2),
        Call::Submit(3),
        Call::Submit(4),
        Call::Submit(5),
        Call::Submit(6),
        Call::Submit(7),
        Call::Submit(8),
        Call::Submit(9),
        Call::Submit(10),
        Call::ReserveClose,
        Call::Close,
        Call::ReserveDecided(0),
        Call::Decided(0),
        Call::Submit(11),
        Call::Close,
        Call::Close,
        Call::Submit(12),
        Call::Decided(2),
        Call::ReserveClose,
        Call::Close,
        Call::Decided(1),
    ]
}

/// The batch that was closed for an epoch has requests of these numbers.
fn check_closed(rt: &impl Abort, sequencer: &Sequencer<u32>, epoch: u64, numbers: &[u32]) {
    let Some(batch) = sequencer.closed(epoch) else {
        panic!(rt; "epoch {epoch} is open");
    };
    same(rt, (epoch, batch.len()), (epoch, numbers.len()));
    for (closed, number) in batch.as_slice().iter().zip(numbers.iter()) {
        same(rt, (epoch, closed.id.number), (epoch, *number));
    }
}

fn sequence(
    rt: &impl Abort,
    one: &mut Sequencer<u32>,
    other: &mut Sequencer<u32>,
    batch: &Batch<u32>,
) -> u32 {
    let mut refused: u32 = 0;
    for called in calls() {
        refused = refused.saturating_add(endure(rt, one, other, batch, called));
    }
    check_closed(rt, one, 0, &[1, 2, 3, 4, 5, 6, 7, 8, 9, 10]);
    check_closed(rt, one, 1, &[2, 3, 4, 5, 6, 7, 8, 9, 10, 21, 22, 11]);
    check_closed(rt, one, 2, &[]);
    check_closed(rt, one, 3, &[12]);
    refused
}

/// How many calls of sequencers were refused.
fn sequencers_endured(rt: &impl Abort, alloc: Global) -> Result<u32, Fault> {
    let (batch, at_batch) = batched(alloc, &[1])?;
    let mut one = Sequencer::new(alloc, 1);
    let mut other = Sequencer::new(alloc, 1);
    let refused = sequence(rt, &mut one, &mut other, &batch);
    drop(other);
    drop(one);
    drop(batch);
    Ok(at_batch.saturating_add(refused))
}

/// The merges hold the same batches, and take the same epoch next.
fn check_hold_alike(rt: &impl Abort, one: &Merge<u32>, other: &Merge<u32>) {
    same(rt, one.next(), other.next());
    for epoch in 0..EPOCHS {
        for group in 0..2 {
            let slot = Slot { epoch, group };
            same(rt, one.held(slot) == other.held(slot), true);
        }
    }
}

/// A batch comes to be held by a merge, if not at once then with memory. Says how often it was refused.
fn hold(
    rt: &impl Abort,
    one: &mut Merge<u32>,
    other: &Merge<u32>,
    slot: Slot,
    batch: &Batch<u32>,
) -> Result<u32, Fault> {
    let ended = one.hold(slot, batch.copy()?);
    if ended == Err(Fault::OutOfMemory) {
        check_hold_alike(rt, one, other);
        same(rt, one.hold(slot, batch.copy()?), Ok(true));
        return Ok(1);
    }
    same(rt, ended, Ok(true));
    Ok(0)
}

/// The same of both merges.
fn hold_both(
    rt: &impl Abort,
    one: &mut Merge<u32>,
    other: &mut Merge<u32>,
    slot: Slot,
    batch: &Batch<u32>,
) -> Result<u32, Fault> {
    let refused = hold(rt, one, other, slot, batch)?;
    let beside = match other.hold(slot, batch.copy()?) {
        Err(Fault::OutOfMemory) => {
            same(rt, other.hold(slot, batch.copy()?), Ok(true));
            1
        }
        ended => {
            same(rt, ended, Ok(true));
            0
        }
    };
    check_hold_alike(rt, one, other);
    Ok(refused.saturating_add(beside))
}

/// There comes to be room for one more batch, or for the requests of the next epoch.
fn make_room(rt: &impl Abort, one: &mut Merge<u32>, other: &Merge<u32>) -> u32 {
    let mut refused: u32 = 0;
    if one.reserve_hold() == Err(Fault::OutOfMemory) {
        check_hold_alike(rt, one, other);
        same(rt, one.reserve_hold(), Ok(()));
        refused = 1;
    }
    if one.reserve_take_epoch() == Err(Fault::OutOfMemory) {
        check_hold_alike(rt, one, other);
        same(rt, one.reserve_take_epoch(), Ok(()));
        refused = refused.saturating_add(1);
    }
    refused
}

/// These are the requests of both groups.
fn check_requests(rt: &impl Abort, epoch: u64, requests: &[(Place, Txn<u32>)]) {
    let mut n = 0;
    for (place, request) in requests {
        same(rt, *place, Place { epoch, n });
        same(rt, request.id.number, [1, 2, 1, 2][n as usize % 4]);
        n = n.saturating_add(1);
    }
    same(rt, n, 4);
}

/// The requests of the next epoch are told, a segment for each group, if not at once then with memory.
fn read(rt: &impl Abort, one: &Merge<u32>) -> Result<u32, Fault> {
    let (segments, refused) = match one.next_segments() {
        Err(Fault::OutOfMemory) => (one.next_segments()?, 1),
        made => (made?, 0),
    };
    same(rt, segments.len(), 2);
    drop(segments);
    Ok(refused)
}

/// The next epoch is taken, if not at once then with memory.
fn take(
    rt: &impl Abort,
    one: &mut Merge<u32>,
    other: &Merge<u32>,
    epoch: u64,
) -> Result<u32, Fault> {
    let (requests, refused) = match one.take_epoch() {
        Err(Fault::OutOfMemory) => {
            check_hold_alike(rt, one, other);
            (one.take_epoch()?, 1)
        }
        made => (made?, 0),
    };
    check_requests(rt, epoch, &requests);
    drop(requests);
    Ok(refused)
}

/// Batches of two groups are held for epochs, and taken.
fn merge_epochs(
    rt: &impl Abort,
    one: &mut Merge<u32>,
    other: &mut Merge<u32>,
    batch: &Batch<u32>,
) -> Result<u32, Fault> {
    let mut refused: u32 = 0;
    for epoch in 0..EPOCHS {
        for group in 0..2 {
            let slot = Slot { epoch, group };
            let more = hold_both(rt, one, other, slot, batch)?;
            refused = refused.saturating_add(more);
        }
        refused = refused.saturating_add(read(rt, one)?);
        if epoch > 1 {
            refused = refused.saturating_add(make_room(rt, one, other));
        }
        refused = refused.saturating_add(take(rt, one, other, epoch)?);
        same(rt, other.pass_epoch(), Ok(()));
        check_hold_alike(rt, one, other);
    }
    Ok(refused)
}

/// How many calls of merges were refused.
fn merges_endured(rt: &impl Abort, alloc: Global) -> Result<u32, Fault> {
    let config = Config::new(2, 1)?;
    let (batch, at_batch) = batched(alloc, &[1, 2])?;
    let mut one = Merge::new(alloc, &config);
    let mut other = Merge::new(alloc, &config);
    let merged = merge_epochs(rt, &mut one, &mut other, &batch);
    drop(other);
    drop(one);
    drop(batch);
    Ok(at_batch.saturating_add(merged?))
}

fn endured(rt: &impl Abort, alloc: Global) -> Result<u32, Fault> {
    let at_sequencers = sequencers_endured(rt, alloc)?;
    Ok(at_sequencers.saturating_add(merges_endured(rt, alloc)?))
}

#[test]
fn nothing_refused(rt: HostRuntime) -> Result<(), Fail> {
    same(&rt, endured(&rt, rt.alloc())?, 0);
    Ok(())
}

#[test]
fn refused_once(rt: HostRuntime) -> Result<(), Fail> {
    same(&rt, endured(&rt, rt.alloc())? <= 1, true);
    Ok(())
}
