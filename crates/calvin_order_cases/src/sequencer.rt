//! The worked case `limits` of the queue; what is left over and what is held back, by numbers; and each public call once.
use crate::checks::same;
use crate::keys::{refusal, txn};
use calvin_order::Sequencer;
use calvin_types::{Batch, Fault, MOST_EPOCHS, RequestId, Txn};
use std::alloc::Global;
use std::process::Abort;
use std::test::Fail;

/// A request that is told from others by its number, at this attempt.
fn request(alloc: Global, number: u32, attempt: u8) -> Result<Txn<u64>, Fault> {
    let id = RequestId { client: 7, number };
    Ok(Txn {
        id,
        attempt,
        ..txn(alloc, &[1], &[])?
    })
}

/// A request of this number is submitted.
fn submit(alloc: Global, sequencer: &mut Sequencer<u64>, number: u32) -> Result<(), Fault> {
    sequencer.submit(request(alloc, number, 1)?)
}

/// A request of this number is submitted, and held back.
fn submit_cold(alloc: Global, sequencer: &mut Sequencer<u64>, number: u32) -> Result<(), Fault> {
    sequencer.submit_cold(request(alloc, number, 1)?)
}

/// Requests that are numbered from `first` on, so many of them, are submitted.
fn submit_many(
    alloc: Global,
    sequencer: &mut Sequencer<u64>,
    first: u32,
    count: u32,
) -> Result<(), Fault> {
    for i in 0..count {
        submit(alloc, sequencer, first.saturating_add(i))?;
    }
    Ok(())
}

/// The batch that was closed for an epoch has requests of these numbers.
fn has_closed(rt: &impl Abort, sequencer: &Sequencer<u64>, epoch: u64, numbers: &[u32]) {
    match sequencer.closed(epoch) {
        Some(batch) => {
            same(rt, (epoch, batch.len()), (epoch, numbers.len()));
            for (number, txn) in numbers.iter().zip(batch.as_slice().iter()) {
                same(rt, (epoch, txn.id.number), (epoch, *number));
            }
        }
        None => same(rt, (epoch, "open"), (epoch, "closed")),
    }
}

/// Closes the next batch, which is that of this epoch and has requests of these numbers.
fn closes(
    rt: &impl Abort,
    sequencer: &mut Sequencer<u64>,
    epoch: u64,
    numbers: &[u32],
) -> Result<(), Fault> {
    same(rt, sequencer.next_epoch(), Some(epoch));
    same(rt, sequencer.close(), Ok(epoch));
    has_closed(rt, sequencer, epoch, numbers);
    Ok(())
}

/// The queue is full: a request of this number is refused.
fn is_full(
    rt: &impl Abort,
    alloc: Global,
    sequencer: &mut Sequencer<u64>,
    number: u32,
) -> Result<(), Fault> {
    let submitted = sequencer.submit(request(alloc, number, 1)?);
    same(rt, refusal(&submitted), 30);
    Ok(())
}

/// A queue takes 4,096 requests.
fn limit_of_a_queue(
    rt: &impl Abort,
    alloc: Global,
    sequencer: &mut Sequencer<u64>,
) -> Result<(), Fault> {
    submit_many(alloc, sequencer, 0, 4096)?;
    is_full(rt, alloc, sequencer, 4096)?;
    let submitted = sequencer.submit_cold(request(alloc, 4096, 1)?);
    same(rt, refusal(&submitted), 30);
    same(rt, sequencer.queued(), 4096);
    Ok(())
}

/// A batch takes 256 requests.
fn limit_of_a_batch(
    rt: &impl Abort,
    alloc: Global,
    sequencer: &mut Sequencer<u64>,
) -> Result<(), Fault> {
    submit_many(alloc, sequencer, 0, 257)?;
    for (epoch, size, queued) in [(0, 256, 1), (1, 1, 0), (2, 0, 0)] {
        same(rt, sequencer.close(), Ok(epoch));
        let closed = sequencer.closed(epoch).map(|batch| batch.len());
        same(rt, closed, Some(size));
        same(rt, sequencer.queued(), queued);
    }
    has_closed(rt, sequencer, 1, &[256]);
    Ok(())
}

#[test]
fn limits(rt: HostRuntime) -> Result<(), Fail> {
    let mut one = Sequencer::new(rt.alloc(), 0);
    let mut other = Sequencer::new(rt.alloc(), 0);
    let of_a_queue = limit_of_a_queue(&rt, rt.alloc(), &mut one);
    let of_a_batch = limit_of_a_batch(&rt, rt.alloc(), &mut other);
    drop(one);
    drop(other);
    of_a_queue?;
    of_a_batch?;
    Ok(())
}

/// Of 4,096 requests one is held back, and 256 are closed and not decided.
fn fill(rt: &impl Abort, alloc: Global, sequencer: &mut Sequencer<u64>) -> Result<(), Fault> {
    submit_many(alloc, sequencer, 0, 4095)?;
    same(rt, sequencer.close(), Ok(0));
    same(rt, submit_cold(alloc, sequencer, 4095), Ok(()));
    same(rt, (sequencer.queued(), sequencer.held_back()), (3839, 1));
    is_full(rt, alloc, sequencer, 4096)
}

/// Those that were closed are decided, and make room for as many.
fn fill_again(rt: &impl Abort, alloc: Global, sequencer: &mut Sequencer<u64>) -> Result<(), Fault> {
    let Some(batch) = sequencer.closed(0) else {
        return Ok(());
    };
    let batch = batch.copy()?;
    same(rt, sequencer.decided(0, &batch), Ok(()));
    submit_many(alloc, sequencer, 4096, 256)?;
    is_full(rt, alloc, sequencer, 5000)
}

/// The sequencer is filled, and filled again once what was closed is decided.
fn fill_twice(rt: &impl Abort, alloc: Global, sequencer: &mut Sequencer<u64>) -> Result<(), Fault> {
    fill(rt, alloc, sequencer)?;
    fill_again(rt, alloc, sequencer)
}

#[test]
fn what_counts_to_the_limit(rt: HostRuntime) -> Result<(), Fail> {
    let mut sequencer = Sequencer::new(rt.alloc(), 16);
    let outcome = fill_twice(&rt, rt.alloc(), &mut sequencer);
    drop(sequencer);
    outcome?;
    Ok(())
}

/// The refusals of a request that reads these keys and is submitted at this attempt, at once and for some closings.
fn refusals(
    alloc: Global,
    sequencer: &mut Sequencer<u64>,
    reads: &[u64],
    attempt: u8,
) -> Result<(u8, u8), Fault> {
    let submitted = sequencer.submit(Txn {
        attempt,
        ..txn(alloc, reads, &[])?
    });
    let held_back = sequencer.submit_cold(Txn {
        attempt,
        ..txn(alloc, reads, &[])?
    });
    Ok((refusal(&submitted), refusal(&held_back)))
}

/// These are the refusals, at once and for some closings, of a request of one key and of one of none.
fn refuses(
    rt: &impl Abort,
    alloc: Global,
    sequencer: &mut Sequencer<u64>,
    attempt: u8,
    keyed: u8,
    keyless: u8,
) -> Result<(), Fault> {
    let found = refusals(alloc, sequencer, &[1], attempt)?;
    same(rt, (attempt, found), (attempt, (keyed, keyed)));
    let found = refusals(alloc, sequencer, &[], attempt)?;
    same(rt, (attempt, found), (attempt, (keyless, keyless)));
    Ok(())
}

/// What an empty queue refuses is told, and of a full one only that it is full.
fn refuse_by_attempts(
    rt: &impl Abort,
    alloc: Global,
    empty: &mut Sequencer<u64>,
    full: &mut Sequencer<u64>,
) -> Result<(), Fault> {
    submit_many(alloc, full, 0, 4096)?;
    for (attempt, keyed, keyless) in [(0, 32, 31), (1, 0, 31), (8, 0, 31), (9, 32, 31)] {
        refuses(rt, alloc, empty, attempt, keyed, keyless)?;
        refuses(rt, alloc, full, attempt, 30, 30)?;
    }
    same(rt, (empty.queued(), empty.held_back()), (2, 2));
    Ok(())
}

#[test]
fn lesser_refusals_first(rt: HostRuntime) -> Result<(), Fail> {
    let mut empty = Sequencer::new(rt.alloc(), 1);
    let mut full = Sequencer::new(rt.alloc(), 1);
    let outcome = refuse_by_attempts(&rt, rt.alloc(), &mut empty, &mut full);
    drop(empty);
    drop(full);
    outcome?;
    Ok(())
}

/// A batch of requests of these numbers, each at its attempt.
fn batch(alloc: Global, requests: &[(u32, u8)]) -> Result<Batch<u64>, Fault> {
    let mut txns = Vec::new(alloc);
    for &(number, attempt) in requests {
        txns.push(request(alloc, number, attempt)?)?;
    }
    Batch::new(alloc, txns)
}

/// These are decided for an epoch.
fn decide(
    rt: &impl Abort,
    alloc: Global,
    sequencer: &mut Sequencer<u64>,
    epoch: u64,
    decided: &[(u32, u8)],
) -> Result<(), Fault> {
    let decided = batch(alloc, decided)?;
    same(rt, sequencer.decided(epoch, &decided), Ok(()));
    Ok(())
}

/// Requests 1, 2 and 3 are closed for epoch 0, and 4 is queued.
fn close_three(
    rt: &impl Abort,
    alloc: Global,
    sequencer: &mut Sequencer<u64>,
) -> Result<(), Fault> {
    submit_many(alloc, sequencer, 1, 3)?;
    closes(rt, sequencer, 0, &[1, 2, 3])?;
    submit(alloc, sequencer, 4)
}

/// Requests 1, 2 and 3 are closed for epoch 0, 4 is queued, and these are decided for an epoch: then the epoch `next` is closed
/// with these numbers.
fn leaves(
    rt: &impl Abort,
    alloc: Global,
    sequencer: &mut Sequencer<u64>,
    (epoch, decided): (u64, &[(u32, u8)]),
    next: u64,
    numbers: &[u32],
) -> Result<(), Fault> {
    close_three(rt, alloc, sequencer)?;
    decide(rt, alloc, sequencer, epoch, decided)?;
    decide(rt, alloc, sequencer, epoch, &[])?;
    same(rt, sequencer.queued(), numbers.len());
    has_closed(rt, sequencer, 0, &[1, 2, 3]);
    closes(rt, sequencer, next, numbers)
}

#[test]
fn leftover_requests(rt: HostRuntime) -> Result<(), Fail> {
    let cases: [(u64, &[(u32, u8)], u64, &[u32]); 7] = [
        (0, &[(1, 1), (2, 1), (3, 1)], 1, &[4]),
        (0, &[(2, 1)], 1, &[1, 3, 4]),
        (0, &[(9, 1), (3, 1)], 1, &[1, 2, 4]),
        (0, &[(1, 2), (2, 1)], 1, &[1, 3, 4]),
        (0, &[], 1, &[1, 2, 3, 4]),
        (1, &[], 2, &[4]),
        (2, &[(1, 1)], 1, &[4]),
    ];
    for (epoch, decided, next, numbers) in cases {
        let mut sequencer = Sequencer::new(rt.alloc(), 0);
        let left = leaves(
            &rt,
            rt.alloc(),
            &mut sequencer,
            (epoch, decided),
            next,
            numbers,
        );
        drop(sequencer);
        left?;
    }
    Ok(())
}

/// Requests 1 and 3 are held back, 2 is queued, a batch is closed; 4 is queued, 5 held back, and more are closed.
fn closes_in_turn(
    rt: &impl Abort,
    alloc: Global,
    sequencer: &mut Sequencer<u64>,
    batches: [&[u32]; 5],
) -> Result<(), Fault> {
    submit_cold(alloc, sequencer, 1)?;
    submit(alloc, sequencer, 2)?;
    submit_cold(alloc, sequencer, 3)?;
    closes(rt, sequencer, 0, batches[0])?;
    submit(alloc, sequencer, 4)?;
    submit_cold(alloc, sequencer, 5)?;
    for epoch in 1..5 {
        closes(rt, sequencer, epoch, batches[epoch as usize])?;
    }
    same(rt, (sequencer.queued(), sequencer.held_back()), (0, 0));
    Ok(())
}

/// The same with this delay.
fn holds_back(
    rt: &impl Abort,
    alloc: Global,
    delay: u8,
    batches: [&[u32]; 5],
) -> Result<(), Fault> {
    let mut sequencer = Sequencer::new(alloc, delay);
    let outcome = closes_in_turn(rt, alloc, &mut sequencer, batches);
    drop(sequencer);
    outcome
}

#[test]
fn cold_requests(rt: HostRuntime) -> Result<(), Fail> {
    let alloc = rt.alloc();
    holds_back(&rt, alloc, 0, [&[1, 2, 3], &[4, 5], &[], &[], &[]])?;
    holds_back(&rt, alloc, 1, [&[2], &[1, 3, 4], &[5], &[], &[]])?;
    holds_back(&rt, alloc, 2, [&[2], &[4], &[1, 3], &[5], &[]])?;
    holds_back(&rt, alloc, 3, [&[2], &[4], &[], &[1, 3], &[5]])?;
    Ok(())
}

/// The last epoch is closed, and then no more.
fn close_the_last(
    rt: &impl Abort,
    alloc: Global,
    sequencer: &mut Sequencer<u64>,
) -> Result<(), Fault> {
    submit_cold(alloc, sequencer, 1)?;
    closes(rt, sequencer, MOST_EPOCHS - 1, &[])?;
    for _i in 0..3 {
        same(rt, refusal(&sequencer.close()), 33);
        same(rt, (sequencer.queued(), sequencer.held_back()), (0, 1));
    }
    Ok(())
}

#[test]
fn refused_closing_counts_for_none(rt: HostRuntime) -> Result<(), Fail> {
    let mut sequencer = Sequencer::from_epoch(rt.alloc(), 2, Some(MOST_EPOCHS - 1));
    let outcome = close_the_last(&rt, rt.alloc(), &mut sequencer);
    drop(sequencer);
    outcome?;
    Ok(())
}

/// Epochs are decided before they are closed: each is passed when those before it are.
fn pass_epochs(
    rt: &impl Abort,
    alloc: Global,
    sequencer: &mut Sequencer<u64>,
) -> Result<(), Fault> {
    same(rt, sequencer.next_epoch(), Some(3));
    for (decided, next) in [(5, 3), (4, 3), (2, 3), (3, 6), (3, 6)] {
        decide(rt, alloc, sequencer, decided, &[])?;
        same(rt, sequencer.next_epoch(), Some(next));
    }
    closes(rt, sequencer, 6, &[])?;
    same(rt, sequencer.closed(5).is_none(), true);
    Ok(())
}

#[test]
fn epochs_that_are_passed(rt: HostRuntime) -> Result<(), Fail> {
    let mut sequencer = Sequencer::from_epoch(rt.alloc(), 0, Some(3));
    let outcome = pass_epochs(&rt, rt.alloc(), &mut sequencer);
    drop(sequencer);
    outcome?;
    Ok(())
}

#[test]
fn past_the_last_epoch(rt: HostRuntime) {
    let mut spent: Sequencer<u64> = Sequencer::from_epoch(rt.alloc(), 0, None);
    same(&rt, spent.next_epoch(), None);
    same(&rt, refusal(&spent.close()), 33);
    drop(spent);
}

/// Each call, after the one that makes room for it.
fn reserve_each(
    rt: &impl Abort,
    alloc: Global,
    sequencer: &mut Sequencer<u64>,
) -> Result<(), Fault> {
    same(rt, sequencer.reserve_submit(), Ok(()));
    submit(alloc, sequencer, 1)?;
    same(rt, sequencer.reserve_submit_cold(), Ok(()));
    submit_cold(alloc, sequencer, 2)?;
    same(rt, sequencer.reserve_close(), Ok(()));
    closes(rt, sequencer, 0, &[1])?;
    same(rt, sequencer.reserve_decided(0), Ok(()));
    decide(rt, alloc, sequencer, 0, &[])?;
    closes(rt, sequencer, 1, &[1, 2])
}

#[test]
fn room_made_first(rt: HostRuntime) -> Result<(), Fail> {
    let mut sequencer = Sequencer::new(rt.alloc(), 1);
    let outcome = reserve_each(&rt, rt.alloc(), &mut sequencer);
    drop(sequencer);
    outcome?;
    Ok(())
}
