//! Batches at their limit, copies of what is shared, the text of a fault, and the order of places and names.
use crate::checks::{holds, same};
use crate::keys::{refusal, txn};
use calvin_types::{Ballot, Batch, Fault, Key, NodeId, Place, RequestId, Shared, Slot, Txn};
use std::alloc::Global;
use std::cmp::Ordering;
use std::process::Abort;
use std::sync::{Arc, Mutex, Wait};
use std::test::Fail;
use std::thread;
use std::thread::Threads;

/// Requests numbered from 0.
fn requests(alloc: Global, count: u32) -> Result<Vec<Txn<u64>>, Fault> {
    let mut txns = Vec::new(alloc);
    for number in 0..count {
        let id = RequestId { client: 7, number };
        txns.push(Txn {
            id,
            ..txn(alloc, &[1], &[])?
        })?;
    }
    Ok(txns)
}

/// A batch's size, and its request at a place, both ways.
fn probed<Args: Copy + Eq>(batch: &Batch<Args>, i: usize) -> (usize, Option<Txn<Args>>, bool) {
    let there = batch.get(i);
    (
        batch.len(),
        there,
        batch.as_slice().get(i).copied() == there,
    )
}

/// A batch of so many requests.
fn batch(alloc: Global, count: u32) -> Result<Batch<u64>, Fault> {
    Batch::new(alloc, requests(alloc, count)?)
}

#[test]
fn batches(rt: HostRuntime) {
    for (count, want) in [(0, 0), (1, 0), (256, 0), (257, 5)] {
        same(
            &rt,
            (count, refusal(&batch(rt.alloc(), count))),
            (count, want),
        );
    }
}

/// Whether a batch has the requests of one that is made of so many.
fn is_of(alloc: Global, found: &Batch<u64>, count: u32) -> Result<bool, Fault> {
    let other = batch(alloc, count)?;
    let is_same = *found == other;
    drop(other);
    Ok(is_same)
}

/// A copy has the 256 requests.
fn check_copy(rt: &impl Abort, alloc: Global, copy: &Batch<u64>) {
    for (count, is_same) in [(256, true), (255, false)] {
        same(rt, (count, is_of(alloc, copy, count)), (count, Ok(is_same)));
    }
    let (size, there, alike) = probed(copy, 255);
    holds(rt, size == 256 && alike);
    same(rt, there.map(|txn| txn.id.number), Some(255));
    holds(rt, probed(copy, 256) == (256, None, true));
}

#[test]
fn copies_of_a_batch(rt: HostRuntime) -> Result<(), Fail> {
    let first = batch(rt.alloc(), 256)?;
    let copied = first.copy();
    holds(&rt, copied.as_ref() == Ok(&first));
    drop(first);
    let copy = copied?;
    check_copy(&rt, rt.alloc(), &copy);
    drop(copy);
    Ok(())
}

/// Threads share a list of batches under a lock, and one takes a batch with it.
fn goes_along<R: Threads + Wait + Copy + Send + 'static>(
    rt: R,
    alloc: Global,
    batch: Batch<u64>,
) -> Result<usize, Fault> {
    let mut packets = Vec::new(alloc);
    packets.push(batch.copy()?)?;
    let packets = Arc::new(alloc, Mutex::new(packets))?;
    let theirs = Arc::try_clone(&packets)?;
    let job = move || -> usize {
        match theirs.lock(&rt).pop() {
            Some(taken) => taken.len() + batch.len(),
            None => 0,
        }
    };
    match thread::spawn(&rt, job) {
        Ok(handle) => Ok(handle.join(&rt)),
        Err(_) => Err(Fault::OutOfMemory),
    }
}

#[test]
fn batches_cross_threads(rt: HostRuntime) -> Result<(), Fail> {
    let alloc = rt.alloc();
    let batch = Batch::new(alloc, requests(alloc, 100)?)?;
    let kept = batch.copy()?;
    holds(&rt, goes_along(rt, alloc, batch)? == 200);
    holds(&rt, kept.len() == 100);
    Ok(())
}

#[test]
fn shared_items(rt: HostRuntime) -> Result<(), Fail> {
    let shared = Shared::new(rt.alloc(), [1u8, 2].to_vec(rt.alloc())?)?;
    let other = shared.share()?;
    holds(&rt, other == shared);
    drop(shared);
    same(&rt, other.as_slice(), [1, 2].as_slice());
    Ok(())
}

/// A fault is shown by its name; what number and name each has, its definition says.
#[test]
fn faults(rt: HostRuntime) -> Result<(), Fail> {
    for (fault, number, name) in [
        (Fault::OutOfMemory, 1, "OutOfMemory"),
        (Fault::LocksOutOfOrder, 10, "OutOfOrder"),
        (Fault::AdmittedOutOfOrder, 40, "OutOfOrder"),
        (Fault::WriteFailed, 96, "WriteFailed"),
        (Fault::NotExpected, 100, "NotExpected"),
    ] {
        same(&rt, fault.number(), number);
        let shown = format!(in rt.alloc(); "{fault}")?;
        same(&rt, shown.as_str(), name);
    }
    Ok(())
}

fn place(epoch: u8, n: u8) -> Place {
    Place {
        epoch: epoch as u64,
        n: n as u32,
    }
}

fn slot(epoch: u8, group: u8) -> Slot {
    Slot {
        epoch: epoch as u64,
        group,
    }
}

fn ballot(round: u8, replica: u8) -> Ballot {
    Ballot {
        round: round as u32,
        replica,
    }
}

fn node(replica: u8, partition: u8) -> NodeId {
    NodeId { replica, partition }
}

fn request_id(client: u8, number: u8) -> RequestId {
    RequestId {
        client: client as u32,
        number: number as u32,
    }
}

fn key(table: u8, id: u8) -> Key {
    Key {
        table,
        id: id as u64,
    }
}

/// How two places, slots, ballots, nodes, names of requests and keys with these fields compare.
fn compared(a: u8, b: u8, c: u8, d: u8) -> [Ordering; 6] {
    [
        place(a, b).cmp(&place(c, d)),
        slot(a, b).cmp(&slot(c, d)),
        ballot(a, b).cmp(&ballot(c, d)),
        node(a, b).cmp(&node(c, d)),
        request_id(a, b).cmp(&request_id(c, d)),
        key(a, b).cmp(&key(c, d)),
    ]
}

#[test]
fn orders(rt: HostRuntime) {
    // By the first field, and where these are equal by the second.
    for (a, b, c, d, want) in [
        (1, 5, 2, 0, Ordering::Less),
        (2, 0, 1, 5, Ordering::Greater),
        (1, 4, 1, 5, Ordering::Less),
        (1, 5, 1, 4, Ordering::Greater),
        (3, 3, 3, 3, Ordering::Equal),
        (0, 255, 1, 0, Ordering::Less),
    ] {
        same(
            &rt,
            (a, b, c, d, compared(a, b, c, d)),
            (a, b, c, d, [want; 6]),
        );
    }
}
