//! The worked cases, each public call once, and tables of drawn calls, all for any lock manager: for `ListLocks` and for
//! `QueueLocks`.
use crate::checks::same;
use crate::kv::set;
use calvin_lock::{ListLocks, Locks, QueueLocks, oldest_is_ready, ready_stays};
use calvin_types::{Fault, Key, KeySet, Place};
use std::alloc::Global;
use std::process::Abort;
use std::test::Fail;

/// The place of epoch 0 with this number.
fn place(n: u32) -> Place {
    Place { epoch: 0, n }
}

/// The number of a refusal, and 0 for none. Want of memory is passed on.
fn number(answer: Result<(), Fault>) -> Result<u8, Fault> {
    match answer {
        Ok(()) => Ok(0),
        Err(Fault::OutOfMemory) => Err(Fault::OutOfMemory),
        Err(fault) => Ok(fault.number()),
    }
}

/// Requests these keys at the place with this number, and answers as `number` says.
fn request<L: Locks>(locks: &mut L, n: u32, reads: &[u64], writes: &[u64]) -> Result<u8, Fault> {
    number(locks.request(place(n), &set(reads)?, &set(writes)?))
}

/// Compares which of the first four places are ready.
fn ready(rt: &impl Abort, locks: &impl Locks, expected: [bool; 4]) {
    for n in 0..4 {
        same(rt, (n, locks.is_ready(place(n))), (n, expected[n as usize]));
    }
}

/// Places 0 to 3 on one key, of which the third writes it.
fn in_sequence<L: Locks + Drop>(rt: &impl Abort, alloc: Global) -> Result<(), Fault> {
    let mut locks = L::empty(alloc);
    let (key, none): (&[u64], &[u64]) = (&[5], &[]);
    for (n, reads, writes) in [
        (0, key, none),
        (1, key, none),
        (2, none, key),
        (3, key, none),
    ] {
        same(rt, request(&mut locks, n, reads, writes)?, 0);
    }
    ready(rt, &locks, [true, true, false, false]);
    same(rt, number(locks.release(place(3)))?, 12);
    same(rt, number(locks.release(place(0)))?, 0);
    ready(rt, &locks, [false, true, false, false]);
    same(rt, number(locks.release(place(3)))?, 12);
    same(rt, number(locks.release(place(1)))?, 0);
    ready(rt, &locks, [false, false, true, false]);
    same(rt, number(locks.release(place(3)))?, 12);
    same(rt, number(locks.release(place(2)))?, 0);
    ready(rt, &locks, [false, false, false, true]);
    same(rt, number(locks.release(place(3)))?, 0);
    ready(rt, &locks, [false; 4]);
    Ok(())
}

#[test]
fn lock_sequence(rt: HostRuntime) -> Result<(), Fail> {
    in_sequence::<ListLocks>(&rt, rt.alloc())?;
    in_sequence::<QueueLocks>(&rt, rt.alloc())?;
    Ok(())
}

/// Four places on the keys a, b and c, which are 1, 2 and 3.
fn queried<L: Locks + Drop>(rt: &impl Abort, alloc: Global) -> Result<(), Fault> {
    let mut locks = L::empty(alloc);
    let (a, b, c, none): (&[u64], &[u64], &[u64], &[u64]) = (&[1], &[2], &[3], &[]);
    for (n, reads, writes) in [(0, a, b), (1, b, none), (2, none, a), (3, c, none)] {
        same(rt, request(&mut locks, n, reads, writes)?, 0);
    }
    same(rt, locks.first_ready(None), Some(place(0)));
    same(rt, locks.first_ready(Some(place(0))), Some(place(3)));
    same(rt, number(locks.release(place(3)))?, 0);
    same(rt, number(locks.release(place(3)))?, 12);
    same(rt, number(locks.release(place(0)))?, 0);
    ready(rt, &locks, [false, true, true, false]);
    same(rt, request(&mut locks, 3, &[1], &[])?, 10);
    same(rt, locks.first_ready(Some(place(1))), Some(place(2)));
    same(rt, locks.first_ready(Some(place(2))), None);
    Ok(())
}

#[test]
fn lock_queries(rt: HostRuntime) -> Result<(), Fail> {
    queried::<ListLocks>(&rt, rt.alloc())?;
    queried::<QueueLocks>(&rt, rt.alloc())?;
    Ok(())
}

/// Each call with ample memory, and each refusal but that for want of memory.
fn called<L: Locks + Drop>(rt: &impl Abort, alloc: Global) -> Result<(), Fault> {
    let mut locks = L::empty(alloc);
    same(rt, locks.first_ready(None), None);
    same(rt, locks.is_ready(place(0)), false);
    same(rt, number(locks.release(place(0)))?, 12);
    same(rt, request(&mut locks, 4, &[], &[])?, 11);
    same(rt, request(&mut locks, 4, &[1, 2], &[2])?, 0);
    same(rt, request(&mut locks, 4, &[], &[])?, 10);
    same(rt, request(&mut locks, 3, &[9], &[])?, 10);
    same(rt, request(&mut locks, 5, &[2], &[])?, 0);
    same(rt, locks.is_ready(place(4)), true);
    same(rt, locks.is_ready(place(5)), false);
    locks.up_to_last();
    oldest_is_ready(&locks);
    ready_stays(&locks);
    same(rt, locks.first_ready(None), Some(place(4)));
    same(rt, number(locks.release(place(4)))?, 0);
    same(rt, request(&mut locks, 4, &[1], &[])?, 10);
    same(rt, locks.first_ready(None), Some(place(5)));
    Ok(())
}

#[test]
fn calls(rt: HostRuntime) -> Result<(), Fail> {
    called::<ListLocks>(&rt, rt.alloc())?;
    called::<QueueLocks>(&rt, rt.alloc())?;
    Ok(())
}

/// Where memory is refused once, nothing has changed, and the same call made again does its work.
fn refused<L: Locks + Drop>(rt: &impl Abort, alloc: Global) -> Result<(), Fault> {
    let mut locks = L::empty(alloc);
    for n in 0..20 {
        if let Err(fault) = request(&mut locks, n, &[7], &[]) {
            same(rt, fault.number(), 1);
            same(rt, locks.is_ready(place(n)), false);
            same(rt, request(&mut locks, n, &[7], &[])?, 0);
        }
        same(rt, locks.is_ready(place(n)), true);
    }
    Ok(())
}

#[test]
fn refused_once(rt: HostRuntime) -> Result<(), Fail> {
    refused::<ListLocks>(&rt, rt.alloc())?;
    refused::<QueueLocks>(&rt, rt.alloc())?;
    Ok(())
}

/// What a drawn call answered.
#[derive(Clone, Copy, Debug, PartialEq, Eq)]
enum Answer {
    Number(u8),
    Ready(bool),
    First(Option<Place>),
}

/// A linear congruence.
#[derive(Drop)]
struct Draws {
    state: u64,
}

impl Draws {
    /// A number below `bound`, which is above 0.
    fn below(&mut self, bound: u32) -> u32 {
        self.state = self
            .state
            .wrapping_mul(6364136223846793005)
            .wrapping_add(1442695040888963407);
        ((self.state >> 33) as u32).checked_rem(bound).unwrap_or(0)
    }

    /// One of the keys below `bound`.
    fn key(&mut self, bound: u32) -> KeySet {
        let id = self.below(bound) as u64;
        KeySet::of(Key { table: 0, id })
    }

    /// Some of the keys 0 to 7, and often none: mostly two at most, and now and then up to six.
    fn keys(&mut self) -> Result<KeySet, Fault> {
        let mut keys = KeySet::new();
        let bound = match self.below(8) {
            0 => 7,
            _ => 3,
        };
        for _ in 0..self.below(bound) {
            let id = self.below(8) as u64;
            keys.insert(Key { table: 0, id })?;
        }
        Ok(keys)
    }
}

/// The answers to so many drawn calls. The place requested rises with each second call, so that some are requested
/// again; the other calls ask for one near it, or for the first ready one.
fn drawn<L: Locks + Drop>(alloc: Global, start: u64, calls: u32) -> Result<Vec<Answer>, Fault> {
    let mut locks = L::empty(alloc);
    let mut draws = Draws { state: start };
    let mut answers = Vec::new(alloc);
    for call in 0..calls {
        let near = place((call / 2).saturating_sub(draws.below(12)));
        let at = match draws.below(2) {
            0 => near,
            _ => locks.first_ready(None).unwrap_or(near),
        };
        let answer = match draws.below(8) {
            0 | 1 => {
                let (reads, writes) = (draws.keys()?, draws.keys()?);
                Answer::Number(number(locks.request(place(call / 2), &reads, &writes))?)
            }
            2 | 3 | 4 => Answer::Number(number(locks.release(at))?),
            5 => Answer::Ready(locks.is_ready(at)),
            6 => Answer::First(locks.first_ready(Some(at))),
            _ => Answer::First(locks.first_ready(None)),
        };
        answers.push(answer)?;
    }
    Ok(answers)
}

#[test]
fn drawn_calls_agree(rt: HostRuntime) -> Result<(), Fail> {
    for start in 1..21 {
        let answers = drawn::<ListLocks>(rt.alloc(), start, 2_000)?;
        let others = drawn::<QueueLocks>(rt.alloc(), start, 2_000)?;
        same(&rt, answers.as_slice(), others.as_slice());
        for wanted in [
            Answer::Number(0),
            Answer::Number(10),
            Answer::Number(11),
            Answer::Number(12),
            Answer::Ready(true),
            Answer::Ready(false),
            Answer::First(None),
        ] {
            same(
                &rt,
                (wanted, answers.as_slice().contains(&wanted)),
                (wanted, true),
            );
        }
    }
    Ok(())
}

/// The answer to a drawn call at one of the last 400 places requested, or at the first ready one.
fn near<L: Locks>(locks: &mut L, draws: &mut Draws, last: u32) -> Result<Answer, Fault> {
    let at = place(last.saturating_sub(draws.below(400)));
    match draws.below(8) {
        0 => Ok(Answer::First(locks.first_ready(Some(at)))),
        1 => Ok(Answer::Ready(locks.is_ready(at))),
        2 => {
            let first = locks.first_ready(None).unwrap_or(at);
            Ok(Answer::Number(number(locks.release(first))?))
        }
        _ => Ok(Answer::Number(number(locks.release(at))?)),
    }
}

/// The answers where hundreds of places are unreleased at once and most are released from the middle: after each request,
/// of one key that is read and one that is written, come two other calls.
fn crowded<L: Locks + Drop>(alloc: Global, start: u64, places: u32) -> Result<Vec<Answer>, Fault> {
    let mut locks = L::empty(alloc);
    let mut draws = Draws { state: start };
    let mut answers = Vec::new(alloc);
    for n in 0..places {
        let (reads, writes) = (draws.key(4_000), draws.key(4_000));
        answers.push(Answer::Number(number(locks.request(place(n), &reads, &writes))?))?;
        answers.push(near(&mut locks, &mut draws, n)?)?;
        answers.push(near(&mut locks, &mut draws, n)?)?;
    }
    Ok(answers)
}

#[test]
fn keepers_agree_on_many(rt: HostRuntime) -> Result<(), Fail> {
    for start in 1..4 {
        let answers = crowded::<ListLocks>(rt.alloc(), start, 3_000)?;
        let others = crowded::<QueueLocks>(rt.alloc(), start, 3_000)?;
        same(&rt, answers.as_slice(), others.as_slice());
    }
    Ok(())
}
