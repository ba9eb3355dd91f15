//! Each call once, at each keeper, through functions that know them as keepers alone.
ghost use Rattle.std.specs.Prelude.{◌≡◌, ◌<◌, OnOk, OnErr};
ghost use Rattle.calvin_app.specs.Stores.{put_at};

use crate::checks::{holds, same};
use crate::draws::Draws;
use crate::list_rows::ListRows;
use calvin_app::Writes;
use calvin_store::{ColdRows, PlainRows, Rows, Snapshot, SplitRows};
use calvin_types::{Fault, Key, Place};
use std::alloc::Global;
use std::process::Abort;
use std::test::Fail;
use std::thread;
use std::thread::Threads;

const PLACE: Place = Place { epoch: 0, n: 0 };

/// A key of table 0.
fn key(id: u64) -> Key {
    Key { table: 0, id }
}

/// Writes of these rows.
fn writes(pairs: &[(Key, u64)]) -> Result<Writes<u64>, Fault> {
    let mut writes = Writes::new();
    for (key, row) in pairs {
        writes.put(*key, *row)?;
    }
    Ok(writes)
}

/// Makes room for as many rows as are written, and writes them.
fn write<S: Rows<u64>>(rows: &mut S, writes: &Writes<u64>) -> Result<(), Fault>
    ensures ok { OnOk result (S.store rows.new ≡ put_at PLACE writes.now (S.store rows.old)) }
    ensures err { OnErr result (S.store rows.new ≡ S.store rows.old) }
{
    rows.reserve(writes.len())?;
    rows.put_all(PLACE, writes);
    Ok(())
}

/// How many rows there are, and the rows of the keys 1, 5 and 9.
fn seen<S: Rows<u64>>(rows: &S) -> (usize, [Option<u64>; 3]) {
    let found = [rows.get(&key(1)), rows.get(&key(5)), rows.get(&key(9))];
    (rows.len(), found)
}

/// Room that is made, and writes of two rows each.
fn writes_in_turn<S: Rows<u64>>(rt: &impl Abort, rows: &mut S) -> Result<(), Fault> {
    holds(rt, seen(rows) == (0, [None, None, None]));
    same(rt, rows.room(), 0);
    rows.reserve(3)?;
    rows.reserve(2)?;
    holds(rt, rows.room() >= 3);
    for (first, second, want) in [
        // Both keys are new.
        ((5, 50), (1, 10), (2, [Some(10), Some(50), None])),
        ((5, 51), (1, 11), (2, [Some(11), Some(51), None])),
        ((1, 12), (9, 90), (3, [Some(12), Some(51), Some(90)])),
        // Of two rows under one key the later is written.
        ((9, 91), (9, 92), (3, [Some(12), Some(51), Some(92)])),
    ] {
        let pairs = [(key(first.0), first.1), (key(second.0), second.1)];
        write(rows, &writes(&pairs)?)?;
        holds(rt, seen(rows) == want);
    }
    Ok(())
}

/// Whether the rows are those of a snapshot.
fn stands_at<S: Rows<u64>>(rows: &S, snapshot: &Snapshot<u64>) -> Result<bool, Fault> {
    let now = rows.snapshot()?;
    Ok(now == *snapshot)
}

/// Writes rows, and then goes back to a snapshot.
fn goes_back<S: Rows<u64>>(
    rt: &impl Abort,
    rows: &mut S,
    snapshot: &Snapshot<u64>,
) -> Result<(), Fault> {
    write(rows, &writes(&[(key(5), 55), (key(6), 60)])?)?;
    holds(rt, rows.len() == 5);
    holds(rt, !stands_at(rows, snapshot)?);
    rows.load(snapshot)?;
    holds(rt, seen(rows) == (4, [Some(12), Some(51), Some(92)]));
    holds(rt, rows.get(&key(6)).is_none());
    holds(rt, stands_at(rows, snapshot)?);
    Ok(())
}

/// What a snapshot holds: each key with its row, by ascending key, in a copy too.
fn holds_all(rt: &impl Abort, snapshot: &Snapshot<u64>) -> Result<(), Fault> {
    let other = Key { table: 1, id: 1 };
    let pairs = [(key(1), 12), (key(5), 51), (key(9), 92), (other, 7)];
    holds(rt, snapshot.len() == 4);
    holds(rt, snapshot.pairs() == pairs.as_slice());
    let copy = snapshot.copy()?;
    holds(rt, copy == *snapshot);
    Ok(())
}

/// Each call, one after another.
fn each_call<S: Rows<u64> + Drop>(rt: &impl Abort, alloc: Global) -> Result<(), Fault> {
    let mut rows = S::empty(alloc);
    writes_in_turn(rt, &mut rows)?;

    // The same number in another table is another key, behind all of table 0.
    write(&mut rows, &Writes::of(Key { table: 1, id: 1 }, 7))?;
    let snapshot = rows.snapshot()?;
    holds_all(rt, &snapshot)?;
    goes_back(rt, &mut rows, &snapshot)?;
    holds_all(rt, &snapshot)
}

#[test]
fn each_call_of_plain_rows(rt: HostRuntime) -> Result<(), Fail> {
    each_call::<PlainRows<u64>>(&rt, rt.alloc())?;
    Ok(())
}

#[test]
fn each_call_of_split_rows(rt: HostRuntime) -> Result<(), Fail> {
    each_call::<SplitRows<u64>>(&rt, rt.alloc())?;
    Ok(())
}

#[test]
fn each_call_of_cold_rows(rt: HostRuntime) -> Result<(), Fail> {
    each_call::<ColdRows<u64>>(&rt, rt.alloc())?;
    Ok(())
}

#[test]
fn each_call_of_a_list(rt: HostRuntime) -> Result<(), Fail> {
    each_call::<ListRows<u64>>(&rt, rt.alloc())?;
    Ok(())
}

/// A key of table 0 or 1.
fn drawn_key(draws: &mut Draws) -> Key {
    Key {
        table: draws.below(2) as u8,
        id: draws.below(100),
    }
}

/// Notes what a snapshot holds.
fn note(snapshot: &Snapshot<u64>, told: &mut Vec<u64>) -> Result<(), Fault> {
    for (key, row) in snapshot.pairs() {
        told.push(key.table as u64)?;
        told.push(key.id)?;
        told.push(*row)?;
    }
    Ok(())
}

/// One drawn call.
fn play<S: Rows<u64>>(
    rows: &mut S,
    kept: &mut Snapshot<u64>,
    draws: &mut Draws,
    told: &mut Vec<u64>,
) -> Result<(), Fault> {
    match draws.below(20) {
        0 => rows.reserve(draws.below(30) as usize)?,
        1 => *kept = rows.snapshot()?,
        2 => rows.load(kept)?,
        _ => {
            let mut writes = Writes::new();
            for _ in 0..draws.below(5) {
                writes.put(drawn_key(draws), draws.below(1000))?;
            }
            write(rows, &writes)?;
        }
    }
    told.push(rows.len() as u64)?;
    told.push(rows.get(&drawn_key(draws)).unwrap_or(1000))?;
    Ok(())
}

/// So many drawn calls, and what both snapshots hold after them.
fn play_all<S: Rows<u64>>(rows: &mut S, calls: u32, told: &mut Vec<u64>) -> Result<(), Fault> {
    let mut kept = rows.snapshot()?;
    let mut draws = Draws::new(12);
    for _ in 0..calls {
        play(rows, &mut kept, &mut draws, told)?;
    }
    note(&rows.snapshot()?, told)?;
    note(&kept, told)
}

/// What is seen of drawn calls.
fn played<S: Rows<u64> + Drop>(alloc: Global, calls: u32) -> Result<Vec<u64>, Fault> {
    let mut rows = S::empty(alloc);
    let mut told = Vec::new(alloc);
    play_all(&mut rows, calls, &mut told)?;
    Ok(told)
}

#[test]
fn both_keepers_answer_alike(rt: HostRuntime) -> Result<(), Fail> {
    let alloc = rt.alloc();
    let plain = played::<PlainRows<u64>>(alloc, 3000)?;
    let list = played::<ListRows<u64>>(alloc, 3000)?;
    holds(&rt, plain.len() > 6000);
    holds(&rt, plain.as_slice() == list.as_slice());
    Ok(())
}

/// A call that is refused for want of memory leaves everything as it was.
fn leaves_all<S: Rows<u64> + Drop>(rt: &impl Abort, alloc: Global) -> Result<(), Fault> {
    let mut rows = S::empty(alloc);
    write(&mut rows, &writes(&[(key(1), 10), (key(5), 50)])?)?;
    let other = S::empty(alloc).snapshot()?;
    let before = seen(&rows);
    if let Err(fault) = rows.reserve(40) {
        same(rt, (fault, seen(&rows)), (Fault::OutOfMemory, before));
    }
    let before = seen(&rows);
    if let Err(fault) = rows.load(&other) {
        same(rt, (fault, seen(&rows)), (Fault::OutOfMemory, before));
    }
    Ok(())
}

#[test]
fn refusals_leave_everything(rt: HostRuntime) -> Result<(), Fail> {
    leaves_all::<PlainRows<u64>>(&rt, rt.alloc())?;
    leaves_all::<SplitRows<u64>>(&rt, rt.alloc())?;
    leaves_all::<ColdRows<u64>>(&rt, rt.alloc())?;
    leaves_all::<ListRows<u64>>(&rt, rt.alloc())?;
    Ok(())
}

/// Another thread tells how many rows a snapshot has.
fn goes_along<R: Threads + Copy + Send + 'static>(
    rt: R,
    snapshot: Snapshot<u64>,
) -> Result<usize, Fault> {
    match thread::spawn(&rt, move || -> usize { snapshot.len() }) {
        Ok(handle) => Ok(handle.join(&rt)),
        Err(_) => Err(Fault::OutOfMemory),
    }
}

#[test]
fn a_snapshot_crosses_threads(rt: HostRuntime) -> Result<(), Fail> {
    let mut rows: PlainRows<u64> = Rows::empty(rt.alloc());
    write(&mut rows, &Writes::of(key(3), 30))?;
    let snapshot = rows.snapshot()?;
    same(&rt, goes_along(rt, snapshot.copy()?)?, 1);
    same(&rt, snapshot.len(), 1);
    Ok(())
}
