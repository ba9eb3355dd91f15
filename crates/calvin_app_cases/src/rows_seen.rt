//! What holds rows: tables, views, writes and jobs.
use crate::checks::{holds, same};
use crate::kv::{declared, key, set, txn};
use calvin_app::{Answer, Job, Kv, KvReply, KvRequest, Serial, Table, View, Writes};
use calvin_types::{Fault, Key, KeySet, Place};
use std::alloc::Global;
use std::test::Fail;

#[test]
fn tables(rt: HostRuntime) -> Result<(), Fail> {
    let other = Key { table: 1, id: 5 };
    let mut table = Table::new(rt.alloc());
    let mut writes = Writes::of(key(5), 50);
    writes.put(key(1), 10)?;
    writes.put(other, 15)?;
    table.overwrite(&writes)?;
    let mut view = View::new();
    table.look_up(&set(&[5, 7])?, &mut view);
    for (key, row, seen) in [
        (key(5), Some(50), Some(50)),
        (key(7), None, None),
        (key(1), Some(10), None),
        (other, Some(15), None),
    ] {
        same(&rt, table.get(&key), row);
        same(&rt, view.get(&key), seen);
    }
    Ok(())
}

#[test]
fn all_rows_come_by_ascending_key(rt: HostRuntime) -> Result<(), Fail> {
    let alloc = rt.alloc();
    let other = Key { table: 1, id: 3 };
    let serial = Serial::from_rows(alloc, Kv, &[(other, 30), (key(9), 90), (key(2), 20)])?;
    let all = serial.to_rows(alloc)?;
    let wanted = [(key(2), 20), (key(9), 90), (other, 30)];
    same(&rt, all.as_slice(), wanted.as_slice());
    let again = Serial::from_rows(alloc, Kv, &all)?;
    same(&rt, again.rows().get(&other), Some(30));
    same(&rt, again.rows().get(&key(9)), Some(90));
    same(&rt, again.rows().get(&key(3)), None);
    let none = Serial::new(alloc, Kv);
    same(&rt, none.to_rows(alloc)?.len(), 0);
    Ok(())
}

#[test]
fn views(rt: HostRuntime) -> Result<(), Fail> {
    let mut table = Table::new(rt.alloc());
    table.overwrite(&Writes::of(key(5), 4))?;
    let mut view = View::new();
    table.look_up(&set(&[3, 5])?, &mut view);
    same(&rt, view.clone()?.get(&key(5)), Some(4));
    same(&rt, view.get(&key(3)), None);
    let none: View<u64> = View::new();
    same(&rt, none.get(&key(5)), None);
    view.clear();
    same(&rt, view.get(&key(5)), None);
    same(&rt, view.len(), 0);
    Ok(())
}

/// A view of these rows of table 0.
fn view_of(alloc: Global, rows: &[(u64, u64)]) -> Result<View<u64>, Fault> {
    let mut table = Table::new(alloc);
    let mut keys = KeySet::new();
    for &(id, row) in rows {
        table.overwrite(&Writes::of(key(id), row))?;
        keys.insert(key(id))?;
    }
    let mut view = View::new();
    table.look_up(&keys, &mut view);
    Ok(view)
}

#[test]
fn views_compared(rt: HostRuntime) -> Result<(), Fail> {
    let alloc = rt.alloc();
    let view = view_of(alloc, &[(9, 90), (2, 20)])?;
    for (i, id) in [(0, 2), (1, 9)] {
        assert!(rt; i < view.len());
        holds(&rt, view.at(i) == (key(id), id * 10));
    }
    for (other, is_same) in [
        ([(2, 20), (9, 90)].as_slice(), true),
        (&[(2, 20)], false),
        (&[(2, 20), (9, 91)], false),
        (&[(2, 20), (8, 90)], false),
        (&[], false),
    ] {
        same(
            &rt,
            (other, view.is_same(&view_of(alloc, other)?)),
            (other, is_same),
        );
    }
    Ok(())
}

#[test]
fn jobs_computed(rt: HostRuntime) -> Result<(), Fail> {
    let place = Place { epoch: 4, n: 2 };
    let view = view_of(rt.alloc(), &[(3, 10)])?;
    let fresh = declared(KvRequest::Add(3, 5));
    let stale = txn(KvRequest::Add(3, 5), set(&[3])?, set(&[3, 4])?);
    for (txn, answer, written) in [
        (fresh, Answer::Reply(KvReply::Value(15)), 1),
        (stale, Answer::Changed, 0),
    ] {
        let work = Job { place, txn, view }.compute(&Kv);
        holds(&rt, work.answer == answer);
        same(&rt, work.writes.len(), written);
        holds(&rt, work.job.place == place && work.job.txn == txn);
        holds(&rt, work.job.view.is_same(&view));
    }
    Ok(())
}

#[test]
fn views_from_a_place_on(rt: HostRuntime) -> Result<(), Fail> {
    let mut table = Table::new(rt.alloc());
    for id in [2, 5, 9] {
        table.overwrite(&Writes::of(key(id), id * 10))?;
    }
    let mut view = View::new();
    table.look_up(&set(&[2, 5, 9])?, &mut view);
    // A place, and the numbers of the keys whose rows stand there or later.
    for (place, left) in [
        (0, [2, 5, 9].as_slice()),
        (1, &[5, 9]),
        (2, &[9]),
        (3, &[]),
        (4, &[]),
    ] {
        for id in 0..11u64 {
            let row = if left.contains(&id) {
                Some(id * 10)
            } else {
                None
            };
            same(&rt, view.get_from(place, &key(id)), row);
        }
    }
    Ok(())
}

/// The writes of 0 under 15, of 1 under 14 and so on to 15 under 0.
fn sixteen() -> Result<Writes<u64>, Fault> {
    let mut writes = Writes::new();
    for row in 0..16u64 {
        writes.put(key(15 - row), row)?;
    }
    Ok(writes)
}

#[test]
fn sixteen_writes(rt: HostRuntime) -> Result<(), Fail> {
    let mut writes = sixteen()?;
    writes.put(key(15), 90)?;
    same(&rt, writes.put(key(16), 1), Err(Fault::TooManyKeys));
    same(&rt, writes.len(), 16);
    for (i, id, row) in [(0, 15, 90), (1, 14, 1), (14, 1, 14), (15, 0, 15)] {
        assert!(rt; i < writes.len());
        same(&rt, (i, writes.at(i)), (i, (key(id), row)));
    }
    Ok(())
}
