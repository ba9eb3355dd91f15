//! Two serial runs side by side, and tables of rows, where what is refused for want of memory is asked for once more: until then the
//! one is like the other. With ample memory nothing is refused. `rt try --test --fail-alloc N` refuses the Nth allocation of a test:
//! for each N, from 1 until `nothing_refused` has passed for many in turn, `refused_once` has to pass (`tools/check_refusals`).
ghost use Rattle.std.specs.Prelude.{◌≡◌, false};
ghost use Rattle.std.specs.FinMap as finmap;
ghost use Rattle.calvin_app.specs.Kv.{kv, is_dependent};

use crate::checks::same;
use crate::kv::key;
use calvin_app::{Answer, Kv, KvReply, KvRequest, Serial, Table, View, Writes};
use calvin_types::{Fault, Key, KeySet, RequestId, Sets, Txn};
use std::alloc::Global;
use std::process::Abort;
use std::test::Fail;

/// So many numbers are put.
const NUMBERS: u64 = 40;

/// A number is put under a key. The sets are those that it needs where no row is known, and don't depend on rows.
fn put(id: u64) -> Txn<KvRequest>
    ensures first { result.sets ≡ kv.needs result.args finmap.empty }
    ensures fixed { is_dependent result.args ≡ false }
{
    let args = KvRequest::Put(id, id);
    let mut sets = Sets {
        reads: KeySet::new(),
        writes: KeySet::new(),
    };
    args.add_first_needs(&mut sets);
    Txn {
        id: RequestId {
            client: 7,
            number: 1,
        },
        attempt: 1,
        args,
        sets,
    }
}

/// How a request is run.
#[derive(Clone, Copy, Debug, PartialEq, Eq)]
enum Form {
    Apply,
    Into,
    Parts,
    First,
}

/// The form in which the request of a number is run.
fn form_of(id: u64) -> Form {
    match id % 4 {
        0 => Form::Apply,
        1 => Form::Into,
        2 => Form::Parts,
        _ => Form::First,
    }
}

/// What a run keeps from one request to the next.
#[derive(Drop)]
struct Places {
    seen: View<u64>,
    answer: Answer<KvReply>,
    writes: Writes<u64>,
}

/// A number is put, in the form of its number, and answered.
fn run(serial: &mut Serial<Kv>, id: u64) -> Result<Answer<KvReply>, Fault> {
    let txn = put(id);
    let mut places = Places {
        seen: View::new(),
        answer: Answer::Changed,
        writes: Writes::new(),
    };
    match form_of(id) {
        Form::Apply => return serial.apply(&txn),
        Form::Into => serial.apply_into(
            &txn,
            &mut places.seen,
            &mut places.answer,
            &mut places.writes,
        )?,
        Form::Parts => serial.apply_parts(
            &txn.args,
            &txn.sets,
            &mut places.seen,
            &mut places.answer,
            &mut places.writes,
        )?,
        Form::First => serial.apply_first(
            &txn.args,
            &txn.sets.reads,
            &mut places.seen,
            &mut places.answer,
            &mut places.writes,
        )?,
    }
    Ok(places.answer)
}

/// The rows are those of so many numbers.
fn check_rows(rt: &impl Abort, rows: &Table<u64>, numbers: u64) {
    for id in 0..NUMBERS {
        let wanted = if id < numbers { Some(id) } else { None };
        same(rt, (id, rows.get(&key(id))), (id, wanted));
    }
}

/// What comes of putting a number, if not at once then with memory, and how often it was refused.
fn run_at_last(
    rt: &impl Abort,
    serial: &mut Serial<Kv>,
    id: u64,
) -> (Result<Answer<KvReply>, Fault>, u32) {
    match run(serial, id) {
        Err(Fault::OutOfMemory) => {
            check_rows(rt, serial.rows(), id);
            (run(serial, id), 1)
        }
        ended => (ended, 0),
    }
}

/// A number is put, and done. Says how often it was refused.
fn endure(rt: &impl Abort, serial: &mut Serial<Kv>, id: u64) -> u32 {
    let (ended, refused) = run_at_last(rt, serial, id);
    same(rt, (id, ended), (id, Ok(Answer::Reply(KvReply::Done))));
    check_rows(rt, serial.rows(), id.saturating_add(1));
    refused
}

/// There comes to be room for rows, if not at once then with memory.
fn leave_room(rt: &impl Abort, serial: &mut Serial<Kv>, numbers: u64) -> u32 {
    let mut refused = 0;
    if serial.reserve(100) == Err(Fault::OutOfMemory) {
        check_rows(rt, serial.rows(), numbers);
        refused = 1;
        same(rt, serial.reserve(100), Ok(()));
    }
    check_rows(rt, serial.rows(), numbers);
    refused
}

/// All rows with their keys, if not at once then with memory, and how often they were refused.
fn all_rows(serial: &Serial<Kv>, alloc: Global) -> Result<(Vec<(Key, u64)>, u32), Fault> {
    match serial.to_rows(alloc) {
        Err(_) => Ok((serial.to_rows(alloc)?, 1)),
        Ok(rows) => Ok((rows, 0)),
    }
}

/// A run on rows, if not at once then with memory, and how often that was refused.
fn started(alloc: Global, rows: &[(Key, u64)]) -> Result<(Serial<Kv>, u32), Fault> {
    match Serial::from_rows(alloc, Kv, rows) {
        Err(Fault::OutOfMemory) => Ok((Serial::from_rows(alloc, Kv, rows)?, 1)),
        made => Ok((made?, 0)),
    }
}

/// The rows of a run begin another one, which has the same rows.
fn begin_again(rt: &impl Abort, alloc: Global, serial: &Serial<Kv>) -> Result<u32, Fault> {
    let (rows, at_rows) = all_rows(serial, alloc)?;
    same(rt, rows.len() as u64, NUMBERS);
    let (other, at_start) = started(alloc, &rows)?;
    check_rows(rt, other.rows(), NUMBERS);
    drop(other);
    drop(rows);
    Ok(at_rows.saturating_add(at_start))
}

/// Numbers are put one after another. Some are refused before there is room for many, and some after that.
fn put_all(rt: &impl Abort, alloc: Global, serial: &mut Serial<Kv>) -> Result<u32, Fault> {
    let mut refused: u32 = 0;
    for id in 0..NUMBERS {
        refused = refused.saturating_add(endure(rt, serial, id));
    }
    refused = refused.saturating_add(leave_room(rt, serial, NUMBERS));
    Ok(refused.saturating_add(begin_again(rt, alloc, serial)?))
}

/// Rows are overwritten, if not at once then with memory.
fn overwrite(rt: &impl Abort, table: &mut Table<u64>) -> u32 {
    let mut refused: u32 = 0;
    for id in 0..NUMBERS {
        let writes = Writes::of(key(id), id);
        if table.overwrite(&writes) == Err(Fault::OutOfMemory) {
            check_rows(rt, table, id);
            refused = refused.saturating_add(1);
            same(rt, table.overwrite(&writes), Ok(()));
        }
    }
    if table.reserve(100) == Err(Fault::OutOfMemory) {
        check_rows(rt, table, NUMBERS);
        refused = refused.saturating_add(1);
        same(rt, table.reserve(100), Ok(()));
    }
    check_rows(rt, table, NUMBERS);
    refused
}

/// A table's rows in order, and a table of them, if not at once then with memory.
fn made_again(rt: &impl Abort, alloc: Global, table: &Table<u64>) -> Result<u32, Fault> {
    let (rows, at_rows) = match table.to_vec(alloc) {
        Err(_) => (table.to_vec(alloc)?, 1),
        Ok(rows) => (rows, 0),
    };
    let (other, at_table) = match Table::from_rows(alloc, &rows) {
        Err(Fault::OutOfMemory) => (Table::from_rows(alloc, &rows)?, 1),
        made => (made?, 0),
    };
    check_rows(rt, &other, NUMBERS);
    drop(other);
    drop(rows);
    Ok(u32::saturating_add(at_rows, at_table))
}

/// How many calls were refused.
fn endured(rt: &impl Abort, alloc: Global) -> Result<u32, Fault> {
    let mut serial = Serial::new(alloc, Kv);
    let at_run = put_all(rt, alloc, &mut serial);
    drop(serial);
    let mut table = Table::new(alloc);
    let at_table = overwrite(rt, &mut table);
    let at_rows = made_again(rt, alloc, &table);
    drop(table);
    Ok(at_run?.saturating_add(at_table).saturating_add(at_rows?))
}

#[test]
fn nothing_refused(rt: HostRuntime) -> Result<(), Fail> {
    same(&rt, endured(&rt, rt.alloc())?, 0);
    Ok(())
}

#[test]
fn refused_once(rt: HostRuntime) -> Result<(), Fail> {
    same(&rt, endured(&rt, rt.alloc())? <= 1, true);
    Ok(())
}
