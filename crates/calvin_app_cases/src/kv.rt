//! `Kv` through callers that know it as an application alone, what it says of itself, and the worked case
//! `follow_in_serial`.
ghost use Rattle.std.specs.Prelude.{◌≡◌};

use crate::checks::{holds, same};
use calvin_app::{Answer, App, Kv, KvReply, KvRequest, Serial, Table, View, Writes};
use calvin_types::{Fault, Few, Key, KeySet, RequestId, Sets, Txn};
use std::alloc::Global;
use std::process::Abort;
use std::test::Fail;

/// A key of table 0.
pub(crate) fn key(id: u64) -> Key
    ensures { result ≡ record { table = 0; id = id } }
{
    Key { table: 0, id }
}

/// The set of keys of table 0 with these numbers.
pub(crate) fn set(ids: &[u64]) -> Result<KeySet, Fault> {
    let mut keys = KeySet::new();
    for &id in ids {
        keys.insert(key(id))?;
    }
    Ok(keys)
}

/// The first attempt at a request with these sets.
pub(crate) fn txn<Args: Copy>(args: Args, reads: KeySet, writes: KeySet) -> Txn<Args> {
    Txn {
        id: RequestId {
            client: 7,
            number: 1,
        },
        attempt: 1,
        args,
        sets: Sets { reads, writes },
    }
}

/// A request with the sets that it needs where no row is known.
pub(crate) fn declared(args: KvRequest) -> Txn<KvRequest> {
    let mut sets = Sets {
        reads: KeySet::new(),
        writes: KeySet::new(),
    };
    args.add_first_needs(&mut sets);
    txn(args, sets.reads, sets.writes)
}

/// Requests, each with the sets that it needs.
fn all_declared(alloc: Global, asked: &[KvRequest]) -> Result<Vec<Txn<KvRequest>>, Fault> {
    let mut txns = Vec::new(alloc);
    for &args in asked {
        txns.push(declared(args))?;
    }
    Ok(txns)
}

/// Requests applied one by one.
fn applied<A: App + Drop>(
    alloc: Global,
    app: A,
    txns: &[Txn<A::Args>],
) -> Result<(Serial<A>, Vec<Answer<A::Reply>>), Fault> {
    let mut serial = Serial::new(alloc, app);
    let mut answers = Vec::new(alloc);
    for txn in txns {
        answers.push(serial.apply(txn)?)?;
    }
    Ok((serial, answers))
}

/// What an application says of itself and of a request on no rows.
pub(crate) fn described<A: App>(app: &A, args: &A::Args) -> (usize, u8, bool, Sets) {
    let view = View::new();
    (
        app.most_keys(),
        app.top_table(),
        app.dependent(args),
        app.sets(args, &view),
    )
}

/// Whether an answer is this reply.
fn is_reply(answer: &Answer<KvReply>, reply: KvReply) -> bool {
    *answer == Answer::Reply(reply)
}

/// Whether requests are told these replies.
fn are_told(alloc: Global, asked: &[KvRequest], want: &[KvReply]) -> Result<bool, Fault> {
    let txns = all_declared(alloc, asked)?;
    let (_rows, answers) = applied(alloc, Kv, &txns)?;
    let as_many = answers.len() == want.len();
    Ok(
        as_many
            && answers
                .iter()
                .zip(want)
                .all(|(answer, &reply)| is_reply(answer, reply)),
    )
}

#[test]
fn puts_and_adds(rt: HostRuntime) -> Result<(), Fail> {
    let asked = [
        KvRequest::Put(3, 10),
        KvRequest::Add(3, 5),
        KvRequest::Put(3, 7),
        KvRequest::Add(3, 1),
        // No number counts as 0.
        KvRequest::Add(9, 2),
        // The greatest number is reached and not passed.
        KvRequest::Put(4, u64::MAX - 1),
        KvRequest::Add(4, 1),
        KvRequest::Add(4, 1),
        KvRequest::Add(4, 0),
        KvRequest::Add(5, u64::MAX),
        KvRequest::Add(5, u64::MAX),
    ];
    let want = [
        KvReply::Done,
        KvReply::Value(15),
        KvReply::Done,
        KvReply::Value(8),
        KvReply::Value(2),
        KvReply::Done,
        KvReply::Value(u64::MAX),
        KvReply::Limit,
        KvReply::Value(u64::MAX),
        KvReply::Value(u64::MAX),
        KvReply::Limit,
    ];
    holds(&rt, are_told(rt.alloc(), &asked, &want)?);
    Ok(())
}

#[test]
fn rows_after_a_limit(rt: HostRuntime) -> Result<(), Fail> {
    let alloc = rt.alloc();
    let asked = [
        KvRequest::Put(4, u64::MAX),
        KvRequest::Add(4, 1),
        KvRequest::Add(3, 5),
    ];
    let txns = all_declared(alloc, &asked)?;
    let (serial, _answers) = applied(alloc, Kv, &txns)?;
    for (id, want) in [(3, Some(5)), (4, Some(u64::MAX)), (1, None)] {
        same(&rt, serial.rows().get(&key(id)), want);
    }
    Ok(())
}

#[test]
fn gets(rt: HostRuntime) -> Result<(), Fail> {
    let mut values = Few::new();
    values.push(Some(15));
    values.push(None);
    values.push(Some(2));
    let asked = [
        KvRequest::Put(3, 15),
        KvRequest::Put(9, 2),
        KvRequest::Put(5, 1),
        // Ascending, whatever the order in which they are named.
        KvRequest::Get(set(&[9, 4, 3])?),
        KvRequest::Get(KeySet::new()),
    ];
    let want = [
        KvReply::Done,
        KvReply::Done,
        KvReply::Done,
        KvReply::Values(values),
        KvReply::Values(Few::new()),
    ];
    holds(&rt, are_told(rt.alloc(), &asked, &want)?);
    Ok(())
}

/// What a move from 3 is told where the rows of 3 and of the key that it moves to are these, and their rows after it.
fn moved(
    alloc: Global,
    to: u64,
    amount: u64,
    rows: [Option<u64>; 2],
) -> Result<(Answer<KvReply>, [Option<u64>; 2]), Fault> {
    let mut serial = Serial::new(alloc, Kv);
    for (id, row) in [3, to].into_iter().zip(rows) {
        if let Some(row) = row {
            let _done = serial.apply(&declared(KvRequest::Put(id, row)))?;
        }
    }
    let answer = serial.apply(&declared(KvRequest::Move(3, to, amount)))?;
    let rows = serial.rows();
    Ok((answer, [rows.get(&key(3)), rows.get(&key(to))]))
}

#[test]
fn moves(rt: HostRuntime) -> Result<(), Fail> {
    const MOST: u64 = u64::MAX;
    // The key that is moved to, how much, the reply, and the rows of 3 and of that key before and after it.
    for (to, amount, reply, before, after) in [
        (
            4,
            4,
            KvReply::Done,
            [Some(10), Some(7)],
            [Some(6), Some(11)],
        ),
        (4, 10, KvReply::Done, [Some(10), None], [Some(0), Some(10)]),
        (4, 11, KvReply::Short, [Some(10), None], [Some(10), None]),
        (4, 1, KvReply::Short, [None, Some(7)], [None, Some(7)]),
        // Whether there is enough is looked at before whether the keys are the same, or the sum too great.
        (3, 11, KvReply::Short, [Some(10); 2], [Some(10); 2]),
        (
            4,
            11,
            KvReply::Short,
            [Some(10), Some(MOST)],
            [Some(10), Some(MOST)],
        ),
        // Where the keys are the same nothing is written.
        (3, 10, KvReply::Done, [Some(10); 2], [Some(10); 2]),
        (3, MOST, KvReply::Done, [Some(MOST); 2], [Some(MOST); 2]),
        (3, 0, KvReply::Done, [None; 2], [None; 2]),
        // The greatest number is reached and not passed.
        (
            4,
            10,
            KvReply::Done,
            [Some(10), Some(MOST - 10)],
            [Some(0), Some(MOST)],
        ),
        (
            4,
            10,
            KvReply::Limit,
            [Some(10), Some(MOST - 9)],
            [Some(10), Some(MOST - 9)],
        ),
        // Where nothing is moved between keys without rows, both rows are written.
        (4, 0, KvReply::Done, [None; 2], [Some(0); 2]),
    ] {
        let (answer, rows) = moved(rt.alloc(), to, amount, before)?;
        let want = Answer::Reply(reply);
        same(
            &rt,
            (amount, to, before, answer, rows),
            (amount, to, before, want, after),
        );
    }
    Ok(())
}

#[test]
fn follow_in_serial(rt: HostRuntime) -> Result<(), Fail> {
    let alloc = rt.alloc();
    let asked = [
        KvRequest::Put(3, 3),
        KvRequest::Follow(3),
        KvRequest::Follow(9),
        KvRequest::Put(3, 4),
        KvRequest::Follow(3),
    ];
    let (_rows, answers) = applied(alloc, Kv, &all_declared(alloc, &asked)?)?;
    let want = [
        Answer::Reply(KvReply::Done),
        Answer::Reply(KvReply::Found(Some(3))),
        Answer::Reply(KvReply::Found(None)),
        Answer::Reply(KvReply::Done),
        // The row of 3 names 4 now, which isn't declared.
        Answer::Changed,
    ];
    same(&rt, answers.as_slice(), want.as_slice());
    Ok(())
}

/// Whether a request with these sets is answered Changed after a put of 10 under 3, and the rows of 3, 4 and 5 then.
fn after_put(
    alloc: Global,
    args: KvRequest,
    reads: &[u64],
    writes: &[u64],
) -> Result<(bool, [Option<u64>; 3]), Fault> {
    let mut serial = Serial::new(alloc, Kv);
    let _done = serial.apply(&declared(KvRequest::Put(3, 10)))?;
    let answer = serial.apply(&txn(args, set(reads)?, set(writes)?))?;
    let rows = serial.rows();
    Ok((
        answer == Answer::Changed,
        [rows.get(&key(3)), rows.get(&key(4)), rows.get(&key(5))],
    ))
}

#[test]
fn kv_runs(rt: HostRuntime) -> Result<(), Fail> {
    let mut table = Table::new(rt.alloc());
    table.overwrite(&Writes::of(key(3), 10))?;
    let mut view = View::new();
    table.look_up(&set(&[3])?, &mut view);
    let (reply, writes) = Kv.run(&KvRequest::Add(3, 5), &view);
    same(&rt, reply, KvReply::Value(15));
    assert_eq!(rt; writes.len(), 1);
    holds(&rt, writes.at(0) == (key(3), 15));
    Ok(())
}

#[test]
fn stale_sets(rt: HostRuntime) -> Result<(), Fail> {
    let get = KvRequest::Get(set(&[3, 4])?);
    // A request, its declared reads and writes, whether they are stale, and the row of 3 after it.
    for (args, reads, writes, changed, row) in [
        (
            KvRequest::Add(3, 1),
            [3].as_slice(),
            [3].as_slice(),
            false,
            11,
        ),
        (KvRequest::Add(3, 1), &[3, 5], &[3], true, 10),
        (KvRequest::Add(3, 1), &[3], &[3, 5], true, 10),
        (KvRequest::Add(3, 1), &[], &[3], true, 10),
        (KvRequest::Add(3, 1), &[3], &[], true, 10),
        (KvRequest::Add(3, 1), &[5], &[5], true, 10),
        (KvRequest::Put(3, 12), &[], &[3], false, 12),
        (KvRequest::Put(3, 12), &[3], &[3], true, 10),
        (KvRequest::Put(3, 12), &[], &[], true, 10),
        (KvRequest::Put(3, 12), &[], &[3, 4], true, 10),
        (get, &[3, 4], &[], false, 10),
        (get, &[3], &[], true, 10),
        (get, &[3, 4, 5], &[], true, 10),
        (get, &[3, 4], &[3], true, 10),
        (KvRequest::Move(3, 3, 1), &[3], &[3], false, 10),
        (KvRequest::Move(3, 4, 1), &[3], &[3, 4], true, 10),
        (KvRequest::Move(3, 4, 1), &[3, 4], &[3], true, 10),
        (KvRequest::Move(3, 4, 1), &[3, 4, 5], &[3, 4], true, 10),
        // The row of 3 names 10.
        (KvRequest::Follow(3), &[3, 10], &[], false, 10),
        (KvRequest::Follow(3), &[3], &[], true, 10),
        (KvRequest::Follow(3), &[3, 4], &[], true, 10),
        (KvRequest::Follow(3), &[3, 10], &[3], true, 10),
    ] {
        let after = after_put(rt.alloc(), args, reads, writes)?;
        same(
            &rt,
            (args, reads, writes, after),
            (args, reads, writes, (changed, [Some(row), None, None])),
        );
    }
    Ok(())
}

#[test]
fn what_kv_says_of_itself(rt: HostRuntime) -> Result<(), Fail> {
    let mut mixed = set(&[8, 2])?;
    mixed.insert(Key { table: 1, id: 5 })?;
    for (args, dependent, reads, writes) in [
        (KvRequest::Put(3, 1), false, [].as_slice(), [3].as_slice()),
        (KvRequest::Add(3, 1), false, &[3], &[3]),
        (KvRequest::Get(mixed), false, &[2, 8], &[]),
        (KvRequest::Move(8, 2, 1), false, &[2, 8], &[2, 8]),
        (KvRequest::Move(3, 3, 1), false, &[3], &[3]),
        (KvRequest::Follow(3), true, &[3], &[]),
    ] {
        let sets = Sets {
            reads: set(reads)?,
            writes: set(writes)?,
        };
        same(
            &rt,
            (args, described(&Kv, &args)),
            (args, (16, 0, dependent, sets)),
        );
    }
    Ok(())
}

/// Requests applied one by one, each into the places that the one before it has filled.
fn told_in_place(
    rt: &impl Abort,
    alloc: Global,
    asked: &[(Txn<KvRequest>, Answer<KvReply>)],
) -> Result<(), Fault> {
    let mut serial = Serial::new(alloc, Kv);
    let mut seen = View::new();
    let mut answer = Answer::Changed;
    let mut writes = Writes::new();
    for (txn, want) in asked {
        serial.apply_into(txn, &mut seen, &mut answer, &mut writes)?;
        same(rt, (txn.args, answer), (txn.args, *want));
    }
    Ok(())
}

#[test]
fn places_used_again(rt: HostRuntime) -> Result<(), Fail> {
    let mut values = Few::new();
    values.push(Some(15));
    values.push(None);
    let done = Answer::Reply(KvReply::Done);
    let both = declared(KvRequest::Get(set(&[3, 4])?));
    let both_told = Answer::Reply(KvReply::Values(values));
    let five = set(&[5])?;
    let asked = [
        (declared(KvRequest::Put(3, 10)), done),
        (
            declared(KvRequest::Add(3, 5)),
            Answer::Reply(KvReply::Value(15)),
        ),
        (both, both_told),
        (
            declared(KvRequest::Add(3, u64::MAX)),
            Answer::Reply(KvReply::Limit),
        ),
        (both, both_told),
        (declared(KvRequest::Put(3, 0)), done),
        (txn(KvRequest::Add(3, 1), five, five), Answer::Changed),
    ];
    told_in_place(&rt, rt.alloc(), &asked)?;
    Ok(())
}

/// Whether the rows are those of the first puts of `0..40`, so many, each under itself.
fn has_put<A: App<Args = KvRequest, Row = u64>>(serial: &Serial<A>, count: u64) -> bool {
    (0..40).all(|id| serial.rows().get(&key(id)) == if id < count { Some(id) } else { None })
}

/// Puts a number under itself; where there is no memory, again. Whether the first was refused for another cause or
/// changed something.
fn put_twice(serial: &mut Serial<Kv>, id: u64) -> Result<bool, Fault> {
    let txn = declared(KvRequest::Put(id, id));
    match serial.apply(&txn) {
        Ok(_answer) => Ok(false),
        Err(fault) => {
            let wrong = fault != Fault::OutOfMemory || !has_put(serial, id);
            let _answer = serial.apply(&txn)?;
            Ok(wrong)
        }
    }
}

// Where any one allocation fails, the request that it fails changes nothing, and is taken when it is made again.
#[test]
fn refused_apply_changes_nothing(rt: HostRuntime) -> Result<(), Fail> {
    let mut serial = Serial::new(rt.alloc(), Kv);
    for id in 0..40u64 {
        same(&rt, (id, put_twice(&mut serial, id)?), (id, false));
        same(&rt, (id, has_put(&serial, id + 1)), (id, true));
    }
    Ok(())
}
