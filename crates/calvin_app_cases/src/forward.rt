//! A second application, whose writes depend on a row, and which has no bodies of its own for what `App` gives bodies to.
ghost use Rattle.std.specs.Prelude.{◌≡◌, true};
ghost use Rattle.std.proofs.Common.{lit<};
ghost use Rattle.calvin_app.specs.KvExact.{numbers_exact};
ghost use Rattle.calvin_app_cases.specs.Forward.{named, forward, forward_lawful};

use crate::checks::{holds, same};
use crate::kv::{described, key, set, txn};
use calvin_app::{Answer, App, Serial, View, Writes};
use calvin_types::{Fault, Key, KeySet, Sets};
use std::test::Fail;

/// The request `a` reads the row of the key `a`, which is the number of another key. It tells the row under that key
/// and writes `a` there. No row counts as 0, and all keys are of table 0.
#[derive(Drop)]
struct Forward;

/// The key that the row of the key `a` names.
fn named(a: u64, view: &View<u64>) -> Key
    ensures { result ≡ named a view.now }
{
    key(view.get(&key(a)).unwrap_or(0))
}

impl App for Forward {
    type Args = u64;

    type Row = u64;

    type Reply = u64;

    ghost meaning = { forward };

    ghost is_dependent = { λ _. true };

    ghost key_limit = { 2 };

    ghost table_limit = { 0 };

    fn most_keys(&self) -> usize {
        2
    }

    fn top_table(&self) -> u8 {
        0
    }

    fn dependent(&self, _args: &u64) -> bool {
        true
    }

    fn sets(&self, args: &u64, view: &View<u64>) -> Sets {
        let other = named(*args, view);
        let mut reads = KeySet::of(key(*args));
        reads.insert(other).unwrap();
        Sets {
            reads,
            writes: KeySet::of(other),
        }
    }

    fn run(&self, args: &u64, view: &View<u64>) -> (u64, Writes<u64>) {
        let other = named(*args, view);
        (view.get(&other).unwrap_or(0), Writes::of(other, *args))
    }

    ghost lawful = { forward_lawful };

    ghost rows_fit = { lit< tt };

    ghost job_fits = { lit< tt };

    ghost work_fits = { lit< tt };

    ghost args_exact = { numbers_exact };

    ghost rows_exact = { numbers_exact };

    ghost replies_exact = { numbers_exact };
}

/// What a request with these sets is told, or nothing where it is answered `Changed`, and the rows of 0, 3 and 5
/// after it.
fn forwarded(
    serial: &mut Serial<Forward>,
    args: u64,
    reads: &[u64],
    writes: &[u64],
) -> Result<(Option<u64>, [Option<u64>; 3]), Fault> {
    let told = match serial.apply(&txn(args, set(reads)?, set(writes)?))? {
        Answer::Reply(reply) => Some(reply),
        Answer::Changed => None,
    };
    let rows = serial.rows();
    Ok((
        told,
        [rows.get(&key(0)), rows.get(&key(3)), rows.get(&key(5))],
    ))
}

#[test]
fn rows_forwarded(rt: HostRuntime) -> Result<(), Fail> {
    let mut serial = Serial::new(rt.alloc(), Forward);
    // A request, its declared reads and writes, what it is told, and the rows of 0, 3 and 5 after it.
    for (args, reads, writes, told, rows) in [
        // 3 has no row, so it names 0.
        (
            3,
            [0, 3].as_slice(),
            [0].as_slice(),
            Some(0),
            [Some(3), None, None],
        ),
        (0, &[0, 3], &[3], Some(0), [Some(3), Some(0), None]),
        (5, &[0, 5], &[0], Some(3), [Some(5), Some(0), None]),
        // 0 named 3 before the last request, and names 5 after it.
        (0, &[0, 3], &[3], None, [Some(5), Some(0), None]),
        (0, &[0, 5], &[5], Some(0), [Some(5), Some(0), Some(0)]),
        // Superfluous reads, and superfluous writes.
        (3, &[0, 3, 5], &[0], None, [Some(5), Some(0), Some(0)]),
        (3, &[0, 3], &[0, 3], None, [Some(5), Some(0), Some(0)]),
        (3, &[0, 3], &[0], Some(5), [Some(3), Some(0), Some(0)]),
    ] {
        let found = forwarded(&mut serial, args, reads, writes)?;
        same(
            &rt,
            (args, reads, writes, found),
            (args, reads, writes, (told, rows)),
        );
    }
    Ok(())
}

#[test]
fn what_forward_says_of_itself(rt: HostRuntime) -> Result<(), Fail> {
    let sets = Sets {
        reads: set(&[0, 3])?,
        writes: set(&[0])?,
    };
    holds(&rt, described(&Forward, &3) == (2, 0, true, sets));
    Ok(())
}
