//! An application whose sets move on with every look, and the search for sets over it and over Kv.
ghost use Rattle.std.specs.Prelude.{◌≡◌, ◌≤◌, true, IfSome};
ghost use Rattle.std.proofs.Common.{lit<};
ghost use Rattle.calvin_app.specs.KvExact.{numbers_exact};
ghost use Rattle.calvin_recon_cases.specs.Slide.{greatest, slide, slide_lawful};

use crate::checks::holds;
use calvin_app::{App, Kv, KvRequest, Table, View, Writes};
use calvin_recon::{scout, settled_sets};
use calvin_types::{Fault, Key, KeySet, Sets};
use std::alloc::Global;
use std::test::Fail;

/// Every request reads the greatest key up to 30 that has a row, and the key after it; where there is none, the key 0. It
/// writes nothing and tells 0.
#[derive(Drop)]
struct Slide;

/// A key of table 0.
fn key(id: u64) -> Key
    ensures { result ≡ record { table = 0; id = id } }
{
    Key { table: 0, id }
}

/// The greatest key up to 30 that has a row.
fn greatest(view: &View<u64>) -> Option<u64>
    ensures greatest { result ≡ greatest 31 view.now }
    ensures up_to { IfSome result (λ id. id ≤ 30) }
{
    let mut found = None;
    for id in 0..31u64 {
        if view.get(&key(id)).is_some() {
            found = Some(id);
        }
    }
    found
}

impl App for Slide {
    type Args = u64;

    type Row = u64;

    type Reply = u64;

    ghost meaning = { slide };

    ghost is_dependent = { λ _. true };

    ghost key_limit = { 2 };

    ghost table_limit = { 0 };

    fn most_keys(&self) -> usize {
        2
    }

    fn top_table(&self) -> u8 {
        0
    }

    fn dependent(&self, _args: &u64) -> bool {
        true
    }

    fn sets(&self, _args: &u64, view: &View<u64>) -> Sets {
        let mut reads = KeySet::new();
        match greatest(view) {
            Some(id) => {
                reads.grow(key(id));
                reads.grow(key(id + 1));
            }
            None => reads.grow(key(0)),
        }
        Sets {
            reads,
            writes: KeySet::new(),
        }
    }

    fn run(&self, _args: &u64, _view: &View<u64>) -> (u64, Writes<u64>) {
        (0, Writes::new())
    }

    ghost lawful = { slide_lawful };

    ghost rows_fit = { lit< tt };

    ghost job_fits = { lit< tt };

    ghost work_fits = { lit< tt };

    ghost args_exact = { numbers_exact };

    ghost rows_exact = { numbers_exact };

    ghost replies_exact = { numbers_exact };
}

/// A table with the row 1 under each of the first keys.
fn rows(alloc: Global, count: u64) -> Result<Table<u64>, Fault> {
    let mut rows = Table::new(alloc);
    for id in 0..count {
        rows.overwrite(&Writes::of(key(id), 1))?;
    }
    Ok(rows)
}

/// Sets of reads alone.
fn reads(ids: &[u64]) -> Result<Sets, Fault> {
    let mut reads = KeySet::new();
    for &id in ids {
        reads.insert(key(id))?;
    }
    Ok(Sets {
        reads,
        writes: KeySet::new(),
    })
}

#[test]
fn scout_that_slides(rt: HostRuntime) -> Result<(), Fail> {
    holds(
        &rt,
        scout(&Slide, &0, &rows(rt.alloc(), 5)?) == Ok(reads(&[4, 5])?),
    );
    holds(
        &rt,
        scout(&Slide, &0, &rows(rt.alloc(), 30)?) == Err(Fault::Unsettled),
    );
    holds(&rt, Fault::Unsettled.number() == 72);
    Ok(())
}

#[test]
fn scout_follows(rt: HostRuntime) -> Result<(), Fail> {
    let mut rows = Table::new(rt.alloc());
    rows.overwrite(&Writes::of(key(1), 5))?;
    holds(
        &rt,
        scout(&Kv, &KvRequest::Follow(1), &rows) == Ok(reads(&[1, 5])?),
    );
    holds(
        &rt,
        scout(&Kv, &KvRequest::Follow(5), &rows) == Ok(reads(&[5])?),
    );
    holds(
        &rt,
        settled_sets(&Kv, &KvRequest::Follow(1), &rows) == reads(&[1, 5])?,
    );
    Ok(())
}
