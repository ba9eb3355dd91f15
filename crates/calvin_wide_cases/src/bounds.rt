//! How many workers there can be.
ghost use Rattle.std.specs.Prelude.{◌≡◌, ◌*◌};

use crate::gates::{Counting, Counts, Holds};
use crate::giving_back::give_back;
use crate::running::{Calls, Case, ONE_NODE, run};
use crate::stores::{KvCluster, new_book, same};
use calvin_app::{Kv, KvReply, KvRequest};
use calvin_book::StoreBook;
use calvin_histories::Entry;
use calvin_types::Fault;
use calvin_wide::{Opened, WideFounding, opened_for};
use std::alloc::Global;
use std::marker::Brand;
use std::process::Abort;
use std::sync::Wait;
use std::test::Fail;
use std::thread::Threads;

/// A store with so many workers isn't opened, and the book is handed back.
fn refuse_over<J: WideFounding + 'static, R: Threads + Wait + Abort + Copy + Send + Sync + 'static>(
    rt: R,
    alloc: Global,
    opened: Opened<Entry<KvRequest, u64, KvReply>>,
    book: StoreBook<Kv>,
    gate: Counting,
    workers: usize,
) -> Result<StoreBook<Kv>, Fault>
    requires opened { (opened.0 ≡ J.book) × (opened.1 ≡ J.nodes) }
    requires nodes { J.nodes ≡ book.config.replicas * book.config.partitions }
    requires config { book.config ≡ J.config }
{
    match KvCluster::<J>::open(rt, alloc, Kv, opened, book, gate, workers) {
        Ok(_cluster) => Err(Fault::NotEnded),
        Err((fault, book)) => {
            same(&rt, fault, Fault::BadWorkers);
            Ok(book)
        }
    }
}

fn refuse<R: Threads + Wait + Abort + Copy + Send + Sync + 'static>(
    rt: R,
    alloc: Global,
    workers: usize,
) -> Result<(), Fault> {
    let gate = Counting {
        holds: Holds::Nobody,
        counts: Counts::new(alloc)?,
    };
    let book = new_book(alloc, 1, 1)?;
    let opened = opened_for(&book);
    let book = refuse_over::<Brand, _>(rt, alloc, opened, book, gate, workers)?;
    give_back(book);
    Ok(())
}

#[test]
fn no_workers(rt: HostRuntime) -> Result<(), Fail> {
    Ok(refuse(rt, rt.alloc(), 0)?)
}

#[test]
fn too_many_workers(rt: HostRuntime) -> Result<(), Fail> {
    Ok(refuse(rt, rt.alloc(), 17)?)
}

#[test]
fn sixteen_workers(rt: HostRuntime) -> Result<(), Fail> {
    let case = Case {
        workers: 16,
        calls: Calls::PutTwo,
        runs: Some(3),
        ..ONE_NODE
    };
    Ok(run(rt, rt.alloc(), &case)?)
}
