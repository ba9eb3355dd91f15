//! One run.
ghost use Rattle.std.specs.Prelude.{◌≡◌};

use crate::calling::{KvCluster, Seen, call};
use crate::checking::is_right;
use calvin_app::{Kv, KvRequest};
use calvin_book::StoreBook;
use calvin_cluster::{Founding, Open, Opened};
use calvin_stress_draws::{Run, run_of};
use calvin_types::{Config, Fault};
use calvin_world::Event;
use std::alloc::Global;
use std::marker::Brand;
use std::sync::Wait;
use std::thread::{Threads, map_indices};

/// All callers of a run call a cluster over a book, and it stops: whether all answers are right.
fn call_all<J: Founding + 'static, R: Threads + Wait + Copy + Send + Sync + 'static>(
    rt: R,
    alloc: Global,
    opened: Opened<Event<KvRequest>>,
    book: StoreBook<Kv>,
    run: &Run,
) -> Result<bool, Fault>
    requires opened { opened ≡ J.book }
    requires config { book.config ≡ J.config }
{
    let cluster = match KvCluster::<J>::open(rt, alloc, Kv, opened, book, Open, run.workers) {
        Ok(cluster) => cluster,
        Err((fault, _book)) => return Err(fault),
    };
    let lent = &cluster;
    let callers = map_indices(
        &rt,
        alloc,
        run.callers,
        &|client| { call(&rt, alloc, lent, run, client.min(255) as u32) },
    )?;
    let stopped = cluster.stop(&rt)?;
    let mut seen: Vec<Seen> = Vec::new(alloc);
    for caller in callers {
        for one in &caller? {
            seen.push(*one)?;
        }
    }
    is_right(alloc, run.number, stopped.book(), &seen)
}

/// The run of a number, in a new store.
pub(crate) fn run<R: Threads + Wait + Copy + Send + Sync + 'static>(
    rt: R,
    alloc: Global,
    number: u64,
) -> Result<bool, Fault> {
    let run = run_of(number);
    let config = Config::new(run.partitions, run.replicas)?;
    let book = StoreBook::<Kv>::new(alloc, &config, Kv)?;
    call_all::<Brand, _>(rt, alloc, Opened::new(), book, &run)
}
