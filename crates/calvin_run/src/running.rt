//! A cluster brings a book to its last epoch.
ghost use Rattle.std.specs.Prelude.{◌≡◌, ◌<◌, ◌≤◌, false, IfOk, IfErr};
ghost use mathlib.Core.List.{IsPrefix};
ghost use Rattle.calvin_cluster.specs.declared.cluster.TheConstants.{MOST_WORKERS};
ghost use Rattle.calvin_run.specs.Engine.{IsClusterFault};

use calvin_app::App;
use calvin_book::Book;
use calvin_cluster::{Cluster, Founding, Gate, Opened};
use calvin_lock::Locks;
use calvin_store::Rows;
use calvin_types::Fault;
use calvin_world::Event;
use std::alloc::Global;
use std::marker::Brand;
use std::sync::Wait;
use std::thread::Threads;

/// Opens a cluster over a book, waits until every node stands at the end of the last of so many epochs, stops it, and gives the book
/// that it leaves. Refused with `NotEnded` where its book is still shared, and with `OutOfMemory` where it could not be opened or
/// closed before for want of memory.
pub(crate) fn bring_on<A, L, S, G, R>(
    rt: R,
    alloc: Global,
    app: A,
    book: Book<A, L, S>,
    epochs: u64,
    workers: usize,
    gate: G,
) -> Result<Book<A, L, S>, Fault>
where
    A: App + Copy + Drop + Send + Sync + 'static,
    A::Args: Send + Sync + 'static,
    A::Row: Send + Sync + 'static,
    A::Reply: Send + Sync + 'static,
    L: Locks + Drop + Send + 'static,
    S: Rows<A::Row> + Drop + Send + 'static,
    G: Gate + 'static,
    R: Threads + Wait + Copy + Send + Sync + 'static,
    requires some_worker { 0 < workers }
    requires workers_at_most { workers ≤ MOST_WORKERS }
    ensures config { IfOk result (λ b. b.config ≡ book.config) }
    ensures begins { IfOk result (λ b. IsPrefix book.events b.events) }
    ensures only { IfErr result (IsClusterFault false) }
{
    let opened = Opened::new();
    bring_on_named::<A, L, S, G, Brand, R>(rt, alloc, app, opened, book, epochs, workers, gate)
}

/// The same, where the history that the cluster writes has a name.
fn bring_on_named<A, L, S, G, J, R>(
    rt: R,
    alloc: Global,
    app: A,
    opened: Opened<Event<A::Args>>,
    book: Book<A, L, S>,
    epochs: u64,
    workers: usize,
    gate: G,
) -> Result<Book<A, L, S>, Fault>
where
    A: App + Copy + Drop + Send + Sync + 'static,
    A::Args: Send + Sync + 'static,
    A::Row: Send + Sync + 'static,
    A::Reply: Send + Sync + 'static,
    L: Locks + Drop + Send + 'static,
    S: Rows<A::Row> + Drop + Send + 'static,
    G: Gate + 'static,
    J: Founding + 'static,
    R: Threads + Wait + Copy + Send + Sync + 'static,
    requires opened { opened ≡ J.book }
    requires config { book.config ≡ J.config }
    requires some_worker { 0 < workers }
    requires workers_at_most { workers ≤ MOST_WORKERS }
    ensures config { IfOk result (λ b. b.config ≡ book.config) }
    ensures begins { IfOk result (λ b. IsPrefix book.events b.events) }
    ensures only { IfErr result (IsClusterFault false) }
{
    let cluster = match Cluster::<A, L, S, G, J>::open(
        rt, alloc, app, opened, book, gate, workers,
    ) {
        Ok(cluster) => cluster,
        Err((fault, _book)) => return Err(fault),
    };
    let waited = wait_for_last(&rt, &cluster, epochs);
    let stopped = cluster.stop(&rt)?;
    waited?;
    Ok(stopped.into_book())
}

/// Waits until every node stands at the end of the last of so many epochs. Where there is none there is nothing to wait for. Refused
/// with `OutOfMemory` where the cluster closed before: nobody halts it, so that it had no room to go on.
fn wait_for_last<A, L, S, G, J, R>(
    rt: &R,
    cluster: &Cluster<A, L, S, G, J>,
    epochs: u64,
) -> Result<(), Fault>
where
    A: App + Drop,
    L: Locks + Drop,
    S: Rows<A::Row> + Drop,
    G: Gate,
    J: Founding,
    R: Wait,
    ensures only { IfErr result (IsClusterFault false) }
{
    if epochs == 0 {
        return Ok(());
    }
    match cluster.wait_all(rt, epochs - 1) {
        Ok(()) => Ok(()),
        Err(_) => Err(Fault::OutOfMemory),
    }
}
