//! A store is opened over a book, waited for, and stopped; its histories are assembled.
ghost use Rattle.std.specs.Prelude.{◌≡◌, ◌<◌, ◌≤◌, ◌*◌, IfOk, IfErr};
ghost use Rattle.calvin_cluster.specs.declared.cluster.TheConstants.{MOST_WORKERS};
ghost use Rattle.calvin_wide_run.specs.Running.{BeginsAtNodes, IsWideFault};

use calvin_app::App;
use calvin_book::Book;
use calvin_histories::{Entry, assemble};
use calvin_lock::Locks;
use calvin_store::Rows;
use calvin_types::Fault;
use calvin_wide::{Opened, WideCluster, WideFounding, WideGate};
use std::alloc::Global;
use std::sync::Wait;
use std::thread::Threads;

/// Opens a store with a lock for each node over a book, waits until every node stands at the end of the last of so many epochs, stops
/// it, and gives the book of the one list that the histories are assembled to. Refused with `NotEnded` where a node is still shared,
/// with `NoRun` where no list gives the histories, and with `OutOfMemory` where it could not be opened, closed before for want of
/// memory, or had no room for the list.
pub fn bring_on_wide<A, L, S, G, J, R>(
    rt: R,
    alloc: Global,
    app: A,
    opened: Opened<Entry<A::Args, A::Row, A::Reply>>,
    book: Book<A, L, S>,
    epochs: u64,
    workers: usize,
    gate: G,
) -> Result<Book<A, L, S>, Fault>
where
    A: App + Copy + Drop + Send + Sync + 'static,
    A::Args: Send + Sync + 'static,
    A::Row: Send + Sync + 'static,
    A::Reply: Send + Sync + 'static,
    L: Locks + Drop + Send + 'static,
    S: Rows<A::Row> + Drop + Send + 'static,
    G: WideGate<A, L, S> + 'static,
    J: WideFounding + 'static,
    R: Threads + Wait + Copy + Send + Sync + 'static,
    requires opened { (opened.0 ≡ J.book) × (opened.1 ≡ J.nodes) }
    requires nodes { J.nodes ≡ book.config.replicas * book.config.partitions }
    requires config { book.config ≡ J.config }
    requires some_worker { 0 < workers }
    requires workers_at_most { workers ≤ MOST_WORKERS }
    ensures config { IfOk result (λ b. b.config ≡ book.config) }
    ensures begins { IfOk result (λ b. BeginsAtNodes A.meaning book.config book.events b.events) }
    ensures only { IfErr result IsWideFault }
{
    let config = *book.world().config();
    let cluster = match WideCluster::<A, L, S, G, J>::open(
        rt, alloc, app, opened, book, gate, workers,
    ) {
        Ok(cluster) => cluster,
        Err((fault, _book)) => return Err(fault),
    };
    let waited = wait_for_last(&rt, &cluster, epochs);
    let stopped = cluster.stop(&rt)?;
    waited?;
    match assemble(alloc, &config, app, stopped.histories()) {
        Ok(book) => Ok(book),
        Err(why) => Err(why.fault()),
    }
}

/// Waits until every node stands at the end of the last of so many epochs. Where there is none there is nothing to wait for. Refused
/// with `OutOfMemory` where the store closed before: nobody halts it, so that it had no room to go on.
fn wait_for_last<A, L, S, G, J, R>(
    rt: &R,
    cluster: &WideCluster<A, L, S, G, J>,
    epochs: u64,
) -> Result<(), Fault>
where
    A: App + Drop,
    L: Locks + Drop,
    S: Rows<A::Row> + Drop,
    G: WideGate<A, L, S>,
    J: WideFounding,
    R: Wait,
    ensures only { IfErr result IsWideFault }
{
    if epochs == 0 {
        return Ok(());
    }
    match cluster.wait_all(rt, epochs - 1) {
        Ok(()) => Ok(()),
        Err(_) => Err(Fault::OutOfMemory),
    }
}
