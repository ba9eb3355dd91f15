//! How a case is run: a cluster opens over a book, is called, and stops.
ghost use Rattle.std.specs.Prelude.{◌≡◌};

use crate::adding::{add_hundred, add_until_all_stand, check_hundred};
use crate::drills::check_drill;
use crate::gates::{Counting, Counts, Holds};
use crate::halting::{check_halted, put_then_halt};
use crate::jobs::{put_meanwhile, put_on_keys, put_two};
use crate::receipts::{begun_book, call_each, check_told, put_after_told};
use crate::stores::{Handed, KvCluster, KvStopped, new_book, same};
use calvin_app::{Kv, KvRequest};
use calvin_book::StoreBook;
use calvin_cluster::{Drill, Founding, NO_DRILL, Opened};
use calvin_types::Fault;
use calvin_world::Event;
use std::alloc::Global;
use std::marker::Brand;
use std::process::Abort;
use std::sync::{Arc, Wait};
use std::thread::Threads;

/// What is called.
#[derive(Clone, Copy, Debug, PartialEq, Eq)]
pub(crate) enum Calls {
    PutTwo,
    /// So many puts on distinct keys.
    PutOnKeys(u32),
    PutMeanwhile,
    AddHundred,
    /// The same, and then to wait until every node stands where the last of these is done.
    AddUntilAllStand,
    PutThenHalt,
    PutAfterTold,
    CallEach,
}

/// A case: how large the store is, how many workers there are and whom the gate holds, what goes wrong on purpose, what is called,
/// and how many requests come to the gate, where that doesn't rest on the schedule.
#[derive(Clone, Copy, Debug)]
pub(crate) struct Case {
    pub partitions: u8,
    pub replicas: u8,
    pub workers: usize,
    pub holds: Holds,
    pub drill: Drill,
    pub calls: Calls,
    pub runs: Option<u64>,
}

/// One node, which all requests are run by.
pub(crate) const ONE_NODE: Case = Case {
    partitions: 1,
    replicas: 1,
    workers: 1,
    holds: Holds::Nobody,
    drill: NO_DRILL,
    calls: Calls::CallEach,
    runs: None,
};

/// Calls a cluster. What is handed out is in the order in which it was.
fn call<J: Founding + 'static, R: Threads + Wait + Abort + Copy + Send + Sync + 'static>(
    rt: R,
    alloc: Global,
    cluster: &KvCluster<J>,
    calls: Calls,
    counts: &Counts,
) -> Result<Vec<Handed<J>>, Fault> {
    match calls {
        Calls::PutTwo => put_two(&rt, alloc, cluster),
        Calls::PutOnKeys(keys) => put_on_keys(&rt, alloc, cluster, keys),
        Calls::PutMeanwhile => put_meanwhile(&rt, alloc, cluster, counts),
        Calls::AddHundred => add_hundred(rt, alloc, cluster),
        Calls::AddUntilAllStand => add_until_all_stand(rt, alloc, cluster),
        Calls::PutThenHalt => put_then_halt(&rt, alloc, cluster),
        Calls::PutAfterTold => put_after_told(&rt, alloc, cluster),
        Calls::CallEach => call_each(&rt, alloc, cluster),
    }
}

/// What a request's caller was handed is of the book that is left.
fn check_handed<J: Founding>(rt: &impl Abort, stopped: &KvStopped<J>, handed: &Handed<J>) {
    stopped.ticket(&handed.ticket);
    if let Some((answer, told)) = &handed.heard {
        stopped.told(told);
        let found = stopped.book().answer(handed.ticket.submission());
        same(rt, found, Some(*answer));
    }
}

/// What was handed out is of the book that is left, it is the right one, and what was to go wrong did.
fn check_left<J: Founding, R: Abort>(
    rt: &R,
    alloc: Global,
    case: &Case,
    handed: &[Handed<J>],
    stopped: &KvStopped<J>,
) -> Result<(), Fault> {
    for one in handed {
        check_handed(rt, stopped, one);
    }
    check_drill(rt, alloc, &case.drill, stopped.book())?;
    match case.calls {
        Calls::AddHundred | Calls::AddUntilAllStand => {
            check_hundred(rt, alloc, handed, stopped.book())?
        }
        Calls::PutThenHalt => check_halted(rt, stopped.book()),
        Calls::PutAfterTold => check_told(rt, stopped.book()),
        _ => {}
    }
    Ok(())
}

/// Opens a cluster over a book, calls it, and stops it.
fn run_over<J: Founding + 'static, R: Threads + Wait + Abort + Copy + Send + Sync + 'static>(
    rt: R,
    alloc: Global,
    opened: Opened<Event<KvRequest>>,
    book: StoreBook<Kv>,
    gate: Counting,
    case: &Case,
    counts: &Counts,
) -> Result<(), Fault>
    requires opened { opened ≡ J.book }
    requires config { book.config ≡ J.config }
{
    let cluster = match KvCluster::<J>::open_in_drill(
        rt,
        alloc,
        Kv,
        opened,
        book,
        gate,
        case.workers,
        case.drill,
    ) {
        Ok(cluster) => cluster,
        Err((fault, _book)) => return Err(fault),
    };
    let handed = call(rt, alloc, &cluster, case.calls, counts);
    let stopped = cluster.stop(&rt)?;
    check_left(&rt, alloc, case, &handed?, &stopped)
}

/// Runs a case. What it is refused with is none of its own refusals, so that it fails.
pub(crate) fn run<R: Threads + Wait + Abort + Copy + Send + Sync + 'static>(
    rt: R,
    alloc: Global,
    case: &Case,
) -> Result<(), Fault> {
    let counts = Counts::new(alloc)?;
    let gate = Counting {
        holds: case.holds,
        counts: Arc::try_clone(&counts)?,
    };
    let book = match case.calls {
        Calls::PutAfterTold => begun_book(alloc)?,
        _ => new_book(alloc, case.partitions, case.replicas)?,
    };
    run_over::<Brand, _>(rt, alloc, Opened::new(), book, gate, case, &counts)?;
    same(&rt, counts.given_up(), 0);
    if let Some(runs) = case.runs {
        same(&rt, counts.begun(), runs);
    }
    Ok(())
}
