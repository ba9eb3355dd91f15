//! How a case is run: a store opens over a book, is called, stops, and its histories are assembled.
ghost use Rattle.std.specs.Prelude.{◌≡◌, ◌*◌};

use crate::adding::{add_hundred, check_hundred};
use crate::gates::{Counting, Counts, Holds};
use crate::giving_back::{give_back, give_histories_back};
use crate::halting::put_then_halt;
use crate::jobs::put_two;
use crate::nodes::put_at_both;
use crate::receipts::{begun_book, call_each, check_begun};
use crate::stores::{Handed, KvCluster, KvStopped, new_book, same};
use calvin_app::{Kv, KvReply, KvRequest};
use calvin_book::StoreBook;
use calvin_histories::{Entry, assemble};
use calvin_types::{Config, Fault};
use calvin_wide::{Opened, WideFounding, opened_for};
use std::alloc::Global;
use std::marker::Brand;
use std::process::Abort;
use std::sync::{Arc, Wait};
use std::thread::Threads;

/// What is called.
#[derive(Clone, Copy, Debug, PartialEq, Eq)]
pub(crate) enum Calls {
    PutTwo,
    PutAtBoth,
    AddHundred,
    PutThenHalt,
    CallEach,
}

/// A case: how large the store is, how many workers there are and whom the gate holds, what is called, and how many requests come to
/// the gate, where that doesn't rest on the schedule.
#[derive(Clone, Copy, Debug)]
pub(crate) struct Case {
    pub partitions: u8,
    pub replicas: u8,
    pub workers: usize,
    pub holds: Holds,
    pub calls: Calls,
    pub runs: Option<u64>,
}

/// One node, which all requests are run by.
pub(crate) const ONE_NODE: Case = Case {
    partitions: 1,
    replicas: 1,
    workers: 1,
    holds: Holds::Nobody,
    calls: Calls::CallEach,
    runs: None,
};

/// Calls a store. What is handed out is in the order in which it was.
fn call<J: WideFounding + 'static, R: Threads + Wait + Abort + Copy + Send + Sync + 'static>(
    rt: R,
    alloc: Global,
    cluster: &KvCluster<J>,
    calls: Calls,
) -> Result<Vec<Handed<J>>, Fault> {
    match calls {
        Calls::PutTwo => put_two(&rt, alloc, cluster),
        Calls::PutAtBoth => put_at_both(rt, alloc, cluster),
        Calls::AddHundred => add_hundred(rt, alloc, cluster),
        Calls::PutThenHalt => put_then_halt(&rt, alloc, cluster),
        Calls::CallEach => call_each(&rt, alloc, cluster),
    }
}

/// What was handed out is of the histories that are left: these are assembled, and that list has the right answers.
fn check_left<J: WideFounding, R: Abort>(
    rt: &R,
    alloc: Global,
    case: &Case,
    handed: &[Handed<J>],
    stopped: KvStopped<J>,
) -> Result<(), Fault> {
    for one in handed {
        stopped.ticket(&one.ticket);
        if let Some(answer) = &one.heard {
            stopped.answer(answer);
        }
    }
    let config = Config::new(case.partitions, case.replicas)?;
    let histories = stopped.into_histories();
    let book = match assemble(alloc, &config, Kv, &histories) {
        Ok(book) => book,
        Err(why) => {
            same(rt, Some(why), None);
            return Err(why.fault());
        }
    };
    match case.calls {
        Calls::AddHundred => check_hundred(rt, alloc, handed, &book, &histories)?,
        Calls::CallEach => check_begun(rt, &book),
        _ => {}
    }
    give_back(book);
    give_histories_back(histories);
    Ok(())
}

/// Opens a store over a book, calls it, and stops it.
fn run_over<J: WideFounding + 'static, R: Threads + Wait + Abort + Copy + Send + Sync + 'static>(
    rt: R,
    alloc: Global,
    opened: Opened<Entry<KvRequest, u64, KvReply>>,
    book: StoreBook<Kv>,
    gate: Counting,
    case: &Case,
) -> Result<(), Fault>
    requires opened { (opened.0 ≡ J.book) × (opened.1 ≡ J.nodes) }
    requires nodes { J.nodes ≡ book.config.replicas * book.config.partitions }
    requires config { book.config ≡ J.config }
{
    let cluster = match KvCluster::<J>::open(rt, alloc, Kv, opened, book, gate, case.workers) {
        Ok(cluster) => cluster,
        Err((fault, _book)) => return Err(fault),
    };
    let handed = call(rt, alloc, &cluster, case.calls);
    let stopped = cluster.stop(&rt)?;
    check_left(&rt, alloc, case, &handed?, stopped)
}

/// Runs a case. What it is refused with is none of its own refusals, so that it fails.
pub(crate) fn run<R: Threads + Wait + Abort + Copy + Send + Sync + 'static>(
    rt: R,
    alloc: Global,
    case: &Case,
) -> Result<(), Fault> {
    let counts = Counts::new(alloc)?;
    let gate = Counting {
        holds: case.holds,
        counts: Arc::try_clone(&counts)?,
    };
    let book = match case.calls {
        Calls::CallEach => begun_book(alloc)?,
        _ => new_book(alloc, case.partitions, case.replicas)?,
    };
    let opened = opened_for(&book);
    run_over::<Brand, _>(rt, alloc, opened, book, gate, case)?;
    same(&rt, counts.given_up(), 0);
    same(&rt, counts.lent() > 0, true);
    if let Some(runs) = case.runs {
        same(&rt, counts.begun(), runs);
    }
    Ok(())
}
