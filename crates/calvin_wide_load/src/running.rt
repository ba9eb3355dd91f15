//! A load is run.
ghost use Rattle.std.specs.Prelude.{◌≡◌, ◌*◌};

use crate::gate::Slow;
use calvin_app::{Kv, KvReply, KvRequest};
use calvin_book::StoreBook;
use calvin_histories::{Entry, History, assemble};
use calvin_types::{Config, Fault, KeySet, NodeId, RequestId, Sets, Txn};
use calvin_wide::{Opened, StoreWideCluster, WideFounding, WideTicket, opened_for};
use std::alloc::Global;
use std::marker::Brand;
use std::sync::Wait;
use std::thread::Threads;
use std::time::{Clock, Duration};

/// What becomes of the histories that are left.
#[derive(Clone, Copy, Debug, PartialEq, Eq)]
pub(crate) enum Ending {
    /// They are thrown away.
    Forget,
    /// They are assembled.
    Assemble,
}

/// What is run: how many requests, how many of them are submitted before the first of these is waited for, by how many workers,
/// how many microseconds each takes at the gate, how large the store is, and what becomes of the histories that it leaves.
#[derive(Clone, Copy)]
pub(crate) struct Load {
    pub requests: u32,
    pub ahead: u32,
    pub workers: usize,
    pub micros: u64,
    pub partitions: u8,
    pub replicas: u8,
    pub ending: Ending,
}

type Loaded<G, J> = StoreWideCluster<Kv, G, J>;

/// The node of replica 0 where the request of a number is submitted: the one that has its key.
fn desk_of(number: u32, load: &Load) -> NodeId {
    let partition = match number.checked_rem(u32::from(load.partitions)) {
        Some(partition) => partition as u8,
        None => 0,
    };
    NodeId {
        replica: 0,
        partition,
    }
}

/// The request of a number, a put on a key of its own.
fn request(number: u32) -> Txn<KvRequest> {
    let args = KvRequest::Put(u64::from(number), 1);
    let mut sets = Sets {
        reads: KeySet::new(),
        writes: KeySet::new(),
    };
    args.add_first_needs(&mut sets);
    Txn {
        id: RequestId { client: 7, number },
        attempt: 1,
        args,
        sets,
    }
}

/// Submits the requests from one number on and before another.
fn submit_all<R: Wait + Clock + Send + Sync + Drop, J: WideFounding>(
    rt: &R,
    alloc: Global,
    cluster: &Loaded<Slow<R>, J>,
    load: &Load,
    first: u32,
    last: u32,
) -> Result<Vec<WideTicket<Kv, J>>, Fault> {
    let mut tickets = Vec::new(alloc);
    for number in first..last {
        let desk = desk_of(number, load);
        tickets.push(cluster.submit(rt, desk, request(number))?)?;
    }
    Ok(tickets)
}

/// Submits these requests, waits for each, and says how many were answered.
fn ask_all<R: Wait + Clock + Send + Sync + Drop, J: WideFounding>(
    rt: &R,
    alloc: Global,
    cluster: &Loaded<Slow<R>, J>,
    load: &Load,
    first: u32,
    last: u32,
) -> Result<u32, Fault> {
    let mut answered: u32 = 0;
    for ticket in &submit_all(rt, alloc, cluster, load, first, last)? {
        let _heard = cluster.wait(rt, ticket)?;
        answered = answered.saturating_add(1);
    }
    Ok(answered)
}

/// One caller's requests, so many at a time. Says how many were answered.
fn call<R: Wait + Clock + Send + Sync + Drop, J: WideFounding>(
    rt: &R,
    alloc: Global,
    cluster: &Loaded<Slow<R>, J>,
    load: &Load,
) -> Result<u32, Fault> {
    let mut next = 0;
    let mut answered: u32 = 0;
    for _ in 0..load.requests {
        let last = load.ahead.max(1).saturating_add(next).min(load.requests);
        answered = ask_all(rt, alloc, cluster, load, next, last)?.saturating_add(answered);
        next = last;
    }
    Ok(answered)
}

/// The histories are assembled, if they are to be.
fn put_together(alloc: Global, load: &Load, histories: &[History<Kv>]) -> Result<(), Fault> {
    if load.ending == Ending::Forget {
        return Ok(());
    }
    let config = Config::new(load.partitions, load.replicas)?;
    let book: StoreBook<Kv> = match assemble(alloc, &config, Kv, histories) {
        Ok(book) => book,
        Err(why) => return Err(why.fault()),
    };
    drop(book);
    Ok(())
}

fn run_over<J, R>(
    rt: R,
    alloc: Global,
    opened: Opened<Entry<KvRequest, u64, KvReply>>,
    book: StoreBook<Kv>,
    load: &Load,
) -> Result<u32, Fault>
where
    J: WideFounding + 'static,
    R: Threads + Wait + Clock + Copy + Send + Sync + Drop + 'static,
    requires opened { (opened.0 ≡ J.book) × (opened.1 ≡ J.nodes) }
    requires nodes { J.nodes ≡ book.config.replicas * book.config.partitions }
    requires config { book.config ≡ J.config }
{
    let gate = Slow {
        rt,
        time: Duration::from_micros(load.micros),
    };
    let workers = load.workers;
    let cluster = match Loaded::<Slow<R>, J>::open(rt, alloc, Kv, opened, book, gate, workers) {
        Ok(cluster) => cluster,
        Err((fault, _book)) => return Err(fault),
    };
    let answered = call(&rt, alloc, &cluster, load);
    let histories = cluster.stop(&rt)?.into_histories();
    let assembled = put_together(alloc, load, &histories);
    drop(histories);
    assembled?;
    answered
}

/// Runs a load on a new store, and says how many requests were answered.
pub(crate) fn run<R: Threads + Wait + Clock + Copy + Send + Sync + Drop + 'static>(
    rt: R,
    alloc: Global,
    load: &Load,
) -> Result<u32, Fault> {
    let config = Config::new(load.partitions, load.replicas)?;
    let book = StoreBook::<Kv>::new(alloc, &config, Kv)?;
    let opened = opened_for(&book);
    run_over::<Brand, _>(rt, alloc, opened, book, load)
}
