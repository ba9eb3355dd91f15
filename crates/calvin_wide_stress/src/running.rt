//! One run.
ghost use Rattle.std.specs.Prelude.{◌≡◌, ◌*◌};

use crate::calling::{Handed, KvCluster, call};
use crate::checking::{are_answered, are_submitted};
use calvin_app::{Kv, KvReply, KvRequest};
use calvin_book::StoreBook;
use calvin_cluster::Open;
use calvin_histories::{Entry, History, assemble};
use calvin_stress_draws::{Run, run_of};
use calvin_types::{Config, Fault};
use calvin_wide::{Opened, WideFounding, WideStopped, opened_for};
use std::alloc::Global;
use std::marker::Brand;
use std::sync::Wait;
use std::thread::{Threads, map_indices};

/// The first caller of the store that is opened over what another one left.
const OTHERS: u32 = 100;

/// What was handed out is of the histories that are left.
fn take_receipts<J: WideFounding>(stopped: &WideStopped<Kv, J>, handed: &[Handed<J>]) {
    for one in handed {
        stopped.ticket(&one.ticket);
        if let Some(answer) = &one.heard {
            stopped.answer(answer);
        }
    }
}

/// What all callers were handed, if none of them was refused.
fn all_handed<J: WideFounding>(
    alloc: Global,
    callers: Vec<Result<Vec<Handed<J>>, Fault>>,
) -> Result<Vec<Handed<J>>, Fault> {
    let mut all = Vec::new(alloc);
    for caller in callers {
        for one in caller? {
            all.push(one)?;
        }
    }
    Ok(all)
}

/// The book that the histories assemble to, if it has the answers that were handed out. Refused with `NoRun` where there is none.
fn assembled<J: WideFounding>(
    alloc: Global,
    run: &Run,
    histories: &[History<Kv>],
    handed: &[Handed<J>],
) -> Result<Option<StoreBook<Kv>>, Fault> {
    if !are_submitted(run, histories, handed) {
        return Ok(None);
    }
    let config = Config::new(run.partitions, run.replicas)?;
    let book: StoreBook<Kv> = match assemble(alloc, &config, Kv, histories) {
        Ok(book) => book,
        Err(why) => return Err(why.fault()),
    };
    match are_answered(alloc, run, &book, handed) {
        Ok(true) => Ok(Some(book)),
        Ok(false) => Ok(None),
        Err(fault) => Err(fault),
    }
}

/// All callers of a run, numbered from one on, call a store over a book, and it stops. The book that is left, if all answers are right.
fn call_all<J: WideFounding + 'static, R: Threads + Wait + Copy + Send + Sync + 'static>(
    rt: R,
    alloc: Global,
    opened: Opened<Entry<KvRequest, u64, KvReply>>,
    book: StoreBook<Kv>,
    run: &Run,
    first: u32,
) -> Result<Option<StoreBook<Kv>>, Fault>
    requires opened { (opened.0 ≡ J.book) × (opened.1 ≡ J.nodes) }
    requires nodes { J.nodes ≡ book.config.replicas * book.config.partitions }
    requires config { book.config ≡ J.config }
{
    let cluster = match KvCluster::<J>::open(rt, alloc, Kv, opened, book, Open, run.workers) {
        Ok(cluster) => cluster,
        Err((fault, _book)) => return Err(fault),
    };
    let lent = &cluster;
    let call_as = |caller: usize| {
        let client = first.saturating_add(caller.min(255) as u32);
        call(&rt, alloc, lent, run, client)
    };
    let callers = map_indices(&rt, alloc, run.callers, &call_as);
    let stopped = cluster.stop(&rt)?;
    let handed = all_handed(alloc, callers?)?;
    take_receipts(&stopped, &handed);
    let histories = stopped.into_histories();
    let left = assembled(alloc, run, &histories, &handed);
    drop(histories);
    left
}

/// A store opens over a book, is called, and leaves another one.
fn sit<R: Threads + Wait + Copy + Send + Sync + 'static>(
    rt: R,
    alloc: Global,
    book: StoreBook<Kv>,
    run: &Run,
    first: u32,
) -> Result<Option<StoreBook<Kv>>, Fault> {
    let opened = opened_for(&book);
    call_all::<Brand, _>(rt, alloc, opened, book, run, first)
}

/// The run of a number: in a new store, and then once more, with other callers and without a halt, in one over the book that it left.
/// Whether all answers are right.
pub(crate) fn run<R: Threads + Wait + Copy + Send + Sync + 'static>(
    rt: R,
    alloc: Global,
    number: u64,
) -> Result<bool, Fault> {
    let run = run_of(number);
    let config = Config::new(run.partitions, run.replicas)?;
    let book = StoreBook::<Kv>::new(alloc, &config, Kv)?;
    let Some(book) = sit(rt, alloc, book, &run, 0)? else {
        return Ok(false);
    };
    let again = Run { halts: None, ..run };
    let left = sit(rt, alloc, book, &again, OTHERS)?;
    Ok(left.is_some())
}
