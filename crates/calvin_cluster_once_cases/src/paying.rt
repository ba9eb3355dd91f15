//! A payment that two callers submit.
ghost use Rattle.std.specs.Prelude.{◌≡◌};

use calvin_app::{Answer, App, View};
use calvin_book::StoreBook;
use calvin_cluster::{Founding, Open, Opened, StoreCluster, Told};
use calvin_once::{Named, Once};
use calvin_stock::{Stock, StockReply, StockRequest, stock_once};
use calvin_types::{Config, Fault, KeySet, NodeId, RequestId, Sets, Txn};
use calvin_world::Event;
use std::alloc::Global;
use std::fmt::Debug;
use std::marker::Brand;
use std::process::Abort;
use std::sync::Wait;
use std::test::Fail;
use std::thread::{Threads, map_indices};

type PaidOnce = Once<Stock>;

type PayCluster<J> = StoreCluster<PaidOnce, Open, J>;

const DONE: Answer<StockReply> = Answer::Reply(StockReply::Done);

/// Node (0, p).
fn node(partition: u8) -> NodeId {
    NodeId {
        replica: 0,
        partition,
    }
}

/// Two values are the same; else the test fails, and shows both.
fn same<T: PartialEq + Debug + Drop>(rt: &impl Abort, found: T, wanted: T) {
    assert_eq!(rt; found, wanted);
}

/// A request of client 7, whose number has its effect once.
fn request(
    app: &PaidOnce,
    number: u32,
    args: StockRequest,
) -> Result<Txn<Named<StockRequest>>, Fault> {
    let mut sets = Sets {
        reads: KeySet::new(),
        writes: KeySet::new(),
    };
    args.add_first_needs(&mut sets);
    app.wrap(Txn {
        id: RequestId { client: 7, number },
        attempt: 1,
        args,
        sets,
    })
}

/// A request is submitted at a node, and its answer awaited.
fn ask<J: Founding + 'static, R: Wait>(
    rt: &R,
    cluster: &PayCluster<J>,
    at: NodeId,
    number: u32,
    args: StockRequest,
) -> Result<Answer<StockReply>, Fault> {
    let ticket = cluster.submit(rt, &Told::new(), at, request(&stock_once(), number, args)?)?;
    let (answer, _told) = cluster.wait(rt, &ticket)?;
    Ok(answer)
}

/// Two callers submit the same payment at two nodes: both are told that it is done, and the balance has it once.
fn pay_twice<J: Founding + 'static, R: Threads + Wait + Abort + Copy + Send + Sync + 'static>(
    rt: R,
    alloc: Global,
    cluster: &PayCluster<J>,
) -> Result<(), Fault> {
    let opening = StockRequest::Open { customer: 9 };
    same(&rt, ask(&rt, cluster, node(0), 1, opening)?, DONE);
    let payment = StockRequest::PayIn {
        customer: 9,
        cents: 100,
    };
    let paid = map_indices(
        &rt,
        alloc,
        2,
        &|at| ask(&rt, cluster, node(at.min(255) as u8), 2, payment),
    )?;
    for answer in paid {
        same(&rt, answer?, DONE);
    }
    let asking = StockRequest::Balance { customer: 9 };
    let balance = ask(&rt, cluster, node(0), 3, asking)?;
    same(&rt, balance, Answer::Reply(StockReply::Cents(100)));
    Ok(())
}

fn check_payment<J: Founding + 'static, R: Threads + Wait + Abort + Copy + Send + Sync + 'static>(
    rt: R,
    alloc: Global,
    opened: Opened<Event<Named<StockRequest>>>,
    book: StoreBook<PaidOnce>,
) -> Result<(), Fault>
    requires opened { opened ≡ J.book }
    requires config { book.config ≡ J.config }
{
    let cluster = match PayCluster::<J>::open(rt, alloc, stock_once(), opened, book, Open, 2) {
        Ok(cluster) => cluster,
        Err((fault, _book)) => return Err(fault),
    };
    let paid = pay_twice(rt, alloc, &cluster);
    let _stopped = cluster.stop(&rt)?;
    paid
}

#[test]
fn one_payment_two_callers(rt: HostRuntime) -> Result<(), Fail> {
    let config = Config::new(2, 1)?;
    let book = StoreBook::<PaidOnce>::new(rt.alloc(), &config, stock_once())?;
    Ok(check_payment::<Brand, _>(rt, rt.alloc(), Opened::new(), book)?)
}
