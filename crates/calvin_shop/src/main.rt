//! The heart of a shop, as an example of how a running store is used from code: callers in threads place orders and payments, each
//! payment is submitted twice, as by a client that heard nothing of the first, and has its effect once.
#![tactic(auto)]

ghost use Rattle.std.specs.Prelude.{◌≡◌};

mod customer;

use crate::customer::{Shop, buy, request, value_of};
use calvin_app::Answer;
use calvin_book::StoreBook;
use calvin_cluster::{Founding, Open, Opened, Told};
use calvin_once::{Named, Once};
use calvin_stock::{Stock, StockReply, StockRequest, stock_once};
use calvin_types::{Config, Fault, NodeId};
use calvin_world::Event;
use std::alloc::Global;
use std::io;
use std::marker::Brand;
use std::process::ExitCode;
use std::sync::Wait;
use std::thread::{Threads, map_indices};

/// Three replicas of two partitions, two workers, four customers: what is left on all their balances, in cents.
fn sell<J: Founding + 'static, R: Threads + Wait + Copy + Send + Sync + 'static>(
    rt: R,
    alloc: Global,
    opened: Opened<Event<Named<StockRequest>>>,
    book: StoreBook<Once<Stock>>,
) -> Result<u64, Fault>
    requires opened { opened ≡ J.book }
    requires config { book.config ≡ J.config }
{
    let shop = match Shop::<J>::open(rt, alloc, stock_once(), opened, book, Open, 2) {
        Ok(shop) => shop,
        Err((fault, _book)) => return Err(fault),
    };
    let item = StockRequest::AddItem {
        item: 1,
        pieces: 100,
        price: 250,
    };
    let ticket = shop.submit(&rt, &Told::new(), customer::DESK, request(0, 1, item)?)?;
    let (_done, told) = shop.wait(&rt, &ticket)?;
    let lent = &shop;
    let known = &told;
    let bought = map_indices(
        &rt,
        alloc,
        4,
        &|at| buy(&rt, lent, known, at.min(255) as u32 + 1),
    )?;
    let stopped = shop.stop(&rt)?;
    stopped.told(&told);
    let mut left = 0;
    for balance in bought {
        let (answer, told) = balance?;
        stopped.told(&told);
        left = value_of(answer).saturating_add(left);
    }
    Ok(left)
}

/// The shop of a new store.
fn run<R: Threads + Wait + Copy + Send + Sync + 'static>(
    rt: R,
    alloc: Global,
) -> Result<u64, Fault> {
    let config = Config::new(2, 3)?;
    let book = StoreBook::<Once<Stock>>::new(alloc, &config, stock_once())?;
    sell::<Brand, _>(rt, alloc, Opened::new(), book)
}

fn main(rt: HostRuntime) -> io::Result<ExitCode> {
    match run(rt, rt.alloc()) {
        Ok(left) => {
            println!(rt; "left on all balances: {left} cents")?;
            Ok(ExitCode::SUCCESS)
        }
        Err(fault) => {
            println!(rt; "refused: {} {}", fault.number(), fault.name())?;
            Ok(ExitCode::from(1))
        }
    }
}
