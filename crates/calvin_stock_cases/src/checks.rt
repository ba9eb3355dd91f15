//! The answers of each operation, in the order of its checks, and what the application says of itself.
use crate::asserted::{holds, same};
use crate::requests::{Asked, args_of, first_sets, txn};
use calvin_app::{Answer, App, Serial, View};
use calvin_stock::{Stock, StockReply};
use calvin_types::{Fault, Key, KeySet, Sets};
use std::process::Abort;
use std::test::Fail;

/// Asks in turn, and compares the replies with those that stand beside.
fn ask(
    rt: &impl Abort,
    serial: &mut Serial<Stock>,
    table: &[(Asked, StockReply)],
) -> Result<(), Fault> {
    for i in 0..table.len() {
        let (asked, want) = table[i];
        let answer = serial.apply(&txn(1, &asked)?)?;
        same(rt, (i, answer), (i, Answer::Reply(want)));
    }
    Ok(())
}

#[test]
fn items_and_customers(rt: HostRuntime) -> Result<(), Fail> {
    let mut serial = Serial::new(rt.alloc(), Stock);
    let table = [
        (Asked::AddItem(1, 1_000_000_001, 5), StockReply::Limit),
        (
            Asked::AddItem(1, 5, 1_000_000_000_000_001),
            StockReply::Limit,
        ),
        (
            Asked::AddItem(1, 1_000_000_000, 1_000_000_000_000_000),
            StockReply::Done,
        ),
        (Asked::AddItem(1, 0, 0), StockReply::Exists),
        (Asked::AddItem(1, u64::MAX, 0), StockReply::Limit),
        (Asked::Restock(2, u64::MAX), StockReply::NoItem),
        (Asked::Restock(1, 0), StockReply::Done),
        (Asked::Restock(1, 1), StockReply::Limit),
        (Asked::Restock(1, u64::MAX), StockReply::Limit),
        (Asked::PayIn(9, u64::MAX), StockReply::NoCustomer),
        (Asked::Balance(9), StockReply::NoCustomer),
        (Asked::Open(9), StockReply::Done),
        (Asked::Open(9), StockReply::Exists),
        (Asked::Balance(9), StockReply::Cents(0)),
        (Asked::PayIn(9, 1_000_000_000_000_001), StockReply::Limit),
        (Asked::PayIn(9, 999_999_999_999_999), StockReply::Done),
        (Asked::PayIn(9, 1), StockReply::Done),
        (Asked::PayIn(9, 1), StockReply::Limit),
        (Asked::PayIn(9, u64::MAX), StockReply::Limit),
        (Asked::Balance(9), StockReply::Cents(1_000_000_000_000_000)),
    ];
    ask(&rt, &mut serial, &table)?;
    Ok(())
}

#[test]
fn orders_and_settlements(rt: HostRuntime) -> Result<(), Fail> {
    let mut serial = Serial::new(rt.alloc(), Stock);
    let all = 1_000_000_000_000_000;
    let table = [
        (Asked::AddItem(1, 1_000_000_000, all), StockReply::Done),
        (Asked::AddItem(2, 3, 0), StockReply::Done),
        (Asked::OrderOne(9, 50, (4, 1)), StockReply::NoCustomer),
        (Asked::Settle(9), StockReply::NoCustomer),
        (Asked::Open(9), StockReply::Done),
        (Asked::Settle(9), StockReply::NothingOpen),
        (Asked::PayIn(9, all), StockReply::Done),
        // The first line that can't be delivered is told, in the order of the lines.
        (Asked::OrderTwo(9, 50, (2, 4), (4, 1)), StockReply::Short),
        (Asked::OrderTwo(9, 50, (4, 1), (2, 4)), StockReply::NoItem),
        // A total above the limit, and one above 2^64 - 1.
        (Asked::OrderOne(9, 50, (1, 2)), StockReply::Limit),
        (
            Asked::OrderOne(9, 50, (1, 1_000_000_000)),
            StockReply::Limit,
        ),
        (
            Asked::OrderTwo(9, 50, (1, 1), (2, 3)),
            StockReply::Ordered(all),
        ),
        (Asked::OrderOne(9, 50, (4, 1)), StockReply::OrderExists),
        (Asked::OrderOne(9, 51, (2, 1)), StockReply::Short),
        (Asked::SettleOf(9, 50), StockReply::Settled(all)),
        (Asked::SettleOf(9, 50), StockReply::NothingOpen),
        (Asked::OrderOne(9, 51, (1, 1)), StockReply::Ordered(all)),
        (Asked::SettleOf(9, 51), StockReply::Poor),
        (Asked::Restock(2, 2), StockReply::Done),
        // An order that isn't settled stays so where another one follows.
        (Asked::OrderOne(9, 52, (2, 2)), StockReply::Ordered(0)),
        (Asked::SettleOf(9, 52), StockReply::Settled(0)),
        (Asked::SettleOf(9, 52), StockReply::NothingOpen),
        (Asked::Balance(9), StockReply::Cents(0)),
    ];
    ask(&rt, &mut serial, &table)?;

    // The last order is another one than is declared.
    let stale = serial.apply(&txn(1, &Asked::SettleOf(9, 51))?)?;
    holds(&rt, stale == Answer::Changed);
    Ok(())
}

/// What an application says of itself and of a request on no rows.
fn described<A: App>(app: &A, args: &A::Args) -> (usize, u8, bool, Sets) {
    let view = View::new();
    (
        app.most_keys(),
        app.top_table(),
        app.dependent(args),
        app.sets(args, &view),
    )
}

#[test]
fn sets_of_requests(rt: HostRuntime) -> Result<(), Fail> {
    let customer = KeySet::of(Key { table: 1, id: 9 });
    let alone = Sets {
        reads: customer,
        writes: KeySet::new(),
    };
    let balance = args_of(&Asked::Balance(9))?;
    holds(&rt, described(&Stock, &balance) == (6, 3, false, alone));
    let both = Sets {
        reads: customer,
        writes: customer,
    };
    let settle = args_of(&Asked::Settle(9))?;
    holds(&rt, described(&Stock, &settle) == (6, 3, true, both));
    let keys = KeySet::from_slice(&[
        Key { table: 1, id: 9 },
        Key { table: 2, id: 1 },
        Key { table: 2, id: 2 },
        Key { table: 3, id: 50 },
    ])?;
    let sets = first_sets(&args_of(&Asked::OrderTwo(9, 50, (2, 3), (1, 2)))?);
    holds(&rt, sets.reads == keys && sets.writes == keys);
    Ok(())
}
