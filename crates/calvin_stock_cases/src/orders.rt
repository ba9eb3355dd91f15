//! The worked cases `order_and_settle` and `settle_with_stale_sets`, and the refusals of orders.
use crate::asserted::{holds, same};
use crate::requests::{Asked, line, txn};
use calvin_app::{Answer, Serial};
use calvin_stock::{
    Customer, Item, Order, Placed, Stock, StockReply, StockRequest, StockRow, run_on_no_rows,
};
use calvin_types::{Fault, Key, Txn};
use std::alloc::Global;
use std::test::Fail;

/// The requests of `order_and_settle`, numbered from 1, with this one for the first settlement.
fn requests(alloc: Global, first: Asked) -> Result<Vec<Txn<StockRequest>>, Fault> {
    let mut txns = Vec::new(alloc);
    for (number, asked) in [
        (1, Asked::AddItem(1, 2, 250)),
        (2, Asked::AddItem(2, 3, 100)),
        (3, Asked::Open(9)),
        (4, Asked::PayIn(9, 1_000_000_000_000_000)),
        (5, Asked::PayIn(9, 1)),
        (6, Asked::OrderTwo(9, 50, (1, 2), (2, 4))),
        (7, Asked::OrderTwo(9, 50, (1, 2), (2, 3))),
        (8, first),
        (9, Asked::Balance(9)),
        (10, Asked::SettleOf(9, 50)),
    ] {
        txns.push(txn(number, &asked)?)?;
    }
    Ok(txns)
}

#[test]
fn order_and_settle(rt: HostRuntime) -> Result<(), Fail> {
    let txns = requests(rt.alloc(), Asked::SettleOf(9, 50))?;
    let mut serial = Serial::new(rt.alloc(), Stock);
    for (i, want) in [
        (0, StockReply::Done),
        (1, StockReply::Done),
        (2, StockReply::Done),
        (3, StockReply::Done),
        (4, StockReply::Limit),
        (5, StockReply::Short),
        (6, StockReply::Ordered(800)),
        (7, StockReply::Settled(800)),
        (8, StockReply::Cents(999_999_999_999_200)),
        (9, StockReply::NothingOpen),
    ] {
        assert!(rt; i < txns.len());
        let answer = serial.apply(&txns[i])?;
        same(&rt, (i, answer), (i, Answer::Reply(want)));
    }
    Ok(())
}

/// Whether the answer with so many before it is this reply.
fn is_reply(answers: &[Answer<StockReply>], i: usize, reply: StockReply) -> bool {
    answers.get(i).copied() == Some(Answer::Reply(reply))
}

#[test]
fn settle_with_stale_sets(rt: HostRuntime) -> Result<(), Fail> {
    let txns = requests(rt.alloc(), Asked::Settle(9))?;
    let (_rows, answers) = run_on_no_rows(rt.alloc(), &txns)?;
    holds(&rt, is_reply(&answers, 6, StockReply::Ordered(800)));
    holds(&rt, answers.get(7).copied() == Some(Answer::Changed));
    holds(
        &rt,
        is_reply(&answers, 8, StockReply::Cents(1_000_000_000_000_000)),
    );
    Ok(())
}

/// The refusal of lines, or 0 where they are an order's.
fn refused(alloc: Global, of: &[(u64, u32)]) -> Result<u8, Fault> {
    let mut lines = Vec::new(alloc);
    for &it in of {
        lines.push(line(it))?;
    }
    Ok(match Order::new(9, 50, &lines) {
        Ok(_) => 0,
        Err(fault) => fault.number(),
    })
}

#[test]
fn orders_refused(rt: HostRuntime) -> Result<(), Fail> {
    // The first lines, so many, of five.
    let lines = [(1, 1), (2, 1), (3, 1), (4, 1), (5, 1)];
    for (count, want) in [(0, 4), (1, 0), (4, 0), (5, 4)] {
        assert!(rt; count <= lines.len());
        same(
            &rt,
            (count, refused(rt.alloc(), &lines[..count])?),
            (count, want),
        );
    }

    // Two lines; where two refusals apply the lesser number is answered.
    for (first, second, want) in [
        ((1, 1), (2, 1_000_000_000), 0),
        ((1, 1), (2, 1_000_000_001), 4),
        ((1, 1), (2, 0), 4),
        ((1, 0), (2, 1), 4),
        ((1, 2), (1, 3), 3),
        ((1, 0), (1, 1), 3),
    ] {
        same(
            &rt,
            (first, second, refused(rt.alloc(), &[first, second])?),
            (first, second, want),
        );
    }
    let five = [(1, 1), (2, 1), (3, 1), (4, 1), (1, 1)];
    same(&rt, refused(rt.alloc(), &five)?, 3);
    Ok(())
}

/// The row under a number of a table.
fn row(rows: &Serial<Stock>, table: u8, id: u64) -> Option<StockRow> {
    rows.rows().get(&Key { table, id })
}

#[test]
fn rows_after_order_and_settle(rt: HostRuntime) -> Result<(), Fail> {
    let txns = requests(rt.alloc(), Asked::SettleOf(9, 50))?;
    let (rows, answers) = run_on_no_rows(rt.alloc(), &txns)?;
    same(&rt, answers.len(), 10);
    let customer = Customer {
        balance: 999_999_999_999_200,
        last_order: Some(50),
    };
    holds(&rt, row(&rows, 1, 9) == Some(StockRow::Customer(customer)));
    let item = Item {
        stock: 0,
        price: 250,
    };
    holds(&rt, row(&rows, 2, 1) == Some(StockRow::Item(item)));
    let placed = Placed {
        customer: 9,
        total: 800,
        settled: true,
    };
    holds(&rt, row(&rows, 3, 50) == Some(StockRow::Order(placed)));
    Ok(())
}
