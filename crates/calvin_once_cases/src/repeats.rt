//! The worked cases `repeated_payment` and `once_script`: requests that come again under their name.
use crate::asserted::same;
use crate::requests::{first, order, second};
use calvin_app::{Answer, Serial};
use calvin_once::Once;
use calvin_stock::{Stock, StockReply, StockRequest, stock_once};
use calvin_types::Fault;
use std::process::Abort;
use std::test::Fail;

/// Asks in turn, each with the sets that it needs where no row is known, and compares the answers with those that stand
/// beside.
fn ask(
    rt: &impl Abort,
    serial: &mut Serial<Once<Stock>>,
    table: &[(u32, StockRequest, Answer<StockReply>)],
) -> Result<(), Fault> {
    for i in 0..table.len() {
        let (number, args, want) = table[i];
        let answer = serial.apply(&first(number, args)?)?;
        same(rt, (i, answer), (i, want));
    }
    Ok(())
}

const DONE: Answer<StockReply> = Answer::Reply(StockReply::Done);

const OPEN: StockRequest = StockRequest::Open { customer: 9 };

const BALANCE: StockRequest = StockRequest::Balance { customer: 9 };

/// A payment of so many cents.
fn pay(cents: u64) -> StockRequest {
    StockRequest::PayIn { customer: 9, cents }
}

#[test]
fn repeated_payment(rt: HostRuntime) -> Result<(), Fail> {
    let mut serial = Serial::new(rt.alloc(), stock_once());
    let table = [
        (1, OPEN, DONE),
        (2, pay(100), DONE),
        (2, pay(100), DONE),
        (3, BALANCE, Answer::Reply(StockReply::Cents(100))),
    ];
    ask(&rt, &mut serial, &table)?;
    Ok(())
}

#[test]
fn once_script(rt: HostRuntime) -> Result<(), Fail> {
    let mut serial = Serial::new(rt.alloc(), stock_once());
    let item = StockRequest::AddItem {
        item: 1,
        pieces: 10,
        price: 250,
    };
    let settle = StockRequest::Settle { customer: 9 };
    let before = [
        (1, item, DONE),
        (2, OPEN, DONE),
        (3, pay(1000), DONE),
        (
            4,
            order(9, 50, 1, 2)?,
            Answer::Reply(StockReply::Ordered(500)),
        ),
        (5, settle, Answer::Changed),
    ];
    ask(&rt, &mut serial, &before)?;

    // The second attempt runs, and the same once more is told its reply.
    let again = second(5, settle, &[(1, 9), (3, 50)])?;
    for i in 0..2 {
        let answer = serial.apply(&again)?;
        same(
            &rt,
            (i, answer),
            (i, Answer::Reply(StockReply::Settled(500))),
        );
    }

    // Other arguments under a name that was answered change nothing.
    let after = [
        (6, BALANCE, Answer::Reply(StockReply::Cents(500))),
        (3, pay(7), DONE),
        (7, BALANCE, Answer::Reply(StockReply::Cents(500))),
    ];
    ask(&rt, &mut serial, &after)?;
    Ok(())
}
