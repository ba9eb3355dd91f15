//! The worked case `lifted_rows`: a run that starts on the rows of another one. And rows that have a key twice.
use crate::asserted::{holds, same};
use crate::requests::{first, first_sets};
use calvin_app::{Answer, Serial};
use calvin_once::{lift, run_on};
use calvin_stock::{
    Customer, Stock, StockReply, StockRequest, StockRow, run_on_no_rows, stock_once,
};
use calvin_types::{Fault, Key, RequestId, Txn};
use std::alloc::Global;
use std::process::Abort;
use std::test::Fail;

/// A request to a stock itself.
fn plain(number: u32, args: StockRequest) -> Txn<StockRequest> {
    Txn {
        id: RequestId { client: 7, number },
        attempt: 1,
        args,
        sets: first_sets(&args),
    }
}

/// The rows of a run of a stock in which a customer paid in 50 cents.
fn rows_of_a_stock(alloc: Global) -> Result<Vec<(Key, StockRow)>, Fault> {
    let pay = StockRequest::PayIn {
        customer: 9,
        cents: 50,
    };
    let txns = [plain(1, StockRequest::Open { customer: 9 }), plain(2, pay)];
    let (run, _answers) = run_on_no_rows(alloc, &txns)?;
    let mut rows = Vec::new(alloc);
    let customer = Key { table: 1, id: 9 };
    if let Some(row) = run.rows().get(&customer) {
        rows.push((customer, row))?;
    }
    Ok(rows)
}

/// Whether the answer with so many before it is this reply.
fn is_reply(answers: &[Answer<StockReply>], i: usize, reply: StockReply) -> bool {
    answers.get(i).copied() == Some(Answer::Reply(reply))
}

#[test]
fn lifted_rows(rt: HostRuntime) -> Result<(), Fail> {
    let rows = rows_of_a_stock(rt.alloc())?;
    same(&rt, rows.len(), 1);
    let rows = lift::<Stock>(rt.alloc(), &rows)?;
    let pay = StockRequest::PayIn {
        customer: 9,
        cents: 100,
    };
    let pay = first(3, pay)?;
    let txns = [pay, pay, first(4, StockRequest::Balance { customer: 9 })?];
    let (_rows, answers) = run_on(rt.alloc(), stock_once(), &rows, &txns)?;
    holds(&rt, is_reply(&answers, 0, StockReply::Done));
    holds(&rt, is_reply(&answers, 1, StockReply::Done));
    holds(&rt, is_reply(&answers, 2, StockReply::Cents(150)));
    Ok(())
}

/// The refusal of rows, or 0 where they are taken.
pub(crate) fn refused(alloc: Global, rows: &[(Key, StockRow)]) -> u8 {
    match Serial::from_rows(alloc, Stock, rows) {
        Ok(_) => 0,
        Err(fault) => fault.number(),
    }
}

#[test]
fn key_that_comes_twice(rt: HostRuntime) -> Result<(), Fail> {
    let customer = StockRow::Customer(Customer {
        balance: 5,
        last_order: None,
    });
    let one = (Key { table: 1, id: 9 }, customer);
    let other = (Key { table: 2, id: 9 }, customer);
    same(&rt, refused(rt.alloc(), &[]), 0);
    same(&rt, refused(rt.alloc(), &[one, other]), 0);
    same(&rt, refused(rt.alloc(), &[one, other, one]), 3);
    Ok(())
}
