//! Each call that grows, where what is refused for want of memory is asked for once more. With ample memory nothing is
//! refused. `rt try --test --fail-alloc N` refuses the Nth allocation of a test: for each N, from 1 until `nothing_refused`
//! has passed for many in turn, `refused_once` has to pass (`tools/check_refusals`).
use crate::asserted::{holds, same};
use crate::requests::first;
use crate::starts::refused;
use calvin_app::{Answer, Serial};
use calvin_once::{Named, Once, OnceRow, lift, run_on};
use calvin_stock::{Customer, Stock, StockReply, StockRequest, StockRow, stock_once};
use calvin_types::{Fault, Key, Txn};
use std::alloc::Global;
use std::process::Abort;
use std::test::Fail;

/// Rows of a stock that are lifted.
type Lifted = Vec<(Key, OnceRow<StockRow, StockReply>)>;

/// A run of requests under their names, and the answers.
type Run = (Serial<Once<Stock>>, Vec<Answer<StockReply>>);

/// The row of a customer with so many cents.
fn customer(id: u64, balance: u64) -> (Key, StockRow) {
    let row = StockRow::Customer(Customer {
        balance,
        last_order: None,
    });
    (Key { table: 1, id }, row)
}

/// Lifts rows, once more where that was refused, and counts the refusals.
fn lifted(alloc: Global, rows: &[(Key, StockRow)]) -> Result<(Lifted, u32), Fault> {
    match lift::<Stock>(alloc, rows) {
        Err(Fault::OutOfMemory) => Ok((lift::<Stock>(alloc, rows)?, 1)),
        made => Ok((made?, 0)),
    }
}

/// Starts on rows, once more where that was refused, and counts the refusals.
fn started(alloc: Global, rows: &[(Key, StockRow)]) -> Result<(Serial<Stock>, u32), Fault> {
    match Serial::from_rows(alloc, Stock, rows) {
        Err(Fault::OutOfMemory) => Ok((Serial::from_rows(alloc, Stock, rows)?, 1)),
        made => Ok((made?, 0)),
    }
}

/// Runs requests on rows, once more where that was refused, and counts the refusals.
fn run(
    alloc: Global,
    rows: &[(Key, OnceRow<StockRow, StockReply>)],
    txns: &[Txn<Named<StockRequest>>],
) -> Result<(Run, u32), Fault> {
    match run_on(alloc, stock_once(), rows, txns) {
        Err(Fault::OutOfMemory) => Ok((run_on(alloc, stock_once(), rows, txns)?, 1)),
        made => Ok((made?, 0)),
    }
}

/// Starts on rows and on lifted ones, and pays twice under one name. How many calls were refused.
fn endured(rt: &impl Abort, alloc: Global) -> Result<u32, Fault> {
    let rows = [customer(8, 5), customer(9, 50)];
    let (start, at_start) = started(alloc, &rows)?;
    same(rt, start.rows().get(&rows[1].0), Some(rows[1].1));
    same(rt, refused(alloc, &[rows[0], rows[1], rows[0]]), 3);

    let (lifted, at_lift) = lifted(alloc, &rows)?;
    same(rt, lifted.len(), 2);

    let pay = StockRequest::PayIn {
        customer: 9,
        cents: 100,
    };
    let pay = first(3, pay)?;
    let txns = [pay, pay, first(4, StockRequest::Balance { customer: 9 })?];
    let ((_run, answers), at_run) = run(alloc, &lifted, &txns)?;
    holds(
        rt,
        answers.last().copied() == Some(Answer::Reply(StockReply::Cents(150))),
    );
    Ok(at_start.saturating_add(at_lift).saturating_add(at_run))
}

#[test]
fn nothing_refused(rt: HostRuntime) -> Result<(), Fail> {
    same(&rt, endured(&rt, rt.alloc())?, 0);
    Ok(())
}

#[test]
fn refused_once(rt: HostRuntime) -> Result<(), Fail> {
    holds(&rt, endured(&rt, rt.alloc())? <= 1);
    Ok(())
}
