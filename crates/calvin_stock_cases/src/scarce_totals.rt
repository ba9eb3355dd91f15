//! The run whose totals are told, made once more where it is refused for want of memory. With ample memory nothing is refused.
//! `rt try --test --fail-alloc N` refuses the Nth allocation of a test: for each N, from 1 until `nothing_refused` has passed for
//! many in turn, `refused_once` has to pass (`tools/check_refusals`).
use crate::asserted::same;
use crate::requests::{Asked, txn};
use calvin_app::{Answer, Serial};
use calvin_stock::{Customer, Stock, StockReply, StockRequest, StockRow, run_on_no_rows};
use calvin_types::{Fault, Key, Txn};
use std::alloc::Global;
use std::process::Abort;
use std::test::Fail;

/// A run, and its answers.
type Run = (Serial<Stock>, Vec<Answer<StockReply>>);

/// Requests, and what each is answered.
fn asked() -> [(Asked, StockReply); 7] {
    [
        (Asked::AddItem(1, 2, 250), StockReply::Done),
        (Asked::AddItem(2, 3, 100), StockReply::Done),
        (Asked::Open(9), StockReply::Done),
        (Asked::PayIn(9, 1000), StockReply::Done),
        (
            Asked::OrderTwo(9, 50, (1, 2), (2, 3)),
            StockReply::Ordered(800),
        ),
        (Asked::SettleOf(9, 50), StockReply::Settled(800)),
        (Asked::Balance(9), StockReply::Cents(200)),
    ]
}

/// A run, made once more where that was refused, and how often it was.
fn run(alloc: Global, txns: &[Txn<StockRequest>]) -> Result<(Run, u32), Fault> {
    match run_on_no_rows(alloc, txns) {
        Err(Fault::OutOfMemory) => Ok((run_on_no_rows(alloc, txns)?, 1)),
        made => Ok((made?, 0)),
    }
}

/// The answers are those that are wanted, and the customer has the cents that are left.
fn check_run(rt: &impl Abort, ran: &Run) {
    let (serial, answers) = ran;
    for (i, (_, reply)) in asked().iter().enumerate() {
        let found = answers.get(i).copied();
        same(rt, (i, found), (i, Some(Answer::Reply(*reply))));
    }
    let wanted = StockRow::Customer(Customer {
        balance: 200,
        last_order: Some(50),
    });
    let found = serial.rows().get(&Key { table: 1, id: 9 });
    same(rt, found, Some(wanted));
}

/// How many calls were refused.
fn endured(rt: &impl Abort, alloc: Global) -> Result<u32, Fault> {
    let mut txns = [txn(1, &Asked::Balance(9))?; 7];
    for (i, (asked, _)) in asked().iter().enumerate() {
        txns[i] = txn(1, asked)?;
    }
    let (ran, refused) = run(alloc, &txns)?;
    check_run(rt, &ran);
    drop(ran);
    Ok(refused)
}

#[test]
fn nothing_refused(rt: HostRuntime) -> Result<(), Fail> {
    same(&rt, endured(&rt, rt.alloc())?, 0);
    Ok(())
}

#[test]
fn refused_once(rt: HostRuntime) -> Result<(), Fail> {
    same(&rt, endured(&rt, rt.alloc())? <= 1, true);
    Ok(())
}
