//! What every list keeps: the cents that were paid in, and the pieces that were added.
ghost use Rattle.std.specs.Prelude.{◌≡◌, ℕ, ◌+◌, List, IfOk, IsOkUnless};
ghost use Rattle.std.specs.FinMap as finmap;
ghost use Rattle.calvin_types.specs.declared.txn.Txn.{Txn as ATxn};
ghost use Rattle.calvin_app.specs.Serial.{serial};
ghost use Rattle.calvin_stock.specs.declared.request.StockRequest.{StockRequest as ARequest};
ghost use Rattle.calvin_stock.specs.Stock.{stock};
ghost use Rattle.calvin_stock.specs.Totals.{cents_in, paid, stock_at, added, ordered};

use crate::reply::StockReply;
use crate::request::StockRequest;
use crate::stock::Stock;
use calvin_app::{Answer, Serial};
use calvin_types::{Fault, Txn};
use std::alloc::Global;

/// No cents and no pieces get lost, over every list of requests from no rows. The cents of all payments that were answered `Done` are
/// the sum of all balances and of the totals of all settled orders. For each item, the pieces that were answered `Done` when they were
/// added are its stock and the pieces of its lines in orders that were answered `Ordered`.
pub fn totals_hold()
    ensures cents { (list : List (ATxn ARequest)) → let run = serial stock list finmap.empty in paid list run.1 ≡ cents_in run.0 }
    ensures pieces { (i : ℕ) (list : List (ATxn ARequest)) → let run = serial stock list finmap.empty in added i list run.1 ≡ stock_at run.0 i + ordered i list run.1 }
{}

/// Runs requests one after another, from no rows: the rows after the last one, and the answer to each, of which `totals_hold`
/// says the totals. Refused for want of memory alone.
pub fn run_on_no_rows(
    alloc: Global,
    txns: &[Txn<StockRequest>],
) -> Result<(Serial<Stock>, Vec<Answer<StockReply>>), Fault>
    ensures rows { IfOk result (λ r. r.0 ≡ (serial stock txns.now finmap.empty).0) }
    ensures answers { IfOk result (λ r. r.1.items ≡ (serial stock txns.now finmap.empty).1) }
    ensures cents { IfOk result (λ r. paid txns.now r.1.items ≡ cents_in r.0) }
    ensures pieces { IfOk result (λ r. (i : ℕ) → added i txns.now r.1.items ≡ stock_at r.0 i + ordered i txns.now r.1.items) }
    ensures only { IsOkUnless result Fault.OutOfMemory }
{
    let mut run = Serial::new(alloc, Stock);
    let mut answers = Vec::new(alloc);
    for txn in txns {
        answers.push(run.apply(txn)?)?;
    }
    Ok((run, answers))
}
