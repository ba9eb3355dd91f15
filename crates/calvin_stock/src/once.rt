//! Customers, items and orders with each request's name once.
ghost use Rattle.std.proofs.Common.{lit<};
ghost use Rattle.calvin_app.specs.Meaning.{IsLawful, SettlesAtOnce};
ghost use Rattle.calvin_once.specs.Once.{once};
ghost use Rattle.calvin_stock.specs.Stock.{stock, is_dependent};

use crate::stock::Stock;
use calvin_once::{Keepable, Once};

impl Keepable for Stock {
    ghost kept_rows_fit = { lit< tt };

    ghost kept_job_fits = { lit< tt };

    ghost kept_work_fits = { lit< tt };
}

/// The application round this one by which each request's name has its effect once. This one leaves room for it: a set
/// then has at most seven keys, up to table 4. It keeps the laws of applications, and the first reads of a request show
/// all rows that its sets depend on.
pub fn stock_once() -> Once<Stock>
    ensures lawful { IsLawful (once stock 6 3) (λ a. is_dependent a.args) 7 4 }
    ensures settles { SettlesAtOnce (once stock 6 3) }
{
    Once::new(Stock).unwrap()
}
