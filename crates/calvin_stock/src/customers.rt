//! What becomes of customers and their balances.
ghost use Rattle.std.specs.Prelude.{◌≡◌, []};
ghost use Rattle.calvin_stock.specs.Operations.{open_customer, pay_in, tell_balance};

use crate::keys::customer_key;
use crate::limits::MOST_CENTS;
use crate::reply::StockReply;
use crate::rows::{Customer, StockRow};
use calvin_app::Writes;

/// Adds a customer, whose row is the one that is there so far, if any.
pub(crate) fn open_customer(
    customer: u64,
    there: Option<StockRow>,
    writes: &mut Writes<StockRow>,
) -> StockReply
    requires { writes.old ≡ [] }
    ensures { (result, writes.new) ≡ open_customer customer there }
{
    if there.is_some() {
        return StockReply::Exists;
    }
    let row = StockRow::Customer(Customer {
        balance: 0,
        last_order: None,
    });
    writes.push(customer_key(customer), row);
    StockReply::Done
}

/// Adds cents to the balance of a customer, if there is one.
pub(crate) fn pay_in(
    customer: u64,
    cents: u64,
    found: Option<Customer>,
    writes: &mut Writes<StockRow>,
) -> StockReply
    requires { writes.old ≡ [] }
    ensures { (result, writes.new) ≡ pay_in customer cents found }
{
    let Some(
        Customer {
            balance,
            last_order,
        },
    ) = found
    else {
        return StockReply::NoCustomer;
    };
    match balance.checked_add(cents) {
        Some(balance) if balance <= MOST_CENTS => {
            let row = StockRow::Customer(Customer {
                balance,
                last_order,
            });
            writes.push(customer_key(customer), row);
            StockReply::Done
        }
        _ => StockReply::Limit,
    }
}

/// Tells the balance of a customer, if there is one. Nothing is written.
pub(crate) fn tell_balance(found: Option<Customer>) -> StockReply
    ensures { (result, []) ≡ tell_balance found }
{
    match found {
        None => StockReply::NoCustomer,
        Some(customer) => StockReply::Cents(customer.balance),
    }
}
