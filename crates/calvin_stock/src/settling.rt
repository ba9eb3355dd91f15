//! How a customer's last order is settled.
ghost use Rattle.std.specs.Prelude.{◌≡◌, []};
ghost use Rattle.calvin_stock.specs.StockRows.{customer_at};
ghost use Rattle.calvin_stock.specs.Operations.{settle_order, settle};

use crate::keys::{customer_in, customer_key, order_in, order_key};
use crate::reply::StockReply;
use crate::rows::{Customer, Placed, StockRow};
use calvin_app::{View, Writes};

/// Settles an order of a customer, if it is there and isn't settled and the balance is high enough.
fn settle_order(
    customer: u64,
    found: Customer,
    order: u64,
    last: Option<Placed>,
    writes: &mut Writes<StockRow>,
) -> StockReply
    requires { writes.old ≡ [] }
    ensures { (result, writes.new) ≡ settle_order customer found order last }
{
    let Some(placed) = last else {
        return StockReply::NothingOpen;
    };
    if placed.settled {
        return StockReply::NothingOpen;
    }
    if found.balance < placed.total {
        return StockReply::Poor;
    }
    let paid = StockRow::Customer(Customer {
        balance: found.balance - placed.total,
        last_order: found.last_order,
    });
    let settled = StockRow::Order(Placed {
        customer: placed.customer,
        total: placed.total,
        settled: true,
    });
    writes.push(customer_key(customer), paid);
    writes.push(order_key(order), settled);
    StockReply::Settled(placed.total)
}

/// Settles the last order of a customer, if both are there.
pub(crate) fn settle(
    customer: u64,
    view: &View<StockRow>,
    writes: &mut Writes<StockRow>,
) -> StockReply
    requires { writes.old ≡ [] }
    ensures { (result, writes.new) ≡ settle customer view.now (customer_at view.now customer) }
{
    let Some(found) = customer_in(view, customer) else {
        return StockReply::NoCustomer;
    };
    match found.last_order {
        None => StockReply::NothingOpen,
        Some(order) => settle_order(customer, found, order, order_in(view, order), writes),
    }
}
