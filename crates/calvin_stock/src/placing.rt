//! How an order is placed: all of its lines, or none.
ghost use Rattle.std.specs.Prelude.{◌≡◌, ◌^◌, ◌<◌, [], ◌∷◌, ◌++◌, None, Some, map, false, IfOk, IfErr, OnOk, IsTrue};
ghost use Rattle.calvin_app.specs.Rows.{Rows};
ghost use Rattle.calvin_stock.specs.declared.rows.StockRow.{StockRow};
ghost use Rattle.calvin_stock.specs.declared.rows.StockRow.TheVariants as row;
ghost use Rattle.calvin_stock.specs.StockRows.{customer_at, customer_key, order_key};
ghost use Rattle.calvin_stock.specs.Lines.{has_distinct_items};
ghost use Rattle.calvin_stock.specs.Operations.{line_fault, first_fault, cost, total_of, left, taken, place};

use crate::keys::{customer_in, customer_key, item_in, item_key, order_key};
use crate::limits::MOST_CENTS;
use crate::line_list::LineList;
use crate::order::{Line, Order};
use crate::reply::StockReply;
use crate::rows::{Customer, Item, Placed, StockRow};
use calvin_app::{View, Writes};

/// The cents of a line, below 2^96, since there are fewer than 2^32 pieces of a price below 2^64; or why it can't be
/// delivered.
fn cost(line: &Line, found: Option<Item>) -> Result<u128, StockReply>
    ensures cost { IfOk result (λ cents. (line_fault line.now found ≡ None) × (cents ≡ cost line.now found)) }
    ensures small { IfOk result (λ cents. cents < 2 ^ 96) }
    ensures fault { IfErr result (λ fault. line_fault line.now found ≡ Some fault) }
{
    match found {
        None => Err(StockReply::NoItem),
        Some(item) if item.stock < line.pieces as u64 => Err(StockReply::Short),
        Some(item) => Ok(line.pieces as u128 * item.price as u128),
    }
}

/// The item as a line leaves it.
fn left(line: &Line, found: Option<Item>) -> Item
    ensures { result ≡ left line.now found }
{
    match found {
        None => Item { stock: 0, price: 0 },
        Some(Item { stock, price }) => Item {
            stock: stock.saturating_sub(line.pieces as u64),
            price,
        },
    }
}

/// Adds the items as the lines leave them to writes that have none yet, and answers the cents of the lines together, at
/// most four of less than 2^96 each, so nothing is lost; or why the first of the lines that can't be delivered can't, and
/// then any writes may be left.
fn take_lines(
    lines: &LineList,
    view: &View<StockRow>,
    writes: &mut Writes<StockRow>,
) -> Result<u128, StockReply>
    requires distinct { IsTrue (has_distinct_items lines.now) }
    requires none { writes.old ≡ [] }
    ensures total { IfOk result (λ total. (first_fault lines.now view.now ≡ None) × (total ≡ total_of lines.now view.now)) }
    ensures taken { OnOk result (writes.new ≡ map (taken view.now) lines.now) }
    ensures fault { IfErr result (λ fault. first_fault lines.now view.now ≡ Some fault) }
{
    let mut total: u128 = 0;
    for i in 0..lines.len() {
        let line = lines.at(i);
        let found = item_in(view, line.item);
        let cents = cost(&line, found)?;
        total += cents;
        let row = left(&line, found);
        writes.push(item_key(line.item), StockRow::Item(row));
    }
    Ok(total)
}

/// Adds an order that costs so many cents, and its customer, to the writes of its items.
fn add_placed(order: &Order, customer: Customer, total: u64, writes: &mut Writes<StockRow>)
    requires { (rows : Rows StockRow) × (writes.old ≡ map (taken rows) order.now.lines) }
    ensures { writes.new ≡ writes.old
        ++ (order_key order.now.number, row.Order (record { customer = order.now.customer; total = total; settled = false }))
        ∷ (customer_key order.now.customer, row.Customer (record { balance = customer.balance; last_order = Some order.now.number })) ∷ [] }
{
    let row = StockRow::Order(Placed {
        customer: order.customer,
        total,
        settled: false,
    });
    writes.push(order_key(order.number), row);
    let row = StockRow::Customer(Customer {
        balance: customer.balance,
        last_order: Some(order.number),
    });
    writes.push(customer_key(order.customer), row);
}

/// Places an order, if its customer is there and the order isn't.
pub(crate) fn place(
    order: &Order,
    view: &View<StockRow>,
    writes: &mut Writes<StockRow>,
) -> StockReply
    requires { writes.old ≡ [] }
    ensures { (result, writes.new) ≡ place order.now view.now (customer_at view.now order.now.customer) }
{
    let Some(customer) = customer_in(view, order.customer) else {
        return StockReply::NoCustomer;
    };
    if view.get(&order_key(order.number)).is_some() {
        return StockReply::OrderExists;
    }
    let total = match take_lines(&order.lines, view, writes) {
        Ok(total) => total,
        Err(fault) => {
            writes.clear();
            return fault;
        }
    };
    if total > MOST_CENTS as u128 {
        writes.clear();
        return StockReply::Limit;
    }
    let total = total as u64;
    add_placed(order, customer, total, writes);
    StockReply::Ordered(total)
}
