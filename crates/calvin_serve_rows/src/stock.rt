//! The rows of the application Stock.
ghost use Rattle.std.specs.Prelude.{◌≡◌, ◌<◌, ◌^◌, IfOk};
ghost use Rattle.std.specs.Option.{ForSome};
ghost use Rattle.serde_json.specs.View.{view};
ghost use Rattle.calvin_serve_rows.specs.StockForms.{customer, item, placed, stock_row};
ghost use Rattle.calvin_serve_rows.specs.Spelled.{customer_data, item_data, placed_data};

use crate::fields::{name_of, number_at, number_json, number_or_null, number_or_null_json};
use crate::stored::StoredRow;
use calvin_stock::{Customer, Item, Placed, StockRow};
use serde_json::{Value, json};
use std::alloc::{AllocError, Global};

/// The customer that stands behind the name `customer`.
#[tactic(auto, unfolding(crate::specs::StockForms::customer))]
fn customer_of(value: &Value) -> Option<Customer>
    ensures { result ≡ customer (view value.now) }
{
    if value.get(3).is_some() {
        return None;
    }
    let balance = number_at(value, 1)?;
    let last_order = number_or_null(value.get(2)?)?;
    Some(Customer {
        balance,
        last_order,
    })
}

/// The item that stands behind the name `item`.
#[tactic(auto, unfolding(crate::specs::StockForms::item))]
fn item_of(value: &Value) -> Option<Item>
    ensures { result ≡ item (view value.now) }
{
    if value.get(3).is_some() {
        return None;
    }
    let stock = number_at(value, 1)?;
    let price = number_at(value, 2)?;
    Some(Item { stock, price })
}

/// The order that stands behind the name `order`.
#[tactic(auto, unfolding(crate::specs::StockForms::placed))]
fn placed_of(value: &Value) -> Option<Placed>
    ensures { result ≡ placed (view value.now) }
{
    if value.get(4).is_some() {
        return None;
    }
    let customer = number_at(value, 1)?;
    let total = number_at(value, 2)?;
    let settled = value.get(3)?.as_bool()?;
    Some(Placed {
        customer,
        total,
        settled,
    })
}

/// A customer as JSON. Its numbers are below 2^64.
fn customer_json(alloc: Global, customer: &Customer) -> Result<Value, AllocError>
    ensures data { IfOk result (λ v. view v ≡ customer_data customer.now) }
    ensures small { (customer.now.balance < 2 ^ 64) × ForSome customer.now.last_order (λ n. n < 2 ^ 64) }
{
    let balance = number_json(customer.balance);
    let last_order = number_or_null_json(customer.last_order);
    json!(in alloc; ["customer", balance, last_order])
}

/// An item as JSON. Its numbers are below 2^64.
fn item_json(alloc: Global, item: &Item) -> Result<Value, AllocError>
    ensures data { IfOk result (λ v. view v ≡ item_data item.now) }
    ensures small { (item.now.stock < 2 ^ 64) × (item.now.price < 2 ^ 64) }
{
    let stock = number_json(item.stock);
    let price = number_json(item.price);
    json!(in alloc; ["item", stock, price])
}

/// An order as JSON. Its numbers are below 2^64.
fn placed_json(alloc: Global, order: &Placed) -> Result<Value, AllocError>
    ensures data { IfOk result (λ v. view v ≡ placed_data order.now) }
    ensures small { (order.now.customer < 2 ^ 64) × (order.now.total < 2 ^ 64) }
{
    let customer = number_json(order.customer);
    let total = number_json(order.total);
    json!(in alloc; ["order", customer, total, order.settled])
}

impl StoredRow for StockRow {
    ghost use Rattle.calvin_serve_rows.specs.StockForms.{stock_row};

    ghost form = { stock_row };

    #[tactic(auto, unfolding(crate::specs::StockForms::stock_row))]
    fn of_json(value: &Value) -> Option<StockRow> {
        match name_of(value)? {
            "customer" => customer_of(value).map(StockRow::Customer),
            "item" => item_of(value).map(StockRow::Item),
            "order" => placed_of(value).map(StockRow::Order),
            _ => None,
        }
    }

    fn to_json(&self, alloc: Global) -> Result<Value, AllocError> {
        match self {
            StockRow::Customer(customer) => customer_json(alloc, customer),
            StockRow::Item(item) => item_json(alloc, item),
            StockRow::Order(order) => placed_json(alloc, order),
        }
    }
}
