//! The keys of customers, items and orders, the rows that a view has under them, and the keys that requests need.
ghost use Rattle.std.specs.Prelude.{◌≡◌, [], ◌∷◌};
ghost use Rattle.calvin_types.specs.SameKeys.{same_keys, same_sets};
ghost use Rattle.calvin_stock.specs.StockRows.{customer_key, item_key, order_key, customer_at, item_at, order_at};
ghost use Rattle.calvin_stock.specs.Stock.{order_keys, settle_keys, last_order, read_and_written};

use crate::order::Order;
use crate::rows::{Customer, Item, Placed, StockRow};
use calvin_app::View;
use calvin_types::{Key, KeySet, Sets};

/// The key of the customer with this number, in table 1.
pub(crate) fn customer_key(customer: u64) -> Key
    ensures { result ≡ customer_key customer }
{
    Key {
        table: 1,
        id: customer,
    }
}

/// The key of the item with this number, in table 2.
pub(crate) fn item_key(item: u64) -> Key
    ensures { result ≡ item_key item }
{
    Key { table: 2, id: item }
}

/// The key of the order with this number, in table 3.
pub(crate) fn order_key(order: u64) -> Key
    ensures { result ≡ order_key order }
{
    Key {
        table: 3,
        id: order,
    }
}

/// The customer with this number, if a view has it.
pub(crate) fn customer_in(view: &View<StockRow>, customer: u64) -> Option<Customer>
    ensures { result ≡ customer_at view.now customer }
{
    match view.get(&customer_key(customer)) {
        Some(StockRow::Customer(found)) => Some(found),
        _ => None,
    }
}

/// The item with this number, if a view has it.
pub(crate) fn item_in(view: &View<StockRow>, item: u64) -> Option<Item>
    ensures { result ≡ item_at view.now item }
{
    match view.get(&item_key(item)) {
        Some(StockRow::Item(found)) => Some(found),
        _ => None,
    }
}

/// The order with this number, if a view has it.
pub(crate) fn order_in(view: &View<StockRow>, order: u64) -> Option<Placed>
    ensures { result ≡ order_at view.now order }
{
    match view.get(&order_key(order)) {
        Some(StockRow::Order(found)) => Some(found),
        _ => None,
    }
}

/// The number of a customer's last order, if there is one.
pub(crate) fn last_order(customer: Option<Customer>) -> Option<u64>
    ensures { result ≡ last_order customer }
{
    match customer {
        Some(found) => found.last_order,
        None => None,
    }
}

/// Adds the keys of an order, its items, itself and its customer, to a set that has none. They come by their tables, so
/// that only keys of items are moved for another one.
pub(crate) fn add_order_keys(order: &Order, keys: &mut KeySet)
    requires { keys.old ≡ [] }
    ensures { keys.new ≡ order_keys order.now }
{
    keys.grow(customer_key(order.customer));
    for i in 0..order.lines.len() {
        keys.grow(item_key(order.lines.at(i).item));
    }
    keys.grow(order_key(order.number));
}

/// Adds the keys of a settlement, the customer and the last order where there is one, to a set that has none.
pub(crate) fn add_settle_keys(customer: u64, last: Option<u64>, keys: &mut KeySet)
    requires { keys.old ≡ [] }
    ensures { keys.new ≡ settle_keys customer last }
{
    keys.grow(customer_key(customer));
    if let Some(order) = last {
        keys.grow(order_key(order));
    }
}

/// Whether a set has this key and no other.
pub(crate) fn is_only(key: Key, set: &KeySet) -> bool
    ensures { result ≡ same_keys (key ∷ []) set.now }
{
    if set.len() != 1 {
        return false;
    }
    key == set.at(0)
}

/// Whether both sets have this key and no other.
pub(crate) fn are_only(key: Key, sets: &Sets) -> bool
    ensures { result ≡ same_sets (read_and_written (key ∷ [])) sets.now }
{
    is_only(key, &sets.reads) && is_only(key, &sets.writes)
}

/// Whether both sets have the keys of an order and no others.
pub(crate) fn are_of_order(order: &Order, sets: &Sets) -> bool
    ensures { result ≡ same_sets (read_and_written (order_keys order.now)) sets.now }
{
    let mut keys = KeySet::new();
    add_order_keys(order, &mut keys);
    keys == sets.reads && keys == sets.writes
}

/// Whether both sets have the keys of a settlement and no others.
pub(crate) fn are_of_settlement(customer: u64, last: Option<u64>, sets: &Sets) -> bool
    ensures { result ≡ same_sets (read_and_written (settle_keys customer last)) sets.now }
{
    let mut keys = KeySet::new();
    add_settle_keys(customer, last, &mut keys);
    keys == sets.reads && keys == sets.writes
}

/// Adds a key to both of two sets that have none.
pub(crate) fn add_to_both(key: Key, sets: &mut Sets)
    requires { sets.old ≡ record { reads = []; writes = [] } }
    ensures { sets.new ≡ read_and_written (key ∷ []) }
{
    sets.reads.grow(key);
    sets.writes.grow(key);
}
