//! What is asked.
ghost use Rattle.std.specs.Prelude.{◌≡◌, false, []};
ghost use Rattle.std.specs.FinMap as finmap;
ghost use Rattle.calvin_app.specs.Rows.{Rows};
ghost use Rattle.calvin_types.specs.SameKeys.{same_sets};
ghost use Rattle.calvin_stock.specs.declared.rows.StockRow.{StockRow};
ghost use Rattle.calvin_stock.specs.Stock.{stock, is_dependent};

use crate::keys::{
    add_order_keys, add_settle_keys, add_to_both, are_of_order, are_of_settlement, are_only,
    customer_in, customer_key, is_only, item_key, last_order,
};
use crate::order::Order;
use crate::rows::StockRow;
use calvin_app::View;
use calvin_types::{KeySet, Sets};

/// What is asked of a stock. Customers, items and orders are named by numbers, amounts of money are cents. Each looks at
/// its refusals in the order in which they stand here, and where one is answered nothing is written.
#[derive(Clone, Copy, Debug, PartialEq, Eq)]
pub enum StockRequest {
    /// A new item, with so many pieces in stock and the price of one: `Limit` where there are more than `MOST_PIECES` or
    /// the price is above `MOST_CENTS`, `Exists`, else `Done`.
    AddItem { item: u64, pieces: u64, price: u64 },
    /// More pieces of an item: `NoItem`, `Limit` where its stock would be above `MOST_PIECES`, else `Done`.
    Restock { item: u64, pieces: u64 },
    /// A new customer, with nothing on the balance and no last order: `Exists`, else `Done`.
    Open { customer: u64 },
    /// A payment to a customer's balance: `NoCustomer`, `Limit` where the balance would be above `MOST_CENTS`, else
    /// `Done`.
    PayIn { customer: u64, cents: u64 },
    /// An order: `NoCustomer`, `OrderExists`; `NoItem` or `Short` of the first line that can't be delivered, in the
    /// order of the lines; `Limit` where its total is above `MOST_CENTS`; else `Ordered`. Each item's stock loses the
    /// pieces of its line, and the order becomes the customer's last one; one before it that isn't settled stays so.
    Order(Order),
    /// The payment of a customer's last order: `NoCustomer`; `NothingOpen` where there is no last order, or it is
    /// settled; `Poor` where the balance is below its total; else `Settled`. Which order that is depends on a row, so
    /// the sets do.
    Settle { customer: u64 },
    /// A customer's balance: `NoCustomer`, else `Cents`. It writes nothing.
    Balance { customer: u64 },
}

impl StockRequest {
    /// Adds the keys that the request reads and writes on these rows to sets that have none yet.
    pub fn add_needs(&self, view: &View<StockRow>, sets: &mut Sets)
        requires { sets.old ≡ record { reads = []; writes = [] } }
        ensures { sets.new ≡ stock.needs self.now view.now }
    {
        match self {
            StockRequest::Settle { customer } => {
                let last = last_order(customer_in(view, *customer));
                add_settle_keys(*customer, last, &mut sets.reads);
                sets.writes = sets.reads;
            }
            _ => self.add_first_needs(sets),
        }
    }

    /// Adds the keys that the request reads and writes where no row is known to sets that have none yet. Unless it is
    /// dependent these are the keys that it needs whatever the rows are.
    pub fn add_first_needs(&self, sets: &mut Sets)
        requires { sets.old ≡ record { reads = []; writes = [] } }
        ensures first { sets.new ≡ stock.needs self.now finmap.empty }
        ensures fixed { is_dependent self.now ≡ false → (rows : Rows StockRow) → sets.new ≡ stock.needs self.now rows }
    {
        match self {
            StockRequest::AddItem { item, .. } => add_to_both(item_key(*item), sets),
            StockRequest::Restock { item, .. } => add_to_both(item_key(*item), sets),
            StockRequest::Open { customer } => add_to_both(customer_key(*customer), sets),
            StockRequest::PayIn { customer, .. } => add_to_both(customer_key(*customer), sets),
            StockRequest::Order(order) => {
                add_order_keys(order, &mut sets.reads);
                sets.writes = sets.reads;
            }
            StockRequest::Settle { customer } => {
                add_settle_keys(*customer, None, &mut sets.reads);
                sets.writes = sets.reads;
            }
            StockRequest::Balance { customer } => sets.reads.grow(customer_key(*customer)),
        }
    }

    /// Adds the keys that the request reads where no row is known to a set that has none yet, as `add_first_needs` does.
    pub fn add_needed_reads(&self, reads: &mut KeySet)
        requires { reads.old ≡ [] }
        ensures { reads.new ≡ (stock.needs self.now finmap.empty).reads }
    {
        match self {
            StockRequest::AddItem { item, .. } => reads.grow(item_key(*item)),
            StockRequest::Restock { item, .. } => reads.grow(item_key(*item)),
            StockRequest::Open { customer } => reads.grow(customer_key(*customer)),
            StockRequest::PayIn { customer, .. } => reads.grow(customer_key(*customer)),
            StockRequest::Order(order) => add_order_keys(order, reads),
            StockRequest::Settle { customer } => add_settle_keys(*customer, None, reads),
            StockRequest::Balance { customer } => reads.grow(customer_key(*customer)),
        }
    }

    /// Whether these are the sets that the request needs on these rows. The sets of one key aren't made for it.
    pub(crate) fn needs_only(&self, view: &View<StockRow>, sets: &Sets) -> bool
        ensures { result ≡ same_sets (stock.needs self.now view.now) sets.now }
    {
        match self {
            StockRequest::AddItem { item, .. } => are_only(item_key(*item), sets),
            StockRequest::Restock { item, .. } => are_only(item_key(*item), sets),
            StockRequest::Open { customer } => are_only(customer_key(*customer), sets),
            StockRequest::PayIn { customer, .. } => are_only(customer_key(*customer), sets),
            StockRequest::Order(order) => are_of_order(order, sets),
            StockRequest::Settle { customer } => {
                let found = customer_in(view, *customer);
                are_of_settlement(*customer, last_order(found), sets)
            }
            StockRequest::Balance { customer } => {
                is_only(customer_key(*customer), &sets.reads) && sets.writes.is_empty()
            }
        }
    }
}
