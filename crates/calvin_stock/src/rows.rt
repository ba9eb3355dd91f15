//! What is stored: a table of customers, one of items and one of orders.

/// A customer: the balance in cents, and the number of the last order, if one was placed.
#[derive(Clone, Copy, Debug, PartialEq, Eq)]
pub struct Customer {
    pub balance: u64,
    pub last_order: Option<u64>,
}

/// An item: the pieces in stock, and the price of one in cents.
#[derive(Clone, Copy, Debug, PartialEq, Eq)]
pub struct Item {
    pub stock: u64,
    pub price: u64,
}

/// An order that was placed: the number of the customer whose it is, its total in cents, and whether it is settled.
#[derive(Clone, Copy, Debug, PartialEq, Eq)]
pub struct Placed {
    pub customer: u64,
    pub total: u64,
    pub settled: bool,
}

/// A row of one of the tables: a customer of table 1, an item of table 2, an order of table 3.
#[derive(Clone, Copy, Debug, PartialEq, Eq)]
pub enum StockRow {
    Customer(Customer),
    Item(Item),
    Order(Placed),
}
