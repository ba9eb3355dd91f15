//! What is told.

/// What a request is told. Where it isn't `Done`, `Ordered` or `Settled`, nothing was written.
#[derive(Clone, Copy, Debug, PartialEq, Eq)]
pub enum StockReply {
    /// It was done.
    Done,
    /// A number of pieces or cents is, or would be, above its limit.
    Limit,
    /// The item or the customer is there already.
    Exists,
    /// There is no such item.
    NoItem,
    /// There is no such customer.
    NoCustomer,
    /// The order is there already.
    OrderExists,
    /// There are fewer pieces of an item in stock than are ordered.
    Short,
    /// The order was placed; its total in cents.
    Ordered(u64),
    /// The customer has no last order, or it is settled.
    NothingOpen,
    /// The customer's balance is below the order's total.
    Poor,
    /// The order was settled; the cents that were paid for it.
    Settled(u64),
    /// The customer's balance in cents.
    Cents(u64),
}
