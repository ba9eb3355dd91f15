//! Requests of client 7 to a stock, each under its name once.
use calvin_once::Named;
use calvin_stock::{Line, Order, StockRequest, stock_once};
use calvin_types::{Fault, Key, KeySet, RequestId, Sets, Txn};

/// The set of these keys.
fn keys(of: &[(u8, u64)]) -> Result<KeySet, Fault> {
    let mut keys = KeySet::new();
    for &(table, id) in of {
        keys.insert(Key { table, id })?;
    }
    Ok(keys)
}

/// An order of one line.
pub(crate) fn order(
    customer: u64,
    number: u64,
    item: u64,
    pieces: u32,
) -> Result<StockRequest, Fault> {
    Ok(StockRequest::Order(Order::new(customer, number, &[Line { item, pieces }])?))
}

/// A request under the name of client 7 with this number, with the key of its kept reply among these sets.
fn named(
    number: u32,
    attempt: u8,
    args: StockRequest,
    sets: Sets,
) -> Result<Txn<Named<StockRequest>>, Fault> {
    let id = RequestId { client: 7, number };
    stock_once().wrap(Txn {
        id,
        attempt,
        args,
        sets,
    })
}

/// The sets of a request that declares none: those that it needs where no row is known.
pub(crate) fn first_sets(args: &StockRequest) -> Sets {
    let mut sets = Sets {
        reads: KeySet::new(),
        writes: KeySet::new(),
    };
    args.add_first_needs(&mut sets);
    sets
}

/// The first attempt, with the sets that are needed where no row is known.
pub(crate) fn first(number: u32, args: StockRequest) -> Result<Txn<Named<StockRequest>>, Fault> {
    named(number, 1, args, first_sets(&args))
}

/// The second attempt, which reads and writes these keys.
pub(crate) fn second(
    number: u32,
    args: StockRequest,
    of: &[(u8, u64)],
) -> Result<Txn<Named<StockRequest>>, Fault> {
    let keys = keys(of)?;
    let sets = Sets {
        reads: keys,
        writes: keys,
    };
    named(number, 2, args, sets)
}
