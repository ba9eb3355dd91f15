//! Requests of client 7, with the sets that they declare.
use calvin_stock::{Line, Order, StockRequest};
use calvin_types::{Fault, Key, KeySet, RequestId, Sets, Txn};

/// What is asked: as a script has it, with an order's lines as pairs of an item and its pieces.
#[derive(Clone, Copy)]
pub(crate) enum Asked {
    /// An item, its pieces and its price.
    AddItem(u64, u64, u64),
    /// An item and its pieces.
    Restock(u64, u64),
    /// A customer.
    Open(u64),
    /// A customer and cents.
    PayIn(u64, u64),
    /// A customer, an order and its one line.
    OrderOne(u64, u64, (u64, u32)),
    /// A customer, an order and its two lines.
    OrderTwo(u64, u64, (u64, u32), (u64, u32)),
    /// A customer, with no declared sets.
    Settle(u64),
    /// A customer and the order that is declared.
    SettleOf(u64, u64),
    /// A customer.
    Balance(u64),
}

/// So many pieces of an item.
pub(crate) fn line(of: (u64, u32)) -> Line {
    Line {
        item: of.0,
        pieces: of.1,
    }
}

/// The arguments of what is asked.
pub(crate) fn args_of(asked: &Asked) -> Result<StockRequest, Fault> {
    Ok(match *asked {
        Asked::AddItem(item, pieces, price) => StockRequest::AddItem {
            item,
            pieces,
            price,
        },
        Asked::Restock(item, pieces) => StockRequest::Restock { item, pieces },
        Asked::Open(customer) => StockRequest::Open { customer },
        Asked::PayIn(customer, cents) => StockRequest::PayIn { customer, cents },
        Asked::OrderOne(customer, number, only) => {
            StockRequest::Order(Order::new(customer, number, &[line(only)])?)
        }
        Asked::OrderTwo(customer, number, first, second) => {
            StockRequest::Order(Order::new(customer, number, &[line(first), line(second)])?)
        }
        Asked::Settle(customer) => StockRequest::Settle { customer },
        Asked::SettleOf(customer, _) => StockRequest::Settle { customer },
        Asked::Balance(customer) => StockRequest::Balance { customer },
    })
}

/// The sets of a request that declares none: those that it needs where no row is known.
pub(crate) fn first_sets(args: &StockRequest) -> Sets {
    let mut sets = Sets {
        reads: KeySet::new(),
        writes: KeySet::new(),
    };
    args.add_first_needs(&mut sets);
    sets
}

/// The sets of a settlement of an order.
fn sets_with(customer: u64, order: u64) -> Result<Sets, Fault> {
    let mut keys = KeySet::of(Key {
        table: 1,
        id: customer,
    });
    keys.insert(Key {
        table: 3,
        id: order,
    })?;
    Ok(Sets {
        reads: keys,
        writes: keys,
    })
}

/// The first attempt at what is asked, as the request with this number.
pub(crate) fn txn(number: u32, asked: &Asked) -> Result<Txn<StockRequest>, Fault> {
    let args = args_of(asked)?;
    let sets = match *asked {
        Asked::SettleOf(customer, order) => sets_with(customer, order)?,
        _ => first_sets(&args),
    };
    Ok(Txn {
        id: RequestId { client: 7, number },
        attempt: 1,
        args,
        sets,
    })
}
