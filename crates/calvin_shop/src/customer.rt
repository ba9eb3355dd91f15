//! What a customer of the shop does.
use calvin_app::{Answer, App};
use calvin_cluster::{Founding, Open, StoreCluster, Told};
use calvin_once::{Named, Once};
use calvin_stock::{Line, Order, Stock, StockReply, StockRequest, stock_once};
use calvin_types::{Fault, KeySet, NodeId, RequestId, Sets, Txn};
use std::sync::Wait;

/// A running shop.
pub(crate) type Shop<J> = StoreCluster<Once<Stock>, Open, J>;

/// Where all requests are submitted.
pub(crate) const DESK: NodeId = NodeId {
    replica: 0,
    partition: 0,
};

/// A client's request under a number, which has its effect once however often it comes.
pub(crate) fn request(
    client: u32,
    number: u32,
    args: StockRequest,
) -> Result<Txn<Named<StockRequest>>, Fault> {
    let mut sets = Sets {
        reads: KeySet::new(),
        writes: KeySet::new(),
    };
    args.add_first_needs(&mut sets);
    stock_once().wrap(Txn {
        id: RequestId { client, number },
        attempt: 1,
        args,
        sets,
    })
}

/// The cents that an answer tells, if it tells some.
pub(crate) fn value_of(answer: Answer<StockReply>) -> u64 {
    match answer {
        Answer::Reply(StockReply::Cents(cents)) => cents,
        _ => 0,
    }
}

/// What a customer was answered, and what the answer tells.
type Heard<J> = (Answer<StockReply>, Told<Once<Stock>, J>);

/// A request is submitted after what was told, and its answer awaited.
fn ask<J: Founding + 'static, R: Wait>(
    rt: &R,
    shop: &Shop<J>,
    told: &Told<Once<Stock>, J>,
    txn: Txn<Named<StockRequest>>,
) -> Result<Heard<J>, Fault> {
    let ticket = shop.submit(rt, told, DESK, txn)?;
    shop.wait(rt, &ticket)
}

/// A customer opens an account, pays 1,000 cents, submits that payment again, orders two pieces of item 1, and asks for the
/// balance.
pub(crate) fn buy<J: Founding + 'static, R: Wait>(
    rt: &R,
    shop: &Shop<J>,
    known: &Told<Once<Stock>, J>,
    client: u32,
) -> Result<Heard<J>, Fault> {
    let customer = u64::from(client);
    let (_done, told) = ask(
        rt,
        shop,
        known,
        request(client, 1, StockRequest::Open { customer })?,
    )?;
    let payment = StockRequest::PayIn {
        customer,
        cents: 1000,
    };
    let _unheard = shop.submit(rt, &told, DESK, request(client, 2, payment)?)?;
    let (_done, told) = ask(rt, shop, &told, request(client, 2, payment)?)?;
    let order = StockRequest::Order(Order::new(customer, 1, &[Line { item: 1, pieces: 2 }])?);
    let (_ordered, told) = ask(rt, shop, &told, request(client, 3, order)?)?;
    ask(
        rt,
        shop,
        &told,
        request(client, 4, StockRequest::Balance { customer })?,
    )
}
