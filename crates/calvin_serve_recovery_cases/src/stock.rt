//! A journal that begins with rows of Stock.
use crate::checks::same;
use crate::journals::{HEADING, found, setting};
use calvin_edge::MemorySink;
use calvin_serve_recovery::replay;
use calvin_stock::Stock;
use calvin_types::Fault;
use std::test::Fail;

/// Rows of Stock in which six epochs ended: a customer, an item and an order, and two epochs more.
const STOCK: &[u8] = b"{\"partitions\":2}\n[\"rows\",6,3]\n\
    [1,8,[\"customer\",1200,41]]\n[2,5,[\"item\",30,400]]\n[3,41,[\"order\",8,800,false]]\n\
    [{\"group\":0,\"txns\":[{\"client\":2,\"number\":1,\"op\":[\"balance\",8]},\
    {\"client\":2,\"number\":2,\"op\":[\"order\",8,42,[[5,2]]]}]}]\n\
    [{\"group\":0,\"txns\":[{\"client\":2,\"number\":3,\"op\":[\"order\",8,43,[[5,29]]]},\
    {\"client\":2,\"number\":4,\"op\":[\"order\",8,41,[[5,1]]]}]}]\n";

/// What these were answered: two pieces at 400 were sold, and 28 are left.
const SOLD: &[u8] =
    b"6.0 2:1 cents 1200\n6.1 2:2 ordered 800\n7.0 2:3 short\n7.1 2:4 orderexists\nfinished 7\n";

#[test]
fn orders_are_taken_on_rows_of_stock(rt: HostRuntime) -> Result<(), Fail> {
    let alloc = rt.alloc();
    let log = found(alloc, STOCK, b"")?;
    let mut sink = MemorySink::new(alloc);
    match replay(alloc, Stock, setting(), log, HEADING, &mut sink) {
        Ok(log) => same(&rt, log.left(0), STOCK),
        Err(refused) => return Err(refused.fault.into()),
    }
    same(&rt, sink.taken.as_slice(), SOLD);
    // A number is no row of Stock.
    let log = found(alloc, HEADING, b"\n[\"rows\",3,1]\n[0,1,13]\n")?;
    match replay(alloc, Stock, setting(), log, HEADING, &mut sink) {
        Ok(log) => same(&rt, log.left(0), STOCK),
        Err(refused) => same(&rt, refused.fault, Fault::NotAJournal),
    }
    same(&rt, sink.taken.as_slice(), SOLD);
    Ok(())
}
