//! Which operations of the application Stock are read in the usual way.
use crate::checks::same;
use crate::forms::first_of;
use calvin_script_tokens::{Scratch, script_from, usual_script};
use calvin_stock::{Line, Order, StockRequest};
use calvin_types::Fault;
use std::alloc::{AllocError, Global};
use std::test::Fail;

/// A script of one request with this operation.
fn with_operation(alloc: Global, operation: &str) -> Result<String, AllocError> {
    format!(in alloc;
        r#"{{"partitions":2,"app":"stock","epochs":[[{{"group":1,"txns":[{{"client":7,"number":1,"op":{operation}}}]}}]]}}"#
    )
}

/// What is read of the first request's operation, in the usual way.
fn usual_first(alloc: Global, text: &str) -> Option<StockRequest> {
    let mut scratch = Scratch::new(alloc);
    let script = usual_script::<StockRequest>(alloc, text.as_bytes(), &mut scratch);
    drop(scratch);
    let script = script?;
    let first = match first_of(&script) {
        Some(request) => Some(request.txn().args),
        None => None,
    };
    drop(script);
    first
}

/// What a script is refused with, if it is.
fn fault_of(alloc: Global, text: &str) -> Option<Fault> {
    match script_from::<StockRequest>(alloc, text.as_bytes()) {
        Ok(script) => {
            drop(script);
            None
        }
        Err(fault) => Some(fault),
    }
}

/// What is read of an operation in the usual way, and what it is refused with, if it is.
fn both_ways(
    alloc: Global,
    operation: &str,
) -> Result<(Option<StockRequest>, Option<Fault>), AllocError> {
    let text = with_operation(alloc, operation)?;
    let usual = usual_first(alloc, text.as_str());
    let fault = fault_of(alloc, text.as_str());
    drop(text);
    Ok((usual, fault))
}

#[test]
fn each_operation(rt: HostRuntime) -> Result<(), Fail> {
    let lines = [
        Line {
            item: 10,
            pieces: 2,
        },
        Line {
            item: 4,
            pieces: 1000000000,
        },
        Line {
            item: 18446744073709551615,
            pieces: 1,
        },
        Line { item: 0, pieces: 3 },
    ];
    let order = Order::new(501, 9001, &lines)?;
    let shortest = Order::new(0, 1, &lines[..1])?;
    for &(operation, wanted) in &[
        (
            r#"["additem",1,2,3]"#,
            StockRequest::AddItem {
                item: 1,
                pieces: 2,
                price: 3,
            },
        ),
        (
            r#"["restock",1,2]"#,
            StockRequest::Restock { item: 1, pieces: 2 },
        ),
        (r#"["open",9]"#, StockRequest::Open { customer: 9 }),
        (
            r#"["payin",1,2]"#,
            StockRequest::PayIn {
                customer: 1,
                cents: 2,
            },
        ),
        (r#"["settle",8]"#, StockRequest::Settle { customer: 8 }),
        (
            r#"["balance",18446744073709551615]"#,
            StockRequest::Balance {
                customer: 18446744073709551615,
            },
        ),
        (
            r#"["order",501,9001,[[10,2],[4,1000000000],[18446744073709551615,1],[0,3]]]"#,
            StockRequest::Order(order),
        ),
        (
            r#" [ "or\u0064er" , 0,1 ,[[10 ,2]] ] "#,
            StockRequest::Order(shortest),
        ),
    ] {
        let found = both_ways(rt.alloc(), operation)?;
        same(&rt, (operation, found), (operation, (Some(wanted), None)));
    }
    Ok(())
}

/// What is no operation, either way: an order of no line or of five, an item that comes twice, no piece or too many, a
/// number too many or too few.
const NO_OPERATIONS: [&str; 20] = [
    r#"["order",1,2,[]]"#,
    r#"["order",1,2,[[1,1],[2,1],[3,1],[4,1],[5,1]]]"#,
    r#"["order",1,2,[[1,1],[2,1],[1,3]]]"#,
    r#"["order",1,2,[[1,0]]]"#,
    r#"["order",1,2,[[1,1000000001]]]"#,
    r#"["order",1,2,[[1,4294967296]]]"#,
    r#"["order",1,2,[[1,1,1]]]"#,
    r#"["order",1,2,[[1]]]"#,
    r#"["order",1,2,[[1,1]],3]"#,
    r#"["order",1,[[1,1]]]"#,
    r#"["order",1,2,{}]"#,
    r#"["additem",1,2]"#,
    r#"["restock",1,2,3]"#,
    r#"["open"]"#,
    r#"["open",1,2]"#,
    r#"["payin",1,-2]"#,
    r#"["settle",18446744073709551616]"#,
    r#"["balance","1"]"#,
    r#"["put",1,2]"#,
    r#"[]"#,
];

#[test]
fn no_operations(rt: HostRuntime) -> Result<(), Fail> {
    for &operation in &NO_OPERATIONS {
        let found = both_ways(rt.alloc(), operation)?;
        same(
            &rt,
            (operation, found),
            (operation, (None, Some(Fault::BadScript))),
        );
    }
    Ok(())
}
