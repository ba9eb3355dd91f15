//! Rows and the lines that keep them.
use crate::checks::same;
use calvin_once::OnceRow;
use calvin_serve_rows::{StoredRow, read_row, row_line};
use calvin_stock::{Customer, Item, Placed, StockReply, StockRow};
use calvin_types::{Fault, Key};
use std::alloc::Global;
use std::fmt::Debug;
use std::process::Abort;
use std::test::Fail;

/// The row is kept in this line, and is read from it.
fn kept<Row: StoredRow + PartialEq + Debug + Drop>(
    rt: &impl Abort,
    alloc: Global,
    table: u8,
    id: u64,
    row: Row,
    line: &str,
) -> Result<(), Fault> {
    let key = Key { table, id };
    let written = row_line(alloc, &key, &row)?;
    same(rt, written.as_slice(), line.as_bytes());
    let (found, again) = read_row::<Row>(alloc, line.as_bytes())?;
    same(rt, found, key);
    same(rt, again, row);
    Ok(())
}

#[test]
fn a_row_of_kv_is_a_number(rt: HostRuntime) -> Result<(), Fail> {
    let alloc = rt.alloc();
    kept(&rt, alloc, 0, 5, 30, "[0,5,30]")?;
    kept(&rt, alloc, 0, 0, 0, "[0,0,0]")?;
    let most = "[255,18446744073709551615,18446744073709551615]";
    kept(&rt, alloc, 255, u64::MAX, u64::MAX, most)?;
    Ok(())
}

#[test]
fn a_row_of_stock_has_its_name(rt: HostRuntime) -> Result<(), Fail> {
    let alloc = rt.alloc();
    let new = StockRow::Customer(Customer {
        balance: 0,
        last_order: None,
    });
    kept(&rt, alloc, 1, 7, new, r#"[1,7,["customer",0,null]]"#)?;
    let known = StockRow::Customer(Customer {
        balance: 1_200,
        last_order: Some(41),
    });
    kept(&rt, alloc, 1, 8, known, r#"[1,8,["customer",1200,41]]"#)?;
    let item = StockRow::Item(Item {
        stock: 30,
        price: 400,
    });
    kept(&rt, alloc, 2, 5, item, r#"[2,5,["item",30,400]]"#)?;
    let open = StockRow::Order(Placed {
        customer: 8,
        total: 800,
        settled: false,
    });
    kept(&rt, alloc, 3, 41, open, r#"[3,41,["order",8,800,false]]"#)?;
    let settled = StockRow::Order(Placed {
        customer: 8,
        total: 800,
        settled: true,
    });
    kept(&rt, alloc, 3, 42, settled, r#"[3,42,["order",8,800,true]]"#)?;
    Ok(())
}

/// The key of the kept reply of the request 7:5, which is 7 * 2^32 + 5 in table 4.
const KEPT: u64 = 30_064_771_077;

/// The reply is kept as this text.
fn told(rt: &impl Abort, alloc: Global, reply: StockReply, text: &str) -> Result<(), Fault> {
    let mut line = String::from_str(alloc, r#"[4,30064771077,["reply","#)?;
    line.push_str(text)?;
    line.push_str("]]")?;
    let row: OnceRow<StockRow, StockReply> = OnceRow::Reply(reply);
    kept(rt, alloc, 4, KEPT, row, line.as_str())
}

#[test]
fn a_kept_reply_has_its_name_and_its_number(rt: HostRuntime) -> Result<(), Fail> {
    let alloc = rt.alloc();
    told(&rt, alloc, StockReply::Done, r#"["done"]"#)?;
    told(&rt, alloc, StockReply::Limit, r#"["limit"]"#)?;
    told(&rt, alloc, StockReply::Exists, r#"["exists"]"#)?;
    told(&rt, alloc, StockReply::NoItem, r#"["noitem"]"#)?;
    told(&rt, alloc, StockReply::NoCustomer, r#"["nocustomer"]"#)?;
    told(&rt, alloc, StockReply::OrderExists, r#"["orderexists"]"#)?;
    told(&rt, alloc, StockReply::Short, r#"["short"]"#)?;
    told(
        &rt,
        alloc,
        StockReply::Ordered(1_600),
        r#"["ordered",1600]"#,
    )?;
    told(&rt, alloc, StockReply::NothingOpen, r#"["nothingopen"]"#)?;
    told(&rt, alloc, StockReply::Poor, r#"["poor"]"#)?;
    told(&rt, alloc, StockReply::Settled(800), r#"["settled",800]"#)?;
    told(&rt, alloc, StockReply::Cents(0), r#"["cents",0]"#)?;
    Ok(())
}

#[test]
fn a_row_beside_kept_replies_is_one_of_stock(rt: HostRuntime) -> Result<(), Fail> {
    let alloc = rt.alloc();
    let item: OnceRow<StockRow, StockReply> = OnceRow::Row(StockRow::Item(Item {
        stock: 30,
        price: 400,
    }));
    kept(&rt, alloc, 2, 5, item, r#"[2,5,["item",30,400]]"#)?;
    Ok(())
}

#[test]
fn spaces_are_passed_over(rt: HostRuntime) -> Result<(), Fail> {
    let alloc = rt.alloc();
    let (key, row) = read_row::<u64>(alloc, b" [ 0 , 5 ,\t30 ] ")?;
    same(&rt, key, Key { table: 0, id: 5 });
    same(&rt, row, 30);
    Ok(())
}
