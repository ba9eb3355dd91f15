//! Lines that keep no row.
use crate::checks::same;
use calvin_once::OnceRow;
use calvin_serve_rows::{StoredRow, read_row};
use calvin_stock::{StockReply, StockRow};
use calvin_types::Fault;
use std::alloc::Global;
use std::test::Fail;

/// Why a line is read as no row.
fn refused<Row: StoredRow + Drop>(alloc: Global, line: &str) -> Option<Fault> {
    read_row::<Row>(alloc, line.as_bytes()).err()
}

#[test]
fn what_is_no_json_is_refused(rt: HostRuntime) -> Result<(), Fail> {
    let alloc = rt.alloc();
    for line in ["", "[0,5", "[0,5,30] 1", "[0,5,]"] {
        same(&rt, refused::<u64>(alloc, line), Some(Fault::BadJson));
    }
    Ok(())
}

#[test]
fn a_list_of_other_items_is_no_row(rt: HostRuntime) -> Result<(), Fail> {
    let alloc = rt.alloc();
    let lines = [
        "{}",
        "[0,5]",
        "[0,5,30,1]",
        "[256,5,30]",
        "[0,18446744073709551616,30]",
        "[0,5,18446744073709551616]",
        "[0,5,-1]",
        "[0,5,1.0]",
        "[0,5,null]",
    ];
    for line in lines {
        same(&rt, refused::<u64>(alloc, line), Some(Fault::BadScript));
    }
    Ok(())
}

#[test]
fn a_row_of_another_form_is_none_of_stock(rt: HostRuntime) -> Result<(), Fail> {
    let alloc = rt.alloc();
    let lines = [
        "[1,7,5]",
        r#"[1,7,["shop",1,2]]"#,
        r#"[1,7,["customer",1200]]"#,
        r#"[1,7,["customer",1200,null,1]]"#,
        r#"[1,7,["customer",1200,false]]"#,
        r#"[1,7,["customer",null,null]]"#,
        r#"[2,5,["item",30]]"#,
        r#"[2,5,["item",30,400,1]]"#,
        r#"[3,41,["order",8,800]]"#,
        r#"[3,41,["order",8,800,0]]"#,
        r#"[3,41,["order",8,800,true,1]]"#,
        r#"[4,5,["reply",["done"]]]"#,
    ];
    for line in lines {
        same(
            &rt,
            refused::<StockRow>(alloc, line),
            Some(Fault::BadScript),
        );
    }
    Ok(())
}

#[test]
fn a_reply_of_another_form_isn_t_kept(rt: HostRuntime) -> Result<(), Fail> {
    let alloc = rt.alloc();
    let lines = [
        r#"[4,5,["reply"]]"#,
        r#"[4,5,["reply","done"]]"#,
        r#"[4,5,["reply",["done"],1]]"#,
        r#"[4,5,["reply",["done",1]]]"#,
        r#"[4,5,["reply",["settled"]]]"#,
        r#"[4,5,["reply",["settled",8,1]]]"#,
        r#"[4,5,["reply",["changed"]]]"#,
        r#"[4,5,["done"]]"#,
    ];
    for line in lines {
        same(
            &rt,
            refused::<OnceRow<StockRow, StockReply>>(alloc, line),
            Some(Fault::BadScript),
        );
    }
    Ok(())
}
