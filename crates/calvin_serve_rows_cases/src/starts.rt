//! Lines that tell that rows stand behind them, and lines that don't.
use crate::checks::same;
use calvin_serve_rows::{read_start, start_line};
use calvin_types::Fault;
use std::alloc::Global;
use std::process::Abort;
use std::test::Fail;

/// The numbers are kept in this line, and are read from it.
fn kept(rt: &impl Abort, alloc: Global, epoch: u64, rows: usize, line: &str) -> Result<(), Fault> {
    let written = start_line(alloc, epoch, rows)?;
    same(rt, written.as_slice(), line.as_bytes());
    let said = read_start(alloc, line.as_bytes())?;
    same(rt, said, Some((epoch, rows as u64)));
    Ok(())
}

#[test]
fn a_start_has_its_name_and_two_numbers(rt: HostRuntime) -> Result<(), Fail> {
    let alloc = rt.alloc();
    kept(&rt, alloc, 0, 0, r#"["rows",0,0]"#)?;
    kept(&rt, alloc, 3, 2, r#"["rows",3,2]"#)?;
    // The epoch 2^48 is the one behind the last.
    kept(&rt, alloc, 1 << 48, 1, r#"["rows",281474976710656,1]"#)?;
    let most = r#"["rows",0,18446744073709551615]"#;
    kept(&rt, alloc, 0, usize::MAX, most)?;
    Ok(())
}

#[test]
fn spaces_are_passed_over_in_a_start(rt: HostRuntime) -> Result<(), Fail> {
    let said = read_start(rt.alloc(), b" [ \"rows\" , 3 ,\t2 ] ")?;
    same(&rt, said, Some((3, 2)));
    Ok(())
}

#[test]
fn a_line_of_another_form_is_no_start(rt: HostRuntime) -> Result<(), Fail> {
    let alloc = rt.alloc();
    let lines = [
        "[]",
        "{}",
        "3",
        r#"["rows"]"#,
        r#"["rows",3]"#,
        r#"["rows",3,2,1]"#,
        r#"["row",3,2]"#,
        r#"["ROWS",3,2]"#,
        r#"[3,2,"rows"]"#,
        r#"["rows",281474976710657,0]"#,
        r#"["rows",-1,2]"#,
        r#"["rows",3,18446744073709551616]"#,
        r#"["rows",3,2.0]"#,
        r#"["rows","3",2]"#,
        r#"["rows",3,null]"#,
        "[0,5,30]",
        r#"[{"group":0,"txns":[]}]"#,
    ];
    for line in lines {
        let said = read_start(alloc, line.as_bytes())?;
        same(&rt, said, None);
    }
    Ok(())
}

#[test]
fn what_is_no_json_is_no_line_of_a_journal(rt: HostRuntime) -> Result<(), Fail> {
    let alloc = rt.alloc();
    for line in ["", r#"["rows",3,2"#, r#"["rows",3,2] 1"#, "rows"] {
        let fault = read_start(alloc, line.as_bytes()).err();
        same(&rt, fault, Some(Fault::BadJson));
    }
    Ok(())
}
