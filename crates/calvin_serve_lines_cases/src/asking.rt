//! Lines of input.
use crate::checks::same;
use calvin_app::KvRequest;
use calvin_serve_lines::{Asked, read_request};
use calvin_types::Fault;
use std::alloc::Global;
use std::test::Fail;

/// The group of the request that a line asks, of two partitions, or why it is refused.
fn group_of(alloc: Global, line: &str) -> Result<u8, Fault> {
    let asked: Asked<KvRequest> = read_request(alloc, 2, line.as_bytes())?;
    Ok(asked.group())
}

#[test]
fn a_request_is_for_its_group_or_its_client_s(rt: HostRuntime) -> Result<(), Fail> {
    let alloc = rt.alloc();
    let of_client = r#"{"client":7,"number":1,"op":["put",5,30]}"#;
    same(&rt, group_of(alloc, of_client), Ok(1));
    let even = r#"{"client":8,"number":1,"op":["put",5,30]}"#;
    same(&rt, group_of(alloc, even), Ok(0));
    let given = r#"{"client":8,"group":1,"number":1,"op":["get",[5]]}"#;
    same(&rt, group_of(alloc, given), Ok(1));
    let whole =
        r#"{"op":["get",[5]],"attempt":8,"reads":[[0,5]],"writes":[],"group":0,"number":1,"client":7}"#;
    same(&rt, group_of(alloc, whole), Ok(0));
    Ok(())
}

#[test]
fn lines_of_another_form_are_refused(rt: HostRuntime) -> Result<(), Fail> {
    let alloc = rt.alloc();
    same(&rt, group_of(alloc, ""), Err(Fault::BadJson));
    same(&rt, group_of(alloc, r#"{"client":7"#), Err(Fault::BadJson));
    same(&rt, group_of(alloc, "7"), Err(Fault::BadScript));
    same(
        &rt,
        group_of(alloc, r#"{"client":7,"number":1}"#),
        Err(Fault::BadScript),
    );
    let no_partition = r#"{"client":7,"number":1,"op":["put",5,30],"group":2}"#;
    same(&rt, group_of(alloc, no_partition), Err(Fault::BadScript));
    let no_number = r#"{"client":7,"number":1,"op":["put",5,30],"group":"1"}"#;
    same(&rt, group_of(alloc, no_number), Err(Fault::BadScript));
    let deep = r#"{"client":7,"number":1,"op":[[[[[[[[[[[[[[[[1]]]]]]]]]]]]]]]]}"#;
    same(&rt, group_of(alloc, deep), Err(Fault::BadScript));
    Ok(())
}

#[test]
fn requests_that_no_sequencer_takes_are_refused(rt: HostRuntime) -> Result<(), Fail> {
    let alloc = rt.alloc();
    let no_key = r#"{"client":7,"number":1,"op":["put",5,30],"reads":[],"writes":[]}"#;
    same(&rt, group_of(alloc, no_key), Err(Fault::EmptySets));
    let late = r#"{"client":7,"number":1,"op":["put",5,30],"attempt":9}"#;
    same(&rt, group_of(alloc, late), Err(Fault::TooManyAttempts));
    let none = r#"{"client":7,"number":1,"op":["put",5,30],"attempt":0}"#;
    same(&rt, group_of(alloc, none), Err(Fault::TooManyAttempts));
    let both = r#"{"client":7,"number":1,"op":["put",5,30],"attempt":9,"reads":[],"writes":[]}"#;
    same(&rt, group_of(alloc, both), Err(Fault::EmptySets));
    Ok(())
}

#[test]
fn lines_of_at_most_65_536_bytes_are_read(rt: HostRuntime) -> Result<(), Fail> {
    let alloc = rt.alloc();
    let put = r#"{"client":7,"number":1,"op":["put",5,30]}"#;
    let mut line = String::from_str(alloc, put)?;
    for _space in line.len()..65_536 {
        line.push(' ')?;
    }
    same(&rt, group_of(alloc, line.as_str()), Ok(1));
    line.push(' ')?;
    same(&rt, group_of(alloc, line.as_str()), Err(Fault::BadJson));
    Ok(())
}
