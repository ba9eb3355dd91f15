//! Which bytes are scripts.
use crate::checks::{filled, same};
use calvin_app::KvRequest;
use calvin_script::{AppName, Document, script_from};
use calvin_types::Fault;
use std::alloc::{AllocError, Global};
use std::process::Abort;
use std::test::Fail;

/// The refusal of what is no script.
pub(crate) const BAD: Option<Fault> = Some(Fault::BadScript);

/// What the bytes are refused with, if they are.
fn fault_of(alloc: Global, bytes: &[u8]) -> Option<Fault> {
    match script_from::<KvRequest>(alloc, bytes) {
        Ok(script) => {
            drop(script);
            None
        }
        Err(fault) => Some(fault),
    }
}

/// What a script is refused with, if it is.
fn fault_of_script(alloc: Global, script: String) -> Option<Fault> {
    let fault = fault_of(alloc, script.as_bytes());
    drop(script);
    fault
}

/// A script of two partitions with these batches in its one epoch.
pub(crate) fn with_batches(alloc: Global, batches: &str) -> Result<String, AllocError> {
    format!(in alloc; r#"{{"partitions":2,"app":"kv","epochs":[[{batches}]]}}"#)
}

pub(crate) fn with_request(alloc: Global, request: &str) -> Result<String, AllocError> {
    format!(in alloc;
        r#"{{"partitions":2,"app":"kv","epochs":[[{{"group":1,"txns":[{request}]}}]]}}"#
    )
}

fn with_operation(alloc: Global, operation: &str) -> Result<String, AllocError> {
    format!(in alloc;
        r#"{{"partitions":2,"app":"kv","epochs":[[{{"group":1,"txns":[{{"client":1,"number":1,"op":{operation}}}]}}]]}}"#
    )
}

fn with_member(alloc: Global, member: &str) -> Result<String, AllocError> {
    format!(in alloc;
        r#"{{"partitions":2,"app":"kv","epochs":[[{{"group":1,"txns":[{{"client":1,"number":1,"op":["put",1,2],{member}}}]}}]]}}"#
    )
}

/// Which part of a script a text is.
#[derive(Clone, Copy)]
enum Part {
    Batches,
    Request,
    Member,
    Operation,
}

/// A script with this part.
fn script_with(alloc: Global, part: Part, text: &str) -> Result<String, AllocError> {
    match part {
        Part::Batches => with_batches(alloc, text),
        Part::Request => with_request(alloc, text),
        Part::Member => with_member(alloc, text),
        Part::Operation => with_operation(alloc, text),
    }
}

/// Each of these scripts is refused with what stands beside it, if that is anything.
pub(crate) fn check_scripts(rt: &impl Abort, alloc: Global, rows: &[(&str, Option<Fault>)]) {
    for &(text, fault) in rows {
        same(rt, (text, fault_of(alloc, text.as_bytes())), (text, fault));
    }
}

/// A script with each of these parts is refused with what stands beside it, if that is anything.
fn check_each(
    rt: &impl Abort,
    alloc: Global,
    part: Part,
    rows: &[(&str, Option<Fault>)],
) -> Result<(), AllocError> {
    for &(text, fault) in rows {
        let script = script_with(alloc, part, text)?;
        same(rt, (text, fault_of_script(alloc, script)), (text, fault));
    }
    Ok(())
}

/// What a script is refused with, of which a part is this list between two texts.
fn fault_of_list(
    alloc: Global,
    part: Part,
    before: &str,
    list: Result<String, AllocError>,
    after: &str,
) -> Result<Option<Fault>, AllocError> {
    let list = list?;
    let text = format!(in alloc; "{before}{list}{after}");
    drop(list);
    let text = text?;
    let script = script_with(alloc, part, text.as_str());
    drop(text);
    Ok(fault_of_script(alloc, script?))
}

/// Adds a text so many times, with another between.
fn add_repeated(
    all: &mut String,
    text: &str,
    between: &str,
    count: usize,
) -> Result<(), AllocError> {
    for i in 0..count {
        if 0 < i {
            all.push_str(between)?;
        }
        all.push_str(text)?;
    }
    Ok(())
}

/// A text so many times, with commas between.
fn repeated(alloc: Global, text: &str, count: usize) -> Result<String, AllocError> {
    let mut all = String::new(alloc);
    let added = add_repeated(&mut all, text, ",", count);
    filled(all, added)
}

/// Adds the numbers below a count, each after the text before it and before the text after it, with commas between.
fn add_numbers(
    all: &mut String,
    alloc: Global,
    before: &str,
    count: usize,
    after: &str,
) -> Result<(), AllocError> {
    for i in 0..count {
        if 0 < i {
            all.push_str(",")?;
        }
        let one = format!(in alloc; "{before}{i}{after}")?;
        let added = all.push_str(one.as_str());
        drop(one);
        added?;
    }
    Ok(())
}

/// The numbers below a count, each after the text before it and before the text after it.
fn numbers(alloc: Global, before: &str, count: usize, after: &str) -> Result<String, AllocError> {
    let mut all = String::new(alloc);
    let added = add_numbers(&mut all, alloc, before, count, after);
    filled(all, added)
}

#[test]
fn bytes_that_are_no_json(rt: HostRuntime) {
    let table: [&[u8]; 7] = [
        b"",
        b"{",
        b"{\"partitions\":1,\"app\":\"kv\",\"epochs\":[]",
        b"{\"partitions\":1,\"app\":\"kv\",\"epochs\":[]} x",
        b"{\"partitions\":01,\"app\":\"kv\",\"epochs\":[]}",
        b"{\"partitions\":1,\"app\":\"kv\xff\",\"epochs\":[]}",
        b"\xff",
    ];
    for bytes in table {
        same(
            &rt,
            (bytes, fault_of(rt.alloc(), bytes)),
            (bytes, Some(Fault::BadJson)),
        );
    }
}

/// Adds so many arrays, each in the one before it.
fn add_arrays(text: &mut String, depth: usize) -> Result<(), AllocError> {
    add_repeated(text, "[", "", depth)?;
    add_repeated(text, "]", "", depth)
}

/// So many arrays, each in the one before it.
fn arrays(alloc: Global, depth: usize) -> Result<String, AllocError> {
    let mut text = String::new(alloc);
    let added = add_arrays(&mut text, depth);
    filled(text, added)
}

#[test]
fn nesting(rt: HostRuntime) -> Result<(), Fail> {
    for &(depth, fault) in &[(127, Fault::BadScript), (128, Fault::BadJson)] {
        let text = arrays(rt.alloc(), depth)?;
        same(
            &rt,
            (depth, fault_of_script(rt.alloc(), text)),
            (depth, Some(fault)),
        );
    }
    Ok(())
}

/// Whole scripts, and what each is refused with.
const SCRIPTS: [(&str, Option<Fault>); 30] = [
    (r#"{"partitions":1,"app":"kv","epochs":[]}"#, None),
    (r#"{"partitions":16,"app":"kv","epochs":[[],[]]}"#, None),
    (r#" {"epochs":[],"app":"kv","partitions":1} "#, None),
    (r#"{"app":"kv","epochs":[]}"#, BAD),
    (r#"{"partitions":1,"epochs":[]}"#, BAD),
    (r#"{"partitions":1,"app":"kv"}"#, BAD),
    (
        r#"{"partitions":1,"app":"kv","epochs":[],"replicas":1}"#,
        BAD,
    ),
    (r#"{"partitions":1,"app":"kv","epochs":[],"":1}"#, BAD),
    (r#"{"partitions":0,"app":"kv","epochs":[]}"#, BAD),
    (r#"{"partitions":17,"app":"kv","epochs":[]}"#, BAD),
    (r#"{"partitions":257,"app":"kv","epochs":[]}"#, BAD),
    (r#"{"partitions":-1,"app":"kv","epochs":[]}"#, BAD),
    (r#"{"partitions":-0,"app":"kv","epochs":[]}"#, BAD),
    (r#"{"partitions":1.0,"app":"kv","epochs":[]}"#, BAD),
    (r#"{"partitions":1e0,"app":"kv","epochs":[]}"#, BAD),
    (r#"{"partitions":"1","app":"kv","epochs":[]}"#, BAD),
    (r#"{"partitions":null,"app":"kv","epochs":[]}"#, BAD),
    (r#"{"partitions":1,"app":"KV","epochs":[]}"#, BAD),
    (r#"{"partitions":1,"app":"stock","epochs":[]}"#, BAD),
    (r#"{"partitions":1,"app":"","epochs":[]}"#, BAD),
    (r#"{"partitions":1,"app":["kv"],"epochs":[]}"#, BAD),
    (r#"{"partitions":1,"app":"kv","epochs":{}}"#, BAD),
    (r#"{"partitions":1,"app":"kv","epochs":null}"#, BAD),
    (r#"{"partitions":1,"app":"kv","epochs":[{}]}"#, BAD),
    (r#"{"partitions":1,"app":"kv","epochs":[null]}"#, BAD),
    (r#"{"partitions":1,"app":"kv","epochs":[[[]]]}"#, BAD),
    ("[]", BAD),
    ("{}", BAD),
    ("null", BAD),
    ("1", BAD),
];

#[test]
fn scripts(rt: HostRuntime) {
    check_scripts(&rt, rt.alloc(), &SCRIPTS);
}

/// Batches of one epoch, and what a script with them is refused with.
const BATCHES: [(&str, Option<Fault>); 17] = [
    ("", None),
    (r#"{"group":1,"txns":[]}"#, None),
    (r#"{"group":1,"txns":[]},{"group":0,"txns":[]}"#, None),
    (r#"{"txns":[],"group":1}"#, None),
    (r#"{"group":2,"txns":[]}"#, BAD),
    (r#"{"group":256,"txns":[]}"#, BAD),
    (r#"{"group":-1,"txns":[]}"#, BAD),
    (r#"{"group":1,"txns":[]},{"group":1,"txns":[]}"#, BAD),
    (
        r#"{"group":1,"txns":[]},{"group":0,"txns":[]},{"group":1,"txns":[]}"#,
        BAD,
    ),
    (r#"{"group":1}"#, BAD),
    (r#"{"txns":[]}"#, BAD),
    (r#"{"group":1,"txns":{}}"#, BAD),
    (r#"{"group":1,"txns":[null]}"#, BAD),
    (r#"{"group":1,"txns":[[]]}"#, BAD),
    (r#"{"group":1,"txns":[],"x":0}"#, BAD),
    (r#"{"group":"1","txns":[]}"#, BAD),
    ("null", BAD),
];

#[test]
fn batches(rt: HostRuntime) -> Result<(), Fail> {
    check_each(&rt, rt.alloc(), Part::Batches, &BATCHES)?;
    Ok(())
}

/// Requests, and what a script with one is refused with.
const REQUESTS: [(&str, Option<Fault>); 20] = [
    (
        r#"{"client":4294967295,"number":4294967295,"op":["put",1,2]}"#,
        None,
    ),
    (r#"{"client":0,"number":0,"op":["put",1,2]}"#, None),
    (r#"{"client":4294967296,"number":1,"op":["put",1,2]}"#, BAD),
    (r#"{"client":1,"number":4294967296,"op":["put",1,2]}"#, BAD),
    (r#"{"client":-1,"number":1,"op":["put",1,2]}"#, BAD),
    (r#"{"client":1,"number":-0,"op":["put",1,2]}"#, BAD),
    (r#"{"client":1.0,"number":1,"op":["put",1,2]}"#, BAD),
    (r#"{"client":1,"number":1e3,"op":["put",1,2]}"#, BAD),
    (r#"{"client":"1","number":1,"op":["put",1,2]}"#, BAD),
    (r#"{"client":1,"number":true,"op":["put",1,2]}"#, BAD),
    (r#"{"number":1,"op":["put",1,2]}"#, BAD),
    (r#"{"client":1,"op":["put",1,2]}"#, BAD),
    (r#"{"client":1,"number":1}"#, BAD),
    (
        r#"{"client":1,"number":1,"op":["put",1,2],"Attempt":1}"#,
        BAD,
    ),
    (r#"{"client":1,"number":1,"op":["put",1,2],"opp":1}"#, BAD),
    (r#"{"client":1,"number":1,"op":["put",1,2],"op ":1}"#, BAD),
    (r#"{"client":1,"number":1,"op":["put",1,2],"":1}"#, BAD),
    ("{}", BAD),
    ("[]", BAD),
    ("null", BAD),
];

#[test]
fn requests(rt: HostRuntime) -> Result<(), Fail> {
    check_each(&rt, rt.alloc(), Part::Request, &REQUESTS)?;
    Ok(())
}

/// Further members of a request, and what a script with them is refused with.
const MEMBERS: [(&str, Option<Fault>); 26] = [
    (r#""attempt":1"#, None),
    (r#""attempt":8"#, None),
    (r#""attempt":0"#, BAD),
    (r#""attempt":9"#, BAD),
    (r#""attempt":255"#, BAD),
    (r#""attempt":256"#, BAD),
    (r#""attempt":null"#, BAD),
    (r#""reads":[],"writes":[[0,1]]"#, None),
    (r#""reads":[[255,18446744073709551615]],"writes":[]"#, None),
    (r#""reads":[[3,1],[0,7],[3,0]],"writes":[[0,1]]"#, None),
    (r#""reads":[],"writes":[]"#, BAD),
    (r#""reads":[[0,1]]"#, BAD),
    (r#""writes":[[0,1]]"#, BAD),
    (r#""reads":null,"writes":[[0,1]]"#, BAD),
    (r#""reads":[[0,1]],"writes":null"#, BAD),
    (r#""reads":[[0,1],[1,1],[0,1]],"writes":[]"#, BAD),
    (r#""reads":[],"writes":[[0,1],[0,1]]"#, BAD),
    (r#""reads":[[256,1]],"writes":[]"#, BAD),
    (r#""reads":[[0,18446744073709551616]],"writes":[]"#, BAD),
    (r#""reads":[[0,-1]],"writes":[]"#, BAD),
    (r#""reads":[[0]],"writes":[]"#, BAD),
    (r#""reads":[[]],"writes":[]"#, BAD),
    (r#""reads":[[0,1,2]],"writes":[]"#, BAD),
    (r#""reads":[0,1],"writes":[]"#, BAD),
    (r#""reads":[{}],"writes":[]"#, BAD),
    (r#""reads":{},"writes":[[0,1]]"#, BAD),
];

#[test]
fn members_that_may_be_left_out(rt: HostRuntime) -> Result<(), Fail> {
    check_each(&rt, rt.alloc(), Part::Member, &MEMBERS)?;
    Ok(())
}

/// Operations, and what a script with one is refused with.
const OPERATIONS: [(&str, Option<Fault>); 60] = [
    (r#"["put",18446744073709551615,18446744073709551615]"#, None),
    (r#"["add",0,0]"#, None),
    (r#"["get",[18446744073709551615,0]]"#, None),
    (
        r#"["move",18446744073709551615,0,18446744073709551615]"#,
        None,
    ),
    (r#"["move",3,3,0]"#, None),
    (r#"["follow",18446744073709551615]"#, None),
    (r#"["follow",0]"#, None),
    (r#"["put",18446744073709551616,1]"#, BAD),
    (r#"["put",1,18446744073709551616]"#, BAD),
    (r#"["add",1,18446744073709551616]"#, BAD),
    (r#"["get",[18446744073709551616]]"#, BAD),
    (r#"["put",-1,1]"#, BAD),
    (r#"["put",1,-0]"#, BAD),
    (r#"["put",1,1.0]"#, BAD),
    (r#"["add",1,1e3]"#, BAD),
    (r#"["put",1]"#, BAD),
    (r#"["put",1,2,3]"#, BAD),
    (r#"["put"]"#, BAD),
    (r#"["put","1",2]"#, BAD),
    (r#"["add",1]"#, BAD),
    (r#"["add",1,2,3]"#, BAD),
    (r#"["move",18446744073709551616,1,1]"#, BAD),
    (r#"["move",1,18446744073709551616,1]"#, BAD),
    (r#"["move",1,2,18446744073709551616]"#, BAD),
    (r#"["move",-1,2,3]"#, BAD),
    (r#"["move",1,-0,3]"#, BAD),
    (r#"["move",1,2,3.0]"#, BAD),
    (r#"["move",1,2,"3"]"#, BAD),
    (r#"["move",[1],2,3]"#, BAD),
    (r#"["move",1,2]"#, BAD),
    (r#"["move",1,2,3,4]"#, BAD),
    (r#"["move"]"#, BAD),
    (r#"["follow",18446744073709551616]"#, BAD),
    (r#"["follow",-1]"#, BAD),
    (r#"["follow",1e0]"#, BAD),
    (r#"["follow","1"]"#, BAD),
    (r#"["follow",[1]]"#, BAD),
    (r#"["follow",null]"#, BAD),
    (r#"["follow"]"#, BAD),
    (r#"["follow",1,2]"#, BAD),
    (r#"["get"]"#, BAD),
    (r#"["get",1]"#, BAD),
    (r#"["get",[1],2]"#, BAD),
    (r#"["get",[[0,1]]]"#, BAD),
    (r#"["get",[1,1]]"#, BAD),
    (r#"["get",[1,2,1]]"#, BAD),
    (r#"["get",[]]"#, BAD),
    (r#"["get",{}]"#, BAD),
    (r#"["Put",1,2]"#, BAD),
    (r#"["putt",1,2]"#, BAD),
    (r#"["Move",1,2,3]"#, BAD),
    (r#"["moved",1,2,3]"#, BAD),
    (r#"["Follow",1]"#, BAD),
    (r#"["follows",1]"#, BAD),
    (r#"["",1,2]"#, BAD),
    (r#"[1,1,2]"#, BAD),
    (r#"[null,1,2]"#, BAD),
    ("[]", BAD),
    ("{}", BAD),
    (r#""put""#, BAD),
];

#[test]
fn operations(rt: HostRuntime) -> Result<(), Fail> {
    check_each(&rt, rt.alloc(), Part::Operation, &OPERATIONS)?;
    Ok(())
}

/// Lists of keys: the part of a script with one, the text before it, those round each number, and the text after it.
const LISTS: [(Part, &str, &str, &str, &str); 3] = [
    (Part::Operation, r#"["get",["#, "", "", "]]"),
    (
        Part::Member,
        r#""reads":["#,
        "[7,",
        "]",
        r#"],"writes":[[0,1]]"#,
    ),
    (Part::Member, r#""reads":[],"writes":["#, "[7,", "]", "]"),
];

#[test]
fn lists_of_keys(rt: HostRuntime) -> Result<(), Fail> {
    for &(count, fault) in &[(16, None), (17, BAD)] {
        for &(part, before, first, last, after) in &LISTS {
            let keys = numbers(rt.alloc(), first, count, last);
            let found = fault_of_list(rt.alloc(), part, before, keys, after)?;
            same(&rt, (count, found), (count, fault));
        }
    }
    Ok(())
}

#[test]
fn longest_batch(rt: HostRuntime) -> Result<(), Fail> {
    let request = r#"{"client":1,"number":1,"op":["put",1,2]}"#;
    for &(count, fault) in &[(256, None), (257, BAD)] {
        let requests = repeated(rt.alloc(), request, count);
        let found = fault_of_list(
            rt.alloc(),
            Part::Batches,
            r#"{"group":0,"txns":["#,
            requests,
            "]}",
        )?;
        same(&rt, (count, found), (count, fault));
    }
    Ok(())
}

/// The application that a text names.
fn app_of(alloc: Global, text: &str) -> Result<Option<AppName>, Fault> {
    let document = Document::read(alloc, text.as_bytes())?;
    let app = document.app();
    drop(document);
    Ok(app)
}

/// Texts, and the application that each names.
const APPLICATIONS: [(&str, Option<AppName>); 8] = [
    (r#"{"app":"kv"}"#, Some(AppName::Kv)),
    (r#"{"app":"once"}"#, Some(AppName::Once)),
    (r#"{"app":"once "}"#, None),
    (
        r#"{"epochs":7,"app":"stock","app":"kv"}"#,
        Some(AppName::Kv),
    ),
    (r#"{"app":"KV"}"#, None),
    (r#"{"app":["kv"]}"#, None),
    (r#"{"name":"kv"}"#, None),
    (r#"["app","kv"]"#, None),
];

#[test]
fn applications(rt: HostRuntime) -> Result<(), Fail> {
    for &(text, app) in &APPLICATIONS {
        same(&rt, (text, app_of(rt.alloc(), text)?), (text, app));
    }
    Ok(())
}
