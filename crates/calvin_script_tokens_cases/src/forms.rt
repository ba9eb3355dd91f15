//! Which forms of a script are read in the usual way.
use crate::checks::{holds, same};
use calvin_app::KvRequest;
use calvin_script::{Kept, Operation, Script};
use calvin_script_tokens::{Scratch, script_from, usual_script};
use calvin_types::Fault;
use std::alloc::{AllocError, Global};
use std::process::Abort;
use std::test::Fail;

/// Whether a script is read in the usual way.
fn is_usual(alloc: Global, text: &str) -> bool {
    let mut scratch = Scratch::new(alloc);
    let script = usual_script::<KvRequest>(alloc, text.as_bytes(), &mut scratch);
    drop(scratch);
    let is_usual = script.is_some();
    drop(script);
    is_usual
}

/// How many epochs a script has.
fn epochs_of(alloc: Global, text: &str) -> Result<usize, Fault> {
    let script = script_from::<KvRequest>(alloc, text.as_bytes())?;
    let epochs = script.epochs.len();
    drop(script);
    Ok(epochs)
}

/// A script of one request.
pub fn with_request(alloc: Global, request: &str) -> Result<String, AllocError> {
    format!(in alloc;
        r#"{{"partitions":2,"app":"kv","epochs":[[{{"group":1,"txns":[{request}]}}]]}}"#
    )
}

/// Scripts with their members in any order.
const ANY_SCRIPTS: [&str; 13] = [
    r#"{"partitions":1,"app":"kv","epochs":[]}"#,
    r#"{"app":"kv","epochs":[],"partitions":1}"#,
    r#"{"epochs":[],"partitions":16,"app":"kv"}"#,
    " {\n  \"partitions\": 2,\n  \"app\": \"kv\",\n  \"epochs\": [ [], [ ] ]\n}\n",
    r#"{"partitions":9,"partitions":2,"app":"kv","epochs":[[]],"epochs":[]}"#,
    r#"{"partitions":2,"app":"k\u0076","epochs":[[{"group":0,"txns":[]}]]}"#,
    r#"{"partitions":2,"app":"kv","epochs":[[{"txns":[],"group":0},{"group":1,"txns":[]}],[]]}"#,
    r#"{"partitions":2,"app":"kv","epochs":[[{"group":1,"txns":[],"group":0}]]}"#,
    r#"{"partitions":1,"app":"kv","woven_from":0,"epochs":[]}"#,
    r#"{"partitions":1,"app":"kv","epochs":[],"woven_from":281474976710655}"#,
    r#"{"woven_from":1,"epochs":[],"partitions":16,"app":"kv"}"#,
    r#"{"woven_from":9,"partitions":1,"app":"kv","woven_from":2,"epochs":[]}"#,
    r#"{"partitions":2,"app":"kv","woven_from":1,"epochs":[[],[]]}"#,
];

#[test]
fn scripts_of_any_order(rt: HostRuntime) {
    for &text in &ANY_SCRIPTS {
        let is_script = epochs_of(rt.alloc(), text).is_ok();
        same(
            &rt,
            (text, is_usual(rt.alloc(), text), is_script),
            (text, true, true),
        );
    }
}

/// A script of this request is read, in the usual way or not.
fn check_read(
    rt: &impl Abort,
    alloc: Global,
    request: &str,
    in_usual_way: bool,
) -> Result<(), AllocError> {
    let text = with_request(alloc, request)?;
    let found = is_usual(alloc, text.as_str());
    let epochs = epochs_of(alloc, text.as_str());
    drop(text);
    same(rt, (request, found, epochs), (request, in_usual_way, Ok(1)));
    Ok(())
}

/// Requests with their members in any order.
const ANY_REQUESTS: [&str; 7] = [
    r#"{"client":7,"number":1,"op":["put",1,5]}"#,
    r#"{"op":["put",1,5],"number":1,"client":7}"#,
    r#"{"attempt":8,"client":7,"number":1,"op":["get",[3,1,2]]}"#,
    r#"{"client":4294967295,"number":0,"op":["add",18446744073709551615,10000000000000000000]}"#,
    r#"{"client":7,"number":1,"op":["get",[]],"reads":[[0,1]],"writes":[]}"#,
    r#"{"writes":[[255,18446744073709551615]],"op":["put",1,5],"reads":[],"client":7,"number":1}"#,
    r#"{"client":7,"client":8,"number":1,"op":["put",1,5],"op":["add",2,6]}"#,
];

#[test]
fn requests_of_any_order(rt: HostRuntime) -> Result<(), Fail> {
    for &request in &ANY_REQUESTS {
        check_read(&rt, rt.alloc(), request, true)?;
    }
    Ok(())
}

/// What is read, and not in the usual way: a set of keys that is given twice, a member of a wrong form that a later one
/// of its name replaces.
const UNUSUAL_REQUESTS: [&str; 3] = [
    r#"{"client":7,"number":1,"op":["put",1,5],"reads":[[0,1]],"reads":[],"writes":[[0,1]]}"#,
    r#"{"client":null,"client":8,"number":1,"op":["put",1,5]}"#,
    r#"{"client":7,"number":1,"op":["move",1,5],"op":["put",1,5]}"#,
];

#[test]
fn unusual_requests(rt: HostRuntime) -> Result<(), Fail> {
    for &request in &UNUSUAL_REQUESTS {
        check_read(&rt, rt.alloc(), request, false)?;
    }
    Ok(())
}

/// The first woven epoch of a script.
fn first_woven(alloc: Global, text: &str) -> Result<Option<u64>, Fault> {
    let script = script_from::<KvRequest>(alloc, text.as_bytes())?;
    let first = script.woven_from;
    drop(script);
    Ok(first)
}

/// Scripts, the first woven epoch of each, and whether they are read in the usual way: not where a member of a wrong form is
/// replaced by a later one of its name.
const FIRST_WOVEN: [(&str, Option<u64>, bool); 8] = [
    (r#"{"partitions":1,"app":"kv","epochs":[]}"#, None, true),
    (
        r#"{"partitions":1,"app":"kv","woven_from":0,"epochs":[]}"#,
        Some(0),
        true,
    ),
    (
        r#"{"partitions":1,"app":"kv","epochs":[],"woven_from":3}"#,
        Some(3),
        true,
    ),
    (
        r#"{"partitions":1,"woven_from":281474976710655,"app":"kv","epochs":[]}"#,
        Some(281474976710655),
        true,
    ),
    (
        r#"{"woven_from":9,"partitions":1,"app":"kv","woven_from":2,"epochs":[]}"#,
        Some(2),
        true,
    ),
    (
        r#"{"woven_from":null,"partitions":1,"app":"kv","woven_from":2,"epochs":[]}"#,
        Some(2),
        false,
    ),
    (
        r#"{"woven_from":281474976710656,"partitions":1,"app":"kv","woven_from":2,"epochs":[]}"#,
        Some(2),
        false,
    ),
    (
        r#"{"woven_from":1.0,"partitions":1,"app":"kv","epochs":[],"woven_from":2}"#,
        Some(2),
        false,
    ),
];

#[test]
fn first_woven_epochs(rt: HostRuntime) {
    for &(text, first, in_usual_way) in &FIRST_WOVEN {
        let found = first_woven(rt.alloc(), text);
        same(
            &rt,
            (text, is_usual(rt.alloc(), text), found),
            (text, in_usual_way, Ok(first)),
        );
    }
}

/// A text is refused in both ways, and with what.
fn check_refused(rt: &impl Abort, alloc: Global, text: &str, want: Fault) {
    same(rt, (text, is_usual(alloc, text)), (text, false));
    let fault = epochs_of(alloc, text).err();
    same(rt, (text, fault), (text, Some(want)));
}

/// What is refused, and with what.
const REFUSED: [(&str, Fault); 15] = [
    ("", Fault::BadJson),
    ("[", Fault::BadJson),
    (
        r#"{"partitions":2,"app":"kv","epochs":[[{"group":1,"txns":[{"client":7,"number":1,"op":["put",1,5]}]}]]} {"partitions":2,"app":"kv","epochs":[[{"group":1,"txns":[{"client":7,"number":1,"op":["put",1,5]}]}]]}"#,
        Fault::BadJson,
    ),
    (
        r#"{"partitions":2,"app":"kv","epochs":[[{"group":1,"txns":[{"client":7,"number":1,"op":["put",1,5]}]}]]}]"#,
        Fault::BadJson,
    ),
    ("[]", Fault::BadScript),
    (
        r#"{"partitions":1,"app":"vk","epochs":[]}"#,
        Fault::BadScript,
    ),
    (
        r#"{"partitions":1.0,"app":"kv","epochs":[]}"#,
        Fault::BadScript,
    ),
    (
        r#"{"partitions":-1,"app":"kv","epochs":[]}"#,
        Fault::BadScript,
    ),
    (
        r#"{"partitions":17,"app":"kv","epochs":[]}"#,
        Fault::BadScript,
    ),
    (
        r#"{"partitions":1,"app":"kv","epochs":[[{"group":1,"txns":[]}]]}"#,
        Fault::BadScript,
    ),
    (
        r#"{"partitions":1,"app":"kv","woven_from":281474976710656,"epochs":[]}"#,
        Fault::BadScript,
    ),
    (
        r#"{"partitions":1,"app":"kv","woven_from":-1,"epochs":[]}"#,
        Fault::BadScript,
    ),
    (
        r#"{"partitions":1,"app":"kv","woven_from":"a","epochs":[]}"#,
        Fault::BadScript,
    ),
    (
        r#"{"partitions":1,"app":"kv","woven_from":1,"woven_from":null,"epochs":[]}"#,
        Fault::BadScript,
    ),
    (
        r#"{"partitions":1,"app":"kv","woven_from":1.0,"epochs":[]}"#,
        Fault::BadScript,
    ),
];

#[test]
fn refused_scripts(rt: HostRuntime) {
    for &(text, want) in &REFUSED {
        check_refused(&rt, rt.alloc(), text, want);
    }
}

/// The first request of a script.
pub fn first_of<Op: Operation>(script: &Script<Kept<Op>>) -> Option<&Kept<Op>> {
    script.epochs.get(0)?.batches.get(0)?.requests.get(0)
}

/// A request is the add below.
fn check_add(rt: &impl Abort, request: &Kept<KvRequest>) {
    let txn = request.txn();
    holds(rt, request.is_declared() && txn.attempt == 3);
    holds(rt, txn.id.client == 7 && txn.id.number == 2);
    holds(rt, txn.args == KvRequest::Add(1, 5));
    holds(rt, txn.sets.reads.len() == 2 && txn.sets.writes.len() == 1);
}

/// What is read of a request with declared sets.
#[test]
fn a_request_as_it_is_written(rt: HostRuntime) -> Result<(), Fail> {
    let text = with_request(
        rt.alloc(),
        r#"{"reads":[[0,9],[0,1]],"op":["add",1,5],"attempt":3,"writes":[[0,1]],"number":2,"client":7}"#,
    )?;
    let script = script_from::<KvRequest>(rt.alloc(), text.as_bytes());
    drop(text);
    let script = script?;
    match first_of(&script) {
        Some(request) => check_add(&rt, request),
        None => holds(&rt, false),
    }
    drop(script);
    Ok(())
}
