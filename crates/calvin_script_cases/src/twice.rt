//! Names that an object has twice: the last one counts, whatever the first one is.
use crate::accepted::{BAD, check_scripts, with_batches, with_request};
use crate::checks::same;
use crate::spelled::{id, key};
use calvin_app::KvRequest;
use calvin_script::{Kept, Script, script_from};
use calvin_types::{Fault, KeySet, Sets, Txn};
use std::alloc::Global;
use std::process::Abort;
use std::test::Fail;

/// Scripts that have a name twice, and what each is refused with.
const NAMES_TWICE: [(&str, Option<Fault>); 5] = [
    (
        r#"{"partitions":99,"app":"kv","epochs":[],"partitions":1}"#,
        None,
    ),
    (
        r#"{"partitions":1,"app":"kv","epochs":[],"partitions":99}"#,
        BAD,
    ),
    (r#"{"partitions":1,"app":7,"app":"kv","epochs":[]}"#, None),
    (r#"{"partitions":1,"app":"kv","app":7,"epochs":[]}"#, BAD),
    (
        r#"{"partitions":1,"app":"kv","epochs":[],"x":1,"x":2}"#,
        BAD,
    ),
];

#[test]
fn a_name_given_twice(rt: HostRuntime) {
    check_scripts(&rt, rt.alloc(), &NAMES_TWICE);
}

/// What a text is read as: a request, or a refusal.
type Read = Result<Option<Txn<KvRequest>>, Fault>;

fn first_request(script: &Script<Kept<KvRequest>>) -> Option<Txn<KvRequest>> {
    let requests = &script.epochs.get(0)?.batches.get(0)?.requests;
    Some(requests.get(0)?.txn())
}

/// The request with these members.
fn request_of(alloc: Global, members: &str) -> Read {
    let request = format!(in alloc; "{{{members}}}")?;
    let text = with_request(alloc, request.as_str());
    drop(request);
    let text = text?;
    let script = script_from::<KvRequest>(alloc, text.as_bytes());
    drop(text);
    let script = script?;
    let first = first_request(&script);
    drop(script);
    Ok(first)
}

/// The request of a text of members.
fn request_of_text(alloc: Global, members: String) -> Read {
    let request = request_of(alloc, members.as_str());
    drop(members);
    request
}

/// The requests with these members: alone, with both sets, and with an attempt. Each of the three is read in a way of
/// its own.
fn in_each_way(alloc: Global, members: &str) -> Result<[Read; 3], Fault> {
    let alone = request_of(alloc, members);
    let declared = format!(in alloc; r#"{members},"reads":[[0,2]],"writes":[[0,5]]"#)?;
    let declared = request_of_text(alloc, declared);
    let again = format!(in alloc; r#"{members},"attempt":3"#)?;
    Ok([alone, declared, request_of_text(alloc, again)])
}

/// The put of 9 under the key 5, which is the first request of client 7.
fn put(attempt: u8, reads: KeySet) -> Read {
    Ok(Some(Txn {
        id: id(7, 1),
        attempt,
        args: KvRequest::Put(5, 9),
        sets: Sets {
            reads,
            writes: KeySet::of(key(0, 5)),
        },
    }))
}

/// That put in each of the three ways.
fn puts() -> [Read; 3] {
    [
        put(1, KeySet::new()),
        put(1, KeySet::of(key(0, 2))),
        put(3, KeySet::new()),
    ]
}

/// The refusal of each of the three.
fn refusals() -> [Read; 3] {
    [
        Err(Fault::BadScript),
        Err(Fault::BadScript),
        Err(Fault::BadScript),
    ]
}

/// A request of each of these members is the put in each of the three ways, or refused in each.
fn check_each_way(rt: &impl Abort, alloc: Global, rows: &[(&str, bool)]) -> Result<(), Fault> {
    for &(members, is_taken) in rows {
        let want = if is_taken { puts() } else { refusals() };
        same(rt, (members, in_each_way(alloc, members)?), (members, want));
    }
    Ok(())
}

/// Members of a request that have a part of its name twice, and whether they are taken.
const IDS_TWICE: [(&str, bool); 5] = [
    (
        r#""client":"x","client":7,"number":1,"op":["put",5,9]"#,
        true,
    ),
    (
        r#""client":7,"client":"x","number":1,"op":["put",5,9]"#,
        false,
    ),
    (r#""client":8,"number":1,"op":["put",5,9],"client":7"#, true),
    (
        r#""client":7,"number":-1,"number":1,"op":["put",5,9]"#,
        true,
    ),
    (
        r#""client":7,"number":1,"number":-1,"op":["put",5,9]"#,
        false,
    ),
];

#[test]
fn the_name_of_a_request_given_twice(rt: HostRuntime) -> Result<(), Fail> {
    check_each_way(&rt, rt.alloc(), &IDS_TWICE)?;
    Ok(())
}

/// Members of a request that have its operation twice, and whether they are taken.
const OPERATIONS_TWICE: [(&str, bool); 3] = [
    (
        r#""client":7,"number":1,"op":["put",5],"op":["put",5,9]"#,
        true,
    ),
    (
        r#""client":7,"number":1,"op":["put",5,9],"op":["put",5]"#,
        false,
    ),
    (
        r#""client":7,"number":1,"op":["get",[6]],"op":["put",5,9]"#,
        true,
    ),
];

#[test]
fn an_operation_given_twice(rt: HostRuntime) -> Result<(), Fail> {
    check_each_way(&rt, rt.alloc(), &OPERATIONS_TWICE)?;
    Ok(())
}

/// The request with these members beside its name and its operation.
fn with_more(alloc: Global, members: &str) -> Read {
    let all = format!(in alloc; r#""client":7,"number":1,"op":["put",5,9],{members}"#)?;
    request_of_text(alloc, all)
}

/// The put at an attempt, or the refusal where there is none.
fn put_or_refusal(attempt: Option<u8>, reads: KeySet) -> Read {
    match attempt {
        Some(attempt) => put(attempt, reads),
        None => Err(Fault::BadScript),
    }
}

/// Each of these members beside the request's own make the put with these reads, at the attempt, or are refused.
fn check_more(rt: &impl Abort, alloc: Global, rows: &[(&str, Option<u8>)], reads: KeySet) {
    for &(members, attempt) in rows {
        let want = put_or_refusal(attempt, reads);
        same(rt, (members, with_more(alloc, members)), (members, want));
    }
}

/// Members that have an attempt twice, and the attempt that is taken, if one is.
const ATTEMPTS_TWICE: [(&str, Option<u8>); 3] = [
    (r#""attempt":9,"attempt":3"#, Some(3)),
    (r#""attempt":3,"attempt":9"#, None),
    (r#""attempt":2,"attempt":3"#, Some(3)),
];

#[test]
fn an_attempt_given_twice(rt: HostRuntime) {
    check_more(&rt, rt.alloc(), &ATTEMPTS_TWICE, KeySet::new());
}

/// Members that have a set twice, and the attempt of the request, if it is taken.
const SETS_TWICE: [(&str, Option<u8>); 8] = [
    (r#""reads":0,"reads":[[0,2]],"writes":[[0,5]]"#, Some(1)),
    (r#""reads":[[0,2]],"reads":0,"writes":[[0,5]]"#, None),
    (
        r#""reads":[[0,3]],"reads":[[0,2]],"writes":[[0,5]]"#,
        Some(1),
    ),
    (r#""reads":[[0,2]],"writes":0,"writes":[[0,5]]"#, Some(1)),
    (r#""reads":[[0,2]],"writes":[[0,5]],"writes":0"#, None),
    (
        r#""attempt":3,"reads":0,"reads":[[0,2]],"writes":[[0,5]]"#,
        Some(3),
    ),
    (
        r#""attempt":3,"reads":[[0,2]],"reads":0,"writes":[[0,5]]"#,
        None,
    ),
    (
        r#""attempt":3,"reads":[[0,3]],"reads":[[0,2]],"writes":[[0,5]]"#,
        Some(3),
    ),
];

#[test]
fn a_set_given_twice(rt: HostRuntime) {
    check_more(&rt, rt.alloc(), &SETS_TWICE, KeySet::of(key(0, 2)));
}

fn first_group(script: &Script<Kept<KvRequest>>) -> Option<u8> {
    Some(script.epochs.get(0)?.batches.get(0)?.group)
}

/// The group of this batch.
fn group_of(alloc: Global, batch: &str) -> Result<Option<u8>, Fault> {
    let text = with_batches(alloc, batch)?;
    let script = script_from::<KvRequest>(alloc, text.as_bytes());
    drop(text);
    let script = script?;
    let group = first_group(&script);
    drop(script);
    Ok(group)
}

/// Batches that have a name twice, and the group of each.
const GROUPS_TWICE: [(&str, Result<Option<u8>, Fault>); 5] = [
    (r#"{"group":9,"group":1,"txns":[]}"#, Ok(Some(1))),
    (r#"{"group":1,"group":9,"txns":[]}"#, Err(Fault::BadScript)),
    (r#"{"group":0,"group":1,"txns":[]}"#, Ok(Some(1))),
    (r#"{"group":1,"txns":0,"txns":[]}"#, Ok(Some(1))),
    (r#"{"group":1,"txns":[],"txns":0}"#, Err(Fault::BadScript)),
];

#[test]
fn a_group_given_twice(rt: HostRuntime) {
    for &(batch, want) in &GROUPS_TWICE {
        same(&rt, (batch, group_of(rt.alloc(), batch)), (batch, want));
    }
}
