//! Scripts that say from which epoch on batches are woven.
use crate::accepted::{BAD, check_scripts};
use crate::checks::same;
use calvin_app::KvRequest;
use calvin_script::script_from;
use calvin_types::Fault;
use std::alloc::Global;
use std::test::Fail;

/// Scripts, and what each is refused with.
const SCRIPTS: [(&str, Option<Fault>); 20] = [
    (
        r#"{"partitions":1,"app":"kv","woven_from":0,"epochs":[]}"#,
        None,
    ),
    (
        r#"{"woven_from":281474976710655,"partitions":1,"app":"kv","epochs":[]}"#,
        None,
    ),
    (
        r#"{"partitions":1,"app":"kv","epochs":[],"woven_from":7}"#,
        None,
    ),
    (
        r#"{"partitions":1,"app":"kv","woven_from":281474976710656,"epochs":[]}"#,
        BAD,
    ),
    (
        r#"{"partitions":1,"app":"kv","woven_from":18446744073709551616,"epochs":[]}"#,
        BAD,
    ),
    (
        r#"{"partitions":1,"app":"kv","woven_from":-1,"epochs":[]}"#,
        BAD,
    ),
    (
        r#"{"partitions":1,"app":"kv","woven_from":-0,"epochs":[]}"#,
        BAD,
    ),
    (
        r#"{"partitions":1,"app":"kv","woven_from":1.0,"epochs":[]}"#,
        BAD,
    ),
    (
        r#"{"partitions":1,"app":"kv","woven_from":1e0,"epochs":[]}"#,
        BAD,
    ),
    (
        r#"{"partitions":1,"app":"kv","woven_from":"a","epochs":[]}"#,
        BAD,
    ),
    (
        r#"{"partitions":1,"app":"kv","woven_from":"1","epochs":[]}"#,
        BAD,
    ),
    (
        r#"{"partitions":1,"app":"kv","woven_from":null,"epochs":[]}"#,
        BAD,
    ),
    (
        r#"{"partitions":1,"app":"kv","woven_from":true,"epochs":[]}"#,
        BAD,
    ),
    (
        r#"{"partitions":1,"app":"kv","woven_from":[0],"epochs":[]}"#,
        BAD,
    ),
    (
        r#"{"partitions":1,"app":"kv","woven_from":{},"epochs":[]}"#,
        BAD,
    ),
    (
        r#"{"partitions":1,"app":"kv","Woven_from":0,"epochs":[]}"#,
        BAD,
    ),
    (
        r#"{"partitions":1,"app":"kv","woven_froms":0,"epochs":[]}"#,
        BAD,
    ),
    (
        r#"{"partitions":1,"app":"kv","woven_from":null,"epochs":[],"woven_from":3}"#,
        None,
    ),
    (
        r#"{"partitions":1,"app":"kv","woven_from":3,"epochs":[],"woven_from":null}"#,
        BAD,
    ),
    (r#"{"partitions":1,"app":"kv","epochs":[],"delay":0}"#, BAD),
];

#[test]
fn woven_from(rt: HostRuntime) {
    check_scripts(&rt, rt.alloc(), &SCRIPTS);
}

/// The first woven epoch of a script.
fn first_woven(alloc: Global, text: &str) -> Result<Option<u64>, Fault> {
    let script = script_from::<KvRequest>(alloc, text.as_bytes())?;
    let first = script.woven_from;
    drop(script);
    Ok(first)
}

/// Scripts, and the first woven epoch of each.
const FIRST_WOVEN: [(&str, Option<u64>); 6] = [
    (r#"{"partitions":1,"app":"kv","epochs":[]}"#, None),
    (
        r#"{"partitions":1,"app":"kv","woven_from":0,"epochs":[]}"#,
        Some(0),
    ),
    (
        r#"{"partitions":1,"app":"kv","woven_from":1,"epochs":[]}"#,
        Some(1),
    ),
    (
        r#"{"partitions":1,"app":"kv","epochs":[],"woven_from":281474976710655}"#,
        Some(281474976710655),
    ),
    (
        r#"{"partitions":1,"app":"kv","woven_from":9,"woven_from":2,"epochs":[]}"#,
        Some(2),
    ),
    (
        r#"{"partitions":1,"app":"kv","woven_from":"x","epochs":[],"woven_from":2}"#,
        Some(2),
    ),
];

#[test]
fn first_woven_epoch(rt: HostRuntime) -> Result<(), Fail> {
    for &(text, first) in &FIRST_WOVEN {
        same(&rt, (text, first_woven(rt.alloc(), text)?), (text, first));
    }
    Ok(())
}
