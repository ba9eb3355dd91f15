//! Which forms of a script of events are read in the usual way.
use crate::reading::read;
use calvin_types::Fault;
use std::alloc::{AllocError, Global};
use std::process::Abort;
use std::test::Fail;

/// How a text is read: in the usual way or not, and as the general way reads it; or refused.
fn check(rt: &impl Abort, alloc: Global, text: &str, wanted: Result<bool, Fault>) {
    let found = read(alloc, text);
    let wanted = match wanted {
        Ok(is_usual) => Ok((is_usual, true)),
        Err(fault) => Err(fault),
    };
    assert_eq!(rt; (text, found), (text, wanted));
}

/// A script of one event.
fn with_event(alloc: Global, app: &str, event: &str) -> Result<String, AllocError> {
    format!(in alloc; r#"{{"partitions":2,"replicas":3,"app":"{app}","events":[{event}]}}"#)
}

/// The same for a script of one event.
fn check_event(
    rt: &impl Abort,
    alloc: Global,
    app: &str,
    event: &str,
    wanted: Result<bool, Fault>,
) -> Result<(), AllocError> {
    let text = with_event(alloc, app, event)?;
    check(rt, alloc, text.as_str(), wanted);
    drop(text);
    Ok(())
}

/// Scripts with their members in any order, and with those that may be left out.
const ANY_SCRIPTS: [&str; 10] = [
    r#"{"partitions":1,"replicas":1,"app":"kv","events":[]}"#,
    r#"{"events":[["close",0,0]],"app":"stock","replicas":7,"partitions":16}"#,
    " {\n  \"partitions\": 2,\n  \"replicas\": 3,\n  \"app\": \"once\",\n  \"events\": [ [ \"close\", 0, 0 ], [ \"deliver\", 0 ] ]\n}\n",
    r#"{"partitions":9,"partitions":2,"replicas":1,"app":"kv","events":[["close",0,0]],"events":[]}"#,
    r#"{"partitions":2,"replicas":1,"app":"k\u0076","\u0065vents":[["cl\u006fse",0,0]]}"#,
    r#"{"partitions":2,"replicas":1,"app":"kv","delay":0,"events":[]}"#,
    r#"{"delay":16,"partitions":2,"replicas":1,"app":"kv","events":[],"delay":3}"#,
    r#"{"partitions":1,"replicas":1,"app":"kv","woven_from":281474976710655,"events":[]}"#,
    r#"{"expect":[],"partitions":1,"replicas":1,"app":"kv","events":[]}"#,
    r#"{"partitions":1,"replicas":1,"app":"kv","events":[],"expect":["0.0 7:1 done","","fin\u0069shed 0\n"]}"#,
];

#[test]
fn scripts_of_any_order(rt: HostRuntime) {
    for &text in &ANY_SCRIPTS {
        check(&rt, rt.alloc(), text, Ok(true));
    }
}

/// Each event, with its numbers at their limits.
const EVENTS: [&str; 17] = [
    r#"["submit",0,1,{"client":7,"number":1,"op":["put",1,5]}]"#,
    r#"["submitcold",255,255,{"op":["get",[3,1,2]],"reads":[[0,1]],"number":4294967295,"writes":[],"client":0}]"#,
    r#"["submit",0,0,{"client":7,"number":1,"op":["get",[]],"attempt":0}]"#,
    r#"["cool",0,1,[255,18446744073709551615]]"#,
    r#"["close",0,1]"#,
    r#"["merge",2,0]"#,
    r#"["lock",255,255]"#,
    r#"["restart",0,0]"#,
    r#"["propose",0,1,281474976710655]"#,
    r#"["snapshot",0,1,0]"#,
    r#"["mark",0,1,12]"#,
    r#"["begin",0,1,281474976710655,4294967295]"#,
    r#"["finish",0,1,0,0]"#,
    r#"["askreads",0,1,3,2,255]"#,
    r#"["askbatch",0,1,3,255,2,1]"#,
    r#"["deliver",0]"#,
    r#"["deliver",18446744073709551615]"#,
];

#[test]
fn each_event(rt: HostRuntime) -> Result<(), Fail> {
    for &event in &EVENTS {
        check_event(&rt, rt.alloc(), "kv", event, Ok(true))?;
    }
    Ok(())
}

/// Requests of the other applications.
const REQUESTS: [&str; 4] = [
    r#"["submit",0,1,{"client":7,"number":1,"op":["order",1,2,[[3,4],[5,6]]]}]"#,
    r#"["submit",0,1,{"client":7,"number":1,"op":["balance",1],"reads":[[1,1]],"writes":[[1,1]]}]"#,
    r#"["submitcold",0,1,{"client":7,"number":1,"op":["payin",1,100]}]"#,
    r#"["submit",0,1,{"op":["settle",1],"client":7,"number":1,"attempt":9}]"#,
];

#[test]
fn requests_of_other_applications(rt: HostRuntime) -> Result<(), Fail> {
    for &app in &["stock", "once"] {
        for &event in &REQUESTS {
            check_event(&rt, rt.alloc(), app, event, Ok(true))?;
        }
    }
    Ok(())
}

/// What is read, and not in the usual way: a member of a wrong form that a later one of its name replaces, and a set of keys that
/// is given twice.
const UNUSUAL_SCRIPTS: [&str; 4] = [
    r#"{"partitions":null,"partitions":2,"replicas":3,"app":"kv","events":[["close",0,1]]}"#,
    r#"{"partitions":2,"replicas":3,"app":"kv","events":[["close",0]],"events":[["close",0,1]]}"#,
    r#"{"partitions":2,"replicas":3,"app":"kv","expect":[0],"events":[],"expect":["finished none"]}"#,
    r#"{"partitions":2,"replicas":3,"app":"kv","events":[["submit",0,0,{"client":7,"number":1,"op":["put",1,5],"reads":[[0,1]],"reads":[],"writes":[[0,1]]}]]}"#,
];

#[test]
fn unusual_scripts(rt: HostRuntime) {
    for &text in &UNUSUAL_SCRIPTS {
        check(&rt, rt.alloc(), text, Ok(false));
    }
}

/// What is no event, each but for one thing.
const NO_EVENTS: [&str; 20] = [
    r#"["submit",0,1]"#,
    r#"["submit",0,1,{"client":7,"number":1,"op":["payin",1,100]}]"#,
    r#"["submit",0,1,{"client":7,"number":1,"op":["put",1,5]},0]"#,
    r#"["cool",0,1,[256,0]]"#,
    r#"["cool",0,1,[0,0,0]]"#,
    r#"["close",0]"#,
    r#"["close",0,1,0]"#,
    r#"["merge",0,256]"#,
    r#"["lock",1.0,0]"#,
    r#"["propose",0,1,281474976710656]"#,
    r#"["mark",0,1,1,1]"#,
    r#"["begin",0,1,0,4294967296]"#,
    r#"["finish",0,1,0]"#,
    r#"["askreads",0,1,3,2]"#,
    r#"["askbatch",0,1,3,255,2,1,0]"#,
    r#"["deliver",18446744073709551616]"#,
    r#"["deliver",0,0]"#,
    r#"["deliver"]"#,
    r#"["crash",0,0]"#,
    r#"{"close":[0,1]}"#,
];

#[test]
fn no_events(rt: HostRuntime) -> Result<(), Fail> {
    for &event in &NO_EVENTS {
        check_event(&rt, rt.alloc(), "kv", event, Err(Fault::BadScript))?;
    }
    Ok(())
}

/// What is no script of events, or no JSON.
const NO_SCRIPTS: [(&str, Fault); 9] = [
    (
        r#"{"partitions":0,"replicas":1,"app":"kv","events":[]}"#,
        Fault::BadScript,
    ),
    (
        r#"{"partitions":1,"replicas":8,"app":"kv","events":[]}"#,
        Fault::BadScript,
    ),
    (
        r#"{"partitions":1,"replicas":1,"app":"kv","delay":17,"events":[]}"#,
        Fault::BadScript,
    ),
    (
        r#"{"partitions":1,"replicas":1,"app":"sql","events":[]}"#,
        Fault::BadScript,
    ),
    (
        r#"{"partitions":1,"replicas":1,"events":[]}"#,
        Fault::BadScript,
    ),
    (
        r#"{"partitions":1,"replicas":1,"app":"kv"}"#,
        Fault::BadScript,
    ),
    (
        r#"{"partitions":1,"replicas":1,"app":"kv","events":[],"seed":1}"#,
        Fault::BadScript,
    ),
    (
        r#"{"partitions":1,"replicas":1,"app":"kv","events":[]} 0"#,
        Fault::BadJson,
    ),
    (
        r#"{"partitions":1,"replicas":1,"app":"kv","events":[["close",0,0],]}"#,
        Fault::BadJson,
    ),
];

#[test]
fn no_scripts(rt: HostRuntime) {
    for &(text, fault) in &NO_SCRIPTS {
        check(&rt, rt.alloc(), text, Err(fault));
    }
}
