//! Cases of the engine `serial` over memory: those of the operations that follow rows, and of scouted sets. The others go
//! through the command line.
use crate::checks::same;
use calvin_edge::{MemorySink, MemorySource};
use calvin_serial::{UndeclaredSets, serial};
use std::alloc::Global;
use std::process::Abort;

/// Runs a script over memory to its end with these undeclared sets, and compares the text.
fn prints_with(rt: &impl Abort, alloc: Global, sets: UndeclaredSets, script: &str, text: &str) {
    let mut input = MemorySource::new(script.as_bytes());
    let mut output = MemorySink::new(alloc);
    same(rt, serial(alloc, sets, &mut input, &mut output), Ok(()));
    same(
        rt,
        (script, output.taken.as_slice() == text.as_bytes()),
        (script, true),
    );
    drop(output);
}

/// Runs a script with the first sets of requests that declare none.
fn prints(rt: &impl Abort, alloc: Global, script: &str, text: &str) {
    prints_with(rt, alloc, UndeclaredSets::First, script, text);
}

/// Runs a script with scouted sets of requests that declare none.
fn scouts(rt: &impl Abort, alloc: Global, script: &str, text: &str) {
    prints_with(rt, alloc, UndeclaredSets::Scouted, script, text);
}

#[test]
fn moves_and_follows(rt: HostRuntime) {
    let script =
        r#"{"partitions":1,"app":"kv","epochs":[[{"group":0,"txns":[{"client":7,"number":1,"op":["put",3,3]},{"client":7,"number":2,"op":["follow",3]},{"client":7,"number":3,"op":["follow",9]},{"client":7,"number":4,"op":["put",3,4]},{"client":7,"number":5,"op":["follow",3]},{"client":7,"number":6,"op":["move",3,5,9]},{"client":7,"number":7,"op":["move",3,5,4]},{"client":7,"number":8,"op":["get",[3,5]]}]}]]}"#;
    let text =
        "0.0 7:1 done\n0.1 7:2 value 3\n0.2 7:3 none\n0.3 7:4 done\n0.4 7:5 changed\n0.5 7:6 short\n0.6 7:7 done\n0.7 7:8 value 0 value 4\nfinished 0\n";
    prints(&rt, rt.alloc(), script, text);
}

#[test]
fn empty_script_scouted(rt: HostRuntime) {
    scouts(
        &rt,
        rt.alloc(),
        r#"{"partitions":1,"app":"kv","epochs":[]}"#,
        "finished none\n",
    );
    scouts(
        &rt,
        rt.alloc(),
        r#"{"partitions":1,"app":"stock","epochs":[[],[{"group":0,"txns":[]}]]}"#,
        "finished 1\n",
    );
}

/// Declared sets stay as they are declared, though scouted ones would be right.
#[test]
fn declared_sets_not_scouted(rt: HostRuntime) {
    let script =
        r#"{"partitions":2,"app":"kv","epochs":[[{"group":1,"txns":[{"client":7,"number":1,"op":["put",1,5]}]}],[{"group":1,"txns":[{"client":7,"number":2,"op":["follow",1],"reads":[[0,1]],"writes":[]}]},{"group":0,"txns":[{"client":8,"number":1,"op":["follow",1]}]}]]}"#;
    let text = "0.0 7:1 done\n1.0 8:1 none\n1.1 7:2 changed\nfinished 1\n";
    scouts(&rt, rt.alloc(), script, text);
}

/// The rows of the requests before it in its own epoch aren't those that a request is scouted over.
#[test]
fn scouted_before_the_epoch(rt: HostRuntime) {
    let script =
        r#"{"partitions":1,"app":"kv","epochs":[[{"group":0,"txns":[{"client":7,"number":1,"op":["put",1,5]},{"client":7,"number":2,"op":["follow",1]},{"client":7,"number":3,"op":["follow",2]}]}],[{"group":0,"txns":[{"client":7,"number":4,"op":["follow",1]},{"client":7,"number":5,"op":["put",1,2]},{"client":7,"number":6,"op":["follow",1]}]}],[{"group":0,"txns":[{"client":7,"number":7,"op":["follow",1]}]}]]}"#;
    let text =
        "0.0 7:1 done\n0.1 7:2 changed\n0.2 7:3 none\n1.0 7:4 none\n1.1 7:5 done\n1.2 7:6 changed\n2.0 7:7 none\nfinished 2\n";
    scouts(&rt, rt.alloc(), script, text);
}
