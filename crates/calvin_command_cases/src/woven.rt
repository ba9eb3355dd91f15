//! The worked cases of woven batches.
use crate::checks::Runtime;
use crate::lines::runs;
use std::alloc::Global;

/// Runs a script with and without `--scout`, and compares what it prints.
fn prints(rt: &impl Runtime, alloc: Global, script: &str, text: &str) {
    runs(rt, alloc, &["calvin", "serial"], script, 0, text, "");
    let words = ["calvin", "serial", "--scout"];
    runs(rt, alloc, &words, script, 0, text, "");
}

/// Group 0 has two requests in an epoch and group 1 has one: from the configured epoch on the second of group 0 comes last.
/// Written as usual, and not.
#[test]
fn woven_order(rt: HostRuntime) {
    let text =
        "0.0 7:1 value 1\n0.1 7:2 value 2\n0.2 8:1 value 3\n1.0 7:3 value 4\n1.1 8:2 value 5\n1.2 7:4 value 6\nfinished 1\n";
    let usual =
        r#"{"partitions":2,"app":"kv","woven_from":1,"epochs":[[{"group":0,"txns":[{"client":7,"number":1,"op":["add",1,1]},{"client":7,"number":2,"op":["add",1,1]}]},{"group":1,"txns":[{"client":8,"number":1,"op":["add",1,1]}]}],[{"group":0,"txns":[{"client":7,"number":3,"op":["add",1,1]},{"client":7,"number":4,"op":["add",1,1]}]},{"group":1,"txns":[{"client":8,"number":2,"op":["add",1,1]}]}]]}"#;
    prints(&rt, rt.alloc(), usual, text);
    let unusual =
        r#"{"partitions":2,"app":"kv","woven_from":null,"epochs":[[{"group":1,"txns":[{"client":8,"number":1,"op":["add",1,1]}]},{"group":0,"txns":[{"client":7,"number":1,"op":["add",1,1]},{"client":7,"number":2,"op":["add",1,1]}]}],[{"group":1,"txns":[{"client":8,"number":2,"op":["add",1,1]}]},{"group":0,"txns":[{"client":7,"number":3,"op":["add",1,1]},{"client":7,"number":4,"op":["add",1,1]}]}]],"woven_from":1}"#;
    prints(&rt, rt.alloc(), unusual, text);
}

/// From epoch 0 on all batches are woven; from an epoch behind the last one, and where no epoch is named, none is.
#[test]
fn woven_from_the_start_or_never(rt: HostRuntime) {
    let script =
        r#"{"partitions":2,"app":"kv","woven_from":0,"epochs":[[{"group":0,"txns":[{"client":7,"number":1,"op":["add",1,1]},{"client":7,"number":2,"op":["add",1,1]}]},{"group":1,"txns":[{"client":8,"number":1,"op":["add",1,1]}]}]]}"#;
    let text = "0.0 7:1 value 1\n0.1 8:1 value 2\n0.2 7:2 value 3\nfinished 0\n";
    prints(&rt, rt.alloc(), script, text);
    let late =
        r#"{"partitions":2,"app":"kv","woven_from":1,"epochs":[[{"group":0,"txns":[{"client":7,"number":1,"op":["add",1,1]},{"client":7,"number":2,"op":["add",1,1]}]},{"group":1,"txns":[{"client":8,"number":1,"op":["add",1,1]}]}]]}"#;
    let text = "0.0 7:1 value 1\n0.1 7:2 value 2\n0.2 8:1 value 3\nfinished 0\n";
    prints(&rt, rt.alloc(), late, text);
    let never =
        r#"{"partitions":2,"app":"kv","epochs":[[{"group":0,"txns":[{"client":7,"number":1,"op":["add",1,1]},{"client":7,"number":2,"op":["add",1,1]}]},{"group":1,"txns":[{"client":8,"number":1,"op":["add",1,1]}]}]]}"#;
    prints(&rt, rt.alloc(), never, text);
}

/// Of three groups one has nothing and the others have two and three requests: once group 0 has no more, group 2 goes on.
#[test]
fn woven_three_groups(rt: HostRuntime) {
    let script =
        r#"{"partitions":3,"app":"kv","woven_from":1,"epochs":[[{"group":0,"txns":[{"client":1,"number":1,"op":["add",1,1]},{"client":1,"number":2,"op":["add",1,1]}]},{"group":2,"txns":[{"client":3,"number":1,"op":["add",1,1]},{"client":3,"number":2,"op":["add",1,1]},{"client":3,"number":3,"op":["add",1,1]}]}],[{"group":0,"txns":[{"client":1,"number":3,"op":["add",1,1]},{"client":1,"number":4,"op":["add",1,1]}]},{"group":1,"txns":[]},{"group":2,"txns":[{"client":3,"number":4,"op":["add",1,1]},{"client":3,"number":5,"op":["add",1,1]},{"client":3,"number":6,"op":["add",1,1]}]}]]}"#;
    let text =
        "0.0 1:1 value 1\n0.1 1:2 value 2\n0.2 3:1 value 3\n0.3 3:2 value 4\n0.4 3:3 value 5\n1.0 1:3 value 6\n1.1 3:4 value 7\n1.2 1:4 value 8\n1.3 3:5 value 9\n1.4 3:6 value 10\nfinished 1\n";
    prints(&rt, rt.alloc(), script, text);
}

/// A first woven epoch that is none.
#[test]
fn refused_first_woven_epochs(rt: HostRuntime) {
    let (alloc, words) = (rt.alloc(), ["calvin", "serial"]);
    let refused = "calvin: 91 BadScript\n";
    let wide = r#"{"partitions":1,"app":"kv","woven_from":281474976710656,"epochs":[]}"#;
    runs(&rt, alloc, &words, wide, 2, "", refused);
    let null = r#"{"partitions":1,"app":"kv","woven_from":null,"epochs":[]}"#;
    runs(&rt, alloc, &words, null, 2, "", refused);
    let last = r#"{"partitions":1,"app":"kv","woven_from":281474976710655,"epochs":[]}"#;
    runs(&rt, alloc, &words, last, 0, "finished none\n", "");
}
