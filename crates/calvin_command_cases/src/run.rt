//! The worked cases of `calvin run`, and the lines that it refuses.
use crate::checks::{Runtime, holds, same};
use crate::lines::runs;
use crate::sim::{MOVE, MOVE_TEXT, moves};
use calvin_command::command;
use calvin_edge::{FailingSink, FailingSource, MemorySink, MemorySource};
use std::alloc::Global;
use std::test::Fail;

fn prints(rt: &impl Runtime, alloc: Global, script: &str, text: &str) {
    for workers in ["1", "4"] {
        let words = ["calvin", "run", "--workers", workers];
        runs(rt, alloc, &words, script, 0, text, "");
        let words = ["calvin", "run", "--wide", "--workers", workers];
        runs(rt, alloc, &words, script, 0, text, "");
    }
}

#[test]
fn run_with_workers(rt: HostRuntime) {
    prints(&rt, rt.alloc(), MOVE, MOVE_TEXT);
    runs(&rt, rt.alloc(), &["calvin", "run"], MOVE, 0, MOVE_TEXT, "");
    runs(&rt, rt.alloc(), &["calvin", "sim"], MOVE, 0, MOVE_TEXT, "");
}

#[test]
fn move_short(rt: HostRuntime) {
    let script =
        r#"{"partitions":2,"app":"kv","epochs":[[{"group":0,"txns":[{"client":7,"number":1,"op":["put",1,10]},{"client":7,"number":2,"op":["move",1,2,11]}]}]]}"#;
    let text = "0.0 7:1 done\n0.1 7:2 short\nfinished 0\n";
    prints(&rt, rt.alloc(), script, text);
}

#[test]
fn passive_partition(rt: HostRuntime) {
    let script =
        r#"{"partitions":2,"app":"kv","epochs":[[{"group":0,"txns":[{"client":7,"number":1,"op":["get",[2,3]]}]}]]}"#;
    prints(&rt, rt.alloc(), script, "0.0 7:1 none none\nfinished 0\n");
}

#[test]
fn empty_script(rt: HostRuntime) {
    let none = r#"{"partitions":1,"app":"kv","epochs":[]}"#;
    prints(&rt, rt.alloc(), none, "finished none\n");
    let one = r#"{"partitions":1,"app":"kv","epochs":[[]]}"#;
    prints(&rt, rt.alloc(), one, "finished 0\n");
}

/// Group 0 has two requests in an epoch and group 1 has one: from the configured epoch on the second of group 0 comes last.
#[test]
fn woven_order(rt: HostRuntime) {
    let script =
        r#"{"partitions":2,"app":"kv","woven_from":1,"epochs":[[{"group":0,"txns":[{"client":7,"number":1,"op":["add",1,1]},{"client":7,"number":2,"op":["add",1,1]}]},{"group":1,"txns":[{"client":8,"number":1,"op":["add",1,1]}]}],[{"group":0,"txns":[{"client":7,"number":3,"op":["add",1,1]},{"client":7,"number":4,"op":["add",1,1]}]},{"group":1,"txns":[{"client":8,"number":2,"op":["add",1,1]}]}]]}"#;
    let text =
        "0.0 7:1 value 1\n0.1 7:2 value 2\n0.2 8:1 value 3\n1.0 7:3 value 4\n1.1 8:2 value 5\n1.2 7:4 value 6\nfinished 1\n";
    prints(&rt, rt.alloc(), script, text);
}

#[test]
fn repeated_payment(rt: HostRuntime) {
    let script =
        r#"{"partitions":2,"app":"once","epochs":[[{"group":0,"txns":[{"client":7,"number":1,"op":["open",9]},{"client":7,"number":2,"op":["payin",9,100]},{"client":7,"number":2,"op":["payin",9,100]},{"client":7,"number":3,"op":["balance",9]}]}]]}"#;
    let text = "0.0 7:1 done\n0.1 7:2 done\n0.2 7:2 done\n0.3 7:3 cents 100\nfinished 0\n";
    prints(&rt, rt.alloc(), script, text);
}

#[test]
fn lines_at_the_bounds(rt: HostRuntime) {
    let lines: [&[&str]; 6] = [
        &["calvin", "run", "--wide"],
        &["calvin", "run", "--replicas", "1", "--wide", "--workers=16"],
        &["calvin", "run", "--replicas", "1", "--workers", "16"],
        &["calvin", "run", "--workers=1", "--replicas=7"],
        &["calvin", "run", "--replicas", "2"],
        &["calvin", "run", "--workers=+3"],
    ];
    for words in lines {
        runs(&rt, rt.alloc(), words, MOVE, 0, MOVE_TEXT, "");
    }
}

#[test]
fn bad_lines(rt: HostRuntime) {
    let lines: [&[&str]; 17] = [
        &["calvin", "run", "--wide", "--wide"],
        &["calvin", "run", "--wide=true"],
        &["calvin", "sim", "--wide"],
        &["calvin", "run", "--workers", "0"],
        &["calvin", "run", "--workers", "17"],
        &["calvin", "run", "--replicas", "0"],
        &["calvin", "run", "--replicas", "8"],
        &["calvin", "run", "--workers", "1", "--workers", "1"],
        &["calvin", "run", "--replicas=3", "--replicas=3"],
        &["calvin", "run", "--workers"],
        &["calvin", "run", "--workers="],
        &["calvin", "run", "--workers", "four"],
        &["calvin", "run", "--start", "1"],
        &["calvin", "run", "--restarts"],
        &["calvin", "run", "--scout"],
        &["calvin", "run", "script.json"],
        &["calvin", "sim", "--workers", "4"],
    ];
    for words in lines {
        runs(&rt, rt.alloc(), words, MOVE, 2, "", "calvin: bad line\n");
    }
}

#[test]
fn refused_scripts(rt: HostRuntime) -> Result<(), Fail> {
    let (alloc, words) = (rt.alloc(), ["calvin", "run"]);
    let json = r#"{"partitions":1"#;
    runs(&rt, alloc, &words, json, 2, "", "calvin: 90 BadJson\n");
    let wide = r#"{"partitions":17,"app":"kv","epochs":[]}"#;
    runs(&rt, alloc, &words, wide, 2, "", "calvin: 91 BadScript\n");
    let many = moves(alloc, 4_096)?;
    runs(&rt, alloc, &words, &many, 2, "", "calvin: 91 BadScript\n");
    Ok(())
}

#[test]
fn a_failing_reader(rt: HostRuntime) {
    let alloc = rt.alloc();
    let mut input = FailingSource {
        calls: 1,
        most: 7,
        ..FailingSource::new(MOVE.as_bytes())
    };
    let mut output = MemorySink::new(alloc);
    let mut error = MemorySink::new(alloc);
    let words = ["calvin", "run"];
    let status = command(rt, alloc, &words, &mut input, &mut output, &mut error);
    same(&rt, status, 5);
    same(
        &rt,
        error.taken.as_slice(),
        b"calvin: 95 ReadFailed\n".as_slice(),
    );
    same(&rt, output.taken.len(), 0);
}

#[test]
fn a_failing_writer(rt: HostRuntime) {
    let alloc = rt.alloc();
    for out in [0, 1, MOVE_TEXT.len() - 1] {
        let mut input = MemorySource::new(MOVE.as_bytes());
        let mut output = FailingSink {
            bytes: out,
            ..FailingSink::new(alloc)
        };
        let mut error = MemorySink::new(alloc);
        let words = ["calvin", "run"];
        let status = command(rt, alloc, &words, &mut input, &mut output, &mut error);
        same(&rt, status, 5);
        same(
            &rt,
            error.taken.as_slice(),
            b"calvin: 96 WriteFailed\n".as_slice(),
        );
        same(&rt, output.taken.len(), out);
        holds(
            &rt,
            MOVE_TEXT.as_bytes().starts_with(output.taken.as_slice()),
        );
    }
}
