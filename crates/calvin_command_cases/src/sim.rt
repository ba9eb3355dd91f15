//! The worked cases of `calvin sim`, and the lines that it refuses.
use crate::checks::Runtime;
use crate::lines::runs;
use std::alloc::{AllocError, Global};
use std::test::Fail;

pub(crate) const MOVE: &str =
    r#"{"partitions":2,"app":"kv","epochs":[[{"group":0,"txns":[{"client":7,"number":1,"op":["put",1,10]},{"client":7,"number":2,"op":["move",1,2,4]}]}]]}"#;

pub(crate) const MOVE_TEXT: &str = "0.0 7:1 done\n0.1 7:2 done\nfinished 0\n";

fn prints(rt: &impl Runtime, alloc: Global, script: &str, text: &str) {
    runs(rt, alloc, &["calvin", "sim"], script, 0, text, "");
}

#[test]
fn move_across_partitions(rt: HostRuntime) {
    prints(&rt, rt.alloc(), MOVE, MOVE_TEXT);
    let serial = ["calvin", "serial"];
    runs(&rt, rt.alloc(), &serial, MOVE, 0, MOVE_TEXT, "");
}

#[test]
fn move_short(rt: HostRuntime) {
    let script =
        r#"{"partitions":2,"app":"kv","epochs":[[{"group":0,"txns":[{"client":7,"number":1,"op":["put",1,10]},{"client":7,"number":2,"op":["move",1,2,11]}]}]]}"#;
    let text = "0.0 7:1 done\n0.1 7:2 short\nfinished 0\n";
    prints(&rt, rt.alloc(), script, text);
}

#[test]
fn passive_partition(rt: HostRuntime) {
    let script =
        r#"{"partitions":2,"app":"kv","epochs":[[{"group":0,"txns":[{"client":7,"number":1,"op":["get",[2,3]]}]}]]}"#;
    prints(&rt, rt.alloc(), script, "0.0 7:1 none none\nfinished 0\n");
}

/// A script of two partitions whose only group puts 200, and then moves 1 so often.
pub(crate) fn moves(alloc: Global, count: u32) -> Result<String, AllocError> {
    let mut script = String::new(alloc);
    script.push_str(
        r#"{"partitions":2,"app":"kv","epochs":[[{"group":0,"txns":[{"client":7,"number":1,"op":["put",1,200]}"#,
    )?;
    for n in 0..count {
        let number = u64::from(n) + 2;
        let request = format!(in alloc;
            ",{{\"client\":7,\"number\":{number},\"op\":[\"move\",1,2,1]}}"
        )?;
        script.push_str(&request)?;
    }
    script.push_str("]}]]}")?;
    Ok(script)
}

#[test]
fn two_hundred_moves(rt: HostRuntime) -> Result<(), Fail> {
    let alloc = rt.alloc();
    let script = moves(alloc, 200)?;
    let mut text = String::new(alloc);
    for place in 0..201_u64 {
        let number = place + 1;
        let line = format!(in alloc; "0.{place} 7:{number} done\n")?;
        text.push_str(&line)?;
    }
    text.push_str("finished 0\n")?;
    prints(&rt, alloc, &script, &text);
    Ok(())
}

#[test]
fn too_many_requests_of_a_group(rt: HostRuntime) -> Result<(), Fail> {
    let script = moves(rt.alloc(), 4_096)?;
    let told = "calvin: 91 BadScript\n";
    runs(&rt, rt.alloc(), &["calvin", "sim"], &script, 2, "", told);
    Ok(())
}

#[test]
fn sim_with_restarts(rt: HostRuntime) {
    for start in ["1", "2", "3", "4", "5"] {
        let words = ["calvin", "sim", "--restarts", "--start", start];
        runs(&rt, rt.alloc(), &words, MOVE, 0, MOVE_TEXT, "");
    }
}

#[test]
fn repeats_and_losses(rt: HostRuntime) {
    let lines: [&[&str]; 3] = [
        &["calvin", "sim", "--repeat"],
        &["calvin", "sim", "--lose", "2"],
        &["calvin", "sim", "--restarts", "--repeat"],
    ];
    for words in lines {
        runs(&rt, rt.alloc(), words, MOVE, 0, MOVE_TEXT, "");
    }
    let words = ["calvin", "sim", "--replicas", "2", "--lose", "1"];
    runs(&rt, rt.alloc(), &words, MOVE, 0, "finished none\n", "");
}

#[test]
fn lines_at_the_bounds(rt: HostRuntime) {
    let lines: [&[&str]; 6] = [
        &["calvin", "sim", "--replicas", "1", "--steps", "0"],
        &["calvin", "sim", "--replicas=7", "--steps=100000"],
        &["calvin", "sim", "--start", "0"],
        &["calvin", "sim", "--start=+18446744073709551615"],
        &["calvin", "sim", "--lose=+1"],
        &["calvin", "sim", "--lose", "6", "--replicas", "7"],
    ];
    for words in lines {
        runs(&rt, rt.alloc(), words, MOVE, 0, MOVE_TEXT, "");
    }
}

#[test]
fn bad_lines(rt: HostRuntime) {
    let lines: [&[&str]; 20] = [
        &["calvin", "sim", "--replicas", "8"],
        &["calvin", "sim", "--replicas", "0"],
        &["calvin", "sim", "--steps", "100001"],
        &["calvin", "sim", "--start", "-1"],
        &["calvin", "sim", "--start=-1"],
        &["calvin", "sim", "--start", "18446744073709551616"],
        &["calvin", "sim", "--steps", "1", "--steps", "1"],
        &["calvin", "sim", "--restarts", "--restarts"],
        &["calvin", "sim", "--start"],
        &["calvin", "sim", "--start="],
        &["calvin", "sim", "--scout"],
        &["calvin", "sim", "--repeat", "--repeat"],
        &["calvin", "sim", "--repeat=1"],
        &["calvin", "sim", "--lose", "0"],
        &["calvin", "sim", "--lose", "3"],
        &["calvin", "sim", "--lose", "2", "--replicas", "2"],
        &["calvin", "sim", "--replicas", "1", "--lose", "1"],
        &["calvin", "sim", "--replicas", "7", "--lose", "7"],
        &["calvin", "sim", "--lose", "x"],
        &["calvin", "sim", "script.json"],
    ];
    for words in lines {
        runs(&rt, rt.alloc(), words, MOVE, 2, "", "calvin: bad line\n");
    }
}
