//! The worked cases of `calvin serial`; what no clause says, which is the text of help and what lines with the word
//! `help` come to; and bad lines and failing devices seen through the program.
use crate::checks::{Runtime, holds, same};
use calvin_command::command;
use calvin_edge::{FailingSink, FailingSource, MemorySink, MemorySource, WriteFailure};
use std::alloc::Global;
use std::test::Fail;

const PUT_THEN_GET: &str =
    r#"{"partitions":1,"app":"kv","epochs":[[{"group":0,"txns":[{"client":7,"number":1,"op":["put",1,5]},{"client":7,"number":2,"op":["get",[1]]}]}]]}"#;

const PUT_THEN_GET_TEXT: &str = "0.0 7:1 done\n0.1 7:2 value 5\nfinished 0\n";

/// Runs a line over memory, and compares the status, the output and what standard error is told.
pub(crate) fn runs(
    rt: &impl Runtime,
    alloc: Global,
    words: &[&str],
    script: &str,
    status: u8,
    text: &str,
    told: &str,
) {
    let mut input = MemorySource::new(script.as_bytes());
    let mut output = MemorySink::new(alloc);
    let mut error = MemorySink::new(alloc);
    let found = command(*rt, alloc, words, &mut input, &mut output, &mut error);
    same(
        rt,
        (script, output.taken.as_slice(), error.taken.as_slice()),
        (script, text.as_bytes(), told.as_bytes()),
    );
    same(rt, (script, found), (script, status));
}

fn prints(rt: &impl Runtime, alloc: Global, script: &str, text: &str) {
    runs(rt, alloc, &["calvin", "serial"], script, 0, text, "");
}

/// Runs a script with `--scout`, and compares what it prints.
fn scouts(rt: &impl Runtime, alloc: Global, script: &str, text: &str) {
    let words = ["calvin", "serial", "--scout"];
    runs(rt, alloc, &words, script, 0, text, "");
}

fn refuses(rt: &impl Runtime, alloc: Global, script: &str, told: &str) {
    runs(rt, alloc, &["calvin", "serial"], script, 2, "", told);
}

#[test]
fn empty_script(rt: HostRuntime) {
    prints(
        &rt,
        rt.alloc(),
        r#"{"partitions":1,"app":"kv","epochs":[]}"#,
        "finished none\n",
    );
    prints(
        &rt,
        rt.alloc(),
        r#"{"partitions":1,"app":"kv","epochs":[[]]}"#,
        "finished 0\n",
    );
}

#[test]
fn put_then_get(rt: HostRuntime) {
    prints(&rt, rt.alloc(), PUT_THEN_GET, PUT_THEN_GET_TEXT);
}

#[test]
fn groups_out_of_order(rt: HostRuntime) {
    let script =
        r#"{"partitions":2,"app":"kv","epochs":[[{"group":1,"txns":[{"client":7,"number":1,"op":["put",2,9]}]},{"group":0,"txns":[{"client":8,"number":1,"op":["get",[2]]}]}]]}"#;
    let text = "0.0 8:1 none\n0.1 7:1 done\nfinished 0\n";
    prints(&rt, rt.alloc(), script, text);
}

#[test]
fn declared_sets_checked(rt: HostRuntime) {
    let script =
        r#"{"partitions":1,"app":"kv","epochs":[[{"group":0,"txns":[{"client":7,"number":1,"op":["put",1,5],"reads":[],"writes":[[0,2]]},{"client":7,"number":2,"op":["get",[1]],"reads":[[0,1],[0,2]],"writes":[]},{"client":7,"number":3,"op":["get",[1]]}]}]]}"#;
    let text = "0.0 7:1 changed\n0.1 7:2 changed\n0.2 7:3 none\nfinished 0\n";
    prints(&rt, rt.alloc(), script, text);
}

#[test]
fn refused_scripts(rt: HostRuntime) {
    refuses(
        &rt,
        rt.alloc(),
        r#"{"partitions":1"#,
        "calvin: 90 BadJson\n",
    );
    let script =
        r#"{"partitions":17,"app":"kv","epochs":[[{"group":0,"txns":[{"client":7,"number":1,"op":["put",1,5]},{"client":7,"number":2,"op":["get",[1]]}]}]]}"#;
    refuses(&rt, rt.alloc(), script, "calvin: 91 BadScript\n");
    refuses(&rt, rt.alloc(), "", "calvin: 90 BadJson\n");
    refuses(&rt, rt.alloc(), "[]", "calvin: 91 BadScript\n");
}

#[test]
fn answers_of_several_epochs(rt: HostRuntime) {
    let script =
        r#"{"partitions":3,"app":"kv","epochs":[[{"group":2,"txns":[{"client":1,"number":1,"op":["add",4,18446744073709551615]}]}],[],[{"group":0,"txns":[{"client":1,"number":2,"op":["add",4,1]},{"client":1,"number":3,"attempt":8,"op":["get",[9,4,0]]}]}]]}"#;
    let text =
        "0.0 1:1 value 18446744073709551615\n2.0 1:2 limit\n2.1 1:3 none value 18446744073709551615 none\nfinished 2\n";
    prints(&rt, rt.alloc(), script, text);
}

#[test]
fn changed_then_again(rt: HostRuntime) {
    let script =
        r#"{"partitions":1,"app":"kv","epochs":[[{"group":0,"txns":[{"client":7,"number":1,"op":["put",1,5]}]}],[{"group":0,"txns":[{"client":7,"number":2,"op":["put",1,6]},{"client":7,"number":3,"op":["follow",1]}]}],[{"group":0,"txns":[{"client":7,"number":3,"op":["follow",1],"attempt":2}]}]]}"#;
    let text = "0.0 7:1 done\n1.0 7:2 done\n1.1 7:3 changed\n2.0 7:3 none\nfinished 2\n";
    scouts(&rt, rt.alloc(), script, text);
    let text = "0.0 7:1 done\n1.0 7:2 done\n1.1 7:3 changed\n2.0 7:3 changed\nfinished 2\n";
    prints(&rt, rt.alloc(), script, text);
}

#[test]
fn scouted_settle(rt: HostRuntime) {
    let script =
        r#"{"partitions":2,"app":"stock","epochs":[[{"group":0,"txns":[{"client":7,"number":1,"op":["additem",1,5,300]},{"client":7,"number":2,"op":["open",4]},{"client":7,"number":3,"op":["payin",4,1000]},{"client":7,"number":4,"op":["order",4,8,[[1,3]]]}]}],[{"group":0,"txns":[{"client":7,"number":5,"op":["settle",4]},{"client":7,"number":6,"op":["balance",4]}]}]]}"#;
    let text =
        "0.0 7:1 done\n0.1 7:2 done\n0.2 7:3 done\n0.3 7:4 ordered 900\n1.0 7:5 settled 900\n1.1 7:6 cents 100\nfinished 1\n";
    scouts(&rt, rt.alloc(), script, text);
    let text =
        "0.0 7:1 done\n0.1 7:2 done\n0.2 7:3 done\n0.3 7:4 ordered 900\n1.0 7:5 changed\n1.1 7:6 cents 1000\nfinished 1\n";
    prints(&rt, rt.alloc(), script, text);
}

#[test]
fn bad_lines(rt: HostRuntime) {
    let lines: [&[&str]; 12] = [
        &["calvin"],
        &["calvin", "parallel"],
        &["calvin", "check", "script.json"],
        &["calvin", "--scout"],
        &["calvin", "--scout", "serial"],
        &["calvin", "serial", "--scout", "--scout"],
        &["calvin", "serial", "--scout=true"],
        &["calvin", "serial", "script.json"],
        &["calvin", "serial", "serial"],
        &["calvin", "--version"],
        &["calvin", "serial", "help"],
        &["calvin", "help", "sing"],
    ];
    for words in lines {
        runs(
            &rt,
            rt.alloc(),
            words,
            PUT_THEN_GET,
            2,
            "",
            "calvin: bad line\n",
        );
    }
}

/// Whether the bytes are a text in which this part stands.
fn has_text(whole: &[u8], part: &str) -> bool {
    match str::from_utf8(whole) {
        Ok(text) => text.contains(part),
        Err(_) => false,
    }
}

/// Runs a line that asks for help, whose text has these parts.
fn helps(rt: &impl Runtime, alloc: Global, words: &[&str], parts: &[&str]) {
    let mut input = MemorySource::new(b"");
    let mut output = MemorySink::new(alloc);
    let mut error = MemorySink::new(alloc);
    same(
        rt,
        command(*rt, alloc, words, &mut input, &mut output, &mut error),
        0,
    );
    for part in parts {
        same(
            rt,
            (part, has_text(output.taken.as_slice(), part)),
            (part, true),
        );
    }
    same(rt, error.taken.len(), 0);
}

#[test]
fn help_is_shown(rt: HostRuntime) {
    let alloc = rt.alloc();
    let parts = ["serial", "run ", "Statuses:", "calvin serial --help"];
    helps(&rt, alloc, &["calvin", "--help"], &parts);
    helps(&rt, alloc, &["calvin", "-h"], &parts);
    helps(&rt, alloc, &["calvin", "help"], &parts);
    let parts = ["partitions", "finished", "--scout", "calvin --help"];
    helps(&rt, alloc, &["calvin", "serial", "--help"], &parts);
    helps(&rt, alloc, &["calvin", "help", "serial"], &parts);
    let parts = [
        "--start <N>",
        "[default: 1000]",
        "--restarts",
        "--repeat ",
        "--lose <N>",
        "4,096",
    ];
    helps(&rt, alloc, &["calvin", "sim", "--help"], &parts);
    let parts = [
        "--replicas <N>",
        "[default: 3]",
        "--workers <N>",
        "[default: 4]",
        "--wide ",
        "4,096",
    ];
    helps(&rt, alloc, &["calvin", "run", "--help"], &parts);
    helps(&rt, alloc, &["calvin", "help", "run"], &parts);
}

#[test]
fn script_too_long(rt: HostRuntime) -> Result<(), Fail> {
    let alloc = rt.alloc();
    let words = ["calvin", "serial"];
    let mut script = Vec::from_slice(alloc, PUT_THEN_GET.as_bytes())?;
    script.resize(1_048_578, b' ')?;
    let mut input = MemorySource::new(&script);
    let mut output = MemorySink::new(alloc);
    let mut error = MemorySink::new(alloc);
    same(
        &rt,
        command(rt, alloc, &words, &mut input, &mut output, &mut error),
        2,
    );
    same(
        &rt,
        error.taken.as_slice(),
        b"calvin: 92 ScriptTooLong\n".as_slice(),
    );
    same(&rt, output.taken.len(), 0);
    // Nothing past the first byte too many is read.
    same(&rt, input.left.len(), 1);
    script.truncate(1_048_576);
    let mut input = MemorySource::new(&script);
    let mut error = MemorySink::new(alloc);
    same(
        &rt,
        command(rt, alloc, &words, &mut input, &mut output, &mut error),
        0,
    );
    same(&rt, output.taken.as_slice(), PUT_THEN_GET_TEXT.as_bytes());
    Ok(())
}

#[test]
fn failing_readers(rt: HostRuntime) {
    let alloc = rt.alloc();
    let words = ["calvin", "serial"];
    for (calls, bytes) in [(0, 10), (1, 10), (2, 40), (3, 0), (9, 100)] {
        let mut input = FailingSource {
            calls,
            bytes,
            most: 7,
            ..FailingSource::new(PUT_THEN_GET.as_bytes())
        };
        let mut output = MemorySink::new(alloc);
        let mut error = MemorySink::new(alloc);
        same(
            &rt,
            command(rt, alloc, &words, &mut input, &mut output, &mut error),
            5,
        );
        same(
            &rt,
            error.taken.as_slice(),
            b"calvin: 95 ReadFailed\n".as_slice(),
        );
        same(&rt, output.taken.len(), 0);
        holds(&rt, input.failures.is_raised());
    }
}

/// Runs a script to the end of this output, which fails after `out` bytes of the text.
fn stops_after(rt: &impl Runtime, alloc: Global, output: &mut FailingSink, out: usize) {
    let mut input = MemorySource::new(PUT_THEN_GET.as_bytes());
    let mut error = MemorySink::new(alloc);
    same(
        rt,
        command(
            *rt,
            alloc,
            &["calvin", "serial"],
            &mut input,
            output,
            &mut error,
        ),
        5,
    );
    same(
        rt,
        error.taken.as_slice(),
        b"calvin: 96 WriteFailed\n".as_slice(),
    );
    same(rt, output.taken.len(), out);
    holds(
        rt,
        PUT_THEN_GET_TEXT
            .as_bytes()
            .starts_with(output.taken.as_slice()),
    );
    holds(rt, output.failures.is_raised());
}

/// The calls, the bytes and the bytes of a call after which an output fails, and how many bytes are out then.
fn failing_writers_by(rt: &impl Runtime, alloc: Global, failure: WriteFailure) {
    let whole = PUT_THEN_GET_TEXT.len();
    let rows = [
        (usize::MAX, 0, 9, 0),
        (usize::MAX, 1, 9, 1),
        (usize::MAX, 20, 9, 20),
        (0, usize::MAX, 9, 0),
        (2, usize::MAX, 9, 18),
        (usize::MAX, whole - 1, 1, whole - 1),
    ];
    for (calls, bytes, most, out) in rows {
        let mut output = FailingSink {
            calls,
            bytes,
            most,
            failure,
            ..FailingSink::new(alloc)
        };
        stops_after(rt, alloc, &mut output, out);
    }
}

#[test]
fn failing_writers(rt: HostRuntime) {
    failing_writers_by(&rt, rt.alloc(), WriteFailure::Refused);
    failing_writers_by(&rt, rt.alloc(), WriteFailure::TakesNone);
}

#[test]
fn one_byte_a_write(rt: HostRuntime) {
    let alloc = rt.alloc();
    let words = ["calvin", "serial"];
    let mut input = FailingSource {
        most: 1,
        ..FailingSource::new(PUT_THEN_GET.as_bytes())
    };
    let mut output = FailingSink {
        most: 1,
        ..FailingSink::new(alloc)
    };
    let mut error = MemorySink::new(alloc);
    same(
        &rt,
        command(rt, alloc, &words, &mut input, &mut output, &mut error),
        0,
    );
    same(&rt, output.taken.as_slice(), PUT_THEN_GET_TEXT.as_bytes());
    same(&rt, error.taken.len(), 0);
}

#[test]
fn a_failing_standard_error(rt: HostRuntime) {
    let alloc = rt.alloc();
    let lines: [&[&str]; 2] = [&["calvin", "serial"], &["calvin", "sing"]];
    for words in lines {
        let mut input = MemorySource::new(b"[]");
        let mut output = MemorySink::new(alloc);
        let mut error = FailingSink {
            bytes: 3,
            ..FailingSink::new(alloc)
        };
        same(
            &rt,
            command(rt, alloc, words, &mut input, &mut output, &mut error),
            2,
        );
        same(&rt, error.taken.as_slice(), b"cal".as_slice());
    }
}
