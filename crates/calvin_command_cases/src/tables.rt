//! Scripts that every command refuses, and the longest one that each takes.
use crate::checks::{Runtime, same};
use crate::sim::{MOVE, MOVE_TEXT, moves};
use calvin_command::command;
use calvin_edge::{MemorySink, MemorySource};
use std::alloc::{AllocError, Global};
use std::test::Fail;

/// The commands that take a script of requests.
const ENGINES: [&str; 3] = ["serial", "sim", "run"];

const BAD_JSON: &str = "calvin: 90 BadJson\n";

const BAD_SCRIPT: &str = "calvin: 91 BadScript\n";

/// A command with these bytes ends with a status, and says this on its output and on standard error.
fn ends(
    rt: &impl Runtime,
    alloc: Global,
    name: &str,
    script: &[u8],
    status: u8,
    text: &str,
    told: &str,
) {
    let words = ["calvin", name];
    let mut input = MemorySource::new(script);
    let mut output = MemorySink::new(alloc);
    let mut error = MemorySink::new(alloc);
    let found = command(*rt, alloc, &words, &mut input, &mut output, &mut error);
    same(
        rt,
        (name, output.taken.as_slice(), error.taken.as_slice()),
        (name, text.as_bytes(), told.as_bytes()),
    );
    same(
        rt,
        (name, script.len(), found),
        (name, script.len(), status),
    );
}

/// Every command refuses these bytes, and says why.
fn all_refuse(rt: &impl Runtime, alloc: Global, script: &[u8], told: &str) {
    ends(rt, alloc, "check", script, 2, "", told);
    for name in ENGINES {
        ends(rt, alloc, name, script, 2, "", told);
    }
}

/// A script whose epochs are lists within lists, so many.
fn nested(alloc: Global, levels: u32) -> Result<String, AllocError> {
    let mut script = String::new(alloc);
    script.push_str(r#"{"partitions":2,"app":"kv","epochs":"#)?;
    for _ in 0..levels {
        script.push('[')?;
    }
    for _ in 0..levels {
        script.push(']')?;
    }
    script.push('}')?;
    Ok(script)
}

/// No beginning of a script is one, nor is one with a byte that no text has, or whose lists are too deep to be read.
#[test]
fn broken_scripts(rt: HostRuntime) -> Result<(), Fail> {
    let alloc = rt.alloc();
    let script = MOVE.as_bytes();
    for end in 0..script.len() {
        let (beginning, rest) = script.split_at(end);
        all_refuse(&rt, alloc, beginning, BAD_JSON);
        let mut changed = Vec::from_slice(alloc, beginning)?;
        changed.push(255)?;
        changed.extend_from_slice(rest)?;
        all_refuse(&rt, alloc, &changed, BAD_JSON);
    }
    all_refuse(&rt, alloc, nested(alloc, 200)?.as_bytes(), BAD_JSON);
    all_refuse(&rt, alloc, nested(alloc, 100)?.as_bytes(), BAD_SCRIPT);
    Ok(())
}

/// A script is filled up with spaces to so many bytes.
fn filled(alloc: Global, script: &str, size: usize) -> Result<Vec<u8>, AllocError> {
    let mut bytes = Vec::from_slice(alloc, script.as_bytes())?;
    bytes.resize(size, b' ')?;
    Ok(bytes)
}

/// 1,048,576 bytes are taken, and one more isn't.
#[test]
fn script_size_limit(rt: HostRuntime) -> Result<(), Fail> {
    let alloc = rt.alloc();
    let longest = filled(alloc, MOVE, 1_048_576)?;
    for name in ENGINES {
        ends(&rt, alloc, name, &longest, 0, MOVE_TEXT, "");
    }
    let nothing = r#"{"partitions":1,"replicas":1,"app":"kv","events":[]}"#;
    let longest = filled(alloc, nothing, 1_048_576)?;
    let text = "node 0.0 stands none rows 0\nfinished none\n";
    ends(&rt, alloc, "check", &longest, 0, text, "");
    let longer = filled(alloc, MOVE, 1_048_577)?;
    all_refuse(&rt, alloc, &longer, "calvin: 92 ScriptTooLong\n");
    Ok(())
}

/// Scripts of requests that don't have the form of one.
const BAD_MEMBERS: [&str; 7] = [
    r#"{"partitions":1,"app":"kv","epochs":[],"extra":1}"#,
    r#"{"partitions":1,"app":"kv","epochs":[[{"group":0,"txns":[{"client":-1,"number":1,"op":["put",1,5]}]}]]}"#,
    r#"{"partitions":1,"app":"kv","epochs":[[{"group":0,"txns":[{"client":4294967296,"number":1,"op":["put",1,5]}]}]]}"#,
    r#"{"partitions":1,"app":"kv","epochs":[[{"group":0,"txns":[{"client":7,"number":1,"op":["put",1,5]}]},{"group":0,"txns":[]}]]}"#,
    r#"{"partitions":1,"app":"kv","epochs":[[{"group":0,"txns":[{"client":7,"number":1,"op":["get",[1,1]]}]}]]}"#,
    r#"{"partitions":1,"app":"kv","epochs":[[{"group":0,"txns":[{"client":7,"number":1,"op":["put",1,5],"reads":[]}]}]]}"#,
    r#"{"partitions":1,"app":"kv","epochs":[[{"group":0,"txns":[{"client":7,"number":1,"attempt":9,"op":["put",1,5]}]}]]}"#,
];

#[test]
fn bad_members(rt: HostRuntime) -> Result<(), Fail> {
    let alloc = rt.alloc();
    for name in ENGINES {
        for script in BAD_MEMBERS {
            ends(&rt, alloc, name, script.as_bytes(), 2, "", BAD_SCRIPT);
        }
    }
    // 256 moves and a put are one request too many for a batch.
    let batch = moves(alloc, 256)?;
    ends(&rt, alloc, "serial", batch.as_bytes(), 2, "", BAD_SCRIPT);
    Ok(())
}
