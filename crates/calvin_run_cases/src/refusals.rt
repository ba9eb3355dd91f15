//! What is refused, and what is written then.
use crate::scripts::{REPLICAS, outcome_of, same, team};
use calvin_cluster::{MOST_WORKERS, Open};
use calvin_edge::{FailingSink, FailingSource, MemorySink, MemorySource, WriteFailure};
use calvin_run::{Team, run};
use calvin_types::Fault;
use std::alloc::Global;
use std::test::Fail;

/// What a call was refused with; none where it wasn't.
fn fault_of<T: Drop>(answer: Result<T, Fault>) -> Option<Fault> {
    match answer {
        Ok(_) => None,
        Err(fault) => Some(fault),
    }
}

#[test]
fn refused_scripts(rt: HostRuntime) -> Result<(), Fail> {
    let scripts = [
        (r#"{"partitions":1"#, Fault::BadJson),
        (
            r#"{"partitions":17,"app":"kv","epochs":[]}"#,
            Fault::BadScript,
        ),
        (
            r#"{"partitions":1,"app":"tv","epochs":[]}"#,
            Fault::BadScript,
        ),
    ];
    for (script, fault) in scripts {
        same(
            &rt,
            fault_of(outcome_of(rt, rt.alloc(), script, &team(&rt, 2))),
            Some(fault),
        );
        let mut input = MemorySource::new(script.as_bytes());
        let mut output = MemorySink::new(rt.alloc());
        let ran = run(rt, rt.alloc(), &team(&rt, 1), Open, &mut input, &mut output);
        same(&rt, fault_of(ran), Some(fault));
        same(&rt, output.taken.len(), 0);
    }
    Ok(())
}

const PUT: &str =
    r#"{"partitions":1,"app":"kv","epochs":[[{"group":0,"txns":[{"client":7,"number":1,"op":["put",1,5]}]}]]}"#;

#[test]
fn a_device_fails(rt: HostRuntime) -> Result<(), Fail> {
    let alloc = rt.alloc();
    let mut broken = FailingSource::new(PUT.as_bytes());
    broken.calls = 1;
    let mut output = MemorySink::new(alloc);
    let ran = run(rt, alloc, &team(&rt, 1), Open, &mut broken, &mut output);
    same(&rt, fault_of(ran), Some(Fault::ReadFailed));
    same(&rt, output.taken.len(), 0);
    let text = b"0.0 7:1 done\nfinished 0\n";
    for failure in [WriteFailure::Refused, WriteFailure::TakesNone] {
        for bytes in [0, 1, text.len() - 1] {
            let mut full = FailingSink::new(alloc);
            full.bytes = bytes;
            full.failure = failure;
            let mut input = MemorySource::new(PUT.as_bytes());
            let ran = run(rt, alloc, &team(&rt, 1), Open, &mut input, &mut full);
            same(&rt, fault_of(ran), Some(Fault::WriteFailed));
            same(&rt, full.taken.as_slice() == &text[..bytes], true);
        }
    }
    Ok(())
}

/// A script of one group that has so many requests in each of its epochs.
fn script_of(alloc: Global, epochs: usize, each: usize) -> Result<String, Fault> {
    let mut script = String::new(alloc);
    script.push_str(r#"{"partitions":1,"app":"kv","epochs":["#)?;
    for epoch in 0..epochs {
        if epoch > 0 {
            script.push_str(",")?;
        }
        script.push_str(r#"[{"group":0,"txns":["#)?;
        for n in 0..each {
            if n > 0 {
                script.push_str(",")?;
            }
            script.push_str(r#"{"client":7,"number":1,"op":["put",1,5]}"#)?;
        }
        script.push_str("]}]")?;
    }
    script.push_str("]}")?;
    Ok(script)
}

#[test]
fn as_many_as_a_sequencer_takes(rt: HostRuntime) -> Result<(), Fail> {
    let alloc = rt.alloc();
    let most = script_of(alloc, 16, 256)?;
    let four = team(&rt, 4);
    same(
        &rt,
        fault_of(outcome_of(rt, alloc, most.as_str(), &four)),
        None,
    );
    let more = script_of(alloc, 17, 241)?;
    same(
        &rt,
        fault_of(outcome_of(rt, alloc, more.as_str(), &four)),
        Some(Fault::BadScript),
    );
    Ok(())
}

#[test]
fn teams(rt: HostRuntime) -> Result<(), Fail> {
    for wide in [false, true] {
        same(&rt, Team::new(0, 1, wide).is_some(), false);
        same(&rt, Team::new(8, 1, wide).is_some(), false);
        same(&rt, Team::new(1, 0, wide).is_some(), false);
        same(&rt, Team::new(1, MOST_WORKERS + 1, wide).is_some(), false);
        same(&rt, Team::new(7, MOST_WORKERS, wide).is_some(), true);
        same(&rt, Team::new(REPLICAS, 1, wide).is_some(), true);
    }
    Ok(())
}
