//! A load on a running store with a lock for each node: one caller submits requests of the application of numbers by key, each on a
//! key of its own and at the node of replica 0 that has it, partition by partition in turn, so many of them before it waits for the
//! first of these, so that what a request takes can be measured. It prints how many were answered.
//!
//!     calvin_wide_load REQUESTS AHEAD WORKERS MICROSECONDS PARTITIONS REPLICAS [assemble]
//!
//! Each request takes a worker so many microseconds beside what it takes itself. With the last word the histories that the store
//! leaves are assembled, too.
#![tactic(auto)]

mod gate;
mod running;

use crate::running::{Ending, Load, run};
use std::process::ExitCode;
use std::{env, io};

/// What is asked for by the words of the command line, the program's name first.
fn load_of(words: &[String]) -> Option<Load> {
    let [
        _program,
        requests,
        ahead,
        workers,
        micros,
        partitions,
        replicas,
        more @ ..,
    ] = words
    else {
        return None;
    };
    Some(Load {
        requests: requests.as_str().parse::<u32>().ok()?,
        ahead: ahead.as_str().parse::<u32>().ok()?,
        workers: workers.as_str().parse::<usize>().ok()?,
        micros: micros.as_str().parse::<u64>().ok()?,
        partitions: partitions.as_str().parse::<u8>().ok()?,
        replicas: replicas.as_str().parse::<u8>().ok()?,
        ending: ending_of(more)?,
    })
}

/// What becomes of the histories, by the words behind the numbers.
fn ending_of(words: &[String]) -> Option<Ending> {
    match words {
        [] => Some(Ending::Forget),
        [word] if word.as_str() == "assemble" => Some(Ending::Assemble),
        _ => None,
    }
}

fn main(rt: HostRuntime) -> io::Result<ExitCode> {
    let words: Vec<String> = env::args(&rt)?.collect(rt.alloc())?;
    let Some(load) = load_of(words.as_slice()) else {
        eprintln!(rt;
            "calvin_wide_load REQUESTS AHEAD WORKERS MICROSECONDS PARTITIONS REPLICAS [assemble]"
        )?;
        return Ok(ExitCode::from(2));
    };
    match run(rt, rt.alloc(), &load) {
        Ok(answered) => {
            println!(rt; "answered {answered}")?;
            Ok(ExitCode::SUCCESS)
        }
        Err(fault) => {
            eprintln!(rt; "calvin_wide_load: {fault}")?;
            Ok(ExitCode::from(4))
        }
    }
}
