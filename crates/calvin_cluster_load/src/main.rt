//! A load on a running store: one caller submits requests of the application of numbers by key, each on a key of its own, so many
//! of them before it waits for the first of these, so that what a request takes can be measured. It prints how many were answered.
//!
//!     calvin_cluster_load REQUESTS AHEAD WORKERS MICROSECONDS PARTITIONS REPLICAS [spread]
//!
//! Each request takes a worker so many microseconds beside what it takes itself. All are submitted at node (0, 0); with the last word
//! each is at the node of replica 0 that has its key, partition by partition in turn.
#![tactic(auto)]

mod gate;
mod running;

use crate::running::{Desks, Load, run};
use std::process::ExitCode;
use std::{env, io};

/// What is asked for by the words of the command line, the program's name first.
fn load_of(words: &[String]) -> Option<Load> {
    let [
        _program,
        requests,
        ahead,
        workers,
        micros,
        partitions,
        replicas,
        more @ ..,
    ] = words
    else {
        return None;
    };
    Some(Load {
        requests: requests.as_str().parse::<u32>().ok()?,
        ahead: ahead.as_str().parse::<u32>().ok()?,
        workers: workers.as_str().parse::<usize>().ok()?,
        micros: micros.as_str().parse::<u64>().ok()?,
        partitions: partitions.as_str().parse::<u8>().ok()?,
        replicas: replicas.as_str().parse::<u8>().ok()?,
        desks: desks_of(more)?,
    })
}

/// Where requests are submitted, by the words behind the numbers.
fn desks_of(words: &[String]) -> Option<Desks> {
    match words {
        [] => Some(Desks::One),
        [word] if word.as_str() == "spread" => Some(Desks::Spread),
        _ => None,
    }
}

fn main(rt: HostRuntime) -> io::Result<ExitCode> {
    let words: Vec<String> = env::args(&rt)?.collect(rt.alloc())?;
    let Some(load) = load_of(words.as_slice()) else {
        eprintln!(rt;
            "calvin_cluster_load REQUESTS AHEAD WORKERS MICROSECONDS PARTITIONS REPLICAS [spread]"
        )?;
        return Ok(ExitCode::from(2));
    };
    match run(rt, rt.alloc(), &load) {
        Ok(answered) => {
            println!(rt; "answered {answered}")?;
            Ok(ExitCode::SUCCESS)
        }
        Err(fault) => {
            eprintln!(rt; "calvin_cluster_load: {fault}")?;
            Ok(ExitCode::from(4))
        }
    }
}
