//! A load: drawn requests of the application of numbers by key are run by one replica of a given order, or by the serial
//! run, so that what each costs can be measured. It prints how many requests were answered and sums of the answers and of
//! the rows, which are the same however the requests are run.
//!
//!     calvin_bench_load KEEPER REQUESTS PARTITIONS KEYS AHEAD
//!
//! KEEPER is `serial`, or the lock manager: `list` or `queue`. Keys are drawn below KEYS. So many requests as AHEAD says
//! are admitted before the first of them begins.
#![tactic(auto)]

mod drawing;
mod replica;
mod serial;
mod summary;

use crate::drawing::Load;
use crate::summary::Summary;
use calvin_lock::{ListLocks, QueueLocks};
use calvin_types::Fault;
use std::alloc::Global;
use std::process::ExitCode;
use std::{env, io};

fn main(rt: HostRuntime) -> io::Result<ExitCode> {
    let words: Vec<String> = env::args(&rt)?.collect(rt.alloc())?;
    let Some((keeper, load)) = load_of(words.as_slice()) else {
        eprintln!(rt; "calvin_bench_load KEEPER REQUESTS PARTITIONS KEYS AHEAD")?;
        return Ok(ExitCode::from(2));
    };
    match run(rt.alloc(), keeper, &load) {
        Ok(summary) => {
            println!(rt; "requests {}", summary.requests)?;
            println!(rt; "answers {}", summary.answers)?;
            println!(rt; "rows {}", summary.rows)?;
            Ok(ExitCode::SUCCESS)
        }
        Err(fault) => {
            eprintln!(rt; "calvin_bench_load: {fault}")?;
            Ok(ExitCode::from(4))
        }
    }
}

/// What is asked for by the words of the command line, the program's name first.
fn load_of(words: &[String]) -> Option<(&str, Load)> {
    let [_program, keeper, requests, partitions, keys, ahead] = words else {
        return None;
    };
    let load = Load {
        requests: requests.as_str().parse::<u32>().ok()?,
        partitions: partitions.as_str().parse::<u8>().ok()?,
        keys: keys.as_str().parse::<u32>().ok()?,
        ahead: ahead.as_str().parse::<u32>().ok()?,
    };
    Some((keeper.as_str(), load))
}

/// Runs a load. Refused with `NotExpected` where no lock manager has this name.
fn run(alloc: Global, keeper: &str, load: &Load) -> Result<Summary, Fault> {
    match keeper {
        "serial" => serial::run(alloc, load),
        "list" => replica::run::<ListLocks>(alloc, load),
        "queue" => replica::run::<QueueLocks>(alloc, load),
        _ => Err(Fault::NotExpected),
    }
}
