//! Stores with a lock for each node under stress: callers in threads submit requests that touch few keys, wait for their answers, and
//! submit again; some halt the store in the middle. Afterwards the histories that are left are assembled, which has to be possible,
//! and a plain checker runs all requests that were answered one at a time, in the order of their places in that one list, over a
//! plain map: each answer has to be that of the place where its request stands. Then a store opens over the book of that list, and
//! all of it is done once more.
//!
//!     calvin_wide_stress [RUNS [FIRST]]
//!
//! Each of so many runs (40 where it isn't said), numbered from FIRST (0) on, has another number of partitions, replicas, workers and
//! callers. It prints the number of each run with a wrong answer, or without such a list, and then how many were.
#![tactic(auto)]

mod calling;
mod checking;
mod running;

use crate::running::run;
use std::process::ExitCode;
use std::{env, io};

/// How many runs there are where that isn't said.
const RUNS: u64 = 40;

/// The number that a word of the command line is, if it is one.
fn number_at(words: &[String], at: usize, default: u64) -> u64 {
    match words.get(at) {
        Some(word) => word.parse().unwrap_or(default),
        None => default,
    }
}

fn main(rt: HostRuntime) -> io::Result<ExitCode> {
    let words: Vec<String> = env::args(&rt)?.collect(rt.alloc())?;
    let runs = number_at(&words, 1, RUNS);
    let first = number_at(&words, 2, 0);
    let mut wrong: u64 = 0;
    for number in first..first.saturating_add(runs) {
        match run(rt, rt.alloc(), number) {
            Ok(true) => {}
            Ok(false) => {
                println!(rt; "run {number} has a wrong answer")?;
                wrong = wrong.saturating_add(1);
            }
            Err(fault) => {
                println!(rt; "run {number} was refused {}", fault.number())?;
                wrong = wrong.saturating_add(1);
            }
        }
    }
    println!(rt; "{runs} runs, {wrong} wrong")?;
    Ok(ExitCode::from(u8::from(wrong > 0)))
}
