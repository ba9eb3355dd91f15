//! What the cases run.
use crate::gate::{Counting, Counts};
use calvin_edge::{MemorySink, MemorySource};
use calvin_run::{Ran, Team, run};
use calvin_types::Fault;
use std::alloc::Global;
use std::fmt::Debug;
use std::process::Abort;
use std::sync::{Arc, Wait};
use std::thread::Threads;

pub(crate) const REPLICAS: u8 = 3;

/// Two values are the same.
pub(crate) fn same<T: PartialEq + Debug + Drop>(rt: &impl Abort, found: T, wanted: T) {
    assert_eq!(rt; found, wanted);
}

/// So many workers on three replicas, with one lock or with one for each node.
fn team_of(rt: &impl Abort, workers: usize, wide: bool) -> Team {
    let Some(team) = Team::new(REPLICAS, workers, wide) else {
        panic!(rt; "no team");
    };
    team
}

pub(crate) fn team(rt: &impl Abort, workers: usize) -> Team {
    team_of(rt, workers, false)
}

/// Where each node has a lock of its own.
pub(crate) fn wide_team(rt: &impl Abort, workers: usize) -> Team {
    team_of(rt, workers, true)
}

/// What came of a script: its book, its text, and how many requests were run.
#[derive(Drop)]
pub(crate) struct Outcome {
    pub book: Ran,
    pub text: Vec<u8>,
    pub begun: u64,
}

/// Runs a script by a team. The gate counts what its workers run.
pub(crate) fn outcome_of<R: Threads + Wait + Abort + Copy + Send + Sync + 'static>(
    rt: R,
    alloc: Global,
    script: &str,
    team: &Team,
) -> Result<Outcome, Fault> {
    let counts = Counts::new(alloc)?;
    let gate = Counting {
        counts: Arc::try_clone(&counts)?,
    };
    let mut input = MemorySource::new(script.as_bytes());
    let mut output = MemorySink::new(alloc);
    let book = run(rt, alloc, team, gate, &mut input, &mut output)?;
    let MemorySink { taken, .. } = output;
    same(&rt, counts.done(), counts.begun());
    Ok(Outcome {
        book,
        text: taken,
        begun: counts.begun(),
    })
}

/// Its text is this one.
pub(crate) fn tells<R: Threads + Wait + Abort + Copy + Send + Sync + 'static>(
    rt: R,
    alloc: Global,
    script: &str,
    team: &Team,
    text: &str,
) -> Result<Outcome, Fault> {
    let outcome = outcome_of(rt, alloc, script, team)?;
    let Ok(found) = std::str::from_utf8(outcome.text.as_slice()) else {
        panic!(rt; "no text");
    };
    same(&rt, found, text);
    Ok(outcome)
}
