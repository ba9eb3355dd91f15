//! A load is run by one replica.
use crate::drawing::{Load, Placed, order};
use crate::summary::Summary;
use calvin_app::{Kv, KvReply, KvRequest};
use calvin_bench::{OneReplica, Outcome, Step};
use calvin_lock::Locks;
use calvin_store::{PlainRows, Rows};
use calvin_types::{Config, Fault, Key, Place, Txn};
use std::alloc::Global;

/// The steps by which each partition admits one more request.
fn push_admissions(steps: &mut Vec<Step>, config: &Config) -> Result<(), Fault> {
    for p in 0..config.partitions {
        steps.push(Step::Admit(p))?;
    }
    Ok(())
}

/// The steps by which a partition that runs a request takes the rows of the others.
fn push_reads(
    steps: &mut Vec<Step>,
    config: &Config,
    p: u8,
    place: Place,
    txn: &Txn<KvRequest>,
) -> Result<(), Fault> {
    for from in 0..config.partitions {
        if from != p && txn.sets.reads.has_local(config, from) {
            steps.push(Step::Reads(p, from, place))?;
        }
    }
    Ok(())
}

/// The steps of a request after its admission: it begins where its keys are, rows are exchanged, and it is finished where it
/// is run.
fn push_phases(steps: &mut Vec<Step>, config: &Config, entry: &Placed) -> Result<(), Fault> {
    let (place, txn) = (entry.0, &entry.1);
    for p in 0..config.partitions {
        if txn.is_participant(config, p) {
            steps.push(Step::Begin(p, place))?;
        }
    }
    for p in 0..config.partitions {
        if txn.is_active(config, p) {
            push_reads(steps, config, p, place, txn)?;
            steps.push(Step::Finish(p, place))?;
        }
    }
    Ok(())
}

/// The steps of a part of an order: all of it is admitted, and then each request does all its phases.
fn push_steps(steps: &mut Vec<Step>, config: &Config, part: &[Placed]) -> Result<(), Fault> {
    for _ in part {
        push_admissions(steps, config)?;
    }
    for entry in part {
        push_phases(steps, config, entry)?;
    }
    Ok(())
}

/// Adds the answers that steps gave, of each request the first one. Refused as the first step that was.
fn add_answers(
    steps: &[Step],
    outcomes: &[Result<Outcome<u64, KvReply>, Fault>],
    summary: &mut Summary,
) -> Result<(), Fault> {
    let mut last = None;
    for (step, outcome) in steps.iter().zip(outcomes) {
        match (step, outcome) {
            (Step::Finish(_, place), Ok(Outcome::Answered(answer))) => {
                if last != Some(*place) {
                    summary.answer(answer);
                }
                last = Some(*place);
            }
            (_, Err(fault)) => return Err(*fault),
            _ => {}
        }
    }
    Ok(())
}

/// Adds the rows of all keys.
fn add_rows<L: Locks + Drop>(
    replica: &OneReplica<Kv, L, PlainRows<u64>>,
    config: &Config,
    keys: u32,
    summary: &mut Summary,
) -> Result<(), Fault> {
    for id in 0..keys {
        let key = Key {
            table: 0,
            id: id as u64,
        };
        let rows = replica.rows(config.partition_of(&key))?;
        summary.row(rows.get(&key));
    }
    Ok(())
}

/// Runs the requests by a replica, as many at a time as are admitted ahead.
pub fn run<L: Locks + Drop>(alloc: Global, load: &Load) -> Result<Summary, Fault> {
    let config = Config::new(load.partitions, 1)?;
    let entries = order(alloc, load)?;
    let mut replica: OneReplica<Kv, L, PlainRows<u64>> = OneReplica::new(
        alloc,
        Kv,
        &config,
        order(alloc, load)?,
    )?;
    let mut summary = Summary::new();
    let mut steps = Vec::new(alloc);
    for part in entries.as_slice().chunks(load.ahead.max(1) as usize) {
        steps.clear();
        push_steps(&mut steps, &config, part)?;
        let outcomes = replica.run(steps.as_slice())?;
        add_answers(steps.as_slice(), outcomes.as_slice(), &mut summary)?;
    }
    add_rows(&replica, &config, load.keys, &mut summary)?;
    Ok(summary)
}
