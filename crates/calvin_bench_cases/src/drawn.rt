//! Drawn lists of steps, with losses, repeats, steps out of order and refused ones, compared with a plain evaluation: what
//! came of each step, where each partition stands, and its rows.
use crate::checks::same;
use crate::drawing::{Placed, draw, order, rest, step};
use crate::plain::{End, PlainReplica};
use calvin_app::{Answer, Kv, KvReply, View};
use calvin_bench::{OneReplica, Outcome, Step};
use calvin_lock::{ListLocks, Locks, QueueLocks};
use calvin_store::{PlainRows, Rows};
use calvin_store_cases::ListRows;
use calvin_types::{Config, Fault, Few, Key, MOST_KEYS};
use rand_pcg::Pcg32;
use std::alloc::Global;
use std::process::Abort;
use std::test::Fail;

/// A kind of outcome that has to come.
#[derive(Clone, Copy, PartialEq)]
enum Kind {
    Admitted,
    Served,
    Received,
    Changed,
    Done,
    Limit,
    Short,
    Value,
    Values,
    Found,
    Nothing,
    Refused(u8),
}

/// What came of drawn steps so far: how many there were, how many took effect, and each kind once.
#[derive(Drop)]
struct Reached {
    steps: usize,
    effects: usize,
    kinds: Vec<Kind>,
}

fn kind_of(end: End) -> Kind {
    match end {
        End::Admitted => Kind::Admitted,
        End::Served(_) => Kind::Served,
        End::Received => Kind::Received,
        End::Refused(number) => Kind::Refused(number),
        End::Answered(Answer::Changed) => Kind::Changed,
        End::Answered(Answer::Reply(reply)) => match reply {
            KvReply::Done => Kind::Done,
            KvReply::Limit => Kind::Limit,
            KvReply::Short => Kind::Short,
            KvReply::Value(_) => Kind::Value,
            KvReply::Values(_) => Kind::Values,
            KvReply::Found(Some(_)) => Kind::Found,
            KvReply::Found(None) => Kind::Nothing,
        },
    }
}

impl Reached {
    fn new(alloc: Global) -> Reached {
        Reached {
            steps: 0,
            effects: 0,
            kinds: Vec::new(alloc),
        }
    }

    fn note(&mut self, end: End) -> Result<(), Fault> {
        let kind = kind_of(end);
        self.steps = self.steps.saturating_add(1);
        match kind {
            Kind::Refused(_) => {}
            _ => self.effects = self.effects.saturating_add(1),
        }
        if !self.kinds.contains(&kind) {
            self.kinds.push(kind)?;
        }
        Ok(())
    }
}

/// Rows that were served, as the plain evaluation has them.
fn rows_of(view: &View<u64>) -> Few<(u64, u64)> {
    let mut rows = Few::new();
    for i in 0..view.len() {
        let (key, value) = view.at(i);
        if rows.len() < MOST_KEYS {
            rows.push((key.id, value));
        }
    }
    rows
}

/// An outcome, as the plain evaluation has it.
fn end_of(outcome: &Result<Outcome<u64, KvReply>, Fault>) -> End {
    match outcome {
        Ok(Outcome::Admitted) => End::Admitted,
        Ok(Outcome::Served(view)) => End::Served(rows_of(view)),
        Ok(Outcome::Received) => End::Received,
        Ok(Outcome::Answered(answer)) => End::Answered(*answer),
        Err(fault) => End::Refused(fault.number()),
    }
}

/// Where each partition stands, and its rows.
fn compare_state<L: Locks + Drop, S: Rows<u64> + Drop>(
    rt: &impl Abort,
    count: u8,
    replica: &OneReplica<Kv, L, S>,
    plain: &PlainReplica,
) -> Result<(), Fault> {
    for p in 0..count {
        same(rt, (p, replica.stands_at(p)?), (p, plain.stands_at(p)));
        let rows = plain.rows(p);
        let kept = replica.rows(p)?;
        same(rt, (p, kept.len()), (p, rows.len()));
        for (id, value) in rows {
            let key = Key { table: 0, id: *id };
            same(rt, (id, p, kept.get(&key)), (id, p, Some(*value)));
        }
    }
    Ok(())
}

/// Does steps, and compares what came of each, and the state after them.
fn compare_steps<L: Locks + Drop, S: Rows<u64> + Drop>(
    rt: &impl Abort,
    count: u8,
    steps: &[Step],
    replica: &mut OneReplica<Kv, L, S>,
    plain: &mut PlainReplica,
    reached: &mut Reached,
) -> Result<(), Fault> {
    let outcomes = replica.run(steps)?;
    same(rt, outcomes.len(), steps.len());
    for (outcome, step) in outcomes.iter().zip(steps) {
        let wanted = plain.step(*step)?;
        same(rt, (step, end_of(outcome) == wanted), (step, true));
        reached.note(wanted)?;
    }
    compare_state(rt, count, replica, plain)
}

/// A few steps, drawn where the plain evaluation stands.
fn drawn_steps(
    generator: &mut Pcg32,
    alloc: Global,
    config: &Config,
    entries: &[Placed],
    plain: &PlainReplica,
) -> Result<Vec<Step>, Fault> {
    let mut steps = Vec::new(alloc);
    for _ in 0..draw(generator, 12).saturating_add(1) {
        steps.push(step(generator, config, entries, plain))?;
    }
    Ok(steps)
}

/// All that is left to be done, which isn't counted.
fn compare_rest<L: Locks + Drop, S: Rows<u64> + Drop>(
    rt: &impl Abort,
    alloc: Global,
    count: u8,
    entries: &[Placed],
    replica: &mut OneReplica<Kv, L, S>,
    plain: &mut PlainReplica,
) -> Result<(), Fault> {
    let steps = rest(alloc, count, entries)?;
    let mut after = Reached::new(alloc);
    compare_steps(rt, count, steps.as_slice(), replica, plain, &mut after)?;
    let last = entries.last().map(|entry| entry.0.epoch);
    for p in 0..count {
        same(rt, (p, plain.stands_at(p)), (p, last));
    }
    Ok(())
}

/// An order and steps that are drawn from a start number, a few steps at a time, and then all that is left to be done, which
/// isn't counted.
fn compare<L: Locks + Drop, S: Rows<u64> + Drop>(
    rt: &impl Abort,
    alloc: Global,
    count: u8,
    start: u64,
    reached: &mut Reached,
) -> Result<(), Fault> {
    let mut generator = Pcg32::new(start, 7);
    let entries = order(&mut generator, alloc, 30)?;
    let config = Config::new(count, 1)?;
    let mut replica: OneReplica<Kv, L, S> = OneReplica::new(
        alloc,
        Kv,
        &config,
        copy_of(alloc, entries.as_slice())?,
    )?;
    let mut plain = PlainReplica::new(alloc, count, copy_of(alloc, entries.as_slice())?)?;
    compare_state(rt, count, &replica, &plain)?;
    for _ in 0..(count as u32).saturating_mul(16).saturating_add(16) {
        let steps = drawn_steps(&mut generator, alloc, &config, entries.as_slice(), &plain)?;
        compare_steps(
            rt,
            count,
            steps.as_slice(),
            &mut replica,
            &mut plain,
            reached,
        )?;
    }
    compare_rest(
        rt,
        alloc,
        count,
        entries.as_slice(),
        &mut replica,
        &mut plain,
    )
}

fn copy_of(alloc: Global, entries: &[Placed]) -> Result<Vec<Placed>, Fault> {
    let mut copy = Vec::new(alloc);
    for entry in entries {
        copy.push(*entry)?;
    }
    Ok(copy)
}

/// More than a fourth of the steps had an effect, and each kind of end came.
fn check_reached(rt: &impl Abort, reached: &Reached) {
    let (steps, effects) = (reached.steps, reached.effects);
    same(
        rt,
        (effects, steps, steps / 4 < effects),
        (effects, steps, true),
    );
    let kinds = [
        Kind::Admitted,
        Kind::Served,
        Kind::Received,
        Kind::Changed,
        Kind::Done,
        Kind::Limit,
        Kind::Short,
        Kind::Value,
        Kind::Values,
        Kind::Found,
        Kind::Nothing,
        Kind::Refused(41),
        Kind::Refused(42),
        Kind::Refused(43),
        Kind::Refused(44),
        Kind::Refused(47),
        Kind::Refused(48),
        Kind::Refused(60),
    ];
    for (i, kind) in kinds.iter().enumerate() {
        same(rt, (i, reached.kinds.contains(kind)), (i, true));
    }
}

#[test]
fn as_the_plain_evaluation(rt: HostRuntime) -> Result<(), Fail> {
    let alloc = rt.alloc();
    let mut reached = Reached::new(alloc);
    for count in [1, 2, 3, 5] {
        for start in 1..21 {
            compare::<ListLocks, PlainRows<u64>>(&rt, alloc, count, start, &mut reached)?;
            compare::<QueueLocks, PlainRows<u64>>(&rt, alloc, count, start, &mut reached)?;
            compare::<ListLocks, ListRows<u64>>(&rt, alloc, count, start, &mut reached)?;
            compare::<QueueLocks, ListRows<u64>>(&rt, alloc, count, start, &mut reached)?;
        }
    }
    check_reached(&rt, &reached);
    Ok(())
}
