//! Drawn orders and steps.
use crate::plain::PlainReplica;
use crate::plain_kv::{add_key, needs};
use calvin_app::KvRequest;
use calvin_bench::Step;
use calvin_types::{Config, Fault, KeySet, Place, RequestId, Sets, Txn};
use rand_core::utils::NextWord;
use rand_pcg::Pcg32;
use std::alloc::Global;

/// A request and its place in the order.
pub type Placed = (Place, Txn<KvRequest>);

/// Numbers of keys are below this, so that requests often meet.
const KEYS: u32 = 9;

/// A number below `below`, which isn't 0.
pub fn draw(generator: &mut Pcg32, below: u32) -> u32 {
    generator.next_word().checked_rem(below).unwrap_or(0)
}

fn draw_byte(generator: &mut Pcg32, below: u32) -> u8 {
    draw(generator, below).min(255) as u8
}

fn draw_key(generator: &mut Pcg32) -> u64 {
    draw(generator, KEYS) as u64
}

/// Mostly one of a few numbers, which also name keys; at times one near the greatest, to which little can be added.
fn draw_value(generator: &mut Pcg32) -> u64 {
    let value = draw(generator, 4) as u64;
    if draw(generator, 6) == 0 {
        return u64::MAX.saturating_sub(value);
    }
    value
}

fn request(generator: &mut Pcg32) -> Result<KvRequest, Fault> {
    let id = draw_key(generator);
    Ok(match draw(generator, 10) {
        0 | 1 => KvRequest::Put(id, draw_value(generator)),
        2 | 3 => {
            let mut keys = KeySet::new();
            for _ in 0..draw(generator, 4).saturating_add(1) {
                add_key(&mut keys, draw_key(generator))?;
            }
            KvRequest::Get(keys)
        }
        4 | 5 => KvRequest::Add(id, draw_value(generator)),
        6 | 7 => KvRequest::Move(id, draw_key(generator), draw(generator, 4) as u64),
        _ => KvRequest::Follow(id),
    })
}

/// Declared sets: those that are needed where no row is known, for a follow mostly with the key that it may come to; now
/// and then with a key too many, or none at all.
fn declared(generator: &mut Pcg32, args: &KvRequest) -> Result<Sets, Fault> {
    let mut sets = needs(args, &[])?;
    if let KvRequest::Follow(_) = args {
        if draw(generator, 3) > 0 {
            add_key(&mut sets.reads, draw(generator, 4) as u64)?;
        }
    }
    match draw(generator, 20) {
        0 => add_key(&mut sets.reads, draw_key(generator))?,
        1 => add_key(&mut sets.writes, draw_key(generator))?,
        2 => {
            sets = Sets {
                reads: KeySet::new(),
                writes: KeySet::new(),
            }
        }
        _ => {}
    }
    Ok(sets)
}

/// An order of so many requests, at rising places: epochs without a request and numbers without one come too.
pub fn order(generator: &mut Pcg32, alloc: Global, size: u32) -> Result<Vec<Placed>, Fault> {
    let mut order = Vec::new(alloc);
    let mut place = Place { epoch: 0, n: 0 };
    for number in 0..size {
        if draw(generator, 7) == 0 {
            let passed = draw(generator, 2).saturating_add(1);
            place = Place {
                epoch: place.epoch.saturating_add(passed as u64),
                n: 0,
            };
        }
        let args = request(generator)?;
        let sets = declared(generator, &args)?;
        let id = RequestId { client: 7, number };
        order.push((
            place,
            Txn {
                id,
                attempt: 1,
                args,
                sets,
            },
        ))?;
        place.n = place.n.saturating_add(draw(generator, 2)).saturating_add(1);
    }
    Ok(order)
}

/// A place near the first that a partition has still to finish, mostly of a request with a key there and in another one;
/// now and then one at which no request stands.
fn near(
    generator: &mut Pcg32,
    config: &Config,
    order: &[Placed],
    plain: &PlainReplica,
    pair: (u8, u8),
) -> Place {
    let mut found = Place { epoch: 99, n: 0 };
    let first = plain.first_left(pair.0);
    for _ in 0..4 {
        let window = draw(generator, 6).saturating_add(1);
        let number = first.saturating_add(draw(generator, window) as usize);
        let back = draw(generator, 8) / 7;
        if let Some((place, txn)) = order.get(number.saturating_sub(back as usize)) {
            found = *place;
            if txn.is_participant(config, pair.0) && txn.is_participant(config, pair.1) {
                return found;
            }
        }
    }
    found
}

/// A step of a replica; now and then of a partition that isn't there.
pub fn step(
    generator: &mut Pcg32,
    config: &Config,
    order: &[Placed],
    plain: &PlainReplica,
) -> Step {
    let there = config.partitions as u32;
    let beyond = if draw(generator, 50) == 0 { 1 } else { 0 };
    let p = draw_byte(generator, there.saturating_add(beyond));
    let from = draw_byte(generator, there.saturating_add(beyond));
    match draw(generator, 12) {
        0 | 1 => Step::Admit(p),
        2..=5 => Step::Begin(p, near(generator, config, order, plain, (p, p))),
        6 | 7 => Step::Reads(p, from, near(generator, config, order, plain, (p, from))),
        _ => Step::Finish(p, near(generator, config, order, plain, (p, p))),
    }
}

/// All steps that the request at a place may need, in the order of the phases, of which some may be done.
fn all_steps(steps: &mut Vec<Step>, count: u8, place: Place) -> Result<(), Fault> {
    for p in 0..count {
        steps.push(Step::Admit(p))?;
    }
    for p in 0..count {
        steps.push(Step::Begin(p, place))?;
    }
    for p in 0..count {
        for from in 0..count {
            steps.push(Step::Reads(p, from, place))?;
        }
    }
    for p in 0..count {
        steps.push(Step::Finish(p, place))?;
    }
    Ok(())
}

/// Steps after which all is done, whatever was done before.
pub fn rest(alloc: Global, count: u8, order: &[Placed]) -> Result<Vec<Step>, Fault> {
    let mut steps = Vec::new(alloc);
    for (place, _) in order {
        all_steps(&mut steps, count, *place)?;
    }
    Ok(steps)
}
