//! What a run is made of, by its number alone.
use calvin_app::KvRequest;
use calvin_types::{Key, KeySet, NodeId, RequestId, Sets, Txn};
use rand_core::utils::NextWord;
use rand_pcg::Pcg32;

/// So few keys there are that most requests wait for others.
const KEYS: u32 = 6;

/// A run.
#[derive(Clone, Copy)]
pub struct Run {
    pub number: u64,
    pub partitions: u8,
    pub replicas: u8,
    pub workers: usize,
    pub callers: usize,
    /// How many requests each caller submits.
    pub requests: u32,
    /// After how many requests the first caller halts the store, if it does.
    pub halts: Option<u32>,
}

/// A number below `below`, or 0 where that is 0.
fn draw(generator: &mut Pcg32, below: u32) -> u32 {
    generator.next_word().checked_rem(below).unwrap_or(0)
}

fn byte(generator: &mut Pcg32, below: u8) -> u8 {
    draw(generator, u32::from(below)).min(255) as u8
}

/// The run of a number.
pub fn run_of(number: u64) -> Run {
    let mut generator = Pcg32::new(number, 3);
    let workers = match draw(&mut generator, 4) {
        0 => 1,
        1 => 2,
        2 => 4,
        _ => 16,
    };
    let requests = draw(&mut generator, 20).saturating_add(5);
    let halts = if draw(&mut generator, 4) == 0 {
        Some(draw(&mut generator, requests))
    } else {
        None
    };
    Run {
        number,
        partitions: byte(&mut generator, 5).saturating_add(1),
        replicas: byte(&mut generator, 5).saturating_add(1),
        workers,
        callers: (draw(&mut generator, 8) as usize).saturating_add(1),
        requests,
        halts,
    }
}

/// What a request asks for: the same whenever it is asked of its id.
pub(crate) fn args_of(number: u64, id: RequestId) -> KvRequest {
    let seed = number
        .wrapping_mul(1_000_003)
        .wrapping_add(u64::from(id.client) << 32);
    let mut generator = Pcg32::new(seed.wrapping_add(u64::from(id.number)), 5);
    let first = u64::from(draw(&mut generator, KEYS));
    let second = u64::from(draw(&mut generator, KEYS));
    match draw(&mut generator, 4) {
        0 => KvRequest::Put(first, u64::from(draw(&mut generator, 1000))),
        1 => {
            let mut keys = KeySet::of(key(first));
            keys.grow(key(second));
            KvRequest::Get(keys)
        }
        2 => KvRequest::Add(first, 1),
        _ => KvRequest::Move(first, second, 3),
    }
}

fn key(id: u64) -> Key {
    Key { table: 0, id }
}

/// The request of a run with an id, which declares the sets that it needs.
pub fn request_of(number: u64, id: RequestId) -> Txn<KvRequest> {
    let args = args_of(number, id);
    let mut sets = Sets {
        reads: KeySet::new(),
        writes: KeySet::new(),
    };
    args.add_first_needs(&mut sets);
    Txn {
        id,
        attempt: 1,
        args,
        sets,
    }
}

/// At which node it is submitted.
pub fn node_of(run: &Run, id: RequestId) -> NodeId {
    let mut generator = Pcg32::new(u64::from(id.client) * 64 + u64::from(id.number), 7);
    NodeId {
        replica: byte(&mut generator, run.replicas),
        partition: byte(&mut generator, run.partitions),
    }
}
