//! Drawn requests.
use calvin_app::KvRequest;
use calvin_types::{Fault, Key, KeySet, Place, RequestId, Sets, Txn};
use rand_core::utils::NextWord;
use rand_pcg::Pcg32;
use std::alloc::Global;

/// How many requests an epoch has.
const EPOCH: u32 = 256;

/// What is run: how many requests, over how many partitions, of keys below `keys`, and how many of them are admitted
/// before the first of these begins.
#[derive(Clone, Copy)]
pub struct Load {
    pub requests: u32,
    pub partitions: u8,
    pub keys: u32,
    pub ahead: u32,
}

/// A request and its place in the order.
pub type Placed = (Place, Txn<KvRequest>);

/// A number below `below`, or 0 where that is 0.
fn draw(generator: &mut Pcg32, below: u32) -> u64 {
    generator.next_word().checked_rem(below).unwrap_or(0) as u64
}

/// One of the operations put, get of two keys, add and move.
fn operation(generator: &mut Pcg32, keys: u32) -> KvRequest {
    let kind = draw(generator, 4);
    let (first, second) = (draw(generator, keys), draw(generator, keys));
    match kind {
        0 => KvRequest::Put(first, draw(generator, 1000)),
        1 => {
            let mut both = KeySet::of(Key {
                table: 0,
                id: first,
            });
            both.grow(Key {
                table: 0,
                id: second,
            });
            KvRequest::Get(both)
        }
        2 => KvRequest::Add(first, draw(generator, 10)),
        _ => KvRequest::Move(first, second, draw(generator, 10)),
    }
}

/// The request with this number, which declares the sets that it needs, and its place.
fn placed(generator: &mut Pcg32, keys: u32, number: u32) -> Placed {
    let args = operation(generator, keys);
    let mut sets = Sets {
        reads: KeySet::new(),
        writes: KeySet::new(),
    };
    args.add_first_needs(&mut sets);
    let place = Place {
        epoch: (number / EPOCH) as u64,
        n: number % EPOCH,
    };
    let txn = Txn {
        id: RequestId { client: 7, number },
        attempt: 1,
        args,
        sets,
    };
    (place, txn)
}

/// The requests of a load, which are the same whatever the partitions are.
pub fn order(alloc: Global, load: &Load) -> Result<Vec<Placed>, Fault> {
    let mut generator = Pcg32::new(1, 7);
    let mut order = Vec::with_capacity(alloc, load.requests as usize)?;
    for number in 0..load.requests {
        order.push(placed(&mut generator, load.keys, number))?;
    }
    Ok(order)
}
