//! Calls of a keeper, which are drawn.
use crate::draws::Draws;
use crate::model::{KEYS, key_of};
use calvin_app::Writes;
use calvin_store::{Rows, Snapshot};
use calvin_types::{Fault, Key, KeySet, Place, Sets};

/// More rows than there is memory for.
const TOO_MANY: usize = 1 << 60;

/// A call of a keeper.
#[derive(Drop)]
pub(crate) enum Call {
    /// A snapshot of the present rows is taken, and kept.
    Keep,
    /// One of the rows of the point is.
    KeepPoint,
    /// The snapshot that was kept is loaded.
    Load,
    Mark(u64),
    ClosePoint,
    Warm(Sets),
    Cool(Key),
    Reserve(usize),
    ReserveTooMuch,
    /// Room is made for the writes of a request, and they are put.
    Write(Place, Writes<u64>),
}

impl Call {
    /// Whether there is never memory for it.
    pub fn asks_too_much(&self) -> bool {
        matches!(self, Call::ReserveTooMuch)
    }
}

fn drawn_key(draws: &mut Draws) -> Key {
    key_of(draws.below(KEYS as u64) as usize)
}

fn drawn_keys(draws: &mut Draws) -> Result<KeySet, Fault> {
    let mut keys = KeySet::new();
    for _ in 0..draws.below(4) {
        keys.insert(drawn_key(draws))?;
    }
    Ok(keys)
}

/// Writes of a request at a drawn place. No lock keeps them in order: a key is written below a point after it was above.
fn drawn_write(draws: &mut Draws) -> Result<Call, Fault> {
    let place = Place {
        epoch: draws.below(6),
        n: draws.below(3) as u32,
    };
    let mut writes = Writes::new();
    for _ in 0..draws.below(4) {
        let key = drawn_key(draws);
        writes.put(key, draws.below(1000))?;
    }
    Ok(Call::Write(place, writes))
}

/// A drawn call: mostly of a request's writes, and rarely such as end a point.
pub(crate) fn drawn_call(draws: &mut Draws) -> Result<Call, Fault> {
    let call = match draws.below(96) {
        0..=3 => Call::Keep,
        4 => Call::Load,
        5..=12 => Call::Mark(draws.below(6)),
        13..=16 => Call::ClosePoint,
        17..=24 => Call::Warm(Sets {
            reads: drawn_keys(draws)?,
            writes: drawn_keys(draws)?,
        }),
        25..=48 => Call::Cool(drawn_key(draws)),
        49..=52 => Call::Reserve(draws.below(30) as usize),
        53..=56 => Call::ReserveTooMuch,
        57..=58 => Call::KeepPoint,
        _ => return drawn_write(draws),
    };
    Ok(call)
}

/// The call happens at a keeper.
pub(crate) fn make<S: Rows<u64>>(
    call: &Call,
    rows: &mut S,
    kept: &mut Snapshot<u64>,
) -> Result<(), Fault> {
    match call {
        Call::Keep => *kept = rows.snapshot()?,
        Call::KeepPoint => *kept = rows.point()?,
        Call::Load => rows.load(kept)?,
        Call::Mark(epoch) => rows.mark(*epoch)?,
        Call::ClosePoint => rows.close_point()?,
        Call::Warm(sets) => rows.warm(sets)?,
        Call::Cool(key) => rows.cool(key)?,
        Call::Reserve(count) => rows.reserve(*count)?,
        Call::ReserveTooMuch => rows.reserve(TOO_MANY)?,
        Call::Write(place, writes) => {
            rows.reserve(writes.len())?;
            rows.put_all(*place, writes);
        }
    }
    Ok(())
}
