//! Whether the answers of a run are right.
use crate::calling::Seen;
use calvin_app::Kv;
use calvin_book::StoreBook;
use calvin_stress_draws::right_replies;
use calvin_types::Fault;
use std::alloc::Global;

/// Whether each reply is that of the serial run of all that stand before it, and each caller saw the answer of its request's place, at
/// an epoch above the one that it had been told of and not above the one that it was told.
pub(crate) fn is_right(
    alloc: Global,
    number: u64,
    book: &StoreBook<Kv>,
    seen: &[Seen],
) -> Result<bool, Fault> {
    let Some(by_id) = right_replies(alloc, number, book)? else {
        return Ok(false);
    };
    for one in seen {
        let Some(reply) = by_id.get(&one.id) else {
            return Ok(false);
        };
        let epoch = Some(reply.place.epoch);
        if one.answer != reply.answer || one.before >= epoch || one.after != epoch {
            return Ok(false);
        }
    }
    Ok(true)
}
