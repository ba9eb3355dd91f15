//! Whether what callers were handed is right.
use crate::calling::Handed;
use calvin_app::{Kv, KvReply, KvRequest};
use calvin_book::StoreBook;
use calvin_histories::{Entry, History};
use calvin_node::Act;
use calvin_stress_draws::{Run, right_replies};
use calvin_types::{Fault, NodeId};
use calvin_wide::{Entered, WideFounding};
use std::alloc::Global;

/// The number of a node among all, replica by replica.
fn number_of(run: &Run, id: NodeId) -> usize {
    id.replica as usize * run.partitions as usize + id.partition as usize
}

/// Whether an entry of a node's history submits this request.
fn submits(entry: &Entry<KvRequest, u64, KvReply>, entered: &Entered<KvRequest>) -> bool {
    match entry {
        Entry::Own(Act::Submit(txn)) => txn.id == entered.txn.id,
        _ => false,
    }
}

/// Whether each request was submitted where its receipt says.
pub(crate) fn are_submitted<J: WideFounding>(
    run: &Run,
    histories: &[History<Kv>],
    handed: &[Handed<J>],
) -> bool {
    for one in handed {
        let entered = one.ticket.entered();
        let Some(history) = histories.get(number_of(run, entered.node)) else {
            return false;
        };
        match history.get(entered.entry) {
            Some(entry) if submits(entry, entered) => {}
            _ => return false,
        }
    }
    true
}

/// Whether each reply of the book is that of the serial run of all that stand before it, and each caller was handed the answer of its
/// own request's place.
pub(crate) fn are_answered<J: WideFounding>(
    alloc: Global,
    run: &Run,
    book: &StoreBook<Kv>,
    handed: &[Handed<J>],
) -> Result<bool, Fault> {
    let Some(by_id) = right_replies(alloc, run.number, book)? else {
        return Ok(false);
    };
    for one in handed {
        let Some(answer) = &one.heard else {
            continue;
        };
        let replied = answer.replied();
        let id = one.ticket.entered().txn.id;
        let Some(reply) = by_id.get(&id) else {
            return Ok(false);
        };
        if replied.answer != reply.answer || replied.ticket.txn.id != id {
            return Ok(false);
        }
    }
    Ok(true)
}
