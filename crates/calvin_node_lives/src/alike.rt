//! Whether nodes and what they sent are alike.
use crate::nodes::ScarceNode;
use crate::shown::{is_same, key, place};
use calvin_app::{Kv, is_same_job};
use calvin_node_packets::Outbox;
use calvin_store::Rows;
use calvin_types::{Place, Slot};

/// The numbers of the keys that the lives of nodes use.
const KEYS: [u64; 2] = [1, 2];

/// As many epochs as they have, and groups.
const EPOCHS: u64 = 3;

const GROUPS: u8 = 2;

/// Whether two lists have the same packets.
pub(crate) fn have_sent_same(some: &Outbox<Kv>, others: &Outbox<Kv>) -> bool {
    some.len() == others.len() && (0..some.len()).all(|number| is_same(some, others, number))
}

/// Whether two nodes hold the same batches for an epoch.
fn hold_same_batches(one: &ScarceNode, other: &ScarceNode, epoch: u64) -> bool {
    for group in 0..GROUPS {
        let slot = Slot { epoch, group };
        if one.held(slot) != other.held(slot) {
            return false;
        }
    }
    true
}

/// Whether the same is to be run at a place of two nodes, or both refuse to tell for the same cause.
fn have_same_due(one: &ScarceNode, other: &ScarceNode, at: Place) -> bool {
    match (one.job(at), other.job(at)) {
        (Ok(due), Ok(other)) => is_same_job::<Kv>(&due, &other),
        (Err(fault), Err(other)) => fault == other,
        (Ok(_), Err(_)) | (Err(_), Ok(_)) => false,
    }
}

/// Whether two nodes have as many rows, and the same rows for the keys of the lives.
fn have_same_rows(one: &ScarceNode, other: &ScarceNode) -> bool {
    for id in KEYS {
        if one.rows().get(&key(id)) != other.rows().get(&key(id)) {
            return false;
        }
    }
    one.rows().len() == other.rows().len()
}

/// Whether two nodes tell the same of themselves: the epoch that they close next, how many requests are queued, the batches
/// that they hold, what is ready and what is to be run, where they stand, and their rows.
pub(crate) fn tell_same(one: &ScarceNode, other: &ScarceNode) -> bool {
    for epoch in 0..EPOCHS {
        if !hold_same_batches(one, other, epoch) || !have_same_due(one, other, place(epoch, 0)) {
            return false;
        }
    }
    one.id() == other.id()
        && one.next_epoch() == other.next_epoch()
        && one.queued() == other.queued()
        && one.first_ready(None) == other.first_ready(None)
        && one.stands_at() == other.stands_at()
        && have_same_rows(one, other)
}
