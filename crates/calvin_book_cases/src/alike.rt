//! Books side by side.
use crate::books::KvBook;
use calvin_app::Kv;
use calvin_lock::QueueLocks;
use calvin_node::Node;
use calvin_node_packets::Outbox;
use calvin_store::{ColdRows, Rows};
use calvin_types::{Key, Slot};

type KvNode = Node<Kv, QueueLocks, ColdRows<u64>>;

/// The keys, epochs and groups of the lives.
const KEYS: [u64; 2] = [1, 2];

const EPOCHS: u64 = 2;

const GROUPS: u8 = 2;

/// Whether two nodes have as many rows, the same under the keys of the lives, and the same of them hot.
fn have_same_rows(one: &KvNode, other: &KvNode) -> bool {
    for id in KEYS {
        let key = Key { table: 0, id };
        let (rows, others) = (one.rows(), other.rows());
        if rows.get(&key) != others.get(&key) || rows.is_hot(&key) != others.is_hot(&key) {
            return false;
        }
    }
    one.rows().len() == other.rows().len() && one.rows().marked() == other.rows().marked()
}

/// Whether two nodes hold the same batches.
fn hold_same_batches(one: &KvNode, other: &KvNode) -> bool {
    for epoch in 0..EPOCHS {
        for group in 0..GROUPS {
            let slot = Slot { epoch, group };
            if one.held(slot) != other.held(slot) {
                return false;
            }
        }
    }
    true
}

/// Whether two nodes tell the same of themselves.
fn tell_same(one: &KvNode, other: &KvNode) -> bool {
    one.next_epoch() == other.next_epoch()
        && one.queued() == other.queued()
        && one.first_ready(None) == other.first_ready(None)
        && one.stands_at() == other.stands_at()
        && hold_same_batches(one, other)
        && have_same_rows(one, other)
}

/// Whether the packets of a number, which is there in both, go the same way.
fn go_same_way(some: &Outbox<Kv>, others: &Outbox<Kv>, number: usize) -> bool {
    number < some.len()
        && number < others.len()
        && some.sender(number) == others.sender(number)
        && some.address(number) == others.address(number)
}

/// Whether two books have the same events, as many packets that go the same ways, and nodes that tell the same of themselves.
pub(crate) fn is_alike(one: &KvBook, other: &KvBook) -> bool {
    let (world, beside) = (one.world(), other.world());
    (0..one.events().len()).all(|number| one.events().get(number) == other.events().get(number))
        && one.events().len() == other.events().len()
        && world.packets().len() == beside.packets().len()
        && (0..world.packets().len()).all(|number| go_same_way(
            world.packets(),
            beside.packets(),
            number,
        ))
        && world
            .nodes()
            .iter()
            .zip(beside.nodes().iter())
            .all(|(one, other)| tell_same(one, other))
}
