//! A gate of a store with a lock for each node.
use calvin_app::App;
use calvin_histories::LockedNode;
use calvin_lock::Locks;
use calvin_store::Rows;
use calvin_types::{NodeId, Place};
use calvin_wide::{Gate, WideGate};

/// A gate that isn't shown the nodes.
#[derive(Drop)]
pub(crate) struct Outside<G: Gate> {
    pub gate: G,
}

impl<G: Gate> Gate for Outside<G> {
    fn before(&self, id: NodeId, place: Place) {
        self.gate.before(id, place);
    }

    fn after(&self, id: NodeId, place: Place) {
        self.gate.after(id, place);
    }
}

impl<A: App + Drop, L: Locks + Drop, S: Rows<A::Row> + Drop, G: Gate> WideGate<A, L, S>
    for Outside<G> {
    fn inside(&self, _node: &LockedNode<A, L, S>) {}
}
