//! Who looks at a node in each of its events.
use calvin_app::App;
use calvin_cluster::{Gate, Open};
use calvin_histories::LockedNode;
use calvin_lock::Locks;
use calvin_store::Rows;
use calvin_wide_desk::Watch;

/// A gate that is lent a node too, under the node's own lock alone, once in each event that takes effect there. It is called with
/// that lock held, so that it must not call the store.
pub trait WideGate<A: App + Drop, L: Locks + Drop, S: Rows<A::Row> + Drop>: Gate {
    fn inside(&self, node: &LockedNode<A, L, S>);
}

impl<A: App + Drop, L: Locks + Drop, S: Rows<A::Row> + Drop> WideGate<A, L, S> for Open {
    fn inside(&self, _node: &LockedNode<A, L, S>) {}
}

/// The gate of a store, for its nodes.
#[derive(Drop)]
pub(crate) struct Inside<'a, G> {
    pub gate: &'a G,
}

impl<'a, A, L, S, G> Watch<A, L, S> for Inside<'a, G>
where
    A: App + Drop,
    L: Locks + Drop,
    S: Rows<A::Row> + Drop,
    G: WideGate<A, L, S>,
{
    fn inside(&self, node: &LockedNode<A, L, S>) {
        self.gate.inside(node);
    }
}
