//! Who looks at a node in each of its events.
use calvin_app::App;
use calvin_histories::LockedNode;
use calvin_lock::Locks;
use calvin_store::Rows;

/// Who is lent a node in each event that takes effect there, once it has.
pub trait Watch<A: App + Drop, L: Locks + Drop, S: Rows<A::Row> + Drop> {
    fn inside(&self, node: &LockedNode<A, L, S>);
}
