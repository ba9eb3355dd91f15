//! What stands around the running of a request.
use calvin_types::{NodeId, Place};

/// What a worker calls before and after it runs the request at a place of a node, outside every lock.
pub trait Gate: Send + Sync + Drop {
    fn before(&self, id: NodeId, place: Place);

    fn after(&self, id: NodeId, place: Place);
}

/// A gate that holds nobody.
#[derive(Clone, Copy, Debug, PartialEq, Eq)]
pub struct Open;

impl Gate for Open {
    fn before(&self, _id: NodeId, _place: Place) {}

    fn after(&self, _id: NodeId, _place: Place) {}
}
