//! When batches are closed and proposed.
use crate::office::Office;
use crate::receipt::Founding;
use calvin_app::App;
use calvin_lock::Locks;
use calvin_node::Act;
use calvin_store::Rows;
use calvin_types::{NodeId, Slot};
use calvin_world::Event;

impl<A: App + Drop, L: Locks + Drop, S: Rows<A::Row> + Drop, J: Founding> Office<A, L, S, J> {
    /// Whether a node holds the batch of its own group that it closed last, or closed none: then the next one is due.
    fn is_decided(&self, id: NodeId) -> bool {
        let Some(node) = self.node(id) else {
            return false;
        };
        match node.next_epoch() {
            Some(0) => true,
            Some(next) => {
                let slot = Slot {
                    epoch: next - 1,
                    group: id.partition,
                };
                node.held(slot).is_some()
            }
            None => false,
        }
    }

    /// How many requests are queued at a node.
    pub(crate) fn queued(&self, id: NodeId) -> usize {
        match self.node(id) {
            Some(node) => node.queued(),
            None => 0,
        }
    }

    /// The epoch that a node closes next, if one is left.
    pub(crate) fn next_epoch(&self, id: NodeId) -> Option<u64> {
        self.node(id)?.next_epoch()
    }

    /// A node closes its next batch, if requests are queued there and its last batch is decided: so that one batch of a node is
    /// agreed on at a time, and what comes meanwhile joins the next one.
    pub(crate) fn close_if_due(&mut self, id: NodeId) {
        if self.queued(id) > 0 && self.is_decided(id) {
            self.close(id);
        }
    }

    /// A node closes its next batch and proposes it; the other groups close theirs of that epoch.
    pub(crate) fn close(&mut self, id: NodeId) {
        let Some(epoch) = self.next_epoch(id) else {
            return;
        };
        if self.desk.record(&Event::At(id, Act::Close)).is_err() {
            return;
        }
        let _proposed = self.desk.record(&Event::At(id, Act::Propose(epoch)));
        self.close_others(id.partition, epoch);
    }

    /// The nodes of replica 0 of all other groups close their batches up to an epoch that a node of this group closed.
    pub(crate) fn close_others(&mut self, group: u8, epoch: u64) {
        for partition in 0..self.seats.partitions {
            if partition != group {
                self.close_up_to(partition, epoch);
            }
        }
    }

    /// The node of replica 0 of a group closes its batches up to an epoch, and proposes them.
    fn close_up_to(&mut self, partition: u8, epoch: u64) {
        let id = NodeId {
            replica: 0,
            partition,
        };
        for _ in 0..u64::MAX {
            let Some(next) = self.next_epoch(id) else {
                break;
            };
            if next > epoch {
                break;
            }
            if self.desk.record(&Event::At(id, Act::Close)).is_err() {
                break;
            }
            let _proposed = self.desk.record(&Event::At(id, Act::Propose(next)));
        }
    }
}
