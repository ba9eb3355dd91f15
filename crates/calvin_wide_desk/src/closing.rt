//! When batches are closed and proposed.
use crate::founding::WideFounding;
use crate::post::Post;
use crate::watching::Watch;
use calvin_app::App;
use calvin_lock::Locks;
use calvin_node::Act;
use calvin_store::Rows;
use calvin_types::Slot;

impl<A: App + Drop, L: Locks + Drop, S: Rows<A::Row> + Drop, J: WideFounding> Post<A, L, S, J> {
    /// Whether the node holds the batch that it closed last, or closed none: then the next one is due.
    fn is_decided(&self) -> bool {
        match self.node().next_epoch() {
            Some(0) => true,
            Some(next) => self.holds(Slot {
                epoch: next - 1,
                group: self.id.partition,
            }),
            None => false,
        }
    }

    /// Whether the node holds the batch of a slot.
    pub(crate) fn holds(&self, slot: Slot) -> bool {
        self.node().held(slot).is_some()
    }

    /// The node closes its next batch, if requests are queued there and its last batch is decided: so that one batch of a node is
    /// agreed on at a time, and what comes meanwhile joins the next one.
    pub(crate) fn close_if_due<W: Watch<A, L, S>>(&mut self, watch: &W) {
        if self.node().queued() > 0 && self.is_decided() {
            self.close(watch);
        }
    }

    /// The node closes its next batch and proposes it; the other groups are told.
    pub(crate) fn close<W: Watch<A, L, S>>(&mut self, watch: &W) {
        let Some(epoch) = self.node().next_epoch() else {
            return;
        };
        if !self.act(Act::Close, watch) {
            return;
        }
        self.act(Act::Propose(epoch), watch);
        self.told_closed = Some(epoch.saturating_add(1));
    }

    /// Another group closed so many epochs: the node closes as many, and proposes them.
    pub fn close_up_to<W: Watch<A, L, S>>(&mut self, epochs: u64, watch: &W) {
        for _ in 0..u64::MAX {
            let Some(next) = self.node().next_epoch() else {
                break;
            };
            if next >= epochs || !self.act(Act::Close, watch) {
                break;
            }
            self.act(Act::Propose(next), watch);
        }
    }
}
