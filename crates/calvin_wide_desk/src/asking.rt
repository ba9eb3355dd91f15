//! What is asked for again where nothing is under way: batches, ballots and rows.
use crate::founding::WideFounding;
use crate::post::Post;
use crate::watching::Watch;
use calvin_app::App;
use calvin_lock::Locks;
use calvin_node::Act;
use calvin_store::Rows;
use calvin_types::{Fault, NodeId, Place, Slot};

/// Of so many epochs a node asks for batches at a time.
const MOST_EPOCHS_ASKED: u64 = 64;

impl<A: App + Drop, L: Locks + Drop, S: Rows<A::Row> + Drop, J: WideFounding> Post<A, L, S, J> {
    /// How many epochs the node has closed, or knows as decided.
    pub fn epochs(&self) -> u64 {
        self.node().next_epoch().unwrap_or(0)
    }

    /// The node closes what is queued there, and at replica 0 as many epochs as any node did; goes on; and asks for what it lacks of
    /// these, if it doesn't stand at the end of them. Who is asked for a batch depends on how often that was done before.
    pub fn ask<W: Watch<A, L, S>>(&mut self, epochs: u64, round: u32, watch: &W) {
        if self.node().queued() > 0 {
            self.close(watch);
        }
        if self.id.replica == 0 {
            self.close_up_to(epochs, watch);
        }
        self.go_on(watch);
        self.lock_all(watch);
        self.look_where_it_stands();
        if self.stands_at_end(epochs) {
            return;
        }
        let first = self.first_lacking(epochs);
        for epoch in first..epochs.min(first.saturating_add(MOST_EPOCHS_ASKED)) {
            self.ask_for_epoch(epoch, round, watch);
        }
        self.ask_for_rows(watch);
        self.look_where_it_stands();
    }

    /// Whether the node stands at the end of so many epochs.
    pub fn stands_at_end(&self, epochs: u64) -> bool {
        match self.node().stands_at() {
            Some(epoch) => epoch >= epochs.saturating_sub(1),
            None => epochs == 0,
        }
    }

    /// The first of so many epochs of which the node lacks a batch, from those on that it merged here.
    fn first_lacking(&self, epochs: u64) -> u64 {
        for epoch in self.merged..epochs {
            for group in 0..self.partitions {
                if !self.holds(Slot { epoch, group }) {
                    return epoch;
                }
            }
        }
        epochs
    }

    /// The node begins a new ballot for its own group's batch of an epoch, and asks for those of the others, where it holds none.
    fn ask_for_epoch<W: Watch<A, L, S>>(&mut self, epoch: u64, round: u32, watch: &W) {
        for group in 0..self.partitions {
            let slot = Slot { epoch, group };
            if self.holds(slot) {
                continue;
            }
            if group == self.id.partition {
                self.act(Act::Propose(epoch), watch);
            }
            let of = NodeId {
                replica: self.turn_of(round),
                partition: group,
            };
            self.act(Act::AskForBatch(slot, of), watch);
        }
    }

    /// The replica whose turn it is to be asked.
    fn turn_of(&self, round: u32) -> u8 {
        let at = u32::from(self.id.replica).wrapping_add(round);
        match at.checked_rem(u32::from(self.replicas)) {
            Some(replica) => replica as u8,
            None => 0,
        }
    }

    /// The requests that have their locks begin if they haven't, are run if they can be, and ask for the rows that they await.
    fn ask_for_rows<W: Watch<A, L, S>>(&mut self, watch: &W) {
        let mut after = None;
        for _ in 0..u64::MAX {
            let Some(place) = self.node().first_ready(after) else {
                break;
            };
            self.ask_for_place(place, watch);
            after = Some(place);
        }
    }

    fn ask_for_place<W: Watch<A, L, S>>(&mut self, place: Place, watch: &W) {
        match self.node().job(place) {
            Ok(_) => self.run_if_due(place),
            Err(Fault::ReadsMissing) => {
                self.act(Act::AskForReads(place, 0), watch);
            }
            Err(_) => self.begin(place, watch),
        }
    }
}
