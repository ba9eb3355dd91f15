//! What is asked for again where nothing is under way: batches, ballots and rows.
use crate::office::Office;
use crate::receipt::Founding;
use calvin_app::App;
use calvin_lock::Locks;
use calvin_node::Act;
use calvin_store::Rows;
use calvin_types::{Fault, NodeId, Place, Slot};
use calvin_world::Event;

/// So often what is missing is asked for where nothing comes of it.
const MOST_ROUNDS: u32 = 64;
/// Of so many epochs a node asks for batches at a time.
const MOST_EPOCHS_ASKED: u64 = 64;
/// So often the same is asked for at a time.
const MOST_TIMES: u32 = 3;

impl<A: App + Drop, L: Locks + Drop, S: Rows<A::Row> + Drop, J: Founding> Office<A, L, S, J> {
    /// Each node does what it can, and asks for what it lacks: unless that was done 64 times and nothing came of it.
    pub(crate) fn ask_for_all(&mut self) {
        if self.rounds >= MOST_ROUNDS {
            return;
        }
        self.rounds = self.rounds.saturating_add(1);
        self.close_all();
        let Some(epochs) = self.epochs() else {
            return;
        };
        for at in 0..self.seats.seats.len() {
            if let Some(seat) = self.seats.seats.get(at) {
                let id = seat.id;
                self.ask_at(id, epochs);
            }
        }
    }

    /// Whether some node doesn't stand at the end of what was closed, and what it lacks may still be asked for.
    pub(crate) fn is_missing(&self) -> bool {
        if self.rounds >= MOST_ROUNDS {
            return false;
        }
        let Some(epochs) = self.epochs() else {
            return false;
        };
        for seat in &self.seats.seats {
            if !self.stands_at_end(seat.id, epochs) {
                return true;
            }
        }
        false
    }

    /// How often the same is asked for at a time: once at first, and twice, three times and once again where nothing came of it.
    /// Where every so many packets are lost, what is lost would be the same each time else.
    fn times(&self) -> u32 {
        self.rounds.saturating_sub(1) % MOST_TIMES + 1
    }

    /// How many epochs were closed at some node, or are known as decided there.
    fn epochs(&self) -> Option<u64> {
        let mut most = None;
        for node in self.world().nodes() {
            most = most.max(node.next_epoch());
        }
        most
    }

    /// Each node with queued requests closes its batch, and each group closes up to the last epoch that another one closed.
    fn close_all(&mut self) {
        for at in 0..self.seats.seats.len() {
            let Some(seat) = self.seats.seats.get(at) else {
                break;
            };
            let id = seat.id;
            if self.queued(id) > 0 {
                self.close(id);
            }
            if let Some(next) = self.next_epoch(id) {
                if next > 0 {
                    self.close_others(id.partition, next - 1);
                }
            }
        }
    }

    /// A node goes on, and asks for what it lacks of so many epochs, if it doesn't stand at the end of them.
    fn ask_at(&mut self, id: NodeId, epochs: u64) {
        self.go_on(id);
        self.lock_all(id);
        self.look_where_it_stands(id);
        if self.stands_at_end(id, epochs) {
            return;
        }
        let first = self.first_lacking(id, epochs);
        for epoch in first..epochs.min(first.saturating_add(MOST_EPOCHS_ASKED)) {
            self.ask_for_epoch(id, epoch);
        }
        self.ask_for_rows(id);
        self.look_where_it_stands(id);
    }

    /// Whether a node stands at the end of so many epochs.
    fn stands_at_end(&self, id: NodeId, epochs: u64) -> bool {
        match self.node(id) {
            Some(node) => match node.stands_at() {
                Some(epoch) => epoch >= epochs.saturating_sub(1),
                None => epochs == 0,
            },
            None => true,
        }
    }

    /// The first of so many epochs of which a node lacks a batch, from those on that it merged here.
    fn first_lacking(&self, id: NodeId, epochs: u64) -> u64 {
        let merged = match self.seats.seats.get(self.seats.index(id)) {
            Some(seat) => seat.merged,
            None => 0,
        };
        for epoch in merged..epochs {
            for group in 0..self.seats.partitions {
                if !self.holds(id, Slot { epoch, group }) {
                    return epoch;
                }
            }
        }
        epochs
    }

    /// A node begins a new ballot for its own group's batch of an epoch, and asks for those of the others, where it holds none.
    fn ask_for_epoch(&mut self, id: NodeId, epoch: u64) {
        for group in 0..self.seats.partitions {
            let slot = Slot { epoch, group };
            if self.holds(id, slot) {
                continue;
            }
            if group == id.partition {
                let _proposed = self.desk.record(&Event::At(id, Act::Propose(epoch)));
            }
            if let Some(of) = self.holder(slot) {
                self.ask(id, Act::AskForBatch(slot, of));
            }
        }
    }

    /// A node asks for something as often as it is to be asked for now.
    fn ask(&mut self, id: NodeId, act: Act<A::Args>) {
        for _ in 0..self.times() {
            let _asked = self.desk.record(&Event::At(id, act));
        }
    }

    /// Whether a node holds the batch of a slot.
    fn holds(&self, id: NodeId, slot: Slot) -> bool {
        match self.node(id) {
            Some(node) => node.held(slot).is_some(),
            None => false,
        }
    }

    /// A node of the slot's group that holds its batch, if one does.
    fn holder(&self, slot: Slot) -> Option<NodeId> {
        for replica in 0..self.seats.replicas {
            let id = NodeId {
                replica,
                partition: slot.group,
            };
            if self.holds(id, slot) {
                return Some(id);
            }
        }
        None
    }

    /// The requests of a node that have their locks begin if they haven't, are run if they can be, and ask for the rows that they
    /// await.
    fn ask_for_rows(&mut self, id: NodeId) {
        let mut after = None;
        for _ in 0..u64::MAX {
            let Some(place) = self.ready_after(id, after) else {
                break;
            };
            self.ask_for_place(id, place);
            after = Some(place);
        }
    }

    fn ask_for_place(&mut self, id: NodeId, place: Place) {
        match self.desk.book.job(id, place) {
            Ok(_) => self.run_if_due(id, place),
            Err(Fault::ReadsMissing) => self.ask(id, Act::AskForReads(place, 0)),
            Err(_) => self.begin(id, place),
        }
    }
}
