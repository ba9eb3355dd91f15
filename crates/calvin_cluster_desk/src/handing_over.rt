//! What couriers bring, and nodes that come back.
use crate::office::Office;
use crate::receipt::Founding;
use calvin_app::App;
use calvin_lock::Locks;
use calvin_node::Act;
use calvin_store::Rows;
use calvin_types::NodeId;
use calvin_world::Event;

impl<A: App + Drop, L: Locks + Drop, S: Rows<A::Row> + Drop, J: Founding> Office<A, L, S, J> {
    /// A courier's errand is done: its packet is delivered as often as the drill says.
    pub fn hand_over(&mut self, number: usize) {
        for _ in 0..self.drill.times(number) {
            self.deliver(number);
            self.restart_if_due();
            self.delivered = self.delivered.saturating_add(1);
        }
        self.is_back();
    }

    /// The node restarts that does with this delivery, if one does.
    fn restart_if_due(&mut self) {
        if let Some(id) = self.restarts_now() {
            self.restart(id);
        }
    }

    /// The node that restarts with this delivery, if one does.
    fn restarts_now(&self) -> Option<NodeId> {
        let before = self.drill.restarts_before(self.delivered)?;
        let first = self.seats.partitions as usize;
        let others = self.seats.seats.len().saturating_sub(first);
        let at = first.saturating_add(before.checked_rem(others)?);
        let seat = self.seats.seats.get(at)?;
        Some(seat.id)
    }

    /// A node loses all but its durable record, and comes back from it: it has begun nothing, what was to be run there isn't any
    /// more, and rows that came early are lost. What it lacks it asks for once nothing is under way.
    pub(crate) fn restart(&mut self, id: NodeId) {
        if self.desk.record(&Event::At(id, Act::Restart)).is_err() {
            return;
        }
        self.rounds = 0;
        self.jobs.retain(|job| job.0 != id);
        let merged = self.epochs_at_end(id);
        if let Some(seat) = self.seat(id) {
            seat.merged = merged;
            seat.last = None;
            seat.running = 0;
            seat.early.clear();
        }
        self.look_where_it_stands(id);
    }

    /// How many epochs there are up to the end of that at which a node stands.
    fn epochs_at_end(&self, id: NodeId) -> u64 {
        match self.node(id) {
            Some(node) => match node.stands_at() {
                Some(epoch) => epoch.saturating_add(1),
                None => 0,
            },
            None => 0,
        }
    }
}
