//! What nodes do as packets reach them: epochs are merged, and requests begin.
use crate::office::Office;
use crate::receipt::Founding;
use calvin_app::App;
use calvin_lock::Locks;
use calvin_node::Act;
use calvin_node_packets::{Address, Outbox, Sent};
use calvin_store::Rows;
use calvin_synod::Message;
use calvin_types::{Fault, NodeId, Place};
use calvin_world::Event;

/// So few requests of a node have to be under way that more are looked for among all that have their locks.
const FEW: usize = 16;
/// So many of these are looked at.
const MOST_LOOKED_AT: usize = 64;

/// What a packet may bring about at the node that it is for.
#[derive(Clone, Copy)]
enum Brings {
    /// A request has the rows that it awaits.
    Rows(Place),
    /// An epoch can be merged.
    Batch,
    /// Packets alone.
    Packets,
}

fn what_comes_of<A: App>(sent: &Sent<'_, A::Args, A::Row, A::Reply>) -> Brings {
    match sent {
        Sent::Reads(place, _) => Brings::Rows(*place),
        Sent::Synod(Message::Accepted { .. }) | Sent::Decided(..) => Brings::Batch,
        _ => Brings::Packets,
    }
}

/// The node that a packet is for, and what it may bring about there.
fn aim<A: App>(packets: &Outbox<A>, number: usize) -> Option<(NodeId, Brings)> {
    match packets.address(number)? {
        Address::AtNode(id) => Some((id, what_comes_of::<A>(&packets.sent(number)?))),
        Address::AtClient(_) => None,
    }
}

impl<A: App + Drop, L: Locks + Drop, S: Rows<A::Row> + Drop, J: Founding> Office<A, L, S, J> {
    /// A packet is delivered, and its node does what it can then. One with rows for a request that hasn't asked for its locks yet
    /// waits until its epoch is merged.
    pub(crate) fn deliver(&mut self, number: usize) {
        let Some((id, brings)) = aim(self.world().packets(), number) else {
            return;
        };
        let done = self.desk.record(&Event::Deliver(number));
        match (done, brings) {
            (Ok(_), Brings::Rows(place)) => self.run_if_due(id, place),
            (Ok(_), Brings::Batch) => self.go_on(id),
            (Err(Fault::NotAwaited), Brings::Rows(place)) => self.keep_early(id, place, number),
            _ => {}
        }
    }

    fn keep_early(&mut self, id: NodeId, place: Place, number: usize) {
        let Some(seat) = self.seat(id) else {
            return;
        };
        if place.epoch >= seat.merged {
            let _kept = seat.early.push((place.epoch, number));
        }
    }

    /// A node merges each epoch that it can; its requests ask for their locks and begin.
    pub(crate) fn go_on(&mut self, id: NodeId) {
        for _ in 0..u64::MAX {
            if self.desk.record(&Event::At(id, Act::Merge)).is_err() {
                break;
            }
            self.rounds = 0;
            self.admit(id);
            self.close_if_due(id);
        }
    }

    /// The requests of an epoch that was merged ask for their locks, rows that came early are taken, and those begin that can.
    fn admit(&mut self, id: NodeId) {
        self.lock_all(id);
        if let Some(seat) = self.seat(id) {
            seat.merged = seat.merged.saturating_add(1);
        }
        self.take_early(id);
        self.begin_new(id);
        self.look_where_it_stands(id);
    }

    /// The requests of a node that were merged and haven't asked for their locks do so.
    pub(crate) fn lock_all(&mut self, id: NodeId) {
        for _ in 0..u64::MAX {
            if self.desk.record(&Event::At(id, Act::Lock)).is_err() {
                break;
            }
        }
    }

    /// Rows that came early for requests of epochs that are merged now are delivered again.
    fn take_early(&mut self, id: NodeId) {
        for _ in 0..u64::MAX {
            let Some(number) = self.next_early(id) else {
                break;
            };
            let _taken = self.desk.record(&Event::Deliver(number));
        }
    }

    fn next_early(&mut self, id: NodeId) -> Option<usize> {
        let seat = self.seat(id)?;
        let merged = seat.merged;
        let at = seat.early.iter().position(|it| it.0 < merged)?;
        let (_epoch, number) = seat.early.swap_remove(at);
        Some(number)
    }

    /// The requests behind those that were looked at before begin, where they have their locks.
    fn begin_new(&mut self, id: NodeId) {
        for _ in 0..u64::MAX {
            let last = match self.seat(id) {
                Some(seat) => seat.last,
                None => return,
            };
            let Some(place) = self.ready_after(id, last) else {
                break;
            };
            if let Some(seat) = self.seat(id) {
                seat.last = Some(place);
            }
            self.begin(id, place);
        }
    }

    /// The least place of a node after another whose request has its locks and isn't done.
    pub(crate) fn ready_after(&self, id: NodeId, after: Option<Place>) -> Option<Place> {
        self.node(id)?.first_ready(after)
    }

    /// After a request is done, the next one begins if it waited for it; and where few are under way, each that can.
    pub(crate) fn begin_after(&mut self, id: NodeId, place: Place) {
        let running = match self.seat(id) {
            Some(seat) => seat.running,
            None => return,
        };
        if running <= FEW {
            self.begin_ready(id, None, MOST_LOOKED_AT);
        } else {
            self.begin_ready(id, Some(place), 1);
        }
    }

    /// The first requests of a node behind a place that have their locks begin, where they haven't.
    pub(crate) fn begin_ready(&mut self, id: NodeId, after: Option<Place>, most: usize) {
        let mut after = after;
        for _ in 0..most {
            let Some(place) = self.ready_after(id, after) else {
                break;
            };
            if let Err(Fault::NotReady) = self.desk.book.job(id, place) {
                self.begin(id, place);
            }
            after = Some(place);
        }
    }

    /// The request at a place begins, and is to be run if its rows are there.
    pub(crate) fn begin(&mut self, id: NodeId, place: Place) {
        if self.desk.record(&Event::At(id, Act::Begin(place))).is_err() {
            return;
        }
        match self.desk.book.job(id, place) {
            Ok(_) => {
                self.count_running(id);
                self.queue(id, place);
            }
            Err(Fault::ReadsMissing) => self.count_running(id),
            Err(_) => self.look_where_it_stands(id),
        }
    }

    fn count_running(&mut self, id: NodeId) {
        if let Some(seat) = self.seat(id) {
            seat.running = seat.running.saturating_add(1);
        }
    }

    /// The request at a place is to be run, if its rows are there.
    pub(crate) fn run_if_due(&mut self, id: NodeId, place: Place) {
        if self.desk.book.job(id, place).is_ok() {
            self.queue(id, place);
        }
    }

    fn queue(&mut self, id: NodeId, place: Place) {
        if self.jobs.push_back((id, place)).is_err() {
            self.desk.is_short = true;
        }
    }
}
