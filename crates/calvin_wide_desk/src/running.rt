//! What a node does as packets reach it: epochs are merged, and requests begin.
use crate::founding::WideFounding;
use crate::post::Post;
use crate::watching::Watch;
use calvin_app::App;
use calvin_histories::Entry;
use calvin_lock::Locks;
use calvin_node::Act;
use calvin_node_packets::{Content, Packet};
use calvin_store::Rows;
use calvin_synod::Message;
use calvin_types::{Fault, Place};
use calvin_world::PacketName;

/// So few requests of a node have to be under way that more are looked for among all that have their locks.
const FEW: usize = 16;
/// So many of these are looked at.
const MOST_LOOKED_AT: usize = 64;

/// What a packet may bring about at the node that it is for.
#[derive(Clone, Copy)]
enum Brings {
    /// A request has the rows that it awaits.
    Rows(Place),
    /// An epoch can be merged.
    Batch,
    /// Packets alone.
    Packets,
}

fn what_comes_of<Args: Copy, Row: Copy, Reply: Copy>(
    content: &Content<Args, Row, Reply>,
) -> Brings {
    match content {
        Content::Reads(place, _) => Brings::Rows(*place),
        Content::Synod(Message::Accepted { .. }) | Content::Decided(..) => Brings::Batch,
        _ => Brings::Packets,
    }
}

/// Whether rows came for a request of the first epochs, so many.
fn is_of<Args: Copy, Row: Copy, Reply: Copy>(entry: &Entry<Args, Row, Reply>, epochs: u64) -> bool {
    match entry {
        Entry::Came(_name, packet) => match &packet.content {
            Content::Reads(place, _) => place.epoch < epochs,
            _ => false,
        },
        Entry::Own(_) => false,
    }
}

impl<A: App + Drop, L: Locks + Drop, S: Rows<A::Row> + Drop, J: WideFounding> Post<A, L, S, J> {
    /// A packet comes that was sent under this name, and the node does what it can then. One with rows for a request that hasn't
    /// asked for its locks yet waits until its epoch is merged.
    pub fn deliver<W: Watch<A, L, S>>(
        &mut self,
        name: PacketName,
        packet: Packet<A::Args, A::Row, A::Reply>,
        watch: &W,
    ) {
        let brings = what_comes_of(&packet.content);
        match (self.receive(name, packet, watch), brings) {
            (Ok(()), Brings::Rows(place)) => self.run_if_due(place),
            (Ok(()), Brings::Batch) => self.go_on(watch),
            (Err((Fault::NotAwaited, Some(packet))), Brings::Rows(place)) => {
                self.keep_early(place, name, packet);
            }
            _ => {}
        }
    }

    /// A packet comes, and who looks is lent the node if that takes effect.
    fn receive<W: Watch<A, L, S>>(
        &mut self,
        name: PacketName,
        packet: Packet<A::Args, A::Row, A::Reply>,
        watch: &W,
    ) -> Result<(), (Fault, Option<Packet<A::Args, A::Row, A::Reply>>)> {
        match self.desk.receive(name, packet) {
            Ok(()) => {
                watch.inside(self.desk.locked());
                Ok(())
            }
            Err((fault, packet)) => {
                self.note(fault);
                Err((fault, packet))
            }
        }
    }

    fn keep_early(
        &mut self,
        place: Place,
        name: PacketName,
        packet: Packet<A::Args, A::Row, A::Reply>,
    ) {
        if place.epoch >= self.merged {
            if self.early.push(Entry::Came(name, packet)).is_err() {
                self.is_short = true;
            }
        }
    }

    /// The node merges each epoch that it can; its requests ask for their locks and begin.
    pub(crate) fn go_on<W: Watch<A, L, S>>(&mut self, watch: &W) {
        for _ in 0..u64::MAX {
            if !self.act(Act::Merge, watch) {
                break;
            }
            self.news.moved = true;
            self.admit(watch);
            self.close_if_due(watch);
        }
    }

    /// The requests of an epoch that was merged ask for their locks, rows that came early are taken, and those begin that can.
    fn admit<W: Watch<A, L, S>>(&mut self, watch: &W) {
        self.lock_all(watch);
        self.merged = self.merged.saturating_add(1);
        self.take_early(watch);
        self.begin_new(watch);
        self.look_where_it_stands();
    }

    /// The requests that were merged and haven't asked for their locks do so.
    pub(crate) fn lock_all<W: Watch<A, L, S>>(&mut self, watch: &W) {
        for _ in 0..u64::MAX {
            if !self.act(Act::Lock, watch) {
                break;
            }
        }
    }

    /// Rows that came early for requests of epochs that are merged now are taken.
    fn take_early<W: Watch<A, L, S>>(&mut self, watch: &W) {
        for _ in 0..u64::MAX {
            let Some(Entry::Came(name, packet)) = self.next_early() else {
                break;
            };
            let _taken = self.receive(name, packet, watch);
        }
    }

    fn next_early(&mut self) -> Option<Entry<A::Args, A::Row, A::Reply>> {
        let merged = self.merged;
        let at = self.early.iter().position(|it| is_of(it, merged))?;
        Some(self.early.swap_remove(at))
    }

    /// The requests behind those that were looked at before begin, where they have their locks.
    fn begin_new<W: Watch<A, L, S>>(&mut self, watch: &W) {
        for _ in 0..u64::MAX {
            let Some(place) = self.node().first_ready(self.last) else {
                break;
            };
            self.last = Some(place);
            self.begin(place, watch);
        }
    }

    /// After a request is done, the next one begins if it waited for it; and where few are under way, each that can.
    pub(crate) fn begin_after<W: Watch<A, L, S>>(&mut self, place: Place, watch: &W) {
        if self.running <= FEW {
            self.begin_ready(None, MOST_LOOKED_AT, watch);
        } else {
            self.begin_ready(Some(place), 1, watch);
        }
    }

    /// The first requests behind a place that have their locks begin, where they haven't.
    fn begin_ready<W: Watch<A, L, S>>(&mut self, after: Option<Place>, most: usize, watch: &W) {
        let mut after = after;
        for _ in 0..most {
            let Some(place) = self.node().first_ready(after) else {
                break;
            };
            if let Err(Fault::NotReady) = self.node().job(place) {
                self.begin(place, watch);
            }
            after = Some(place);
        }
    }

    /// The request at a place begins, and is to be run if its rows are there.
    pub(crate) fn begin<W: Watch<A, L, S>>(&mut self, place: Place, watch: &W) {
        if !self.act(Act::Begin(place), watch) {
            return;
        }
        match self.node().job(place) {
            Ok(_) => {
                self.running = self.running.saturating_add(1);
                self.queue(place);
            }
            Err(Fault::ReadsMissing) => self.running = self.running.saturating_add(1),
            Err(_) => self.look_where_it_stands(),
        }
    }

    /// The request at a place is to be run, if its rows are there.
    pub(crate) fn run_if_due(&mut self, place: Place) {
        if self.node().job(place).is_ok() {
            self.queue(place);
        }
    }

    fn queue(&mut self, place: Place) {
        if self.jobs.push_back(place).is_err() {
            self.is_short = true;
        }
    }
}
