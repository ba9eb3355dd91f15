//! The desk, and what the threads have to do for its nodes.
ghost use Rattle.std.specs.Prelude.{◌≡◌, ◌≢◌, IfOk, IfSome, None};
ghost use Rattle.calvin_cluster_desk.specs.Receipts.{told_epoch};

use crate::desk::Desk;
use crate::drill::Drill;
use crate::errands::Errand;
use crate::receipt::{Founding, Ticket, Told};
use crate::seat::{Seat, Seats};
use calvin_app::{Answer, App, Computed, Job};
use calvin_book::Look;
use calvin_lock::Locks;
use calvin_node::Node;
use calvin_node_packets::Address;
use calvin_store::Rows;
use calvin_types::{Fault, NodeId, Place, Txn};
use calvin_world::World;
use std::alloc::Global;
use std::collections::VecDeque;

/// The desk, and what is under way. Which events it lets happen, and when, is its own choice: what is promised is promised of any.
#[derive(Drop)]
pub struct Office<A: App + Drop, L: Locks + Drop, S: Rows<A::Row> + Drop, J: Founding> {
    pub desk: Desk<A, L, S, J>,
    pub(crate) seats: Seats,
    /// Requests that can be run, and were not handed out.
    pub(crate) jobs: VecDeque<(NodeId, Place)>,
    /// How many packets were handed out, in the order in which they were sent.
    handed: usize,
    /// How many errands were handed out and aren't done.
    under_way: usize,
    /// How often what is missing was asked for since something came of it.
    pub(crate) rounds: u32,
    pub(crate) drill: Drill,
    /// How many packets couriers have delivered, each as often as it came.
    pub(crate) delivered: usize,
    /// Whether a request was answered, and whether a node came to stand at a later epoch, since that was asked last.
    news: News,
}

/// What those may want to know of who wait.
#[derive(Clone, Copy, Debug, PartialEq, Eq)]
pub struct News {
    pub answered: bool,
    pub stood: bool,
}

/// So often what failed for want of memory is tried.
pub const MOST_TRIES: usize = 64;

const NO_NEWS: News = News {
    answered: false,
    stood: false,
};

const ALL_NEWS: News = News {
    answered: true,
    stood: true,
};

impl<A: App + Drop, L: Locks + Drop, S: Rows<A::Row> + Drop, J: Founding> Office<A, L, S, J> {
    /// An office in which nothing is under way: of the packets that were sent before none is handed out. Each node does what it can,
    /// and what the drill says goes wrong.
    pub fn new(
        alloc: Global,
        desk: Desk<A, L, S, J>,
        seats: Seats,
        drill: Drill,
    ) -> Office<A, L, S, J> {
        let handed = desk.book.world().packets().len();
        Office {
            desk,
            seats,
            jobs: VecDeque::new(alloc),
            handed,
            under_way: 0,
            rounds: 0,
            drill,
            delivered: 0,
            news: NO_NEWS,
        }
    }

    /// The world as it stands.
    pub fn world(&self) -> &World<A, L, S> {
        self.desk.book.world()
    }

    pub(crate) fn node(&self, id: NodeId) -> Option<&Node<A, L, S>> {
        self.desk.book.world().node(id)
    }

    pub(crate) fn seat(&mut self, id: NodeId) -> Option<&mut Seat> {
        let at = self.seats.index(id);
        self.seats.seats.get_mut(at)
    }

    /// A request is submitted, and its batch is closed if the node's last one is decided. Refused as `Desk::submit` is.
    pub fn submit(
        &mut self,
        told: &Told<A, J>,
        id: NodeId,
        txn: Txn<A::Args>,
    ) -> Result<Ticket<A, J>, Fault>
        ensures { IfOk result (λ t. (t.node ≡ id) × (t.txn ≡ txn) × (t.told ≡ told_epoch told.now.report)) }
    {
        let ticket = self.desk.submit(told, id, txn)?;
        self.rounds = 0;
        self.close_if_due(id);
        Ok(ticket)
    }

    /// The next errand, if there is one: it is under way from now on. Where nothing is under way and nothing is to be done, what is
    /// missing is asked for first.
    pub fn next_errand(&mut self) -> Option<Errand> {
        let mut errand = self.waiting_errand();
        if errand.is_none() && self.under_way == 0 && !self.desk.closed {
            errand = self.asked_errand();
        }
        if errand.is_some() {
            self.under_way = self.under_way.saturating_add(1);
        }
        errand
    }

    /// What comes of asking for what is missing. Where nothing does, those who wait look once more. Where there is no memory to ask for
    /// it, that is tried 64 times, and then nothing is taken any more: nobody would come back to ask again.
    fn asked_errand(&mut self) -> Option<Errand> {
        self.news = ALL_NEWS;
        for _ in 0..MOST_TRIES {
            self.desk.is_short = false;
            self.ask_for_all();
            let errand = self.waiting_errand();
            if errand.is_some() {
                return errand;
            }
            if self.desk.is_short {
                self.rounds = self.rounds.saturating_sub(1);
            } else if !self.is_missing() {
                return None;
            }
        }
        if self.desk.is_short {
            self.close_down();
        }
        None
    }

    /// A request that can be run, or the next packet for a node.
    fn waiting_errand(&mut self) -> Option<Errand> {
        if let Some((id, place)) = self.jobs.pop_front() {
            return Some(Errand::Run(id, place));
        }
        for number in self.handed..self.world().packets().len() {
            self.handed = number + 1;
            if self.is_for_a_node(number) {
                return Some(Errand::Deliver(number));
            }
            self.news.answered = true;
        }
        None
    }

    fn is_for_a_node(&self, number: usize) -> bool {
        matches!(
            self.world().packets().address(number),
            Some(Address::AtNode(_))
        )
    }

    /// An errand is done, or was lost.
    pub fn is_back(&mut self) {
        self.under_way = self.under_way.saturating_sub(1);
    }

    /// What happened since this was asked last.
    pub fn take_news(&mut self) -> News {
        let news = self.news;
        self.news = NO_NEWS;
        news
    }

    /// Nothing is taken any more, and nobody waits.
    pub fn close_down(&mut self) {
        self.desk.closed = true;
    }

    /// Whether nothing is taken any more.
    pub fn is_closed(&self) -> bool {
        self.desk.closed
    }

    /// The answer to a ticket's request, and what its caller is told by it, once there is one and while requests are taken.
    pub fn answer(&self, ticket: &Ticket<A, J>) -> Option<(Answer<A::Reply>, Told<A, J>)>
        ensures { IfSome result (λ r. IfSome r.1.report (λ a. (a.submission ≡ ticket.now) × (a.answer ≡ r.0)) × (r.1.report ≢ None)) }
    {
        if self.is_closed() {
            return None;
        }
        self.desk.answer(ticket)
    }

    /// Whether a ticket's request has an answer among the packets from a number on, which goes on to where the next look begins.
    pub fn has_answer(&self, ticket: &Ticket<A, J>, from: &mut usize) -> bool {
        match self.desk.book.look(ticket.submission(), *from) {
            Look::Found(..) => true,
            Look::NotYet(next) => {
                *from = next;
                false
            }
        }
    }

    /// The desk alone.
    pub fn into_desk(self) -> Desk<A, L, S, J>
        ensures { result ≡ self.desk }
    {
        let Office { desk, .. } = self;
        desk
    }

    /// What is to be run at a place of a node, if that is known.
    pub fn job(&self, id: NodeId, place: Place) -> Option<Job<A::Args, A::Row>> {
        self.desk.book.job(id, place).ok()
    }

    /// Takes what came of a job, if it is still the one that is due, and lets those begin that waited for it.
    pub fn finish(&mut self, id: NodeId, computed: &Computed<A>) {
        if self.desk.finish(id, computed).is_err() {
            return;
        }
        self.rounds = 0;
        if let Some(seat) = self.seat(id) {
            seat.running = seat.running.saturating_sub(1);
        }
        self.begin_after(id, computed.job.place);
        self.look_where_it_stands(id);
    }

    /// Notes where a node stands.
    pub(crate) fn look_where_it_stands(&mut self, id: NodeId) {
        let now = match self.node(id) {
            Some(node) => node.stands_at(),
            None => None,
        };
        let Some(seat) = self.seat(id) else {
            return;
        };
        if seat.stands != now {
            seat.stands = now;
            self.news.stood = true;
        }
    }

    /// Whether every node stands at an epoch or at a later one.
    pub fn all_stand(&self, epoch: u64) -> bool {
        for node in self.world().nodes() {
            match node.stands_at() {
                Some(at) if at >= epoch => {}
                _ => return false,
            }
        }
        true
    }
}
