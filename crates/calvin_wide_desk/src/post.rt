//! A node's desk, and what is to be done for it.
ghost use Rattle.std.specs.Prelude.{◌≡◌, IfOk, IfSome};

use crate::desk::WideDesk;
use crate::founding::WideFounding;
use crate::receipt::{WideAnswer, WideTicket};
use crate::watching::Watch;
use calvin_app::{App, Computed, Job};
use calvin_histories::Entry;
use calvin_lock::Locks;
use calvin_node::{Act, Node};
use calvin_node_packets::{Address, Packet};
use calvin_store::Rows;
use calvin_types::{Config, Fault, NodeId, Place, RequestId, Txn};
use calvin_world::PacketName;
use std::alloc::Global;
use std::collections::{HashMap, VecDeque};

/// What comes to a node.
#[derive(Clone, Copy, Debug, PartialEq, Eq)]
pub enum Letter {
    /// The packet of this name.
    Packet(PacketName),
    /// Some node has closed so many epochs: those of replica 0 close as many.
    Closed(u64),
}

/// What is to be done outside the lock.
#[derive(Clone, Copy, Debug, PartialEq, Eq)]
pub enum Errand {
    /// A letter is brought to a node.
    Bring(NodeId, Letter),
    /// So many epochs were closed, which the nodes of replica 0 of all groups but this one are told of.
    TellClosed(u8, u64),
    /// The request at a place of the node is run.
    Run(Place),
}

/// What those may want to know of who wait.
#[derive(Clone, Copy, Debug, PartialEq, Eq)]
pub struct News {
    /// A request was answered.
    pub answered: bool,
    /// The node came to stand at a later epoch.
    pub stood: bool,
    /// Something came of what was done.
    pub moved: bool,
}

const NO_NEWS: News = News {
    answered: false,
    stood: false,
    moved: false,
};

/// A node's desk, and what is under way there. Which events it lets happen, and when, is its own choice: what is promised is promised
/// of any.
#[derive(Drop)]
pub struct Post<A: App + Drop, L: Locks + Drop, S: Rows<A::Row> + Drop, J: WideFounding> {
    pub desk: WideDesk<A, L, S, J>,
    pub(crate) app: A,
    pub(crate) id: NodeId,
    pub(crate) partitions: u8,
    pub(crate) replicas: u8,
    /// Nothing is taken any more, and nobody waits.
    closed: bool,
    /// An event was refused for want of memory since this was set back.
    pub(crate) is_short: bool,
    /// Requests that can be run, and were not handed out.
    pub(crate) jobs: VecDeque<Place>,
    /// How many of the packets that the node has sent were handed out.
    handed: usize,
    /// How many epochs the node closed last, if nobody was told of that.
    pub(crate) told_closed: Option<u64>,
    /// The replies that it sent: the first one to each request and attempt.
    replies: HashMap<(RequestId, u8), usize>,
    /// How many epochs it has merged at least.
    pub(crate) merged: u64,
    /// The greatest place at which a request was looked at as its epoch was merged.
    pub(crate) last: Option<Place>,
    /// How many requests have begun and aren't done.
    pub(crate) running: usize,
    /// Packets with rows for requests of epochs that aren't merged yet, as the entries that they will be.
    pub(crate) early: Vec<Entry<A::Args, A::Row, A::Reply>>,
    /// The epoch at whose end it stood last.
    stands: Option<u64>,
    pub(crate) news: News,
}

impl<A: App + Drop, L: Locks + Drop, S: Rows<A::Row> + Drop, J: WideFounding> Post<A, L, S, J> {
    /// A node in a store of such a configuration, for which nothing is under way: of the packets that it has sent none is handed
    /// out.
    pub fn new(
        alloc: Global,
        app: A,
        desk: WideDesk<A, L, S, J>,
        config: &Config,
    ) -> Post<A, L, S, J> {
        let id = desk.locked().id();
        let handed = desk.locked().sent().len();
        let stands = desk.locked().node().stands_at();
        let merged = match stands {
            Some(epoch) => epoch.saturating_add(1),
            None => 0,
        };
        Post {
            desk,
            app,
            id,
            partitions: config.partitions,
            replicas: config.replicas,
            closed: false,
            is_short: false,
            jobs: VecDeque::new(alloc),
            handed,
            told_closed: None,
            replies: HashMap::new(alloc),
            merged,
            last: None,
            running: 0,
            early: Vec::new(alloc),
            stands,
            news: NO_NEWS,
        }
    }

    /// The node's name.
    pub fn id(&self) -> NodeId {
        self.id
    }

    pub fn node(&self) -> &Node<A, L, S> {
        self.desk.locked().node()
    }

    /// One of the node's own events, in which who looks is lent the node. Says whether it took effect.
    pub(crate) fn act<W: Watch<A, L, S>>(&mut self, act: Act<A::Args>, watch: &W) -> bool {
        match self.desk.act(&act, &self.app) {
            Ok(_) => {
                watch.inside(self.desk.locked());
                true
            }
            Err(fault) => {
                self.note(fault);
                false
            }
        }
    }

    /// An event was refused.
    pub(crate) fn note(&mut self, fault: Fault) {
        if matches!(fault, Fault::OutOfMemory) {
            self.is_short = true;
        }
    }

    /// A request is submitted, and its batch is closed if the node's last one is decided. Refused with `Closed` where nothing is
    /// taken any more, else as `WideDesk::submit` is.
    pub fn submit<W: Watch<A, L, S>>(
        &mut self,
        txn: Txn<A::Args>,
        watch: &W,
    ) -> Result<WideTicket<A, J>, Fault>
        ensures { IfOk result (λ t. (t.node ≡ self.old.desk.id) × (t.txn ≡ txn)) }
    {
        if self.closed {
            return Err(Fault::Closed);
        }
        let ticket = self.desk.submit(txn, &self.app)?;
        watch.inside(self.desk.locked());
        self.news.moved = true;
        self.close_if_due(watch);
        Ok(ticket)
    }

    /// A copy of the packet that the node sent under a number, if it did and there is room.
    pub fn packet(&self, number: usize) -> Option<Packet<A::Args, A::Row, A::Reply>> {
        self.desk.locked().sent().copy(number).ok()?
    }

    /// What is to be done next outside the lock, if anything.
    pub fn next_errand(&mut self) -> Option<Errand> {
        if let Some(place) = self.jobs.pop_front() {
            return Some(Errand::Run(place));
        }
        if let Some(epochs) = self.told_closed.take() {
            return Some(Errand::TellClosed(self.id.partition, epochs));
        }
        self.next_letter()
    }

    /// The next packet for a node. Replies on the way are noted; one that there is no room to note is looked at again the next time.
    fn next_letter(&mut self) -> Option<Errand> {
        let sent = self.desk.locked().sent().len();
        for number in self.handed..sent {
            match self.addressee(number) {
                Some(id) => {
                    self.handed = number + 1;
                    let name = PacketName {
                        sender: self.id,
                        number,
                    };
                    return Some(Errand::Bring(id, Letter::Packet(name)));
                }
                None => {
                    if !self.note_reply(number) {
                        self.is_short = true;
                        return None;
                    }
                    self.handed = number + 1;
                }
            }
        }
        None
    }

    /// The node that a packet is for.
    fn addressee(&self, number: usize) -> Option<NodeId> {
        match self.desk.locked().sent().address(number)? {
            Address::AtNode(id) => Some(id),
            Address::AtClient(_) => None,
        }
    }

    /// The reply that was sent under a number is noted, if it is one and the first to its request. Says whether there was room.
    fn note_reply(&mut self, number: usize) -> bool {
        let Some((_place, id, attempt)) = self.desk.locked().sent().reply(number) else {
            return true;
        };
        let key = (id, attempt);
        self.news.answered = true;
        self.replies.contains_key(&key) || self.replies.insert(key, number).is_ok()
    }

    /// Nothing is taken any more, and nobody waits.
    pub fn close_down(&mut self) {
        self.closed = true;
    }

    /// Whether nothing is taken any more.
    pub fn is_closed(&self) -> bool {
        self.closed
    }

    /// Whether there was no memory for something since this was asked last.
    pub fn was_short(&mut self) -> bool {
        let was = self.is_short;
        self.is_short = false;
        was
    }

    /// What happened since this was asked last.
    pub fn take_news(&mut self) -> News {
        let news = self.news;
        self.news = NO_NEWS;
        news
    }

    /// The answer to a ticket's request that this node has sent, once it has and while requests are taken.
    pub fn answer(&self, ticket: &WideTicket<A, J>) -> Option<WideAnswer<A, J>>
        ensures { IfSome result (λ a. a.ticket ≡ ticket.now) }
    {
        if self.closed {
            return None;
        }
        let number = self.reply_to(ticket)?;
        self.desk.answer(ticket, number)
    }

    /// The number of the first reply to a ticket's request.
    fn reply_to(&self, ticket: &WideTicket<A, J>) -> Option<usize> {
        let txn = &ticket.entered().txn;
        let key = (txn.id, txn.attempt);
        self.replies.get(&key).copied()
    }

    /// Whether this node has answered a ticket's request.
    pub fn has_answered(&self, ticket: &WideTicket<A, J>) -> bool {
        self.reply_to(ticket).is_some()
    }

    /// What is to be run at a place, if that is known.
    pub fn job(&self, place: Place) -> Option<Job<A::Args, A::Row>> {
        self.node().job(place).ok()
    }

    /// Takes what came of a job, if it is still the one that is due, and lets those begin that waited for it.
    pub fn finish<W: Watch<A, L, S>>(&mut self, computed: &Computed<A>, watch: &W) {
        match self.desk.finish(computed) {
            Ok(()) => watch.inside(self.desk.locked()),
            Err(fault) => {
                self.note(fault);
                return;
            }
        }
        self.news.moved = true;
        self.running = self.running.saturating_sub(1);
        self.begin_after(computed.job.place, watch);
        self.look_where_it_stands();
    }

    /// Notes where the node stands.
    pub(crate) fn look_where_it_stands(&mut self) {
        let now = self.node().stands_at();
        if self.stands != now {
            self.stands = now;
            self.news.stood = true;
        }
    }

    /// Whether the node stands at an epoch or at a later one.
    pub fn stands(&self, epoch: u64) -> bool {
        match self.node().stands_at() {
            Some(at) => at >= epoch,
            None => false,
        }
    }
}
