//! What the threads of a store share.
use crate::board::{Board, MOST_TRIES, Outgoing, Sent};
use crate::gate::{Inside, WideGate};
use calvin_app::App;
use calvin_lock::Locks;
use calvin_node_packets::Packet;
use calvin_store::Rows;
use calvin_types::{Config, NodeId};
use calvin_wide_desk::{News, Post, WideFounding, WideTicket};
use calvin_world::PacketName;
use std::alloc::Global;
use std::sync::{Condvar, Mutex, Wait};

/// A node behind its own lock. It is away once the store has stopped.
#[derive(Drop)]
pub(crate) struct Cell<A: App + Drop, L: Locks + Drop, S: Rows<A::Row> + Drop, J: WideFounding> {
    pub post: Mutex<Option<Post<A, L, S, J>>>,
    /// The node answered a request, or nobody waits any more.
    pub answered: Condvar,
    /// It came to stand at a later epoch, or nobody waits any more.
    pub stood: Condvar,
}

/// All nodes, each behind its lock, and what they share.
#[derive(Drop)]
pub(crate) struct Hall<
    A: App + Drop,
    L: Locks + Drop,
    S: Rows<A::Row> + Drop,
    G: WideGate<A, L, S>,
    J: WideFounding,
> {
    pub alloc: Global,
    pub config: Config,
    pub cells: Vec<Cell<A, L, S, J>>,
    pub board: Mutex<Board>,
    pub gate: G,
}

/// What some node lacks after all have asked.
#[derive(Clone, Copy, PartialEq, Eq)]
enum Lack {
    /// None lacks anything.
    Nothing,
    /// Some node doesn't stand at the end of what was closed.
    Packets,
    /// There was no memory to ask for it.
    Memory,
    /// Others had begun something meanwhile, so that not all have asked.
    Unknown,
}

impl<A: App + Drop, L: Locks + Drop, S: Rows<A::Row> + Drop, J: WideFounding> Cell<A, L, S, J> {
    pub fn new(post: Post<A, L, S, J>) -> Cell<A, L, S, J> {
        Cell {
            post: Mutex::new(Some(post)),
            answered: Condvar::new(),
            stood: Condvar::new(),
        }
    }

    /// Wakes those who wait for what happened at the node.
    pub fn tell(&self, news: News) {
        if news.answered {
            self.answered.notify_all();
        }
        if news.stood {
            self.stood.notify_all();
        }
    }

    /// Wakes all who wait.
    pub fn wake_all(&self) {
        self.answered.notify_all();
        self.stood.notify_all();
    }

    /// How many epochs the node closed, or knows as decided.
    fn epochs<R: Wait>(&self, rt: &R) -> u64 {
        let slot = self.post.lock(rt);
        match &*slot {
            Some(post) => post.epochs(),
            None => 0,
        }
    }
}

impl<A, L, S, G, J> Hall<A, L, S, G, J>
where
    A: App + Drop,
    L: Locks + Drop,
    S: Rows<A::Row> + Drop,
    G: WideGate<A, L, S>,
    J: WideFounding,
{
    /// A node's cell, if it is there.
    pub fn cell(&self, id: NodeId) -> Option<&Cell<A, L, S, J>> {
        if id.partition >= self.config.partitions {
            return None;
        }
        let before = id.replica as usize * self.config.partitions as usize;
        self.cells.get(before.saturating_add(id.partition as usize))
    }

    /// Nothing to be done yet.
    pub fn nothing(&self) -> Outgoing {
        Outgoing::new(self.alloc, self.config.partitions)
    }

    /// A copy of the packet of this name, if it was sent and there is room.
    pub fn packet<R: Wait>(
        &self,
        rt: &R,
        name: PacketName,
    ) -> Option<Packet<A::Args, A::Row, A::Reply>> {
        let cell = self.cell(name.sender)?;
        let slot = cell.post.lock(rt);
        match &*slot {
            Some(post) => post.packet(name.number),
            None => None,
        }
    }

    /// What is to be done for a node is taken, and those are woken who wait for what happened there.
    pub fn gather(
        &self,
        cell: &Cell<A, L, S, J>,
        post: &mut Post<A, L, S, J>,
        outgoing: &mut Outgoing,
    ) {
        outgoing.take(post);
        let news = post.take_news();
        outgoing.moved = outgoing.moved || news.moved;
        cell.tell(news);
    }

    /// Somebody begins to do something at a node. It is under way until what comes of it is sent, so that meanwhile nobody asks for
    /// what is missing.
    pub fn begin<R: Wait>(&self, rt: &R) {
        self.board.lock(rt).begin();
    }

    /// So much is done, and what came of it is sent to the threads. Where nothing is under way, what is missing is asked for; where
    /// there is no room to go on, nothing is taken any more: nobody would come back to go on.
    pub fn go_on<R: Wait>(&self, rt: &R, outgoing: &Outgoing, done: usize) {
        match self.send(rt, outgoing, done) {
            Sent::Busy => {}
            Sent::Idle => self.ask_again(rt),
            Sent::Short => self.halt(rt),
        }
    }

    /// Those who wait look once more.
    fn wake_all(&self) {
        for cell in &self.cells {
            cell.wake_all();
        }
    }

    fn send<R: Wait>(&self, rt: &R, outgoing: &Outgoing, done: usize) -> Sent {
        self.board.lock(rt).send(rt, outgoing, done)
    }

    /// Asks for what is missing, until something is under way or nothing is missing; those who wait look once more. Where there is
    /// no memory to ask, that is tried 64 times. Where nothing came of 32 rounds, nothing is taken any more: nobody would come back
    /// to ask again.
    fn ask_again<R: Wait>(&self, rt: &R) {
        self.wake_all();
        let mut tries = 0_u32;
        for _ in rt.forever() {
            if tries >= MOST_TRIES {
                break;
            }
            let Some(round) = self.next_round(rt) else {
                break;
            };
            match self.ask_all(rt, round) {
                (Sent::Busy, _) => return,
                (Sent::Idle, Lack::Nothing) => {
                    self.take_back_round(rt);
                    return;
                }
                (Sent::Idle, Lack::Packets) => {}
                (Sent::Idle, Lack::Unknown) => self.take_back_round(rt),
                (Sent::Idle, Lack::Memory) => {
                    self.take_back_round(rt);
                    tries = tries.saturating_add(1);
                }
                (Sent::Short, _) => break,
            }
        }
        self.halt(rt);
    }

    fn next_round<R: Wait>(&self, rt: &R) -> Option<u32> {
        self.board.lock(rt).next_round()
    }

    fn take_back_round<R: Wait>(&self, rt: &R) {
        self.board.lock(rt).take_back_round();
    }

    fn is_alone<R: Wait>(&self, rt: &R) -> bool {
        self.board.lock(rt).is_alone()
    }

    /// Each node asks for what it lacks, and that is sent, unless others begin something meanwhile: a job that a node has handed out is
    /// so never handed out again. Says what some node lacks then.
    fn ask_all<R: Wait>(&self, rt: &R, round: u32) -> (Sent, Lack) {
        let mut epochs = 0;
        for cell in &self.cells {
            epochs = epochs.max(cell.epochs(rt));
        }
        let mut outgoing = self.nothing();
        let mut lack = Lack::Nothing;
        for cell in &self.cells {
            let mut slot = cell.post.lock(rt);
            if let Some(post) = &mut *slot {
                if post.is_closed() {
                    continue;
                }
                if !self.is_alone(rt) {
                    lack = Lack::Unknown;
                    break;
                }
                post.ask(epochs, round, &Inside { gate: &self.gate });
                self.gather(cell, post, &mut outgoing);
                if post.was_short() || outgoing.is_short {
                    lack = Lack::Memory;
                } else if lack == Lack::Nothing && !post.stands_at_end(epochs) {
                    lack = Lack::Packets;
                }
            }
        }
        (self.send(rt, &outgoing, 1), lack)
    }

    /// Nothing is taken any more, and nobody waits.
    pub fn halt<R: Wait>(&self, rt: &R) {
        for cell in &self.cells {
            close_down(rt, cell);
        }
    }

    /// The cell of a node that answers a ticket's request: of its node's replica, the first one that runs the request.
    pub fn cell_of(&self, ticket: &WideTicket<A, J>) -> Option<&Cell<A, L, S, J>> {
        let entered = ticket.entered();
        let replica = entered.node.replica;
        for partition in 0..self.config.partitions {
            if entered.txn.is_active(&self.config, partition) {
                return self.cell(NodeId { replica, partition });
            }
        }
        None
    }
}

/// A node takes nothing any more, and nobody waits for it.
fn close_down<A, L, S, J, R>(rt: &R, cell: &Cell<A, L, S, J>)
where
    A: App + Drop,
    L: Locks + Drop,
    S: Rows<A::Row> + Drop,
    J: WideFounding,
    R: Wait,
{
    let mut slot = cell.post.lock(rt);
    if let Some(post) = &mut *slot {
        post.close_down();
    }
    cell.wake_all();
}
