//! A running store with a lock for each node.
ghost use Rattle.std.specs.Prelude.{◌≡◌, ◌⊎◌, ◌<◌, ◌≤◌, ◌*◌, IfOk, IfErr, IsOkUnless};
ghost use Rattle.calvin_cluster.specs.declared.cluster.TheConstants.{MOST_WORKERS};
ghost use Rattle.calvin_wide_desk.specs.Stopping.{AreMarked, BeginWith};

use crate::board::{Board, Outgoing, Ways};
use crate::gate::{Inside, WideGate};
use crate::hall::{Cell, Hall};
use crate::threads::Crew;
use calvin_app::App;
use calvin_book::Book;
use calvin_chronicles::{Mark, Opened};
use calvin_cluster::MOST_WORKERS;
use calvin_histories::Entry;
use calvin_lock::{Locks, QueueLocks};
use calvin_store::{ColdRows, Rows};
use calvin_types::{Fault, NodeId, Txn};
use calvin_wide_desk::{
    Post, Room, WideAnswer, WideDesk, WideFounding, WideStopped, WideTicket, found_all,
};
use crossbeam_channel::unbounded;
use std::alloc::Global;
use std::sync::{Arc, Mutex, Wait};
use std::thread::Threads;

/// Threads that work on the nodes of a store, and callers that share them. `stop` ends it: of one that is dropped without that, the
/// threads wait for ever.
#[derive(Drop)]
pub struct WideCluster<
    A: App + Drop,
    L: Locks + Drop,
    S: Rows<A::Row> + Drop,
    G: WideGate<A, L, S>,
    J: WideFounding,
> {
    crew: Crew<A, L, S, G, J>,
    /// Room for the nodes, and for what they leave, so that its end wants no memory.
    desks: Vec<WideDesk<A, L, S, J>>,
    room: Room<A, J>,
    /// What had happened at each node when it was opened.
    pub start: Vec<Mark<Entry<A::Args, A::Row, A::Reply>, J>>,
}

/// A store over a book as the commands run it (`StoreBook`).
pub type StoreWideCluster<A, G, J> = WideCluster<A, QueueLocks, ColdRows<<A as App>::Row>, G, J>;

/// New histories for the nodes of a book.
pub fn opened_for<A: App + Drop, L: Locks + Drop, S: Rows<A::Row> + Drop>(
    book: &Book<A, L, S>,
) -> Opened<Entry<A::Args, A::Row, A::Reply>>
    ensures { result.1 ≡ book.now.config.replicas * book.now.config.partitions }
{
    let config = book.world().config();
    Opened::new(config.replicas as usize * config.partitions as usize)
}

impl<A, L, S, G, J> WideCluster<A, L, S, G, J>
where
    A: App + Drop,
    L: Locks + Drop,
    S: Rows<A::Row> + Drop,
    G: WideGate<A, L, S>,
    J: WideFounding,
{
    /// Submits a request at a node. Refused with `NoNode` where the node isn't there, with `Closed` after `halt`, and as
    /// `Node::submit` is.
    pub fn submit<R: Wait>(
        &self,
        rt: &R,
        id: NodeId,
        txn: Txn<A::Args>,
    ) -> Result<WideTicket<A, J>, Fault>
        ensures { IfOk result (λ t. (t.node ≡ id) × (t.txn ≡ txn)) }
    {
        let hall = &*self.crew.hall;
        hall.begin(rt);
        let mut outgoing = hall.nothing();
        let submitted = submit_at(rt, hall, id, txn, &mut outgoing);
        hall.go_on(rt, &outgoing, 1);
        submitted
    }

    /// Waits for the answer to a ticket's request. Refused with `Closed` after `halt`.
    pub fn wait<R: Wait>(
        &self,
        rt: &R,
        ticket: &WideTicket<A, J>,
    ) -> Result<WideAnswer<A, J>, Fault>
        ensures answers { IfOk result (λ a. a.ticket ≡ ticket.now) }
        ensures only { IsOkUnless result Fault.Closed }
    {
        let Some(cell) = self.crew.hall.cell_of(ticket) else {
            return Err(Fault::Closed);
        };
        let lock = cell.post.lock(rt);
        let slot = cell
            .answered
            .wait_while(rt, lock, |slot| is_waiting(slot, ticket));
        match &*slot {
            Some(post) => post.answer(ticket).ok_or(Fault::Closed),
            None => Err(Fault::Closed),
        }
    }

    /// Waits until every node has come to stand at an epoch or at a later one. Refused with `Closed` after `halt`.
    pub fn wait_all<R: Wait>(&self, rt: &R, epoch: u64) -> Result<(), Fault>
        ensures only { IsOkUnless result Fault.Closed }
    {
        for cell in &self.crew.hall.cells {
            if !has_come(rt, cell, epoch) {
                return Err(Fault::Closed);
            }
        }
        Ok(())
    }

    /// From now on nothing is taken, and nobody waits.
    pub fn halt<R: Wait>(&self, rt: &R) {
        self.crew.hall.halt(rt);
    }

    /// Ends the threads, and gives the histories. Refused with `NotEnded` where nodes are still shared, which doesn't come.
    pub fn stop<R: Threads + Wait>(self, rt: &R) -> Result<WideStopped<A, J>, Fault>
        ensures begins { IfOk result (λ s. BeginWith self.start.items s) }
        ensures only { IsOkUnless result Fault.NotEnded }
    {
        let WideCluster {
            crew,
            desks,
            room,
            start,
        } = self;
        let taken = take_desks(rt, &crew, desks);
        crew.see_off(rt);
        let stopped = room.end_all(taken?)?;
        stopped.begins(&start);
        Ok(stopped)
    }
}

/// The desks of all nodes, which are away from then on: nothing is taken any more, and nobody waits. There is room for them. Refused
/// with `NotEnded` where one is away, or there is no room, which doesn't come.
fn take_desks<A, L, S, G, J, R>(
    rt: &R,
    crew: &Crew<A, L, S, G, J>,
    mut desks: Vec<WideDesk<A, L, S, J>>,
) -> Result<Vec<WideDesk<A, L, S, J>>, Fault>
where
    A: App + Drop,
    L: Locks + Drop,
    S: Rows<A::Row> + Drop,
    G: WideGate<A, L, S>,
    J: WideFounding,
    R: Wait,
    ensures only { IsOkUnless result Fault.NotEnded }
{
    let hall = &*crew.hall;
    hall.halt(rt);
    for cell in &hall.cells {
        let Some(post) = cell.post.lock(rt).take() else {
            return Err(Fault::NotEnded);
        };
        cell.wake_all();
        if desks.push(post.desk).is_err() {
            return Err(Fault::NotEnded);
        }
    }
    Ok(desks)
}

/// Submits a request under the lock of its node.
fn submit_at<A, L, S, G, J, R>(
    rt: &R,
    hall: &Hall<A, L, S, G, J>,
    id: NodeId,
    txn: Txn<A::Args>,
    outgoing: &mut Outgoing,
) -> Result<WideTicket<A, J>, Fault>
where
    A: App + Drop,
    L: Locks + Drop,
    S: Rows<A::Row> + Drop,
    G: WideGate<A, L, S>,
    J: WideFounding,
    R: Wait,
    ensures { IfOk result (λ t. (t.node ≡ id) × (t.txn ≡ txn)) }
{
    let Some(cell) = hall.cell(id) else {
        return Err(Fault::NoNode);
    };
    let mut slot = cell.post.lock(rt);
    match &mut *slot {
        Some(post) => {
            let found = post.desk.id();
            if found.replica != id.replica || found.partition != id.partition {
                return Err(Fault::NoNode);
            }
            let ticket = post.submit(txn, &Inside { gate: &hall.gate })?;
            hall.gather(cell, post, outgoing);
            Ok(ticket)
        }
        None => Err(Fault::Closed),
    }
}

/// Whether the answer to a ticket's request may still come, and isn't there.
fn is_waiting<A, L, S, J>(slot: &Option<Post<A, L, S, J>>, ticket: &WideTicket<A, J>) -> bool
where
    A: App + Drop,
    L: Locks + Drop,
    S: Rows<A::Row> + Drop,
    J: WideFounding,
{
    match slot {
        Some(post) => !post.is_closed() && !post.has_answered(ticket),
        None => false,
    }
}

/// Whether a node may still come to stand at an epoch, and doesn't.
fn is_before<A, L, S, J>(slot: &Option<Post<A, L, S, J>>, epoch: u64) -> bool
where
    A: App + Drop,
    L: Locks + Drop,
    S: Rows<A::Row> + Drop,
    J: WideFounding,
{
    match slot {
        Some(post) => !post.is_closed() && !post.stands(epoch),
        None => false,
    }
}

/// Waits until a node stands at an epoch or at a later one, and says whether it does while requests are taken.
fn has_come<A, L, S, J, R>(rt: &R, cell: &Cell<A, L, S, J>, epoch: u64) -> bool
where
    A: App + Drop,
    L: Locks + Drop,
    S: Rows<A::Row> + Drop,
    J: WideFounding,
    R: Wait,
{
    let lock = cell.post.lock(rt);
    let slot = cell
        .stood
        .wait_while(rt, lock, |slot| is_before(slot, epoch));
    match &*slot {
        Some(post) => !post.is_closed(),
        None => false,
    }
}

impl<A, L, S, G, J> WideCluster<A, L, S, G, J>
where
    A: App + Copy + Drop + Send + Sync + 'static,
    A::Args: Send + Sync + 'static,
    A::Row: Send + Sync + 'static,
    A::Reply: Send + Sync + 'static,
    L: Locks + Drop + Send + 'static,
    S: Rows<A::Row> + Drop + Send + 'static,
    G: WideGate<A, L, S> + 'static,
    J: WideFounding + 'static,
{
    /// Starts couriers and workers over the nodes of a book. A refusal hands the book back: `BadWorkers` where there are to be none
    /// or more than 16, `OutOfMemory` where there was no room or a thread could not be started.
    pub fn open<R: Threads + Wait + Copy + Send + Sync + 'static>(
        rt: R,
        alloc: Global,
        app: A,
        opened: Opened<Entry<A::Args, A::Row, A::Reply>>,
        book: Book<A, L, S>,
        gate: G,
        workers: usize,
    ) -> Result<WideCluster<A, L, S, G, J>, (Fault, Book<A, L, S>)>
        requires opened { (opened.0 ≡ J.book) × (opened.1 ≡ J.nodes) }
        requires nodes { J.nodes ≡ book.config.replicas * book.config.partitions }
        requires config { book.config ≡ J.config }
        ensures start { IfOk result (λ c. AreMarked A.meaning book c.start.items) }
        ensures back { IfErr result (λ refused. refused.1 ≡ book) }
        ensures only { IfErr result (λ refused. (((workers ≡ 0) ⊎ (MOST_WORKERS < workers)) × (refused.0 ≡ Fault.BadWorkers))
            ⊎ ((0 < workers) × (workers ≤ MOST_WORKERS) × (refused.0 ≡ Fault.OutOfMemory))) }
    {
        if workers == 0 {
            return Err((Fault::BadWorkers, book));
        }
        if workers > MOST_WORKERS {
            return Err((Fault::BadWorkers, book));
        }
        match open_over(rt, alloc, app, opened, &book, gate, workers) {
            Ok(cluster) => Ok(cluster),
            Err(fault) => Err((fault, book)),
        }
    }
}

/// Starts couriers and workers over the nodes of a book, which stays as it is. Refused with `OutOfMemory` alone.
fn open_over<A, L, S, G, J, R>(
    rt: R,
    alloc: Global,
    app: A,
    opened: Opened<Entry<A::Args, A::Row, A::Reply>>,
    book: &Book<A, L, S>,
    gate: G,
    workers: usize,
) -> Result<WideCluster<A, L, S, G, J>, Fault>
where
    A: App + Copy + Drop + Send + Sync + 'static,
    A::Args: Send + Sync + 'static,
    A::Row: Send + Sync + 'static,
    A::Reply: Send + Sync + 'static,
    L: Locks + Drop + Send + 'static,
    S: Rows<A::Row> + Drop + Send + 'static,
    G: WideGate<A, L, S> + 'static,
    J: WideFounding + 'static,
    R: Threads + Wait + Copy + Send + Sync + 'static,
    requires opened { (opened.0 ≡ J.book) × (opened.1 ≡ J.nodes) }
    requires nodes { J.nodes ≡ book.now.config.replicas * book.now.config.partitions }
    requires config { book.now.config ≡ J.config }
    ensures start { IfOk result (λ c. AreMarked A.meaning book.now c.start.items) }
    ensures only { IsOkUnless result Fault.OutOfMemory }
{
    let config = *book.world().config();
    let nodes = config.replicas as usize * config.partitions as usize;
    let room = Room::new(alloc, nodes)?;
    let ended = Vec::with_capacity(alloc, nodes)?;
    let (desks, start) = found_all(alloc, &app, book, opened.named::<J>())?;
    let mut cells = Vec::new(alloc);
    for desk in desks {
        cells.push(Cell::new(Post::new(alloc, app, desk, &config)))?;
    }
    let Ok((letters, letters_out)) = unbounded(alloc) else {
        return Err(Fault::OutOfMemory);
    };
    let Ok((jobs, jobs_out)) = unbounded(alloc) else {
        return Err(Fault::OutOfMemory);
    };
    let hall = Hall {
        alloc,
        config,
        cells,
        board: Mutex::new(Board::new(Ways { letters, jobs })),
        gate,
    };
    let Ok(hall) = Arc::new(alloc, hall) else {
        return Err(Fault::OutOfMemory);
    };
    let crew = Crew::hire_all(rt, app, hall, letters_out, jobs_out, workers)?;
    crew.hall.go_on(&rt, &crew.hall.nothing(), 0);
    Ok(WideCluster {
        crew,
        desks: ended,
        room,
        start,
    })
}
