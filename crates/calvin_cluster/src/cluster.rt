//! A running store.
ghost use Rattle.std.specs.Prelude.{◌≡◌, ◌≢◌, ◌⊎◌, ◌<◌, ◌≤◌, IfOk, IfErr, IfSome, IsOkUnless, None};
ghost use mathlib.Core.List.{IsPrefix};
ghost use Rattle.calvin_cluster_desk.specs.Receipts.{told_epoch};

use crate::crew::{Hall, is_before, is_closed, is_waiting};
use crate::gate::Gate;
use crate::threads::{Crew, Hired};
use calvin_app::{Answer, App};
use calvin_book::Book;
use calvin_chronicle::{Mark, Opened};
use calvin_cluster_desk::{Desk, Drill, Founding, NO_DRILL, Office, Seats, Stopped, Ticket, Told};
use calvin_lock::{Locks, QueueLocks};
use calvin_store::{ColdRows, Rows};
use calvin_types::{Fault, NodeId, Sets, Txn};
use calvin_world::Event;
use std::alloc::Global;
use std::sync::Wait;
use std::thread::Threads;

/// The most workers of a cluster.
pub const MOST_WORKERS: usize = 16;

/// Threads that work on one book, and callers that share it. Where there is no memory to go on, also when that is tried again, it halts
/// by itself, so that nobody waits for what doesn't come.
#[derive(Drop)]
pub struct Cluster<A: App + Drop, L: Locks + Drop, S: Rows<A::Row> + Drop, G: Gate, J: Founding> {
    crew: Crew<A, L, S, G, J>,
    app: A,
    /// What had happened in the book when it was opened.
    pub start: Mark<Event<A::Args>, J>,
}

/// A cluster over a book as the commands run it (`StoreBook`).
pub type StoreCluster<A, G, J> = Cluster<A, QueueLocks, ColdRows<<A as App>::Row>, G, J>;

impl<A, L, S, G, J> Cluster<A, L, S, G, J>
where
    A: App + Drop,
    L: Locks + Drop,
    S: Rows<A::Row> + Drop,
    G: Gate,
    J: Founding,
{
    /// The sets that a request needs of the rows as they stand at a replica now. Refused with `NoNode` where the replica isn't
    /// there, with `Closed` after `halt`, with `Unsettled` as `scout` is, and else with `OutOfMemory`.
    pub fn sets<R: Wait>(
        &self,
        rt: &R,
        alloc: Global,
        replica: u8,
        args: &A::Args,
    ) -> Result<Sets, Fault> {
        let slot = self.crew.shared.hall.lock(rt);
        match &*slot {
            Some(hall) => sets_in(hall, alloc, &self.app, replica, args),
            None => Err(Fault::Closed),
        }
    }

    /// Submits a request at a node, for a caller that was told so much. Refused with `NoNode` where the node isn't there, with
    /// `Stale` where its next epoch isn't above the told one, with `Closed` after `halt`, and as `Node::submit` is.
    pub fn submit<R: Wait>(
        &self,
        rt: &R,
        told: &Told<A, J>,
        id: NodeId,
        txn: Txn<A::Args>,
    ) -> Result<Ticket<A, J>, Fault>
        ensures { IfOk result (λ t. (t.node ≡ id) × (t.txn ≡ txn) × (t.told ≡ told_epoch told.now.report)) }
    {
        let shared = &self.crew.shared;
        let mut slot = shared.hall.lock(rt);
        match &mut *slot {
            Some(hall) => {
                let ticket = hall.office.submit(told, id, txn)?;
                shared.go_on(rt, hall);
                Ok(ticket)
            }
            None => Err(Fault::Closed),
        }
    }

    /// Waits for the answer to a ticket's request, and what its caller is told by it. Refused with `Closed` after `halt`.
    pub fn wait<R: Wait>(
        &self,
        rt: &R,
        ticket: &Ticket<A, J>,
    ) -> Result<(Answer<A::Reply>, Told<A, J>), Fault>
        ensures told { IfOk result (λ r. IfSome r.1.report (λ a. (a.submission ≡ ticket.now) × (a.answer ≡ r.0)) × (r.1.report ≢ None)) }
        ensures only { IsOkUnless result Fault.Closed }
    {
        let shared = &self.crew.shared;
        let lock = shared.hall.lock(rt);
        let mut from = 0;
        let slot = shared
            .answered
            .wait_while(rt, lock, |slot| is_waiting(slot, ticket, &mut from));
        match &*slot {
            Some(hall) => hall.office.answer(ticket).ok_or(Fault::Closed),
            None => Err(Fault::Closed),
        }
    }

    /// Waits until every node stands at an epoch or at a later one. Refused with `Closed` after `halt`.
    pub fn wait_all<R: Wait>(&self, rt: &R, epoch: u64) -> Result<(), Fault>
        ensures only { IsOkUnless result Fault.Closed }
    {
        let shared = &self.crew.shared;
        let lock = shared.hall.lock(rt);
        let slot = shared
            .stood
            .wait_while(rt, lock, |slot| is_before(slot, epoch));
        if is_closed(&*slot) {
            Err(Fault::Closed)
        } else {
            Ok(())
        }
    }

    /// From now on nothing is taken, and nobody waits.
    pub fn halt<R: Wait>(&self, rt: &R) {
        self.crew.halt(rt);
    }
}

/// The sets that a request needs at a replica, unless the cluster has halted.
fn sets_in<A, L, S, J>(
    hall: &Hall<A, L, S, J>,
    alloc: Global,
    app: &A,
    replica: u8,
    args: &A::Args,
) -> Result<Sets, Fault>
where
    A: App + Drop,
    L: Locks + Drop,
    S: Rows<A::Row> + Drop,
    J: Founding,
{
    if hall.office.is_closed() {
        return Err(Fault::Closed);
    }
    hall.office.sets(alloc, app, replica, args)
}

impl<A, L, S, G, J> Cluster<A, L, S, G, J>
where
    A: App + Copy + Drop + Send + Sync + 'static,
    A::Args: Send + Sync + 'static,
    A::Row: Send + Sync + 'static,
    A::Reply: Send + Sync + 'static,
    L: Locks + Drop + Send + 'static,
    S: Rows<A::Row> + Drop + Send + 'static,
    G: Gate + 'static,
    J: Founding + 'static,
{
    /// Starts couriers and workers over a book. A refusal hands the book back: `BadWorkers` where there are to be none or more
    /// than 16, `OutOfMemory` where there was no room or a thread could not be started.
    pub fn open<R: Threads + Wait + Copy + Send + Sync + 'static>(
        rt: R,
        alloc: Global,
        app: A,
        opened: Opened<Event<A::Args>>,
        book: Book<A, L, S>,
        gate: G,
        workers: usize,
    ) -> Result<Cluster<A, L, S, G, J>, (Fault, Book<A, L, S>)>
        requires opened { opened ≡ J.book }
        requires config { book.config ≡ J.config }
        ensures start { IfOk result (λ c. c.start ≡ book.events) }
        ensures back { IfErr result (λ refused. refused.1 ≡ book) }
        ensures only { IfErr result (λ refused. (((workers ≡ 0) ⊎ (MOST_WORKERS < workers)) × (refused.0 ≡ Fault.BadWorkers))
            ⊎ ((0 < workers) × (workers ≤ MOST_WORKERS) × (refused.0 ≡ Fault.OutOfMemory))) }
    {
        Self::open_in_drill(rt, alloc, app, opened, book, gate, workers, NO_DRILL)
    }

    /// Starts couriers and workers over a book in which a drill goes on from now on. Refused as `open` is.
    pub fn open_in_drill<R: Threads + Wait + Copy + Send + Sync + 'static>(
        rt: R,
        alloc: Global,
        app: A,
        opened: Opened<Event<A::Args>>,
        book: Book<A, L, S>,
        gate: G,
        workers: usize,
        drill: Drill,
    ) -> Result<Cluster<A, L, S, G, J>, (Fault, Book<A, L, S>)>
        requires opened { opened ≡ J.book }
        requires config { book.config ≡ J.config }
        ensures start { IfOk result (λ c. c.start ≡ book.events) }
        ensures back { IfErr result (λ refused. refused.1 ≡ book) }
        ensures only { IfErr result (λ refused. (((workers ≡ 0) ⊎ (MOST_WORKERS < workers)) × (refused.0 ≡ Fault.BadWorkers))
            ⊎ ((0 < workers) × (workers ≤ MOST_WORKERS) × (refused.0 ≡ Fault.OutOfMemory))) }
    {
        if workers == 0 {
            return Err((Fault::BadWorkers, book));
        }
        if workers > MOST_WORKERS {
            return Err((Fault::BadWorkers, book));
        }
        let seats = match Seats::new(alloc, book.world().config()) {
            Ok(seats) => seats,
            Err(fault) => return Err((fault, book)),
        };
        let hired = match Hired::<A, L, S, G, J>::hire_all(rt, alloc, app, gate, workers) {
            Ok(hired) => hired,
            Err(fault) => return Err((fault, book)),
        };
        let (desk, start) = match Desk::new(book, opened.named::<J>()) {
            Ok(founded) => founded,
            Err(book) => {
                hired.dismiss(&rt);
                return Err((Fault::OutOfMemory, book));
            }
        };
        let crew = hired.begin(&rt, Office::new(alloc, desk, seats, drill));
        Ok(Cluster { crew, app, start })
    }

    /// Ends the threads, and gives the book. Refused with `NotEnded` where the book is still shared, which doesn't come.
    pub fn stop<R: Threads + Wait>(self, rt: &R) -> Result<Stopped<A, L, S, J>, Fault>
        ensures config { IfOk result (λ s. s.config ≡ J.config) }
        ensures begins { IfOk result (λ s. IsPrefix self.start s.events) }
        ensures only { IsOkUnless result Fault.NotEnded }
    {
        let Cluster { crew, start, .. } = self;
        let Some(office) = crew.end(rt) else {
            return Err(Fault::NotEnded);
        };
        let Some(stopped) = office.into_desk().end() else {
            return Err(Fault::NotEnded);
        };
        stopped.begins(&start);
        Ok(stopped)
    }
}
