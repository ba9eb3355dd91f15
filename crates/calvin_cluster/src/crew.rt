//! What the threads of a cluster share.
use crate::gate::Gate;
use calvin_app::{App, Computed, Job};
use calvin_cluster_desk::{Errand, Founding, MOST_TRIES, Office, Ticket};
use calvin_lock::Locks;
use calvin_store::Rows;
use calvin_types::{NodeId, Place};
use crossbeam_channel::{Receiver, Sender};
use std::sync::{Condvar, Mutex, Wait};

/// The office, and the ways to the threads: they end where it goes.
#[derive(Drop)]
pub(crate) struct Hall<A: App + Drop, L: Locks + Drop, S: Rows<A::Row> + Drop, J: Founding> {
    pub office: Office<A, L, S, J>,
    pub letters: Sender<usize>,
    pub jobs: Sender<(NodeId, Place)>,
}

/// What all threads share. The hall is away until all of them are there, and once the cluster has stopped.
#[derive(Drop)]
pub(crate) struct Shared<
    A: App + Drop,
    L: Locks + Drop,
    S: Rows<A::Row> + Drop,
    G: Gate,
    J: Founding,
> {
    pub hall: Mutex<Option<Hall<A, L, S, J>>>,
    /// A request was answered, or nobody waits any more.
    pub answered: Condvar,
    /// A node came to stand at a later epoch, or nobody waits any more.
    pub stood: Condvar,
    pub gate: G,
}

impl<A: App + Drop, L: Locks + Drop, S: Rows<A::Row> + Drop, J: Founding> Hall<A, L, S, J> {
    /// All that is to be done is sent to the threads. Where there is no room for an errand, nothing is taken any more: nobody would
    /// come back to send it.
    fn send_errands<R: Wait>(&mut self, rt: &R) {
        for _ in 0..u64::MAX {
            let Some(errand) = self.office.next_errand() else {
                break;
            };
            if !self.send(rt, errand) {
                self.office.is_back();
                self.office.close_down();
                break;
            }
        }
    }

    /// Sends an errand to the threads, and says whether there was room for it, at one of 64 times.
    fn send<R: Wait>(&self, rt: &R, errand: Errand) -> bool {
        for _ in 0..MOST_TRIES {
            let is_sent = match errand {
                Errand::Deliver(number) => self.letters.send(rt, number).is_ok(),
                Errand::Run(id, place) => self.jobs.send(rt, (id, place)).is_ok(),
            };
            if is_sent {
                return true;
            }
        }
        false
    }
}

impl<A: App + Drop, L: Locks + Drop, S: Rows<A::Row> + Drop, G: Gate, J: Founding> Shared<
    A,
    L,
    S,
    G,
    J,
> {
    /// Sends what is to be done, and wakes those who wait for what happened, or all where nothing more happens.
    pub fn go_on<R: Wait>(&self, rt: &R, hall: &mut Hall<A, L, S, J>) {
        hall.send_errands(rt);
        if hall.office.is_closed() {
            self.wake_all();
        }
        let news = hall.office.take_news();
        if news.answered {
            self.answered.notify_all();
        }
        if news.stood {
            self.stood.notify_all();
        }
    }

    /// Wakes all who wait.
    pub fn wake_all(&self) {
        self.answered.notify_all();
        self.stood.notify_all();
    }
}

/// Delivers packets until the cluster has ended.
pub(crate) fn carry<A, L, S, G, J, R>(
    rt: &R,
    shared: &Shared<A, L, S, G, J>,
    letters: &Receiver<usize>,
)
where
    A: App + Drop,
    L: Locks + Drop,
    S: Rows<A::Row> + Drop,
    G: Gate,
    J: Founding,
    R: Wait,
{
    for _ in rt.forever() {
        let Ok(number) = letters.recv(rt) else {
            return;
        };
        deliver(rt, shared, letters, number);
    }
}

/// So many packets are delivered under one lock at most.
const MOST_AT_ONCE: usize = 64;

/// Delivers a packet, and others that are there.
fn deliver<A, L, S, G, J, R>(
    rt: &R,
    shared: &Shared<A, L, S, G, J>,
    letters: &Receiver<usize>,
    number: usize,
)
where
    A: App + Drop,
    L: Locks + Drop,
    S: Rows<A::Row> + Drop,
    G: Gate,
    J: Founding,
    R: Wait,
{
    let mut slot = shared.hall.lock(rt);
    if let Some(hall) = &mut *slot {
        hall.office.hand_over(number);
        for _ in 1..MOST_AT_ONCE {
            let Ok(next) = letters.try_recv(rt) else {
                break;
            };
            hall.office.hand_over(next);
        }
        shared.go_on(rt, hall);
    }
}

/// Runs requests until the cluster has ended: takes a job under the lock, runs it outside every lock, and hands in under the lock
/// what came of it.
pub(crate) fn work<A, L, S, G, J, R>(
    rt: &R,
    app: A,
    shared: &Shared<A, L, S, G, J>,
    jobs: &Receiver<(NodeId, Place)>,
)
where
    A: App + Drop,
    L: Locks + Drop,
    S: Rows<A::Row> + Drop,
    G: Gate,
    J: Founding,
    R: Wait,
{
    for _ in rt.forever() {
        let Ok((id, place)) = jobs.recv(rt) else {
            return;
        };
        if let Some(job) = job_at(rt, shared, id, place) {
            shared.gate.before(id, place);
            let computed = job.compute(&app);
            shared.gate.after(id, place);
            finish(rt, shared, id, &computed);
        }
    }
}

/// The job at a place of a node. Where there is none the errand is done.
fn job_at<A, L, S, G, J, R>(
    rt: &R,
    shared: &Shared<A, L, S, G, J>,
    id: NodeId,
    place: Place,
) -> Option<Job<A::Args, A::Row>>
where
    A: App + Drop,
    L: Locks + Drop,
    S: Rows<A::Row> + Drop,
    G: Gate,
    J: Founding,
    R: Wait,
{
    let mut slot = shared.hall.lock(rt);
    match &mut *slot {
        Some(hall) => {
            let job = hall.office.job(id, place);
            if job.is_none() {
                hall.office.is_back();
                shared.go_on(rt, hall);
            }
            job
        }
        None => None,
    }
}

/// What came of a job is handed in.
fn finish<A, L, S, G, J, R>(
    rt: &R,
    shared: &Shared<A, L, S, G, J>,
    id: NodeId,
    computed: &Computed<A>,
)
where
    A: App + Drop,
    L: Locks + Drop,
    S: Rows<A::Row> + Drop,
    G: Gate,
    J: Founding,
    R: Wait,
{
    let mut slot = shared.hall.lock(rt);
    if let Some(hall) = &mut *slot {
        hall.office.finish(id, computed);
        hall.office.is_back();
        shared.go_on(rt, hall);
    }
}

/// Whether the cluster has halted or stopped.
pub(crate) fn is_closed<A, L, S, J>(slot: &Option<Hall<A, L, S, J>>) -> bool
where
    A: App + Drop,
    L: Locks + Drop,
    S: Rows<A::Row> + Drop,
    J: Founding,
{
    match slot {
        Some(hall) => hall.office.is_closed(),
        None => true,
    }
}

/// Whether the answer to a ticket may still come, and isn't among the packets from a number on. That number goes on to where the next
/// look begins.
pub(crate) fn is_waiting<A, L, S, J>(
    slot: &Option<Hall<A, L, S, J>>,
    ticket: &Ticket<A, J>,
    from: &mut usize,
) -> bool
where
    A: App + Drop,
    L: Locks + Drop,
    S: Rows<A::Row> + Drop,
    J: Founding,
{
    match slot {
        Some(hall) => !hall.office.is_closed() && !hall.office.has_answer(ticket, from),
        None => false,
    }
}

/// Whether nodes may still come to stand at an epoch, and don't.
pub(crate) fn is_before<A, L, S, J>(slot: &Option<Hall<A, L, S, J>>, epoch: u64) -> bool
where
    A: App + Drop,
    L: Locks + Drop,
    S: Rows<A::Row> + Drop,
    J: Founding,
{
    match slot {
        Some(hall) => !hall.office.is_closed() && !hall.office.all_stand(epoch),
        None => false,
    }
}
