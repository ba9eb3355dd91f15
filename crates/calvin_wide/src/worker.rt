//! What workers do.
use crate::gate::{Inside, WideGate};
use crate::hall::Hall;
use calvin_app::{App, Computed, Job};
use calvin_cluster::Gate;
use calvin_lock::Locks;
use calvin_store::Rows;
use calvin_types::{NodeId, Place};
use calvin_wide_desk::WideFounding;
use crossbeam_channel::Receiver;
use std::sync::Wait;

/// Runs requests until the store has stopped: takes a job under its node's lock, runs it outside every lock, and hands in under that
/// lock what came of it.
pub(crate) fn work<A, L, S, G, J, R>(
    rt: &R,
    app: A,
    hall: &Hall<A, L, S, G, J>,
    jobs: &Receiver<(NodeId, Place)>,
)
where
    A: App + Drop,
    L: Locks + Drop,
    S: Rows<A::Row> + Drop,
    G: WideGate<A, L, S>,
    J: WideFounding,
    R: Wait,
{
    for _ in rt.forever() {
        let Ok((id, place)) = jobs.recv(rt) else {
            return;
        };
        match job_at(rt, hall, id, place) {
            Some(job) => {
                hall.gate.before(id, place);
                let computed = job.compute(&app);
                hall.gate.after(id, place);
                finish(rt, hall, id, &computed);
            }
            None => hall.go_on(rt, &hall.nothing(), 1),
        }
    }
}

/// The job at a place of a node, if there is one.
fn job_at<A, L, S, G, J, R>(
    rt: &R,
    hall: &Hall<A, L, S, G, J>,
    id: NodeId,
    place: Place,
) -> Option<Job<A::Args, A::Row>>
where
    A: App + Drop,
    L: Locks + Drop,
    S: Rows<A::Row> + Drop,
    G: WideGate<A, L, S>,
    J: WideFounding,
    R: Wait,
{
    let cell = hall.cell(id)?;
    let slot = cell.post.lock(rt);
    match &*slot {
        Some(post) => post.job(place),
        None => None,
    }
}

/// What came of a job is handed in, and what comes of that is sent on.
fn finish<A, L, S, G, J, R>(rt: &R, hall: &Hall<A, L, S, G, J>, id: NodeId, computed: &Computed<A>)
where
    A: App + Drop,
    L: Locks + Drop,
    S: Rows<A::Row> + Drop,
    G: WideGate<A, L, S>,
    J: WideFounding,
    R: Wait,
{
    let mut outgoing = hall.nothing();
    if let Some(cell) = hall.cell(id) {
        let mut slot = cell.post.lock(rt);
        if let Some(post) = &mut *slot {
            post.finish(computed, &Inside { gate: &hall.gate });
            hall.gather(cell, post, &mut outgoing);
        }
    }
    hall.go_on(rt, &outgoing, 1);
}
