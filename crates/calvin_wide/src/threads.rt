//! How the threads of a store start and end.
ghost use Rattle.std.specs.Prelude.{IsOkUnless};

use crate::courier::carry;
use crate::gate::WideGate;
use crate::hall::Hall;
use crate::worker::work;
use calvin_app::App;
use calvin_lock::Locks;
use calvin_store::Rows;
use calvin_types::{Fault, NodeId, Place};
use calvin_wide_desk::{Letter, WideFounding};
use crossbeam_channel::{Receiver, Sender, unbounded};
use std::alloc::Global;
use std::sync::{Arc, Wait};
use std::thread;
use std::thread::Threads;

/// The threads of a store, and what tells that one of them has ended.
#[derive(Drop)]
pub(crate) struct Crew<
    A: App + Drop,
    L: Locks + Drop,
    S: Rows<A::Row> + Drop,
    G: WideGate<A, L, S>,
    J: WideFounding,
> {
    pub hall: Arc<Hall<A, L, S, G, J>>,
    threads: usize,
    gone: Receiver<()>,
}

/// What a thread takes its errands from, and says its last word to.
#[derive(Drop)]
pub(crate) struct Ends {
    pub letters: Receiver<(NodeId, Letter)>,
    pub jobs: Receiver<(NodeId, Place)>,
    leaves: Sender<()>,
}

impl Ends {
    /// The same for another thread, if there is room.
    fn again(&self) -> Option<Ends> {
        let Ok(letters) = self.letters.clone() else {
            return None;
        };
        let Ok(jobs) = self.jobs.clone() else {
            return None;
        };
        let Ok(leaves) = self.leaves.clone() else {
            return None;
        };
        Some(Ends {
            letters,
            jobs,
            leaves,
        })
    }
}

/// What a thread does.
#[derive(Clone, Copy)]
enum Duty {
    /// It brings letters.
    Carry,
    /// It runs requests.
    Work,
}

impl<A, L, S, G, J> Crew<A, L, S, G, J>
where
    A: App + Drop,
    L: Locks + Drop,
    S: Rows<A::Row> + Drop,
    G: WideGate<A, L, S>,
    J: WideFounding,
{
    /// The ways to the threads go: these end, and are waited for.
    pub fn see_off<R: Wait>(self, rt: &R) {
        let Crew {
            hall,
            threads,
            gone,
        } = self;
        hall.board.lock(rt).ways = None;
        for _ in 0..threads {
            let _ = gone.recv(rt);
        }
        drop(hall);
    }
}

impl<A, L, S, G, J> Crew<A, L, S, G, J>
where
    A: App + Copy + Drop + Send + Sync + 'static,
    A::Args: Send + Sync + 'static,
    A::Row: Send + Sync + 'static,
    A::Reply: Send + Sync + 'static,
    L: Locks + Drop + Send + 'static,
    S: Rows<A::Row> + Drop + Send + 'static,
    G: WideGate<A, L, S> + 'static,
    J: WideFounding + 'static,
{
    /// Starts so many workers, and as many couriers, at least two. Those that could be started end again where one can't.
    pub fn hire_all<R: Threads + Wait + Copy + Send + Sync + 'static>(
        rt: R,
        app: A,
        hall: Arc<Hall<A, L, S, G, J>>,
        letters: Receiver<(NodeId, Letter)>,
        jobs: Receiver<(NodeId, Place)>,
        workers: usize,
    ) -> Result<Crew<A, L, S, G, J>, Fault>
        ensures only { IsOkUnless result Fault.OutOfMemory }
    {
        let alloc: Global = hall.alloc;
        let Ok((leaves, gone)) = unbounded(alloc) else {
            return Err(Fault::OutOfMemory);
        };
        let ends = Ends {
            letters,
            jobs,
            leaves,
        };
        let mut crew = Crew {
            hall,
            threads: 0,
            gone,
        };
        if !crew.hire(rt, app, &ends, workers) {
            drop(ends);
            crew.see_off(&rt);
            return Err(Fault::OutOfMemory);
        }
        Ok(crew)
    }

    /// Starts the couriers and so many workers, and says whether it could.
    fn hire<R: Threads + Wait + Copy + Send + Sync + 'static>(
        &mut self,
        rt: R,
        app: A,
        ends: &Ends,
        workers: usize,
    ) -> bool {
        for _ in 0..workers.max(2) {
            if !self.hire_one(rt, app, ends, Duty::Carry) {
                return false;
            }
        }
        for _ in 0..workers {
            if !self.hire_one(rt, app, ends, Duty::Work) {
                return false;
            }
        }
        true
    }

    /// Starts a thread, and says whether it could.
    fn hire_one<R: Threads + Wait + Copy + Send + Sync + 'static>(
        &mut self,
        rt: R,
        app: A,
        ends: &Ends,
        duty: Duty,
    ) -> bool {
        let Ok(hall) = Arc::try_clone(&self.hall) else {
            return false;
        };
        let Some(ends) = ends.again() else {
            return false;
        };
        let life = move || {
            match duty {
                Duty::Carry => carry(&rt, &*hall, &ends.letters),
                Duty::Work => work(&rt, app, &*hall, &ends.jobs),
            }
            drop(hall);
            let _ = ends.leaves.send(&rt, ());
        };
        match thread::spawn(&rt, life) {
            Ok(_thread) => {
                self.threads = self.threads.saturating_add(1);
                true
            }
            Err(_) => false,
        }
    }
}
