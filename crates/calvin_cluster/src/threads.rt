//! How the threads of a cluster start and end.
ghost use Rattle.std.specs.Prelude.{IsOkUnless};

use crate::crew::{Hall, Shared, carry, work};
use crate::gate::Gate;
use calvin_app::App;
use calvin_cluster_desk::{Founding, Office};
use calvin_lock::Locks;
use calvin_store::Rows;
use calvin_types::{Fault, NodeId, Place};
use crossbeam_channel::{Receiver, Sender, unbounded};
use std::alloc::Global;
use std::sync::{Arc, Condvar, Mutex, Wait};
use std::thread;
use std::thread::Threads;

/// How many threads deliver packets.
const COURIERS: usize = 2;

/// The threads of a cluster, and what tells that one of them has ended.
#[derive(Drop)]
pub(crate) struct Crew<
    A: App + Drop,
    L: Locks + Drop,
    S: Rows<A::Row> + Drop,
    G: Gate,
    J: Founding,
> {
    pub shared: Arc<Shared<A, L, S, G, J>>,
    threads: usize,
    gone: Receiver<()>,
}

/// The same before the cluster opens.
#[derive(Drop)]
pub(crate) struct Hired<
    A: App + Drop,
    L: Locks + Drop,
    S: Rows<A::Row> + Drop,
    G: Gate,
    J: Founding,
> {
    crew: Crew<A, L, S, G, J>,
    letters: Sender<usize>,
    jobs: Sender<(NodeId, Place)>,
}

impl<A: App + Drop, L: Locks + Drop, S: Rows<A::Row> + Drop, G: Gate, J: Founding> Crew<
    A,
    L,
    S,
    G,
    J,
> {
    /// Nothing is taken any more, and nobody waits.
    pub fn halt<R: Wait>(&self, rt: &R) {
        let mut slot = self.shared.hall.lock(rt);
        if let Some(hall) = &mut *slot {
            hall.office.close_down();
        }
        self.shared.wake_all();
    }

    /// Ends the threads. The office comes out, if it was there.
    pub fn end<R: Wait>(self, rt: &R) -> Option<Office<A, L, S, J>> {
        self.halt(rt);
        let hall = self.shared.hall.lock(rt).take();
        self.shared.wake_all();
        let office = match hall {
            Some(hall) => Some(hall.office),
            None => None,
        };
        self.see_off(rt);
        office
    }

    /// The hall opens, and what can be done is.
    fn open<R: Wait>(&self, rt: &R, hall: Hall<A, L, S, J>) {
        let mut slot = self.shared.hall.lock(rt);
        *slot = Some(hall);
        if let Some(hall) = &mut *slot {
            self.shared.go_on(rt, hall);
        }
    }

    /// Waits until each thread has ended.
    fn see_off<R: Wait>(self, rt: &R) {
        let Crew {
            shared,
            threads,
            gone,
        } = self;
        for _ in 0..threads {
            let _ = gone.recv(rt);
        }
        drop(shared);
    }
}

impl<A: App + Drop, L: Locks + Drop, S: Rows<A::Row> + Drop, G: Gate, J: Founding> Hired<
    A,
    L,
    S,
    G,
    J,
> {
    /// The office opens.
    pub fn begin<R: Wait>(self, rt: &R, office: Office<A, L, S, J>) -> Crew<A, L, S, G, J> {
        let Hired {
            crew,
            letters,
            jobs,
        } = self;
        let hall = Hall {
            office,
            letters,
            jobs,
        };
        crew.open(rt, hall);
        crew
    }

    /// Ends the threads: they have nothing to do any more.
    pub fn dismiss<R: Wait>(self, rt: &R) {
        let Hired {
            crew,
            letters,
            jobs,
        } = self;
        drop(letters);
        drop(jobs);
        crew.see_off(rt);
    }
}

/// What a thread of a cluster takes its errands from, and says its last word to.
#[derive(Drop)]
struct Ways {
    letters: Receiver<usize>,
    jobs: Receiver<(NodeId, Place)>,
    leaves: Sender<()>,
}

impl Ways {
    /// The same ways for another thread, if there is room.
    fn again(&self) -> Option<Ways> {
        let Ok(letters) = self.letters.clone() else {
            return None;
        };
        let Ok(jobs) = self.jobs.clone() else {
            return None;
        };
        let Ok(leaves) = self.leaves.clone() else {
            return None;
        };
        Some(Ways {
            letters,
            jobs,
            leaves,
        })
    }
}

/// What a thread does.
#[derive(Clone, Copy)]
enum Duty {
    /// It delivers packets.
    Carry,
    /// It runs requests.
    Work,
}

impl<A, L, S, G, J> Hired<A, L, S, G, J>
where
    A: App + Copy + Drop + Send + Sync + 'static,
    A::Args: Send + Sync + 'static,
    A::Row: Send + Sync + 'static,
    A::Reply: Send + Sync + 'static,
    L: Locks + Drop + Send + 'static,
    S: Rows<A::Row> + Drop + Send + 'static,
    G: Gate + 'static,
    J: Founding + 'static,
{
    /// Starts all threads, before there is an office. Those that could be started end again where one can't.
    pub fn hire_all<R: Threads + Wait + Copy + Send + Sync + 'static>(
        rt: R,
        alloc: Global,
        app: A,
        gate: G,
        workers: usize,
    ) -> Result<Hired<A, L, S, G, J>, Fault>
        ensures only { IsOkUnless result Fault.OutOfMemory }
    {
        let Ok((letters, letters_out)) = unbounded(alloc) else {
            return Err(Fault::OutOfMemory);
        };
        let Ok((jobs, jobs_out)) = unbounded(alloc) else {
            return Err(Fault::OutOfMemory);
        };
        let Ok((leaves, gone)) = unbounded(alloc) else {
            return Err(Fault::OutOfMemory);
        };
        let shared = Shared {
            hall: Mutex::new(None),
            answered: Condvar::new(),
            stood: Condvar::new(),
            gate,
        };
        let Ok(shared) = Arc::new(alloc, shared) else {
            return Err(Fault::OutOfMemory);
        };
        let mut hired = Hired {
            crew: Crew {
                shared,
                threads: 0,
                gone,
            },
            letters,
            jobs,
        };
        let ways = Ways {
            letters: letters_out,
            jobs: jobs_out,
            leaves,
        };
        if !hired.hire(rt, app, &ways, workers) {
            hired.dismiss(&rt);
            return Err(Fault::OutOfMemory);
        }
        Ok(hired)
    }

    /// Starts the couriers and so many workers, and says whether it could.
    fn hire<R: Threads + Wait + Copy + Send + Sync + 'static>(
        &mut self,
        rt: R,
        app: A,
        ways: &Ways,
        workers: usize,
    ) -> bool {
        for _ in 0..COURIERS {
            if !self.hire_one(rt, app, ways, Duty::Carry) {
                return false;
            }
        }
        for _ in 0..workers {
            if !self.hire_one(rt, app, ways, Duty::Work) {
                return false;
            }
        }
        true
    }

    /// Starts a thread, and says whether it could.
    fn hire_one<R: Threads + Wait + Copy + Send + Sync + 'static>(
        &mut self,
        rt: R,
        app: A,
        ways: &Ways,
        duty: Duty,
    ) -> bool {
        let Ok(shared) = Arc::try_clone(&self.crew.shared) else {
            return false;
        };
        let Some(ways) = ways.again() else {
            return false;
        };
        let life = move || {
            match duty {
                Duty::Carry => carry(&rt, &*shared, &ways.letters),
                Duty::Work => work(&rt, app, &*shared, &ways.jobs),
            }
            drop(shared);
            let _ = ways.leaves.send(&rt, ());
        };
        match thread::spawn(&rt, life) {
            Ok(_thread) => {
                self.crew.threads = self.crew.threads.saturating_add(1);
                true
            }
            Err(_) => false,
        }
    }
}
