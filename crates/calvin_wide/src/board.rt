//! What is under way in a store, and the ways to its threads.
use calvin_app::App;
use calvin_lock::Locks;
use calvin_store::Rows;
use calvin_types::{NodeId, Place};
use calvin_wide_desk::{Errand, Letter, Post, WideFounding};
use crossbeam_channel::Sender;
use std::alloc::Global;
use std::sync::Wait;

/// So often what failed for want of memory is tried.
pub(crate) const MOST_TRIES: u32 = 64;
/// So often what is missing is asked for where nothing comes of it.
const MOST_ROUNDS: u32 = 32;

/// The ways to the threads: they end where these go.
#[derive(Drop)]
pub(crate) struct Ways {
    pub letters: Sender<(NodeId, Letter)>,
    pub jobs: Sender<(NodeId, Place)>,
}

/// What all nodes share.
#[derive(Drop)]
pub(crate) struct Board {
    /// They are gone once the store has stopped.
    pub ways: Option<Ways>,
    /// How many letters and jobs were handed out and aren't done, and how many callers and rounds of asking haven't sent yet what comes
    /// of them.
    under_way: usize,
    /// How often what is missing was asked for since something came of it,
    rounds: u32,
    /// and how often at all.
    asked: u32,
}

/// What threads do next.
#[derive(Drop)]
pub(crate) struct Outgoing {
    partitions: u8,
    letters: Vec<(NodeId, Letter)>,
    jobs: Vec<(NodeId, Place)>,
    /// Something came of what was done.
    pub moved: bool,
    /// There was no room for some of it, which is to be taken again.
    pub is_short: bool,
}

impl Outgoing {
    pub fn new(alloc: Global, partitions: u8) -> Outgoing {
        Outgoing {
            partitions,
            letters: Vec::new(alloc),
            jobs: Vec::new(alloc),
            moved: false,
            is_short: false,
        }
    }

    /// Takes what is to be done for a node. What there is no room for stays there.
    pub fn take<A: App + Drop, L: Locks + Drop, S: Rows<A::Row> + Drop, J: WideFounding>(
        &mut self,
        post: &mut Post<A, L, S, J>,
    ) {
        let id = post.id();
        for _ in 0..u64::MAX {
            if self.letters.reserve(self.partitions as usize).is_err()
                || self.jobs.reserve(1).is_err()
            {
                self.is_short = true;
                break;
            }
            let Some(errand) = post.next_errand() else {
                break;
            };
            match errand {
                Errand::Bring(to, letter) => self.bring(to, letter),
                Errand::TellClosed(group, epochs) => self.tell_closed(group, epochs),
                Errand::Run(place) => {
                    if self.jobs.push((id, place)).is_err() {
                        self.is_short = true;
                    }
                }
            }
        }
    }

    fn bring(&mut self, to: NodeId, letter: Letter) {
        if self.letters.push((to, letter)).is_err() {
            self.is_short = true;
        }
    }

    /// The nodes of replica 0 of all groups but one are told that so many epochs were closed.
    fn tell_closed(&mut self, group: u8, epochs: u64) {
        for partition in 0..self.partitions {
            if partition != group {
                let to = NodeId {
                    replica: 0,
                    partition,
                };
                self.bring(to, Letter::Closed(epochs));
            }
        }
    }
}

/// What became of what was handed in at the board.
#[derive(Clone, Copy, PartialEq, Eq)]
pub(crate) enum Sent {
    /// It is under way, or something else is.
    Busy,
    /// Nothing is under way, or nobody would come back for what there was no room for.
    Idle,
    /// There was no room for it.
    Short,
}

impl Board {
    pub fn new(ways: Ways) -> Board {
        Board {
            ways: Some(ways),
            under_way: 0,
            rounds: 0,
            asked: 1,
        }
    }

    /// Somebody begins to do something at a node. It is under way until what comes of it is sent.
    pub fn begin(&mut self) {
        self.under_way = self.under_way.saturating_add(1);
    }

    /// Whether nobody does anything but one who has begun.
    pub fn is_alone(&self) -> bool {
        self.under_way <= 1
    }

    /// So much is done, and what came of it is sent to the threads.
    pub fn send<R: Wait>(&mut self, rt: &R, outgoing: &Outgoing, done: usize) -> Sent {
        if outgoing.moved {
            self.rounds = 0;
        }
        let Some(ways) = &self.ways else {
            return Sent::Busy;
        };
        let more = outgoing.letters.len().saturating_add(outgoing.jobs.len());
        self.under_way = self.under_way.saturating_add(more).saturating_sub(done);
        for letter in &outgoing.letters {
            if !ways.bring(rt, *letter) {
                return Sent::Short;
            }
        }
        for job in &outgoing.jobs {
            if !ways.run(rt, *job) {
                return Sent::Short;
            }
        }
        if self.under_way == 0 || outgoing.is_short {
            Sent::Idle
        } else {
            Sent::Busy
        }
    }

    /// The number of the next round of asking among all, which begins, unless that was done 32 times and nothing came of it.
    pub fn next_round(&mut self) -> Option<u32> {
        if self.rounds >= MOST_ROUNDS {
            return None;
        }
        let round = self.asked;
        self.asked = self.asked.wrapping_add(1);
        self.rounds = self.rounds.saturating_add(1);
        self.begin();
        Some(round)
    }

    /// A round in which nothing was missing, or there was no memory to ask, doesn't count.
    pub fn take_back_round(&mut self) {
        self.rounds = self.rounds.saturating_sub(1);
    }
}

impl Ways {
    /// Sends a letter to the couriers, and says whether there was room for it, at one of 64 times.
    fn bring<R: Wait>(&self, rt: &R, letter: (NodeId, Letter)) -> bool {
        for _ in 0..MOST_TRIES {
            if self.letters.send(rt, letter).is_ok() {
                return true;
            }
        }
        false
    }

    /// Sends a job to the workers, and says whether there was room for it, at one of 64 times.
    fn run<R: Wait>(&self, rt: &R, job: (NodeId, Place)) -> bool {
        for _ in 0..MOST_TRIES {
            if self.jobs.send(rt, job).is_ok() {
                return true;
            }
        }
        false
    }
}
