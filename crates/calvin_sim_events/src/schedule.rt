//! What is drawn.
ghost use Rattle.std.specs.Prelude.{◌≡◌, ◌≤◌, ◌<◌, false, true, None, Some, IfSome, IsSome, ◌↔◌};
ghost use Rattle.calvin_types.specs.Limits.{IsInRange};

use calvin_types::MOST_REPLICAS;

/// The most events that are drawn.
pub const MOST_STEPS: u32 = 100_000;

/// Whether nodes restart. Where some do, nodes also open points of consistency and take snapshots of them, and rows cool.
#[derive(Clone, Copy, Debug, PartialEq, Eq)]
pub enum Restarts {
    /// None does.
    Never,
    /// Those of the replicas above 0 do now and then.
    AboveReplicaZero,
}

/// Under which schedule a script is run: the number from which events are drawn, how many of them, how many replicas there
/// are, whether nodes restart, whether packets are repeated, and of which replica all packets are lost.
#[derive(Clone, Copy, Debug, PartialEq, Eq)]
pub struct Schedule {
    pub start: u64,
    pub steps: u32,
    pub replicas: u8,
    pub restarts: Restarts,
    /// Whether each pass that brings the nodes on delivers every packet again that was there when it began.
    pub repeats: bool,
    /// The replica of whose nodes no packet is ever delivered, if there is one.
    pub lost: Option<u8>,
    ghost in_range: { IsInRange 1 replicas },
}

impl Schedule {
    /// The schedule with these numbers, where no packet is repeated and none lost for good: none of more than 100,000 events, and
    /// none without replicas or with more than 7.
    pub fn new(start: u64, steps: u32, replicas: u8, restarts: Restarts) -> Option<Schedule>
        ensures start { IfSome result (λ s. s.start ≡ start) }
        ensures steps { IfSome result (λ s. s.steps ≡ steps) }
        ensures replicas { IfSome result (λ s. s.replicas ≡ replicas) }
        ensures restarts { IfSome result (λ s. s.restarts ≡ restarts) }
        ensures repeats { IfSome result (λ s. s.repeats ≡ false) }
        ensures lost { IfSome result (λ s. s.lost ≡ None) }
        ensures some { IsSome result ↔ ((steps ≤ MOST_STEPS) × IsInRange 1 replicas) }
    {
        if steps > MOST_STEPS || replicas == 0 || replicas > MOST_REPLICAS {
            return None;
        }
        Some(Schedule {
            start,
            steps,
            replicas,
            restarts,
            repeats: false,
            lost: None,
        })
    }

    /// The same schedule, but packets are repeated.
    pub fn with_repeats(self) -> Schedule
        ensures { result ≡ record self { repeats = true } }
    {
        let mut schedule = self;
        schedule.repeats = true;
        schedule
    }

    /// The same schedule, but the packets of this replica are lost: none of the replica 0, where requests are submitted, and
    /// none of one that isn't there.
    pub fn losing(self, replica: u8) -> Option<Schedule>
        ensures ok { IfSome result (λ s. s ≡ record self { lost = Some replica }) }
        ensures some { IsSome result ↔ ((0 < replica) × (replica < self.replicas)) }
    {
        if replica == 0 || replica >= self.replicas {
            return None;
        }
        let mut schedule = self;
        schedule.lost = Some(replica);
        Some(schedule)
    }
}
