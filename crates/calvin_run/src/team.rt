//! Who runs a script.
ghost use Rattle.std.specs.Prelude.{◌≡◌, ◌<◌, ◌≤◌, IfSome, IsSome, ◌↔◌};
ghost use Rattle.calvin_types.specs.Limits.{IsInRange};
ghost use Rattle.calvin_cluster.specs.declared.cluster.TheConstants.{MOST_WORKERS};

use calvin_cluster::MOST_WORKERS;
use calvin_types::MOST_REPLICAS;

/// How many replicas there are, 1 to 7, how many workers run their requests, 1 to 16, and whether each node has a lock of its own.
#[derive(Clone, Copy, Debug, PartialEq, Eq)]
pub struct Team {
    pub replicas: u8,
    pub workers: usize,
    /// The nodes' histories are then assembled.
    pub wide: bool,
    ghost in_range: { IsInRange 1 replicas },
    ghost some_worker: { 0 < workers },
    ghost workers_at_most: { workers ≤ MOST_WORKERS },
}

impl Team {
    /// So many replicas and workers, and a lock for each node where it is wide: none where there are no replicas or more than 7, and
    /// none where there are no workers or more than 16.
    pub fn new(replicas: u8, workers: usize, wide: bool) -> Option<Team>
        ensures replicas { IfSome result (λ t. t.replicas ≡ replicas) }
        ensures workers { IfSome result (λ t. t.workers ≡ workers) }
        ensures wide { IfSome result (λ t. t.wide ≡ wide) }
        ensures some { IsSome result ↔ (IsInRange 1 replicas × (0 < workers) × (workers ≤ MOST_WORKERS)) }
    {
        if replicas == 0 || replicas > MOST_REPLICAS {
            return None;
        }
        if workers == 0 || workers > MOST_WORKERS {
            return None;
        }
        Some(Team {
            replicas,
            workers,
            wide,
        })
    }
}
