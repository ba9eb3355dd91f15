//! A running store: callers in threads submit requests and wait for answers; couriers deliver packets, and workers run requests,
//! over one book under one lock. Callers get receipts, whose statements are met of the book that the cluster leaves.
#![tactic(auto)]

mod cluster;
mod crew;
mod gate;
mod threads;

pub use calvin_chronicle::{Naming, Opened};
pub use calvin_cluster_desk::{Drill, Founding, NO_DRILL, Report, Stopped, Ticket, Told};
pub use cluster::{Cluster, MOST_WORKERS, StoreCluster};
pub use gate::{Gate, Open};
