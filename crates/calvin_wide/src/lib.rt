//! A running store with a lock for each node: callers in threads submit requests and wait for answers; couriers deliver packets,
//! and workers run requests. What each node did is its history, and callers get receipts, whose statements are met of the histories
//! that the store leaves; `assemble` of calvin_histories finds the one list of events that they are parts of.
#![tactic(auto)]

mod board;
mod cluster;
mod courier;
mod gate;
mod hall;
mod threads;
mod worker;

pub use calvin_chronicles::{Naming, Opened};
pub use calvin_cluster::{Gate, MOST_WORKERS, Open};
pub use calvin_wide_desk::{Entered, Replied, WideAnswer, WideFounding, WideStopped, WideTicket};
pub use cluster::{StoreWideCluster, WideCluster, opened_for};
pub use gate::WideGate;
