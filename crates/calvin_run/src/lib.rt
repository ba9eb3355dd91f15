//! The engine `run`: a script in, and the text of its run in a cluster out. The script's batches are submitted and closed in a
//! book, which couriers and workers then bring to the last epoch (calvin_cluster); the book that they leave is given back. In a wide
//! run each node has a lock of its own (calvin_wide), and the book that is given back is of the one list that its nodes' histories
//! are assembled to (calvin_histories).
#![tactic(auto)]

mod engine;
mod outside;
mod running;
mod submitting;
mod team;
mod telling;

pub use engine::{Ran, run};
pub use team::Team;
