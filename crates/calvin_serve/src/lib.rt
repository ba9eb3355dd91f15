//! A durable transaction service over lines: requests come as lines, what has come is one epoch, the epoch is added to the
//! journal and synced, run, and answered.
#![tactic(auto)]

mod engine;
mod refusal;
mod sitting;

pub use engine::serve;
