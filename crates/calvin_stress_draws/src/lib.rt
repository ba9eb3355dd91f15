//! What running stores are put under stress with: runs that are drawn by their numbers, the requests of their callers, and a plain
//! checker of the answers.
#![tactic(auto)]

mod checking;
mod drawing;

pub use checking::{Replied, right_replies};
pub use drawing::{Run, node_of, request_of, run_of};
