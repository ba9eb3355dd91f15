//! The engine `check`: a list of events in, what they make of a world out.
#![tactic(auto)]

mod engine;
mod expecting;
mod running;

pub use engine::check;
