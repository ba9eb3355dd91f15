//! The engine `sim`: a script in, and the text of its run in a whole world out, under a drawn schedule. The world's events
//! are the script's submissions, then those of the schedule (calvin_sim_events).
#![tactic(auto)]

mod engine;
mod fitting;
mod simulation;
mod submitting;
mod telling;

pub use engine::{Simulated, sim};
pub use fitting::{fits, read_is_taken};
pub use simulation::simulate;
pub use telling::simulate_and_tell;
