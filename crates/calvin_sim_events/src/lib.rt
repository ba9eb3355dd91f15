//! What happens in a world under a schedule, once a script is submitted: events that are drawn from a start number, and then
//! those that bring every node to the last epoch. None of them submits or closes anything, nodes restart in drawn ones
//! alone, where that is asked for, and no packet of a replica is delivered whose packets are lost.
#![tactic(auto)]

mod asking;
mod drawing;
mod schedule;
mod stepping;
mod working;

pub use asking::bring_on;
pub use drawing::draw_events;
pub use schedule::{MOST_STEPS, Restarts, Schedule};
