//! A durable store of one process: a journal of epochs, and the rows where they leave it. An epoch is added to the journal and
//! kept there before it is run, and its answers are those of the serial run of all the journal's epochs.
#![tactic(auto)]

mod desk;
mod laws;
mod one_epoch;
mod setting;

pub use desk::{Desk, run_epoch};
pub use laws::{answered_as_a_script, answered_in_two};
pub use setting::Setting;
