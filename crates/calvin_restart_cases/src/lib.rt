//! Restarts everywhere, refused memory, and rows that come early: a list of events that moves a number across partitions is run in a
//! world with each node restarted after each event, with each allocation refused, and with a node behind the other one of its replica.
//! Checked here over the statements of the crates below.
#![tactic(auto)]

#[cfg(test)]
mod checks;
#[cfg(test)]
mod early;
mod giving_back;
#[cfg(test)]
mod listed;
#[cfg(test)]
mod restarts;
#[cfg(test)]
mod runs;
#[cfg(test)]
mod scarce_world;

pub use giving_back::give_back;
